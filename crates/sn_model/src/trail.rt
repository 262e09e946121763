//! The steps from a network to a part of it.
ghost use Rattle.std.specs.Prelude.{[], ◌∷◌, ◌++◌, ◌≡◌, IfOk, MatchOption, length};

use crate::step::Step;
use sn_list::Memory;
use std::alloc::Global;
use std::marker::Model;
use std::sync::Arc;

/// The steps from a network to a part of it, seen as a list. Trails share their beginnings, also between threads, so those to all levels of a
/// star take memory in its depth.
#[derive(Drop)]
#[cycle(trail)]
pub struct Trail {
    last: Option<Arc<Link>>,
}

#[derive(Drop)]
#[cycle(trail)]
struct Link {
    above: Trail,
    step: Step,
}

impl Model for Trail {
    ghost use Rattle.std.specs.Prelude.{List, length};
    ghost use Rattle.std.specs.Coded.{coded_list};
    ghost use Rattle.sn_model.specs.declared.step.Step.{Step};
    ghost use Rattle.sn_model.specs.contracts.step.Step as step;

    ghost Value = { List Step };

    ghost coded = { coded_list step.the_row.coded };

    ghost use Rattle.sn_model.specs.Trail.{steps_of};

    ghost view = { λ trail. steps_of trail.last };

    ghost size = { length };

    ghost use Rattle.std.proofs.Common.{arith, length-append};

    ghost size_decreases = { λ a h. Prim.grind (arith, length-append) };
}

impl Trail {
    /// No step.
    pub fn new() -> Trail
        ensures { result ≡ [] }
    {
        Trail { last: None }
    }

    /// The last step, and the trail to where it begins. From there the step before can be had, and so on. It wants no memory.
    pub fn last(&self) -> Option<(&Trail, Step)>
        ensures { MatchOption result (self.now ≡ []) (λ last. self.now ≡ last.0.now ++ last.1 ∷ []) }
    {
        match &self.last {
            None => None,
            Some(link) => Some((&link.above, link.step)),
        }
    }

    /// The same trail again, which shares all its steps.
    pub fn share(&self) -> Result<Trail, Memory>
        ensures { IfOk result (λ same. same ≡ self.now) }
    {
        match &self.last {
            None => Ok(Trail { last: None }),
            Some(link) => {
                let link = Arc::try_clone(link)?;
                Ok(Trail { last: Some(link) })
            }
        }
    }

    /// One step more.
    pub fn further(self, alloc: Global, step: Step) -> Result<Trail, Memory>
        ensures { IfOk result (λ longer. longer ≡ self ++ step ∷ []) }
    {
        let link = Arc::new(alloc, Link { above: self, step })?;
        Ok(Trail { last: Some(link) })
    }
}

fn may_cross<T: Send + Sync>(_: &T) {}

/// A trail may go to another thread, and threads may share one, as they may share beginnings of it.
pub fn trails_may_cross(trail: &Trail) {
    may_cross(trail);
}

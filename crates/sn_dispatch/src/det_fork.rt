ghost use Rattle.std.specs.Prelude.{◌≡◌, [], ◌∷◌, ◌++◌, IfErr, MatchOption, OnErr, OnOk, slice_get};
ghost use Rattle.std.specs.Option.{option_copied};

use sn_net::Key;
use sn_record::Item;
use std::alloc::{AllocFailed, Global};
use std::collections::VecDeque;
use std::marker::Model;

/// What a dispatcher decided of an entry that came in.
#[derive(PartialEq, Eq, Drop)]
pub enum Decision {
    /// The item went to the child of that key.
    To(Key),
    /// This passes the children by.
    Own(Item),
    /// A border of an enclosing dispatcher.
    Mark,
    End,
}

/// What a deterministic dispatcher decided and has not served yet, seen as the list of it.
#[derive(Drop)]
pub struct DetFork {
    decisions: VecDeque<Decision>,
}

impl Model for DetFork {
    ghost use Rattle.std.specs.Prelude.{List};
    ghost use Rattle.std.specs.Coded.{coded_list};
    ghost use Rattle.sn_dispatch.specs.declared.det_fork.Decision.{Decision};
    ghost use Rattle.sn_dispatch.specs.contracts.det_fork.Decision as decision;

    ghost Value = { List Decision };

    ghost coded = { coded_list decision.the_row.coded };

    ghost view = { λ fork. fork.decisions.items };
}

impl DetFork {
    ghost use Rattle.std.specs.Prelude.{List};
    ghost use Rattle.sn_dispatch.specs.declared.det_fork.Decision.{Decision};

    /// Nothing was decided yet. Takes no memory until something is noted.
    pub fn new(alloc: Global) -> DetFork
        ensures { result ≡ [] }
    {
        DetFork {
            decisions: VecDeque::new(alloc),
        }
    }

    /// Appends a decision. For want of memory it comes back, and nothing is noted.
    pub fn note(&mut self, d: Decision) -> Result<(), Decision>
        ensures ok { OnOk result (self.new ≡ self.old ++ d ∷ []) }
        ensures err { OnErr result (self.new ≡ self.old) }
        ensures back { IfErr result (λ refused. refused ≡ d) }
    {
        match self.decisions.push_back(d) {
            Ok(()) => Ok(()),
            Err(refused) => {
                let AllocFailed { value } = refused;
                Err(value)
            }
        }
    }

    /// Puts another in place of the decision that was noted last.
    pub fn set_last(&mut self, d: Decision)
        ensures last { (ds : List Decision) (x : Decision) → self.old ≡ ds ++ x ∷ [] → self.new ≡ ds ++ d ∷ [] }
        ensures none { self.old ≡ [] → self.new ≡ [] }
    {
        if self.decisions.pop_back().is_some() {
            self.decisions.push_back_reserved(d);
        }
    }

    /// Takes the decision that was noted last away again.
    pub fn drop_last(&mut self)
        ensures last { (ds : List Decision) (x : Decision) → self.old ≡ ds ++ x ∷ [] → self.new ≡ ds }
        ensures none { self.old ≡ [] → self.new ≡ [] }
    {
        let _last = self.decisions.pop_back();
    }

    /// The decision that is to be served next.
    pub fn first(&self) -> Option<&Decision>
        ensures { option_copied result ≡ slice_get self.now 0 }
    {
        self.decisions.front()
    }

    /// Takes the first decision, or answers nothing where none is kept.
    pub fn drop_first(&mut self) -> Option<Decision>
        ensures { MatchOption result ((self.old ≡ []) × (self.new ≡ [])) (λ d. self.old ≡ d ∷ self.new) }
    {
        self.decisions.pop_front()
    }
}

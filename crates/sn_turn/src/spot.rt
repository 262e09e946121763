//! Where parts of a network stand.
ghost use Rattle.std.specs.Prelude.{◌≡◌, ◌++◌, ◌∷◌, [], IfOk};

use sn_list::{Memory, Seq};
use sn_model::{Step, Trail};
use sn_stack::append;
use std::alloc::Global;

/// Where a part of a network stands: the steps to it, and the numbers of the parts on the way there.
pub(crate) struct Spot {
    pub(crate) steps: Trail,
    pub(crate) path: Seq<u32>,
}

/// Written out, so that a function that gives it up calls this, and is not proved over what is in it.
impl Drop for Spot {
    fn drop(self) {
        let Spot {
            steps: _steps,
            path: _path,
        } = self;
    }
}

/// One step behind these steps, at the part of this number below the part at a path.
pub(crate) fn below(
    alloc: Global,
    steps: &Trail,
    path: &Seq<u32>,
    step: Step,
    part: u32,
) -> Result<Spot, Memory>
    ensures steps { IfOk result (λ spot. spot.steps ≡ steps.now ++ step ∷ []) }
    ensures path { IfOk result (λ spot. spot.path ≡ path.now ++ part ∷ []) }
{
    let steps = steps.share()?.further(alloc, step)?;
    let mut path = Seq::from_slice(alloc, path.as_slice())?;
    append(&mut path, part)?;
    Ok(Spot { steps, path })
}

impl Spot {
    /// Where these steps lead, at the part at a path.
    pub(crate) fn new(alloc: Global, steps: Trail, path: &Seq<u32>) -> Result<Spot, Memory>
        ensures steps { IfOk result (λ spot. spot.steps ≡ steps) }
        ensures path { IfOk result (λ spot. spot.path ≡ path.now) }
    {
        let path = Seq::from_slice(alloc, path.as_slice())?;
        Ok(Spot { steps, path })
    }

    /// One step further, at the part of this number.
    pub(crate) fn below(&self, alloc: Global, step: Step, part: u32) -> Result<Spot, Memory>
        ensures steps { IfOk result (λ spot. spot.steps ≡ self.now.steps ++ step ∷ []) }
        ensures path { IfOk result (λ spot. spot.path ≡ self.now.path ++ part ∷ []) }
    {
        below(alloc, &self.steps, &self.path, step, part)
    }
}

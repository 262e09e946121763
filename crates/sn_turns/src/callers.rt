//! Who makes the calls of boxes for the owner of a graph.
ghost use Rattle.std.specs.Prelude.{◌≡◌, IfErr, IfSome};
ghost use Rattle.sn_model.specs.declared.run.Run.{Run};
ghost use Rattle.sn_boxrun.specs.Job.{IsJobOf};
ghost use Rattle.sn_jobs.specs.Queues.{IsDoneOf};

use sn_boxrun::{Done, Job};
use sn_io::Gate;
use sn_model::Trail;
use sn_workers::Shared;
use std::sync::Wait;

/// Take calls, and give answers back. Where an answer has come, or memory is refused to who makes a call, they tell it by the signals that are shared,
/// since the owner sleeps on them.
pub trait Callers {
    /// What they are given and give is of this run.
    ghost are_of: { Self → Run → Type 0 };

    /// Takes a call, of the box to which these steps lead, or gives it back: then it is to be made in this thread.
    fn give<R: Wait, G: Gate>(
        &mut self,
        rt: &R,
        shared: &Shared<G>,
        steps: &Trail,
        job: Job,
    ) -> Result<(), Job>
        requires of { are_of self.old shared.now.run.now.value }
        requires job { IsJobOf shared.now.run.now.value job }
        ensures of { are_of self.new shared.now.run.now.value }
        ensures back { IfErr result (λ refused. refused ≡ job) };

    /// An answer that has come, if there is one.
    fn collect<R: Wait, G: Gate>(&mut self, rt: &R, shared: &Shared<G>) -> Option<Done>
        requires of { are_of self.old shared.now.run.now.value }
        ensures of { are_of self.new shared.now.run.now.value }
        ensures done { IfSome result (IsDoneOf shared.now.run.now.value) };

    /// A call that was taken and is not begun yet, if there is one: the owner, who has nothing else to do, makes it.
    fn take_back<R: Wait, G: Gate>(&mut self, rt: &R, shared: &Shared<G>) -> Option<Job>
        requires of { are_of self.old shared.now.run.now.value }
        ensures of { are_of self.new shared.now.run.now.value }
        ensures job { IfSome result (IsJobOf shared.now.run.now.value) };
}

//! What all threads of a run share.
ghost use Rattle.std.specs.Prelude.{◌≡◌, IfErr, IfOk};
ghost use Rattle.sn_boxrun.specs.Job.{IsAnswer, IsJobOf};
ghost use Rattle.sn_jobs.specs.Queues.{IsDoneOf};

use crate::signals::Signals;
use sn_boxrun::{Done, Job, make_done};
use sn_io::Gate;
use sn_model::Run;
use std::alloc::Global;
use std::sync::Arc;

/// The run, the gate round each call, and what the threads tell each other.
#[derive(Drop)]
pub struct Shared<'a, G> {
    pub alloc: Global,
    pub run: &'a Arc<Run>,
    pub gate: &'a G,
    pub signals: Signals,
}

impl<G: Gate> Shared<'_, G> {
    /// Makes the call of a job in this thread, under the gate. For want of memory the job comes back.
    pub fn make_call(&self, job: Job) -> Result<Done, Job>
        requires { IsJobOf self.now.run.now.value job }
        ensures of_run { IfOk result (IsDoneOf self.now.run.now.value) }
        ensures job { IfOk result (λ done. done.job ≡ job) }
        ensures answer { IfOk result (λ done. IsAnswer self.now.run.now.value job done.items) }
        ensures back { IfErr result (λ refused. refused ≡ job) }
    {
        let call = job.call;
        self.gate.enter(call);
        let made = make_done(self.alloc, self.run, job);
        self.gate.leave(call);
        made
    }
}

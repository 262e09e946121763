//! Calls of boxes as jobs, which whoever holds the run may make.
ghost use Rattle.std.specs.Prelude.{◌≡◌, IfErr, IfOk};
ghost use Rattle.sn_net.specs.Coding.{items_once};
ghost use Rattle.sn_boxrun.specs.Job.{IsAnswer, IsJobOf};

use crate::answer::call;
use sn_list::Memory;
use sn_model::Run;
use sn_record::{Items, Record};
use std::alloc::Global;
use std::sync::Arc;

/// A call of a box that is to be made.
#[derive(Drop)]
pub struct Job {
    /// How many calls were started before it.
    pub call: u64,
    /// The number of the box.
    pub number: u32,
    /// Where the box's name stands in the network, as a byte offset in the source.
    pub place: u32,
    pub given: Record,
}

/// What a call gave. Its items are what the box of the run answers to the record of the job, with the fuel of the run.
#[derive(Drop)]
pub struct Done {
    run: Arc<Run>,
    job: Job,
    items: Items,
    pub ghost of_run: { IsJobOf run.value job },
    pub ghost is_answer: { IsAnswer run.value job items } by { items_once _ _ },
}

impl Done {
    /// What a call gave that was made elsewhere, as it was told.
    pub fn made(run: Arc<Run>, job: Job, items: Items) -> Done
        requires of_run { IsJobOf run.value job }
        requires is_answer { IsAnswer run.value job items }
        ensures run { result.run.value ≡ run.value }
        ensures job { result.job ≡ job }
        ensures items { result.items ≡ items }
    {
        Done { run, job, items }
    }

    /// The run that it is of.
    pub fn run(&self) -> &Run
        ensures { result.now ≡ self.now.run.value }
    {
        &self.run
    }

    pub fn job(&self) -> &Job
        ensures { result.now ≡ self.now.job }
    {
        &self.job
    }

    /// What the box answered.
    pub fn items(&self) -> &Items
        ensures { result.now ≡ self.now.items }
    {
        &self.items
    }

    /// The job, and what the box answered.
    pub fn into_parts(self) -> (Job, Items)
        ensures job { result.0 ≡ self.job }
        ensures items { result.1 ≡ self.items }
        ensures answer { IsAnswer self.run.value result.0 result.1 }
    {
        let Done { run: _, job, items } = self;
        (job, items)
    }
}

/// What the box of a job answers.
fn answer(alloc: Global, run: &Run, job: &Job) -> Result<Items, Memory>
    requires { IsJobOf run.now job.now }
    ensures { IfOk result (λ items. IsAnswer run.now job.now items) }
{
    let program = run.boxes().at(job.number as usize);
    call(alloc, program, job.place, &job.given, run.fuel())
}

/// Makes the call of a job. For want of memory the job comes back.
pub fn make_done(alloc: Global, run: &Arc<Run>, job: Job) -> Result<Done, Job>
    requires { IsJobOf run.now.value job }
    ensures run { IfOk result (λ done. done.run.value ≡ run.now.value) }
    ensures job { IfOk result (λ done. done.job ≡ job) }
    ensures answer { IfOk result (λ done. IsAnswer run.now.value job done.items) }
    ensures back { IfErr result (λ refused. refused ≡ job) }
{
    let Ok(items) = answer(alloc, run, &job) else {
        return Err(job);
    };
    let shared: Result<_, _> = run.clone();
    match shared {
        Ok(run) => Ok(Done { run, job, items }),
        Err(_) => Err(job),
    }
}

fn may_cross<T: Send>(_: &T) {}

/// A job may go to the thread that makes its call, and what that gave may come back.
pub fn jobs_may_cross(job: &Job, done: &Done) {
    may_cross(job);
    may_cross(done);
}

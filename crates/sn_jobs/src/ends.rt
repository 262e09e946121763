//! The owner's end of both queues, and the hands' ends.
//!
//! Of a call that finds a queue full, or empty, the clauses `full` and `empty` say that by the rule, and by what the end knows, there was such a
//! moment. They cannot say that the call looked: a step that is refused leaves what a pass knows as it was, and so tells it no more than it could
//! have known. A body that never looks meets them, at `give` once as many jobs were given as there is room for. Tests refuse it.
ghost use Rattle.std.specs.Prelude.{◌≡◌, ◌<◌, IfErr, IfNone, IfOk, IfSome, OnErr, OnOk, Some};
ghost use Rattle.sn_model.specs.Ranges.{IsWithin};
ghost use Rattle.sn_model.specs.declared.run.TheConstants.{LONGEST_QUEUE};
ghost use Rattle.sn_boxrun.specs.Job.{IsJobOf};
ghost use Rattle.sn_jobs.specs.Ends.{answers, collects, gives, joined, new_hand, new_owner, takes, WasFullOfAnswers, WasFullOfJobs, WasWithoutAnswers, WasWithoutJobs};
ghost use Rattle.sn_jobs.specs.Queues.{IsDoneOf};

use crate::rule::{Answers, Collects, DoneLine, Gives, JobLine, Takes};
use crossbeam_queue::Pass;
use sn_boxrun::{Done, Job};
use sn_list::Memory;
use sn_model::Run;
use sn_ruled::{Known, Opens, Owned, Shares};
use std::alloc::Global;
use std::marker::{Brand, Model};
use std::snapshot::Snapshot;
use std::sync::{Arc, Wait};

/// The two queues, and the run that all in them is of.
#[derive(Drop)]
pub struct Lines {
    jobs: JobLine,
    results: DoneLine,
    run: Snapshot<Run>,
}

/// Gives jobs and collects answers. It is the only one that does.
#[derive(Drop)]
pub struct JobOwner {
    lines: Arc<Lines>,
    job_pass: Pass<Job, Known<Run, Job>>,
    done_pass: Pass<Done, Known<Run, Done>>,
}

impl Model for JobOwner {
    ghost use Rattle.crossbeam_queue.specs.Passes.{view as knows};
    ghost use Rattle.sn_jobs.specs.Coding.{owner_code};
    ghost use Rattle.sn_jobs.specs.Ends.{IsOwnerOf, Owner, made_of};

    ghost Value = { Owner };

    ghost coded = { owner_code };

    ghost view = { λ o. record { made = made_of o.lines.value; given = (knows o.job_pass).pushed; collected = (knows o.done_pass).popped } };

    ghost invariant = { λ o. IsOwnerOf o.lines.value o.job_pass o.done_pass };
}

/// Takes jobs and answers them. More hands are split off it.
#[derive(Drop)]
pub struct JobHand {
    lines: Arc<Lines>,
    job_pass: Pass<Job, Known<Run, Job>>,
    done_pass: Pass<Done, Known<Run, Done>>,
}

impl Model for JobHand {
    ghost use Rattle.crossbeam_queue.specs.Passes.{view as knows};
    ghost use Rattle.sn_jobs.specs.Coding.{hand_code};
    ghost use Rattle.sn_jobs.specs.Ends.{Hand, IsHandOf, made_of};

    ghost Value = { Hand };

    ghost coded = { hand_code };

    ghost view = { λ h. record { made = made_of h.lines.value; taken = (knows h.job_pass).popped; answered = (knows h.done_pass).pushed } };

    ghost invariant = { λ h. IsHandOf h.lines.value h.job_pass h.done_pass };
}

impl JobOwner {
    /// Gives a job of the run. It comes back, which is called full, only where the queue was full at a step of this call (of which `full` says
    /// what a clause can). Takes no memory.
    pub fn give<R: Wait>(&mut self, rt: &R, job: Job) -> Result<(), Job>
        requires { IsJobOf self.old.made.run job }
        ensures given { OnOk result (self.new ≡ gives self.old job) }
        ensures made { self.new.made ≡ self.old.made }
        ensures back { IfErr result (λ refused. refused ≡ job) }
        ensures unchanged { OnErr result (self.new ≡ self.old) }
        ensures full { OnErr result (WasFullOfJobs self.old) }
    {
        let jobs = &self.lines.jobs;
        jobs.push_as::<Gives, R>(rt, &mut self.job_pass, job)
    }

    /// Collects an answer, which is of the run. There is none only where the queue was empty at a step of this call (of which `empty` says what a
    /// clause can). Takes no memory.
    pub fn collect<R: Wait>(&mut self, rt: &R) -> Option<Done>
        ensures collected { IfSome result (λ done. self.new ≡ collects self.old done) }
        ensures made { self.new.made ≡ self.old.made }
        ensures of_run { IfSome result (IsDoneOf self.old.made.run) }
        ensures unchanged { IfNone result (self.new ≡ self.old) }
        ensures empty { IfNone result (WasWithoutAnswers self.old) }
    {
        let results = &self.lines.results;
        results.pop_as::<Collects, R>(rt, &mut self.done_pass)
    }
}

impl JobHand {
    /// Takes a job, which is of the run. There is none only where the queue was empty at a step of this call (of which `empty` says what a clause
    /// can). Takes no memory.
    pub fn take<R: Wait>(&mut self, rt: &R) -> Option<Job>
        ensures taken { IfSome result (λ job. self.new ≡ takes self.old job) }
        ensures made { self.new.made ≡ self.old.made }
        ensures of_run { IfSome result (IsJobOf self.old.made.run) }
        ensures unchanged { IfNone result (self.new ≡ self.old) }
        ensures empty { IfNone result (WasWithoutJobs self.old) }
    {
        let jobs = &self.lines.jobs;
        jobs.pop_as::<Takes, R>(rt, &mut self.job_pass)
    }

    /// Gives an answer of the run. It comes back, which is called full, only where the queue was full at a step of this call (of which `full` says
    /// what a clause can). Takes no memory.
    pub fn answer<R: Wait>(&mut self, rt: &R, done: Done) -> Result<(), Done>
        requires { IsDoneOf self.old.made.run done }
        ensures answered { OnOk result (self.new ≡ answers self.old done) }
        ensures made { self.new.made ≡ self.old.made }
        ensures back { IfErr result (λ refused. refused ≡ done) }
        ensures unchanged { OnErr result (self.new ≡ self.old) }
        ensures full { OnErr result (WasFullOfAnswers self.old) }
    {
        let results = &self.lines.results;
        results.push_as::<Answers, R>(rt, &mut self.done_pass, done)
    }

    /// Another hand at the same queues, which has done nothing yet.
    pub fn split(&mut self) -> Result<JobHand, Memory>
        ensures hand { IfOk result (λ hand. hand ≡ new_hand self.old.made) }
        ensures unchanged { self.new ≡ self.old }
    {
        let lines = Arc::try_clone(&self.lines)?;
        let job_pass = lines.jobs.another::<Shares>(&mut self.job_pass);
        let done_pass = lines.results.another::<Shares>(&mut self.done_pass);
        Ok(JobHand {
            lines,
            job_pass,
            done_pass,
        })
    }

    /// Takes in another hand at the same queues, with what it did.
    pub fn join(&mut self, other: JobHand)
        requires { other.made ≡ self.old.made }
        ensures { self.new ≡ joined self.old other }
    {
        let JobHand {
            lines: _,
            job_pass,
            done_pass,
        } = other;
        let lines = &self.lines;
        lines.jobs.absorb::<Shares>(&mut self.job_pass, job_pass);
        lines
            .results
            .absorb::<Shares>(&mut self.done_pass, done_pass);
    }
}

fn made<J: Owned<Run>>(
    alloc: Global,
    run: &Arc<Run>,
    capacity: u32,
) -> Result<(JobOwner, JobHand), Memory>
    requires run { J.owner ≡ Some run.now.value }
    requires capacity { 0 < capacity }
    ensures owner { IfOk result (λ ends. ends.0 ≡ new_owner ends.0.made) }
    ensures hand { IfOk result (λ ends. ends.1 ≡ new_hand ends.0.made) }
    ensures run { IfOk result (λ ends. ends.0.made.run ≡ run.now.value) }
    ensures room { IfOk result (λ ends. ends.0.made.capacity ≡ capacity) }
{
    let (jobs, mut giving) = JobLine::ruled(alloc, capacity as usize)?;
    let (results, mut answering) = DoneLine::ruled(alloc, capacity as usize)?;
    let taking = jobs.another::<Opens<J>>(&mut giving);
    let collecting = results.another::<Opens<J>>(&mut answering);
    let lines = Lines {
        jobs,
        results,
        run: Snapshot::<Run>::of(run),
    };
    let lines = Arc::new(alloc, lines)?;
    let owner = JobOwner {
        lines: Arc::try_clone(&lines)?,
        job_pass: giving,
        done_pass: collecting,
    };
    let hand = JobHand {
        lines,
        job_pass: taking,
        done_pass: answering,
    };
    Ok((owner, hand))
}

/// The two queues of a run, each with room for so many.
pub fn make(alloc: Global, run: &Arc<Run>, capacity: u32) -> Result<(JobOwner, JobHand), Memory>
    requires { IsWithin capacity LONGEST_QUEUE }
    ensures owner { IfOk result (λ ends. ends.0 ≡ new_owner ends.0.made) }
    ensures hand { IfOk result (λ ends. ends.1 ≡ new_hand ends.0.made) }
    ensures run { IfOk result (λ ends. ends.0.made.run ≡ run.now.value) }
    ensures room { IfOk result (λ ends. ends.0.made.capacity ≡ capacity) }
{
    made::<Brand>(alloc, run, capacity)
}

fn moves_between_threads<T: Send>(_end: &T) {}

/// Both ends may go to other threads.
pub fn ends_are_send(owner: &JobOwner, hand: &JobHand) {
    moves_between_threads(owner);
    moves_between_threads(hand);
}

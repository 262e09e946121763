//! The ends of a link: those near the network, which send jobs and collect what their calls gave, and those at the node.
//!
//! Of a call that finds a queue full, or empty, the clauses `full` and `empty` say that by the rule, and by what the end knows, there was such a
//! moment. They cannot say that the call looked: a step that is refused leaves what a pass knows as it was, and so tells it no more than it could
//! have known. A body that never looks meets them, at `send` once as many jobs were sent as there is room for.
ghost use Rattle.std.specs.Prelude.{◌≡◌, ◌<◌, ◌↔◌, IfErr, IfNone, IfOk, IfSome, IsTrue, OnErr, OnOk, Some};
ghost use Rattle.sn_model.specs.Ranges.{IsWithin};
ghost use Rattle.sn_model.specs.declared.run.TheConstants.{LONGEST_QUEUE};
ghost use Rattle.sn_boxrun.specs.Job.{IsJobOf};
ghost use Rattle.sn_wire.specs.Wire.{AreCounted, IsCounted};
ghost use Rattle.sn_links.specs.Ends.{Leads, Loses, MovesDone, MovesJob, joined, new_end, node_at, placement_of, run_of, WasFullOfDones, WasFullOfJobs, WasWithoutDones, WasWithoutJobs};
ghost use Rattle.sn_links.specs.Nodes.{IsServed, nodes_of};
ghost use Rattle.sn_links.specs.Reading.{IsDoneSpelled, IsJobSpelled, OnlyDone, OnlyJob};
ghost use Rattle.sn_links.specs.declared.fault.SendCause.TheVariants.{Full};
ghost use Rattle.sn_wire.specs.Format.{SpellsDone, SpellsJob};

use crate::fault::{DoneFault, SendCause, SendFault};
use crate::node::is_made;
use crate::placement::Placement;
use crate::rule::{Answers, Collects, DoneLine, JobLine, Sends, Takes, Target};
use crossbeam_queue::Pass;
use sn_boxrun::{Done, Job};
use sn_list::Memory;
use sn_model::{Run, Step};
use sn_record::Items;
use sn_ruled::{Known, Opens, Owned, Shares};
use sn_wire::{Bytes, WireFault, read_done, read_job, write_done, write_job};
use std::alloc::Global;
use std::marker::{Brand, Model};
use std::snapshot::Snapshot;
use std::sync::{Arc, Wait};

/// The two queues, and where they lead.
#[derive(Drop)]
pub struct Lines {
    jobs: JobLine,
    results: DoneLine,
    target: Target,
}

/// Sends jobs to a node. It is the only one that does.
#[derive(Drop)]
pub struct JobLink {
    lines: Arc<Lines>,
    placement: Arc<Placement>,
    alloc: Global,
    pass: Pass<Bytes, Known<Target, Bytes>>,
}

impl Model for JobLink {
    ghost use Rattle.std.specs.Prelude.{◌≡◌};
    ghost use Rattle.crossbeam_queue.specs.Passes.{view as knows};
    ghost use Rattle.sn_links.specs.Coding.{end_code};
    ghost use Rattle.sn_links.specs.Ends.{End, SendsJobs, made_of};

    ghost Value = { End };

    ghost coded = { end_code };

    ghost view = { λ e. record { made = made_of e.lines.value; moved = (knows e.pass).pushed } };

    ghost invariant = { λ e. SendsJobs e.lines.value e.pass × (e.placement.value ≡ e.lines.value.target.placement.value) };
}

/// Takes jobs at a node. More ports are split off it.
#[derive(Drop)]
pub struct JobPort {
    lines: Arc<Lines>,
    alloc: Global,
    pass: Pass<Bytes, Known<Target, Bytes>>,
}

impl Model for JobPort {
    ghost use Rattle.crossbeam_queue.specs.Passes.{view as knows};
    ghost use Rattle.sn_links.specs.Coding.{end_code};
    ghost use Rattle.sn_links.specs.Ends.{End, TakesJobs, made_of};

    ghost Value = { End };

    ghost coded = { end_code };

    ghost view = { λ e. record { made = made_of e.lines.value; moved = (knows e.pass).popped } };

    ghost invariant = { λ e. TakesJobs e.lines.value e.pass };
}

/// Sends back what calls gave. More links are split off it.
#[derive(Drop)]
pub struct DoneLink {
    lines: Arc<Lines>,
    alloc: Global,
    pass: Pass<Bytes, Known<Target, Bytes>>,
}

impl Model for DoneLink {
    ghost use Rattle.crossbeam_queue.specs.Passes.{view as knows};
    ghost use Rattle.sn_links.specs.Coding.{end_code};
    ghost use Rattle.sn_links.specs.Ends.{End, SendsDones, made_of};

    ghost Value = { End };

    ghost coded = { end_code };

    ghost view = { λ e. record { made = made_of e.lines.value; moved = (knows e.pass).pushed } };

    ghost invariant = { λ e. SendsDones e.lines.value e.pass };
}

/// Collects what calls gave. It is the only one that does.
#[derive(Drop)]
pub struct DonePort {
    lines: Arc<Lines>,
    run: Arc<Run>,
    alloc: Global,
    pass: Pass<Bytes, Known<Target, Bytes>>,
}

impl Model for DonePort {
    ghost use Rattle.std.specs.Prelude.{◌≡◌};
    ghost use Rattle.crossbeam_queue.specs.Passes.{view as knows};
    ghost use Rattle.sn_links.specs.Coding.{end_code};
    ghost use Rattle.sn_links.specs.Ends.{End, TakesDones, made_of};

    ghost Value = { End };

    ghost coded = { end_code };

    ghost view = { λ e. record { made = made_of e.lines.value; moved = (knows e.pass).popped } };

    ghost invariant = { λ e. TakesDones e.lines.value e.pass × (e.run.value ≡ e.lines.value.target.run.value) };
}

/// The ends of a link beside the network.
#[derive(Drop)]
pub struct Near {
    pub jobs: JobLink,
    pub results: DonePort,
}

/// The ends of a link at its node.
#[derive(Drop)]
pub struct Far {
    pub jobs: JobPort,
    pub results: DoneLink,
}

/// The job that bytes of the link spell.
fn job_in(alloc: Global, bytes: &Bytes) -> Result<Job, Memory>
    requires { IsJobSpelled bytes.now }
    ensures spells { IfOk result (SpellsJob bytes.now) }
    ensures only { IfOk result (OnlyJob bytes.now) }
{
    match read_job(alloc, bytes.as_slice()) {
        Ok(job) => Ok(job),
        Err(WireFault::Bad) => unreachable!(),
        Err(WireFault::Memory) => Err(Memory),
    }
}

/// The job that bytes of the link spell, and the items that its call gave.
fn done_in(alloc: Global, bytes: &Bytes) -> Result<(Job, Items), Memory>
    requires { IsDoneSpelled bytes.now }
    ensures spells { IfOk result (SpellsDone bytes.now) }
    ensures only { IfOk result (OnlyDone bytes.now) }
{
    match read_done(alloc, bytes.as_slice()) {
        Ok(done) => Ok(done),
        Err(WireFault::Bad) => unreachable!(),
        Err(WireFault::Memory) => Err(Memory),
    }
}

impl JobLink {
    /// Whether the link leads to where the job's call is made, at a component to which these steps lead.
    pub fn leads(&self, job: &Job, steps: &[Step]) -> bool
        ensures { IsTrue result ↔ Leads self.now job.now steps.now }
    {
        match self.placement.home(job.number) {
            Some(home) => is_made(self.placement.nodes(), self.lines.target.node, home, steps),
            None => false,
        }
    }

    /// Sends a job of the run to the node that makes its call. It comes back where it could not be written for want of memory, and, which is
    /// called full, only where the queue was full at a step of this call (of which `full` says what a clause can).
    pub fn send<R: Wait>(&mut self, rt: &R, job: Job, steps: &[Step]) -> Result<(), SendFault>
        requires of_run { IsJobOf (run_of self.old) job }
        requires counted { IsCounted job.given }
        requires leads { Leads self.old job steps.now }
        ensures sent { OnOk result (MovesJob self.old job self.new) }
        ensures made { self.new.made ≡ self.old.made }
        ensures back { IfErr result (λ fault. fault.job ≡ job) }
        ensures unchanged { OnErr result (self.new ≡ self.old) }
        ensures full { IfErr result (λ fault. fault.cause ≡ Full → WasFullOfJobs self.old) }
    {
        let Ok(bytes) = write_job(self.alloc, &job) else {
            return Err(SendFault {
                cause: SendCause::Memory,
                job,
            });
        };
        let jobs = &self.lines.jobs;
        match jobs.push_as::<Sends, R>(rt, &mut self.pass, bytes) {
            Ok(()) => Ok(()),
            Err(_bytes) => Err(SendFault {
                cause: SendCause::Full,
                job,
            }),
        }
    }
}

impl JobPort {
    /// Takes a job, which is of the run and of a box whose home lets this node make the call. There is none only where the queue was empty at a
    /// step of this call (of which `empty` says what a clause can). Where memory is refused, what was taken is lost.
    pub fn take<R: Wait>(&mut self, rt: &R) -> Result<Option<Job>, Memory>
        ensures taken { IfOk result (λ found. IfSome found (λ job. MovesJob self.old job self.new)) }
        ensures made { self.new.made ≡ self.old.made }
        ensures of_run { IfOk result (λ found. IfSome found (IsJobOf (run_of self.old))) }
        ensures served { IfOk result (λ found. IfSome found (IsServed (placement_of self.old) (node_at self.old))) }
        ensures unchanged { IfOk result (λ found. IfNone found (self.new ≡ self.old)) }
        ensures empty { IfOk result (λ found. IfNone found (WasWithoutJobs self.old)) }
        ensures lost { OnErr result (Loses self.old self.new) }
    {
        let jobs = &self.lines.jobs;
        let Some(bytes) = jobs.pop_as::<Takes, R>(rt, &mut self.pass) else {
            return Ok(None);
        };
        match job_in(self.alloc, &bytes) {
            Ok(job) => Ok(Some(job)),
            Err(Memory) => Err(Memory),
        }
    }

    /// Another port of the same link, which has taken nothing yet.
    pub fn split(&mut self) -> Result<JobPort, Memory>
        ensures port { IfOk result (λ port. port ≡ new_end self.old.made) }
        ensures unchanged { self.new ≡ self.old }
    {
        let lines = Arc::try_clone(&self.lines)?;
        let pass = lines.jobs.another::<Shares>(&mut self.pass);
        Ok(JobPort {
            lines,
            alloc: self.alloc,
            pass,
        })
    }

    /// Takes in another port of the same link, with what it took.
    pub fn join(&mut self, other: JobPort)
        requires { other.made ≡ self.old.made }
        ensures { self.new ≡ joined self.old other }
    {
        let JobPort {
            lines: _,
            alloc: _,
            pass,
        } = other;
        let lines = &self.lines;
        lines.jobs.absorb::<Shares>(&mut self.pass, pass);
    }
}

impl DoneLink {
    /// Sends back what a call of the run gave. It comes back where it could not be written for want of memory, and, which is called full, only
    /// where the queue was full at a step of this call (of which `full` says what a clause can).
    pub fn answer<R: Wait>(&mut self, rt: &R, done: Done) -> Result<(), DoneFault>
        requires of_run { done.run.value ≡ run_of self.old }
        requires counted { AreCounted done.job done.items }
        ensures answered { OnOk result (MovesDone self.old done.job done.items self.new) }
        ensures made { self.new.made ≡ self.old.made }
        ensures back { IfErr result (λ fault. fault.done ≡ done) }
        ensures unchanged { OnErr result (self.new ≡ self.old) }
        ensures full { IfErr result (λ fault. fault.cause ≡ Full → WasFullOfDones self.old) }
    {
        let Ok(bytes) = write_done(self.alloc, &done) else {
            return Err(DoneFault {
                cause: SendCause::Memory,
                done,
            });
        };
        let results = &self.lines.results;
        match results.push_as::<Answers, R>(rt, &mut self.pass, bytes) {
            Ok(()) => Ok(()),
            Err(_bytes) => Err(DoneFault {
                cause: SendCause::Full,
                done,
            }),
        }
    }

    /// Another end that sends back on the same link, and has sent nothing yet.
    pub fn split(&mut self) -> Result<DoneLink, Memory>
        ensures link { IfOk result (λ link. link ≡ new_end self.old.made) }
        ensures unchanged { self.new ≡ self.old }
    {
        let lines = Arc::try_clone(&self.lines)?;
        let pass = lines.results.another::<Shares>(&mut self.pass);
        Ok(DoneLink {
            lines,
            alloc: self.alloc,
            pass,
        })
    }

    /// Takes in another end that sent back on the same link, with what it sent.
    pub fn join(&mut self, other: DoneLink)
        requires { other.made ≡ self.old.made }
        ensures { self.new ≡ joined self.old other }
    {
        let DoneLink {
            lines: _,
            alloc: _,
            pass,
        } = other;
        let lines = &self.lines;
        lines.results.absorb::<Shares>(&mut self.pass, pass);
    }
}

impl DonePort {
    /// Collects what a call of the run gave. There is none only where the queue was empty at a step of this call (of which `empty` says what a
    /// clause can). Where memory is refused, what was collected is lost.
    pub fn collect<R: Wait>(&mut self, rt: &R) -> Result<Option<Done>, Memory>
        ensures collected { IfOk result (λ found. IfSome found (λ done. MovesDone self.old done.job done.items self.new)) }
        ensures made { self.new.made ≡ self.old.made }
        ensures of_run { IfOk result (λ found. IfSome found (λ done. done.run.value ≡ run_of self.old)) }
        ensures unchanged { IfOk result (λ found. IfNone found (self.new ≡ self.old)) }
        ensures empty { IfOk result (λ found. IfNone found (WasWithoutDones self.old)) }
        ensures lost { OnErr result (Loses self.old self.new) }
    {
        let results = &self.lines.results;
        let Some(bytes) = results.pop_as::<Collects, R>(rt, &mut self.pass) else {
            return Ok(None);
        };
        let Ok((job, items)) = done_in(self.alloc, &bytes) else {
            return Err(Memory);
        };
        let shared: Result<_, _> = self.run.clone();
        match shared {
            Ok(run) => Ok(Some(Done::made(run, job, items))),
            Err(_) => Err(Memory),
        }
    }
}

fn made<J: Owned<Target>>(
    alloc: Global,
    run: &Arc<Run>,
    placement: &Arc<Placement>,
    target: Target,
    capacity: u32,
) -> Result<(Near, Far), Memory>
    requires owner { J.owner ≡ Some target }
    requires run { target.run.value ≡ run.now.value }
    requires placement { target.placement.value ≡ placement.now.value }
    requires capacity { 0 < capacity }
    ensures jobs { IfOk result (λ ends. ends.0.jobs ≡ new_end ends.0.jobs.made) }
    ensures results { IfOk result (λ ends. ends.0.results ≡ ends.0.jobs) }
    ensures far_jobs { IfOk result (λ ends. ends.1.jobs ≡ ends.0.jobs) }
    ensures far_results { IfOk result (λ ends. ends.1.results ≡ ends.0.jobs) }
    ensures run { IfOk result (λ ends. run_of ends.0.jobs ≡ run.now.value) }
    ensures placement { IfOk result (λ ends. placement_of ends.0.jobs ≡ placement.now.value) }
    ensures node { IfOk result (λ ends. node_at ends.0.jobs ≡ target.node) }
    ensures room { IfOk result (λ ends. ends.0.jobs.made.capacity ≡ capacity) }
{
    let (jobs, mut sending) = JobLine::ruled(alloc, capacity as usize)?;
    let (results, mut answering) = DoneLine::ruled(alloc, capacity as usize)?;
    let taking = jobs.another::<Opens<J>>(&mut sending);
    let collecting = results.another::<Opens<J>>(&mut answering);
    let lines = Lines {
        jobs,
        results,
        target,
    };
    let lines = Arc::new(alloc, lines)?;
    let near = Near {
        jobs: JobLink {
            lines: Arc::try_clone(&lines)?,
            placement: Arc::try_clone(placement)?,
            alloc,
            pass: sending,
        },
        results: DonePort {
            lines: Arc::try_clone(&lines)?,
            run: Arc::try_clone(run)?,
            alloc,
            pass: collecting,
        },
    };
    let far = Far {
        jobs: JobPort {
            lines: Arc::try_clone(&lines)?,
            alloc,
            pass: taking,
        },
        results: DoneLink {
            lines,
            alloc,
            pass: answering,
        },
    };
    Ok((near, far))
}

/// A link to a node, for a run whose boxes' calls are made so, each queue with room for so many: the ends beside the network, and those at the
/// node, which have moved nothing yet.
pub fn link(
    alloc: Global,
    run: &Arc<Run>,
    placement: &Arc<Placement>,
    node: u32,
    capacity: u32,
) -> Result<(Near, Far), Memory>
    requires node { node < nodes_of placement.now.value }
    requires capacity { IsWithin capacity LONGEST_QUEUE }
    ensures jobs { IfOk result (λ ends. ends.0.jobs ≡ new_end ends.0.jobs.made) }
    ensures results { IfOk result (λ ends. ends.0.results ≡ ends.0.jobs) }
    ensures far_jobs { IfOk result (λ ends. ends.1.jobs ≡ ends.0.jobs) }
    ensures far_results { IfOk result (λ ends. ends.1.results ≡ ends.0.jobs) }
    ensures run { IfOk result (λ ends. run_of ends.0.jobs ≡ run.now.value) }
    ensures placement { IfOk result (λ ends. placement_of ends.0.jobs ≡ placement.now.value) }
    ensures node { IfOk result (λ ends. node_at ends.0.jobs ≡ node) }
    ensures room { IfOk result (λ ends. ends.0.jobs.made.capacity ≡ capacity) }
{
    let target = Target {
        run: Snapshot::<Run>::of(run),
        placement: Snapshot::<Placement>::of(placement),
        node,
    };
    made::<Brand>(alloc, run, placement, target, capacity)
}

fn moves_between_threads<T: Send>(_end: &T) {}

/// The ends may go to other threads.
pub fn ends_are_send(near: &Near, far: &Far) {
    moves_between_threads(near);
    moves_between_threads(far);
}

//! The workers as callers, and the calls that the owner of the graph makes itself.
ghost use Rattle.std.specs.Prelude.{◌≡◌, IfOk};
ghost use Rattle.sn_boxrun.specs.Job.{IsJobOf};
ghost use Rattle.sn_graph.specs.Graph.{IsGraphOf, seen};
ghost use Rattle.sn_jobs.specs.Queues.{IsDoneOf};
ghost use Rattle.sn_turns.specs.OwnerEnds.{AreEndsOf};
ghost use Rattle.sn_turns.specs.declared.turn.Turn.TheVariants as turn;

use crate::apply::apply;
use crate::callers::Callers;
use crate::turn::Turn;
use crate::watcher::Watcher;
use sn_boxrun::{Done, Job};
use sn_graph::{ApplyCause, Event, Graph};
use sn_io::Gate;
use sn_jobs::{JobHand, JobOwner, make};
use sn_list::Memory;
use sn_model::{Outcome, Run, Trail};
use sn_workers::Shared;
use std::alloc::Global;
use std::sync::{Arc, Wait};

/// The owner's ends of both queues. With a hand of its own it takes a call back that no worker has taken yet, when there is nothing else
/// to do: so one more call runs at a time, and all calls are made even if no worker could be started.
pub struct OwnerEnds {
    pub owner: JobOwner,
    pub hand: JobHand,
    /// Whether there is no other worker.
    pub alone: bool,
}

/// Written out, so that a function that gives them up calls this, and is not proved over what both ends hold.
impl Drop for OwnerEnds {
    fn drop(self) {
        let OwnerEnds {
            owner: _owner,
            hand: _hand,
            alone: _,
        } = self;
    }
}

/// How a run ends where memory is refused: whole, if its end was got by then.
pub fn end_at_refusal<G: Gate, W: Watcher>(
    shared: &Shared<G>,
    graph: &Graph,
    watcher: &W,
) -> Outcome
    requires { IsGraphOf graph.now shared.now.run.now.value }
    ensures { W.goes (seen graph.now) watcher.now (seen graph.now) watcher.now (turn.Ended result) }
{
    if graph.at_rest(shared.run) {
        return Outcome::Whole;
    }
    Outcome::Memory
}

/// Applies an answer. One that answers no call in flight is dropped.
pub fn finish<R: Wait, G: Gate, W: Watcher>(
    rt: &R,
    shared: &Shared<G>,
    graph: &mut Graph,
    watcher: &mut W,
    done: Done,
) -> Turn
    requires of { IsGraphOf graph.old shared.now.run.now.value }
    requires done { IsDoneOf shared.now.run.now.value done }
    ensures of { IsGraphOf graph.new shared.now.run.now.value }
    ensures goes { W.goes (seen graph.old) watcher.old (seen graph.new) watcher.new result }
{
    match apply(rt, shared.alloc, shared.run, graph, Event::Finish { done }) {
        Ok((line, effect)) => watcher.tell(shared.alloc, line, &effect),
        Err(ApplyCause::NotEnabled) => Turn::Went,
        Err(ApplyCause::Memory) => Turn::Ended(end_at_refusal(shared, graph, watcher)),
    }
}

/// Makes a call in this thread, and applies its answer.
pub fn call_here<R: Wait, G: Gate, W: Watcher>(
    rt: &R,
    shared: &Shared<G>,
    graph: &mut Graph,
    watcher: &mut W,
    job: Job,
) -> Turn
    requires of { IsGraphOf graph.old shared.now.run.now.value }
    requires job { IsJobOf shared.now.run.now.value job }
    ensures of { IsGraphOf graph.new shared.now.run.now.value }
    ensures goes { W.goes (seen graph.old) watcher.old (seen graph.new) watcher.new result }
{
    match shared.make_call(job) {
        Ok(done) => finish(rt, shared, graph, watcher, done),
        Err(_) => Turn::Ended(end_at_refusal(shared, graph, watcher)),
    }
}

impl Callers for OwnerEnds {
    ghost are_of = { λ ends run. AreEndsOf run ends };

    /// Gives a call to the workers. It comes back if the queue is full, or if there is no worker.
    fn give<R: Wait, G: Gate>(
        &mut self,
        rt: &R,
        shared: &Shared<G>,
        _steps: &Trail,
        job: Job,
    ) -> Result<(), Job> {
        if self.alone {
            return Err(job);
        }
        match self.owner.give(rt, job) {
            Ok(()) => {
                shared.signals.jobs.notify_one();
                Ok(())
            }
            Err(job) => Err(job),
        }
    }

    fn collect<R: Wait, G: Gate>(&mut self, rt: &R, shared: &Shared<G>) -> Option<Done> {
        let done = self.owner.collect(rt)?;
        shared.signals.room.notify_one();
        Some(done)
    }

    fn take_back<R: Wait, G: Gate>(&mut self, rt: &R, _shared: &Shared<G>) -> Option<Job> {
        self.hand.take(rt)
    }
}

/// The owner's ends of both queues, and the hand of the workers.
pub fn open_ends(alloc: Global, run: &Arc<Run>, alone: bool) -> Result<(OwnerEnds, JobHand), Memory>
    ensures ends { IfOk result (λ made. AreEndsOf run.now.value made.0) }
    ensures hand { IfOk result (λ made. made.1.made.run ≡ run.now.value) }
{
    let (owner, mut theirs) = make(alloc, run, run.queue())?;
    let hand = theirs.split()?;
    let ends = OwnerEnds { owner, hand, alone };
    Ok((ends, theirs))
}

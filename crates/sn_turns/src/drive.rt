//! The owner's turns, until the run has ended.
ghost use Rattle.std.specs.Prelude.{◌≡◌, IfSome};
ghost use Rattle.sn_boxrun.specs.Job.{IsJobOf};
ghost use Rattle.sn_graph.specs.Event.{IsEventOf};
ghost use Rattle.sn_graph.specs.Graph.{IsGraphOf, seen};
ghost use Rattle.sn_trace_lines.specs.declared.line.Line.TheVariants as lines;
ghost use Rattle.sn_event_lines.specs.Told.{CallsOf};
ghost use Rattle.sn_turns.specs.declared.turn.Turn.TheVariants as turn;

use crate::apply::apply;
use crate::callers::Callers;
use crate::owner::{call_here, end_at_refusal, finish};
use crate::turn::Turn;
use crate::watcher::Watcher;
use sn_boxrun::Job;
use sn_graph::{ApplyCause, Effect, Event, Graph};
use sn_io::Gate;
use sn_model::Outcome;
use sn_trace_lines::Line;
use sn_wakeup::Backoff;
use sn_workers::Shared;
use std::sync::Wait;

/// The node at which a call began by the event of a line, if one did.
fn begun_at(line: &Line) -> Option<u64>
    ensures { IfSome result (λ node. line.now ≡ lines.Start node) }
{
    match line {
        Line::Start { node } => Some(*node),
        _ => None,
    }
}

/// Gives a call that began at a node away, or makes it here.
fn give_call<R: Wait, G: Gate, C: Callers, W: Watcher>(
    rt: &R,
    shared: &Shared<G>,
    callers: &mut C,
    graph: &mut Graph,
    watcher: &mut W,
    node: u64,
    job: Job,
) -> Turn
    requires callers { C.are_of callers.old shared.now.run.now.value }
    requires of { IsGraphOf graph.old shared.now.run.now.value }
    requires job { IsJobOf shared.now.run.now.value job }
    ensures callers { C.are_of callers.new shared.now.run.now.value }
    ensures of { IsGraphOf graph.new shared.now.run.now.value }
    ensures goes { W.goes (seen graph.old) watcher.old (seen graph.new) watcher.new result }
{
    let Some(steps) = graph.steps_of(node) else {
        return call_here(rt, shared, graph, watcher, job);
    };
    match callers.give(rt, shared, steps, job) {
        Ok(()) => Turn::Went,
        Err(job) => call_here(rt, shared, graph, watcher, job),
    }
}

/// Goes on after an event that was told: a call is given away.
fn go_on<R: Wait, G: Gate, C: Callers, W: Watcher>(
    rt: &R,
    shared: &Shared<G>,
    callers: &mut C,
    graph: &mut Graph,
    watcher: &mut W,
    begun: Option<u64>,
    effect: Effect,
) -> Turn
    requires callers { C.are_of callers.old shared.now.run.now.value }
    requires of { IsGraphOf graph.old shared.now.run.now.value }
    requires call { CallsOf shared.now.run.now.value effect }
    ensures callers { C.are_of callers.new shared.now.run.now.value }
    ensures of { IsGraphOf graph.new shared.now.run.now.value }
    ensures goes { W.goes (seen graph.old) watcher.old (seen graph.new) watcher.new result }
{
    match effect {
        Effect::Call(job) => match begun {
            Some(node) => give_call(rt, shared, callers, graph, watcher, node, job),
            None => call_here(rt, shared, graph, watcher, job),
        },
        Effect::Moved | Effect::Out(_) => Turn::Went,
    }
}

/// Applies an event that is no answer to a call.
fn happen<R: Wait, G: Gate, C: Callers, W: Watcher>(
    rt: &R,
    shared: &Shared<G>,
    callers: &mut C,
    graph: &mut Graph,
    watcher: &mut W,
    event: Event,
) -> Turn
    requires callers { C.are_of callers.old shared.now.run.now.value }
    requires of { IsGraphOf graph.old shared.now.run.now.value }
    requires event { IsEventOf shared.now.run.now.value event }
    ensures callers { C.are_of callers.new shared.now.run.now.value }
    ensures of { IsGraphOf graph.new shared.now.run.now.value }
    ensures goes { W.goes (seen graph.old) watcher.old (seen graph.new) watcher.new result }
{
    let (line, effect) = match apply(rt, shared.alloc, shared.run, graph, event) {
        Ok(told) => told,
        Err(ApplyCause::NotEnabled) => return Turn::Went,
        Err(ApplyCause::Memory) => {
            return Turn::Ended(end_at_refusal(shared, graph, watcher));
        }
    };
    let begun = begun_at(&line);
    match watcher.tell(shared.alloc, line, &effect) {
        Turn::Went => go_on(rt, shared, callers, graph, watcher, begun, effect),
        ended => ended,
    }
}

/// The end of the run where the graph is at rest, and else nothing to do until an answer comes.
fn rest_or_wait<G: Gate, W: Watcher>(shared: &Shared<G>, graph: &Graph, watcher: &mut W) -> Turn
    requires { IsGraphOf graph.now shared.now.run.now.value }
    ensures { W.goes (seen graph.now) watcher.old (seen graph.now) watcher.new result }
{
    if graph.at_rest(shared.run) {
        return Turn::Ended(Outcome::Whole);
    }
    watcher.idle(shared.alloc)
}

/// Applies an answer that has come, or else the next event. Where there is none a call is taken back, if one is left. Where a worker was refused
/// memory the run ends.
fn turn<R: Wait, G: Gate, C: Callers, W: Watcher>(
    rt: &R,
    shared: &Shared<G>,
    callers: &mut C,
    graph: &mut Graph,
    watcher: &mut W,
) -> Turn
    requires callers { C.are_of callers.old shared.now.run.now.value }
    requires of { IsGraphOf graph.old shared.now.run.now.value }
    ensures callers { C.are_of callers.new shared.now.run.now.value }
    ensures of { IsGraphOf graph.new shared.now.run.now.value }
    ensures goes { W.goes (seen graph.old) watcher.old (seen graph.new) watcher.new result }
{
    if shared.signals.is_refused() {
        return Turn::Ended(end_at_refusal(shared, graph, watcher));
    }
    if let Some(done) = callers.collect(rt, shared) {
        return finish(rt, shared, graph, watcher, done);
    }
    if let Some(event) = graph.next_event(shared.run) {
        return happen(rt, shared, callers, graph, watcher, event);
    }
    if let Some(job) = callers.take_back(rt, shared) {
        return call_here(rt, shared, graph, watcher, job);
    }
    rest_or_wait(shared, graph, watcher)
}

/// Takes turns until the run has ended, whoever makes the calls and is told of the events. Where no call can be given away they are made here.
pub fn take_turns<R: Wait, G: Gate, C: Callers, W: Watcher>(
    rt: &R,
    shared: &Shared<G>,
    callers: &mut C,
    graph: &mut Graph,
    watcher: &mut W,
) -> Outcome
    requires callers { C.are_of callers.old shared.now.run.now.value }
    requires of { IsGraphOf graph.old shared.now.run.now.value }
    ensures callers { C.are_of callers.new shared.now.run.now.value }
    ensures of { IsGraphOf graph.new shared.now.run.now.value }
    ensures goes { W.goes (seen graph.old) watcher.old (seen graph.new) watcher.new (turn.Ended result) }
{
    let mut backoff = Backoff::new(&shared.signals.answers);
    for _ in rt.forever() {
        match turn(rt, shared, callers, graph, watcher) {
            Turn::Went => backoff.reset(),
            Turn::Idle => backoff.wait(rt),
            Turn::Ended(outcome) => return outcome,
        }
    }
    unreachable!()
}

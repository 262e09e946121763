//! One event of the graph.
ghost use Rattle.std.specs.Prelude.{◌≡◌, IfOk, MatchResult};
ghost use Rattle.sn_graph.specs.Event.{IsEventOf};
ghost use Rattle.sn_graph.specs.Graph.{IsGraphOf, seen};
ghost use Rattle.sn_event_lines.specs.Told.{CallsOf, Came, came_out};

use crate::named::line_of;
use sn_graph::{ApplyCause, Effect, Event, Graph};
use sn_model::Run;
use sn_trace_lines::Line;
use std::alloc::Global;
use std::sync::Wait;
use std::thread::Parker;

/// A graph to which so many events happened does nothing more.
const MOST_EVENTS: u64 = 1 << 62;

/// The event happens, or else nothing does. At the last event that is counted this call does not return.
pub fn apply<R: Wait>(
    rt: &R,
    alloc: Global,
    run: &Run,
    graph: &mut Graph,
    event: Event,
) -> Result<(Line, Effect), ApplyCause>
    requires of { IsGraphOf graph.old run.now }
    requires done { IsEventOf run.now event }
    ensures of { IsGraphOf graph.new run.now }
    ensures call { IfOk result (λ told. CallsOf run.now told.1) }
    ensures came { MatchResult result (λ told. Came told.0 (came_out told.1) (seen graph.old) (seen graph.new)) (λ _. seen graph.new ≡ seen graph.old) }
{
    if graph.applied() >= MOST_EVENTS {
        let parker = Parker::new();
        for _ in rt.forever() {
            parker.park(rt);
        }
        unreachable!()
    }
    let line = line_of(&event);
    match graph.apply(alloc, run, event) {
        Ok(effect) => Ok((line, effect)),
        Err(fault) => Err(fault.cause),
    }
}

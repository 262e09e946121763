//! The line of an event.
ghost use Rattle.std.specs.Prelude.{◌≡◌};
ghost use Rattle.sn_graph.specs.Event.{happening_of};
ghost use Rattle.sn_trace_lines.specs.Lines.{IsLine};
ghost use Rattle.sn_event_lines.specs.Naming.{Names};

use sn_graph::{Done, Event};
use sn_trace_lines::Line;

/// The number of the call that is answered.
fn call_of(done: &Done) -> u64
    ensures { result ≡ done.now.job.call }
{
    done.job().call
}

/// The line of an event.
pub fn line_of(event: &Event) -> Line
    ensures named { Names result (happening_of event.now) }
    ensures is_line { IsLine result }
{
    match event {
        Event::Take => Line::Take,
        Event::Start { node } => Line::Start { node: *node },
        Event::Finish { done } => Line::Finish {
            call: call_of(done),
        },
        Event::Local { node } => Line::Local { node: *node },
        Event::Route { node } => Line::Route { node: *node },
        Event::Unfold { node } => Line::Unfold { node: *node },
        Event::Merge { node, child } => Line::Merge {
            node: *node,
            child: *child,
        },
        Event::Emit => Line::Emit,
    }
}

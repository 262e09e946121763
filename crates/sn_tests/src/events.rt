//! Events of a graph, applied one by one.
ghost use Rattle.sn_graph.specs.Event.{IsEventOf};
ghost use Rattle.sn_graph.specs.Graph.{IsGraphOf};

use crate::jobs::{given, job_of, started};
use crate::load::{Loaded, load};
use sn_boxrun::make_done;
use sn_graph::{ApplyCause, Effect, Event, Graph};
use sn_model::Run;
use sn_names::Names;
use sn_record::{Item, Kind, Label, Value};
use std::alloc::Global;
use std::process::Abort;
use std::sync::Arc;

/// So many events a graph counts.
const MOST_EVENTS: u64 = 1 << 62;

/// What comes of an event that may happen.
fn does(alloc: Global, run: &Run, graph: &mut Graph, event: Event) -> Option<Effect>
    requires of { IsGraphOf graph.old run.now }
    requires event { IsEventOf run.now event }
    ensures { IsGraphOf graph.new run.now }
{
    if graph.applied() >= MOST_EVENTS || !graph.enabled(run, &event) {
        return None;
    }
    graph.apply(alloc, run, event).ok()
}

/// Whether the event may happen, and moves something.
fn moves(alloc: Global, run: &Run, graph: &mut Graph, event: Event) -> bool
    requires of { IsGraphOf graph.old run.now }
    requires event { IsEventOf run.now event }
    ensures { IsGraphOf graph.new run.now }
{
    matches!(does(alloc, run, graph, event), Some(Effect::Moved))
}

/// The same for an event that is given, as by a line of a trace.
fn moves_as_given(alloc: Global, run: &Run, graph: &mut Graph, event: Event) -> bool
    requires of { IsGraphOf graph.old run.now }
    requires event { IsEventOf run.now event }
    ensures { IsGraphOf graph.new run.now }
{
    graph.applied() < MOST_EVENTS
        && matches!(graph.apply_given(alloc, run, event), Ok(Effect::Moved))
}

/// Whether the event may not happen to a graph to which none has, and is answered so, and then the input may still be taken.
fn refuses(alloc: Global, run: &Run, graph: &mut Graph, event: Event) -> bool
    requires of { IsGraphOf graph.old run.now }
    requires event { IsEventOf run.now event }
    ensures { IsGraphOf graph.new run.now }
{
    if graph.applied() != 0 || graph.enabled(run, &event) {
        return false;
    }
    let Err(fault) = graph.apply(alloc, run, event) else {
        return false;
    };
    let is_told = matches!(fault.cause, ApplyCause::NotEnabled);
    let is_as_before = graph.applied() == 0 && graph.out().as_slice().is_empty();
    is_told && is_as_before && matches!(graph.next_event(run), Some(Event::Take))
}

/// Whether the item is a record with the integer 1 at the field.
fn has_one(names: &Names, name: &[u8], item: &Item) -> bool {
    let Some(id) = names.find(name) else {
        return false;
    };
    match item {
        Item::Rec(record) => {
            let value = record.get(Label {
                kind: Kind::Field,
                id,
            });
            matches!(value, Some(Value::Int(1)))
        }
        Item::Fault(_) => false,
    }
}

/// Whether a record and then the end go through one filter, by three events each, of which those of the end are given.
fn goes_through_a_filter(alloc: Global, run: &Run, names: &Names, graph: &mut Graph) -> bool
    requires { IsGraphOf graph.old run.now }
{
    let local = Event::Local { node: 0 };
    if !moves(alloc, run, graph, Event::Take) || !moves(alloc, run, graph, local) {
        return false;
    }
    let is_out = match does(alloc, run, graph, Event::Emit) {
        Some(Effect::Out(item)) => has_one(names, b"b", &item),
        Some(Effect::Call(_job)) => false,
        Some(Effect::Moved) => false,
        None => false,
    };
    let local = Event::Local { node: 0 };
    if !moves_as_given(alloc, run, graph, Event::Take)
        || !moves_as_given(alloc, run, graph, local)
    {
        return false;
    }
    is_out && moves_as_given(alloc, run, graph, Event::Emit) && graph.at_rest(run)
}

#[test]
fn six_events_take_a_record_through_a_filter(rt: HostRuntime) {
    let source = "net main ({a} -> {b}) connect [{a} -> {b=a}];";
    let Loaded { run, names } = load(rt.alloc(), source, "{a=1}", 16).expect(
        &rt,
        "a source and its input",
    );
    let mut graph = Graph::start(rt.alloc(), &run).expect(&rt, "memory");
    assert!(rt; refuses(rt.alloc(), &run, &mut graph, Event::Emit));
    assert!(rt; goes_through_a_filter(rt.alloc(), &run, &names, &mut graph));
}

/// Whether an answer to a call that was never begun is refused.
fn refuses_an_answer(rt: &impl Abort, alloc: Global, run: &Arc<Run>) -> bool {
    let Some(job) = job_of(rt, alloc, run, 0, given(rt, run)) else {
        return false;
    };
    let Ok(done) = make_done(alloc, run, job) else {
        return false;
    };
    let mut graph = Graph::start(alloc, run).expect(rt, "memory");
    refuses(alloc, run, &mut graph, Event::Finish { done })
}

#[test]
fn an_answer_to_no_call_is_refused(rt: HostRuntime) {
    assert!(rt; refuses_an_answer(&rt, rt.alloc(), &started(&rt, rt.alloc())));
}

//! Both engines under one contract: what was written is what is printed of a stream that the run may give.
ghost use Rattle.std.specs.Prelude.{◌≡◌, ◌≤◌, IsTrue, List, None, Some};
ghost use Rattle.sn_record.specs.declared.item.Fault.{Fault as EndingFault};
ghost use Rattle.sn_io.specs.Causes.{Rose};
ghost use Rattle.sn_io.specs.Told.{AppendsPrefix};
ghost use Rattle.sn_output.specs.Printed.{printed};
ghost use Rattle.sn_printing.specs.Farmed.{HasPrinted};
ghost use Rattle.sn_model.specs.declared.outcome.Outcome.TheVariants as outcome;
ghost use Rattle.sn_model.specs.Run.{MayGive, net_of};
ghost use Rattle.sn_net.specs.Item.{ModelItem};
ghost use Rattle.sn_net.specs.Net.{all_deterministic};

use sn_crew::crew_run;
use sn_farm::farm_run;
use sn_io::{Gate, Sink};
use sn_model::{Outcome, Run};
use sn_names::Names;
use sn_net::all_det;
use sn_output::LineSink;
use sn_turn::Node;
use std::alloc::Global;
use std::sync::{Arc, Wait};
use std::thread::Threads;

/// By nodes and streams, where each merge is in order: all threads give turns to nodes, and the calling thread reads what leaves the network.
fn run_in_order<R: Threads + Wait + Sync, S: Sink, G: Gate>(
    rt: &R,
    alloc: Global,
    run: Arc<Run>,
    workers: u32,
    gate: &G,
    out: &mut LineSink<S>,
) -> Outcome
    requires in_order { IsTrue (all_deterministic (net_of run.value)) }
    requires workers { (1 ≤ workers) × (workers ≤ 64) }
    ensures part { ∥ ((ys : List ModelItem) × MayGive run.value ys × AppendsPrefix (S.held out.old.sink.now) (S.held out.new.sink.now) (printed out.old.names.now ys)) ∥₁ }
    ensures whole { result ≡ outcome.Whole → HasPrinted out.old.names.now run.value None (S.held out.old.sink.now) (S.held out.new.sink.now) }
    ensures faulted { (fault : EndingFault) → result ≡ outcome.Faulted fault → HasPrinted out.old.names.now run.value (Some fault) (S.held out.old.sink.now) (S.held out.new.sink.now) }
    ensures rose { result ≡ outcome.WriteFault → Rose (S.faults out.old.sink.now) (S.faults out.new.sink.now) }
    ensures later { S.faults out.old.sink.now ≤ S.faults out.new.sink.now }
    ensures names { out.new.names.now ≡ out.old.names.now }
    ensures same_sink { out.new.sink.ghost_name ≡ out.old.sink.ghost_name }
{
    let Ok((nodes, mut root)) = Node::network(alloc, &run) else {
        return Outcome::Memory;
    };
    crew_run(rt, alloc, run, nodes, &mut root, workers, gate, out)
}

/// By the engine that suits the network: a graph, of which the calling thread applies the events, where a merge is free.
fn run_by_engine<R: Threads + Wait + Sync, S: Sink, G: Gate>(
    rt: &R,
    alloc: Global,
    run: Arc<Run>,
    workers: u32,
    gate: &G,
    out: &mut LineSink<S>,
) -> Outcome
    requires workers { (1 ≤ workers) × (workers ≤ 64) }
    ensures part { ∥ ((ys : List ModelItem) × MayGive run.value ys × AppendsPrefix (S.held out.old.sink.now) (S.held out.new.sink.now) (printed out.old.names.now ys)) ∥₁ }
    ensures whole { result ≡ outcome.Whole → HasPrinted out.old.names.now run.value None (S.held out.old.sink.now) (S.held out.new.sink.now) }
    ensures faulted { (fault : EndingFault) → result ≡ outcome.Faulted fault → HasPrinted out.old.names.now run.value (Some fault) (S.held out.old.sink.now) (S.held out.new.sink.now) }
    ensures rose { result ≡ outcome.WriteFault → Rose (S.faults out.old.sink.now) (S.faults out.new.sink.now) }
    ensures later { S.faults out.old.sink.now ≤ S.faults out.new.sink.now }
    ensures names { out.new.names.now ≡ out.old.names.now }
    ensures same_sink { out.new.sink.ghost_name ≡ out.old.sink.ghost_name }
{
    if all_det(run.net()) {
        return run_in_order(rt, alloc, run, workers, gate, out);
    }
    farm_run(rt, alloc, &run, workers, gate, out)
}

/// Runs a network to its end with workers, of which the calling thread is one, and prints the line of each record that comes out. No answer tells
/// which engine did it.
pub fn run_together<R: Threads + Wait + Sync, O: Sink, G: Gate>(
    rt: &R,
    alloc: Global,
    run: Arc<Run>,
    names: &Names,
    workers: u32,
    gate: &G,
    out: &mut O,
) -> Outcome
    requires workers { (1 ≤ workers) × (workers ≤ 64) }
    ensures part { ∥ ((ys : List ModelItem) × MayGive run.value ys × AppendsPrefix (O.held out.old) (O.held out.new) (printed names.now ys)) ∥₁ }
    ensures whole { result ≡ outcome.Whole → HasPrinted names.now run.value None (O.held out.old) (O.held out.new) }
    ensures faulted { (fault : EndingFault) → result ≡ outcome.Faulted fault → HasPrinted names.now run.value (Some fault) (O.held out.old) (O.held out.new) }
    ensures rose { result ≡ outcome.WriteFault → Rose (O.faults out.old) (O.faults out.new) }
    ensures later { O.faults out.old ≤ O.faults out.new }
{
    let mut lines = LineSink { sink: out, names };
    run_by_engine(rt, alloc, run, workers, gate, &mut lines)
}

//! A graph driven to its end with workers.
ghost use Rattle.std.specs.Prelude.{◌≡◌, ◌≢◌, ◌≤◌, List, None, Some};
ghost use Rattle.sn_record.specs.declared.item.Fault.{Fault};
ghost use Rattle.sn_net.specs.Item.{ModelItem};
ghost use Rattle.sn_io.specs.Causes.{Rose};
ghost use Rattle.sn_io.specs.Told.{AppendsPrefix};
ghost use Rattle.sn_output.specs.Printed.{ending, printed};
ghost use Rattle.sn_model.specs.Run.{MayGive};
ghost use Rattle.sn_view.specs.Coming.{MayCome};
ghost use Rattle.sn_view.specs.Next.{start_view};
ghost use Rattle.sn_view.specs.Placed.{AtRest};
ghost use Rattle.sn_view.specs.Seen.{Can};
ghost use Rattle.sn_graph.specs.Graph.{IsGraphOf, seen};
ghost use Rattle.sn_printing.specs.Farmed.{HasPrinted, IsAllWritten, IsFaulted, IsWhole};
ghost use Rattle.sn_model.specs.declared.outcome.Outcome.TheVariants as outcome;

use sn_graph::Graph;
use sn_io::{Gate, Sink};
use sn_model::{Outcome, Run};
use sn_output::LineSink;
use sn_printing::Printer;
use sn_turns::drive_watched;
use std::alloc::Global;
use std::sync::{Arc, Wait};
use std::thread::Threads;

/// Drives a graph to its end, at which nothing was applied yet. The calling thread applies events and writes the line of each record that
/// comes out, at once. It gives calls to the workers, of which it is one: at most `workers` calls run at a time. The run ends at the first
/// fault. Where threads can't be started it goes on with fewer.
///
/// A graph to which 2^62 events happened does nothing more, and the call does not return.
pub fn farm_drive<R: Threads + Wait + Sync, S: Sink, G: Gate>(
    rt: &R,
    alloc: Global,
    run: &Arc<Run>,
    graph: &mut Graph,
    workers: u32,
    gate: &G,
    out: &mut LineSink<S>,
) -> Outcome
    requires started { seen graph.old ≡ start_view run.now.value }
    requires workers { (1 ≤ workers) × (workers ≤ 64) }
    ensures of { IsGraphOf graph.new run.now.value }
    ensures can { (ys : List ModelItem) → MayCome (seen graph.new) ys → MayCome (seen graph.old) ys }
    ensures some { ∥ ((ys : List ModelItem) × Can (seen graph.new) ys) ∥₁ }
    ensures written { AppendsPrefix (S.held out.old.sink.now) (S.held out.new.sink.now) (printed out.old.names.now (seen graph.new).out) }
    ensures whole { result ≡ outcome.Whole → IsWhole out.old.names.now (seen graph.new) (S.held out.old.sink.now) (S.held out.new.sink.now) }
    ensures first { (fault : Fault) → ending (seen graph.new).out ≡ Some fault → result ≡ outcome.Faulted fault }
    ensures faulted { (fault : Fault) → result ≡ outcome.Faulted fault → IsFaulted out.old.names.now fault (seen graph.new) (S.held out.old.sink.now) (S.held out.new.sink.now) }
    ensures last { AtRest (seen graph.new) → IsAllWritten out.old.names.now (seen graph.new) (S.held out.old.sink.now) (S.held out.new.sink.now)
        → ending (seen graph.new).out ≡ None → result ≢ outcome.WriteFault → result ≡ outcome.Whole }
    ensures rose { result ≡ outcome.WriteFault → Rose (S.faults out.old.sink.now) (S.faults out.new.sink.now) }
    ensures later { S.faults out.old.sink.now ≤ S.faults out.new.sink.now }
    ensures names { out.new.names.now ≡ out.old.names.now }
    ensures same_sink { out.new.sink.ghost_name ≡ out.old.sink.ghost_name }
{
    let mut printer = Printer {
        lines: LineSink {
            sink: &mut *out.sink,
            names: out.names,
        },
    };
    let outcome = drive_watched(rt, alloc, run, graph, workers, gate, &mut printer);
    let _out = graph.out();
    outcome
}

/// Starts a graph of the run and drives it to its end.
pub fn farm_run<R: Threads + Wait + Sync, S: Sink, G: Gate>(
    rt: &R,
    alloc: Global,
    run: &Arc<Run>,
    workers: u32,
    gate: &G,
    out: &mut LineSink<S>,
) -> Outcome
    requires { (1 ≤ workers) × (workers ≤ 64) }
    ensures part { ∥ ((ys : List ModelItem) × MayGive run.now.value ys × AppendsPrefix (S.held out.old.sink.now) (S.held out.new.sink.now) (printed out.old.names.now ys)) ∥₁ }
    ensures whole { result ≡ outcome.Whole → HasPrinted out.old.names.now run.now.value None (S.held out.old.sink.now) (S.held out.new.sink.now) }
    ensures faulted { (fault : Fault) → result ≡ outcome.Faulted fault → HasPrinted out.old.names.now run.now.value (Some fault) (S.held out.old.sink.now) (S.held out.new.sink.now) }
    ensures rose { result ≡ outcome.WriteFault → Rose (S.faults out.old.sink.now) (S.faults out.new.sink.now) }
    ensures later { S.faults out.old.sink.now ≤ S.faults out.new.sink.now }
    ensures names { out.new.names.now ≡ out.old.names.now }
    ensures same_sink { out.new.sink.ghost_name ≡ out.old.sink.ghost_name }
{
    match Graph::start(alloc, run) {
        Ok(mut graph) => farm_drive(rt, alloc, run, &mut graph, workers, gate, out),
        Err(_) => Outcome::Memory,
    }
}

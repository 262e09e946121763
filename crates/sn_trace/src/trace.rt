//! A run with workers that is traced.
ghost use Rattle.std.specs.Prelude.{◌≡◌, ◌≤◌, None, Some};
ghost use Rattle.sn_record.specs.declared.item.Fault.{Fault};
ghost use Rattle.sn_io.specs.Causes.{Rose};
ghost use Rattle.sn_model.specs.declared.outcome.Outcome.TheVariants as outcome;
ghost use Rattle.sn_trace.specs.Written.{HasTrace, HasTracePart};

use crate::sink::{ROOM, TraceSink};
use sn_graph::Graph;
use sn_io::{Gate, Sink};
use sn_list::Seq;
use sn_model::{Outcome, Run};
use sn_turns::drive_watched;
use std::alloc::Global;
use std::sync::{Arc, Wait};
use std::thread::Threads;

/// Starts a graph of the run and drives it to its end with workers. Each event has its line. Lines are written where they fill their room, where there is
/// nothing to do until a call is answered, and at the end.
pub fn trace_run<R: Threads + Wait + Sync, S: Sink, G: Gate>(
    rt: &R,
    alloc: Global,
    run: &Arc<Run>,
    workers: u32,
    gate: &G,
    out: &mut S,
) -> Outcome
    requires { (1 ≤ workers) × (workers ≤ 64) }
    ensures part { HasTracePart run.now.value (S.held out.old) (S.held out.new) }
    ensures whole { result ≡ outcome.Whole → HasTrace run.now.value (S.held out.old) (S.held out.new) None }
    ensures faulted { (fault : Fault) → result ≡ outcome.Faulted fault → HasTrace run.now.value (S.held out.old) (S.held out.new) (Some fault) }
    ensures rose { result ≡ outcome.WriteFault → Rose (S.faults out.old) (S.faults out.new) }
    ensures later { S.faults out.old ≤ S.faults out.new }
{
    let Ok(mut graph) = Graph::start(alloc, run) else {
        return Outcome::Memory;
    };
    let Ok(mut kept) = Seq::with_capacity(alloc, ROOM) else {
        return Outcome::Memory;
    };
    let mut sink = TraceSink {
        sink: out,
        kept: &mut kept,
    };
    let outcome = drive_watched(rt, alloc, run, &mut graph, workers, gate, &mut sink);
    sink.end(alloc, outcome)
}

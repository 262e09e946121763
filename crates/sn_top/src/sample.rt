//! What comes of a program for the records of a number, counted.
ghost use Rattle.std.specs.Prelude.{◌≡◌, IfOk, IfErr, IsTrue};
ghost use Rattle.sn_net.specs.WellFormed.{FitsBoxes};
ghost use Rattle.sn_typing.specs.Accepted.{IsAccepted};
ghost use Rattle.sn_output.specs.Printed.{ending};
ghost use Rattle.sn_sample.specs.Counts.{counts_of};
ghost use Rattle.sn_sample.specs.Tally.{counted};
ghost use Rattle.sn_net.specs.Net.{all_deterministic};
ghost use Rattle.sn_model.specs.Run.{given, net_of};
ghost use Rattle.sn_counts.specs.Samples.{HasCounted, WhyNoSamples};

use sn_counts::{Samples, count_alone, count_items, make_samples};
use sn_farm::farm_drive;
use sn_graph::Graph;
use sn_io::{Gate, NullSink};
use sn_list::{Held, Memory};
use sn_load::Program;
use sn_model::{Outcome, Run};
use sn_names::Names;
use sn_net::{Claim, all_det};
use sn_output::LineSink;
use sn_plain::share;
use sn_record::Fault;
use sn_sample::Tally;
use sn_stop::Stop;
use sn_words::{DEFAULT_DEPTH, DEFAULT_FUEL, DEFAULT_QUEUE, DEFAULT_WORKERS};
use std::alloc::Global;
use std::sync::Wait;
use std::thread::Threads;

/// The same by a graph that is driven with workers, where each merge is in order. Nothing is printed of what comes out.
fn count_together<R: Threads + Wait + Sync, G: Gate>(
    rt: &R,
    alloc: Global,
    run: Run,
    names: &Names,
    gate: &G,
) -> Result<(Tally, Option<Fault>), Stop>
    requires { IsTrue (all_deterministic (net_of run)) }
    ensures counters { IfOk result (λ made. counts_of made.0 ≡ counted names.now (given run)) }
    ensures fault { IfOk result (λ made. made.1 ≡ ending (given run)) }
    ensures memory { IfErr result (λ why. why ≡ Stop.Memory) }
{
    let shared = share(alloc, run)?;
    let graph = Graph::start(alloc, &shared)?;
    let mut graph = Held { value: graph };
    let mut nowhere = NullSink;
    let mut lines = LineSink {
        sink: &mut nowhere,
        names,
    };
    match farm_drive(
        rt,
        alloc,
        &shared,
        &mut graph.value,
        DEFAULT_WORKERS,
        gate,
        &mut lines,
    ) {
        Outcome::Whole => Ok(count_items(names, graph.value.out().as_slice())?),
        Outcome::Faulted(_) => Ok(count_items(names, graph.value.out().as_slice())?),
        Outcome::WriteFault => unreachable!(),
        Outcome::Memory => Err(Stop::Memory),
    }
}

/// Runs a program over the records of a number, within the limits that hold where no word says others, and counts what comes out. It runs
/// with workers, or on one thread where a merge is free and so they might give another stream.
pub fn count_sample<R: Threads + Wait + Sync, G: Gate>(
    rt: &R,
    alloc: Global,
    program: Program,
    number: u32,
    count: u32,
    gate: &G,
) -> Result<(Tally, Option<Fault>), Stop>
    requires formed { FitsBoxes program.boxes program.claim.net }
    requires accepted { IsAccepted program.boxes program.claim }
    ensures counted { IfOk result (λ made. HasCounted program number count (counts_of made.0) made.1) }
    ensures ended { IfErr result (WhyNoSamples program.names program.claim number count) }
{
    let Program {
        names,
        boxes,
        claim,
    } = program;
    let checked = Held {
        value: (boxes, claim),
    };
    let Samples { names, items } = make_samples(alloc, names, &checked.value.1, number, count)?;
    let (boxes, claim) = checked.into_inner();
    let Claim { net, .. } = claim;
    let run = Run::new(
        net,
        boxes,
        DEFAULT_FUEL,
        DEFAULT_DEPTH,
        DEFAULT_QUEUE,
        items,
    );
    let run = Held { value: run };
    let names = Held { value: names };
    if all_det(run.value.net()) {
        count_together(rt, alloc, run.into_inner(), &names.value, gate)
    } else {
        count_alone(alloc, &run.value, &names.value)
    }
}

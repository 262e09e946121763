//! What comes out by a trace that is read.
ghost use Rattle.std.specs.Prelude.{◌≡◌, ◌≤◌, length, IfErr, IfOk};
ghost use Rattle.sn_net.specs.WellFormed.{FitsBoxes};
ghost use Rattle.sn_load.specs.Load.{AreLimits, AreTypedRecords, limits_of};
ghost use Rattle.sn_plain.specs.Ready.{setting_at};
ghost use Rattle.sn_plain.specs.Runs.{HasPrinted};
ghost use Rattle.sn_plain.specs.Seen.{seen_sink};
ghost use Rattle.sn_plain.specs.Stopping.{WhyUnplayable, trace_stop};
ghost use Rattle.sn_plain.specs.Traces.{Played};
ghost use Rattle.sn_plain.specs.declared.replaying.TheConstants.{TRACE_LIMIT};

use crate::ready::{Ready, Started, start};
use crate::transcript::print_items;
use sn_io::Sink;
use sn_list::Held;
use sn_record::Fault;
use sn_replay::{TraceFault, replay};
use sn_stop::{Refusal, Stop, TraceRefusal};
use sn_words::DEFAULT_QUEUE;
use std::alloc::Global;

/// The most bytes of a trace.
pub const TRACE_LIMIT: u64 = 16_777_216;

/// Why a replay stops.
fn stop_of(fault: TraceFault) -> Stop
    ensures { result ≡ trace_stop fault }
{
    match fault {
        TraceFault::BadLine(n) => Stop::Refused(Refusal::Trace(TraceRefusal::BadLine(n))),
        TraceFault::NotEnabled(n) => Stop::Refused(Refusal::Trace(TraceRefusal::NotEnabled(n))),
        TraceFault::Unfinished => Stop::Refused(Refusal::Trace(TraceRefusal::Unfinished)),
        TraceFault::Memory => Stop::Memory,
    }
}

/// Checks a text as a trace of the run of what is ready, prints the records that come out by it, and answers the fault that ends them. Nothing is
/// printed before the whole text is checked.
pub fn print_replay<O: Sink>(
    alloc: Global,
    ready: Ready,
    text: &[u8],
    fuel: u64,
    depth: u32,
    out: &mut O,
) -> Result<Option<Fault>, Stop>
    requires limits { AreLimits (limits_of fuel depth) }
    requires formed { FitsBoxes ready.boxes ready.net }
    requires typed { AreTypedRecords ready.boxes ready.net ready.records }
    requires short { length text.now ≤ TRACE_LIMIT }
    ensures done { IfOk result (HasPrinted (Played text.now (setting_at ready (limits_of fuel depth)) ready.net ready.records ready.names) (seen_sink O.held O.faults out.old out.new)) }
    ensures ended { IfErr result (WhyUnplayable text.now (setting_at ready (limits_of fuel depth)) ready.net ready.records ready.names (seen_sink O.held O.faults out.old out.new)) }
    ensures later { O.faults out.old ≤ O.faults out.new }
{
    let Started { run, names } = start(alloc, ready, fuel, depth, DEFAULT_QUEUE)?;
    let names = Held { value: names };
    match replay(alloc, &run, text) {
        Ok(items) => print_items(alloc, &names.value, items, out),
        Err(fault) => Err(stop_of(fault)),
    }
}

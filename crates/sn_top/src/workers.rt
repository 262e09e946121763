//! What a run with workers prints.
ghost use Rattle.std.specs.Prelude.{◌≤◌, IfErr, IfOk};
ghost use Rattle.sn_net.specs.WellFormed.{FitsBoxes};
ghost use Rattle.sn_model.specs.Ranges.{IsWithin};
ghost use Rattle.sn_model.specs.declared.run.TheConstants.{LONGEST_QUEUE};
ghost use Rattle.sn_load.specs.Load.{AreLimits, AreTypedRecords, limits_of};
ghost use Rattle.sn_plain.specs.Ready.{setting_at};
ghost use Rattle.sn_plain.specs.Runs.{HasPrinted, WhyUnfinished, WithWorkers};
ghost use Rattle.sn_plain.specs.Seen.{seen_sink};

use crate::engines::run_together;
use sn_io::{Gate, Sink};
use sn_list::Held;
use sn_model::Outcome;
use sn_plain::{Ready, Started, start};
use sn_record::Fault;
use sn_stop::Stop;
use std::alloc::Global;
use std::sync::Wait;
use std::thread::Threads;

/// How a run with workers is set: the fuel of each call of a box, how many replicas a star may have, how many workers there are, how
/// many entries a queue between them holds, and whether the planned network is run.
#[derive(Clone, Copy)]
pub struct Setup {
    pub fuel: u64,
    pub depth: u32,
    pub workers: u32,
    pub queue: u32,
    pub is_planned: bool,
}

/// Runs a network over its records with workers, of which the calling thread is one. It prints each record that comes out, and answers
/// the fault that ends them.
pub fn print_with_workers<R: Threads + Wait + Sync, O: Sink, G: Gate>(
    rt: &R,
    alloc: Global,
    ready: Ready,
    setup: Setup,
    gate: &G,
    out: &mut O,
) -> Result<Option<Fault>, Stop>
    requires limits { AreLimits (limits_of setup.fuel setup.depth) }
    requires workers { (1 ≤ setup.workers) × (setup.workers ≤ 64) }
    requires queue { IsWithin setup.queue LONGEST_QUEUE }
    requires formed { FitsBoxes ready.boxes ready.net }
    requires typed { AreTypedRecords ready.boxes ready.net ready.records }
    ensures done { IfOk result (HasPrinted (WithWorkers (setting_at ready (limits_of setup.fuel setup.depth)) ready.net ready.records ready.names) (seen_sink O.held O.faults out.old out.new)) }
    ensures ended { IfErr result (WhyUnfinished (WithWorkers (setting_at ready (limits_of setup.fuel setup.depth)) ready.net ready.records ready.names) (seen_sink O.held O.faults out.old out.new)) }
    ensures later { O.faults out.old ≤ O.faults out.new }
{
    let Started { run, names } = start(alloc, ready, setup.fuel, setup.depth, setup.queue)?;
    let names = Held { value: names };
    match run_together(rt, alloc, run, &names.value, setup.workers, gate, out) {
        Outcome::Whole => Ok(None),
        Outcome::Faulted(fault) => Ok(Some(fault)),
        Outcome::WriteFault => Err(Stop::Write),
        Outcome::Memory => Err(Stop::Memory),
    }
}

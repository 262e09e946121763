//! A run driven to rest.
ghost use Rattle.std.specs.Prelude.{IfOk};
ghost use Rattle.drive.specs.Driven.{IsDriven};

use crate::chance::Chance;
use crate::driving::Drive;
use crate::order::Order;
use crate::refusal::Refusal;
use sn_graph::Graph;
use sn_model::Run;
use std::alloc::Global;
use std::sync::Arc;

/// Lets events happen to a run in an order, until none may. Then what came out is one of the streams that the merges allow of the run.
pub fn drive(alloc: Global, run: &Arc<Run>, order: Order, seed: u64) -> Result<Graph, Refusal>
    ensures { IfOk result (IsDriven run.now.value) }
{
    let mut drive = Drive::start(alloc, run)?;
    let mut chance = Chance::new(seed);
    while drive.step(alloc, order, &mut chance)? {}
    drive.into_graph()
}

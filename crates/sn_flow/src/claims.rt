//! Flow and claims.
ghost use Rattle.std.specs.Prelude.{◌≡◌, ◌∷◌, []};
ghost use Rattle.sn_net.specs.WellFormed.{FitsBoxes};
ghost use Rattle.sn_typing.specs.Outline.{outline};
ghost use Rattle.sn_flow.specs.Whole.{IsWhole};
ghost use Rattle.sn_flow.specs.Verdicts.{Checked, FlowFound};
ghost use Rattle.sn_flow.specs.Told.{Declared, Routed, fault_of};

use crate::fault::FlowFault;
use crate::indexed::Indexed;
use crate::spots::{bad_spot, unrouted_spot};
use crate::stop::Stop;
use crate::table::{Row, Table, flow_of, no_table};
use crate::whole::visit_each;
use sn_list::Seq;
use sn_net::{Boxes, Claim, Net, ascending};
use sn_record::LabelSet;
use std::alloc::Global;
use std::slice::from_ref;

/// Why there is no table.
fn stopped(place: u32, stop: Stop) -> FlowFault
    ensures { result ≡ fault_of place stop }
{
    match stop {
        Stop::TooMany => FlowFault::TooManyVariants(place),
        Stop::Memory => FlowFault::Memory,
    }
}

/// Refuses the soonest row without a route.
fn routed(alloc: Global, net: &Net, boxes: &Boxes, table: &Table) -> Result<(), FlowFault>
    requires { FitsBoxes boxes.now net.now }
    ensures { Routed (outline boxes.now net.now) table.now result }
{
    let nothing = no_table(alloc);
    let mut best = None;
    unrouted_spot(alloc, net, boxes, table, &nothing, &mut best)?;
    match best {
        Some(spot) => Err(FlowFault::NoRoute(spot.place, spot.variant)),
        None => Ok(()),
    }
}

/// Refuses the soonest of what flows out for the claim's input and is not of its output type.
fn declared(alloc: Global, claim: &Claim, rows: &Indexed<Row>) -> Result<(), FlowFault>
    ensures { Declared claim.now rows.now result }
{
    let output = claim.output.as_slice();
    let mut best = None;
    bad_spot(
        alloc,
        claim.place,
        output,
        rows,
        claim.input.as_slice(),
        &mut best,
    )?;
    match best {
        Some(spot) => Err(FlowFault::BadOutput(spot.place, spot.variant)),
        None => Ok(()),
    }
}

/// The flow of the variant in a table, if each row has a route.
fn flow_in(
    alloc: Global,
    net: &Net,
    boxes: &Boxes,
    table: &Table,
    variant: &LabelSet,
) -> Result<Seq<LabelSet>, FlowFault>
    requires { FitsBoxes boxes.now net.now }
    ensures { IsWhole (outline boxes.now net.now) (variant.now ∷ []) table.now → FlowFound (outline boxes.now net.now) variant.now result }
{
    routed(alloc, net, boxes, table)?;
    let flow = flow_of(alloc, &table.rows, variant)?;
    Ok(ascending(flow))
}

/// Whether a table lets the claim be accepted.
fn accepted(alloc: Global, claim: &Claim, boxes: &Boxes, table: &Table) -> Result<(), FlowFault>
    requires { FitsBoxes boxes.now claim.now.net }
    ensures { IsWhole (outline boxes.now claim.now.net) claim.now.input table.now → Checked boxes.now claim.now result }
{
    routed(alloc, &claim.net, boxes, table)?;
    declared(alloc, claim, &table.rows)
}

/// The variants that can come out for records of the variant, in ascending order and each once.
pub fn flow(
    alloc: Global,
    net: &Net,
    boxes: &Boxes,
    variant: &LabelSet,
) -> Result<Seq<LabelSet>, FlowFault>
    requires { FitsBoxes boxes.now net.now }
    ensures { FlowFound (outline boxes.now net.now) variant.now result }
{
    match visit_each(alloc, net, boxes, from_ref(variant)) {
        Err(stop) => Err(stopped(0, stop)),
        Ok(table) => flow_in(alloc, net, boxes, &table, variant),
    }
}

/// Whether the claim is accepted, or why it isn't.
pub fn check(alloc: Global, claim: &Claim, boxes: &Boxes) -> Result<(), FlowFault>
    requires { FitsBoxes boxes.now claim.now.net }
    ensures { Checked boxes.now claim.now result }
{
    match visit_each(alloc, &claim.net, boxes, claim.input.as_slice()) {
        Err(stop) => Err(stopped(claim.place, stop)),
        Ok(table) => accepted(alloc, claim, boxes, &table),
    }
}

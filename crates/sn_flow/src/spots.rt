//! Spots: where a record finds no route, or leaves as it may not.
ghost use Rattle.std.specs.Prelude.{◌≡◌, List, Some, IfOk, OnOk, if◌then◌else◌};
ghost use Rattle.std.specs.Ordering.{is_lt};
ghost use Rattle.sn_net.specs.declared.expr.BoxProgram.{BoxProgram};
ghost use Rattle.sn_net.specs.WellFormed.{FitsBoxes};
ghost use Rattle.sn_typing.specs.Outline.{outline};
ghost use Rattle.sn_flow.specs.Tables.{no_table};
ghost use Rattle.sn_flow.specs.Spots.{bad_spots, flow_spots, is_routed, least, place_of, row_spots, sooner, spot, spot_cmp, spots};

use crate::chosen::has_face;
use crate::indexed::Indexed;
use crate::sets::{has_fit, is_taken};
use crate::table::{Row, Table, flow_of, part_of};
use sn_list::Memory;
use sn_net::{Boxes, Net, compare, variant_of};
use sn_record::{Kind, Label, LabelSet};
use std::alloc::Global;
use std::mem::replace;
use std::slice::from_ref;

/// A place, and the variant that is refused there.
#[derive(Drop)]
pub struct Spot {
    pub place: u32,
    pub variant: LabelSet,
}

/// Whether the variant at the place comes before the spot.
fn is_sooner(place: u32, variant: &LabelSet, other: &Spot) -> bool
    ensures { result ≡ is_lt (spot_cmp (spot place variant.now) other.now) }
{
    place
        .cmp(&other.place)
        .then(compare(variant, &other.variant))
        .is_lt()
}

/// Whether the variant at the place comes before the best, if there is one.
fn is_better(place: u32, variant: &LabelSet, best: &Option<Spot>) -> bool
    ensures { sooner best.now (spot place variant.now) ≡ (if result then Some (spot place variant.now) else best.now) }
{
    match best {
        Some(other) => is_sooner(place, variant, other),
        None => true,
    }
}

/// Keeps the sooner of both.
fn keep_sooner(best: &mut Option<Spot>, place: u32, variant: &LabelSet) -> Result<(), Memory>
    ensures { OnOk result (best.new ≡ sooner best.old (spot place variant.now)) }
{
    if !is_better(place, variant, best) {
        return Ok(());
    }
    let variant = variant.copy()?;
    drop(replace(best, Some(Spot { place, variant })));
    Ok(())
}

/// The place of the network's own form.
fn place_of(net: &Net) -> u32
    ensures { (boxes : List BoxProgram) → result ≡ place_of (outline boxes net.now) }
{
    match net {
        Net::Box { place, .. } => *place,
        Net::Filter(filter) => filter.place,
        Net::Sync { place, .. } => *place,
        Net::Choice { place, .. } => *place,
        Net::Split { place, .. } => *place,
        Net::Serial { .. } => 0,
        Net::Star { .. } => 0,
    }
}

/// Whether the form itself has a route for records of the variant.
fn is_routed(alloc: Global, net: &Net, boxes: &Boxes, variant: &LabelSet) -> Result<bool, Memory>
    requires { FitsBoxes boxes.now net.now }
    ensures { IfOk result (λ routed. routed ≡ is_routed (outline boxes.now net.now) variant.now) }
{
    match net {
        Net::Box { number, .. } => {
            let takes = variant_of(alloc, boxes.at(*number as usize).input.as_slice())?;
            Ok(is_taken(from_ref(&takes), variant))
        }
        Net::Filter(filter) => Ok(is_taken(from_ref(&filter.pattern), variant)),
        Net::Sync { patterns, .. } => Ok(is_taken(patterns.as_slice(), variant)),
        Net::Choice { faces, .. } => Ok(has_face(faces.as_slice(), variant)),
        Net::Split { tag, .. } => Ok(variant.contains(Label {
            kind: Kind::Tag,
            id: *tag,
        })),
        Net::Serial { .. } => Ok(true),
        Net::Star { .. } => Ok(true),
    }
}

/// Keeps the soonest of `best` and the rows without a route.
fn row_spot(
    alloc: Global,
    net: &Net,
    boxes: &Boxes,
    rows: &[Row],
    best: &mut Option<Spot>,
) -> Result<(), Memory>
    requires { FitsBoxes boxes.now net.now }
    ensures { OnOk result (best.new ≡ least best.old (row_spots (outline boxes.now net.now) rows.now)) }
{
    for row in rows {
        if is_routed(alloc, net, boxes, &row.variant)? {
            continue;
        }
        keep_sooner(best, place_of(net), &row.variant)?;
    }
    Ok(())
}

/// Keeps the soonest of `best` and the rows without a route, of the network and of all its parts. `nothing` is the table of a part
/// that nothing reached.
pub fn unrouted_spot(
    alloc: Global,
    net: &Net,
    boxes: &Boxes,
    table: &Table,
    nothing: &Table,
    best: &mut Option<Spot>,
) -> Result<(), Memory>
    requires formed { FitsBoxes boxes.now net.now }
    requires nothing { nothing.now ≡ no_table }
    ensures { OnOk result (best.new ≡ least best.old (spots (outline boxes.now net.now) table.now)) }
{
    row_spot(alloc, net, boxes, table.rows.as_slice(), best)?;
    let parts = table.parts.as_slice();
    let part = part_of(parts, 0, nothing);
    match net {
        Net::Box { .. } => Ok(()),
        Net::Filter(_) => Ok(()),
        Net::Sync { .. } => Ok(()),
        Net::Serial { left, right } => {
            unrouted_spot(alloc, left.get(), boxes, part, nothing, best)?;
            let second = part_of(parts, 1, nothing);
            unrouted_spot(alloc, right.get(), boxes, second, nothing, best)
        }
        Net::Choice { branches, .. } => {
            for i in 0..branches.len() {
                let part = part_of(parts, i, nothing);
                unrouted_spot(alloc, branches.at(i), boxes, part, nothing, best)?;
            }
            Ok(())
        }
        Net::Star { body, .. } => unrouted_spot(alloc, body.get(), boxes, part, nothing, best),
        Net::Split { body, .. } => unrouted_spot(alloc, body.get(), boxes, part, nothing, best),
    }
}

/// Keeps the soonest of `best` and the variants of the flow that no variant of the output fits.
fn flow_spot(
    place: u32,
    output: &[LabelSet],
    flow: &[LabelSet],
    best: &mut Option<Spot>,
) -> Result<(), Memory>
    ensures { OnOk result (best.new ≡ least best.old (flow_spots place output.now flow.now)) }
{
    for variant in flow {
        if has_fit(output, variant) {
            continue;
        }
        keep_sooner(best, place, variant)?;
    }
    Ok(())
}

/// Keeps the soonest of `best` and what flows out for the input and no variant of the output fits.
pub fn bad_spot(
    alloc: Global,
    place: u32,
    output: &[LabelSet],
    rows: &Indexed<Row>,
    input: &[LabelSet],
    best: &mut Option<Spot>,
) -> Result<(), Memory>
    ensures { OnOk result (best.new ≡ least best.old (bad_spots place output.now rows.now input.now)) }
{
    for variant in input {
        let flow = flow_of(alloc, rows, variant)?;
        flow_spot(place, output, flow.as_slice(), best)?;
    }
    Ok(())
}

//! What boxes, filters and synchrocells do with what comes to them.
ghost use Rattle.std.specs.Prelude.{◌≡◌, ◌++◌, ◌<◌, ◌∷◌, [], IfOk, Ok, OnOk, length, map, slice_get, if◌then◌else◌};
ghost use Rattle.sn_record.specs.Record.{Matches, is_match};
ghost use Rattle.sn_net.specs.Answer.{filter_answer, used};
ghost use Rattle.sn_net.specs.Cell.{cell_emits, cell_next, new_cell};
ghost use Rattle.sn_net.specs.Filter.{IsClosed};
ghost use Rattle.sn_net.specs.Item as model;
ghost use Rattle.sn_model.specs.Components.{box_item, call_record, filter_item};
ghost use Rattle.sn_model.specs.Run.{boxes_of, fuel_of};
ghost use Rattle.sn_pass.specs.Flowing.{flows};
ghost use Rattle.sn_pass.specs.Inputs.{HasInputs};
ghost use Rattle.sn_pass.specs.Keeping.{state_or};
ghost use Rattle.sn_pass.specs.Output.{given};
ghost use Rattle.sn_pass.specs.States.{held};

use crate::flowing::{Flowing, append_items, append_joined};
use crate::kept::{Kept, into_holding, keep_cell};
use crate::output::Output;
use crate::walk::Walk;
use sn_boxrun::call_owned;
use sn_filter::{apply_onto, apply_single, choose};
use sn_list::{Memory, Seq};
use sn_net::{Filter, Template};
use sn_record::{LabelSet, Record};
use sn_stack::append;
use sn_sync::Holding;
use std::alloc::Global;
use std::mem::replace;

/// Whether the record has each label of the variant.
fn is_match(r: &Record, variant: &LabelSet) -> bool
    ensures { result ≡ is_match r.now variant.now }
{
    r.matches(variant)
}

/// Appends what a filter answers to a record for which it uses the templates.
fn use_templates(
    alloc: Global,
    filter: &Filter,
    templates: &[Template],
    taken: Record,
    out: &mut Output,
) -> Result<(), Memory>
    requires templates { used filter.now taken ≡ Ok templates.now }
    requires closed { IsClosed filter.now }
    requires matches { Matches taken filter.now.pattern }
    ensures { OnOk result (given out.new ≡ given out.old ++ filter_answer filter.now taken) }
{
    if let [template] = templates {
        let item = apply_single(alloc, filter, template, taken)?;
        return append(&mut out.given, Flowing::of(item));
    }
    let mut answers = out.take_answers(alloc);
    apply_onto(alloc, filter, templates, taken, &mut answers)?;
    let room = append_items(&mut out.given, answers)?;
    out.put_answers(room);
    Ok(())
}

/// Appends what a filter answers to a record, or that the record has no route, where it does not match the pattern.
fn filter_record(
    alloc: Global,
    filter: &Filter,
    taken: Record,
    out: &mut Output,
) -> Result<(), Memory>
    requires { IsClosed filter.now }
    ensures { OnOk result (given out.new ≡ given out.old
        ++ (if is_match taken filter.now.pattern then filter_answer filter.now taken else model.Stuck filter.now.place ∷ [])) }
{
    if !is_match(&taken, &filter.pattern) {
        return append(&mut out.given, Flowing::Stuck(filter.place));
    }
    match choose(filter, &taken) {
        Ok(templates) => use_templates(alloc, filter, templates, taken, out),
        Err(fault) => append(&mut out.given, Flowing::Fault(fault)),
    }
}

/// Appends what a filter answers to an item.
pub fn pass_filter(
    alloc: Global,
    filter: &Filter,
    item: Flowing,
    out: &mut Output,
) -> Result<(), Memory>
    requires { IsClosed filter.now }
    ensures { OnOk result (given out.new ≡ given out.old ++ filter_item filter.now (flows item)) }
{
    match item {
        Flowing::Rec(taken) => filter_record(alloc, filter, taken, out),
        Flowing::Fault(fault) => append(&mut out.given, Flowing::Fault(fault)),
        Flowing::Stuck(at) => append(&mut out.given, Flowing::Stuck(at)),
    }
}

/// Appends what the box of a number answers to a record, or that the record has no route, where it lacks an input label.
fn call_box(
    walk: &Walk,
    place: u32,
    number: u32,
    taken: Record,
    out: &mut Seq<Flowing>,
) -> Result<(), Memory>
    requires there { number < length (boxes_of walk.now.run.now) }
    requires inputs { HasInputs walk.now }
    ensures { OnOk result (map flows out.new ≡ map flows out.old
        ++ call_record (slice_get (boxes_of walk.now.run.now) number) place (fuel_of walk.now.run.now) taken) }
{
    let (program, input) = walk.box_at(number);
    if !is_match(&taken, input) {
        return append(out, Flowing::Stuck(place));
    }
    let came = call_owned(walk.alloc, program, place, input, taken, walk.run.fuel())?;
    append_items(out, came)?;
    Ok(())
}

/// Appends what the box of a number answers to an item.
pub fn pass_box(
    walk: &Walk,
    place: u32,
    number: u32,
    item: Flowing,
    out: &mut Seq<Flowing>,
) -> Result<(), Memory>
    requires there { number < length (boxes_of walk.now.run.now) }
    requires inputs { HasInputs walk.now }
    ensures { OnOk result (map flows out.new ≡ map flows out.old
        ++ box_item (boxes_of walk.now.run.now) (fuel_of walk.now.run.now) place number (flows item)) }
{
    match item {
        Flowing::Rec(taken) => call_box(walk, place, number, taken, out),
        Flowing::Fault(fault) => append(out, Flowing::Fault(fault)),
        Flowing::Stuck(at) => append(out, Flowing::Stuck(at)),
    }
}

/// Offers a record to what a cell holds, and appends what comes out, or that the record has no route, where it matches no pattern.
fn offer(
    place: u32,
    patterns: &[LabelSet],
    holding: &mut Holding,
    taken: Record,
    out: &mut Seq<Flowing>,
) -> Result<(), Memory>
    ensures gives { OnOk result (map flows out.new ≡ map flows out.old ++ cell_emits place patterns.now holding.old (model.Rec taken)) }
    ensures keeps { OnOk result (holding.new ≡ cell_next patterns.now holding.old (model.Rec taken)) }
{
    if !holding.accepts(patterns, &taken) {
        return append(out, Flowing::Stuck(place));
    }
    let Ok(came) = holding.offer(patterns, taken) else {
        return Err(Memory);
    };
    append_joined(out, came)
}

/// The same, with what is kept for the cell.
fn offer_record(
    alloc: Global,
    place: u32,
    patterns: &[LabelSet],
    kept: &mut Kept,
    taken: Record,
    out: &mut Seq<Flowing>,
) -> Result<(), Memory>
    ensures gives { OnOk result (map flows out.new ≡ map flows out.old
        ++ cell_emits place patterns.now (state_or (new_cell patterns.now) (held kept.old)) (model.Rec taken)) }
    ensures keeps { OnOk result (state_or (new_cell patterns.now) (held kept.new)
        ≡ cell_next patterns.now (state_or (new_cell patterns.now) (held kept.old)) (model.Rec taken)) }
{
    let mut holding = into_holding(replace(kept, Kept::Fresh), alloc, patterns)?;
    let offered = offer(place, patterns, &mut holding, taken, out);
    keep_cell(kept, holding);
    offered
}

/// Appends what a synchrocell gives for an item.
pub fn pass_cell(
    alloc: Global,
    place: u32,
    patterns: &[LabelSet],
    kept: &mut Kept,
    item: Flowing,
    out: &mut Seq<Flowing>,
) -> Result<(), Memory>
    ensures gives { OnOk result (map flows out.new ≡ map flows out.old
        ++ cell_emits place patterns.now (state_or (new_cell patterns.now) (held kept.old)) (flows item)) }
    ensures keeps { OnOk result (state_or (new_cell patterns.now) (held kept.new)
        ≡ cell_next patterns.now (state_or (new_cell patterns.now) (held kept.old)) (flows item)) }
{
    match item {
        Flowing::Rec(taken) => offer_record(alloc, place, patterns, kept, taken, out),
        Flowing::Fault(fault) => append(out, Flowing::Fault(fault)),
        Flowing::Stuck(at) => append(out, Flowing::Stuck(at)),
    }
}

//! One entry through a box, a filter or a synchrocell.
ghost use Rattle.std.specs.Prelude.{◌≡◌, ◌≢◌, ◌++◌, ◌∷◌, [], false, IfErr, IfOk, OnErr, OnOk, map, ℕ};
ghost use Rattle.sn_net.specs.Item.{Rec, holds_stuck, modelled};
ghost use Rattle.sn_net.specs.Cell.{Unmatched, cell_emits, cell_next, reception};
ghost use Rattle.sn_net.specs.WellFormed.{FitsBoxes};
ghost use Rattle.sn_net.specs.Filter.{IsClosed};
ghost use Rattle.sn_net.specs.declared.net.Net.TheViews.{out-Net};
ghost use Rattle.sn_model.specs.Components.{box_item, filter_item};
ghost use Rattle.sn_model.specs.Run.{boxes_of, fuel_of, setting_of};
ghost use Rattle.sn_histories.specs.Entries as entry;
ghost use Rattle.sn_facts.specs.Working.{gives_on, next_on};
ghost use Rattle.sn_routed.specs.Routed.{has_stuck};
ghost use Rattle.sn_stream.specs.Ends.{entry_of};
ghost use Rattle.sn_component.specs.Component.{machine_of, state_of};
ghost use Rattle.sn_component.specs.Outbox.{given};

use crate::outbox::Outbox;
use sn_boxrun::call;
use sn_filter::apply;
use sn_io::Gate;
use sn_list::Memory;
use sn_model::Run;
use sn_net::{Filter, Net};
use sn_record::{Item, Items, LabelSet, Record};
use sn_stream::StreamItem;
use sn_sync::{CellOut, Holding};
use std::alloc::Global;

/// What a component keeps between two entries.
#[derive(Drop)]
pub enum Keeps {
    /// A box or a filter.
    Nothing,
    /// A synchrocell.
    Records(Holding),
}

/// What a box answers to a record, for which it is there and has a route.
fn box_answer<G: Gate>(
    alloc: Global,
    run: &Run,
    place: u32,
    number: u32,
    gate: &G,
    number_of_call: u64,
    r: &Record,
) -> Result<Items, Memory>
    requires { holds_stuck (box_item (boxes_of run.now) (fuel_of run.now) place number (Rec r.now)) ≡ false }
    ensures { IfOk result (λ items. map modelled items ≡ box_item (boxes_of run.now) (fuel_of run.now) place number (Rec r.now)) }
{
    let program = run.boxes().at(number as usize);
    gate.enter(number_of_call);
    let items = call(alloc, program, place, r, run.fuel());
    gate.leave(number_of_call);
    items
}

/// What a filter answers to a record, for which it has a route.
fn filter_answer(alloc: Global, filter: &Filter, r: &Record) -> Result<Items, Memory>
    requires closed { IsClosed filter.now }
    requires routed { holds_stuck (filter_item filter.now (Rec r.now)) ≡ false }
    ensures { IfOk result (λ items. map modelled items ≡ filter_item filter.now (Rec r.now)) }
{
    apply(alloc, filter, r)
}

/// Holds items to be sent.
fn hold_all(out: &mut Outbox, items: Items) -> Result<(), Memory>
    ensures put { out.new.put ≡ out.old.put }
    ensures ok { OnOk result (given out.new ≡ given out.old ++ map entry.Item (map modelled items)) }
    ensures err { OnErr result (out.new.held.items ≡ out.old.held.items) }
{
    let items = items.into_vec();
    out.reserve(items.len())?;
    for item in items {
        out.hold(StreamItem::Item(item));
    }
    Ok(())
}

/// Holds one entry to be sent. For want of memory it comes back.
fn hold_one(out: &mut Outbox, x: StreamItem) -> Result<(), StreamItem>
    ensures put { out.new.put ≡ out.old.put }
    ensures ok { OnOk result (given out.new ≡ given out.old ++ entry_of x ∷ []) }
    ensures err { OnErr result (out.new.held.items ≡ out.old.held.items) }
    ensures back { IfErr result (λ refused. refused ≡ x) }
{
    if out.reserve(1).is_err() {
        return Err(x);
    }
    out.hold(x);
    Ok(())
}

/// Holds a record to be sent. For want of memory it comes back.
fn hold_record(out: &mut Outbox, r: Record) -> Result<(), Record>
    ensures put { out.new.put ≡ out.old.put }
    ensures ok { OnOk result (given out.new ≡ given out.old ++ entry.Item (Rec r) ∷ []) }
    ensures err { OnErr result (out.new.held.items ≡ out.old.held.items) }
    ensures back { IfErr result (λ refused. refused ≡ r) }
{
    if out.reserve(1).is_err() {
        return Err(r);
    }
    out.hold(StreamItem::Item(Item::Rec(r)));
    Ok(())
}

/// One record through a synchrocell with the patterns, which has a route for it. One that keeps nothing has joined.
fn pass_cell(
    patterns: &[LabelSet],
    keeps: &mut Keeps,
    r: Record,
    out: &mut Outbox,
) -> Result<(), Record>
    requires { reception patterns.now (state_of keeps.old) r ≢ Unmatched }
    ensures put { out.new.put ≡ out.old.put }
    ensures given { (place : ℕ) → OnOk result (given out.new ≡ given out.old ++ map entry.Item (cell_emits place patterns.now (state_of keeps.old) (Rec r))) }
    ensures state { OnOk result (state_of keeps.new ≡ cell_next patterns.now (state_of keeps.old) (Rec r)) }
    ensures held { OnErr result (out.new.held.items ≡ out.old.held.items) }
    ensures same { OnErr result (state_of keeps.new ≡ state_of keeps.old) }
    ensures back { IfErr result (λ refused. refused ≡ r) }
{
    let Keeps::Records(holding) = keeps else {
        return hold_record(out, r);
    };
    if out.reserve(1).is_err() {
        return Err(r);
    }
    match holding.offer(patterns, r) {
        Ok(CellOut::Held) => Ok(()),
        Ok(CellOut::Passed(r)) => {
            out.hold(StreamItem::Item(Item::Rec(r)));
            Ok(())
        }
        Ok(CellOut::Joined(r)) => {
            out.hold(StreamItem::Item(Item::Rec(r)));
            Ok(())
        }
        Err(refused) => Err(refused),
    }
}

/// One record through a component, which has a route for it. For want of memory it comes back, and nothing has changed. A part that is no
/// component is not asked, and would pass the record on.
fn pass_record<G: Gate>(
    alloc: Global,
    run: &Run,
    part: &Net,
    gate: &G,
    call: u64,
    keeps: &mut Keeps,
    r: Record,
    out: &mut Outbox,
) -> Result<(), Record>
    requires fits { FitsBoxes (boxes_of run.now) part.now }
    requires routed { holds_stuck ((machine_of (setting_of run.now) (out-Net part.now)).emits (state_of keeps.old) (Rec r)) ≡ false }
    ensures put { out.new.put ≡ out.old.put }
    ensures given { OnOk result (given out.new ≡ given out.old ++ map entry.Item ((machine_of (setting_of run.now) (out-Net part.now)).emits (state_of keeps.old) (Rec r))) }
    ensures state { OnOk result (state_of keeps.new ≡ (machine_of (setting_of run.now) (out-Net part.now)).next (state_of keeps.old) (Rec r)) }
    ensures held { OnErr result (out.new.held.items ≡ out.old.held.items) }
    ensures same { OnErr result (state_of keeps.new ≡ state_of keeps.old) }
    ensures back { IfErr result (λ refused. refused ≡ r) }
{
    let answer = match part {
        Net::Box { place, number } => box_answer(alloc, run, *place, *number, gate, call, &r),
        Net::Filter(filter) => filter_answer(alloc, filter, &r),
        Net::Sync { patterns, .. } => return pass_cell(patterns.as_slice(), keeps, r, out),
        Net::Serial { .. } | Net::Choice { .. } | Net::Star { .. } | Net::Split { .. } => {
            return hold_record(out, r);
        }
    };
    let Ok(items) = answer else {
        return Err(r);
    };
    match hold_all(out, items) {
        Ok(()) => Ok(()),
        Err(_) => Err(r),
    }
}

/// One entry through a component, which has a route for it and holds what it gives. For want of memory the entry comes back, and nothing has changed.
pub fn pass<G: Gate>(
    alloc: Global,
    run: &Run,
    part: &Net,
    gate: &G,
    call: u64,
    keeps: &mut Keeps,
    x: StreamItem,
    out: &mut Outbox,
) -> Result<(), StreamItem>
    requires fits { FitsBoxes (boxes_of run.now) part.now }
    requires routed { has_stuck (gives_on (machine_of (setting_of run.now) (out-Net part.now)) (state_of keeps.old) (entry_of x)) ≡ false }
    ensures put { out.new.put ≡ out.old.put }
    ensures given { OnOk result (given out.new ≡ given out.old ++ gives_on (machine_of (setting_of run.now) (out-Net part.now)) (state_of keeps.old) (entry_of x)) }
    ensures state { OnOk result (state_of keeps.new ≡ next_on (machine_of (setting_of run.now) (out-Net part.now)) (state_of keeps.old) (entry_of x)) }
    ensures held { OnErr result (out.new.held.items ≡ out.old.held.items) }
    ensures same { OnErr result (state_of keeps.new ≡ state_of keeps.old) }
    ensures back { IfErr result (λ refused. refused ≡ x) }
{
    match x {
        StreamItem::Item(Item::Rec(r)) => {
            match pass_record(alloc, run, part, gate, call, keeps, r, out) {
                Ok(()) => Ok(()),
                Err(r) => Err(StreamItem::Item(Item::Rec(r))),
            }
        }
        other => hold_one(out, other),
    }
}

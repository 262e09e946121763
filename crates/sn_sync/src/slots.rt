//! The slots of a cell that waits, one for each pattern.
ghost use Rattle.std.specs.Prelude.{◌≡◌, ◌<◌, map, length, slice_get, slice_set, if◌then◌else◌, Some, None, IfOk, OnOk, IfErr, OnErr, IsSome, IfSome};
ghost use Rattle.std.specs.Option.{option_map};
ghost use Rattle.std.specs.List.{list_any};
ghost use Rattle.sn_record.specs.Record.{is_match};
ghost use Rattle.sn_net.specs.Cell.{with_record, all_held, union};
ghost use Rattle.sn_sync.specs.Slotted.{held_records};

use sn_list::Memory;
use sn_record::{LabelSet, Record};
use std::alloc::Global;

/// An empty slot for each pattern.
pub(crate) fn empty_slots(
    alloc: Global,
    patterns: &[LabelSet],
) -> Result<Vec<Option<Record>>, Memory>
    ensures { IfOk result (λ slots. slots.items ≡ map (λ pattern. None) patterns.now) }
{
    let mut slots = Vec::with_capacity(alloc, patterns.len())?;
    for _pattern in patterns {
        slots.push(None)?;
    }
    Ok(slots)
}

/// Whether the record has each label of the pattern.
fn is_match(r: &Record, pattern: &LabelSet) -> bool
    ensures { result ≡ is_match r.now pattern.now }
{
    r.matches(pattern)
}

/// Whether the record matches one of the patterns.
pub(crate) fn matches_any(patterns: &[LabelSet], r: &Record) -> bool
    ensures { result ≡ list_any (is_match r.now) patterns.now }
{
    for pattern in patterns {
        if is_match(r, pattern) {
            return true;
        }
    }
    false
}

/// The leftmost empty slot whose pattern the record matches. Where there are not as many slots as patterns, those without a partner
/// do not count.
pub(crate) fn free_slot(
    patterns: &[LabelSet],
    slots: &[Option<Record>],
    r: &Record,
) -> Option<usize>
    ensures within { IfSome result (λ place. place < length slots.now) }
    ensures empty { IfSome result (λ place. slice_get slots.now place ≡ Some None) }
    ensures slot { with_record patterns.now slots.now r.now ≡ option_map (λ place. slice_set slots.now place (Some r.now)) result }
{
    for place in 0..patterns.len().min(slots.len()) {
        let pattern = &patterns[place];
        if slots[place].is_none() && is_match(r, pattern) {
            return Some(place);
        }
    }
    None
}

/// Whether no slot is empty.
fn are_all_filled(slots: &[Option<Record>]) -> bool
    ensures { all_held slots.now ≡ (if result then Some (held_records slots.now) else None) }
{
    for slot in slots {
        if slot.is_none() {
            return false;
        }
    }
    true
}

/// What the records that are held have together. At a label that several have, the leftmost wins.
fn union_of(alloc: Global, slots: &[Option<Record>]) -> Result<Record, Memory>
    ensures { IfOk result (λ both. both ≡ union (held_records slots.now)) }
{
    let mut both = Record::new(alloc);
    for slot in slots {
        if let Some(held) = slot {
            both = both.inheriting(held, &LabelSet::new(alloc))?;
        }
    }
    Ok(both)
}

/// Puts the record into the empty slot, and answers what all slots hold together, if none is empty now. For want of memory
/// the record comes back, and the slots are unchanged.
pub(crate) fn fill(
    alloc: Global,
    slots: &mut [Option<Record>],
    place: usize,
    r: Record,
) -> Result<Option<Record>, Record>
    requires within { place < length slots.old }
    requires empty { slice_get slots.old place ≡ Some None }
    ensures filled { OnOk result (slots.new ≡ slice_set slots.old place (Some r)) }
    ensures joined { IfOk result (λ joined. joined ≡ option_map union (all_held (slice_set slots.old place (Some r)))) }
    ensures back { IfErr result (λ refused. refused ≡ r) }
    ensures unchanged { OnErr result (slots.new ≡ slots.old) }
    ensures joining { OnErr result (IsSome (all_held (slice_set slots.old place (Some r)))) }
{
    slots[place] = Some(r);
    if !are_all_filled(slots) {
        return Ok(None);
    }
    match union_of(alloc, slots) {
        Ok(both) => Ok(Some(both)),
        Err(_) => {
            let Some(r) = slots[place].take() else {
                unreachable!()
            };
            Err(r)
        }
    }
}

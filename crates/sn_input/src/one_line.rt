//! One line, read by itself.
ghost use Rattle.std.specs.Prelude.{◌≡◌, ◌⊎◌, ℕ, List, false, None, Ok, Err, IfOk, IfErr, OnOk};
ghost use Rattle.sn_input.specs.declared.input.RecordFault.{RecordFault};
ghost use Rattle.sn_input.specs.Line.{is_blank_line as has_blanks};
ghost use Rattle.sn_input.specs.Numbered.{repeated as first_repeated};
ghost use Rattle.sn_input.specs.OneLine.{GivesLine};
ghost use Rattle.sn_input.specs.Steps.{Repeats, SpellsOnly};

use crate::input::RecordFault;
use crate::line::{entries_in, is_blank_line};
use crate::numbering::record_of;
use crate::repeats::repeated;
use crate::room::have_room;
use sn_list::Seq;
use sn_names::Names;
use sn_record::Record;
use sn_record_parser::{Entry, EntryFault};
use std::alloc::Global;

/// Refuses entries of which a label repeats an earlier one.
fn refuse_repeats(alloc: Global, entries: &[Entry]) -> Result<(), RecordFault>
    ensures distinct { OnOk result (first_repeated entries.now ≡ None) }
    ensures refused { IfErr result (λ fault. (fault ≡ RecordFault.Memory) ⊎ Repeats entries.now fault) }
{
    match repeated(alloc, entries)? {
        None => Ok(()),
        Some(label) => {
            let name = Seq::from_slice(alloc, label.name.as_slice())?;
            Err(RecordFault::Twice(label.kind, name))
        }
    }
}

/// The entries of a line that is not blank. No label repeats another.
fn distinct_entries(alloc: Global, line: &[u8]) -> Result<Seq<Entry>, RecordFault>
    requires { has_blanks line.now ≡ false }
    ensures spelled { IfOk result (SpellsOnly line.now) }
    ensures distinct { IfOk result (λ entries. first_repeated entries ≡ None) }
    ensures refused { IfErr result (λ fault. (fault ≡ RecordFault.Memory) ⊎ ((names : List (List ℕ)) → GivesLine names line.now (Err fault))) }
{
    match entries_in(alloc, line) {
        Ok(entries) => {
            refuse_repeats(alloc, entries.as_slice())?;
            Ok(entries)
        }
        Err(EntryFault::Wrong) => Err(RecordFault::BadLine),
        Err(EntryFault::Memory) => Err(RecordFault::Memory),
    }
}

/// The record of a line, whose new names go to the end of `names`, or nothing where the line is blank. A line that is refused adds no
/// name; for want of memory some of its names may be added.
pub fn read_line(
    alloc: Global,
    names: &mut Names,
    line: &[u8],
) -> Result<Option<Record>, RecordFault>
    ensures given { IfOk result (λ found. GivesLine names.old line.now (Ok (found, names.new))) }
    ensures refused { IfErr result (λ fault. (fault ≡ RecordFault.Memory) ⊎ (GivesLine names.old line.now (Err fault) × (names.new ≡ names.old))) }
{
    if is_blank_line(line) {
        return Ok(None);
    }
    let entries = distinct_entries(alloc, line)?;
    let have = have_room(alloc, names, entries.as_slice())?;
    if !have {
        return Err(RecordFault::TooManyNames);
    }
    match record_of(alloc, names, entries) {
        Ok(made) => Ok(Some(made)),
        Err(_) => Err(RecordFault::Memory),
    }
}

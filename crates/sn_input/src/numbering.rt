//! The record of a line, with names as numbers.
ghost use Rattle.std.specs.Prelude.{◌≡◌, ◌++◌, ◌∷◌, [], ◌<◌, ◌≤◌, ◌⊎◌, length, IfOk, OnOk, IfErr};
ghost use Rattle.std.specs.List.{All};
ghost use Rattle.std.specs.FinMap as map;
ghost use Rattle.sn_record.specs.Record.{FitsLabel};
ghost use Rattle.sn_names.specs.Names.{entered, label_number};
ghost use Rattle.sn_input.specs.Numbered.{with_entries, record_of as numbered};
ghost use Rattle.sn_input.specs.Reading.{most_names};
ghost use Rattle.sn_input.specs.Steps.{Fits, LacksNames};

use crate::input::InputFault;
use sn_list::Seq;
use sn_names::{Names, NamesFault};
use sn_record::{Label, Record, Value};
use sn_record_parser::Entry;
use std::alloc::Global;

/// As many names as there may be.
const MOST_NAMES: u32 = 4096;

/// The number of a name, which goes to the end where it is new.
fn number_of(names: &mut Names, name: &[u8]) -> Result<u32, InputFault>
    ensures entered { OnOk result (names.new ≡ entered names.old name.now) }
    ensures number { IfOk result (λ i. i ≡ label_number names.new name.now) }
    ensures few { OnOk result (length names.new ≤ most_names) }
    ensures refused { IfErr result (LacksNames (entered names.old name.now)) }
{
    match names.number_of(name) {
        Ok(number) => Ok(number),
        Err(NamesFault::TooMany) => Err(InputFault::TooManyNames),
        Err(NamesFault::Memory) => Err(InputFault::Memory),
    }
}

/// No entries yet, and room for so many.
fn no_entries(alloc: Global, count: usize) -> Result<Vec<(Label, Value)>, InputFault>
    ensures made { IfOk result (λ made. made.items ≡ []) }
    ensures refused { IfErr result (λ fault. fault ≡ InputFault.Memory) }
{
    match Vec::with_capacity(alloc, count) {
        Ok(made) => Ok(made),
        Err(_) => Err(InputFault::Memory),
    }
}

/// Appends the value at a label.
fn push(entries: &mut Vec<(Label, Value)>, label: Label, value: Value) -> Result<(), InputFault>
    ensures pushed { OnOk result (entries.new.items ≡ entries.old.items ++ (label, value) ∷ []) }
    ensures refused { IfErr result (λ fault. fault ≡ InputFault.Memory) }
{
    match entries.push((label, value)) {
        Ok(()) => Ok(()),
        Err(_) => Err(InputFault::Memory),
    }
}

/// The record of the entries.
fn made_of(entries: Vec<(Label, Value)>) -> Result<Record, InputFault>
    requires { All (λ entry. FitsLabel entry.0 entry.1) entries.items }
    ensures made { IfOk result (λ made. made ≡ map.from_entries entries.items) }
    ensures refused { IfErr result (λ fault. fault ≡ InputFault.Memory) }
{
    match Record::from_entries(entries) {
        Ok(made) => Ok(made),
        Err(_) => Err(InputFault::Memory),
    }
}

/// The record of entries. Their new names go to the end of `names`. All labels are numbered first, and brought into
/// order at once.
pub fn record_of(
    alloc: Global,
    names: &mut Names,
    entries: Seq<Entry>,
) -> Result<Record, InputFault>
    requires { All Fits entries }
    ensures entered { OnOk result (names.new ≡ with_entries names.old entries) }
    ensures few { OnOk result (length names.new ≤ most_names) }
    ensures numbered { IfOk result (λ made. made ≡ numbered names.new entries) }
    ensures refused { IfErr result (LacksNames (with_entries names.old entries)) }
{
    let mut made = no_entries(alloc, entries.len())?;
    // So few are held from the start, also where no entry adds to them.
    prove!(names.count() <= MOST_NAMES);
    for entry in entries.into_vec() {
        let Entry { label, value } = entry;
        let id = number_of(names, label.name.as_slice())?;
        let kind = label.kind;
        push(&mut made, Label { kind, id }, value)?;
    }
    made_of(made)
}

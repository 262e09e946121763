//! The first label of a line that repeats an earlier one.
ghost use Rattle.std.specs.Prelude.{◌≡◌, ◌||◌, false, IfOk, OnOk};
ghost use Rattle.std.specs.List.{list_any};
ghost use Rattle.std.specs.Option.{option_copied};
ghost use Rattle.sn_record.specs.declared.label.Kind.{Kind};
ghost use Rattle.sn_record_parser.specs.declared.entry.WrittenLabel.{WrittenLabel};
ghost use Rattle.sn_input.specs.Numbered.{same_label as are_same, repeated as first_repeated};
ghost use Rattle.sn_input.specs.Seen.{has_seen};

use sn_list::Memory;
use sn_names::NameTable;
use sn_record::Kind;
use sn_record_parser::{Entry, WrittenLabel};
use std::alloc::Global;

/// So few entries are compared with one another, and more go through tables, which take memory and time to make.
const FEW_ENTRIES: usize = 16;

fn same_label(left: &WrittenLabel, right: &WrittenLabel) -> bool
    ensures { result ≡ are_same left.now right.now }
{
    left.kind == right.kind && left.name.as_slice() == right.name.as_slice()
}

/// Whether one of the entries has the label.
fn is_among(label: &WrittenLabel, entries: &[Entry]) -> bool
    ensures { result ≡ list_any (λ e. are_same label.now e.label) entries.now }
{
    entries.iter().any(|entry| same_label(label, &entry.label))
}

fn repeated_of_few(entries: &[Entry]) -> Option<&WrittenLabel>
    ensures { option_copied result ≡ first_repeated entries.now }
{
    for (i, entry) in entries.iter().enumerate() {
        if is_among(&entry.label, &entries[..i]) {
            return Some(&entry.label);
        }
    }
    None
}

/// The names of the fields and of the tags that have come.
#[derive(Drop)]
struct Seen {
    fields: NameTable,
    tags: NameTable,
}

impl Seen {
    fn new(alloc: Global) -> Seen
        ensures { (label : WrittenLabel) → has_seen result label ≡ false }
    {
        Seen {
            fields: NameTable::new(alloc),
            tags: NameTable::new(alloc),
        }
    }

    fn has(&self, label: &WrittenLabel) -> bool
        ensures { result ≡ has_seen self.now label.now }
    {
        let name = label.name.as_slice();
        match label.kind {
            Kind::Field => self.fields.find(name).is_some(),
            Kind::Tag => self.tags.find(name).is_some(),
        }
    }

    fn add(&mut self, label: &WrittenLabel) -> Result<(), Memory>
        ensures { OnOk result ((other : WrittenLabel) → has_seen self.new other ≡ (has_seen self.old other || are_same other label.now)) }
    {
        let name = label.name.as_slice();
        match label.kind {
            Kind::Field => self.fields.enter(name)?,
            Kind::Tag => self.tags.enter(name)?,
        };
        Ok(())
    }
}

fn repeated_of_many(alloc: Global, entries: &[Entry]) -> Result<Option<&WrittenLabel>, Memory>
    ensures { IfOk result (λ found. option_copied found ≡ first_repeated entries.now) }
{
    let mut seen = Seen::new(alloc);
    for entry in entries {
        if seen.has(&entry.label) {
            return Ok(Some(&entry.label));
        }
        seen.add(&entry.label)?;
    }
    Ok(None)
}

/// The first label that repeats an earlier one.
pub fn repeated(alloc: Global, entries: &[Entry]) -> Result<Option<&WrittenLabel>, Memory>
    ensures { IfOk result (λ found. option_copied found ≡ first_repeated entries.now) }
{
    if entries.len() <= FEW_ENTRIES {
        return Ok(repeated_of_few(entries));
    }
    repeated_of_many(alloc, entries)
}

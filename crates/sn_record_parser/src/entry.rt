use sn_list::Memory as WantedMemory;
use sn_record::{Kind, Text, Value};

/// A label as it is written: a field or a tag, by its name.
#[derive(PartialEq, Eq, Drop)]
pub struct WrittenLabel {
    pub kind: Kind,
    pub name: Text,
}

/// A label, and a value that a record may hold at it.
#[derive(PartialEq, Eq, Drop)]
pub struct Entry {
    pub label: WrittenLabel,
    pub value: Value,
}

/// Why tokens spell no line.
#[derive(Clone, Copy, PartialEq, Eq, Debug)]
pub enum EntryFault {
    /// They are not in the grammar, or have a value that no record may hold.
    Wrong,
    Memory,
}

impl From<WantedMemory> for EntryFault {
    ghost use Rattle.std.specs.Prelude.{◌≡◌};
    ghost use Rattle.sn_record_parser.specs.declared.entry.EntryFault.{EntryFault};

    ghost from_gives = { λ _ e. e ≡ EntryFault.Memory };

    fn from(_wanted: WantedMemory) -> EntryFault {
        EntryFault::Memory
    }
}

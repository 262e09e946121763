use sn_list::{Memory as WantedMemory, Seq};
use sn_names::Names;
use sn_record::{Kind, Record, Text};

/// The records of a file in order, the number of the line of each, counted from 1, and all names of labels.
#[derive(Drop)]
pub struct Input {
    pub records: Seq<Record>,
    pub lines: Seq<u32>,
    pub names: Names,
}

/// Why a file is refused. Lines are counted from 1, empty ones too.
#[derive(PartialEq, Eq, Debug, Drop)]
pub enum InputFault {
    /// A line that is no record: not in the grammar, not UTF-8, or with a number or value past its limits.
    BadLine(u32),
    /// A line with a label that repeats an earlier one, by its kind and name.
    Twice(u32, Kind, Text),
    /// The line of a record past the 1,048,576 that a file may have.
    TooMany(u32),
    Memory,
    /// With those known before, more than 4,096 different names.
    TooManyNames,
}

impl From<WantedMemory> for InputFault {
    ghost use Rattle.std.specs.Prelude.{◌≡◌};
    ghost use Rattle.sn_input.specs.declared.input.InputFault.{InputFault};

    ghost from_gives = { λ _ e. e ≡ InputFault.Memory };

    fn from(_wanted: WantedMemory) -> InputFault {
        InputFault::Memory
    }
}

/// Why a line gives no record.
#[derive(PartialEq, Eq, Debug, Drop)]
pub enum RecordFault {
    /// It is not in the grammar, not UTF-8, or has a number or value past its limits.
    BadLine,
    /// A label repeats an earlier one, by its kind and name.
    Twice(Kind, Text),
    /// With those known before, there are more than 4,096 different names.
    TooManyNames,
    Memory,
}

impl From<WantedMemory> for RecordFault {
    ghost use Rattle.std.specs.Prelude.{◌≡◌};
    ghost use Rattle.sn_input.specs.declared.input.RecordFault.{RecordFault};

    ghost from_gives = { λ _ e. e ≡ RecordFault.Memory };

    fn from(_wanted: WantedMemory) -> RecordFault {
        RecordFault::Memory
    }
}

use sn_list::Memory as WantedMemory;
use sn_record::Text;

/// Why no record has a value of JSON.
#[derive(Clone, Copy, PartialEq, Eq, Debug, Drop)]
pub enum Reason {
    Null,
    Boolean,
    /// A number that is no integer of 64 bits.
    Number,
    /// An object within the one that is the record.
    Object,
    /// A text with another character than the printable ones of ASCII, or with more than 65,535 of these.
    Text,
    /// Nested deeper than 32, or heavier than 65,536.
    TooLarge,
    /// Another value than an integer, at a tag.
    Tag,
}

/// Why a text is no record in JSON.
#[derive(PartialEq, Eq, Drop)]
pub enum JsonFault {
    /// It is no JSON.
    NoJson,
    /// It is no object.
    NoObject,
    /// This key is that of no label.
    Key(Text),
    /// No record may have what stands at this key, for the reason.
    Value(Text, Reason),
    /// It has more than 4,096 different names.
    TooManyNames,
    Memory,
}

impl From<WantedMemory> for JsonFault {
    ghost use Rattle.std.specs.Prelude.{◌≡◌};
    ghost use Rattle.sn_json.specs.declared.fault.JsonFault.{JsonFault};

    ghost from_gives = { λ _ e. e ≡ JsonFault.Memory };

    fn from(_wanted: WantedMemory) -> JsonFault {
        JsonFault::Memory
    }
}

/// Why a value is none of a record's.
#[derive(Clone, Copy)]
pub enum ValueFault {
    Because(Reason),
    Memory,
}

impl From<WantedMemory> for ValueFault {
    ghost use Rattle.std.specs.Prelude.{◌≡◌};
    ghost use Rattle.sn_json.specs.declared.fault.ValueFault.{ValueFault};

    ghost from_gives = { λ _ e. e ≡ ValueFault.Memory };

    fn from(_wanted: WantedMemory) -> ValueFault {
        ValueFault::Memory
    }
}

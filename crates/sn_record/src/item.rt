ghost use Rattle.std.specs.Prelude.{◌≡◌, IfOk};

use crate::record::Record;
use sn_list::{Memory, Seq};
use std::alloc::Global;

/// Why a record was given up.
#[derive(Clone, Copy, PartialEq, Eq, Debug)]
pub enum FaultKind {
    Fuel,
    Overflow,
    DivZero,
    Kind,
    Index,
    Depth,
}

/// A fault that stands in a stream in a record's place. `place` is a byte offset in the source.
#[derive(Clone, Copy, PartialEq, Eq, Debug)]
pub struct Fault {
    pub kind: FaultKind,
    pub place: u32,
}

/// What flows through a network.
#[derive(PartialEq, Eq, Drop)]
pub enum Item {
    Rec(Record),
    Fault(Fault),
}

pub type Items = Seq<Item>;

impl Item {
    pub fn copy(&self, alloc: Global) -> Result<Item, Memory>
        ensures { IfOk result (λ copy. copy ≡ self.now) }
    {
        match self {
            Item::Rec(record) => {
                let record = record.copy()?;
                Ok(Item::Rec(record))
            }
            Item::Fault(fault) => Ok(Item::Fault(*fault)),
        }
    }
}

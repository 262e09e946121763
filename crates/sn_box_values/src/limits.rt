ghost use Rattle.std.specs.Prelude.{IsTrue};
ghost use Rattle.sn_record.specs.Value.{is_printable};
ghost use Rattle.sn_net.specs.BoxValues.{fitting};
ghost use Rattle.sn_box_values.specs.Outcome.{GivesValue};
ghost use Rattle.sn_box_values.specs.Size.{IsSizeOf};

use crate::datum::Datum;
use crate::outcome::Stop;
use crate::size::Size;
use sn_record::{FaultKind, Value};
use std::alloc::Global;

const MOST_LEVELS: u32 = 32;

const MOST_WEIGHT: u32 = 65_536;

/// The value, where it is neither nested too deep nor too heavy.
pub fn fitting(alloc: Global, value: Value) -> Result<Datum, Stop>
    ensures { GivesValue (fitting value) result }
{
    if value.is_sound() {
        Ok(Datum::new(alloc, value)?)
    } else {
        Err(Stop::Faulted(FaultKind::Index))
    }
}

/// As `fitting`, of a printable value whose size is known.
pub fn within_limits(alloc: Global, value: Value, size: Size) -> Result<Datum, Stop>
    requires sized { IsSizeOf value size }
    requires printable { IsTrue (is_printable value) }
    ensures { GivesValue (fitting value) result }
{
    if size.levels <= MOST_LEVELS && size.weight <= MOST_WEIGHT {
        Ok(Datum::sized(alloc, value, size)?)
    } else {
        Err(Stop::Faulted(FaultKind::Index))
    }
}

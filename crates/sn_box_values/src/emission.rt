ghost use Rattle.std.specs.Prelude.{◌≡◌, ◌∷◌, [], IfOk};
ghost use Rattle.std.specs.FinMap.{empty};
ghost use Rattle.sn_record.specs.declared.value.Value.TheViews.{out-Value};
ghost use Rattle.sn_net.specs.BoxEvaluation.{fits_kind, values_at, with_values};
ghost use Rattle.sn_box_values.specs.Datum.{value_of, values_of};
ghost use Rattle.sn_box_values.specs.Outcome.{Gives};

use crate::datum::Datum;
use crate::outcome::Stop;
use crate::shape::Shape;
use sn_list::{Memory, Seq};
use sn_record::{FaultKind, Kind, Label, Record};
use sn_stack::append;
use std::alloc::Global;

/// Whether the value may stand at a label of the kind: a tag has an Int.
fn fits_kind(kind: Kind, value: &Datum) -> bool
    ensures { result ≡ fits_kind kind (out-Value (value_of value.now)) }
{
    match kind {
        Kind::Field => true,
        Kind::Tag => match value.shape() {
            Shape::Int(_) => true,
            Shape::Text(_) | Shape::List(_) => false,
        },
    }
}

/// The record with one more value, if it may stand at the label.
fn with_value(alloc: Global, mut made: Record, label: Label, value: Datum) -> Result<Record, Stop>
    ensures { Gives (with_values (label ∷ []) (value_of value ∷ []) made) result }
{
    if !fits_kind(label.kind, &value) {
        return Err(Stop::Faulted(FaultKind::Kind));
    }
    match made.set(label, value.into_value(alloc)?) {
        Ok(_) => Ok(made),
        Err(_) => Err(Stop::Memory),
    }
}

/// The record with each value at the label of its place, where each tag gets an Int.
pub fn record_of(alloc: Global, labels: &[Label], values: Seq<Datum>) -> Result<Record, Stop>
    ensures { Gives (with_values labels.now (values_of values) empty) result }
{
    let mut made = Record::new(alloc);
    let mut left = labels;
    for value in values.into_vec() {
        let Some((label, rest)) = left.split_first() else {
            return Ok(made);
        };
        made = with_value(alloc, made, *label, value)?;
        left = rest;
    }
    Ok(made)
}

/// The values that the record has at the labels, in their order.
pub fn inputs(alloc: Global, taken: &Record, labels: &[Label]) -> Result<Seq<Datum>, Memory>
    ensures { IfOk result (λ values. values_of values ≡ values_at taken.now labels.now) }
{
    let mut values = Seq::new(alloc);
    for label in labels {
        if let Some(value) = taken.get(*label) {
            append(&mut values, Datum::new(alloc, value.copy(alloc)?)?)?;
        }
    }
    Ok(values)
}

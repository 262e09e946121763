ghost use Rattle.std.specs.Prelude.{◌≡◌, IfOk};
ghost use Rattle.sn_record.specs.declared.value.Value.TheVariants as form;
ghost use Rattle.sn_net.specs.BoxValues.{are_equal, combined, computed, condition, fitting, negative, number, onward, opposite, truth_of, truth_value};
ghost use Rattle.sn_tagexpr.specs.Operators.{operated};
ghost use Rattle.sn_box_values.specs.Datum.{value_of, values_of};
ghost use Rattle.sn_box_values.specs.Outcome.{GivesValue};

use crate::datum::Datum;
use crate::equality::all_same;
use crate::limits::fitting;
use crate::outcome::Stop;
use crate::shape::Shape;
use sn_list::{Memory, Seq};
use sn_net::BinOp;
use sn_record::{FaultKind, Value, Values};
use sn_stack::append;
use sn_tagexpr::{negate, operate, truth};
use std::alloc::Global;

/// The number of an Int.
pub(crate) fn number(value: &Datum) -> Result<i64, FaultKind>
    ensures { result ≡ number (value_of value.now) }
{
    value.number().ok_or(FaultKind::Kind)
}

/// Whether an Int is not 0.
pub fn condition(value: &Datum) -> Result<bool, FaultKind>
    ensures { result ≡ condition (value_of value.now) }
{
    match value.number() {
        Some(n) => Ok(n != 0),
        None => Err(FaultKind::Kind),
    }
}

/// 1 or 0, as an Int.
fn truth_value(holds: bool) -> Datum
    ensures { value_of result ≡ truth_value holds }
{
    Datum::int(truth(holds))
}

/// The Int with the other sign.
pub fn negative(value: &Datum) -> Result<Datum, Stop>
    ensures { GivesValue (negative (value_of value.now)) result }
{
    let n = negate(number(value)?)?;
    Ok(Datum::int(n))
}

/// 1 where the Int is 0, else 0.
pub fn opposite(value: &Datum) -> Result<Datum, Stop>
    ensures { GivesValue (opposite (value_of value.now)) result }
{
    let holds = condition(value)?;
    Ok(truth_value(!holds))
}

/// 1 where the Int is not 0, else 0.
pub fn truth_of(value: &Datum) -> Result<Datum, Stop>
    ensures { GivesValue (truth_of (value_of value.now)) result }
{
    let holds = condition(value)?;
    Ok(truth_value(holds))
}

/// Whether both are of one kind and equal.
fn are_equal(left: &Datum, right: &Datum) -> bool
    ensures { result ≡ are_equal (value_of left.now) (value_of right.now) }
{
    match (left.shape(), right.shape()) {
        (Shape::Int(left), Shape::Int(right)) => left == right,
        (Shape::Text(left), Shape::Text(right)) => left == right,
        (Shape::List(left), Shape::List(right)) => all_same(left, right),
        _ => false,
    }
}

/// What the operator gives of two Ints.
fn computed(op: BinOp, left: &Datum, right: &Datum) -> Result<Datum, Stop>
    ensures { GivesValue (onward (number (value_of left.now)) (λ m. onward (number (value_of right.now)) (λ n. computed (operated op m n)))) result }
{
    let left = number(left)?;
    let right = number(right)?;
    let n = operate(op, left, right)?;
    Ok(Datum::int(n))
}

/// What the operator gives of two values. `==` and `!=` compare values of all kinds, the others take Ints alone.
pub fn combined(op: BinOp, left: &Datum, right: &Datum) -> Result<Datum, Stop>
    ensures { GivesValue (combined op (value_of left.now) (value_of right.now)) result }
{
    match op {
        BinOp::Eq => Ok(truth_value(are_equal(left, right))),
        BinOp::Ne => Ok(truth_value(!are_equal(left, right))),
        _ => computed(op, left, right),
    }
}

/// A Text, if it isn't too heavy.
pub fn text(alloc: Global, bytes: &[u8]) -> Result<Datum, Stop>
    ensures { GivesValue (fitting (form.«Text» bytes.now)) result }
{
    let text = Seq::from_slice(alloc, bytes)?;
    fitting(alloc, Value::Text(text))
}

/// The values by themselves.
fn separate(alloc: Global, shared: Seq<Datum>) -> Result<Values, Memory>
    ensures { IfOk result (λ values. values ≡ values_of shared) }
{
    let mut values = Seq::new(alloc);
    for datum in shared.into_vec() {
        append(&mut values, datum.into_value(alloc)?)?;
    }
    Ok(values)
}

/// A List, if it is neither nested too deep nor too heavy.
pub fn list(alloc: Global, values: Seq<Datum>) -> Result<Datum, Stop>
    ensures { GivesValue (fitting (form.«List» (values_of values))) result }
{
    let elements = separate(alloc, values)?;
    fitting(alloc, Value::List(elements))
}

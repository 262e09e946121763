ghost use Rattle.std.specs.Prelude.{◌≡◌, IfOk};
ghost use Rattle.sn_record.specs.Value.{IsSound};
ghost use Rattle.sn_record.specs.declared.value.Value.TheVariants as form;
ghost use Rattle.sn_box_values.specs.Held.{held_value};
ghost use Rattle.sn_box_values.specs.Size.{IsSizeOf};

use crate::held::Held;
use crate::shape::Shape;
use crate::size::{Size, size_of};
use sn_list::Memory;
use sn_record::Value;
use std::alloc::Global;
use std::rc::Rc;

/// A sound value, which several variables may share, and its size, so that a list that grows by one element is tested
/// without a walk through all.
#[derive(Drop)]
pub struct Datum {
    held: Held,
    size: Size,
    ghost sound: { IsSound (held_value held) },
    ghost sized: { IsSizeOf (held_value held) size },
}

impl Datum {
    ghost use Rattle.sn_record.specs.declared.item.FaultKind.TheVariants.{Kind};
    ghost use Rattle.sn_record.specs.declared.value.Value.TheViews.{out-Value};
    ghost use Rattle.sn_net.specs.BoxValues.{number, there_or};
    ghost use Rattle.sn_box_values.specs.Datum.{value_of};
    ghost use Rattle.sn_box_values.specs.Shape.{form_of, lent_value};

    pub fn int(n: i64) -> Datum
        ensures { value_of result ≡ form.Int n }
    {
        Datum {
            held: Held::Int(n),
            size: Size {
                levels: 0,
                weight: 1,
            },
        }
    }

    /// For want of memory `value` is dropped.
    pub fn new(alloc: Global, value: Value) -> Result<Datum, Memory>
        requires { IsSound value }
        ensures { IfOk result (λ datum. value_of datum ≡ value) }
    {
        let size = size_of(&value);
        Datum::sized(alloc, value, size)
    }

    /// As `new`, of a value whose size is known.
    pub(crate) fn sized(alloc: Global, value: Value, size: Size) -> Result<Datum, Memory>
        requires sound { IsSound value }
        requires sized { IsSizeOf value size }
        ensures { IfOk result (λ datum. value_of datum ≡ value) }
    {
        match value {
            Value::Int(n) => Ok(Datum::int(n)),
            Value::Text(_) | Value::List(_) => {
                let shared = Rc::new(alloc, value)?;
                Ok(Datum {
                    held: Held::Shared(shared),
                    size,
                })
            }
        }
    }

    pub(crate) fn size(&self) -> Size
        ensures sized { IsSizeOf (value_of self.now) result }
        ensures sound { IsSound (value_of self.now) }
    {
        self.size
    }

    /// The value as it stands, lent.
    pub(crate) fn shape(&self) -> Shape<'_>
        ensures value { value_of self.now ≡ lent_value result }
        ensures form { out-Value (value_of self.now) ≡ form_of result }
        ensures sound { IsSound (value_of self.now) }
    {
        match &self.held {
            Held::Int(n) => Shape::Int(*n),
            Held::Shared(shared) => match shared.as_ref() {
                Value::Int(n) => Shape::Int(*n),
                Value::Text(text) => Shape::Text(text.as_slice()),
                Value::List(values) => Shape::List(values.as_slice()),
            },
        }
    }

    /// The number of an Int.
    pub fn number(&self) -> Option<i64>
        ensures { there_or Kind result ≡ number (value_of self.now) }
    {
        match &self.held {
            Held::Int(n) => Some(*n),
            Held::Shared(shared) => match shared.as_ref() {
                Value::Int(n) => Some(*n),
                Value::Text(_) | Value::List(_) => None,
            },
        }
    }

    /// The same value once more, which copies none of it.
    pub fn share(&self) -> Result<Datum, Memory>
        ensures { IfOk result (λ datum. value_of datum ≡ value_of self.now) }
    {
        match &self.held {
            Held::Int(n) => Ok(Datum::int(*n)),
            Held::Shared(shared) => {
                let shared = shared.clone()?;
                Ok(Datum {
                    held: Held::Shared(shared),
                    size: self.size,
                })
            }
        }
    }

    /// The value by itself: taken out where nothing shares it, and else copied.
    pub fn into_value(self, alloc: Global) -> Result<Value, Memory>
        ensures value { IfOk result (λ value. value ≡ value_of self) }
        ensures sound { IsSound (value_of self) }
    {
        let Datum { held, .. } = self;
        match held {
            Held::Int(n) => Ok(Value::Int(n)),
            Held::Shared(shared) => match Rc::try_unwrap(shared) {
                Ok(value) => Ok(value),
                Err(shared) => shared.as_ref().copy(alloc),
            },
        }
    }
}

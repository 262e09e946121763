ghost use Rattle.std.specs.Prelude.{◌≡◌, ◌++◌, ◌∷◌, [], OnOk, pos};
ghost use Rattle.std.specs.Option.{option_map};
ghost use Rattle.sn_record.specs.Value.{IsSound};
ghost use Rattle.sn_record.specs.declared.item.FaultKind.TheVariants.{Index};
ghost use Rattle.sn_record.specs.declared.value.Value.TheOpen.{Value-F};
ghost use Rattle.sn_record.specs.declared.value.Value.TheVariants as form;
ghost use Rattle.sn_record.specs.declared.value.Value.TheViews.{out-Value};
ghost use Rattle.sn_net.specs.declared.expr.BuiltinKind.TheVariants as builtin;
ghost use Rattle.sn_net.specs.BoxValues.{built_in, element, joined_in, kind_in, section, there_or};
ghost use Rattle.sn_box_values.specs.Datum.{value_of, values_of};
ghost use Rattle.sn_box_values.specs.Outcome.{GivesValue};
ghost use Rattle.sn_box_values.specs.Size.{IsSizeOf};

use crate::arguments::pair;
use crate::datum::Datum;
use crate::limits::within_limits;
use crate::operators::number;
use crate::outcome::Stop;
use crate::places::{element, section};
use crate::shape::Shape;
use crate::size::Size;
use itoa::Buffer;
use sn_list::{Memory, Seq};
use sn_net::BuiltinKind;
use sn_record::{FaultKind, Value, Values};
use sn_stack::append;
use std::alloc::Global;

const NO_KIND: Stop = Stop::Faulted(FaultKind::Kind);

const NO_INDEX: Stop = Stop::Faulted(FaultKind::Index);

/// How many bytes or elements there are.
fn length(value: &Datum) -> Result<Datum, Stop>
    ensures { GivesValue (built_in builtin.Len (value_of value.now ∷ [])) result }
{
    match value.shape() {
        Shape::Int(_) => Err(NO_KIND),
        Shape::Text(text) => Ok(Datum::int(text.len() as i64)),
        Shape::List(values) => Ok(Datum::int(values.len() as i64)),
    }
}

/// The text of an Int in decimal digits.
fn decimal(alloc: Global, value: &Datum) -> Result<Datum, Stop>
    ensures { GivesValue (built_in builtin.«Text» (value_of value.now ∷ [])) result }
{
    let n = number(value)?;
    let mut buffer = Buffer::new();
    let digits = Seq::from_slice(alloc, buffer.format(n).as_bytes())?;
    Ok(Datum::new(alloc, Value::Text(digits))?)
}

/// The number that stands for the kind of the value.
fn kind(value: &Datum) -> Datum
    ensures { value_of result ≡ form.Int (pos (kind_in (out-Value (value_of value.now)))) }
{
    match value.shape() {
        Shape::Int(_) => Datum::int(0),
        Shape::Text(_) => Datum::int(1),
        Shape::List(_) => Datum::int(2),
    }
}

/// The byte at the place, as an Int.
fn byte_at(text: &[u8], place: i64) -> Result<Datum, Stop>
    ensures { GivesValue (there_or Index (option_map (λ byte. form.Int (pos byte)) (element text.now place))) result }
{
    match element(text, place) {
        Some(byte) => Ok(Datum::int(*byte as i64)),
        None => Err(NO_INDEX),
    }
}

/// A copy of the element at the place.
fn value_at(alloc: Global, values: &[Value], place: i64) -> Result<Datum, Stop>
    requires { IsSound (form.«List» values.now) }
    ensures { GivesValue (there_or Index (element values.now place)) result }
{
    match element(values, place) {
        Some(value) => Ok(Datum::new(alloc, value.copy(alloc)?)?),
        None => Err(NO_INDEX),
    }
}

/// The element of a List, or the byte of a Text, at the place.
fn at(alloc: Global, value: &Datum, place: &Datum) -> Result<Datum, Stop>
    ensures { GivesValue (built_in builtin.At (value_of value.now ∷ value_of place.now ∷ [])) result }
{
    let place = number(place)?;
    match value.shape() {
        Shape::Int(_) => Err(NO_KIND),
        Shape::Text(text) => byte_at(text, place),
        Shape::List(values) => value_at(alloc, values, place),
    }
}

/// Appends a copy of each value.
fn extend(alloc: Global, values: &mut Values, more: &[Value]) -> Result<(), Memory>
    ensures { OnOk result (values.new ≡ values.old ++ more.now) }
{
    for value in more {
        append(values, value.copy(alloc)?)?;
    }
    Ok(())
}

/// A copy of the bytes from one place up to before another.
fn text_section(alloc: Global, text: &[u8], from: i64, to: i64) -> Result<Datum, Stop>
    requires { IsSound (form.«Text» text.now) }
    ensures { GivesValue (there_or Index (option_map (λ part. form.«Text» part) (section text.now from to))) result }
{
    let Some(part) = section(text, from, to) else {
        return Err(NO_INDEX);
    };
    let part = Seq::from_slice(alloc, part)?;
    Ok(Datum::new(alloc, Value::Text(part))?)
}

/// A copy of the elements from one place up to before another.
fn list_section(alloc: Global, values: &[Value], from: i64, to: i64) -> Result<Datum, Stop>
    requires { IsSound (form.«List» values.now) }
    ensures { GivesValue (there_or Index (option_map (λ part. form.«List» part) (section values.now from to))) result }
{
    let Some(part) = section(values, from, to) else {
        return Err(NO_INDEX);
    };
    let mut copies = Seq::new(alloc);
    extend(alloc, &mut copies, part)?;
    Ok(Datum::new(alloc, Value::List(copies))?)
}

/// The section of a Text or a List from one place up to before another.
fn slice(alloc: Global, value: &Datum, from: &Datum, to: &Datum) -> Result<Datum, Stop>
    ensures { GivesValue (built_in builtin.Slice (value_of value.now ∷ value_of from.now ∷ value_of to.now ∷ [])) result }
{
    let from = number(from)?;
    let to = number(to)?;
    match value.shape() {
        Shape::Int(_) => Err(NO_KIND),
        Shape::Text(text) => text_section(alloc, text, from, to),
        Shape::List(values) => list_section(alloc, values, from, to),
    }
}

/// The Text with more bytes behind its own.
fn with_bytes(alloc: Global, value: Datum, more: &[u8]) -> Result<Datum, Stop>
    requires { IsSound (form.«Text» more.now) }
    ensures { GivesValue (joined_in (out-Value (value_of value)) (Value-F.Text more.now)) result }
{
    let size = Size {
        levels: 0,
        weight: value.size().weight + more.len() as u32,
    };
    match value.into_value(alloc)? {
        Value::Text(mut text) => {
            text.extend_from_slice(more)?;
            within_limits(alloc, Value::Text(text), size)
        }
        _ => Err(NO_KIND),
    }
}

/// The List with copies of more elements, which have the size `added` as a List, behind its own.
fn with_values(alloc: Global, value: Datum, more: &[Value], added: Size) -> Result<Datum, Stop>
    requires sound { IsSound (form.«List» more.now) }
    requires sized { IsSizeOf (form.«List» more.now) added }
    ensures { GivesValue (joined_in (out-Value (value_of value)) (Value-F.List more.now)) result }
{
    let size = value.size();
    let size = Size {
        levels: size.levels.max(added.levels),
        weight: size.weight + added.weight - 1,
    };
    match value.into_value(alloc)? {
        Value::List(mut values) => {
            extend(alloc, &mut values, more)?;
            within_limits(alloc, Value::List(values), size)
        }
        _ => Err(NO_KIND),
    }
}

/// Two Texts or two Lists, put together.
fn join(alloc: Global, left: Datum, right: &Datum) -> Result<Datum, Stop>
    ensures { GivesValue (built_in builtin.Join (value_of left ∷ value_of right.now ∷ [])) result }
{
    match right.shape() {
        Shape::Int(_) => Err(NO_KIND),
        Shape::Text(more) => with_bytes(alloc, left, more),
        Shape::List(more) => with_values(alloc, left, more, right.size()),
    }
}

/// The List with one more element behind the others.
fn push(alloc: Global, list: Datum, value: Datum) -> Result<Datum, Stop>
    ensures { GivesValue (built_in builtin.Push (value_of list ∷ value_of value ∷ [])) result }
{
    let (size, added) = (list.size(), value.size());
    let size = Size {
        levels: size.levels.max(added.levels + 1),
        weight: size.weight + added.weight,
    };
    match list.into_value(alloc)? {
        Value::List(mut values) => {
            append(&mut values, value.into_value(alloc)?)?;
            within_limits(alloc, Value::List(values), size)
        }
        _ => Err(NO_KIND),
    }
}

/// What a function gives of one argument.
fn of_one(alloc: Global, function: BuiltinKind, x: &Datum) -> Result<Datum, Stop>
    ensures { GivesValue (built_in function (value_of x.now ∷ [])) result }
{
    match function {
        BuiltinKind::Len => length(x),
        BuiltinKind::Text => decimal(alloc, x),
        BuiltinKind::Kind => Ok(kind(x)),
        _ => Err(NO_KIND),
    }
}

/// What a function gives of two arguments.
fn of_two(alloc: Global, function: BuiltinKind, x: Datum, y: Datum) -> Result<Datum, Stop>
    ensures { GivesValue (built_in function (value_of x ∷ value_of y ∷ [])) result }
{
    match function {
        BuiltinKind::At => at(alloc, &x, &y),
        BuiltinKind::Join => join(alloc, x, &y),
        BuiltinKind::Push => push(alloc, x, y),
        _ => Err(NO_KIND),
    }
}

/// What a function gives of three arguments.
fn of_three(
    alloc: Global,
    function: BuiltinKind,
    x: &Datum,
    y: &Datum,
    z: &Datum,
) -> Result<Datum, Stop>
    ensures { GivesValue (built_in function (value_of x.now ∷ value_of y.now ∷ value_of z.now ∷ [])) result }
{
    match function {
        BuiltinKind::Slice => slice(alloc, x, y, z),
        _ => Err(NO_KIND),
    }
}

/// What a function that every box has gives of its arguments.
pub fn built_in(alloc: Global, function: BuiltinKind, arguments: Seq<Datum>) -> Result<Datum, Stop>
    ensures { GivesValue (built_in function (values_of arguments)) result }
{
    match arguments.as_slice() {
        [x] => of_one(alloc, function, x),
        [x, y, z] => of_three(alloc, function, x, y, z),
        _ => match pair(arguments) {
            Some((x, y)) => of_two(alloc, function, x, y),
            None => Err(NO_KIND),
        },
    }
}

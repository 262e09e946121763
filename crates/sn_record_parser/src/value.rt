ghost use Rattle.std.specs.Prelude.{◌≡◌, ◌+◌, ◌<◌, ◌≤◌, ℕ, List, ◌∷◌, MatchResult};
ghost use Rattle.sn_record.specs.Value.{IsSound};
ghost use Rattle.sn_record_parser.specs.Answers.{HasMore, HasNoMore, HasNoSoundValue, HasNoValue, HasValue, IfWrong};
ghost use Rattle.sn_record_parser.specs.Grammar.{IsValue};
ghost use Rattle.sn_record_tokens.specs.declared.token.Token.{Token as SomeToken};

use crate::entry::EntryFault;
use crate::rest::{Rest, is_mark};
use sn_record::{Text, Value, Values};
use sn_record_tokens::{Mark, Token};
use sn_stack::append;
use std::alloc::Global;

/// How deep a value of a record may be nested.
const MOST_LEVELS: u32 = 32;

/// What it may weigh.
const MOST_WEIGHT: u32 = 65_536;

/// Reads a value that a record may hold.
pub fn read_value(alloc: Global, rest: &mut Rest) -> Result<Value, EntryFault>
    ensures { MatchResult result (λ v. IsValue rest.old v rest.new × IsSound v) (λ fault. IfWrong fault (HasNoSoundValue rest.old)) }
{
    let first = rest.take()?;
    let (value, _) = value_from(alloc, first, rest, MOST_LEVELS, MOST_WEIGHT)?;
    Ok(value)
}

/// Reads the value that begins with `first`, and answers what it leaves of `room`. It goes no deeper than `levels` lists,
/// and refuses a value as soon as it does not fit.
#[cycle(values)]
fn value_from(
    alloc: Global,
    first: Token,
    rest: &mut Rest,
    levels: u32,
    room: u32,
) -> Result<(Value, u32), EntryFault>
    requires { room ≤ 65536 }
    ensures { MatchResult result (λ found. HasValue levels room (first ∷ rest.old) rest.new found.0 found.1)
        (λ fault. IfWrong fault (HasNoValue levels room (first ∷ rest.old))) }
{
    match first {
        Token::Number(n) => number(n, room),
        Token::Text(bytes) => text(bytes, room),
        Token::Mark(Mark::OpenList) => list(alloc, rest, levels, room),
        Token::Mark(_) | Token::Name(_) | Token::Tag(_) => Err(EntryFault::Wrong),
    }
}

fn number(n: i64, room: u32) -> Result<(Value, u32), EntryFault>
    ensures { (levels : ℕ) (rest : List SomeToken) → MatchResult result (λ found. HasValue levels room (Token.Number n ∷ rest) rest found.0 found.1)
        (λ fault. IfWrong fault (HasNoValue levels room (Token.Number n ∷ rest))) }
{
    if room == 0 {
        return Err(EntryFault::Wrong);
    }
    Ok((Value::Int(n), room - 1))
}

fn text(bytes: Text, room: u32) -> Result<(Value, u32), EntryFault>
    requires { room ≤ 65536 }
    ensures { (levels : ℕ) (rest : List SomeToken) → MatchResult result (λ found. HasValue levels room (Token.Text bytes ∷ rest) rest found.0 found.1)
        (λ fault. IfWrong fault (HasNoValue levels room (Token.Text bytes ∷ rest))) }
{
    let length = bytes.len();
    if length >= room as usize {
        return Err(EntryFault::Wrong);
    }
    let value = Value::Text(bytes);
    // It is neither too heavy nor too deep, so this asks whether it is printable.
    if !value.is_sound() {
        return Err(EntryFault::Wrong);
    }
    Ok((value, room - 1 - length as u32))
}

/// Reads the list whose opening mark is taken.
#[cycle(values)]
fn list(alloc: Global, rest: &mut Rest, levels: u32, room: u32) -> Result<(Value, u32), EntryFault>
    requires { room ≤ 65536 }
    ensures { MatchResult result (λ found. HasValue levels room (Token.Mark Mark.OpenList ∷ rest.old) rest.new found.0 found.1)
        (λ fault. IfWrong fault (HasNoValue levels room (Token.Mark Mark.OpenList ∷ rest.old))) }
{
    if levels == 0 || room == 0 {
        return Err(EntryFault::Wrong);
    }
    let mut values = Values::new(alloc);
    let first = rest.take()?;
    if is_mark(&first, Mark::CloseList) {
        return Ok((Value::List(values), room - 1));
    }
    let (value, left) = value_from(alloc, first, rest, levels - 1, room - 1)?;
    append(&mut values, value)?;
    let left = more(alloc, &mut values, rest, levels - 1, left)?;
    Ok((Value::List(values), left))
}

/// Appends the further values of a list, up to its closing mark, and answers what they leave of `room`.
#[cycle(values)]
fn more(
    alloc: Global,
    values: &mut Values,
    rest: &mut Rest,
    levels: u32,
    room: u32,
) -> Result<u32, EntryFault>
    requires { room ≤ 65536 }
    ensures { MatchResult result (HasMore levels room rest.old rest.new values.old values.new) (λ fault. IfWrong fault (HasNoMore levels room rest.old)) }
{
    let mut left = room;
    while rest.goes_on(Mark::CloseList)? {
        let first = rest.take()?;
        let (value, less) = value_from(alloc, first, rest, levels, left)?;
        append(values, value)?;
        left = less;
    }
    Ok(left)
}

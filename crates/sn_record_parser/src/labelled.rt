ghost use Rattle.std.specs.Prelude.{◌∷◌, MatchResult};
ghost use Rattle.sn_record_parser.specs.Answers.{HasNoEntry, IfWrong};
ghost use Rattle.sn_record_parser.specs.Grammar.{IsEntry};

use crate::entry::{Entry, EntryFault, WrittenLabel};
use crate::rest::Rest;
use crate::value::read_value;
use sn_record::{Kind, Text, Value};
use sn_record_tokens::{Mark, Token};
use std::alloc::Global;

/// Reads the entry that begins with `first`.
pub fn entry_from(alloc: Global, first: Token, rest: &mut Rest) -> Result<Entry, EntryFault>
    ensures { MatchResult result (λ e. IsEntry (first ∷ rest.old) e rest.new) (λ fault. IfWrong fault (HasNoEntry (first ∷ rest.old))) }
{
    match first {
        Token::Name(name) => field(alloc, name, rest),
        Token::Tag(name) => tag(name, rest),
        Token::Mark(_) | Token::Number(_) | Token::Text(_) => Err(EntryFault::Wrong),
    }
}

/// Reads the field whose name is taken.
fn field(alloc: Global, name: Text, rest: &mut Rest) -> Result<Entry, EntryFault>
    ensures { MatchResult result (λ e. IsEntry (Token.Name name ∷ rest.old) e rest.new) (λ fault. IfWrong fault (HasNoEntry (Token.Name name ∷ rest.old))) }
{
    rest.want(Mark::Equals)?;
    let value = read_value(alloc, rest)?;
    let label = WrittenLabel {
        kind: Kind::Field,
        name,
    };
    Ok(Entry { label, value })
}

/// Reads the tag whose name is taken.
fn tag(name: Text, rest: &mut Rest) -> Result<Entry, EntryFault>
    ensures { MatchResult result (λ e. IsEntry (Token.Tag name ∷ rest.old) e rest.new) (λ fault. IfWrong fault (HasNoEntry (Token.Tag name ∷ rest.old))) }
{
    rest.want(Mark::Equals)?;
    let Token::Number(n) = rest.take()? else {
        return Err(EntryFault::Wrong);
    };
    let label = WrittenLabel {
        kind: Kind::Tag,
        name,
    };
    let value = Value::Int(n);
    Ok(Entry { label, value })
}

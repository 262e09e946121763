ghost use Rattle.std.specs.Prelude.{◌≡◌, List, IfOk, Err, MatchResult};
ghost use Rattle.sn_record_parser.specs.declared.entry.Entry.{Entry};
ghost use Rattle.sn_record_parser.specs.Answers.{HasFurther, HasNoFurther, HasNoLine, IfWrong};
ghost use Rattle.sn_record_parser.specs.Grammar.{IsLine};

use crate::entry::{Entry, EntryFault};
use crate::labelled::entry_from;
use crate::rest::{Rest, is_mark};
use sn_list::Seq;
use sn_record_tokens::{Mark, Token};
use sn_stack::append;
use std::alloc::Global;

/// The entries that the tokens of a line spell. Takes the tokens, whose names and texts go into the entries.
///
/// A line is `{ entry, .. }`, with nothing behind the closing brace; an entry is `NAME = value` or `TAG = number`, and a
/// value is a number, a text or `[ value, .. ]`. The fault is `Wrong` where the tokens are not of this shape, or where a
/// value is one that no record may hold: nested more than 32 deep, of a weight above 65,536, or with a text that is not
/// printable. Else it is `Memory`.
pub fn entries_of(alloc: Global, tokens: Seq<Token>) -> Result<Seq<Entry>, EntryFault>
    ensures answer { IfOk result (λ entries. IsLine tokens entries) }
    ensures once { (entries : List Entry) → IsLine tokens entries → IfOk result (λ found. found ≡ entries) }
    ensures wrong { result ≡ Err EntryFault.Wrong → (entries : List Entry) → ¬ IsLine tokens entries }
{
    line(alloc, tokens)
}

fn line(alloc: Global, tokens: Seq<Token>) -> Result<Seq<Entry>, EntryFault>
    ensures { MatchResult result (IsLine tokens) (λ fault. IfWrong fault (HasNoLine tokens)) }
{
    let mut rest = Rest::of(tokens);
    let mut entries = Seq::new(alloc);
    rest.want(Mark::OpenRecord)?;
    let first = rest.take()?;
    if is_mark(&first, Mark::CloseRecord) {
        rest.end()?;
        return Ok(entries);
    }
    let entry = entry_from(alloc, first, &mut rest)?;
    append(&mut entries, entry)?;
    further(alloc, &mut entries, rest)?;
    Ok(entries)
}

/// Appends the further entries of a line, up to its end.
fn further(alloc: Global, entries: &mut Seq<Entry>, mut rest: Rest) -> Result<(), EntryFault>
    ensures { MatchResult result (λ _. HasFurther rest entries.old entries.new) (λ fault. IfWrong fault (HasNoFurther rest)) }
{
    while rest.goes_on(Mark::CloseRecord)? {
        let first = rest.take()?;
        let entry = entry_from(alloc, first, &mut rest)?;
        append(entries, entry)?;
    }
    rest.end()
}

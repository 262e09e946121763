//! Texts: printable characters between quotes.
ghost use Rattle.std.specs.Prelude.{◌≡◌, ◌∷◌, false, IfOk, MatchOption};
ghost use Rattle.std.specs.Str.{chars};
ghost use Rattle.sn_record_tokens.specs.declared.token.Token.{Token};
ghost use Rattle.sn_record_tokens.specs.Tokens.{IsToken};
ghost use Rattle.sn_record_tokens.specs.Reading.{BeginsNo, has_content, IsContent};

use sn_lexer::{after, split_first};
use sn_list::{Memory, Seq};
use std::alloc::Global;

/// The character of a text behind a backslash, and what follows it.
fn split_escaped(text: &str) -> Option<(u8, &str)>
    ensures { MatchOption result (has_content (92 ∷ chars text.now) ≡ false)
        (λ p. IsContent p.0 (92 ∷ chars text.now) (chars p.1.now)) }
{
    let (first, rest) = split_first(text)?;
    match first {
        '"' | '\\' => Some((first as u8, rest)),
        _ => None,
    }
}

/// The character of a text in front, and what follows it.
fn split_content(text: &str) -> Option<(u8, &str)>
    ensures { MatchOption result (has_content (chars text.now) ≡ false)
        (λ p. IsContent p.0 (chars text.now) (chars p.1.now)) }
{
    let (first, rest) = split_first(text)?;
    match first {
        '"' => None,
        '\\' => split_escaped(rest),
        ' '..='~' => Some((first as u8, rest)),
        _ => None,
    }
}

/// What the text in front says, and what follows it.
pub fn read_text(alloc: Global, text: &str) -> Result<Option<(Seq<u8>, &str)>, Memory>
    ensures { IfOk result (λ found. MatchOption found (BeginsNo Token.Text (chars text.now))
        (λ p. IsToken (Token.Text p.0) (chars text.now) (chars p.1.now))) }
{
    let Some(inside) = after(text, '"') else {
        return Ok(None);
    };
    let mut bytes = Seq::new(alloc);
    let mut rest = inside;
    while let Some((byte, next)) = split_content(rest) {
        let Ok(()) = bytes.push(byte) else {
            return Err(Memory);
        };
        rest = next;
    }
    match after(rest, '"') {
        Some(behind) => Ok(Some((bytes, behind))),
        None => Ok(None),
    }
}

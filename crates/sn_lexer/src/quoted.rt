//! Texts: printable characters between quotes.
ghost use Rattle.std.specs.Prelude.{◌≡◌, ◌≤◌, ◌∷◌, ◌||◌, List, ℕ, MatchResult, MatchOption, IsTrue};
ghost use Rattle.std.specs.Str.{chars};
ghost use Rattle.sn_lexer.specs.Lexes.{IsToken, IsWrong};
ghost use Rattle.sn_lexer.specs.Fronts.{BeginsNot, IsStep};

use crate::text::{after, place, split_first};
use crate::token::{LexFault, TokenKind};

/// One step within a text.
#[derive(Drop)]
enum Inside<'a> {
    /// A character of the text, and what follows it.
    Goes(&'a str),
    /// The closing quote, and what follows it.
    Closes(&'a str),
    /// The source's end, or a character that no text may have.
    Open,
    /// A backslash that escapes nothing.
    Wrong,
}

/// The step behind a backslash.
fn step_escaped(text: &str) -> Inside<'_>
    ensures { IsStep (92 ∷ chars text.now) result }
{
    match split_first(text) {
        Some(('"' | '\\', rest)) => Inside::Goes(rest),
        Some((' '..='~', _)) => Inside::Wrong,
        _ => Inside::Open,
    }
}

fn step(text: &str) -> Inside<'_>
    ensures { IsStep (chars text.now) result }
{
    match split_first(text) {
        Some(('"', rest)) => Inside::Closes(rest),
        Some(('\\', rest)) => step_escaped(rest),
        Some((' '..='~', rest)) => Inside::Goes(rest),
        _ => Inside::Open,
    }
}

/// What follows the text in front, if a quote is there.
pub fn read_text(total: usize, text: &str) -> Result<Option<&str>, LexFault>
    requires { total ≤ 1048576 }
    ensures { MatchResult result
        (λ found. MatchOption found (BeginsNot 34 (chars text.now))
        (λ rest. IsToken TokenKind.Text (chars text.now) (chars rest.now)))
        (IsWrong total (chars text.now)) }
{
    let Some(inside) = after(text, '"') else {
        return Ok(None);
    };
    let mut rest = inside;
    loop {
        match step(rest) {
            Inside::Goes(next) => rest = next,
            Inside::Closes(next) => return Ok(Some(next)),
            Inside::Open => return Err(LexFault::TextOpen(place(total, text))),
            Inside::Wrong => return Err(LexFault::BadChar(place(total, rest))),
        }
    }
}

//! Blanks and comments.
ghost use Rattle.std.specs.Prelude.{◌≡◌, ◌≤◌, ◌∷◌, ◌||◌, ◌==◌, false, MatchResult, MatchOption};
ghost use Rattle.std.specs.Str.{chars};
ghost use Rattle.sn_lexer.specs.Gaps.{is_blank, opens_comment, from_line_end, after_closing as after_close, IsGap};
ghost use Rattle.sn_lexer.specs.Lexes.{IsWrong};

use crate::text::{after, place, split_first};
use crate::token::LexFault;

pub fn is_blank(c: char) -> bool
    ensures { result ≡ is_blank c }
{
    (c == ' ') | (c == '\t') | (c == '\r') | (c == '\n')
}

/// From the first line feed on.
fn after_line(text: &str) -> &str
    ensures { chars result.now ≡ from_line_end (chars text.now) }
{
    let mut rest = text;
    while let Some((c, next)) = split_first(rest) {
        if c == '\n' {
            break;
        }
        rest = next;
    }
    rest
}

/// What follows the first `*/`.
fn after_closing(text: &str) -> Option<&str>
    ensures { MatchOption result (after_close (chars text.now) ≡ None)
        (λ rest. after_close (chars text.now) ≡ Some (chars rest.now)) }
{
    let mut rest = text;
    while let Some((c, next)) = split_first(rest) {
        if c == '*' {
            if let Some(outside) = after(next, '/') {
                return Some(outside);
            }
        }
        rest = next;
    }
    None
}

/// What follows the comment in front, if one opens there.
pub fn after_comment(total: usize, text: &str) -> Result<Option<&str>, LexFault>
    requires { total ≤ 1048576 }
    ensures { MatchResult result
        (λ found. MatchOption found (opens_comment (chars text.now) ≡ false)
        (λ rest. IsGap (chars text.now) (chars rest.now)))
        (IsWrong total (chars text.now)) }
{
    let Some(opening) = after(text, '/') else {
        return Ok(None);
    };
    match split_first(opening) {
        Some(('/', line)) => Ok(Some(after_line(line))),
        Some(('*', inside)) => match after_closing(inside) {
            Some(rest) => Ok(Some(rest)),
            None => Err(LexFault::TextOpen(place(total, text))),
        },
        _ => Ok(None),
    }
}

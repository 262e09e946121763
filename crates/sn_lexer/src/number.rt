ghost use Rattle.std.specs.Prelude.{◌≡◌, ◌≤◌, MatchResult, MatchOption};
ghost use Rattle.std.specs.Str.{chars};
ghost use Rattle.std.specs.Char.{is_ascii_digit};
ghost use Rattle.sn_lexer.specs.Lexes.{IsToken, IsWrong};
ghost use Rattle.sn_lexer.specs.Fronts.{Stops, IsNumeralUpTo};

use crate::text::{place, split_first};
use crate::token::{LexFault, TokenKind};

const LARGEST: u64 = 9_223_372_036_854_775_807;

/// The value of the digits in front, or the largest `u64` where it is past that, and what follows them.
pub fn read_digits(text: &str) -> (u64, &str)
    ensures { IsNumeralUpTo (chars text.now) result.0 (chars result.1.now) }
{
    let mut value: u64 = 0;
    let mut rest = text;
    while let Some((c, next)) = split_first(rest) {
        if !c.is_ascii_digit() {
            break;
        }
        let digit = c as u64 - '0' as u64;
        value = value.saturating_mul(10).saturating_add(digit);
        rest = next;
    }
    (value, rest)
}

/// What follows the number in front, if a digit is there.
pub fn read_number(total: usize, text: &str) -> Result<Option<&str>, LexFault>
    requires { total ≤ 1048576 }
    ensures { MatchResult result
        (λ found. MatchOption found (Stops is_ascii_digit (chars text.now))
        (λ rest. IsToken TokenKind.Number (chars text.now) (chars rest.now)))
        (IsWrong total (chars text.now)) }
{
    let Some((first, _)) = split_first(text) else {
        return Ok(None);
    };
    if !first.is_ascii_digit() {
        return Ok(None);
    }
    let (value, rest) = read_digits(text);
    if value > LARGEST {
        return Err(LexFault::NumberTooWide(place(total, text)));
    }
    Ok(Some(rest))
}

ghost use Rattle.std.specs.Prelude.{ℤ, List, ℕ, FitsSigned, MatchOption, SomeIff};
ghost use Rattle.std.specs.Int.{w64};
ghost use Rattle.std.specs.Str.{chars};
ghost use Rattle.sn_record_tokens.specs.declared.token.Token.{Token};
ghost use Rattle.sn_record_tokens.specs.Tokens.{IsToken};
ghost use Rattle.sn_record_tokens.specs.Reading.{BeginsNo, IsSized, with_sign};

use sn_lexer::{after, read_digits, split_first};

/// The number of this sign and size, if it has 64 bits.
fn signed(negative: bool, size: u64) -> Option<i64>
    ensures { SomeIff result (FitsSigned w64 (with_sign negative size)) (with_sign negative size) }
{
    let zero: i64 = 0;
    if negative {
        zero.checked_sub_unsigned(size)
    } else {
        zero.checked_add_unsigned(size)
    }
}

/// The number that the digits in front say with this sign, and what follows them.
fn read_sized(negative: bool, text: &str) -> Option<(i64, &str)>
    ensures { MatchOption result ((n : ℤ) (rest : List ℕ) → ¬ (IsSized negative n (chars text.now) rest))
        (λ p. IsSized negative p.0 (chars text.now) (chars p.1.now)) }
{
    let (first, _) = split_first(text)?;
    if !first.is_ascii_digit() {
        return None;
    }
    // A size past 64 bits comes as the largest `u64`, which no sign brings into range.
    let (size, rest) = read_digits(text);
    let number = signed(negative, size)?;
    Some((number, rest))
}

/// The number in front, and what follows it.
pub fn read_number(text: &str) -> Option<(i64, &str)>
    ensures { MatchOption result (BeginsNo Token.Number (chars text.now))
        (λ p. IsToken (Token.Number p.0) (chars text.now) (chars p.1.now)) }
{
    match after(text, '-') {
        Some(digits) => read_sized(true, digits),
        None => read_sized(false, text),
    }
}

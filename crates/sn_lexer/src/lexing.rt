ghost use Rattle.std.specs.Prelude.{◌≡◌, ◌≤◌, ◌⊎◌, [], List, length, MatchResult, MatchOption, IfOk, IsTrue, Err};
ghost use Rattle.std.specs.Char.{is_ascii_digit};
ghost use Rattle.std.specs.Str.{chars, IsUtf8};
ghost use Rattle.std.specs.Str.Lossy.{utf8_valid_len};
ghost use Rattle.sn_lexer.specs.declared.token.Token.{Token};
ghost use Rattle.sn_lexer.specs.declared.token.LexFault.{LexFault};
ghost use Rattle.sn_lexer.specs.Lexes.{IsToken, IsWrong, Lexes, Refuses};
ghost use Rattle.sn_lexer.specs.Fronts.{Stops, BeginsNot, is_at_word, Advances, IsStopped};
ghost use Rattle.sn_lexer.specs.Placed.{ArePlaced};
ghost use Rattle.sn_lexer.specs.Answer.{LexesAs, IsRefused, IsFault};

use crate::gap::{after_comment, is_blank};
use crate::name::{read_name, read_tag};
use crate::number::read_number;
use crate::quoted::read_text;
use crate::symbol::read_symbol;
use crate::text::{place, split_first};
use crate::token::{LexFault, Token, TokenKind};
use sn_list::Seq;
use std::alloc::Global;

/// The name, tag or symbol in front, and what follows it.
fn read_plain(total: usize, text: &str) -> Result<(TokenKind, &str), LexFault>
    requires small { total ≤ 1048576 }
    requires word { IsTrue (is_at_word (chars text.now)) }
    requires no_quote { BeginsNot 34 (chars text.now) }
    requires no_digit { Stops is_ascii_digit (chars text.now) }
    ensures { MatchResult result (λ p. IsToken p.0 (chars text.now) (chars p.1.now))
        (IsWrong total (chars text.now)) }
{
    if let Some((kind, rest)) = read_name(text) {
        return Ok((kind, rest));
    }
    if let Some(rest) = read_tag(text) {
        return Ok((TokenKind::Tag, rest));
    }
    match read_symbol(text) {
        Some(rest) => Ok((TokenKind::Symbol, rest)),
        None => Err(LexFault::BadChar(place(total, text))),
    }
}

/// The token in front, and what follows it.
fn read_token(total: usize, text: &str) -> Result<(TokenKind, &str), LexFault>
    requires small { total ≤ 1048576 }
    requires word { IsTrue (is_at_word (chars text.now)) }
    ensures { MatchResult result (λ p. IsToken p.0 (chars text.now) (chars p.1.now))
        (IsWrong total (chars text.now)) }
{
    if let Some(rest) = read_text(total, text)? {
        return Ok((TokenKind::Text, rest));
    }
    if let Some(rest) = read_number(total, text)? {
        return Ok((TokenKind::Number, rest));
    }
    read_plain(total, text)
}

/// Passes the gap or the token in front, and adds the token. Answers what follows, or nothing at the source's end.
fn read_next<'a>(
    total: usize,
    text: &'a str,
    tokens: &mut Seq<Token>,
) -> Result<Option<&'a str>, LexFault>
    requires { total ≤ 1048576 }
    ensures { MatchResult result
        (λ found. MatchOption found ((chars text.now ≡ []) × (tokens.new ≡ tokens.old))
        (λ rest. Advances total (chars text.now) tokens.old tokens.new (chars rest.now)))
        (IsStopped total (chars text.now)) }
{
    let Some((first, rest)) = split_first(text) else {
        return Ok(None);
    };
    if is_blank(first) {
        return Ok(Some(rest));
    }
    if let Some(rest) = after_comment(total, text)? {
        return Ok(Some(rest));
    }
    let (kind, rest) = read_token(total, text)?;
    let token = Token {
        kind,
        start: place(total, text),
        end: place(total, rest),
    };
    match tokens.push(token) {
        Ok(()) => Ok(Some(rest)),
        Err(_) => Err(LexFault::Memory),
    }
}

fn lex_text(alloc: Global, text: &str) -> Result<Seq<Token>, LexFault>
    requires { length text.now ≤ 1048576 }
    ensures { MatchResult result (LexesAs text.now) (IsFault text.now) }
{
    let total = text.len();
    let mut tokens = Seq::new(alloc);
    let mut rest = text;
    while let Some(next) = read_next(total, rest, &mut tokens)? {
        rest = next;
    }
    Ok(tokens)
}

/// The tokens of a source, which is refused at the first place that is wrong. A sequence of bytes that is no character
/// is wrong before all else.
pub fn lex(alloc: Global, source: &[u8]) -> Result<Seq<Token>, LexFault>
    requires size { length source.now ≤ 1048576 }

    // What is answered is right.
    ensures answer { MatchResult result (LexesAs source.now) (IsFault source.now) }

    // What is right is answered, unless memory is wanted.
    ensures tokens { (tokens : List Token) → LexesAs source.now tokens →
        MatchResult result (λ found. found ≡ tokens) (λ fault. fault ≡ LexFault.Memory) }
    ensures refused { (fault : LexFault) → IsRefused source.now fault →
        MatchResult result (λ _. ⊥) (λ found. (found ≡ fault) ⊎ (found ≡ LexFault.Memory)) }
    ensures bad_utf8 { ¬ (IsUtf8 source.now) →
        result ≡ Err (LexFault.BadUtf8 (utf8_valid_len source.now)) }

    // Where the tokens stand in the bytes, which follows from `answer`.
    ensures placed { IfOk result (ArePlaced source.now 0) }
{
    match str::from_utf8(source) {
        Ok(text) => lex_text(alloc, text),
        Err(fault) => Err(LexFault::BadUtf8(fault.valid_up_to() as u32)),
    }
}

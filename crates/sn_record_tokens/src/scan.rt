ghost use Rattle.std.specs.Prelude.{◌≡◌, ◌≢◌, [], ◌∷◌, List, IfOk, Err, MatchOption, MatchResult};
ghost use Rattle.std.specs.Str.{chars};
ghost use Rattle.sn_record_tokens.specs.declared.token.Mark.{Mark};
ghost use Rattle.sn_record_tokens.specs.declared.token.Token.{Token};
ghost use Rattle.sn_record_tokens.specs.Tokens.{is_blank, mark_word, IsToken, Tokens};
ghost use Rattle.sn_record_tokens.specs.Reading.{BeginsNo, Advances, IsFault};

use crate::name::{copy_name, copy_tag};
use crate::number::read_number;
use crate::text::read_text;
use crate::token::{Mark, Token, TokenFault};
use sn_lexer::split_first;
use sn_list::{Memory, Seq};
use std::alloc::Global;

fn is_blank(c: char) -> bool
    ensures { result ≡ is_blank c }
{
    (c == ' ') | (c == '\t') | (c == '\r')
}

fn mark_of(c: char) -> Option<Mark>
    ensures { MatchOption result ((mark : Mark) → mark_word mark ≢ c ∷ []) (λ mark. mark_word mark ≡ c ∷ []) }
{
    match c {
        '{' => Some(Mark::OpenRecord),
        '}' => Some(Mark::CloseRecord),
        '[' => Some(Mark::OpenList),
        ']' => Some(Mark::CloseList),
        ',' => Some(Mark::Comma),
        '=' => Some(Mark::Equals),
        _ => None,
    }
}

/// The mark in front, and what follows it.
fn read_mark(text: &str) -> Option<(Mark, &str)>
    ensures { MatchOption result (BeginsNo Token.Mark (chars text.now))
        (λ p. IsToken (Token.Mark p.0) (chars text.now) (chars p.1.now)) }
{
    let (first, rest) = split_first(text)?;
    let mark = mark_of(first)?;
    Some((mark, rest))
}

/// The token in front, and what follows it.
fn read_token(alloc: Global, text: &str) -> Result<Option<(Token, &str)>, Memory>
    ensures { IfOk result (λ found. MatchOption found (BeginsNo (λ token. token) (chars text.now))
        (λ p. IsToken p.0 (chars text.now) (chars p.1.now))) }
{
    if let Some((mark, rest)) = read_mark(text) {
        return Ok(Some((Token::Mark(mark), rest)));
    }
    if let Some((number, rest)) = read_number(text) {
        return Ok(Some((Token::Number(number), rest)));
    }
    if let Some((bytes, rest)) = read_text(alloc, text)? {
        return Ok(Some((Token::Text(bytes), rest)));
    }
    if let Some((bytes, rest)) = copy_tag(alloc, text)? {
        return Ok(Some((Token::Tag(bytes), rest)));
    }
    match copy_name(alloc, text)? {
        Some((bytes, rest)) => Ok(Some((Token::Name(bytes), rest))),
        None => Ok(None),
    }
}

/// Passes the blank or the token in front, and adds the token. Answers what follows, or nothing at the line's end.
fn read_next<'a>(
    alloc: Global,
    text: &'a str,
    tokens: &mut Seq<Token>,
) -> Result<Option<&'a str>, TokenFault>
    ensures { MatchResult result
        (λ found. MatchOption found ((chars text.now ≡ []) × (tokens.new ≡ tokens.old))
        (λ rest. Advances (chars text.now) tokens.old tokens.new (chars rest.now)))
        (IsFault (chars text.now)) }
{
    let Some((first, rest)) = split_first(text) else {
        return Ok(None);
    };
    if is_blank(first) {
        return Ok(Some(rest));
    }
    let Some((token, rest)) = read_token(alloc, text)? else {
        return Err(TokenFault::Wrong);
    };
    let Ok(()) = tokens.push(token) else {
        return Err(TokenFault::Memory);
    };
    Ok(Some(rest))
}

/// Room is made for so many tokens before the first, and for more as they come.
const FEW_TOKENS: usize = 32;

/// The tokens of a line: the marks `{ } [ ] , =`, names as `word`, tags as `<word>` and `<#word>`, numbers as `-12`
/// and texts as `"said"`. Spaces, tabs and carriage returns may stand between them.
///
/// `Wrong` where the line has anything else: a number that 64 bits with a sign do not hold, a text that is not closed, a
/// backslash in a text that escapes no quote and no backslash, or a character that begins no token.
pub fn tokens_of(alloc: Global, line: &str) -> Result<Seq<Token>, TokenFault>
    ensures answer { IfOk result (λ tokens. Tokens (chars line.now) tokens) }
    ensures once { (tokens : List Token) → Tokens (chars line.now) tokens → IfOk result (λ found. found ≡ tokens) }
    ensures wrong { result ≡ Err TokenFault.Wrong → (tokens : List Token) → ¬ Tokens (chars line.now) tokens }
{
    let mut tokens = Seq::with_capacity(alloc, FEW_TOKENS.min(line.len() / 2))?;
    let mut rest = line;
    while let Some(next) = read_next(alloc, rest, &mut tokens)? {
        rest = next;
    }
    Ok(tokens)
}

//! Names: identifiers, keywords and tags.
ghost use Rattle.std.specs.Prelude.{◌≡◌, MatchOption};
ghost use Rattle.std.specs.Str.{chars};
ghost use Rattle.unicode_ident.specs.Ident.{is_xid_start, is_xid_continue};
ghost use Rattle.sn_lexer.specs.Spelling.{starts_name, keywords, is_among};
ghost use Rattle.sn_lexer.specs.Lexes.{IsToken};
ghost use Rattle.sn_lexer.specs.Fronts.{past, Stops, BeginsNoTag, IsNameUpTo, SkipsMark};

use crate::text::{after, split_first};
use crate::token::TokenKind;

/// The words that the language keeps for itself.
const KEYWORDS: [&str; 12] = [
    "box", "net", "connect", "type", "typesig", "if", "then", "else", "let", "in", "out", "fun",
];

fn is_keyword(word: &[u8]) -> bool
    ensures { result ≡ is_among keywords word.now }
{
    KEYWORDS.iter().any(|keyword| keyword.as_bytes() == word)
}

fn starts_name(c: char) -> bool
    ensures { result ≡ starts_name c }
{
    unicode_ident::is_xid_start(c) | (c == '_')
}

/// What follows the characters in front that continue a name.
fn after_name(text: &str) -> &str
    ensures { chars result.now ≡ past is_xid_continue (chars text.now) }
{
    let mut rest = text;
    while let Some((c, next)) = split_first(rest) {
        if !unicode_ident::is_xid_continue(c) {
            break;
        }
        rest = next;
    }
    rest
}

/// The name in front, as an identifier or a keyword, and what follows it.
pub fn read_name(text: &str) -> Option<(TokenKind, &str)>
    ensures { MatchOption result (Stops starts_name (chars text.now))
        (λ p. IsNameUpTo p.0 (chars text.now) (chars p.1.now)) }
{
    let (first, inside) = split_first(text)?;
    if !starts_name(first) {
        return None;
    }
    let rest = after_name(inside);
    let name = &text.as_bytes()[..text.len() - rest.len()];
    let kind = if is_keyword(name) {
        TokenKind::Keyword
    } else {
        TokenKind::Ident
    };
    Some((kind, rest))
}

/// What follows the `#` in front, which marks the name of a binding tag, or the text itself where none is there.
pub fn after_mark(text: &str) -> &str
    ensures { SkipsMark (chars text.now) (chars result.now) }
{
    match after(text, '#') {
        Some(name) => name,
        None => text,
    }
}

/// What follows the tag in front.
pub fn read_tag(text: &str) -> Option<&str>
    ensures { MatchOption result (BeginsNoTag (chars text.now))
        (λ rest. IsToken TokenKind.Tag (chars text.now) (chars rest.now)) }
{
    let inside = after(text, '<')?;
    let (kind, rest) = read_name(after_mark(inside))?;
    if kind != TokenKind::Ident {
        return None;
    }
    after(rest, '>')
}

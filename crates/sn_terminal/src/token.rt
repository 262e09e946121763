ghost use Rattle.std.specs.Prelude.{◌≡◌, ℕ, IfOk};
ghost use Rattle.sn_lexer.specs.Placed.{IsPlaced, spelling};
ghost use Rattle.sn_lexer.specs.declared.token.TokenKind.TheVariants as kind;
ghost use Rattle.sn_terminal.specs.Words.{IsBracketed, IsSpelled, Says, bracketed};

use crate::content::content_of;
use crate::number::value_of;
use crate::words::{keyword, symbol};
use sn_ast::{Ident, Terminal};
use sn_lexer::{Token, TokenKind};
use sn_list::{Memory, Seq};
use std::alloc::Global;

fn name(alloc: Global, text: &[u8], at: u32) -> Result<Ident, Memory>
    ensures { IfOk result (λ name. name ≡ record { text = text.now; at = at }) }
{
    let text = Seq::from_slice(alloc, text)?;
    Ok(Ident { text, at })
}

/// The name in a tag.
fn name_in(tag: &[u8]) -> &[u8]
    requires { IsBracketed tag.now }
    ensures { tag.now ≡ bracketed result.now }
{
    &tag[1..tag.len() - 1]
}

/// What a word of the kind says.
fn say(alloc: Global, kind: TokenKind, word: &[u8], at: u32) -> Result<Terminal, Memory>
    requires spelled { IsSpelled kind word.now }
    ensures { IfOk result (λ x. Says kind word.now at x) }
{
    match kind {
        TokenKind::Ident => Ok(Terminal::Name(name(alloc, word, at)?)),
        TokenKind::Tag => Ok(Terminal::Tag(name(alloc, name_in(word), at)?)),
        TokenKind::Number => Ok(Terminal::Number {
            value: value_of(word),
            at,
        }),
        TokenKind::Text => Ok(Terminal::Literal {
            text: content_of(alloc, word)?,
            at,
        }),
        TokenKind::Keyword => match keyword(word) {
            Some(keyword) => Ok(Terminal::Keyword { keyword, at }),
            None => unreachable!(),
        },
        TokenKind::Symbol => match symbol(word) {
            Some(symbol) => Ok(Terminal::Symbol { symbol, at }),
            None => unreachable!(),
        },
    }
}

/// What a token of the source says.
pub fn terminal(alloc: Global, source: &[u8], token: Token) -> Result<Terminal, Memory>
    requires placed { IsPlaced source.now token }
    ensures { IfOk result (λ x. Says token.kind (spelling source.now token) token.start x) }
{
    let word = &source[token.start as usize..token.end as usize];
    say(alloc, token.kind, word, token.start)
}

//! The tokens of a source.
//!
//! `lex` cuts a source into tokens, or refuses it at the first place that is wrong. How the words of each kind are
//! spelled is in specs/Spelling, what is dropped between them in specs/Gaps, and the whole language in specs/Lexes.
//!
//! The readers of a character, a name and digits serve whoever reads such words elsewhere.
//!
//! It walks over the text and keeps nothing but the tokens. A name is read twice at most: once more where a tag was
//! sought and its closing bracket is missing.
#![tactic(auto)]

mod gap;
mod lexing;
mod name;
mod number;
mod quoted;
mod symbol;
mod text;
mod token;

pub use lexing::lex;
pub use name::{after_mark, read_name};
pub use number::read_digits;
pub use text::{after, split_first};
pub use token::{LexFault, Token, TokenKind};

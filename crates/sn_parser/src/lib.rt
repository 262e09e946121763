//! The program of a source, from its tokens.
//!
//! `parse` accepts exactly the grammar, within two limits: a tree has a height of at most 64, and at most 128 counted
//! parentheses are open at once. It goes over the tokens once and without recursion: what is open stands in lists of its
//! own. Each state can be completed to a program, so the first token that is refused is the first at which no program goes
//! on. A part that passes a limit is dropped at once, and only that it did is kept.
#![tactic(auto)]

mod box_decl;
mod machine;
mod net_decl;
mod parsing;
mod tokens;
mod type_decl;

pub use parsing::parse;
pub use sn_ast::Program;
pub use sn_lexer::Token;

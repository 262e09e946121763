//! What the tokens of a source say: the terminals of the grammar.
#![tactic(auto)]

mod content;
pub mod laws;
mod number;
mod token;
mod words;

pub use sn_ast::Terminal;
pub use sn_lexer::Token;
pub use sn_list::Memory;
pub use token::terminal;

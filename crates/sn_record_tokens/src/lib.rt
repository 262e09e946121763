//! The tokens of a line of a record file.
//!
//! How each token is spelled, and what a line of them is, stands in specs/Tokens. Each reader goes from a text to the
//! token in front and what follows it. It looks no further than that token, so the whole is linear in the line.
#![tactic(auto)]

mod name;
mod number;
mod scan;
mod text;
mod token;

pub use scan::tokens_of;
pub use token::{Mark, Token, TokenFault};

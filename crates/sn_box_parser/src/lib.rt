//! A parser of boxes, without recursion over the source: of what stands after a box's name, up to the brace that closes
//! its body.
//!
//! The parser takes one token at a time. Its clauses say that what completes a box before a token is that token and then
//! what completes it after, so a token is refused exactly where no box goes on with it.
#![tactic(auto)]

mod body;
mod function;
mod head;
pub mod laws;
mod machine;
mod parts;
mod tokens;

pub use machine::{BoxDeclParser, BoxDeclStep, BoxDeclStop};

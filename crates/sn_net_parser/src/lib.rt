//! A parser of networks, without recursion over the source.
//!
//! The parser takes one token at a time. Its clauses say that what completes a network before a token is that token and
//! then what completes it after, so a token is refused exactly where no network goes on with it.
#![tactic(auto)]

mod atom;
pub mod laws;
mod level;
mod machine;
mod node;
mod post;
mod tokens;

pub use machine::{NetParser, NetStop};

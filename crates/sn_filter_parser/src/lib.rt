//! A parser without recursion for filters: a pattern, and the templates of what is emitted.
//!
//! It takes one token at a time, and answers with what it is then, with the filter, or with a refusal. What it is can
//! always be completed, so the first token that is refused is the first that no further tokens make good.
#![tactic(auto)]

mod filter;
mod items;

pub use filter::{FilterParser, FilterStep, FilterStop};
pub use items::{ItemParser, ItemStep, ItemStop};

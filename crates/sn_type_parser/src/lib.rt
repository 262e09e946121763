//! Parsers without recursion for what does not nest in a source: labels in brackets, types and signatures.
//!
//! Each takes one token at a time, and answers with what it is then, with what was read, or with a refusal. What it is
//! can always be completed, so the first token that is refused is the first that no further tokens make good.
#![tactic(auto)]

mod labels;
mod signatures;
mod types;

pub use labels::{LabelParser, LabelStep, LabelStop};
pub use signatures::{SigParser, SigStop};
pub use types::{TypeParser, TypeStop};

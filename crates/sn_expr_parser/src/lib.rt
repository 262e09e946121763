//! Parsers of the two expression languages, that of tags and that of boxes.
//!
//! Each takes one token at a time and keeps what is open on a stack of its own, so that no source makes it recurse.
//! It answers the expression at the token after it, and refuses a token exactly where no expression goes on with it.
#![tactic(auto)]

mod box_after;
mod box_frame;
mod box_node;
mod box_operand;
mod boxes;
mod level;
mod tags;

pub use boxes::{BoxParser, BoxStop};
pub use tags::{TagParser, TagStop};

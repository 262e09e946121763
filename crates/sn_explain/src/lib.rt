//! What the lines that snet writes on standard error mean: where in its files the place is that a line names, the text around it, and a sentence on
//! what would mend it.
//!
//! `explain_line` passes on what is no line of snet's, or does not fit the files. A line about the network has the source read once more, up to its names; any
//! other takes time by the size of the file that it names.
#![tactic(auto)]

mod excerpt;
mod explanation;
mod kind;
mod marks;
mod notes;
mod occurrences;
mod part;
mod reading;
mod render;
mod sentences;
mod variant;

pub use explanation::{File, Given, explain_line};
pub use kind::Kind;

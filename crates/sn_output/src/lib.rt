//! What is printed of a record and of a stream.
#![tactic(auto)]

pub mod laws;
mod line;
mod line_sink;
mod types;

pub use line::{line_of, push_label, push_line};
pub use line_sink::{LineFault, LineSink};
pub use types::{push_type, push_variant};

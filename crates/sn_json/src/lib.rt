//! Records as JSON and back.
//!
//! A record is an object with a member for each label: the key of a field is its name, that of a tag its name in angle
//! brackets. An integer is a number, a text a string, a list an array.
#![tactic(auto)]

mod fault;
mod key;
pub mod laws;
mod line;
mod read;
mod write;

pub use fault::{JsonFault, Reason};
pub use line::{json_of_lines, line_of_json};
pub use read::entries_of;
pub use write::json_of;

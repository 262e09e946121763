//! Sources and inputs loaded: from the bytes of a source to a program whose claims are accepted, and from those of an input to records of its
//! input type.
#![tactic(auto)]

mod canonical;
mod items;
mod load;
mod types;

pub use canonical::canonical_text;
pub use items::items_of;
pub use load::{INPUT_LIMIT, Program, SOURCE_LIMIT, load_source, read_input, tell_fault};
pub use types::flows_text;

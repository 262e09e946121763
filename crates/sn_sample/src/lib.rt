//! A large input from a number: a built-in source, and the records that it is run on.
#![tactic(auto)]

mod numbers;
mod records;
mod source;
mod tally;

pub use records::sample_records;
pub use source::sample_source;
pub use tally::{Tally, push_count};

//! The records of a number, and what comes of them on one thread, counted.
#![tactic(auto)]

mod sample;

pub use sample::{Samples, count_alone, count_items, make_samples};

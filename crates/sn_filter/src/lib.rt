//! What a filter answers to a record: one item for each template of the list that it uses, up to the first fault.
#![tactic(auto)]

mod answer;
mod outcome;
mod template;

pub use answer::{apply, apply_onto, apply_single, choose};

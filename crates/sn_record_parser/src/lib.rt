//! The entries that the tokens of a line spell.
#![tactic(auto)]

mod entry;
mod labelled;
mod parsing;
mod rest;
mod value;

pub use entry::{Entry, EntryFault, WrittenLabel};
pub use parsing::entries_of;

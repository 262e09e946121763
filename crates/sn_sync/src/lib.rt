//! Synchrocells: which records they hold, and what becomes of a record that comes.
//!
//! A contract sees a cell as its patterns and its state, and says what a record does to it by the step of the model. Where many cells
//! have the same patterns, as the replicas of one, each is a `Holding`, and the patterns stand once elsewhere.
#![tactic(auto)]

mod cell;
mod slots;

pub use cell::{Cell, CellOut, Holding};

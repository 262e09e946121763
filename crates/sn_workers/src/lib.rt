//! The workers of a run: what all its threads share, and the threads that take the calls of its boxes and answer them.
#![tactic(auto)]

mod shared;
mod signals;
mod work;

pub use shared::Shared;
pub use signals::{Signals, signals_are_sync};
pub use work::help;

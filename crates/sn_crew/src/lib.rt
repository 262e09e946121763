//! The crew: workers that take turns of the nodes of a network, while the caller reads what leaves it and writes the lines.
//!
//! Whatever the schedule, what the caller reads is the history of a stream, so nothing of what is proved depends on which node gets a turn.
#![tactic(auto)]

mod crew;
pub mod laws;
mod lead;
mod run;
mod slots;

pub use run::crew_run;

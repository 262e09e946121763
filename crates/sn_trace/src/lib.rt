//! Traces of runs with workers: a line for each event, in the order in which they happened.
#![tactic(auto)]

mod sink;
mod trace;

pub use sn_replay::{TraceFault, replay};
pub use trace::trace_run;

//! Runs boxes: a machine evaluates a box's body with fuel over a stack of its own, and a call makes items of what it emitted. A call may
//! also stand as a job, which whoever holds the run makes.
#![tactic(auto)]

mod answer;
mod frame;
mod job;
mod machine;

pub use answer::{call, call_owned};
pub use job::{Done, Job, jobs_may_cross, make_done};

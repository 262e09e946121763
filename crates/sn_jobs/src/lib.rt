//! Jobs on their way to the hands that make the calls, and answers on their way back: two queues of one run, each under a rule that
//! every step keeps, however threads are scheduled.
#![tactic(auto)]

mod ends;
mod rule;

pub use ends::{JobHand, JobOwner, make};

//! What networks mean: the streams that their merges allow, the one-thread meaning, and their laws.
#![tactic(auto)]

pub mod laws;
mod outcome;
mod run;
mod step;
mod trail;

pub use outcome::Outcome;
pub use run::{LONGEST_QUEUE, MOST_FUEL, MOST_REPLICAS, Run, runs_may_cross};
pub use step::Step;
pub use trail::{Trail, trails_may_cross};

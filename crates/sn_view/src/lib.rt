//! A network while it runs: a view of it, what may happen to it, and what can still come of it.
#![tactic(auto)]

pub mod laws;

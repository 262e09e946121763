//! The engine on one thread: it runs a network item by item, and gives what the one-thread meaning says.
#![tactic(auto)]

pub mod laws;
mod once;
mod settle;

pub use once::{Once, run_once, run_over};

//! What holds at each place of a run's network: no record lacks a route there, and the steps to it lead on to its parts.
//!
//! This crate has laws alone: the nodes that pass entries from place to place cite them.
#![tactic(auto)]

pub mod laws;

//! Soundness: no record of a typed item lacks a route, and what an accepted claim's network answers is of its output type.
//!
//! This crate has laws alone: whatever the schedule, the fuel and the depth, for the merge relation of sn_model and the types of
//! sn_typing.
#![tactic(auto)]

pub mod laws;

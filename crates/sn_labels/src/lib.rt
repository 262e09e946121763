//! The labels of a run: no record of a network that runs has another.
//!
//! This crate has laws alone: no program calls it.
#![tactic(auto)]

pub mod laws;

//! The laws of streams with borders and of their merges.
//!
//! This crate has laws alone: no program calls it.
#![tactic(auto)]

pub mod laws;

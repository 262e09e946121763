//! The built-in source is accepted, and its records are of its input type.
//!
//! This crate has laws alone: no program calls it.
#![tactic(auto)]

pub mod laws;

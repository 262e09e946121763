//! The names of a source know the labels of what it is resolved to.
//!
//! This crate has laws alone: no program calls it.
#![tactic(auto)]

pub mod laws;

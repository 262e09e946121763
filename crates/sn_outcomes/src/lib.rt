//! Of two outcomes of the same bytes one alone can be.
//!
//! This crate has laws alone: no program calls it.
#![tactic(auto)]

pub mod laws;

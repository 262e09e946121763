//! The printed line of a record reads back as the record, and a file of such lines as the records.
//!
//! This crate has laws alone: no program calls it.
#![tactic(auto)]

pub mod laws;

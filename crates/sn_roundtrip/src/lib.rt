//! The canonical text of a program reads back as the program, apart from places.
//!
//! This crate has laws alone: no program calls it.
#![tactic(auto)]

pub mod laws;

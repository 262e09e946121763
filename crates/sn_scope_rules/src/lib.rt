//! The rules of names in the language's words, and that sn_scope's definition refuses and resolves by them.
//!
//! This crate has laws alone: no program calls it.
#![tactic(auto)]

pub mod laws;

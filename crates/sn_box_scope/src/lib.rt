//! Scope of boxes: from a box declaration to its program, in which each name is a number.
#![tactic(auto)]

mod boxes;
mod expressions;
mod functions;
mod scope;
mod variables;

pub use boxes::box_at;

//! Scope: from a source's tree to its boxes and to the networks that its claims are about, in which each name is resolved.
#![tactic(auto)]

mod declarations;
mod filters;
mod heap;
mod network;
mod numbering;
mod resolution;
mod resolved;
mod scopes;
mod tags;
mod trees;
mod types;
mod variants;

pub use resolution::resolve;
pub use resolved::{Parts, Resolved};

//! What the resolvers of filters, guards, boxes and networks share: labels by their numbers, operators, and what a source is
//! refused for.
#![tactic(auto)]

mod fault;
mod labels;
mod operators;
mod refusal;

pub use fault::ScopeFault;
pub use labels::{label_at, label_set, label_sets};
pub use operators::bin_op;
pub use refusal::{Reason, Refusal, Refusals};

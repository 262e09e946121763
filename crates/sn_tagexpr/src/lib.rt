//! Expressions over the tags of a record, and what they are worth.
#![tactic(auto)]

mod evaluation;
mod expr;
mod fault;
mod operators;

pub use evaluation::{Tags, eval};
pub use expr::{BinOp, TagExpr};
pub use fault::ExprFault;
pub use operators::{negate, operate, truth};

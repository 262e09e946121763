//! Values as a box computes with them: what operators and built-in functions give, and the records that are emitted.
#![tactic(auto)]

mod arguments;
mod datum;
mod emission;
mod equality;
mod functions;
mod held;
mod limits;
mod operators;
mod outcome;
mod places;
mod shape;
mod size;

pub use datum::Datum;
pub use emission::{inputs, record_of};
pub use functions::built_in;
pub use operators::{combined, condition, list, negative, opposite, text, truth_of};
pub use outcome::Stop;

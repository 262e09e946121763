//! Which variants a network answers to a variant, and whether claims are accepted.
#![tactic(auto)]

mod chosen;
mod claims;
mod fault;
mod flows;
mod indexed;
mod laws;
mod sets;
mod spots;
mod stop;
mod table;
mod visit;
mod whole;

pub use claims::{check, flow};
pub use fault::FlowFault;
pub use indexed::{Indexed, OfVariant};
pub use sn_list::Memory;
pub use stop::Stop;
pub use table::{Row, Table};
pub use whole::visit_each;

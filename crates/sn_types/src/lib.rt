//! Record types: lists of variants. A record is of a type where it matches one of its variants.
#![tactic(auto)]

mod laws;
mod record_type;
mod variants;

pub use record_type::RecordType;
pub use sn_list::Memory;

//! Names of labels, numbered from 0 in the order in which they were entered.
#![tactic(auto)]

mod fault;
mod names;
mod table;

pub use fault::NamesFault;
pub use names::Names;
pub use sn_list::Memory;
pub use table::NameTable;

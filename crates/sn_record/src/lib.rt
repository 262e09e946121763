//! Records of labelled values, the label sets that name parts of them, and what flows through a network.
//!
//! A contract sees a label set and a record as finite maps in the order of their labels.
#![tactic(auto)]

mod best;
mod fits;
mod item;
mod label;
mod label_map;
mod label_set;
mod merging;
mod record;
mod same;
mod value;

pub use best::score;
pub use item::{Fault, FaultKind, Item, Items};
pub use label::{ByLabel, FIRST_BINDING, Kind, Label};
pub use label_set::LabelSet;
pub use merging::{in_order, merge};
pub use record::Record;
pub use same::{is_same_record, is_same_value};
pub use sn_list::Memory;
pub use value::{Text, Value, Values};

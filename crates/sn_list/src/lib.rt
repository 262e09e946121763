//! Lists, boxes and sorted entries, each seen by contracts as what it holds, and want of memory.
//!
//! A `Vec` and a `Box` show their capacity and their pointer to a contract, so two of them that hold
//! the same differ. `Seq` and `Boxed` show what they hold and nothing more.
#![tactic(auto)]

mod boxed;
mod held;
mod memory;
mod seq;
pub mod sorted;

pub use boxed::Boxed;
pub use held::Held;
pub use memory::Memory;
pub use seq::Seq;

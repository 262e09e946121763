//! The node of a choice, a level of a star or a split. Its type keeps what it has given for what it has received, and each step of a turn
//! keeps that. A split finds its replicas by a table.
#![tactic(auto)]

mod children;
mod deciding;
mod fork;
pub mod laws;
mod progress;
mod serving;
mod turn;

pub use fork::{Child, Fork};
pub use progress::Progress;

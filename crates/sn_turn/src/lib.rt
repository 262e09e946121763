//! Nodes of the second engine over all forms of networks, the nodes and streams that a run's network is made of, and turns of nodes.
#![tactic(auto)]

mod grow;
mod heap;
mod node;
mod push;
mod spot;
mod streams;
mod turn;
mod turned;
mod unfold;
mod whole;

pub use heap::OnHeap;
pub use node::{Kind, Node};
pub use turned::{TurnFault, Turned};

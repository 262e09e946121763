//! One node of a network that runs: what waits at it, what it keeps, and what it does with its first entry.
#![tactic(auto)]

mod agenda;
mod calls;
mod children;
mod entry;
mod freely;
mod given;
mod keys;
mod laws;
mod local;
mod making;
mod may;
mod merge;
mod next_merge;
mod node;
mod parts;
mod queue;
mod receive;
mod route_free;
mod turns;
mod unfold;

pub use agenda::Agenda;
pub use children::{Child, Children};
pub use entry::{Entry, Waiting};
pub use freely::Freely;
pub use given::Given;
pub use laws::{merges_by_node, routes_by_node};
pub use local::Passing;
pub use merge::Merged;
pub use node::{Made, Node, State, Target};
pub use parts::part_at;
pub use queue::Queue;
pub use route_free::Sent;

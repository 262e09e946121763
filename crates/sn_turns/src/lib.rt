//! The turns of a graph's owner while others make the calls of its boxes, whoever they are and whoever is told what happens.
//!
//! Whatever the schedule, each event is one that the graph allows, so nothing of what is proved depends on how threads run.
#![tactic(auto)]

mod apply;
mod callers;
mod drive;
mod named;
mod owner;
mod threads;
mod turn;
mod watcher;

pub use callers::Callers;
pub use drive::take_turns;
pub use owner::{OwnerEnds, end_at_refusal, open_ends};
pub use threads::drive_watched;
pub use turn::Turn;
pub use watcher::Watcher;

//! A graph of nodes through which items go, an event at a time.
#![tactic(auto)]

mod arena;
mod begin;
mod broadcast;
mod calls;
mod emit;
mod event;
mod graph;
mod grow;
mod grow_child;
mod happen;
mod listing;
mod local;
mod merge;
mod next;
mod route;
mod send;
mod take;
mod unfold;

pub use event::{ApplyCause, ApplyFault, Effect, Event};
pub use graph::Graph;
pub use sn_boxrun::{Done, Job, make_done};
pub use sn_model::{Step, Trail};

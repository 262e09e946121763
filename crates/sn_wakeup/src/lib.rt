//! Who has something to do, and how threads that have nothing to do wait for it.
//!
//! Nothing is claimed of any of it: which thread does what, and when, changes no answer.
#![tactic(auto)]

mod backoff;
mod event_count;
mod listener;
mod run_queue;
mod waker;

pub use backoff::Backoff;
pub use event_count::EventCount;
pub use listener::{Listener, listeners_are_shared};
pub use run_queue::RunQueue;
pub use waker::Waker;

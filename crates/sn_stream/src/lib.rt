//! Streams between threads: queues of entries, each under a rule that every step keeps, however threads are scheduled. What may stand
//! on a stream is a stated list, the history of its place in a run, which nothing computes when the program runs.
#![tactic(auto)]

mod ends;
mod item;
mod rule;
mod sending;

pub use ends::{GetEnd, PutEnd, make};
pub use item::StreamItem;
pub use sending::{make_at_root, receive, send, send_all};

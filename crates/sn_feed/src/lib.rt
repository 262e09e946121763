//! Long inputs: read in pieces, and answered as they come, on one thread.
#![tactic(auto)]

mod feed;
mod going;
pub mod laws;
mod stop;

pub use feed::{Feed, MOST_INPUT};
pub use sn_pieces::LineCause;
pub use stop::FeedStop;

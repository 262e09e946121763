//! What a command does that needs no other threads, and what any command may leave: the printed bytes, the line on standard error and the
//! exit status.
#![tactic(auto)]

mod feeding;
mod outside;
mod ready;
mod replaying;
mod reports;
mod serve;
mod transcript;

pub use ready::{Checked, Ready, Started, check_files, prepare, share, start};
pub use replaying::TRACE_LIMIT;
pub use reports::Report;
pub use serve::{conclude, is_plain, serve_alone, serve_plain, tell_memory, tell_usage};

//! The top call: from the words of the command line and the bytes of the named files to the printed bytes, the line
//! on standard error and the exit status.
#![tactic(auto)]

mod engines;
mod sample;
mod serve;
mod tracing;
mod workers;

pub use serve::serve_words;
pub use sn_load::{INPUT_LIMIT, SOURCE_LIMIT};
pub use sn_plain::serve_plain;
pub use sn_stop::Status;
pub use sn_words::{
    Command, DEFAULT_DEPTH, DEFAULT_FUEL, DEFAULT_QUEUE, DEFAULT_WORKERS, WordsFault, read_words,
};

//! The words of the command line, read with `clap`.
//!
//! `clap` is told the program's commands, their positional words and their options, and finds which word is which. Numbers
//! are read here, since `clap`'s own take a plus and any number of digits.
#![tactic(auto)]

mod command;
mod forms;
pub mod laws;
mod numbers;
mod read;
mod usage;

pub use command::{Command, WordsFault};
pub use numbers::{
    DEFAULT_BATCH, DEFAULT_DEPTH, DEFAULT_FUEL, DEFAULT_PLAN, DEFAULT_QUEUE, DEFAULT_WORKERS,
};
pub use read::read_words;
pub use usage::usage_line;

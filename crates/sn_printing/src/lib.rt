//! The printer: a watcher of a graph that writes the line of each record that comes out.
#![tactic(auto)]

mod printer;

pub use printer::Printer;

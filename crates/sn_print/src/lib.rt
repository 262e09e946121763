//! The canonical text of a program: one line for each outermost declaration, with the least parentheses that its forms
//! ask for.
#![tactic(auto)]

mod boxes;
mod labels;
mod networks;
mod program;
mod tags;
mod words;

pub use networks::{exit_text, network_text};
pub use program::{box_text, print};
pub use sn_ast::{Program, Text};
pub use sn_list::Memory;

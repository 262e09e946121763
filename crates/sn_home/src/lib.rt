//! Where the calls of a box are made.
#![tactic(auto)]

mod home;

pub use home::Home;

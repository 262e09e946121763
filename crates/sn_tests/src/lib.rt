//! The tests of the libraries below the top calls, of what the cases do not show: those run the program from outside.
//!
//! They stand here since a crate with tests is proved once with them and once without: here nothing but the tests is proved.
#![tactic(auto)]

#[cfg(test)]
mod events;
#[cfg(test)]
mod files;
#[cfg(test)]
mod input;
#[cfg(test)]
mod jobs;
#[cfg(test)]
mod links;
#[cfg(test)]
mod list;
#[cfg(test)]
mod load;
#[cfg(test)]
mod names;
#[cfg(test)]
mod net;
#[cfg(test)]
mod parser;
#[cfg(test)]
mod record;
#[cfg(test)]
mod refusal;
#[cfg(test)]
mod stack;
#[cfg(test)]
mod streams;
#[cfg(test)]
mod text;
#[cfg(test)]
mod types;
#[cfg(test)]
mod wire;

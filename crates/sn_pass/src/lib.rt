//! One item through a network of any form: what the network gives for it, and what it keeps behind it, by the one-thread meaning.
#![tactic(auto)]

mod dispatch;
pub mod flowing;
pub mod kept;
mod leaf;
pub mod output;
pub mod pass;
mod slots;
mod waiting;
pub mod walk;

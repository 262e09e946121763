//! Queues under a rule: what each pass at a queue knows, and a rule over all of it that every step keeps, however threads are scheduled. The
//! crates above say what their values are and whose.
#![tactic(auto)]

mod rule;

pub use rule::{Known, Opens, Owned, Role, Shares};

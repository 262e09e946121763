//! Why something was not sent, and what comes back.
use sn_boxrun::{Done, Job};

/// Why something was not sent.
#[derive(Clone, Copy, PartialEq, Eq, Debug)]
pub enum SendCause {
    /// There is no room on the link.
    Full,
    Memory,
}

/// A job that was not sent.
#[derive(Drop)]
pub struct SendFault {
    pub cause: SendCause,
    pub job: Job,
}

/// What a call gave that was not sent.
#[derive(Drop)]
pub struct DoneFault {
    pub cause: SendCause,
    pub done: Done,
}

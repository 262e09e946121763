//! How turns of forks go, and the parts of a turn.

use sn_component::Moved;
use sn_net::Key;

/// How a turn of a fork went.
#[derive(Clone, Copy, PartialEq, Eq)]
pub enum Progress {
    Moved(Moved),
    /// An item waits whose key has no child, which is to be made. It tells whether something was got or put before; if not, nothing has changed.
    Missing { key: Key, some: bool },
}

/// Why no more can be given.
#[derive(Clone, Copy, PartialEq, Eq)]
pub(crate) enum Stop {
    /// The end was put.
    Done,
    /// The way out was full.
    Full,
    /// Nothing is there to be given, or enough was.
    Rest,
}

/// What giving came to: why no more is given, and whether something was got or put.
#[derive(Clone, Copy, PartialEq, Eq)]
pub(crate) struct Gave {
    pub(crate) why: Stop,
    pub(crate) some: bool,
}

/// How the first decision was served.
#[derive(Clone, Copy, PartialEq, Eq)]
pub(crate) enum Served {
    /// It wasn't: nothing has changed.
    Nothing,
    /// What the node had is held to be put.
    Held,
    /// An entry was got from a child.
    Got,
}

/// Whether all that was held for children was put, and whether something was.
#[derive(Clone, Copy, PartialEq, Eq)]
pub(crate) struct Flushed {
    pub(crate) all: bool,
    pub(crate) some: bool,
}

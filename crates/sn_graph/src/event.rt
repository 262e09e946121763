//! What may happen to a graph, and what comes of it.

use sn_boxrun::{Done, Job};
use sn_record::Item;

/// What may happen to a graph. Nodes are meant by their numbers, children by their places at a node.
#[derive(Drop)]
pub enum Event {
    /// The next item of the run comes in, or the end.
    Take,
    /// The box at a node is called on its next record. Calls of one box may overlap, and their results leave in the order of the records.
    Start { node: u64 },
    /// A call is answered.
    Finish { done: Done },
    /// An item, a mark or a finished call passes a box, a filter or a synchrocell.
    Local { node: u64 },
    /// A dispatcher sends its first entry to a child, or past all.
    Route { node: u64 },
    /// The replica that a dispatcher's first entry needs is made.
    Unfold { node: u64 },
    /// An item, a mark or the end of a child is merged.
    Merge { node: u64, child: u64 },
    /// The next entry leaves the network.
    Emit,
}

/// What comes of an event.
#[derive(Drop)]
pub enum Effect {
    Moved,
    /// A call that is to be made, and then finished.
    Call(Job),
    /// An item that left the network.
    Out(Item),
}

/// Why an event did not happen.
#[derive(Clone, Copy)]
pub enum ApplyCause {
    NotEnabled,
    Memory,
}

/// An event that did not happen, and why.
#[derive(Drop)]
pub struct ApplyFault {
    pub cause: ApplyCause,
    pub event: Event,
}

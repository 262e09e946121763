use indexmap::IndexMap;
use sn_model::Run;
use sn_node::{Agenda, Entry, Node};
use sn_record::Items;
use std::collections::VecDeque;
use std::snapshot::Snapshot;

/// Where a call was begun.
#[derive(Drop)]
pub(crate) struct Place {
    pub(crate) node: usize,
    /// By which the node finds its record.
    pub(crate) ticket: u64,
}

/// What a run has come to: its nodes, by their numbers, and what waits at each.
pub(crate) struct Arena {
    pub(crate) run: Snapshot<Run>,
    pub(crate) nodes: Vec<Node>,
    /// How many events happened.
    pub(crate) applied: u64,
    /// How many calls were begun.
    pub(crate) calls: u64,
    /// How many of the run's items were taken.
    pub(crate) taken: usize,
    /// Whether the end was taken.
    pub(crate) ended: bool,
    /// What waits at the root for the output.
    pub(crate) ready: VecDeque<Entry>,
    pub(crate) out: Items,
    /// Where each call in flight was begun, by its number.
    pub(crate) places: IndexMap<u64, Place>,
    /// The nodes at which something may happen.
    pub(crate) agenda: Agenda,
}

/// Written out, so that a function that gives it up calls this, and is not proved over each list in it.
impl Drop for Arena {
    fn drop(self) {
        let Arena {
            run: _run,
            nodes: _nodes,
            applied: _,
            calls: _,
            taken: _,
            ended: _,
            ready: _ready,
            out: _out,
            places: _places,
            agenda: _agenda,
        } = self;
    }
}

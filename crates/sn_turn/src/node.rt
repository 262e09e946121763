//! Nodes.
ghost use Rattle.std.specs.Prelude.{◌≡◌, false};
ghost use Rattle.sn_component.specs.Outbox.{has_ended};
ghost use Rattle.sn_turn.specs.Kinds.{way_out};

use crate::heap::OnHeap;
use sn_component::{Component, Source};
use sn_fork::Fork;
use sn_list::Memory;
use sn_wakeup::Waker;
use std::sync::Arc;

/// What a node is, with the ends that it owns. Each of these types keeps what it has given for what it has received.
#[derive(Drop)]
pub enum Kind {
    Source(OnHeap<Source>),
    /// A box, a filter or a synchrocell.
    Component(OnHeap<Component>),
    /// A choice, a level of a star or a split.
    Fork(OnHeap<Fork>),
}

/// A node of the second engine. It hasn't passed on the end: a node that has is given up by its turn.
#[derive(Drop)]
pub struct Node {
    pub kind: Kind,
    pub ghost going: { has_ended (way_out kind) ≡ false },
}

impl Node {
    /// What happens at the other ends of the node's streams wakes this: an entry that comes, and room for one of its own.
    pub fn register(&self, waker: &Arc<Waker>) -> Result<(), Memory> {
        match &self.kind {
            Kind::Source(source) => source.get().register(waker),
            Kind::Component(component) => component.get().register(waker),
            Kind::Fork(fork) => fork.get().register(waker),
        }
    }
}

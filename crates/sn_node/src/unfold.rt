//! Children that are made when they are needed.
ghost use Rattle.std.specs.Prelude.{[], ◌≡◌, ◌+◌, ◌++◌, ◌∷◌, List, None, OnErr, OnOk, length};
ghost use Rattle.sn_net.specs.Dispatchers.{stream_key};
ghost use Rattle.sn_view.specs.Next.{adds_child, child_of, is_fork, with_epoch};
ghost use Rattle.sn_view.specs.View as view;
ghost use Rattle.sn_node.specs.Seen.{node_of, state_of};
ghost use Rattle.sn_node.specs.Woken.{AreWoken};

use crate::node::{Node, State};
use sn_list::Memory;
use sn_net::Key;
use std::alloc::Global;

/// Adds the epoch of a new child, at a free dispatcher, which has `count` children then.
fn add_epoch(state: &mut State, count: usize) -> Result<(), Memory>
    requires { (children : List view.Child) × ((AreWoken state.old children) × (count ≡ length children + 1)) }
    ensures ok { OnOk result (state_of state.new ≡ with_epoch (state_of state.old)) }
    ensures err { OnErr result (state_of state.new ≡ state_of state.old) }
    ensures woken { OnOk result ((children : List view.Child) (child : view.Child) → child.kept ≡ [] → AreWoken state.old children → AreWoken state.new (children ++ child ∷ [])) }
    ensures kept { OnErr result ((children : List view.Child) → AreWoken state.old children → AreWoken state.new children) }
{
    match state {
        State::Freely(freely) => freely.add_child(count),
        State::Alone | State::Cell(_) | State::InTurn(_) => Ok(()),
    }
}

impl Node {
    /// Whether it is a dispatcher.
    pub fn is_fork(&self) -> bool
        ensures { result ≡ is_fork (node_of self.now).state }
    {
        match self.state {
            State::InTurn(_) | State::Freely(_) => true,
            State::Alone | State::Cell(_) => false,
        }
    }

    /// Adds a child for a key that none has, whose items come in at that node. For want of memory nothing has changed.
    pub fn add_child(&mut self, alloc: Global, key: Key, entry: usize) -> Result<(), Memory>
        requires { child_of (node_of self.old).children (stream_key key) ≡ None }
        ensures ok { OnOk result (node_of self.new ≡ adds_child (stream_key key) entry (node_of self.old)) }
        ensures err { OnErr result (node_of self.new ≡ node_of self.old) }
        ensures made { self.new.made ≡ self.old.made }
    {
        self.children.add(alloc, key, entry)?;
        let added = add_epoch(&mut self.state, self.children.len());
        if added.is_err() {
            self.children.drop_last();
        }
        added
    }
}

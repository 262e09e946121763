ghost use Rattle.std.specs.Prelude.{◌≡◌, ◌<◌, IfSome, MatchOption, None, Some, map};
ghost use Rattle.sn_node.specs.Answered.{AreAnswered, IsAnswered, answered_once};
ghost use Rattle.sn_node.specs.Child.{child_of};
ghost use Rattle.sn_node.specs.Woken.{AreWoken, woken_once};

use crate::children::Children;
use crate::entry::{Entry, Waiting};
use crate::freely::Freely;
use crate::queue::Queue;
use sn_dispatch::DetFork;
use sn_list::Seq;
use sn_model::{Run, Trail};
use sn_sync::Cell;
use std::alloc::Global;
use std::snapshot::Snapshot;

/// Where what a node gives goes.
#[derive(Clone, Copy, PartialEq, Eq, Debug)]
pub enum Target {
    /// Out of the network.
    Out,
    Node(usize),
    /// To what is kept of the output of a dispatcher's child.
    Child { node: usize, child: usize },
}

/// What a node keeps from one entry to the next.
#[derive(Drop)]
pub enum State {
    /// A box or a filter.
    Alone,
    Cell(Cell),
    /// A deterministic dispatcher.
    InTurn(DetFork),
    /// A free one.
    Freely(Freely),
}

/// What a node is, which never changes.
pub struct Made {
    pub run: Snapshot<Run>,
    pub steps: Trail,
    /// Which part of the network it is: the number of a part of each level on the way there.
    pub path: Seq<u32>,
    /// How many replicas a star has left here.
    pub left: u32,
    pub goes: Target,
}

/// Written out, so that a function that gives it up calls this, and is not proved over what is in it.
impl Drop for Made {
    fn drop(self) {
        let Made {
            run: _run,
            steps: _steps,
            path: _path,
            left: _,
            goes: _,
        } = self;
    }
}

/// A node of a graph. What a finished call gave is what the box that the node is answers in the run. A free dispatcher has each child
/// listed of which something may be merged.
pub struct Node {
    pub made: Made,
    pub waiting: Queue,
    pub state: State,
    pub children: Children,
    pub ghost answered: { AreAnswered made.run.value made.path waiting.entries.items } by { answered_once made.run.value made.path waiting.entries.items },
    pub ghost woken: { AreWoken state (map child_of children.list.items) } by { woken_once state (map child_of children.list.items) },
}

/// Written out, so that a function that gives a node up calls this, and is not proved over all that a node keeps.
impl Drop for Node {
    fn drop(self) {
        let Node {
            made: _made,
            waiting: _waiting,
            state: _state,
            children: _children,
        } = self;
    }
}

impl Node {
    ghost use Rattle.std.specs.Option.{option_map};
    ghost use Rattle.sn_view.specs.View as view;
    ghost use Rattle.sn_view.specs.Next.{passed, plain_entry};
    ghost use Rattle.std.specs.Prelude.{[], map};
    ghost use Rattle.sn_node.specs.Child.{child_of};
    ghost use Rattle.sn_node.specs.Entry.{entry_of};
    ghost use Rattle.sn_node.specs.Queue.{room};
    ghost use Rattle.sn_node.specs.Seen.{node_of, state_of, target_of, waiting_of};

    /// Takes the first entry. What a finished call gave is the answer, and there is room for one more then.
    pub fn pop(&mut self) -> Option<Waiting>
        ensures first { view.first_of (node_of self.old).waiting ≡ option_map waiting_of result }
        ensures rest { node_of self.new ≡ passed (node_of self.old) }
        ensures made { self.new.made ≡ self.old.made }
        ensures children { self.new.children ≡ self.old.children }
        ensures answered { IfSome result (IsAnswered self.old.made.run.value self.old.made.path) }
        ensures room { IfSome result (λ w. 0 < room self.new.waiting) }
    {
        self.waiting.pop()
    }

    /// The first entry, where it is no call.
    pub fn first_plain(&self) -> Option<&Entry>
        ensures { option_map (λ e. entry_of e.now) result ≡ plain_entry (view.first_of (node_of self.now).waiting) }
    {
        match self.waiting.entries.front() {
            Some(Waiting::Plain(entry)) => Some(entry),
            Some(Waiting::InFlight { .. }) => None,
            Some(Waiting::Finished { .. }) => None,
            None => None,
        }
    }

    /// Takes the first entry, where it is no call, and there is room for one more then.
    pub fn pop_plain(&mut self) -> Option<Entry>
        ensures taken { MatchOption result ((plain_entry (view.first_of (node_of self.old).waiting) ≡ None) × (node_of self.new ≡ node_of self.old)) (λ e. (plain_entry (view.first_of (node_of self.old).waiting) ≡ Some (entry_of e)) × (node_of self.new ≡ passed (node_of self.old))) }
        ensures made { self.new.made ≡ self.old.made }
        ensures children { self.new.children ≡ self.old.children }
        ensures room { IfSome result (λ e. 0 < room self.new.waiting) }
    {
        if self.first_plain().is_none() {
            return None;
        }
        match self.pop() {
            Some(Waiting::Plain(entry)) => Some(entry),
            Some(Waiting::InFlight { .. }) => None,
            Some(Waiting::Finished { .. }) => None,
            None => None,
        }
    }
}

//! New nodes, at which nothing waits yet.
ghost use Rattle.std.specs.Prelude.{◌≡◌, [], ◌∷◌, IfOk};
ghost use Rattle.sn_view.specs.Parts.{new_fork, own_child};
ghost use Rattle.sn_view.specs.View as view;
ghost use Rattle.sn_node.specs.Seen.{node_of, target_of};

use crate::children::Children;
use crate::freely::Freely;
use crate::node::{Made, Node, State};
use crate::queue::Queue;
use sn_dispatch::DetFork;
use sn_list::Memory;
use sn_net::{Key, Merge};
use sn_sync::Cell;
use std::alloc::Global;

impl Node {
    /// A box or a filter.
    pub fn alone(alloc: Global, made: Made) -> Node
        ensures seen { node_of result ≡ record { steps = made.steps; path = made.path; left = made.left; goes = target_of made.goes; waiting = []; state = view.Alone; children = [] } }
        ensures made { result.made ≡ made }
    {
        Node {
            made,
            waiting: Queue::new(alloc),
            state: State::Alone,
            children: Children::new(alloc),
        }
    }

    /// A synchrocell.
    pub fn cell(alloc: Global, made: Made, cell: Cell) -> Node
        ensures seen { node_of result ≡ record { steps = made.steps; path = made.path; left = made.left; goes = target_of made.goes; waiting = []; state = view.Cell cell.patterns cell.state; children = [] } }
        ensures made { result.made ≡ made }
    {
        Node {
            made,
            waiting: Queue::new(alloc),
            state: State::Cell(cell),
            children: Children::new(alloc),
        }
    }

    /// A dispatcher of that number, which has child 0 alone.
    pub fn fork(alloc: Global, made: Made, merge: Merge, number: usize) -> Result<Node, Memory>
        ensures seen { IfOk result (λ node. node_of node ≡ record { steps = made.steps; path = made.path; left = made.left; goes = target_of made.goes; waiting = []; state = new_fork merge (own_child number ∷ []); children = own_child number ∷ [] }) }
        ensures made { IfOk result (λ node. node.made ≡ made) }
    {
        let mut children = Children::new(alloc);
        children.add(alloc, Key::Bypass, number)?;
        let state = match merge {
            Merge::Free => State::Freely(Freely::new(alloc)?),
            Merge::Det => State::InTurn(DetFork::new(alloc)),
        };
        Ok(Node {
            made,
            waiting: Queue::new(alloc),
            state,
            children,
        })
    }
}

//! A run's nodes, which take turns until the end has come.

use crate::chance::Chance;
use crate::order::Turns;
use crate::refusal::Refusal;
use sn_io::OpenGate;
use sn_list::Seq;
use sn_model::Run;
use sn_record::Items;
use sn_stack::append;
use sn_stream::{GetEnd, StreamItem};
use sn_turn::{Node, Turned};
use std::alloc::Global;
use std::collections::VecDeque;
use std::sync::{Arc, Wait};

/// So many turns may be taken.
const MOST_TURNS: u64 = 100_000_000;

/// The nodes of a run, and what came out of it.
#[derive(Drop)]
pub struct Nodes {
    /// Those that may take a turn.
    waiting: VecDeque<Node>,
    root: GetEnd,
    pub out: Items,
    is_at_end: bool,
    /// How many turns were taken.
    pub turns: u64,
    /// How many nodes there are, with those that have passed on the end.
    pub made: u64,
}

impl Nodes {
    fn start(alloc: Global, run: &Arc<Run>) -> Result<Nodes, Refusal> {
        let (nodes, root) = Node::network(alloc, run)?;
        let mut all = Nodes {
            waiting: VecDeque::new(alloc),
            root,
            out: Seq::new(alloc),
            is_at_end: false,
            turns: 0,
            made: 0,
        };
        all.add(nodes)?;
        Ok(all)
    }

    /// Adds new nodes behind the others.
    fn add(&mut self, nodes: Vec<Node>) -> Result<(), Refusal> {
        for node in nodes {
            self.made = self.made.wrapping_add(1);
            self.put(node, Turns::Forward)?;
        }
        Ok(())
    }

    /// Puts a node where its next turn comes last.
    fn put(&mut self, node: Node, order: Turns) -> Result<(), Refusal> {
        let done = match order {
            Turns::Backward => self.waiting.push_front(node),
            Turns::Forward | Turns::Shuffled => self.waiting.push_back(node),
        };
        done.map_err(|_| Refusal::Memory)
    }

    /// Takes the node whose turn is next.
    fn take(&mut self, order: Turns, chance: &mut Chance) -> Option<Node> {
        match order {
            Turns::Forward => self.waiting.pop_front(),
            Turns::Backward => self.waiting.pop_back(),
            Turns::Shuffled => {
                let many = u32::try_from(self.waiting.len()).ok()?;
                if many == 0 {
                    return None;
                }
                self.waiting.swap_remove_back(chance.below(many) as usize)
            }
        }
    }

    /// Takes what has come out of the network.
    fn take_out<R: Wait>(&mut self, rt: &R) -> Result<(), Refusal> {
        for _ in rt.forever() {
            match self.root.get(rt) {
                None => break,
                Some(StreamItem::Item(item)) => append(&mut self.out, item)?,
                Some(StreamItem::Mark) => {}
                Some(StreamItem::End) => self.is_at_end = true,
            }
        }
        Ok(())
    }

    /// A node's turn, and what comes out then.
    fn step<R: Wait>(
        &mut self,
        rt: &R,
        alloc: Global,
        node: Node,
        order: Turns,
    ) -> Result<(), Refusal> {
        let Turned { node, spawned, .. } = turn_again(rt, alloc, node, self.turns)?;
        self.turns = self.turns.wrapping_add(1);
        if let Some(node) = node {
            self.put(node, order)?;
        }
        self.add(spawned)?;
        self.take_out(rt)
    }
}

/// A node's turn, once more where memory was wanted that was not there.
fn turn_again<R: Wait>(rt: &R, alloc: Global, node: Node, call: u64) -> Result<Turned, Refusal> {
    match node.turn(rt, alloc, &OpenGate, call) {
        Ok(turned) => Ok(turned),
        Err(fault) => match fault.node.turn(rt, alloc, &OpenGate, call) {
            Ok(turned) => Ok(turned),
            Err(_) => Err(Refusal::Memory),
        },
    }
}

/// Lets the nodes of a run take turns in an order, until the end has come out of its network.
pub fn take_turns<R: Wait>(
    rt: &R,
    alloc: Global,
    run: &Arc<Run>,
    order: Turns,
    seed: u64,
) -> Result<Nodes, Refusal> {
    let mut nodes = Nodes::start(alloc, run)?;
    let mut chance = Chance::new(seed);
    for _ in 0..MOST_TURNS {
        let Some(node) = nodes.take(order, &mut chance) else {
            break;
        };
        nodes.step(rt, alloc, node, order)?;
        if nodes.is_at_end {
            return Ok(nodes);
        }
    }
    Err(Refusal::Turns)
}

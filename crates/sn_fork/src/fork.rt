//! The node of a choice, a level of a star or a split: it decides on each entry that it receives, sends each item with a mark behind it to
//! the child of its key, and serves its decisions in order, by what passes by or by the next group of a child.
ghost use Rattle.std.specs.Prelude.{◌≡◌, ◌<◌, ◌++◌, ◌∷◌, [], IsTrue, OnErr, OnOk, false, length, map, ℤ};
ghost use Rattle.sn_streams.specs.Keys.{Value, is_among};
ghost use Rattle.sn_fork.specs.Turns.{Lacks};
ghost use Rattle.sn_fork.specs.Facts.{Each, ForksAt, IsChildAt, steps_to};
ghost use Rattle.sn_fork.specs.Fork.{child_seen};
ghost use Rattle.sn_fork.specs.Seen.{IsNew, keys_of};

use crate::children::enter;
use indexmap::IndexMap;
use sn_component::Outbox;
use sn_dispatch::DetFork;
use sn_list::{Memory, Seq};
use sn_model::{Run, Trail};
use sn_net::Key;
use sn_stream::{GetEnd, PutEnd, StreamItem};
use sn_wakeup::Waker;
use std::alloc::Global;
use std::marker::Model;
use std::sync::Arc;

/// A child of a fork: its key, the way to it, and the way back.
#[derive(Drop)]
pub struct Child {
    pub key: Key,
    pub to: Outbox,
    pub from: GetEnd,
}

impl Child {
    /// What happens at the other ends of its streams wakes this.
    fn register(&self, waker: &Arc<Waker>) -> Result<(), Memory> {
        self.to.register(waker)?;
        self.from.register(waker)
    }
}

/// The node of a choice, a level of a star or a split. What it has given is its decisions on what it has received, each that asks for a
/// child replaced by the child's group.
#[derive(Drop)]
pub struct Fork {
    pub(crate) run: Arc<Run>,
    /// Which part of the network it is.
    pub(crate) path: Seq<u32>,
    /// How many replicas a star has left here.
    pub(crate) left: u32,
    /// The steps to it, from which those to its children are made.
    pub(crate) steps: Trail,
    pub(crate) input: GetEnd,
    /// An entry that was got and isn't decided on yet.
    pub(crate) waiting: Option<StreamItem>,
    pub(crate) decisions: DetFork,
    pub(crate) children: Vec<Child>,
    /// Which child a split has for a value.
    pub(crate) replicas: IndexMap<i64, usize>,
    /// The children from `first` up to before `last` may hold entries to be put.
    pub(crate) first: usize,
    pub(crate) last: usize,
    pub(crate) output: Outbox,
}

impl Model for Fork {
    ghost use Rattle.sn_fork.specs.Seen.{Forking};
    ghost use Rattle.sn_fork.specs.Coding.{forking_code};

    ghost Value = { Forking };

    ghost coded = { forking_code };

    ghost use Rattle.sn_fork.specs.Fork.{Keeps, forking_of};

    ghost view = { forking_of };

    ghost invariant = { Keeps };
}

impl Fork {
    /// A node that has received nothing. A replica of a split is added when its first item waits, and is none of these children.
    pub fn new(
        alloc: Global,
        run: Arc<Run>,
        path: Seq<u32>,
        left: u32,
        steps: Trail,
        input: GetEnd,
        children: Vec<Child>,
        output: PutEnd,
    ) -> Fork
        requires stands { ForksAt (record { run = run.value; path = path; left = left; steps = steps; input = input; waiting = []; decisions = []; children = map child_seen children.items; output = output; held = [] }) }
        requires got { input.moved ≡ [] }
        requires put { output.moved ≡ [] }
        requires children { Each IsNew (map child_seen children.items) }
        requires replicas { (v : ℤ) → is_among (Value v) (keys_of (map child_seen children.items)) ≡ false }
        ensures { result ≡ record { run = run.value; path = path; left = left; steps = steps; input = input; waiting = []; decisions = []; children = map child_seen children.items; output = output; held = [] } }
    {
        Fork {
            run,
            path,
            left,
            steps,
            input,
            waiting: None,
            decisions: DetFork::new(alloc),
            children,
            replicas: IndexMap::new(alloc),
            first: 0,
            last: 0,
            output: Outbox::new(alloc, output),
        }
    }

    pub fn run(&self) -> &Arc<Run>
        ensures { result.now.value ≡ self.now.run }
    {
        &self.run
    }

    /// Which part of the run's network it is.
    pub fn path(&self) -> &Seq<u32>
        ensures { result.now ≡ self.now.path }
    {
        &self.path
    }

    /// How many replicas a star has left here.
    pub fn left(&self) -> u32
        ensures { result ≡ self.now.left }
    {
        self.left
    }

    /// The steps to it, from which those to its children are made. There it stands, with its ends and its children.
    pub fn steps(&self) -> &Trail
        ensures steps { result.now ≡ self.now.steps }
        ensures stands { ForksAt self.now }
    {
        &self.steps
    }

    /// What happens at the other ends of its streams wakes this, those of children that come later too.
    pub fn register(&self, waker: &Arc<Waker>) -> Result<(), Memory> {
        self.input.register(waker)?;
        for child in self.children.iter() {
            child.register(waker)?;
        }
        self.output.register(waker)
    }

    /// What happens at the other ends of a new child's streams wakes the fork, if anything does.
    fn register_at(&self, child: &Child) -> Result<(), Memory> {
        match self.input.waker() {
            None => Ok(()),
            Some(waker) => child.register(waker),
        }
    }

    /// Adds the child to which the item that waits goes. For want of memory it is given up, and nothing has changed.
    pub fn add_child(&mut self, child: Child) -> Result<(), Memory>
        requires lacks { Lacks self.old child.key }
        requires there { IsChildAt self.old.run (steps_to self.old) (child_seen child) }
        requires fresh { IsNew (child_seen child) }
        ensures ok { OnOk result (self.new ≡ record self.old { children = self.old.children ++ child_seen child ∷ [] }) }
        ensures err { OnErr result (self.new ≡ self.old) }
    {
        self.register_at(&child)?;
        self.children.reserve(1)?;
        enter(&mut self.replicas, child.key, self.children.len())?;
        self.children.push_reserved(child);
        Ok(())
    }

    /// Whether something is held to be put.
    pub(crate) fn holds(&self) -> bool
        ensures { IsTrue result → 0 < length self.now.held }
    {
        !self.output.held.is_empty()
    }
}

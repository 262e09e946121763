//! The nodes of a run, and the threads that give them turns.
use crate::slots::{Rest, Slots};
use crossbeam_utils::CachePadded;
use sn_component::Moved;
use sn_io::Gate;
use sn_list::Memory;
use sn_stream::GetEnd;
use sn_turn::{Node, TurnFault, Turned};
use sn_wakeup::{Backoff, EventCount, RunQueue, Waker};
use std::alloc::Global;
use std::sync::atomic::{AtomicU64, Ordering};
use std::sync::{Arc, Wait};
use std::thread;
use std::thread::Threads;

/// So many turns a node gets from one worker, if it moves something in each, before another node gets one.
const MOST_TURNS: u64 = 64;

/// A node, its number, and what wakes it.
#[derive(Drop)]
struct Task {
    number: u64,
    waker: Arc<Waker>,
    node: Node,
}

impl Rest for Task {
    fn rest(&self) -> bool {
        self.waker.rest()
    }
}

/// What all threads of a run share: the nodes, which of them have something to do, the gate, and two counters. A node stays with its worker while
/// it moves something, lies in its slot otherwise, and its number stands in the queue only where an entry came for it or room for one of its
/// own. Nothing is claimed of the queue and the counters.
#[derive(Drop)]
pub struct Crew<'a, G> {
    alloc: Global,
    gate: &'a G,
    queue: Arc<RunQueue>,
    slots: Slots<Task>,
    /// How many turns were given, by which calls of boxes are numbered.
    turns: CachePadded<AtomicU64>,
    /// How many nodes have come.
    nodes: CachePadded<AtomicU64>,
}

/// What came of looking for a node to give turns to.
#[derive(Clone, Copy, PartialEq, Eq, Debug)]
pub enum Service {
    /// A node got turns.
    Served,
    /// No node has anything to do.
    Idle,
    /// The run is over for all but its caller.
    Over,
}

impl<'a, G: Gate> Crew<'a, G> {
    /// A crew without nodes. The calling thread is woken by what comes out of the root.
    pub fn new(alloc: Global, gate: &'a G, root: &GetEnd) -> Result<Crew<'a, G>, Memory> {
        let queue = Arc::new(alloc, RunQueue::new(alloc)?)?;
        let waker = Waker::of_caller(Arc::try_clone(&queue)?);
        root.register(&Arc::new(alloc, waker)?)?;
        let slots = Slots::new(alloc)?;
        Ok(Crew {
            alloc,
            gate,
            queue,
            slots,
            turns: CachePadded::new(AtomicU64::new(0)),
            nodes: CachePadded::new(AtomicU64::new(0)),
        })
    }

    /// No node gets a turn any more.
    pub fn stop<R: Wait>(&self, rt: &R) {
        self.queue.stop(rt);
    }

    /// Where the calling thread sleeps until it has something to do.
    pub fn output(&self) -> &EventCount {
        &self.queue.output
    }

    /// What wakes a node of this number from now on.
    fn waker_of(&self, number: u64, node: &Node) -> Result<Arc<Waker>, Memory> {
        let waker = Waker::of_task(Arc::try_clone(&self.queue)?, number);
        let waker = Arc::new(self.alloc, waker)?;
        node.register(&waker)?;
        Ok(waker)
    }

    /// Lets a task wait for its turn. For want of memory it is dropped, and the run is over.
    fn put<R: Wait>(&self, rt: &R, task: Task) {
        let number = task.number;
        match self.slots.put(rt, number, task) {
            Ok(()) => self.queue.push(rt, number),
            Err(_) => self.stop(rt),
        }
    }

    /// Lets a task rest until it is woken, unless something has come for it: then it is given back. For want of memory it is dropped, and the run
    /// is over.
    fn rest<R: Wait>(&self, rt: &R, task: Task) -> Option<Task> {
        let number = task.number;
        match self.slots.rest(rt, number, task) {
            Ok(left) => left,
            Err(_) => {
                self.stop(rt);
                None
            }
        }
    }

    /// Brings a new node into the crew, to be looked at.
    fn admit_one<R: Wait>(&self, rt: &R, node: Node) {
        let number = self.nodes.fetch_add(1, Ordering::SeqCst);
        let Ok(waker) = self.waker_of(number, &node) else {
            self.stop(rt);
            return;
        };
        self.put(
            rt,
            Task {
                number,
                waker,
                node,
            },
        );
    }

    /// Brings new nodes into the crew.
    pub fn admit<R: Wait>(&self, rt: &R, nodes: Vec<Node>) {
        for node in nodes {
            self.admit_one(rt, node);
        }
    }

    /// Gives a task one turn. Answers how it went, and the task unless it is done. Where memory is wanted the run is over.
    fn give_turn<R: Wait>(&self, rt: &R, task: Task, call: u64) -> (Moved, Option<Task>) {
        let Task {
            number,
            waker,
            node,
        } = task;
        waker.begin();
        let (moved, left) = match node.turn(rt, self.alloc, self.gate, call) {
            Ok(
                Turned {
                    node,
                    spawned,
                    moved,
                },
            ) => {
                self.admit(rt, spawned);
                (moved, node)
            }
            Err(TurnFault { node }) => {
                self.stop(rt);
                (Moved::Idle, Some(node))
            }
        };
        match left {
            None => (moved, None),
            Some(node) => (
                moved,
                Some(Task {
                    number,
                    waker,
                    node,
                }),
            ),
        }
    }

    /// Gives a task turns while it moves something or something comes for it, up to a number.
    fn serve<R: Wait>(&self, rt: &R, task: Task) {
        let first = self.turns.fetch_add(MOST_TURNS, Ordering::SeqCst);
        let mut next = task;
        for turn in 0..MOST_TURNS {
            let (moved, left) = self.give_turn(rt, next, first.wrapping_add(turn));
            let Some(task) = left else {
                return;
            };
            next = task;
            if moved == Moved::Idle {
                let Some(task) = self.rest(rt, next) else {
                    return;
                };
                next = task;
            }
        }
        self.put(rt, next);
    }

    /// Serves a node, if one has something to do.
    pub fn serve_one<R: Wait>(&self, rt: &R) -> Service {
        let Some(number) = self.queue.take(rt) else {
            if self.queue.is_stopped(rt) {
                return Service::Over;
            }
            return Service::Idle;
        };
        if let Some(task) = self.slots.take(rt, number) {
            self.serve(rt, task);
        }
        Service::Served
    }

    /// Serves nodes until the run is over.
    fn work<R: Wait>(&self, rt: &R) {
        let mut backoff = Backoff::new(&self.queue.tasks);
        for _ in rt.forever() {
            match self.serve_one(rt) {
                Service::Served => backoff.reset(),
                Service::Idle => backoff.wait(rt),
                Service::Over => return,
            }
        }
    }
}

/// Serves nodes in this thread and in as many others as are still lacking. Where one of those can't be started there are fewer.
pub fn help<R: Threads + Wait + Sync, G: Gate>(rt: &R, crew: &Crew<G>, workers: u32) {
    thread::scope(thread::scope_env(), rt, |scope| {
        for _ in 2..workers {
            let _ = scope.spawn(move || crew.work(rt));
        }
        crew.work(rt);
    });
}

fn is_shared_between_threads<T: Sync>(_: &T) {}

/// Threads may share a crew.
pub fn crew_is_shared<G: Gate>(crew: &Crew<G>) {
    is_shared_between_threads(crew);
}

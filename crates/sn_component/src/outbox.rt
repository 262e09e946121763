//! The way out of a node: an end, and what is held to be put there.
ghost use Rattle.std.specs.Prelude.{◌≡◌, ◌≤◌, ◌<◌, ◌-◌, ◌+◌, ◌++◌, ◌∷◌, [], IsFalse, IsTrue, OnErr, OnOk, false, length, map};
ghost use Rattle.std.specs.VecDeque.{deque_capacity, deque_len};
ghost use mathlib.Core.List.{IsPrefix};
ghost use Rattle.sn_stream.specs.Ends.{WasFull, entry_of, history_of, moves, passed};
ghost use Rattle.sn_stream.specs.declared.item.StreamItem.TheVariants as stream_item;
ghost use Rattle.sn_component.specs.Outbox.{Ends, given, has_ended, is_end, room};
ghost use Rattle.sn_component.specs.declared.outbox.Until.TheVariants as some_until;

use sn_list::Memory;
use sn_stream::{PutEnd, StreamItem};
use sn_wakeup::Waker;
use std::alloc::Global;
use std::collections::VecDeque;
use std::sync::{Arc, Wait};

/// An end, and what is held to be put there, in order.
#[derive(Drop)]
pub struct Outbox {
    pub put: PutEnd,
    pub held: VecDeque<StreamItem>,
}

/// Why nothing more was put.
#[derive(Clone, Copy, PartialEq, Eq, Debug)]
pub enum Until {
    /// Nothing is left.
    Empty,
    /// The stream was full.
    Full,
    /// The end was put.
    End,
}

/// How far what was held was put.
#[derive(Clone, Copy, PartialEq, Eq, Debug)]
pub struct Sent {
    pub until: Until,
    /// Whether something was put.
    pub some: bool,
}

impl Outbox {
    pub fn new(alloc: Global, put: PutEnd) -> Outbox
        ensures put { result.put ≡ put }
        ensures held { result.held.items ≡ [] }
    {
        Outbox {
            put,
            held: VecDeque::new(alloc),
        }
    }

    /// Room in the stream wakes this.
    pub fn register(&self, waker: &Arc<Waker>) -> Result<(), Memory> {
        self.put.register(waker)
    }

    /// Makes room for so many more entries.
    pub fn reserve(&mut self, more: usize) -> Result<(), Memory>
        ensures put { self.new.put ≡ self.old.put }
        ensures held { self.new.held.items ≡ self.old.held.items }
        ensures room { OnOk result (more ≤ room self.new) }
    {
        self.held.reserve(more)?;
        Ok(())
    }

    /// Holds one entry more, for which there is room.
    #[tactic(auto, using(crate::proofs::Sending::held_more))]
    pub fn hold(&mut self, x: StreamItem)
        requires { 0 < room self.old }
        ensures put { self.new.put ≡ self.old.put }
        ensures held { self.new.held.items ≡ self.old.held.items ++ x ∷ [] }
        ensures given { given self.new ≡ given self.old ++ entry_of x ∷ [] }
        ensures room { room self.new + 1 ≡ room self.old }
    {
        self.held.push_back_reserved(x);
    }

    /// Puts the first entry that is held, which is given up where the stream has room for it. Answers whether that was so.
    fn put_one<R: Wait>(&mut self, rt: &R, x: StreamItem) -> bool
        requires may { IsPrefix (passed (self.old.put.moved ++ x ∷ [])) (history_of self.old.put) }
        requires room { 0 < room self.old }
        ensures went { IsTrue result → (self.new.put ≡ moves self.old.put x) × (self.new.held.items ≡ self.old.held.items) }
        ensures full { IsFalse result → (self.new.put ≡ self.old.put) × (self.new.held.items ≡ x ∷ self.old.held.items) × WasFull self.old.put }
    {
        match self.put.put(rt, x) {
            Ok(()) => true,
            Err(x) => {
                self.held.push_front_reserved(x);
                false
            }
        }
    }

    /// Puts what is held, as far as the stream has room. All that is given is a beginning of the history of its place.
    #[tactic(auto, using(crate::proofs::Sending::emptied))]
    pub fn send<R: Wait>(&mut self, rt: &R) -> Sent
        requires may { IsPrefix (given self.old) (history_of self.old.put) }
        ensures given { given self.new ≡ given self.old }
        ensures made { self.new.put.made ≡ self.old.put.made }
        ensures moves { length self.old.put.moved ≤ length self.new.put.moved }
        ensures some { IsTrue result.some → length self.old.put.moved < length self.new.put.moved }
        ensures empty { result.until ≡ some_until.Empty → self.new.held.items ≡ [] }
        ensures emptied { result.until ≡ some_until.Empty → length self.new.put.moved ≡ length self.old.put.moved + length self.old.held.items }
        ensures full { result.until ≡ some_until.Full → WasFull self.new.put }
        ensures end { result.until ≡ some_until.End → Ends self.new.put }
        ensures ended { has_ended self.old.put ≡ false → has_ended self.new.put ≡ is_end result.until }
    {
        let mut some = false;
        while let Some(x) = self.held.pop_front() {
            let is_end = matches!(x, StreamItem::End);
            if !self.put_one(rt, x) {
                return Sent {
                    until: Until::Full,
                    some,
                };
            }
            some = true;
            if is_end {
                return Sent {
                    until: Until::End,
                    some,
                };
            }
        }
        Sent {
            until: Until::Empty,
            some,
        }
    }
}

//! The source: the node that gives a run's items.
ghost use Rattle.std.specs.Prelude.{◌≡◌, ◌≤◌, ◌<◌, ◌+◌, ◌++◌, ◌∷◌, [], IfOk, IsFalse, IsTrue, OnErr, false, length};
ghost use Rattle.sn_model.specs.Run.{items_of};
ghost use Rattle.sn_stream.specs.Ends.{WasFull};
ghost use Rattle.sn_stream.specs.Ended.{ended, numbered};
ghost use Rattle.sn_component.specs.Facts.{history_for};
ghost use Rattle.sn_component.specs.Moved.{SourceRound, WentSourcing, is_done, is_last};
ghost use Rattle.sn_component.specs.Outbox.{Ends, has_ended, is_end};
ghost use Rattle.sn_component.specs.Seen.{Sourcing};
ghost use Rattle.sn_component.specs.declared.moved.Moved.TheVariants as some_moved;
ghost use Rattle.sn_component.specs.declared.outbox.Until.TheVariants as some_until;

use crate::moved::{Moved, some_or_idle};
use crate::outbox::{Outbox, Sent, Until};
use sn_list::Memory;
use sn_model::Run;
use sn_record::Item;
use sn_stream::{PutEnd, StreamItem};
use sn_wakeup::Waker;
use std::alloc::Global;
use std::marker::Model;
use std::sync::{Arc, Wait};

/// How many entries the source gives in a turn.
const LONGEST_TURN: u32 = 1_024;

/// The source. What it has given, and what it still has, are the run's items and the end.
#[derive(Drop)]
pub struct Source {
    run: Arc<Run>,
    /// How many of the items and the end were held to be put.
    next: usize,
    output: Outbox,
}

impl Model for Source {
    ghost use Rattle.sn_component.specs.Seen.{Sourcing, sourcing_code};

    ghost Value = { Sourcing };

    ghost coded = { sourcing_code };

    ghost use Rattle.sn_component.specs.Facts.{Feeds};
    ghost use Rattle.sn_component.specs.Source.{sourcing_of};

    ghost view = { sourcing_of };

    ghost invariant = { λ s. Feeds (sourcing_of s) };
}

/// The entry of this number, from 0, of the items and then the end.
fn entry(alloc: Global, items: &[Item], number: usize) -> Result<StreamItem, Memory>
    ensures { IfOk result (λ x. x ≡ numbered items.now number) }
{
    if number < items.len() {
        let item = items[number].copy(alloc)?;
        return Ok(StreamItem::Item(item));
    }
    Ok(StreamItem::End)
}

impl Source {
    /// A source that has given nothing.
    pub fn new(alloc: Global, run: Arc<Run>, output: PutEnd) -> Source
        requires whole { history_for output.made ≡ ended (items_of run.value) }
        requires put { output.moved ≡ [] }
        ensures { result ≡ record { run = run.value; next = 0; output = output; held = [] } }
    {
        Source {
            run,
            next: 0,
            output: Outbox::new(alloc, output),
        }
    }

    /// Room in its stream wakes this.
    pub fn register(&self, waker: &Arc<Waker>) -> Result<(), Memory> {
        self.output.register(waker)
    }

    /// Puts what is held, as far as the stream has room.
    fn send<R: Wait>(&mut self, rt: &R) -> Sent
        ensures same { self.new ≡ record self.old { output = self.new.output; held = self.new.held } }
        ensures made { self.new.output.made ≡ self.old.output.made }
        ensures moves { length self.old.output.moved ≤ length self.new.output.moved }
        ensures some { IsTrue result.some → length self.old.output.moved < length self.new.output.moved }
        ensures emptied { result.until ≡ some_until.Empty → length self.new.output.moved ≡ length self.old.output.moved + length self.old.held }
        ensures full { result.until ≡ some_until.Full → WasFull self.new.output }
        ensures end { result.until ≡ some_until.End → Ends self.new.output }
        ensures ended { has_ended self.old.output ≡ false → has_ended self.new.output ≡ is_end result.until }
    {
        self.output.send(rt)
    }

    /// Sees to it that an entry is held, where there is one more. Answers whether there is. For want of memory nothing has changed.
    fn fill(&mut self, alloc: Global) -> Result<bool, Memory>
        ensures same { self.new ≡ record self.old { next = self.new.next; held = self.new.held } }
        ensures some { IfOk result (λ is_some. IsTrue is_some → 0 < length self.new.held) }
        ensures none { IfOk result (λ is_some. IsFalse is_some → Ends self.new.output) }
        ensures err { OnErr result (self.new ≡ self.old) }
    {
        if !self.output.held.is_empty() {
            return Ok(true);
        }
        let items = self.run.items();
        if self.next > items.len() {
            return Ok(false);
        }
        let x = entry(alloc, items.as_slice(), self.next)?;
        self.output.reserve(1)?;
        self.output.hold(x);
        self.next += 1;
        Ok(true)
    }

    /// Holds the next entry, where none is held, and puts what is held. Answers nothing where it may go on. For want of memory nothing has
    /// changed.
    fn round<R: Wait>(&mut self, rt: &R, alloc: Global) -> Result<Option<Moved>, Memory>
        ensures run { self.new.run ≡ self.old.run }
        ensures made { self.new.output.made ≡ self.old.output.made }
        ensures moves { length self.old.output.moved ≤ length self.new.output.moved }
        ensures went { IfOk result (SourceRound self.old self.new) }
        ensures ended { has_ended self.old.output ≡ false → IfOk result (λ last. has_ended self.new.output ≡ is_last last) }
        ensures err { OnErr result (self.new ≡ self.old) }
    {
        if !self.fill(alloc)? {
            return Ok(Some(Moved::Done));
        }
        let sent = self.send(rt);
        match sent.until {
            Until::End => Ok(Some(Moved::Done)),
            Until::Full => Ok(Some(some_or_idle(sent.some))),
            Until::Empty => Ok(None),
        }
    }

    /// Goes on while it may, after something was put.
    fn go_on<R: Wait>(&mut self, rt: &R, alloc: Global) -> Moved
        ensures run { self.new.run ≡ self.old.run }
        ensures made { self.new.output.made ≡ self.old.output.made }
        ensures moves { length self.old.output.moved ≤ length self.new.output.moved }
        ensures done { result ≡ some_moved.Done → Ends self.new.output }
        ensures busy { result ≡ some_moved.Idle → ⊥ }
        ensures ended { has_ended self.old.output ≡ false → has_ended self.new.output ≡ is_done result }
    {
        for _ in 1..LONGEST_TURN {
            match self.round(rt, alloc) {
                Ok(None) => {}
                Ok(Some(Moved::Done)) => return Moved::Done,
                Ok(Some(_)) | Err(_) => break,
            }
        }
        Moved::Some
    }

    /// A turn: it gives entries while there is room. For want of memory before anything was put nothing has changed; where something was
    /// put before, the next turn meets it.
    pub fn turn<R: Wait>(&mut self, rt: &R, alloc: Global) -> Result<Moved, Memory>
        ensures run { self.new.run ≡ self.old.run }
        ensures made { self.new.output.made ≡ self.old.output.made }
        ensures went { IfOk result (WentSourcing self.old self.new) }
        ensures ended { has_ended self.old.output ≡ false → IfOk result (λ moved. has_ended self.new.output ≡ is_done moved) }
        ensures err { OnErr result (self.new ≡ self.old) }
    {
        match self.round(rt, alloc)? {
            Some(moved) => Ok(moved),
            None => Ok(self.go_on(rt, alloc)),
        }
    }
}

//! Nodes of boxes, filters and synchrocells.
ghost use Rattle.std.specs.Prelude.{◌≡◌, ◌≤◌, ◌<◌, ◌+◌, [], ◌∷◌, IfOk, IsFalse, IsTrue, OnErr, OnOk, Some, false, length};
ghost use Rattle.sn_model.specs.Run.{net_of};
ghost use Rattle.sn_stream.specs.Ends.{WasEmpty, WasFull};
ghost use Rattle.sn_view.specs.Parts.{part_at as the_part_at};
ghost use Rattle.sn_component.specs.Component.{state_of};
ghost use Rattle.sn_component.specs.Facts.{IsFresh};
ghost use Rattle.sn_component.specs.Moved.{RoundOf, WentWorking, is_done, is_last};
ghost use Rattle.sn_component.specs.Outbox.{Ends, has_ended, is_end};
ghost use Rattle.sn_component.specs.Seen.{Working, moves_of};
ghost use Rattle.sn_component.specs.declared.moved.Moved.TheVariants as some_moved;
ghost use Rattle.sn_component.specs.declared.outbox.Until.TheVariants as some_until;

use crate::moved::{Moved, some_or_idle};
use crate::outbox::{Outbox, Sent, Until};
use crate::pass::{Keeps, pass};
use sn_io::Gate;
use sn_list::{Memory, Seq};
use sn_model::Run;
use sn_net::Net;
use sn_node::part_at;
use sn_stream::{GetEnd, PutEnd, StreamItem};
use sn_wakeup::Waker;
use std::alloc::Global;
use std::marker::Model;
use std::sync::{Arc, Wait};

/// How many entries a node works off in a turn, so that others get theirs.
const LONGEST_TURN: u32 = 1_024;

/// The node of a box, a filter or a synchrocell. What it has given is what the component makes of what it has received.
#[derive(Drop)]
pub struct Component {
    run: Arc<Run>,
    /// Which part of the network it is.
    path: Seq<u32>,
    keeps: Keeps,
    input: GetEnd,
    /// An entry that was got and isn't worked off yet.
    waiting: Option<StreamItem>,
    output: Outbox,
}

impl Model for Component {
    ghost use Rattle.sn_component.specs.Seen.{Working, working_code};

    ghost Value = { Working };

    ghost coded = { working_code };

    ghost use Rattle.sn_component.specs.Facts.{WorksOff};
    ghost use Rattle.sn_component.specs.Kept.{working_of};

    ghost view = { working_of };

    ghost invariant = { λ w. WorksOff (working_of w) };
}

impl Component {
    /// A node that has received nothing.
    pub fn new(
        alloc: Global,
        run: Arc<Run>,
        path: Seq<u32>,
        keeps: Keeps,
        input: GetEnd,
        output: PutEnd,
    ) -> Component
        requires { IsFresh (record { run = run.value; path = path; state = state_of keeps; input = input; waiting = []; output = output; held = [] }) }
        ensures { result ≡ record { run = run.value; path = path; state = state_of keeps; input = input; waiting = []; output = output; held = [] } }
    {
        Component {
            run,
            path,
            keeps,
            input,
            waiting: None,
            output: Outbox::new(alloc, output),
        }
    }

    /// What happens at the other ends of its streams wakes this.
    pub fn register(&self, waker: &Arc<Waker>) -> Result<(), Memory> {
        self.input.register(waker)?;
        self.output.register(waker)
    }

    /// Puts what is held, as far as the stream has room.
    fn send<R: Wait>(&mut self, rt: &R) -> Sent
        ensures same { self.new ≡ record self.old { output = self.new.output; held = self.new.held } }
        ensures made { self.new.output.made ≡ self.old.output.made }
        ensures moves { length self.old.output.moved ≤ length self.new.output.moved }
        ensures some { IsTrue result.some → length self.old.output.moved < length self.new.output.moved }
        ensures full { result.until ≡ some_until.Full → WasFull self.new.output }
        ensures end { result.until ≡ some_until.End → Ends self.new.output }
        ensures ended { has_ended self.old.output ≡ false → has_ended self.new.output ≡ is_end result.until }
    {
        self.output.send(rt)
    }

    /// Gets an entry, where none waits. Answers whether there was one.
    fn receive<R: Wait>(&mut self, rt: &R) -> bool
        requires { self.old.waiting ≡ [] }
        ensures same { self.new ≡ record self.old { input = self.new.input; waiting = self.new.waiting } }
        ensures made { self.new.input.made ≡ self.old.input.made }
        ensures got { IsTrue result → length self.new.input.moved ≡ length self.old.input.moved + 1 }
        ensures none { IsFalse result → (self.new ≡ self.old) × WasEmpty self.old.input }
    {
        match self.input.get(rt) {
            Some(x) => {
                self.waiting = Some(x);
                true
            }
            None => false,
        }
    }

    /// Works off the entry that waits, if one does. For want of memory nothing has changed.
    fn work<G: Gate>(
        &mut self,
        alloc: Global,
        run: &Run,
        part: &Net,
        gate: &G,
        call: u64,
    ) -> Result<(), Memory>
        requires run { self.old.run ≡ run.now }
        requires part { the_part_at (net_of run.now) self.old.path ≡ Some part.now }
        ensures same { self.new ≡ record self.old { state = self.new.state; waiting = self.new.waiting; held = self.new.held } }
        ensures ok { OnOk result (self.new.waiting ≡ []) }
        ensures err { OnErr result (self.new ≡ self.old) }
    {
        let Some(x) = self.waiting.take() else {
            return Ok(());
        };
        match pass(
            alloc,
            run,
            part,
            gate,
            call,
            &mut self.keeps,
            x,
            &mut self.output,
        ) {
            Ok(()) => Ok(()),
            Err(x) => {
                self.waiting = Some(x);
                Err(Memory)
            }
        }
    }

    /// Works off what waits, puts what is held, and gets the next entry. Answers nothing where it may go on. For want of memory nothing has
    /// changed.
    fn round<R: Wait, G: Gate>(
        &mut self,
        rt: &R,
        alloc: Global,
        run: &Run,
        part: &Net,
        gate: &G,
        call: u64,
    ) -> Result<Option<Moved>, Memory>
        requires run { self.old.run ≡ run.now }
        requires part { the_part_at (net_of run.now) self.old.path ≡ Some part.now }
        ensures run { self.new.run ≡ self.old.run }
        ensures path { self.new.path ≡ self.old.path }
        ensures input { self.new.input.made ≡ self.old.input.made }
        ensures output { self.new.output.made ≡ self.old.output.made }
        ensures moves { moves_of self.old ≤ moves_of self.new }
        ensures went { IfOk result (RoundOf self.old self.new) }
        ensures ended { has_ended self.old.output ≡ false → IfOk result (λ last. has_ended self.new.output ≡ is_last last) }
        ensures err { OnErr result (self.new ≡ self.old) }
    {
        self.work(alloc, run, part, gate, call)?;
        let sent = self.send(rt);
        match sent.until {
            Until::End => Ok(Some(Moved::Done)),
            Until::Full => Ok(Some(some_or_idle(sent.some))),
            Until::Empty => {
                if self.receive(rt) {
                    Ok(None)
                } else {
                    Ok(Some(some_or_idle(sent.some)))
                }
            }
        }
    }

    /// Goes on while it may, after something was got or put.
    fn go_on<R: Wait, G: Gate>(
        &mut self,
        rt: &R,
        alloc: Global,
        run: &Run,
        part: &Net,
        gate: &G,
        call: u64,
    ) -> Moved
        requires run { self.old.run ≡ run.now }
        requires part { the_part_at (net_of run.now) self.old.path ≡ Some part.now }
        ensures run { self.new.run ≡ self.old.run }
        ensures path { self.new.path ≡ self.old.path }
        ensures input { self.new.input.made ≡ self.old.input.made }
        ensures output { self.new.output.made ≡ self.old.output.made }
        ensures moves { moves_of self.old ≤ moves_of self.new }
        ensures done { result ≡ some_moved.Done → Ends self.new.output }
        ensures busy { result ≡ some_moved.Idle → ⊥ }
        ensures ended { has_ended self.old.output ≡ false → has_ended self.new.output ≡ is_done result }
    {
        for _ in 1..LONGEST_TURN {
            match self.round(rt, alloc, run, part, gate, call) {
                Ok(None) => {}
                Ok(Some(Moved::Done)) => return Moved::Done,
                Ok(Some(_)) | Err(_) => break,
            }
        }
        Moved::Some
    }

    /// A turn: it works off what waits, and what comes in meanwhile. For want of memory before anything else nothing has changed; where
    /// something was got or put before, the next turn meets it.
    pub fn turn<R: Wait, G: Gate>(
        &mut self,
        rt: &R,
        alloc: Global,
        gate: &G,
        call: u64,
    ) -> Result<Moved, Memory>
        ensures run { self.new.run ≡ self.old.run }
        ensures path { self.new.path ≡ self.old.path }
        ensures input { self.new.input.made ≡ self.old.input.made }
        ensures output { self.new.output.made ≡ self.old.output.made }
        ensures went { IfOk result (WentWorking self.old self.new) }
        ensures ended { has_ended self.old.output ≡ false → IfOk result (λ moved. has_ended self.new.output ≡ is_done moved) }
        ensures err { OnErr result (self.new ≡ self.old) }
    {
        let run = self.run.clone()?;
        let Some(part) = part_at(run.net(), self.path.as_slice()) else {
            unreachable!()
        };
        match self.round(rt, alloc, &run, part, gate, call)? {
            Some(moved) => Ok(moved),
            None => Ok(self.go_on(rt, alloc, &run, part, gate, call)),
        }
    }
}

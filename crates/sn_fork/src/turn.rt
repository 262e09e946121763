//! Turns of forks.
ghost use Rattle.std.specs.Prelude.{◌≡◌, ◌<◌, ◌+◌, [], IfOk, IfSome, IsFalse, IsTrue, OnErr, false, length, Some};
ghost use Rattle.sn_model.specs.Run.{net_of};
ghost use Rattle.sn_view.specs.Parts.{part_at as the_part_at};
ghost use Rattle.sn_fork.specs.Turns.{ChildFull, GoesOn, Lacks, moves_of};
ghost use Rattle.sn_fork.specs.Progress.{GaveAs, GaveOne, Proceeds, StopsAs, TookOne, gave_last, is_finished, is_over, took_last};
ghost use Rattle.sn_stream.specs.Ends.{WasEmpty, WasFull};
ghost use Rattle.sn_component.specs.Outbox.{Ends, has_ended, is_end};
ghost use Rattle.sn_component.specs.declared.outbox.Until.TheVariants as some_until;

use crate::fork::Fork;
use crate::progress::{Flushed, Gave, Progress, Served, Stop};
use sn_component::{Moved, Sent, Until, some_or_idle};
use sn_list::Memory;
use sn_net::{Key, Net};
use sn_node::part_at;
use std::sync::Wait;

/// How many entries a fork gives in a turn, and how many it receives, so that others get theirs.
const LONGEST_TURN: u32 = 1_024;

impl Fork {
    /// Gets an entry, where none waits. Answers whether there was one.
    fn receive<R: Wait>(&mut self, rt: &R) -> bool
        requires { self.old.waiting ≡ [] }
        ensures same { self.new ≡ record self.old { input = self.new.input; waiting = self.new.waiting } }
        ensures goes { GoesOn self.old self.new }
        ensures got { IsTrue result → moves_of self.old < moves_of self.new }
        ensures none { IsFalse result → (self.new ≡ self.old) × WasEmpty self.old.input }
    {
        match self.input.get(rt) {
            Some(x) => {
                self.waiting = Some(x);
                true
            }
            None => false,
        }
    }

    /// Puts what is held, as far as the stream has room.
    fn send<R: Wait>(&mut self, rt: &R) -> Sent
        ensures same { self.new ≡ record self.old { output = self.new.output; held = self.new.held } }
        ensures goes { GoesOn self.old self.new }
        ensures some { IsTrue result.some → moves_of self.old < moves_of self.new }
        ensures emptied { result.until ≡ some_until.Empty → moves_of self.new ≡ moves_of self.old + length self.old.held }
        ensures full { result.until ≡ some_until.Full → WasFull self.new.output }
        ensures end { result.until ≡ some_until.End → Ends self.new.output }
        ensures ended { has_ended self.old.output ≡ false → has_ended self.new.output ≡ is_end result.until }
    {
        self.output.send(rt)
    }

    /// Puts what is held for a child, as far as its stream has room.
    fn send_to<R: Wait>(&mut self, rt: &R, c: usize) -> Sent
        requires { c < length self.old.children }
        ensures same { self.new ≡ record self.old { children = self.new.children } }
        ensures goes { GoesOn self.old self.new }
        ensures some { IsTrue result.some → moves_of self.old < moves_of self.new }
        ensures full { result.until ≡ some_until.Full → ChildFull self.new }
    {
        self.children[c].to.send(rt)
    }

    /// Serves the first decision, and puts what is held. Answers nothing where it may go on. For want of memory nothing has changed.
    #[tactic(auto, using(crate::proofs::Moves::goes_further, crate::proofs::Moves::goes_still))]
    fn give_one<R: Wait>(&mut self, rt: &R) -> Result<Option<Gave>, Memory>
        ensures goes { GoesOn self.old self.new }
        ensures ok { IfOk result (GaveOne self.old self.new) }
        ensures ended { has_ended self.old.output ≡ false → IfOk result (λ gave. has_ended self.new.output ≡ gave_last gave) }
        ensures err { OnErr result (self.new ≡ self.old) }
    {
        let served = self.serve(rt)?;
        if served == Served::Nothing {
            return Ok(Some(Gave {
                why: Stop::Rest,
                some: false,
            }));
        }
        let sent = self.send(rt);
        match sent.until {
            Until::Empty => Ok(None),
            Until::Full => Ok(Some(Gave {
                why: Stop::Full,
                some: sent.some || served == Served::Got,
            })),
            Until::End => Ok(Some(Gave {
                why: Stop::Done,
                some: sent.some,
            })),
        }
    }

    /// Goes on giving while it may, after something was got or put.
    #[tactic(auto, using(crate::proofs::Moves::goes_further, crate::proofs::Moves::goes_still))]
    fn give_more<R: Wait>(&mut self, rt: &R) -> Stop
        ensures goes { GoesOn self.old self.new }
        ensures stops { StopsAs self.new result }
        ensures ended { has_ended self.old.output ≡ false → has_ended self.new.output ≡ is_over result }
    {
        for _ in 1..LONGEST_TURN {
            match self.give_one(rt) {
                Ok(None) => {}
                Ok(Some(gave)) => return gave.why,
                Err(_) => return Stop::Rest,
            }
        }
        Stop::Rest
    }

    /// Gives what it may: first what it holds, then what its decisions ask for, in order. For want of memory nothing has changed.
    #[tactic(auto, using(crate::proofs::Moves::goes_further, crate::proofs::Moves::goes_still))]
    fn give_out<R: Wait>(&mut self, rt: &R) -> Result<Gave, Memory>
        ensures goes { GoesOn self.old self.new }
        ensures ok { IfOk result (GaveAs self.old self.new) }
        ensures ended { has_ended self.old.output ≡ false → IfOk result (λ gave. has_ended self.new.output ≡ is_over gave.why) }
        ensures err { OnErr result (self.new ≡ self.old) }
    {
        if self.holds() {
            let sent = self.send(rt);
            match sent.until {
                Until::Empty => {}
                Until::Full => return Ok(Gave {
                    why: Stop::Full,
                    some: sent.some,
                }),
                Until::End => return Ok(Gave {
                    why: Stop::Done,
                    some: sent.some,
                }),
            }
        } else if let Some(gave) = self.give_one(rt)? {
            return Ok(gave);
        }
        Ok(Gave {
            why: self.give_more(rt),
            some: true,
        })
    }

    /// Puts what is held for children, as far as their streams have room.
    fn flush<R: Wait>(&mut self, rt: &R) -> Flushed
        ensures same { self.new ≡ record self.old { children = self.new.children } }
        ensures goes { GoesOn self.old self.new }
        ensures some { IsTrue result.some → moves_of self.old < moves_of self.new }
        ensures full { IsFalse result.all → ChildFull self.new }
    {
        let last = self.last.min(self.children.len());
        let mut some = false;
        for c in self.first..last {
            let sent = self.send_to(rt, c);
            some = some || sent.some;
            if sent.until == Until::Full {
                self.first = c;
                return Flushed { all: false, some };
            }
        }
        self.first = self.last;
        Flushed { all: true, some }
    }

    /// Decides on what waits, puts what is held for its child, and gets the next entry. Answers nothing where it may go on. For want of memory
    /// nothing has changed.
    #[tactic(auto, using(crate::proofs::Moves::goes_deciding, crate::proofs::Moves::goes_further, crate::proofs::Moves::goes_still))]
    fn take_one<R: Wait>(&mut self, rt: &R, part: &Net) -> Result<Option<Progress>, Memory>
        requires { the_part_at (net_of self.old.run) self.old.path ≡ Some part.now }
        ensures goes { GoesOn self.old self.new }
        ensures output { self.new.output ≡ self.old.output }
        ensures ok { IfOk result (TookOne self.old self.new) }
        ensures more { IfOk result (λ took. took_last took ≡ false) }
        ensures err { OnErr result (self.new ≡ self.old) }
    {
        if let Some(key) = self.decide(part)? {
            return Ok(Some(Progress::Missing { key, some: false }));
        }
        let flushed = self.flush(rt);
        if !flushed.all {
            return Ok(Some(Progress::Moved(some_or_idle(flushed.some))));
        }
        if self.receive(rt) {
            return Ok(None);
        }
        Ok(Some(Progress::Moved(some_or_idle(flushed.some))))
    }

    /// Goes on receiving while it may, after something was got or put. Answers the key of an item that has no child.
    #[tactic(auto, using(crate::proofs::Moves::goes_further, crate::proofs::Moves::goes_still))]
    fn take_more<R: Wait>(&mut self, rt: &R, part: &Net) -> Option<Key>
        requires { the_part_at (net_of self.old.run) self.old.path ≡ Some part.now }
        ensures goes { GoesOn self.old self.new }
        ensures output { self.new.output ≡ self.old.output }
        ensures lacks { IfSome result (Lacks self.new) }
    {
        for _ in 1..LONGEST_TURN {
            match self.take_one(rt, part) {
                Ok(None) => {}
                Ok(Some(Progress::Missing { key, .. })) => return Some(key),
                Ok(Some(Progress::Moved(_))) => return None,
                Err(_) => return None,
            }
        }
        None
    }

    /// Receives what comes, as long as there are children for it and room in the ways to them. For want of memory nothing has changed.
    #[tactic(auto, using(crate::proofs::Moves::goes_further, crate::proofs::Moves::goes_still))]
    fn take_in<R: Wait>(&mut self, rt: &R, part: &Net) -> Result<Progress, Memory>
        requires { the_part_at (net_of self.old.run) self.old.path ≡ Some part.now }
        ensures goes { GoesOn self.old self.new }
        ensures output { self.new.output ≡ self.old.output }
        ensures ok { IfOk result (Proceeds self.old self.new) }
        ensures more { IfOk result (λ p. is_finished p ≡ false) }
        ensures err { OnErr result (self.new ≡ self.old) }
    {
        if let Some(progress) = self.take_one(rt, part)? {
            return Ok(progress);
        }
        match self.take_more(rt, part) {
            Some(key) => Ok(Progress::Missing { key, some: true }),
            None => Ok(Progress::Moved(Moved::Some)),
        }
    }

    /// A turn: it gives what it may, and receives what comes, unless its way out is full. For want of memory before anything else nothing has
    /// changed; where something was got or put before, the next turn meets it.
    #[tactic(auto, using(crate::proofs::Moves::goes_further, crate::proofs::Moves::goes_still))]
    pub fn turn<R: Wait>(&mut self, rt: &R) -> Result<Progress, Memory>
        ensures goes { GoesOn self.old self.new }
        ensures went { IfOk result (Proceeds self.old self.new) }
        ensures ended { has_ended self.old.output ≡ false → IfOk result (λ progress. has_ended self.new.output ≡ is_finished progress) }
        ensures err { OnErr result (self.new ≡ self.old) }
    {
        let run = self.run.clone()?;
        let Some(part) = part_at(run.net(), self.path.as_slice()) else {
            unreachable!()
        };
        let gave = self.give_out(rt)?;
        match gave.why {
            Stop::Done => return Ok(Progress::Moved(Moved::Done)),
            Stop::Full => return Ok(Progress::Moved(some_or_idle(gave.some))),
            Stop::Rest => {}
        }
        if !gave.some {
            return self.take_in(rt, part);
        }
        match self.take_in(rt, part) {
            Ok(Progress::Missing { key, .. }) => Ok(Progress::Missing { key, some: true }),
            Ok(Progress::Moved(_)) => Ok(Progress::Moved(Moved::Some)),
            Err(_) => Ok(Progress::Moved(Moved::Some)),
        }
    }
}

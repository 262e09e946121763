//! How a fork serves its decisions, in order.
ghost use Rattle.std.specs.Prelude.{◌≡◌, ◌∷◌, false, IfOk, IfSome, OnErr, List};
ghost use Rattle.sn_dispatch.specs.declared.det_fork.Decision.{Decision};
ghost use Rattle.sn_fork.specs.Turns.{GoesOn, HeldIf, MovedIf};
ghost use Rattle.sn_fork.specs.Progress.{ServedAs};
ghost use Rattle.sn_stream.specs.Ends.{entry_of};
ghost use Rattle.sn_fork.specs.Seen.{AsksFor, asks_child, decision_entry, serves_now};

use crate::children::number_of;
use crate::fork::Fork;
use crate::progress::Served;
use sn_dispatch::{Decision, DetFork};
use sn_list::Memory;
use sn_record::Item;
use sn_stream::StreamItem;
use std::sync::Wait;

/// What passes the children by, to be put.
pub(crate) fn passes(d: Decision) -> StreamItem
    requires { asks_child d ≡ false }
    ensures { entry_of result ≡ decision_entry d }
{
    match d {
        Decision::Own(item) => StreamItem::Item(item),
        Decision::Mark => StreamItem::Mark,
        Decision::End => StreamItem::End,
        Decision::To(_) => unreachable!(),
    }
}

/// Whether the first decision is served by what the node has. The end is not, while something is held for a child.
fn serves_itself(decisions: &DetFork, holds: bool) -> bool
    ensures { result ≡ serves_now holds decisions.now }
{
    match decisions.first() {
        None => false,
        Some(Decision::To(_)) => false,
        Some(Decision::Own(_)) => true,
        Some(Decision::Mark) => true,
        Some(Decision::End) => !holds,
    }
}

/// Drops the first decision, which was served.
fn drop_served(decisions: &mut DetFork)
    ensures { (d : Decision) (ds : List Decision) → decisions.old ≡ d ∷ ds → decisions.new ≡ ds }
{
    let _served = decisions.drop_first();
}

impl Fork {
    /// Serves the first decision where it asks for no child: it is held to be put. Answers whether that was so.
    fn serve_itself(&mut self) -> Result<bool, Memory>
        ensures same { self.new ≡ record self.old { decisions = self.new.decisions; held = self.new.held } }
        ensures ok { IfOk result (HeldIf self.old self.new) }
        ensures err { OnErr result (self.new ≡ self.old) }
    {
        self.output.reserve(1)?;
        if !serves_itself(&self.decisions, self.first < self.last) {
            return Ok(false);
        }
        match self.decisions.drop_first() {
            Some(d) => {
                self.output.hold(passes(d));
                Ok(true)
            }
            None => Ok(false),
        }
    }

    /// The child whose group the first decision asks for.
    fn next_child(&self) -> Option<usize>
        ensures { IfSome result (AsksFor self.now) }
    {
        match self.decisions.first() {
            Some(Decision::To(key)) => { number_of(self.children.as_slice(), &self.replicas, *key) }
            Some(_) => None,
            None => None,
        }
    }

    /// Gets the next entry of the group that the first decision asks for: an item is held to be put, the mark serves the decision. Answers
    /// whether there was one.
    fn serve_group<R: Wait>(&mut self, rt: &R, c: usize) -> Result<bool, Memory>
        requires { AsksFor self.old c }
        ensures same { self.new ≡ record self.old { decisions = self.new.decisions; children = self.new.children; held = self.new.held } }
        ensures goes { GoesOn self.old self.new }
        ensures ok { IfOk result (MovedIf self.old self.new) }
        ensures err { OnErr result (self.new ≡ self.old) }
    {
        self.output.reserve(1)?;
        match self.children[c].from.get(rt) {
            None => Ok(false),
            Some(StreamItem::Item(item)) => {
                self.output.hold(StreamItem::Item(item));
                Ok(true)
            }
            Some(StreamItem::Mark) => {
                drop_served(&mut self.decisions);
                Ok(true)
            }
            Some(StreamItem::End) => unreachable!(),
        }
    }

    /// Serves the first decision as far as it may be: by what the node has, or by the next entry of a group. For want of memory nothing has
    /// changed.
    #[tactic(auto, using(crate::proofs::Moves::goes_further, crate::proofs::Moves::goes_still))]
    pub(crate) fn serve<R: Wait>(&mut self, rt: &R) -> Result<Served, Memory>
        ensures goes { GoesOn self.old self.new }
        ensures output { self.new.output ≡ self.old.output }
        ensures ok { IfOk result (ServedAs self.old self.new) }
        ensures err { OnErr result (self.new ≡ self.old) }
    {
        if self.serve_itself()? {
            return Ok(Served::Held);
        }
        let Some(c) = self.next_child() else {
            return Ok(Served::Nothing);
        };
        if self.serve_group(rt, c)? {
            return Ok(Served::Got);
        }
        Ok(Served::Nothing)
    }
}

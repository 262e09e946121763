//! Calls of boxes that are begun and finished at a node.
ghost use Rattle.std.specs.Prelude.{◌≡◌, ◌↔◌, IfNone, IfOk, IfSome, IsTrue, MatchOption, Some, ℕ, false, slice_get};
ghost use Rattle.std.specs.List.{Any, list_any};
ghost use Rattle.sn_record.specs.Record.{Entries};
ghost use Rattle.sn_net.specs.Item.{Rec};
ghost use Rattle.sn_view.specs.View as view;
ghost use Rattle.sn_view.specs.Next.{IsCall, has_no_call, in_call};
ghost use Rattle.sn_node.specs.Seen.{waiting_of};
ghost use Rattle.sn_node.specs.Waiting.{is_free};
ghost use Rattle.sn_node.specs.declared.entry.Waiting.TheVariants as waiting;

use crate::entry::{Entry, Waiting};
use crate::node::Node;
use sn_list::Memory;
use sn_record::{Item, Items, Record, is_same_record};

/// A copy of the record, if this is one that has no call.
fn free_record(w: &Waiting) -> Result<Option<Record>, Memory>
    ensures { IfOk result (λ copy. MatchOption copy (has_no_call (waiting_of w.now) ≡ false) (λ given. waiting_of w.now ≡ view.Plain (view.It (Rec given)))) }
{
    match w {
        Waiting::Plain(entry) => match entry {
            Entry::Item(item) => match item {
                Item::Rec(given) => Ok(Some(given.copy()?)),
                Item::Fault(_) => Ok(None),
            },
            Entry::Mark => Ok(None),
            Entry::End => Ok(None),
        },
        Waiting::InFlight { .. } => Ok(None),
        Waiting::Finished { .. } => Ok(None),
    }
}

/// The entry in the call of that number, if it is a record without one.
fn in_call(w: Waiting, call: u64) -> Waiting
    ensures seen { waiting_of result ≡ in_call call (waiting_of w) }
    ensures called { is_free result ≡ false }
{
    match w {
        Waiting::Plain(entry) => match entry {
            Entry::Item(item) => match item {
                Item::Rec(given) => Waiting::InFlight { call, given },
                Item::Fault(fault) => Waiting::Plain(Entry::Item(Item::Fault(fault))),
            },
            Entry::Mark => Waiting::Plain(Entry::Mark),
            Entry::End => Waiting::Plain(Entry::End),
        },
        Waiting::InFlight { call, given } => Waiting::InFlight { call, given },
        Waiting::Finished { given, items } => Waiting::Finished { given, items },
    }
}

/// Whether this is the call of that number, with that record.
fn is_call(w: &Waiting, call: u64, given: &Record) -> bool
    ensures { IsTrue result ↔ (waiting_of w.now ≡ view.InFlight call given.now) }
{
    match w {
        Waiting::InFlight {
            call: other,
            given: record,
        } => *other == call && is_same_record(record, given),
        Waiting::Plain(_) => false,
        Waiting::Finished { .. } => false,
    }
}

/// The call that is in flight, finished with these items.
fn finished(w: Waiting, items: Items) -> Waiting
    requires { (call : ℕ) × ((given : Entries) × (waiting_of w ≡ view.InFlight call given)) }
    ensures { (call : ℕ) (given : Entries) → waiting_of w ≡ view.InFlight call given → result ≡ waiting.Finished given items }
{
    match w {
        Waiting::InFlight { given, .. } => Waiting::Finished { given, items },
        Waiting::Plain(_) => unreachable!(),
        Waiting::Finished { .. } => unreachable!(),
    }
}

impl Node {
    ghost use Rattle.sn_node.specs.Calls.{Begins, IsAnswering, IsNextCall, finishes};
    ghost use Rattle.sn_node.specs.Seen.{node_of};

    /// Whether a record waits that has no call.
    pub fn has_free(&self) -> bool
        ensures { result ≡ list_any has_no_call (node_of self.now).waiting }
    {
        self.waiting.first_free().is_some()
    }

    /// The place of the first record that has no call, and a copy of the record.
    pub fn next_call(&self) -> Result<Option<(usize, Record)>, Memory>
        ensures { IfOk result (λ next. MatchOption next (list_any has_no_call (node_of self.now).waiting ≡ false) (λ call. IsNextCall call.0 call.1 (node_of self.now))) }
    {
        match self.waiting.first_free() {
            None => Ok(None),
            Some(p) => match free_record(&self.waiting.entries[p])? {
                Some(given) => Ok(Some((p, given))),
                None => Ok(None),
            },
        }
    }

    /// Begins the call of that number for the first record that has none, which is at `p`. It takes no memory.
    pub fn begin(&mut self, p: usize, call: u64)
        requires { (given : Entries) × IsNextCall p given (node_of self.old) }
        ensures begun { (given : Entries) → IsNextCall p given (node_of self.old) → Begins call given (node_of self.old) (node_of self.new) }
        ensures made { self.new.made ≡ self.old.made }
    {
        let free = self.waiting.begin(p, Waiting::Plain(Entry::Mark));
        let _mark = self.waiting.put(p, in_call(free, call));
    }

    /// Where the call of that number with that record is in flight. Where the ticket is its entry's, that takes no longer than to
    /// compare the records.
    pub fn call_at(&self, begun: u64, call: u64, given: &Record) -> Option<usize>
        ensures found { IfSome result (λ p. slice_get (node_of self.now).waiting p ≡ Some (view.InFlight call given.now)) }
        ensures none { IfNone result (Any (IsCall call given.now) (node_of self.now).waiting → ⊥) }
    {
        let first = self.waiting.place(begun);
        if self.has_call_at(first, call, given) {
            return Some(first);
        }
        for p in 0..self.waiting.entries.len() {
            if is_call(&self.waiting.entries[p], call, given) {
                return Some(p);
            }
        }
        None
    }

    /// Whether the call is in flight at this place.
    fn has_call_at(&self, p: usize, call: u64, given: &Record) -> bool
        ensures { IsTrue result ↔ (slice_get (node_of self.now).waiting p ≡ Some (view.InFlight call given.now)) }
    {
        match self.waiting.entries.get(p) {
            Some(w) => is_call(w, call, given),
            None => false,
        }
    }

    /// Finishes the call that is in flight at `p` with the answer to its record.
    pub fn finish(&mut self, p: usize, items: Items)
        requires { IsAnswering self.old.made.run.value self.old.made.path p items (node_of self.old) }
        ensures finished { (call : ℕ) (given : Entries) → slice_get (node_of self.old).waiting p ≡ Some (view.InFlight call given) → node_of self.new ≡ finishes p given (node_of self.old) }
        ensures made { self.new.made ≡ self.old.made }
    {
        let flying = self.waiting.put(p, Waiting::Plain(Entry::Mark));
        let _mark = self.waiting.put(p, finished(flying, items));
    }
}

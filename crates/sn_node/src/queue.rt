//! What waits at a node, in order.
ghost use Rattle.std.specs.Prelude.{if◌then◌else◌, ◌≡◌, ◌<◌, ◌≤◌, ◌+◌, ◌-◌, ◌%◌, ◌^◌, ◌++◌, ◌∷◌, [], IfNone, IfSome, MatchOption, OnErr, OnOk, Some, false, length, ℕ, slice_get, slice_set, take, true};
ghost use Rattle.std.specs.List.{list_any};
ghost use Rattle.std.specs.Option.{option_copied};
ghost use Rattle.sn_node.specs.declared.entry.Waiting.{Waiting};
ghost use Rattle.sn_node.specs.declared.entry.Waiting.TheVariants as waiting;
ghost use Rattle.sn_node.specs.Waiting.{is_free};

use crate::entry::{Entry, Waiting};
use sn_list::Memory;
use sn_record::Item;
use std::alloc::Global;
use std::collections::VecDeque;
use std::mem::replace;

/// What waits at a node, in order. No record without a call stands among the first `called` entries, so that the next one is found
/// without a look at those that have a call. A ticket tells where an entry stands, also once others before it have left.
#[derive(Drop)]
pub struct Queue {
    pub entries: VecDeque<Waiting>,
    called: usize,
    /// How many entries left, modulo 2 ^ 64.
    gone: u64,
    pub ghost within: { called ≤ length entries.items },
    pub ghost none_free: { list_any is_free (take called entries.items) ≡ false },
}

/// Whether this is a record that has no call.
fn is_free(w: &Waiting) -> bool
    ensures { result ≡ is_free w.now }
{
    match w {
        Waiting::Plain(entry) => match entry {
            Entry::Item(item) => match item {
                Item::Rec(_) => true,
                Item::Fault(_) => false,
            },
            Entry::Mark => false,
            Entry::End => false,
        },
        Waiting::InFlight { .. } => false,
        Waiting::Finished { .. } => false,
    }
}

/// How many entries have a call or need none, with one before them.
fn called_with(first: &Waiting, called: usize) -> usize
    ensures { result ≤ (if is_free first.now then 0 else called + 1) }
{
    if is_free(first) {
        0
    } else {
        called.saturating_add(1)
    }
}

/// The lesser of two numbers.
fn lesser(a: usize, b: usize) -> usize
    ensures first { result ≤ a }
    ensures second { result ≤ b }
{
    if a < b { a } else { b }
}

impl Queue {
    ghost use Rattle.sn_node.specs.Queue.{room};

    /// Nothing waits, and no memory is taken.
    pub fn new(alloc: Global) -> Queue
        ensures { result.entries.items ≡ [] }
    {
        Queue {
            entries: VecDeque::new(alloc),
            called: 0,
            gone: 0,
        }
    }

    /// Makes room for so many entries.
    pub fn reserve(&mut self, n: usize) -> Result<(), Memory>
        ensures same { self.new.entries.items ≡ self.old.entries.items }
        ensures kept { room self.old ≤ room self.new }
        ensures ok { OnOk result (n ≤ room self.new) }
    {
        self.entries.reserve(n)?;
        Ok(())
    }

    /// Puts an entry behind the others, for which there is room.
    pub fn push(&mut self, entry: Entry)
        requires { 0 < room self.old }
        ensures items { self.new.entries.items ≡ self.old.entries.items ++ waiting.Plain entry ∷ [] }
        ensures room { room self.new + 1 ≡ room self.old }
    {
        let last = Waiting::Plain(entry);
        if self.called == self.entries.len() && !is_free(&last) {
            self.called += 1;
        }
        self.entries.push_back_reserved(last);
    }

    /// Takes the entry that was put last away.
    pub fn drop_last(&mut self)
        ensures { self.new.entries.items ≡ take (length self.old.entries.items - 1) self.old.entries.items }
    {
        let rest = self.entries.len().saturating_sub(1);
        self.called = lesser(self.called, rest);
        self.entries.truncate(rest);
    }

    /// How many entries wait.
    pub fn len(&self) -> usize
        ensures { result ≡ length self.now.entries.items }
    {
        self.entries.len()
    }

    /// The entry at a place.
    pub fn at(&self, p: usize) -> Option<&Waiting>
        ensures { option_copied result ≡ slice_get self.now.entries.items p }
    {
        self.entries.get(p)
    }

    pub fn first(&self) -> Option<&Waiting>
        ensures { option_copied result ≡ slice_get self.now.entries.items 0 }
    {
        self.entries.front()
    }

    /// Takes the first entry, and so there is room for one more.
    pub fn pop(&mut self) -> Option<Waiting>
        ensures items { MatchOption result ((self.old.entries.items ≡ []) × (self.new.entries.items ≡ [])) (λ w. self.old.entries.items ≡ w ∷ self.new.entries.items) }
        ensures room { MatchOption result (room self.new ≡ room self.old) (λ w. room self.new ≡ room self.old + 1) }
    {
        let first = self.entries.pop_front()?;
        self.called = self.called.saturating_sub(1);
        self.gone = self.gone.wrapping_add(1);
        Some(first)
    }

    /// Puts an entry that was taken back before the others, for which there is room.
    pub fn unpop(&mut self, w: Waiting)
        requires { 0 < room self.old }
        ensures items { self.new.entries.items ≡ w ∷ self.old.entries.items }
        ensures room { room self.new + 1 ≡ room self.old }
    {
        self.called = called_with(&w, self.called);
        self.gone = self.gone.wrapping_sub(1);
        self.entries.push_front_reserved(w);
    }

    /// The ticket of the entry at `p`.
    pub fn ticket(&self, p: usize) -> u64
        ensures { result ≡ (self.now.gone + p) % 2 ^ 64 }
    {
        self.gone.wrapping_add(p as u64)
    }

    /// Where the entry with this ticket stands, if it is still there.
    pub fn place(&self, ticket: u64) -> usize
        ensures { result ≡ (ticket + 2 ^ 64 - self.now.gone) % 2 ^ 64 }
    {
        ticket.wrapping_sub(self.gone) as usize
    }

    /// The place of the first record that has no call.
    pub fn first_free(&self) -> Option<usize>
        ensures before { IfSome result (λ p. list_any is_free (take p self.now.entries.items) ≡ false) }
        ensures within { IfSome result (λ p. p < length self.now.entries.items) }
        ensures free { IfSome result (λ p. (w : Waiting) → slice_get self.now.entries.items p ≡ Some w → is_free w ≡ true) }
        ensures none { IfNone result (list_any is_free self.now.entries.items ≡ false) }
    {
        for p in self.called..self.entries.len() {
            if is_free(&self.entries[p]) {
                return Some(p);
            }
        }
        None
    }

    /// Passes what has a call or needs none.
    fn skip(&mut self)
        ensures items { self.new.entries.items ≡ self.old.entries.items }
        ensures room { room self.new ≡ room self.old }
    {
        while self.called < self.entries.len() && !is_free(&self.entries[self.called]) {
            self.called += 1;
        }
    }

    /// Puts another in place of the first record that has no call, which is at `p`, and answers what stood there.
    pub fn begin(&mut self, p: usize, w: Waiting) -> Waiting
        requires within { p < length self.old.entries.items }
        requires before { list_any is_free (take p self.old.entries.items) ≡ false }
        requires called { is_free w ≡ false }
        ensures was { slice_get self.old.entries.items p ≡ Some result }
        ensures items { self.new.entries.items ≡ slice_set self.old.entries.items p w }
        ensures room { room self.new ≡ room self.old }
    {
        let was = replace(&mut self.entries[p], w);
        self.called = p + 1;
        self.skip();
        was
    }

    /// Puts another, which is no record without a call, in place of the entry at `p`, and answers what stood there.
    pub fn put(&mut self, p: usize, w: Waiting) -> Waiting
        requires within { p < length self.old.entries.items }
        requires called { is_free w ≡ false }
        ensures was { slice_get self.old.entries.items p ≡ Some result }
        ensures items { self.new.entries.items ≡ slice_set self.old.entries.items p w }
        ensures room { room self.new ≡ room self.old }
    {
        replace(&mut self.entries[p], w)
    }
}

//! Numbers that are to be looked at.
ghost use Rattle.std.specs.Prelude.{[], ◌≡◌, ◌==◌, ◌+◌, ◌++◌, ◌<◌, ◌≤◌, IfNone, MatchOption, OnOk, false, length, true, ℕ};
ghost use Rattle.std.specs.Option.{option_to_list};
ghost use Rattle.std.specs.Vec.{vec_capacity};
ghost use Rattle.sn_node.specs.Agenda.{AreMarked, is_listed, unlisted};

use sn_list::Memory;
use std::alloc::Global;

/// Numbers below a bound that are to be looked at, each once, in the order in which they were last listed. What is listed needs no
/// memory, since there is room for all numbers below the bound.
#[derive(Drop)]
pub struct Agenda {
    stack: Vec<usize>,
    /// Whether each number below the bound is on the stack.
    listed: Vec<bool>,
    pub ghost marked: { AreMarked stack.items listed.items },
    pub ghost few: { length stack.items + unlisted listed.items ≤ length listed.items },
    pub ghost room: { length listed.items ≤ vec_capacity stack },
}

impl Agenda {
    /// Nothing is listed, and nothing may be.
    pub fn new(alloc: Global) -> Agenda
        ensures stack { result.stack.items ≡ [] }
        ensures bound { length result.listed.items ≡ 0 }
    {
        Agenda {
            stack: Vec::new(alloc),
            listed: Vec::new(alloc),
        }
    }

    /// Lets all numbers below the bound be listed.
    pub fn reach(&mut self, bound: usize) -> Result<(), Memory>
        ensures same { self.new.stack.items ≡ self.old.stack.items }
        ensures kept { length self.old.listed.items ≤ length self.new.listed.items }
        ensures reached { OnOk result (bound ≤ length self.new.listed.items) }
    {
        let more = bound.saturating_sub(self.listed.len());
        self.stack.reserve(bound.saturating_sub(self.stack.len()))?;
        self.listed.reserve(more)?;
        for _number in 0..more {
            self.listed.push_reserved(false);
        }
        Ok(())
    }

    /// Lists a number below the bound.
    pub fn list(&mut self, i: usize)
        requires { i < length self.old.listed.items }
        ensures listed { is_listed i self.new.stack.items ≡ true }
        ensures others { (j : ℕ) → is_listed j self.old.stack.items ≡ true → is_listed j self.new.stack.items ≡ true }
        ensures bound { length self.new.listed.items ≡ length self.old.listed.items }
    {
        if !self.listed[i] {
            self.listed[i] = true;
            self.stack.push_reserved(i);
        }
    }

    /// Lists a number, if it is below the bound.
    pub fn list_if_below(&mut self, i: usize)
        ensures listed { i < length self.old.listed.items → is_listed i self.new.stack.items ≡ true }
        ensures others { (j : ℕ) → is_listed j self.old.stack.items ≡ true → is_listed j self.new.stack.items ≡ true }
        ensures bound { length self.new.listed.items ≡ length self.old.listed.items }
    {
        if i < self.listed.len() {
            self.list(i);
        }
    }

    /// Takes the number that was listed last off the list.
    pub fn pop(&mut self) -> Option<usize>
        ensures items { self.old.stack.items ≡ self.new.stack.items ++ option_to_list result }
        ensures none { IfNone result (self.old.stack.items ≡ []) }
        ensures others { MatchOption result (self.new.stack.items ≡ self.old.stack.items) (λ i. (j : ℕ) → is_listed j self.old.stack.items ≡ true → (j == i) ≡ false → is_listed j self.new.stack.items ≡ true) }
        ensures bound { length self.new.listed.items ≡ length self.old.listed.items }
    {
        let i = self.stack.pop()?;
        if i < self.listed.len() {
            self.listed[i] = false;
        }
        Some(i)
    }

    /// All that is listed, the first first.
    pub fn as_slice(&self) -> &[usize]
        ensures { result.now ≡ self.now.stack.items }
    {
        self.stack.as_slice()
    }
}

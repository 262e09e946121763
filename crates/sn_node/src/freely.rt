//! What a free dispatcher keeps, and which of its children have something that may be merged.
ghost use Rattle.std.specs.Prelude.{◌≤◌, length};

use crate::agenda::Agenda;
use crate::children::Children;
use sn_dispatch::FreeFork;
use sn_list::Memory;
use std::alloc::Global;

/// What a free dispatcher keeps: its epochs, and the numbers of the children of which something may be merged. A number may be
/// listed still of which nothing may be merged any more.
#[derive(Drop)]
pub struct Freely {
    fork: FreeFork,
    waking: Agenda,
    pub ghost reached: { length fork.children ≤ length waking.listed.items },
}

impl Freely {
    ghost use Rattle.std.specs.Prelude.{◌≡◌, ◌+◌, ◌<◌, ◌^◌, IfNone, IfOk, IfSome, IsTrue, OnErr, OnOk, Some, false, if◌then◌else◌, map, slice_get, true, ℕ};
    ghost use Rattle.sn_view.specs.Epochs.{closed, is_passed, marked, moved_on, new_epochs, stands_at_output, with_child};
    ghost use Rattle.sn_view.specs.Next.{may_merge_by};
    ghost use Rattle.sn_view.specs.View as view;
    ghost use Rattle.sn_node.specs.Agenda.{is_listed};
    ghost use Rattle.sn_node.specs.Child.{child_of};
    ghost use Rattle.sn_node.specs.Woken.{AreAwake, IsWoken, Wakes};

    /// Nothing came in yet, and child 0 is there, which passes the others by.
    pub fn new(alloc: Global) -> Result<Freely, Memory>
        ensures { IfOk result (λ freely. freely.fork ≡ new_epochs) }
    {
        let fork = FreeFork::new(alloc)?;
        let mut waking = Agenda::new(alloc);
        waking.reach(fork.len())?;
        Ok(Freely { fork, waking })
    }

    /// Whether the child stands in the output's epoch.
    pub(crate) fn may_take(&self, c: usize) -> bool
        ensures { result ≡ stands_at_output self.now.fork c }
    {
        self.fork.may_take(c as u64)
    }

    /// Whether something of the child may be merged.
    fn may_merge(&self, children: &Children, c: usize) -> bool
        ensures { result ≡ may_merge_by (view.Freely self.now.fork) c (slice_get (map child_of children.now.list.items) c) }
    {
        self.may_take(c) && children.first_kept(c).is_some()
    }

    /// Lists a child, if something of it may be merged.
    pub(crate) fn wake(&mut self, children: &Children, c: usize)
        ensures { Wakes (map child_of children.now.list.items) c self.old self.new }
    {
        if self.may_merge(children, c) {
            self.waking.list(c);
        }
    }

    /// Lists all children of which something may be merged.
    fn wake_all(&mut self, children: &Children)
        ensures fork { self.new.fork ≡ self.old.fork }
        ensures woken { AreAwake self.new.fork self.new.waking.stack.items (map child_of children.now.list.items) }
    {
        for c in 0..children.len() {
            self.wake(children, c);
        }
    }

    /// Takes children off the end of the list of which nothing may be merged.
    pub(crate) fn settle(&mut self, children: &Children)
        requires { IsWoken self.old (map child_of children.now.list.items) }
        ensures fork { self.new.fork ≡ self.old.fork }
        ensures woken { IsWoken self.new (map child_of children.now.list.items) }
    {
        while let Some(c) = self.waking.pop() {
            if self.may_merge(children, c) {
                self.waking.list(c);
                return;
            }
        }
    }

    /// Notes a mark of a child that stands in the output's epoch, and tells whether a mark goes out.
    pub(crate) fn pass_mark(&mut self, children: &Children, c: usize) -> bool
        requires stands { stands_at_output self.old.fork c ≡ true }
        requires woken { IsWoken self.old (map child_of children.now.list.items) }
        ensures out { result ≡ is_passed (marked c self.old.fork) }
        ensures fork { self.new.fork ≡ (if result then moved_on (marked c self.old.fork) else marked c self.old.fork) }
        ensures woken { IsWoken self.new (map child_of children.now.list.items) }
    {
        self.fork.child_marked(c as u64);
        let moved = self.fork.out_mark();
        if moved {
            self.wake_all(children);
        }
        moved
    }

    /// Notes a mark at the input.
    pub(crate) fn close_epoch(&mut self)
        requires { self.old.fork.input < 2 ^ 62 }
        ensures fork { self.new.fork ≡ closed self.old.fork }
        ensures waking { self.new.waking ≡ self.old.waking }
    {
        self.fork.close_epoch();
    }

    /// Adds a child, as which there are `count`.
    pub(crate) fn add_child(&mut self, count: usize) -> Result<(), Memory>
        requires { count ≡ length self.old.fork.children + 1 }
        ensures ok { OnOk result (self.new.fork ≡ with_child self.old.fork) }
        ensures err { OnErr result (self.new.fork ≡ self.old.fork) }
        ensures waking { self.new.waking.stack.items ≡ self.old.waking.stack.items }
    {
        self.waking.reach(count)?;
        self.fork.add_child()?;
        Ok(())
    }

    /// The child that was listed last of those of which something may be merged.
    pub(crate) fn next(&self, children: &Children) -> Option<usize>
        requires { IsWoken self.now (map child_of children.now.list.items) }
        ensures some { IfSome result (λ c. may_merge_by (view.Freely self.now.fork) c (slice_get (map child_of children.now.list.items) c) ≡ true) }
        ensures none { IfNone result ((c : ℕ) → may_merge_by (view.Freely self.now.fork) c (slice_get (map child_of children.now.list.items) c) ≡ false) }
    {
        let listed = self.waking.as_slice();
        let mut i = listed.len();
        while i > 0 {
            i -= 1;
            if self.may_merge(children, listed[i]) {
                return Some(listed[i]);
            }
        }
        None
    }
}

//! Items of the run that come in.
ghost use Rattle.std.specs.Prelude.{◌≡◌, IfOk, OnErr, if◌then◌else◌};
ghost use Rattle.sn_view.specs.View.{Take};
ghost use Rattle.sn_view.specs.Next.{after, enabled};
ghost use Rattle.sn_graph.specs.Arena.{IsOf, view_of};
ghost use Rattle.sn_graph.specs.Quiet.{IsQuiet};

use crate::arena::Arena;
use sn_list::Memory;
use sn_model::Run;
use sn_node::{Entry, Target};
use std::alloc::Global;

impl Arena {
    /// Whether an item of the run, or the end, may come in.
    pub(crate) fn may_take(&self, run: &Run) -> bool
        requires { IsOf self.now run.now }
        ensures { result ≡ enabled (view_of self.now) Take }
    {
        self.taken < run.items().len() || !self.ended
    }

    /// Moves the next item of the run, or the end, into the network, and tells whether there was one. For want of memory nothing has
    /// changed.
    pub(crate) fn take(&mut self, alloc: Global, run: &Run) -> Result<bool, Memory>
        requires { IsOf self.old run.now }
        ensures enabled { IfOk result (λ moved. moved ≡ enabled (view_of self.old) Take) }
        ensures after { IfOk result (λ moved. view_of self.new ≡ (if moved then after (view_of self.old) Take else view_of self.old)) }
        ensures err { OnErr result (view_of self.new ≡ view_of self.old) }
        ensures of { IsOf self.new run.now }
        ensures quiet { IsQuiet self.old self.new }
    {
        let items = run.items();
        if self.taken < items.len() {
            let item = items.at(self.taken).copy(alloc)?;
            self.reserve(Target::Node(0), 1)?;
            self.send(Target::Node(0), Entry::Item(item));
            self.taken += 1;
            return Ok(true);
        }
        if self.ended {
            return Ok(false);
        }
        self.reserve(Target::Node(0), 1)?;
        self.send(Target::Node(0), Entry::End);
        self.ended = true;
        Ok(true)
    }
}

//! Items that come out of the network.
ghost use Rattle.std.specs.Prelude.{◌≡◌, ◌++◌, IfOk, OnErr, if◌then◌else◌};
ghost use Rattle.sn_model.specs.declared.run.Run.{Run};
ghost use Rattle.sn_view.specs.View.{Emit};
ghost use Rattle.sn_view.specs.Next.{after, enabled};
ghost use Rattle.sn_graph.specs.Arena.{IsOf, view_of};
ghost use Rattle.sn_graph.specs.Emitted.{has_emitted, items_of};
ghost use Rattle.sn_graph.specs.Quiet.{IsQuiet};

use crate::arena::Arena;
use sn_list::Memory;
use sn_node::Entry;
use sn_record::Item;
use sn_stack::append;
use std::alloc::Global;

/// What came out of the network.
#[derive(Drop)]
pub enum Emitted {
    /// No entry waited.
    No,
    /// A mark or the end, which leaves nothing behind.
    Nothing,
    Item(Item),
}

impl Arena {
    /// Whether an entry waits for the output.
    pub(crate) fn may_emit(&self) -> bool
        ensures { result ≡ enabled (view_of self.now) Emit }
    {
        !self.ready.is_empty()
    }

    /// Takes the first entry that waits for the output. An item is put behind those that came out before. For want of memory nothing
    /// has changed.
    pub(crate) fn emit(&mut self, alloc: Global) -> Result<Emitted, Memory>
        ensures enabled { IfOk result (λ emitted. has_emitted emitted ≡ enabled (view_of self.old) Emit) }
        ensures after { IfOk result (λ emitted. view_of self.new ≡ (if has_emitted emitted then after (view_of self.old) Emit else view_of self.old)) }
        ensures out { IfOk result (λ emitted. self.new.out ≡ self.old.out ++ items_of emitted) }
        ensures err { OnErr result (view_of self.new ≡ view_of self.old) }
        ensures of { (run : Run) → IsOf self.old run → IsOf self.new run }
        ensures quiet { IsQuiet self.old self.new }
    {
        let Some(first) = self.ready.front() else {
            return Ok(Emitted::No);
        };
        if let Entry::Item(item) = first {
            let copy = item.copy(alloc)?;
            append(&mut self.out, copy)?;
        }
        match self.ready.pop_front() {
            Some(Entry::Item(item)) => Ok(Emitted::Item(item)),
            Some(Entry::Mark) => Ok(Emitted::Nothing),
            Some(Entry::End) => Ok(Emitted::Nothing),
            None => Ok(Emitted::No),
        }
    }
}

//! Marks put at several nodes, or at none for want of memory.
ghost use Rattle.std.specs.Prelude.{◌≡◌, ◌≤◌, ◌∷◌, [], IfOk, OnErr, OnOk, length, map, take};
ghost use Rattle.sn_model.specs.declared.run.Run.{Run};
ghost use Rattle.sn_view.specs.Next.{send};
ghost use Rattle.sn_view.specs.View.{Mark, ToNode, View, at_node, rest_of};
ghost use Rattle.sn_node.specs.Child.{child_of};
ghost use Rattle.sn_node.specs.Unwaited.{without_last};
ghost use Rattle.sn_graph.specs.Arena.{IsOf, view_of};
ghost use Rattle.sn_graph.specs.Broadcast.{marked_all};
ghost use Rattle.sn_graph.specs.Quiet.{IsQuiet};

use crate::arena::Arena;
use sn_list::Memory;
use sn_node::{Children, Entry, Target};
use std::alloc::Global;

/// The nodes at which items of the children other than child 0 come in.
pub(crate) fn entries_of(alloc: Global, children: &Children) -> Result<Vec<usize>, Memory>
    ensures { IfOk result (λ entries. entries.items ≡ map (λ child. child.entry) (rest_of (map child_of children.now.list.items))) }
{
    let mut entries = Vec::new(alloc);
    for c in 1..children.list.len() {
        entries.push(children.list[c].entry)?;
    }
    Ok(entries)
}

impl Arena {
    /// Puts a mark at a node.
    fn send_mark(&mut self, entry: usize) -> Result<(), Memory>
        ensures ok { OnOk result (view_of self.new ≡ send (ToNode entry) (Mark ∷ []) (view_of self.old)) }
        ensures err { OnErr result (view_of self.new ≡ view_of self.old) }
        ensures of { (run : Run) → IsOf self.old run → IsOf self.new run }
        ensures quiet { IsQuiet self.old self.new }
    {
        self.reserve(Target::Node(entry), 1)?;
        self.send(Target::Node(entry), Entry::Mark);
        Ok(())
    }

    /// Takes the entry away that was put last at a node.
    fn unsend(&mut self, entry: usize)
        ensures view { view_of self.new ≡ at_node entry without_last (view_of self.old) }
        ensures of { (run : Run) → IsOf self.old run → IsOf self.new run }
        ensures quiet { IsQuiet self.old self.new }
    {
        if entry < self.nodes.len() {
            self.nodes[entry].unwait();
        }
    }

    /// Takes the marks away that were put last at the first of these nodes, from the last to the first.
    pub(crate) fn unsend_marks(&mut self, entries: &[usize], n: usize)
        requires { n ≤ length entries.now }
        ensures view { (g : View) → view_of self.old ≡ marked_all (take n entries.now) g → view_of self.new ≡ g }
        ensures of { (run : Run) → IsOf self.old run → IsOf self.new run }
        ensures quiet { IsQuiet self.old self.new }
    {
        let mut k = n;
        while k > 0 {
            k -= 1;
            self.unsend(entries[k]);
        }
    }

    /// Puts a mark at each of the nodes. For want of memory nothing has changed.
    pub(crate) fn send_marks(&mut self, entries: &[usize]) -> Result<(), Memory>
        ensures ok { OnOk result (view_of self.new ≡ marked_all entries.now (view_of self.old)) }
        ensures err { OnErr result (view_of self.new ≡ view_of self.old) }
        ensures of { (run : Run) → IsOf self.old run → IsOf self.new run }
        ensures quiet { IsQuiet self.old self.new }
    {
        for k in 0..entries.len() {
            if let Err(memory) = self.send_mark(entries[k]) {
                self.unsend_marks(entries, k);
                return Err(memory);
            }
        }
        Ok(())
    }
}

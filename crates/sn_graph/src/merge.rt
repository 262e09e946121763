//! What waits of a child's output, merged and sent on.
ghost use Rattle.std.specs.Prelude.{◌≡◌, IfOk, OnErr, Some, if◌then◌else◌, slice_get};
ghost use Rattle.sn_model.specs.declared.run.Run.{Run};
ghost use Rattle.sn_node.specs.declared.node.Node.{Node};
ghost use Rattle.sn_view.specs.Next.{after, enabled};
ghost use Rattle.sn_view.specs.View.{Merge};
ghost use Rattle.sn_graph.specs.Arena.{IsOf, view_of};
ghost use Rattle.sn_graph.specs.Quiet.{IsQuiet};
ghost use Rattle.sn_graph.specs.Room.{written};

use crate::arena::Arena;
use sn_list::Memory;
use sn_node::Merged;

impl Arena {
    /// Whether something of a child may be merged.
    pub(crate) fn may_merge(&self, i: usize, c: usize) -> bool
        ensures { result ≡ enabled (view_of self.now) (Merge i c) }
    {
        if i >= self.nodes.len() {
            return false;
        }
        self.nodes[i].may_merge(c)
    }

    /// Moves one item, mark or end of a child into the merge, and tells whether there was one whose turn it was. The dispatcher does not
    /// send to itself.
    pub(crate) fn merge(&mut self, i: usize, c: usize) -> Result<bool, Memory>
        requires apart { (n : Node) → slice_get self.old.nodes.items i ≡ Some n → (written n.made.goes ≡ Some i) → ⊥ }
        ensures enabled { IfOk result (λ moved. moved ≡ enabled (view_of self.old) (Merge i c)) }
        ensures after { IfOk result (λ moved. view_of self.new ≡ (if moved then after (view_of self.old) (Merge i c) else view_of self.old)) }
        ensures err { OnErr result (view_of self.new ≡ view_of self.old) }
        ensures of { (run : Run) → IsOf self.old run → IsOf self.new run }
        ensures quiet { IsQuiet self.old self.new }
    {
        if i >= self.nodes.len() {
            return Ok(false);
        }
        if !self.nodes[i].may_merge(c) {
            return Ok(false);
        }
        let goes = self.nodes[i].made.goes;
        self.reserve(goes, 1)?;
        match self.nodes[i].merge(c) {
            Merged::No => Ok(false),
            Merged::Nothing => Ok(true),
            Merged::Gives(entry) => {
                self.send(goes, entry);
                Ok(true)
            }
        }
    }
}

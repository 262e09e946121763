//! Children that are made when they are needed.
ghost use Rattle.std.specs.Prelude.{◌≡◌, ◌+◌, ◌<◌, ◌≤◌, IfOk, MatchOption, None, OnErr, OnOk, Some, false, length, map, slice_get, if◌then◌else◌};
ghost use Rattle.std.specs.List.{All};
ghost use Rattle.sn_net.specs.Dispatchers.{stream_key};
ghost use Rattle.sn_model.specs.declared.run.Run.{Run};
ghost use Rattle.sn_node.specs.Seen.{node_of};
ghost use Rattle.sn_node.specs.declared.node.Node.{Node};
ghost use Rattle.sn_view.specs.Next.{after, child_of, enabled};
ghost use Rattle.sn_view.specs.View.{Unfold};
ghost use Rattle.sn_graph.specs.Arena.{IsOf, view_of};
ghost use Rattle.sn_graph.specs.Grown.{IsOfRun};
ghost use Rattle.sn_graph.specs.Quiet.{IsQuiet};
ghost use Rattle.sn_graph.specs.Unfolds.{Lacks, adopted};

use crate::arena::Arena;
use crate::grow::{NewNodes, sum};
use crate::grow_child::grow_child;
use sn_list::Memory;
use sn_model::Run;
use sn_net::Key;
use sn_node::Node;
use std::alloc::Global;

impl Arena {
    /// The key of the child that the first entry of the dispatcher at a node needs and that is not there.
    fn missing_child(&self, run: &Run, i: usize) -> Option<Key>
        requires { IsOf self.now run.now }
        ensures { MatchOption result (enabled (view_of self.now) (Unfold i) ≡ false) (Lacks self.now run.now i) }
    {
        if i >= self.nodes.len() {
            return None;
        }
        let node = &self.nodes[i];
        let Some(key) = node.next_key(run) else {
            return None;
        };
        if !node.is_fork() {
            return None;
        }
        if node.children.number_of(key).is_some() {
            return None;
        }
        Some(key)
    }

    /// Whether the first entry of the dispatcher at a node needs a child that is not there.
    pub(crate) fn may_unfold(&self, run: &Run, i: usize) -> bool
        requires { IsOf self.now run.now }
        ensures { result ≡ enabled (view_of self.now) (Unfold i) }
    {
        self.missing_child(run, i).is_some()
    }

    /// Makes the child that the first entry of the dispatcher at a node needs, and tells whether it needs one that is not there.
    pub(crate) fn unfold(&mut self, alloc: Global, run: &Run, i: usize) -> Result<bool, Memory>
        requires { IsOf self.old run.now }
        ensures enabled { IfOk result (λ moved. moved ≡ enabled (view_of self.old) (Unfold i)) }
        ensures after { IfOk result (λ moved. view_of self.new ≡ (if moved then after (view_of self.old) (Unfold i) else view_of self.old)) }
        ensures err { OnErr result (view_of self.new ≡ view_of self.old) }
        ensures of { IsOf self.new run.now }
        ensures places { self.new.places ≡ self.old.places }
        ensures stack { self.new.agenda.stack.items ≡ self.old.agenda.stack.items }
        ensures bound { length self.old.nodes.items ≤ length self.old.agenda.listed.items → length self.new.nodes.items ≤ length self.new.agenda.listed.items }
    {
        let Some(key) = self.missing_child(run, i) else {
            return Ok(false);
        };
        let entry = self.nodes.len();
        let mut grown = NewNodes::new(alloc, entry);
        grow_child(alloc, run, &mut grown, i, &self.nodes[i], key)?;
        self.agenda.reach(grown.next()?)?;
        let NewNodes { base: _, nodes } = grown;
        self.adopt(alloc, i, key, nodes)?;
        Ok(true)
    }

    /// Puts the nodes of a new child of the dispatcher at `i` behind the others, and adds the child. For want of memory all is as it was.
    fn adopt(
        &mut self,
        alloc: Global,
        i: usize,
        key: Key,
        mut nodes: Vec<Node>,
    ) -> Result<(), Memory>
        requires within { i < length self.old.nodes.items }
        requires none { (n : Node) → slice_get self.old.nodes.items i ≡ Some n → child_of (node_of n).children (stream_key key) ≡ None }
        ensures ok { OnOk result (view_of self.new ≡ adopted i (stream_key key) (map node_of nodes.items) (view_of self.old)) }
        ensures err { OnErr result (view_of self.new ≡ view_of self.old) }
        ensures of { (run : Run) → All (IsOfRun run) nodes.items → IsOf self.old run → IsOf self.new run }
        ensures quiet { IsQuiet self.old self.new }
        ensures long { OnOk result (length self.new.nodes.items ≡ length self.old.nodes.items + length nodes.items) }
        ensures short { OnErr result (length self.new.nodes.items ≡ length self.old.nodes.items) }
    {
        let entry = self.nodes.len();
        self.nodes.append(&mut nodes)?;
        match self.nodes[i].add_child(alloc, key, entry) {
            Ok(()) => Ok(()),
            Err(memory) => {
                self.nodes.truncate(entry);
                Err(memory)
            }
        }
    }
}

//! One entry through a component, and on to where it sends it.
ghost use Rattle.std.specs.Prelude.{◌≡◌, ◌≢◌, ◌<◌, IfOk, OnErr, Some, if◌then◌else◌, length, slice_get};
ghost use Rattle.sn_model.specs.declared.run.Run.{Run};
ghost use Rattle.sn_view.specs.View.{Local};
ghost use Rattle.sn_view.specs.Next.{after, enabled};
ghost use Rattle.sn_node.specs.Local.{given_of};
ghost use Rattle.sn_node.specs.declared.node.Node.{Node};
ghost use Rattle.sn_graph.specs.Arena.{IsOf, view_of};
ghost use Rattle.sn_graph.specs.Local.{CountsAt, GivesAt, HasRouteAt};
ghost use Rattle.sn_graph.specs.Quiet.{IsQuiet};
ghost use Rattle.sn_graph.specs.Room.{written};

use crate::arena::Arena;
use sn_list::Memory;
use sn_model::Run;
use sn_node::{Given, Passing};
use std::alloc::Global;

impl Arena {
    /// Whether the box, filter or synchrocell at a node may pass its first entry on. It wants no memory.
    pub(crate) fn may_local(&self, run: &Run, i: usize) -> bool
        requires { IsOf self.now run.now }
        ensures { result ≡ enabled (view_of self.now) (Local i) }
    {
        if i >= self.nodes.len() {
            return false;
        }
        self.nodes[i].may_pass(run)
    }

    /// Passes the first entry of a node on, where it is known what is given for it.
    fn local_given(&mut self, i: usize, given: Given) -> Result<bool, Memory>
        requires within { i < length self.old.nodes.items }
        requires gives { GivesAt i (view_of self.old) (given_of given) }
        requires apart { (n : Node) → slice_get self.old.nodes.items i ≡ Some n → written n.made.goes ≢ Some i }
        ensures enabled { IfOk result (λ moved. moved ≡ enabled (view_of self.old) (Local i)) }
        ensures after { IfOk result (λ moved. view_of self.new ≡ (if moved then after (view_of self.old) (Local i) else view_of self.old)) }
        ensures err { OnErr result (view_of self.new ≡ view_of self.old) }
        ensures of { (run : Run) → IsOf self.old run → IsOf self.new run }
        ensures quiet { IsQuiet self.old self.new }
    {
        let goes = self.nodes[i].made.goes;
        self.reserve(goes, given.len())?;
        let _passed = self.nodes[i].pop();
        self.send_given(goes, given);
        Ok(true)
    }

    /// The same where it is known how many entries are given at most.
    fn local_counted(
        &mut self,
        alloc: Global,
        run: &Run,
        i: usize,
        most: usize,
    ) -> Result<bool, Memory>
        requires within { i < length self.old.nodes.items }
        requires of { IsOf self.old run.now }
        requires routed { HasRouteAt i (view_of self.old) }
        requires counts { CountsAt i (view_of self.old) most }
        requires apart { (n : Node) → slice_get self.old.nodes.items i ≡ Some n → written n.made.goes ≢ Some i }
        ensures enabled { IfOk result (λ moved. moved ≡ enabled (view_of self.old) (Local i)) }
        ensures after { IfOk result (λ moved. view_of self.new ≡ (if moved then after (view_of self.old) (Local i) else view_of self.old)) }
        ensures err { OnErr result (view_of self.new ≡ view_of self.old) }
        ensures of { IsOf self.new run.now }
        ensures quiet { IsQuiet self.old self.new }
    {
        let goes = self.nodes[i].made.goes;
        self.reserve(goes, most)?;
        match self.nodes[i].pass(alloc, run)? {
            Some(given) => {
                self.send_given(goes, given);
                Ok(true)
            }
            None => Ok(false),
        }
    }

    /// Moves one entry through the box, filter or synchrocell at a node, and tells whether there was one that may. It has a route there,
    /// and the node does not send to itself. For want of memory nothing has changed.
    pub(crate) fn local(&mut self, alloc: Global, run: &Run, i: usize) -> Result<bool, Memory>
        requires of { IsOf self.old run.now }
        requires routed { HasRouteAt i (view_of self.old) }
        requires apart { (n : Node) → slice_get self.old.nodes.items i ≡ Some n → written n.made.goes ≢ Some i }
        ensures enabled { IfOk result (λ moved. moved ≡ enabled (view_of self.old) (Local i)) }
        ensures after { IfOk result (λ moved. view_of self.new ≡ (if moved then after (view_of self.old) (Local i) else view_of self.old)) }
        ensures err { OnErr result (view_of self.new ≡ view_of self.old) }
        ensures of { IsOf self.new run.now }
        ensures quiet { IsQuiet self.old self.new }
    {
        if i >= self.nodes.len() {
            return Ok(false);
        }
        match self.nodes[i].passing(alloc, run)? {
            Passing::Nothing => Ok(false),
            Passing::Given(given) => self.local_given(i, given),
            Passing::Count(most) => self.local_counted(alloc, run, i, most),
        }
    }
}

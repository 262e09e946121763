//! The first entry of a dispatcher, sent to a child or past all.
ghost use Rattle.std.specs.Prelude.{◌≡◌, ◌<◌, ◌^◌, ◌∷◌, [], IfOk, IfSome, MatchOption, OnErr, OnOk, false, length, true, if◌then◌else◌};
ghost use Rattle.sn_net.specs.Item.{modelled};
ghost use Rattle.sn_model.specs.declared.run.Run.{Run};
ghost use Rattle.sn_view.specs.Next.{after, enabled, node_at, send};
ghost use Rattle.sn_view.specs.View.{It, Mark, Route, ToNode};
ghost use Rattle.sn_node.specs.RoutesFreely.{marks_below};
ghost use Rattle.sn_node.specs.States.{is_freely, is_in_turn};
ghost use Rattle.sn_node.specs.declared.node.Target.TheVariants as target;
ghost use Rattle.sn_graph.specs.Arena.{IsOf, view_of};
ghost use Rattle.sn_graph.specs.Quiet.{IsQuiet};
ghost use Rattle.sn_graph.specs.Room.{HasRoom};
ghost use Rattle.sn_graph.specs.Ways.{ComesInElsewhere, Goes, HasNoMark, IsRoutedAt, OwnIsFirst, is_mark_at};

use crate::arena::Arena;
use crate::broadcast::entries_of;
use sn_list::Memory;
use sn_model::Run;
use sn_net::Key;
use sn_node::{Entry, Sent, State, Target};
use sn_record::Item;
use std::alloc::Global;

/// Where the first entry of a dispatcher goes.
#[derive(Clone, Copy)]
pub(crate) struct Way {
    pub(crate) key: Key,
    /// The number of the child of the key.
    pub(crate) child: usize,
    /// The node at which the child's items come in.
    pub(crate) entry: usize,
}

impl Arena {
    /// Where the first entry of the dispatcher at a node goes, if its child is there.
    pub(crate) fn way(&self, run: &Run, i: usize) -> Option<Way>
        requires { IsOf self.now run.now }
        ensures { MatchOption result (enabled (view_of self.now) (Route i) ≡ false) (Goes (view_of self.now) i) }
    {
        if i >= self.nodes.len() {
            return None;
        }
        let node = &self.nodes[i];
        let Some(key) = node.next_key(run) else {
            return None;
        };
        if !node.is_fork() {
            return None;
        }
        let Some(child) = node.children.number_of(key) else {
            return None;
        };
        let entry = node.children.list[child].entry;
        Some(Way { key, child, entry })
    }

    /// Whether the first entry of the dispatcher at a node may be sent.
    pub(crate) fn may_route(&self, run: &Run, i: usize) -> bool
        requires { IsOf self.now run.now }
        ensures { result ≡ enabled (view_of self.now) (Route i) }
    {
        self.way(run, i).is_some()
    }

    /// Makes room for so many entries at a child, if it is not child 0. Nothing that waits changes, whether there is memory or not.
    fn reserve_way(&mut self, child: usize, entry: usize, n: usize) -> Result<(), Memory>
        ensures view { view_of self.new ≡ view_of self.old }
        ensures room { OnOk result (0 < child → HasRoom (target.Node entry) n self.new) }
        ensures of { (run : Run) → IsOf self.old run → IsOf self.new run }
        ensures quiet { IsQuiet self.old self.new }
    {
        if child == 0 {
            return Ok(());
        }
        self.reserve(Target::Node(entry), n)
    }

    /// Puts an item and the mark of its group at a node, for which there is room.
    fn send_group(&mut self, entry: usize, item: Item)
        requires { HasRoom (target.Node entry) 2 self.old }
        ensures view { view_of self.new ≡ send (ToNode entry) (It (modelled item) ∷ Mark ∷ []) (view_of self.old) }
        ensures of { (run : Run) → IsOf self.old run → IsOf self.new run }
        ensures quiet { IsQuiet self.old self.new }
    {
        self.send(Target::Node(entry), Entry::Item(item));
        self.send(Target::Node(entry), Entry::Mark);
    }

    /// Sends the first entry of the deterministic dispatcher at a node, and tells whether it may. For want of memory nothing has changed.
    pub(crate) fn route_in_turn(&mut self, run: &Run, i: usize) -> Result<bool, Memory>
        requires of { IsOf self.old run.now }
        requires in_turn { IfSome (node_at i (view_of self.old)) (λ n. is_in_turn n.state ≡ true) }
        requires routed { IsRoutedAt i (view_of self.old) }
        requires own { OwnIsFirst i (view_of self.old) }
        requires doors { ComesInElsewhere i (view_of self.old) }
        ensures enabled { IfOk result (λ moved. moved ≡ enabled (view_of self.old) (Route i)) }
        ensures after { IfOk result (λ moved. view_of self.new ≡ (if moved then after (view_of self.old) (Route i) else view_of self.old)) }
        ensures err { OnErr result (view_of self.new ≡ view_of self.old) }
        ensures of { IsOf self.new run.now }
        ensures quiet { IsQuiet self.old self.new }
    {
        let Some(way) = self.way(run, i) else {
            return Ok(false);
        };
        self.reserve_way(way.child, way.entry, 2)?;
        let Some(item) = self.nodes[i].route_in_turn(way.key)? else {
            return Ok(true);
        };
        self.send_group(way.entry, item);
        Ok(true)
    }

    /// Sends the first entry of the free dispatcher at a node, which is no mark. For want of memory nothing has changed.
    fn route_past(&mut self, i: usize, way: Way) -> Result<(), Memory>
        requires goes { Goes (view_of self.old) i way }
        requires free { IfSome (node_at i (view_of self.old)) (λ n. is_freely n.state ≡ true) }
        requires few { IfSome (node_at i (view_of self.old)) (λ n. marks_below (2 ^ 62) n.state) }
        requires no_mark { HasNoMark i (view_of self.old) }
        requires routed { IsRoutedAt i (view_of self.old) }
        requires own { OwnIsFirst i (view_of self.old) }
        requires doors { ComesInElsewhere i (view_of self.old) }
        ensures after { OnOk result (view_of self.new ≡ after (view_of self.old) (Route i)) }
        ensures err { OnErr result (view_of self.new ≡ view_of self.old) }
        ensures of { (run : Run) → IsOf self.old run → IsOf self.new run }
        ensures quiet { IsQuiet self.old self.new }
    {
        self.reserve_way(way.child, way.entry, 1)?;
        match self.nodes[i].route_free(way.key)? {
            Sent::Nothing => Ok(()),
            Sent::Item(item) => {
                self.send(Target::Node(way.entry), Entry::Item(item));
                Ok(())
            }
            Sent::Marks => unreachable!(),
        }
    }

    /// Whether the first entry of a node is a mark.
    pub(crate) fn has_mark_first(&self, i: usize) -> bool
        requires { i < length self.now.nodes.items }
        ensures { result ≡ is_mark_at i (view_of self.now) }
    {
        match self.nodes[i].first_plain() {
            Some(Entry::Mark) => true,
            Some(Entry::Item(_)) => false,
            Some(Entry::End) => false,
            None => false,
        }
    }

    /// Sends the first entry of the free dispatcher at a node, which is a mark. For want of memory nothing has changed: the marks that were
    /// put already are taken away again.
    fn route_mark(&mut self, alloc: Global, i: usize, way: Way) -> Result<(), Memory>
        requires goes { Goes (view_of self.old) i way }
        requires free { IfSome (node_at i (view_of self.old)) (λ n. is_freely n.state ≡ true) }
        requires few { IfSome (node_at i (view_of self.old)) (λ n. marks_below (2 ^ 62) n.state) }
        requires mark { is_mark_at i (view_of self.old) ≡ true }
        requires routed { IsRoutedAt i (view_of self.old) }
        requires own { OwnIsFirst i (view_of self.old) }
        requires doors { ComesInElsewhere i (view_of self.old) }
        ensures after { OnOk result (view_of self.new ≡ after (view_of self.old) (Route i)) }
        ensures err { OnErr result (view_of self.new ≡ view_of self.old) }
        ensures of { (run : Run) → IsOf self.old run → IsOf self.new run }
        ensures quiet { IsQuiet self.old self.new }
    {
        let entries = entries_of(alloc, &self.nodes[i].children)?;
        self.send_marks(entries.as_slice())?;
        match self.nodes[i].route_free(way.key) {
            Ok(_sent) => Ok(()),
            Err(memory) => {
                self.unsend_marks(entries.as_slice(), entries.len());
                Err(memory)
            }
        }
    }

    /// Sends the first entry of the free dispatcher at a node, and tells whether it may. For want of memory nothing has changed.
    fn route_freely(&mut self, alloc: Global, run: &Run, i: usize) -> Result<bool, Memory>
        requires of { IsOf self.old run.now }
        requires free { IfSome (node_at i (view_of self.old)) (λ n. is_freely n.state ≡ true) }
        requires few { IfSome (node_at i (view_of self.old)) (λ n. marks_below (2 ^ 62) n.state) }
        requires routed { IsRoutedAt i (view_of self.old) }
        requires own { OwnIsFirst i (view_of self.old) }
        requires doors { ComesInElsewhere i (view_of self.old) }
        ensures enabled { IfOk result (λ moved. moved ≡ enabled (view_of self.old) (Route i)) }
        ensures after { IfOk result (λ moved. view_of self.new ≡ (if moved then after (view_of self.old) (Route i) else view_of self.old)) }
        ensures err { OnErr result (view_of self.new ≡ view_of self.old) }
        ensures of { IsOf self.new run.now }
        ensures quiet { IsQuiet self.old self.new }
    {
        let Some(way) = self.way(run, i) else {
            return Ok(false);
        };
        if self.has_mark_first(i) {
            self.route_mark(alloc, i, way)?;
        } else {
            self.route_past(i, way)?;
        }
        Ok(true)
    }

    /// Sends the first entry of the dispatcher at a node, and tells whether it may. For want of memory nothing has changed.
    pub(crate) fn route(&mut self, alloc: Global, run: &Run, i: usize) -> Result<bool, Memory>
        requires of { IsOf self.old run.now }
        requires few { IfSome (node_at i (view_of self.old)) (λ n. marks_below (2 ^ 62) n.state) }
        requires routed { IsRoutedAt i (view_of self.old) }
        requires own { OwnIsFirst i (view_of self.old) }
        requires doors { ComesInElsewhere i (view_of self.old) }
        ensures enabled { IfOk result (λ moved. moved ≡ enabled (view_of self.old) (Route i)) }
        ensures after { IfOk result (λ moved. view_of self.new ≡ (if moved then after (view_of self.old) (Route i) else view_of self.old)) }
        ensures err { OnErr result (view_of self.new ≡ view_of self.old) }
        ensures of { IsOf self.new run.now }
        ensures quiet { IsQuiet self.old self.new }
    {
        if i >= self.nodes.len() {
            return Ok(false);
        }
        match self.nodes[i].state {
            State::Freely(_) => self.route_freely(alloc, run, i),
            State::InTurn(_) => self.route_in_turn(run, i),
            State::Alone => Ok(false),
            State::Cell(_) => Ok(false),
        }
    }
}

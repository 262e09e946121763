//! The nodes that an event writes to, listed so that what may happen next is found there.
ghost use Rattle.std.specs.Prelude.{◌≡◌, ◌^◌, ◌<◌, Some, length, map, slice_get, suc, true, ℕ};
ghost use Rattle.sn_record.specs.Record.{Entries};
ghost use Rattle.sn_view.specs.Calls.{Flies};
ghost use Rattle.sn_view.specs.Chains.{Comes};
ghost use Rattle.sn_view.specs.Touched.{is_sent_to};
ghost use Rattle.sn_view.specs.View as view;
ghost use Rattle.sn_node.specs.Agenda.{is_listed};
ghost use Rattle.sn_node.specs.Child.{child_of};
ghost use Rattle.sn_node.specs.Seen.{target_of};
ghost use Rattle.sn_graph.specs.Arena.{IsOf, view_of};
ghost use Rattle.sn_graph.specs.Event.{Applies, IsEventOf, happening_of};
ghost use Rattle.sn_graph.specs.Listed.{HasListed, IsListed, IsNoted, OnlyLists, broadcasts_at};
ghost use Rattle.sn_graph.specs.Tabled.{IsTabled};

use crate::arena::Arena;
use crate::event::{ApplyFault, Effect, Event};
use sn_model::Run;
use sn_node::{Agenda, Children, State, Target};
use std::alloc::Global;

/// Lists the nodes at which items of the children other than child 0 come in.
fn list_entries(agenda: &mut Agenda, children: &Children)
    ensures listed { (c : ℕ) (child : view.Child) → slice_get (map child_of children.now.list.items) (suc c) ≡ Some child → child.entry < length agenda.new.listed.items → is_listed child.entry agenda.new.stack.items ≡ true }
    ensures others { (j : ℕ) → is_listed j agenda.old.stack.items ≡ true → is_listed j agenda.new.stack.items ≡ true }
    ensures bound { length agenda.new.listed.items ≡ length agenda.old.listed.items }
{
    for c in 1..children.list.len() {
        agenda.list_if_below(children.list[c].entry);
    }
}

impl Arena {
    /// Lists a node, if there is room for it.
    fn list(&mut self, i: usize)
        ensures only { OnlyLists self.old self.new }
        ensures listed { HasListed i self.new }
    {
        self.agenda.list_if_below(i);
    }

    /// Lists the node that is written to by what is sent there.
    fn list_target(&mut self, goes: Target)
        ensures only { OnlyLists self.old self.new }
        ensures listed { (j : ℕ) → is_sent_to (target_of goes) j ≡ true → HasListed j self.new }
    {
        match goes {
            Target::Out => {}
            Target::Node(node) => self.list(node),
            Target::Child { node, child: _ } => self.list(node),
        }
    }

    /// Lists a node, and that to which it sends.
    fn list_sent(&mut self, i: usize)
        ensures only { OnlyLists self.old self.new }
        ensures local { IsNoted (view.Local i) self.new }
        ensures merge { (c : ℕ) → IsNoted (view.Merge i c) self.new }
    {
        if i >= self.nodes.len() {
            return;
        }
        let goes = self.nodes[i].made.goes;
        self.list(i);
        self.list_target(goes);
    }

    /// Whether the first entry at a node is a mark that goes to all children.
    fn broadcasts(&self, i: usize) -> bool
        requires { i < length self.now.nodes.items }
        ensures { result ≡ broadcasts_at i (view_of self.now) }
    {
        match self.nodes[i].state {
            State::Freely(_) => self.has_mark_first(i),
            State::Alone | State::Cell(_) | State::InTurn(_) => false,
        }
    }

    /// Lists the nodes at which items of a dispatcher's children come in, but for child 0.
    fn list_children(&mut self, i: usize)
        requires { i < length self.old.nodes.items }
        ensures only { OnlyLists self.old self.new }
        ensures listed { (n : view.Node) (c : ℕ) (child : view.Child) → slice_get (view_of self.new).nodes i ≡ Some n → slice_get n.children (suc c) ≡ Some child → HasListed child.entry self.new }
    {
        list_entries(&mut self.agenda, &self.nodes[i].children);
    }

    /// Lists a dispatcher, and where its first entry goes.
    fn list_routed(&mut self, run: &Run, i: usize)
        requires { IsOf self.old run.now }
        ensures only { OnlyLists self.old self.new }
        ensures noted { IsNoted (view.Route i) self.new }
    {
        let Some(way) = self.way(run, i) else {
            return;
        };
        self.list(i);
        self.list(way.entry);
        if self.broadcasts(i) {
            self.list_children(i);
        }
    }

    /// Lists the node at which a call is in flight.
    fn list_called(&mut self, call: u64)
        requires { IsTabled self.old }
        ensures only { OnlyLists self.old self.new }
        ensures listed { (j : ℕ) (given : Entries) → Flies (view_of self.new) j call given → HasListed j self.new }
    {
        let Some(place) = self.places.get(&call) else {
            return;
        };
        let node = place.node;
        self.list(node);
    }

    /// Lists the nodes that an event writes to, if it may happen.
    fn note(&mut self, run: &Run, event: &Event)
        requires of { IsOf self.old run.now }
        requires tabled { IsTabled self.old }
        ensures only { OnlyLists self.old self.new }
        ensures noted { IsNoted (happening_of event.now) self.new }
    {
        match event {
            Event::Take => self.list(0),
            Event::Start { node } => self.list(*node as usize),
            Event::Finish { done } => self.list_called(done.job().call),
            Event::Local { node } => self.list_sent(*node as usize),
            Event::Route { node } => self.list_routed(run, *node as usize),
            Event::Unfold { node } => self.list(*node as usize),
            Event::Merge { node, child: _ } => self.list_sent(*node as usize),
            Event::Emit => {}
        }
    }

    /// An event, if it may happen. Else, or for want of memory, it comes back, and nothing has changed. The nodes that it writes to are
    /// listed before.
    pub(crate) fn apply(
        &mut self,
        alloc: Global,
        run: &Run,
        event: Event,
    ) -> Result<Effect, ApplyFault>
        requires of { IsOf self.old run.now }
        requires came { ∥ Comes run.now (view_of self.old) ∥₁ }
        requires few { self.old.applied < 2 ^ 62 }
        requires tabled { IsTabled self.old }
        requires listed { IsListed self.old }
        requires done { IsEventOf run.now event }
        ensures applies { Applies run.now event (view_of self.old) result (view_of self.new) }
        ensures tabled { IsTabled self.new }
        ensures listed { IsListed self.new }
        ensures of { IsOf self.new run.now }
    {
        self.note(run, &event);
        self.happen(alloc, run, event)
    }
}

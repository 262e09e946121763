//! What may happen next.
ghost use Rattle.std.specs.Prelude.{◌≡◌, IfNone, IfSome, None, Some, false, map, slice_get, true, ℕ};
ghost use Rattle.sn_streams.specs.Keys.{AreDistinct};
ghost use Rattle.sn_view.specs.Chains.{Comes};
ghost use Rattle.sn_view.specs.Next.{enabled};
ghost use Rattle.sn_view.specs.Touched.{happens_at};
ghost use Rattle.sn_view.specs.View as view;
ghost use Rattle.sn_graph.specs.Arena.{IsOf, view_of};
ghost use Rattle.sn_graph.specs.Event.{happening_of};
ghost use Rattle.sn_graph.specs.Listed.{IsListed, with_agenda};

use crate::arena::Arena;
use crate::event::Event;
use sn_model::Run;

impl Arena {
    /// A child of the dispatcher at a node of which something may be merged.
    fn child_to_merge(&self, i: usize) -> Option<usize>
        requires { (n : view.Node) → slice_get (view_of self.now).nodes i ≡ Some n → AreDistinct (map (λ child. child.key) n.children) }
        ensures some { IfSome result (λ c. enabled (view_of self.now) (view.Merge i c) ≡ true) }
        ensures none { IfNone result ((c : ℕ) → enabled (view_of self.now) (view.Merge i c) ≡ false) }
    {
        if i >= self.nodes.len() {
            return None;
        }
        self.nodes[i].next_merge()
    }

    /// What may happen at a node, where something may.
    fn event_at(&self, run: &Run, i: usize) -> Option<Event>
        requires of { IsOf self.now run.now }
        requires came { ∥ Comes run.now (view_of self.now) ∥₁ }
        ensures some { IfSome result (λ e. (happens_at (happening_of e) ≡ Some i) × (enabled (view_of self.now) (happening_of e) ≡ true)) }
        ensures none { IfNone result ((e : view.Happening) → happens_at e ≡ Some i → enabled (view_of self.now) e ≡ false) }
    {
        let node = i as u64;
        if self.may_start(run, i) {
            return Some(Event::Start { node });
        }
        if self.may_local(run, i) {
            return Some(Event::Local { node });
        }
        if self.may_route(run, i) {
            return Some(Event::Route { node });
        }
        if self.may_unfold(run, i) {
            return Some(Event::Unfold { node });
        }
        let child = self.child_to_merge(i)? as u64;
        Some(Event::Merge { node, child })
    }

    /// Whether something may happen at a node.
    fn is_busy(&self, run: &Run, i: usize) -> bool
        requires of { IsOf self.now run.now }
        requires came { ∥ Comes run.now (view_of self.now) ∥₁ }
        ensures { result ≡ false → (e : view.Happening) → happens_at e ≡ Some i → enabled (view_of self.now) e ≡ false }
    {
        self.event_at(run, i).is_some()
    }

    /// Takes nodes off the end of what is listed, up to one at which something may happen.
    pub(crate) fn settle(&mut self, run: &Run)
        requires of { IsOf self.old run.now }
        requires came { ∥ Comes run.now (view_of self.old) ∥₁ }
        requires listed { IsListed self.old }
        ensures same { self.new ≡ with_agenda self.new.agenda self.old }
        ensures listed { IsListed self.new }
    {
        while let Some(i) = self.agenda.pop() {
            if self.is_busy(run, i) {
                self.agenda.list_if_below(i);
                return;
            }
        }
    }

    /// What may happen at the node that was listed last of those at which something may. Behind each event that is the last one.
    fn listed_event(&self, run: &Run) -> Option<Event>
        requires of { IsOf self.now run.now }
        requires came { ∥ Comes run.now (view_of self.now) ∥₁ }
        requires listed { IsListed self.now }
        ensures some { IfSome result (λ e. enabled (view_of self.now) (happening_of e) ≡ true) }
        ensures none { IfNone result ((e : view.Happening) (i : ℕ) → happens_at e ≡ Some i → enabled (view_of self.now) e ≡ false) }
    {
        let listed = self.agenda.as_slice();
        let mut k = listed.len();
        while k > 0 {
            k -= 1;
            if let Some(event) = self.event_at(run, listed[k]) {
                return Some(event);
            }
        }
        None
    }

    /// What may happen, but for answers to calls: what is ready leaves, then what waits at nodes moves on, and then more comes in.
    pub(crate) fn next_event(&self, run: &Run) -> Option<Event>
        requires of { IsOf self.now run.now }
        requires came { ∥ Comes run.now (view_of self.now) ∥₁ }
        requires listed { IsListed self.now }
        ensures some { IfSome result (λ e. enabled (view_of self.now) (happening_of e) ≡ true) }
        ensures none { IfNone result ((e : view.Happening) → enabled (view_of self.now) e ≡ false) }
    {
        if self.may_emit() {
            return Some(Event::Emit);
        }
        if let Some(event) = self.listed_event(run) {
            return Some(event);
        }
        if self.may_take(run) {
            return Some(Event::Take);
        }
        None
    }
}

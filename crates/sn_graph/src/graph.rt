//! A graph as its owner has it.
ghost use Rattle.sn_view.specs.Chains.{Comes};
ghost use Rattle.std.specs.List.{All};
ghost use Rattle.sn_graph.specs.Arena.{view_of};
ghost use Rattle.sn_graph.specs.Grown.{IsOfRun};
ghost use Rattle.sn_graph.specs.Listed.{IsListed};
ghost use Rattle.sn_graph.specs.Once.{nodes_once};
ghost use Rattle.sn_graph.specs.Tabled.{IsTabled};

use crate::arena::Arena;
use crate::event::{ApplyFault, Effect, Event};
use sn_list::Memory;
use sn_model::{Run, Trail};
use sn_record::Items;
use std::alloc::Global;

/// What a run has come to by events, each of which could happen.
pub struct Graph {
    arena: Arena,
    pub ghost came: { ∥ Comes arena.run.value (view_of arena) ∥₁ },
    pub ghost of: { All (IsOfRun arena.run.value) arena.nodes.items } by { nodes_once _ _ },
    pub ghost tabled: { IsTabled arena },
    pub ghost listed: { IsListed arena },
}

/// Written out, so that a function that gives a graph up calls this, and is not proved over its arena.
impl Drop for Graph {
    fn drop(self) {
        let Graph { arena: _arena } = self;
    }
}

impl Graph {
    ghost use Rattle.std.specs.Prelude.{◌≡◌, ◌<◌, ◌^◌, ◌↔◌, IfErr, IfNone, IfOk, IfSome, IsTrue, List, OnErr, OnOk, false, map, slice_get};
    ghost use Rattle.std.specs.Option.{option_copied, option_map};
    ghost use Rattle.sn_net.specs.Item.{ModelItem, modelled};
    ghost use Rattle.sn_model.specs.Run.{MayGive};
    ghost use Rattle.sn_live.specs.Runs.{IsPrefixOf};
    ghost use Rattle.sn_view.specs.Coming.{MayCome};
    ghost use Rattle.sn_view.specs.Next.{IsEnabled, Next, enabled, start_view};
    ghost use Rattle.sn_view.specs.Placed.{AtRest};
    ghost use Rattle.sn_view.specs.View.{Happening};
    ghost use Rattle.sn_view.specs.Seen.{Can};
    ghost use Rattle.sn_graph.specs.Event.{ComesOf, HasCallLabels, IsEventOf, happening_of, is_finish};
    ghost use Rattle.sn_graph.specs.Graph.{IsGraphOf, seen};
    ghost use Rattle.sn_graph.specs.declared.event.ApplyCause.TheVariants as cause;

    /// The nodes of a run's network, at which nothing waits yet. What can still come is what the merges allow of the run.
    pub fn start(alloc: Global, run: &Run) -> Result<Graph, Memory>
        ensures of { IfOk result (λ graph. IsGraphOf graph run.now) }
        ensures view { IfOk result (λ graph. seen graph ≡ start_view run.now) }
        ensures can { IfOk result (λ graph. (ys : List ModelItem) → MayCome (seen graph) ys ↔ ∥ MayGive run.now ys ∥₁) }
    {
        let mut arena = Arena::start(alloc, run)?;
        arena.settle(run);
        Ok(Graph { arena })
    }

    /// Whether the event may happen. Takes no memory.
    pub fn enabled(&self, run: &Run, event: &Event) -> bool
        requires { IsGraphOf self.now run.now }
        ensures { IsTrue result ↔ IsEnabled (seen self.now) (happening_of event.now) }
    {
        self.arena.enabled(run, event)
    }

    /// Takes nodes at which nothing may happen off the end of what is listed. Takes no memory.
    fn settle(&mut self, run: &Run)
        requires { IsGraphOf self.old run.now }
        ensures view { seen self.new ≡ seen self.old }
        ensures of { IsGraphOf self.new run.now }
    {
        self.arena.settle(run);
    }

    /// `apply` for those who are given the events of a run and do not ask what may happen next, as where a trace is replayed: that is
    /// not looked for behind the event.
    pub fn apply_given(
        &mut self,
        alloc: Global,
        run: &Run,
        event: Event,
    ) -> Result<Effect, ApplyFault>
        requires of { IsGraphOf self.old run.now }
        requires few { (seen self.old).applied < 2 ^ 62 }
        requires done { IsEventOf run.now event }
        ensures enabled { OnOk result (IsEnabled (seen self.old) (happening_of event)) }
        ensures next { OnOk result (seen self.new ≡ Next (seen self.old) (happening_of event)) }
        ensures comes { IfOk result (λ effect. ComesOf run.now (happening_of event) effect (seen self.old) (seen self.new)) }
        ensures labels { IfOk result (HasCallLabels run.now) }
        ensures refused { IfErr result (λ fault. fault.cause ≡ cause.NotEnabled → IsEnabled (seen self.old) (happening_of event) → ⊥) }
        ensures back { IfErr result (λ fault. fault.event ≡ event) }
        ensures unchanged { OnErr result (seen self.new ≡ seen self.old) }
        ensures before { (ys : List ModelItem) → MayCome (seen self.new) ys → MayCome (seen self.old) ys }
        ensures of { IsGraphOf self.new run.now }
    {
        self.arena.apply(alloc, run, event)
    }

    /// Does the event, if it may happen: the graph is then what comes next, and nothing can come that could not before. Start answers the
    /// call that is to be made, and Emit the item that left. An event that may not happen comes back, and so does one for want of memory;
    /// then nothing has changed.
    pub fn apply(&mut self, alloc: Global, run: &Run, event: Event) -> Result<Effect, ApplyFault>
        requires of { IsGraphOf self.old run.now }
        requires few { (seen self.old).applied < 2 ^ 62 }
        requires done { IsEventOf run.now event }
        ensures enabled { OnOk result (IsEnabled (seen self.old) (happening_of event)) }
        ensures next { OnOk result (seen self.new ≡ Next (seen self.old) (happening_of event)) }
        ensures comes { IfOk result (λ effect. ComesOf run.now (happening_of event) effect (seen self.old) (seen self.new)) }
        ensures labels { IfOk result (HasCallLabels run.now) }
        ensures refused { IfErr result (λ fault. fault.cause ≡ cause.NotEnabled → IsEnabled (seen self.old) (happening_of event) → ⊥) }
        ensures back { IfErr result (λ fault. fault.event ≡ event) }
        ensures unchanged { OnErr result (seen self.new ≡ seen self.old) }
        ensures before { (ys : List ModelItem) → MayCome (seen self.new) ys → MayCome (seen self.old) ys }
        ensures of { IsGraphOf self.new run.now }
    {
        let answer = self.apply_given(alloc, run, event);
        self.settle(run);
        answer
    }

    /// What may happen, and is no answer to a call, if there is such an event. Takes no memory.
    pub fn next_event(&self, run: &Run) -> Option<Event>
        requires { IsGraphOf self.now run.now }
        ensures some { IfSome result (λ event. IsEnabled (seen self.now) (happening_of event)) }
        ensures no_answer { IfSome result (λ event. is_finish event ≡ false) }
        ensures of { IfSome result (IsEventOf run.now) }
        ensures none { IfNone result ((e : Happening) → enabled (seen self.now) e ≡ false) }
    {
        self.arena.next_event(run)
    }

    /// Whether nothing may happen and no call is in flight. Then nothing can come but what was emitted. Takes no memory.
    pub fn at_rest(&self, run: &Run) -> bool
        requires { IsGraphOf self.now run.now }
        ensures rest { IsTrue result ↔ AtRest (seen self.now) }
        ensures only { IsTrue result → (ys : List ModelItem) → MayCome (seen self.now) ys → ys ≡ (seen self.now).out }
    {
        self.arena.next_event(run).is_none() && self.arena.none_in_flight()
    }

    /// All that was emitted. What can still come goes on from it, and something can.
    pub fn out(&self) -> &Items
        ensures items { map modelled result.now ≡ (seen self.now).out }
        ensures begins { (ys : List ModelItem) → MayCome (seen self.now) ys → ∥ IsPrefixOf (seen self.now).out ys ∥₁ }
        ensures some { ∥ ((ys : List ModelItem) × Can (seen self.now) ys) ∥₁ }
    {
        self.emitted()
    }

    /// The same, in a function whose name is not that of a folder of built files.
    fn emitted(&self) -> &Items
        ensures items { map modelled result.now ≡ (seen self.now).out }
        ensures begins { (ys : List ModelItem) → MayCome (seen self.now) ys → ∥ IsPrefixOf (seen self.now).out ys ∥₁ }
        ensures some { ∥ ((ys : List ModelItem) × Can (seen self.now) ys) ∥₁ }
    {
        &self.arena.out
    }

    /// How many events happened.
    pub fn applied(&self) -> u64
        ensures { result ≡ (seen self.now).applied }
    {
        self.arena.applied
    }

    /// The steps from the network to the part of it that a node is, or nothing where no node has that number. Takes no memory.
    pub fn steps_of(&self, node: u64) -> Option<&Trail>
        ensures { option_copied result ≡ option_map (λ n. n.steps) (slice_get (seen self.now).nodes node) }
    {
        match self.arena.nodes.get(node as usize) {
            Some(node) => Some(&node.made.steps),
            None => None,
        }
    }
}

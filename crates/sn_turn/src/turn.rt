//! Turns of nodes.
ghost use Rattle.std.specs.Prelude.{◌≡◌, IfErr, IfOk, OnErr, false, if◌then◌else◌};
ghost use Rattle.sn_component.specs.Moved.{is_done, is_last};
ghost use Rattle.sn_component.specs.Outbox.{Ends, has_ended};
ghost use Rattle.sn_component.specs.declared.moved.Moved.TheVariants as some_moved;
ghost use Rattle.sn_turn.specs.Turns.{Spawned, Unfolds, Went};
ghost use Rattle.sn_turn.specs.Rounds.{RoundOf};
ghost use Rattle.sn_turn.specs.declared.node.Kind.TheVariants as some_kind;

use crate::heap::OnHeap;
use crate::node::{Kind, Node};
use crate::turned::{TurnFault, Turned, answer};
use crate::unfold::unfold;
use sn_component::{Component, Moved, Source};
use sn_fork::{Fork, Progress};
use sn_io::Gate;
use sn_list::Memory;
use std::alloc::Global;
use std::sync::Wait;

/// How many replicas a fork makes in a turn, so that others get theirs.
const MOST_REPLICAS: u32 = 64;

/// A turn of the source.
fn turn_source<R: Wait>(
    mut source: OnHeap<Source>,
    rt: &R,
    alloc: Global,
) -> Result<Turned, TurnFault>
    requires { has_ended source.output ≡ false }
    ensures fault { IfErr result (λ fault. fault.node.kind ≡ some_kind.Source source) }
    ensures went { IfOk result (Went (some_kind.Source source)) }
{
    match source.get_mut().turn(rt, alloc) {
        Ok(moved) => Ok(answer(Kind::Source(source), Vec::new(alloc), moved)),
        Err(_) => Err(TurnFault {
            node: Node {
                kind: Kind::Source(source),
            },
        }),
    }
}

/// A turn of a box, a filter or a synchrocell.
fn turn_component<R: Wait, G: Gate>(
    mut component: OnHeap<Component>,
    rt: &R,
    alloc: Global,
    gate: &G,
    call: u64,
) -> Result<Turned, TurnFault>
    requires { has_ended component.output ≡ false }
    ensures fault { IfErr result (λ fault. fault.node.kind ≡ some_kind.Component component) }
    ensures went { IfOk result (Went (some_kind.Component component)) }
{
    match component.get_mut().turn(rt, alloc, gate, call) {
        Ok(moved) => Ok(answer(Kind::Component(component), Vec::new(alloc), moved)),
        Err(_) => Err(TurnFault {
            node: Node {
                kind: Kind::Component(component),
            },
        }),
    }
}

/// A turn of a fork until it lacks a child, which is then made. Answers nothing where that was so. For want of memory nothing has changed.
#[tactic(auto, using(crate::proofs::Turning::unfolds_going, crate::proofs::Turning::unfolds_further, crate::proofs::Turning::unfolds_made, crate::proofs::Turning::spawned_going, crate::proofs::Turning::spawned_made, crate::proofs::Turning::spawned_further, crate::proofs::Turning::one_child_more))]
fn round<R: Wait>(
    fork: &mut Fork,
    rt: &R,
    alloc: Global,
    spawned: &mut Vec<Node>,
) -> Result<Option<Moved>, Memory>
    ensures unfolds { Unfolds fork.old fork.new }
    ensures went { IfOk result (RoundOf fork.old fork.new) }
    ensures ended { has_ended fork.old.output ≡ false → IfOk result (λ last. has_ended fork.new.output ≡ is_last last) }
    ensures spawned { Spawned fork.old fork.new spawned.old.items spawned.new.items }
    ensures err { OnErr result (fork.new ≡ fork.old) }
{
    match fork.turn(rt)? {
        Progress::Moved(moved) => Ok(Some(moved)),
        Progress::Missing { key, some } => {
            if unfold(alloc, fork, spawned, key).is_ok() {
                return Ok(None);
            }
            if some {
                Ok(Some(Moved::Some))
            } else {
                Err(Memory)
            }
        }
    }
}

/// What a turn answers in which a replica was made, and which then went so.
fn after_more(moved: Moved) -> Moved
    ensures { result ≡ (if is_done moved then moved else some_moved.Some) }
{
    match moved {
        Moved::Done => moved,
        Moved::Some | Moved::Idle => Moved::Some,
    }
}

/// Goes on while replicas are to be made, after one was.
#[tactic(auto, using(crate::proofs::Turning::unfolds_still, crate::proofs::Turning::unfolds_further, crate::proofs::Turning::spawned_still, crate::proofs::Turning::spawned_further))]
fn go_on<R: Wait>(fork: &mut Fork, rt: &R, alloc: Global, spawned: &mut Vec<Node>) -> Moved
    ensures unfolds { Unfolds fork.old fork.new }
    ensures done { result ≡ some_moved.Done → Ends fork.new.output }
    ensures busy { result ≡ some_moved.Idle → ⊥ }
    ensures ended { has_ended fork.old.output ≡ false → has_ended fork.new.output ≡ is_done result }
    ensures spawned { Spawned fork.old fork.new spawned.old.items spawned.new.items }
{
    for _ in 1..MOST_REPLICAS {
        match round(fork, rt, alloc, spawned) {
            Ok(None) => {}
            Ok(Some(moved)) => return after_more(moved),
            Err(_) => return Moved::Some,
        }
    }
    Moved::Some
}

/// A turn of a choice, a level of a star or a split.
fn turn_fork<R: Wait>(mut fork: OnHeap<Fork>, rt: &R, alloc: Global) -> Result<Turned, TurnFault>
    requires { has_ended fork.output ≡ false }
    ensures fault { IfErr result (λ fault. fault.node.kind ≡ some_kind.Fork fork) }
    ensures went { IfOk result (Went (some_kind.Fork fork)) }
{
    let mut spawned = Vec::new(alloc);
    match round(fork.get_mut(), rt, alloc, &mut spawned) {
        Ok(Some(moved)) => Ok(answer(Kind::Fork(fork), spawned, moved)),
        Ok(None) => {
            let moved = go_on(fork.get_mut(), rt, alloc, &mut spawned);
            Ok(answer(Kind::Fork(fork), spawned, moved))
        }
        Err(_) => Err(TurnFault {
            node: Node {
                kind: Kind::Fork(fork),
            },
        }),
    }
}

impl Node {
    /// A turn: entries move while there are some and there is room, at most 1,024 of each of its streams between two new replicas. For want of
    /// memory before anything moved the node comes back as it was; where something moved before, the next turn meets it. `call` is the
    /// number of all box calls of the turn, by which a gate knows them.
    pub fn turn<R: Wait, G: Gate>(
        self,
        rt: &R,
        alloc: Global,
        gate: &G,
        call: u64,
    ) -> Result<Turned, TurnFault>
        ensures fault { IfErr result (λ fault. fault.node.kind ≡ self.kind) }
        ensures went { IfOk result (Went self.kind) }
    {
        let Node { kind } = self;
        match kind {
            Kind::Source(source) => turn_source(source, rt, alloc),
            Kind::Component(component) => turn_component(component, rt, alloc, gate, call),
            Kind::Fork(fork) => turn_fork(fork, rt, alloc),
        }
    }
}

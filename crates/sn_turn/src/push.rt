//! New nodes.
ghost use Rattle.std.specs.Prelude.{◌≡◌, ◌∷◌, [], false, map, OnOk, ℤ};
ghost use Rattle.sn_streams.specs.Keys.{Value, is_among};
ghost use Rattle.sn_component.specs.Component.{state_of};
ghost use Rattle.sn_component.specs.Facts.{IsFresh};
ghost use Rattle.sn_fork.specs.Facts.{Each, ForksAt};
ghost use Rattle.sn_fork.specs.Fork.{child_seen};
ghost use Rattle.sn_fork.specs.Seen.{IsNew, keys_of};
ghost use Rattle.sn_turn.specs.Nodes.{Grown};
ghost use Rattle.sn_turn.specs.Places.{new_component, new_fork};

use crate::heap::OnHeap;
use crate::node::{Kind, Node};
use crate::spot::Spot;
use sn_component::{Component, Keeps};
use sn_fork::{Child, Fork};
use sn_list::{Memory, Seq};
use sn_model::Run;
use sn_stream::{GetEnd, PutEnd};
use std::alloc::Global;
use std::sync::Arc;

/// The node of a box, a filter or a synchrocell.
pub(crate) fn push_component(
    alloc: Global,
    run: &Arc<Run>,
    nodes: &mut Vec<Node>,
    spot: &Spot,
    keeps: Keeps,
    input: GetEnd,
    output: PutEnd,
) -> Result<(), Memory>
    requires { IsFresh (new_component run.now.value spot.now.path (state_of keeps) input output) }
    ensures { OnOk result (Grown nodes.old.items nodes.new.items (spot.now.path ∷ [])) }
{
    let path = Seq::from_slice(alloc, spot.path.as_slice())?;
    let run = run.clone()?;
    let component = Component::new(alloc, run, path, keeps, input, output);
    nodes.push(Node {
        kind: Kind::Component(OnHeap::new(alloc, component)?),
    })?;
    Ok(())
}

/// The node of a choice, a level of a star or a split, with these children.
pub(crate) fn push_fork(
    alloc: Global,
    run: &Arc<Run>,
    nodes: &mut Vec<Node>,
    spot: &Spot,
    left: u32,
    input: GetEnd,
    children: Vec<Child>,
    output: PutEnd,
) -> Result<(), Memory>
    requires stands { ForksAt (new_fork run.now.value spot.now.path left spot.now.steps input (map child_seen children.items) output) }
    requires got { input.moved ≡ [] }
    requires put { output.moved ≡ [] }
    requires children { Each IsNew (map child_seen children.items) }
    requires replicas { (v : ℤ) → is_among (Value v) (keys_of (map child_seen children.items)) ≡ false }
    ensures { OnOk result (Grown nodes.old.items nodes.new.items (spot.now.path ∷ [])) }
{
    let path = Seq::from_slice(alloc, spot.path.as_slice())?;
    let steps = spot.steps.share()?;
    let run = run.clone()?;
    let fork = Fork::new(alloc, run, path, left, steps, input, children, output);
    nodes.push(Node {
        kind: Kind::Fork(OnHeap::new(alloc, fork)?),
    })?;
    Ok(())
}

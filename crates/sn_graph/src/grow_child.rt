//! The nodes of a new child.
ghost use Rattle.std.specs.Prelude.{◌≡◌, ◌++◌, ◌∷◌, [], IfOk, OnOk, length, map};
ghost use Rattle.sn_net.specs.Dispatchers.{stream_key};
ghost use Rattle.sn_net.specs.WellFormed.{FitsBoxes};
ghost use Rattle.sn_model.specs.Run.{boxes_of, depth_of, net_of};
ghost use Rattle.sn_model.specs.declared.step.Step.TheVariants as step;
ghost use Rattle.sn_view.specs.Next.{new_nodes};
ghost use Rattle.sn_view.specs.Parts.{plan};
ghost use Rattle.sn_node.specs.Answered.{form_at};
ghost use Rattle.sn_node.specs.Seen.{node_of, target_of};
ghost use Rattle.sn_graph.specs.Grown.{Puts, level_nodes, next_of};

use crate::grow::{NewNodes, grow, push_fork, sum, width, with_part, with_step};
use sn_list::{Memory, Seq};
use sn_model::{Run, Step, Trail};
use sn_net::{Key, Merge, Net};
use sn_node::{Made, Node, Target, part_at};
use std::alloc::Global;

/// The steps and two more.
fn with_two(alloc: Global, steps: &Trail, first: Step, second: Step) -> Result<Trail, Memory>
    ensures { IfOk result (λ longer. longer ≡ steps.now ++ first ∷ second ∷ []) }
{
    let once = with_step(alloc, steps, first)?;
    once.further(alloc, second)
}

/// The nodes of a replica of a star's body and of the next level.
fn grow_level(
    alloc: Global,
    run: &Run,
    grown: &mut NewNodes,
    merge: Merge,
    body: &Net,
    star: &Made,
    goes: Target,
) -> Result<(), Memory>
    requires { FitsBoxes (boxes_of run.now) body.now }
    ensures { OnOk result (Puts run.now (level_nodes (depth_of run.now) merge body.now star.now.left star.now.steps star.now.path (target_of goes) (next_of grown.old)) grown.old grown.new) }
{
    let at = sum(grown.next()?, width(run.depth(), body)?)?;
    let inside = with_two(alloc, &star.steps, Step::Inside, Step::Left)?;
    let inside_path = with_part(alloc, star.path.as_slice(), 0)?;
    grow(
        alloc,
        run,
        grown,
        body,
        &inside,
        inside_path.as_slice(),
        Target::Node(at),
    )?;
    let next = with_two(alloc, &star.steps, Step::Inside, Step::Right)?;
    push_fork(
        alloc,
        run,
        grown,
        merge,
        star.left.saturating_sub(1),
        &[],
        &next,
        star.path.as_slice(),
        goes,
    )
}

/// The nodes of a split's replica for a value.
fn grow_replica(
    alloc: Global,
    run: &Run,
    grown: &mut NewNodes,
    body: &Net,
    value: i64,
    split: &Made,
    goes: Target,
) -> Result<(), Memory>
    requires { FitsBoxes (boxes_of run.now) body.now }
    ensures { OnOk result (Puts run.now ((plan (depth_of run.now) body.now).nodes (split.now.steps ++ step.Value value ∷ []) (split.now.path ++ 0 ∷ []) (target_of goes) (next_of grown.old)) grown.old grown.new) }
{
    let below = with_step(alloc, &split.steps, Step::Value(value))?;
    let below_path = with_part(alloc, split.path.as_slice(), 0)?;
    grow(alloc, run, grown, body, &below, below_path.as_slice(), goes)
}

/// The nodes of the child of a key, of the dispatcher `node` at `i`. It is the child of that number.
pub(crate) fn grow_child(
    alloc: Global,
    run: &Run,
    grown: &mut NewNodes,
    i: usize,
    node: &Node,
    key: Key,
) -> Result<(), Memory>
    ensures { OnOk result (Puts run.now (new_nodes (depth_of run.now) (form_at (net_of run.now) node.now.made.path) (stream_key key) i (node_of node.now) (next_of grown.old)) grown.old grown.new) }
{
    let goes = Target::Child {
        node: i,
        child: node.children.len(),
    };
    match part_at(run.net(), node.made.path.as_slice()) {
        Some(part) => match part {
            Net::Star { merge, body, .. } => grow_level(
                alloc,
                run,
                grown,
                *merge,
                body.get(),
                &node.made,
                goes,
            ),
            Net::Split { body, .. } => match key {
                Key::Value(value) => grow_replica(
                    alloc,
                    run,
                    grown,
                    body.get(),
                    value,
                    &node.made,
                    goes,
                ),
                Key::Bypass | Key::Branch(_) | Key::Inside | Key::Broken(_) | Key::Stuck => Ok(()),
            },
            Net::Box { .. } | Net::Filter(_) | Net::Sync { .. } => Ok(()),
            Net::Serial { .. } | Net::Choice { .. } => Ok(()),
        },
        None => Ok(()),
    }
}

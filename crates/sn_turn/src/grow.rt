//! The nodes and streams that a part of a network is made of.
ghost use Rattle.std.specs.Prelude.{◌++◌, ◌∷◌, [], List, OnOk, ℕ};
ghost use Rattle.sn_record.specs.LabelSet.{Labels};
ghost use Rattle.sn_net.specs.declared.net.Merge.{Merge};
ghost use Rattle.sn_net.specs.declared.net.Net.TheVariants as form;
ghost use Rattle.sn_turn.specs.Nodes.{Grown, parts_of, parts_of_choice};
ghost use Rattle.sn_turn.specs.Places.{AreNewAt, LeadTo};

use crate::node::Node;
use crate::push::{push_component, push_fork};
use crate::spot::Spot;
use crate::streams::{stream, ways};
use sn_component::Keeps;
use sn_list::Memory;
use sn_model::{Run, Step};
use sn_net::{Key, Net};
use sn_net_histories::Port;
use sn_stream::{GetEnd, PutEnd};
use sn_sync::Holding;
use std::alloc::Global;
use std::sync::Arc;

/// Two networks in series: what the left one gives goes to the right one.
#[cycle(growing)]
fn grow_series(
    alloc: Global,
    run: &Arc<Run>,
    nodes: &mut Vec<Node>,
    left: &Net,
    right: &Net,
    spot: &Spot,
    input: GetEnd,
    output: PutEnd,
) -> Result<(), Memory>
    requires part { LeadTo run.now.value (form.Serial left.now right.now) spot.now.path spot.now.steps }
    requires ends { AreNewAt run.now.value spot.now.steps input output }
    ensures { OnOk result (Grown nodes.old.items nodes.new.items (parts_of (form.Serial left.now right.now) spot.now.path)) }
{
    let first = spot.below(alloc, Step::Left, 0)?;
    let (put, get) = stream(alloc, run, &first.steps, Port::Out)?;
    grow(alloc, run, nodes, left, &first, input, put)?;
    let second = spot.below(alloc, Step::Right, 1)?;
    grow(alloc, run, nodes, right, &second, get, output)
}

/// A choice: its branches, and then its dispatcher, each child of which is a branch.
#[cycle(growing)]
fn grow_choice(
    alloc: Global,
    run: &Arc<Run>,
    nodes: &mut Vec<Node>,
    branches: &[Net],
    spot: &Spot,
    input: GetEnd,
    output: PutEnd,
) -> Result<(), Memory>
    requires part { (place : ℕ) × (merge : Merge) × (faces : List (List Labels)) × LeadTo run.now.value (form.Choice place merge branches.now faces) spot.now.path spot.now.steps }
    requires ends { AreNewAt run.now.value spot.now.steps input output }
    ensures { OnOk result (Grown nodes.old.items nodes.new.items (parts_of_choice branches.now spot.now.path)) }
{
    let mut children = Vec::new(alloc);
    for (i, branch) in branches.iter().enumerate() {
        let below = spot.below(alloc, Step::Branch(i as u32), i as u32)?;
        let made = ways(alloc, run, &below.steps, Key::Branch(i as u32))?;
        grow(alloc, run, nodes, branch, &below, made.input, made.output)?;
        children.push(made.child)?;
    }
    push_fork(alloc, run, nodes, spot, 0, input, children, output)
}

/// Puts the nodes of a part of a run's network behind others: `input` is what comes in there, and what it gives goes to `output`. The
/// replicas of a star or a split are made when they are needed.
#[cycle(growing)]
pub(crate) fn grow(
    alloc: Global,
    run: &Arc<Run>,
    nodes: &mut Vec<Node>,
    net: &Net,
    spot: &Spot,
    input: GetEnd,
    output: PutEnd,
) -> Result<(), Memory>
    requires part { LeadTo run.now.value net.now spot.now.path spot.now.steps }
    requires ends { AreNewAt run.now.value spot.now.steps input output }
    ensures { OnOk result (Grown nodes.old.items nodes.new.items (parts_of net.now spot.now.path)) }
{
    match net {
        Net::Box { .. } => push_component(alloc, run, nodes, spot, Keeps::Nothing, input, output),
        Net::Filter(_) => push_component(alloc, run, nodes, spot, Keeps::Nothing, input, output),
        Net::Sync { patterns, .. } => {
            let holding = Holding::new(alloc, patterns.as_slice())?;
            push_component(
                alloc,
                run,
                nodes,
                spot,
                Keeps::Records(holding),
                input,
                output,
            )
        }
        Net::Serial { left, right } => {
            grow_series(
                alloc,
                run,
                nodes,
                left.get(),
                right.get(),
                spot,
                input,
                output,
            )
        }
        Net::Choice { branches, .. } => {
            grow_choice(alloc, run, nodes, branches.as_slice(), spot, input, output)
        }
        Net::Star { .. } => {
            push_fork(
                alloc,
                run,
                nodes,
                spot,
                run.depth(),
                input,
                Vec::new(alloc),
                output,
            )
        }
        Net::Split { .. } => {
            push_fork(
                alloc,
                run,
                nodes,
                spot,
                run.depth(),
                input,
                Vec::new(alloc),
                output,
            )
        }
    }
}

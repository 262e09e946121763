//! New children of forks, with their nodes and streams.
ghost use Rattle.std.specs.Prelude.{◌≡◌, ◌++◌, ◌∷◌, [], Some, IfOk, OnErr, OnOk, Option, ℕ, suc};
ghost use Rattle.sn_record.specs.LabelSet.{Labels};
ghost use Rattle.sn_tagexpr.specs.declared.expr.TagExpr.{TagExpr};
ghost use Rattle.sn_streams.specs.Keys.{Inside, Value};
ghost use Rattle.sn_net.specs.declared.net.Merge.{Merge};
ghost use Rattle.sn_net.specs.declared.net.Net.TheVariants as form;
ghost use Rattle.sn_net.specs.declared.routing.Key.TheVariants as some_key;
ghost use Rattle.sn_model.specs.declared.step.Step.TheVariants as step;
ghost use Rattle.sn_view.specs.Parts.{part_at as the_part_at};
ghost use Rattle.sn_fork.specs.Facts.{ForksAt};
ghost use Rattle.sn_fork.specs.Fork.{child_seen};
ghost use Rattle.sn_fork.specs.Turns.{Lacks};
ghost use Rattle.sn_turn.specs.Nodes.{Grown, parts_of};
ghost use Rattle.sn_turn.specs.Places.{IsNewChildAt};
ghost use Rattle.sn_turn.specs.Unfolding.{IsMissing, Unfolded};

use crate::grow::grow;
use crate::node::Node;
use crate::push::push_fork;
use crate::spot::{Spot, below};
use crate::streams::{stream, ways};
use sn_fork::{Child, Fork};
use sn_list::Memory;
use sn_model::{Run, Step, Trail};
use sn_net::{Key, Net};
use sn_net_histories::Port;
use sn_node::part_at;
use std::alloc::Global;
use std::sync::Arc;

/// A new child of a fork, and its nodes. Its streams are made, and nothing has moved on them.
#[derive(Drop)]
struct Replica {
    child: Child,
    nodes: Vec<Node>,
}

/// The replica of a split for a value.
fn replica_for(
    alloc: Global,
    run: &Arc<Run>,
    fork: &Fork,
    steps: &Trail,
    body: &Net,
    n: i64,
) -> Result<Replica, Memory>
    requires run { run.now.value ≡ fork.now.run }
    requires stands { ForksAt fork.now }
    requires steps { steps.now ≡ fork.now.steps }
    requires part { (place : ℕ) × (merge : Merge) × (id : ℕ) × (the_part_at run.now.value.net fork.now.path ≡ Some (form.Split place merge body.now id)) }
    ensures key { IfOk result (λ made. made.child.key ≡ some_key.Value n) }
    ensures child { IfOk result (λ made. IsNewChildAt run.now.value (fork.now.steps ++ step.Value n ∷ []) (Value n) (child_seen made.child)) }
    ensures nodes { IfOk result (λ made. Grown [] made.nodes.items (parts_of body.now (fork.now.path ++ 0 ∷ []))) }
{
    let spot = below(alloc, steps, fork.path(), Step::Value(n), 0)?;
    let made = ways(alloc, run, &spot.steps, Key::Value(n))?;
    let mut nodes = Vec::new(alloc);
    grow(alloc, run, &mut nodes, body, &spot, made.input, made.output)?;
    Ok(Replica {
        child: made.child,
        nodes,
    })
}

/// The next level of a star that has replicas left: its body, and behind it the dispatcher with one replica less.
fn level(
    alloc: Global,
    run: &Arc<Run>,
    fork: &Fork,
    steps: &Trail,
    body: &Net,
) -> Result<Replica, Memory>
    requires run { run.now.value ≡ fork.now.run }
    requires stands { ForksAt fork.now }
    requires steps { steps.now ≡ fork.now.steps }
    requires part { (place : ℕ) × (merge : Merge) × (exit : Labels) × (guard : Option TagExpr) × (the_part_at run.now.value.net fork.now.path ≡ Some (form.Star place merge body.now exit guard)) }
    requires left { (less : ℕ) × (fork.now.left ≡ suc less) }
    ensures key { IfOk result (λ made. made.child.key ≡ some_key.Inside) }
    ensures child { IfOk result (λ made. IsNewChildAt run.now.value (fork.now.steps ++ step.Inside ∷ []) Inside (child_seen made.child)) }
    ensures nodes { IfOk result (λ made. Grown [] made.nodes.items (parts_of body.now (fork.now.path ++ 0 ∷ []) ++ fork.now.path ∷ [])) }
{
    let inside = steps.share()?.further(alloc, Step::Inside)?;
    let made = ways(alloc, run, &inside, Key::Inside)?;
    let first = below(alloc, &inside, fork.path(), Step::Left, 0)?;
    let (put, get) = stream(alloc, run, &first.steps, Port::Out)?;
    let mut nodes = Vec::new(alloc);
    grow(alloc, run, &mut nodes, body, &first, made.input, put)?;
    let next = Spot::new(alloc, inside.further(alloc, Step::Right)?, fork.path())?;
    push_fork(
        alloc,
        run,
        &mut nodes,
        &next,
        fork.left() - 1,
        get,
        Vec::new(alloc),
        made.output,
    )?;
    Ok(Replica {
        child: made.child,
        nodes,
    })
}

/// The child that a fork lacks: a choice has all its branches.
fn missing(
    alloc: Global,
    run: &Arc<Run>,
    part: &Net,
    fork: &Fork,
    key: Key,
) -> Result<Replica, Memory>
    requires run { run.now.value ≡ fork.now.run }
    requires part { the_part_at run.now.value.net fork.now.path ≡ Some part.now }
    requires lacks { Lacks fork.now key }
    ensures { IfOk result (λ made. IsMissing fork.now part.now key made.child made.nodes.items) }
{
    let steps = fork.steps();
    match part {
        Net::Star { body, .. } => level(alloc, run, fork, steps, body.get()),
        Net::Split { body, .. } => match key {
            Key::Value(n) => replica_for(alloc, run, fork, steps, body.get(), n),
            _ => unreachable!(),
        },
        _ => unreachable!(),
    }
}

/// Makes the child that a fork lacks: first its streams and its nodes, which are put behind others, and then the fork gets it, so that its
/// first item can move. For want of memory nothing has changed.
pub(crate) fn unfold(
    alloc: Global,
    fork: &mut Fork,
    spawned: &mut Vec<Node>,
    key: Key,
) -> Result<(), Memory>
    requires { Lacks fork.old key }
    ensures ok { OnOk result (Unfolded fork.old fork.new spawned.old.items spawned.new.items) }
    ensures err { OnErr result (fork.new ≡ fork.old) }
    ensures kept { OnErr result (spawned.new.items ≡ spawned.old.items) }
{
    let run = fork.run().clone()?;
    let Some(part) = part_at(run.net(), fork.path().as_slice()) else {
        unreachable!()
    };
    let mut made = missing(alloc, &run, part, fork, key)?;
    let before = spawned.len();
    spawned.append(&mut made.nodes)?;
    if fork.add_child(made.child).is_err() {
        spawned.truncate(before);
        return Err(Memory);
    }
    Ok(())
}

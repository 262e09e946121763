//! The trees of claims: each name of a net stands for a copy of that net's tree.
//!
//! A node takes its room before it is made, so a tree that is too large costs no more than one that fits.
ghost use Rattle.std.specs.Prelude.{◌≡◌, ℕ, suc, IfOk, IsTrue, IsFalse, List, Option, Some, map as each};
ghost use Rattle.std.specs.Option.{option_map};
ghost use Rattle.sn_net.specs.Face.{face};
ghost use Rattle.sn_net.specs.declared.expr.BoxProgram.{BoxProgram};
ghost use Rattle.sn_net.specs.declared.net.Net.{Net as SomeNet};
ghost use Rattle.sn_net.specs.declared.net.Net.TheVariants as form;
ghost use Rattle.sn_scope.specs.Built.{AreBuilt, IsBuilt, IsMade, narrowed, node_of, part_of, parts_of, rest_of, series_of};
ghost use Rattle.sn_scope.specs.Trees.{all_some, call, in_series, tree};

use crate::heap::on_heap;
use crate::network::{Component, Network};
use sn_list::{Boxed, Memory, Seq};
use sn_net::{Boxes, Faced, Filter, Merge, TagExpr, copy_sets};
use sn_record::LabelSet;
use std::alloc::Global;

const MOST_VARIANTS: usize = 1024;

/// Nothing where the face has too many variants.
fn narrow(built: Option<Boxed<Faced>>) -> Option<Boxed<Faced>>
    ensures { result ≡ narrowed built }
{
    let faced = built?;
    if faced.get().face.len() <= MOST_VARIANTS {
        return Some(faced);
    }
    None
}

/// Whether there was room for one more node.
fn take_room(room: &mut usize) -> bool
    ensures taken { IsTrue result → suc room.new ≡ room.old }
    ensures full { IsFalse result → (room.old ≡ 0) × (room.new ≡ 0) }
{
    if *room == 0 {
        return false;
    }
    *room -= 1;
    true
}

/// The tree of a component with at most so many levels, or nothing where it has more, where a face is too wide, or where
/// there is no room for its nodes. Room is taken for each node.
#[cycle(tree)]
pub fn tree(
    alloc: Global,
    boxes: &Boxes,
    nets: &[Component],
    component: &Component,
    levels: u32,
    room: &mut usize,
) -> Result<Option<Boxed<Faced>>, Memory>
    ensures { IfOk result (IsBuilt boxes.now (tree boxes.now levels nets.now component.now) room.old room.new) }
{
    if levels == 0 || !take_room(room) {
        return Ok(None);
    }
    let built = node(alloc, boxes, nets, component, levels - 1, room)?;
    Ok(narrow(built))
}

/// The tree of parts in series, as `tree` is that of a component.
#[cycle(tree)]
fn series_tree(
    alloc: Global,
    boxes: &Boxes,
    nets: &[Component],
    parts: &[Network],
    levels: u32,
    room: &mut usize,
) -> Result<Option<Boxed<Faced>>, Memory>
    ensures { IfOk result (IsBuilt boxes.now (parts_of boxes.now levels nets.now parts.now) room.old room.new) }
{
    if levels == 0 || !take_room(room) {
        return Ok(None);
    }
    let built = series(alloc, boxes, nets, parts, levels - 1, room)?;
    Ok(narrow(built))
}

/// The node of a component, whose own room is taken, over the trees of its parts.
#[cycle(tree)]
fn node(
    alloc: Global,
    boxes: &Boxes,
    nets: &[Component],
    component: &Component,
    levels: u32,
    room: &mut usize,
) -> Result<Option<Boxed<Faced>>, Memory>
    ensures { IfOk result (IsBuilt boxes.now (node_of boxes.now levels nets.now component.now) (suc room.old) room.new) }
{
    match component {
        Component::Box { place, number } => call(alloc, boxes, *place, *number),
        Component::Filter(filter) => filter_node(alloc, filter),
        Component::Sync { place, patterns } => sync_node(alloc, *place, patterns.as_slice()),
        Component::Serial(parts) => series(alloc, boxes, nets, parts.as_slice(), levels, room),
        Component::Choice {
            place,
            merge,
            branches,
        } => {
            let branches = trees(alloc, boxes, nets, branches.as_slice(), levels, room)?;
            choice_over(alloc, *place, *merge, branches)
        }
        Component::Star {
            place,
            merge,
            body,
            exit,
            guard,
        } => {
            let body = part(alloc, boxes, nets, body.get(), levels, room)?;
            star_over(alloc, *place, *merge, body, exit, guard)
        }
        Component::Split {
            place,
            merge,
            body,
            tag,
        } => {
            let body = part(alloc, boxes, nets, body.get(), levels, room)?;
            split_over(alloc, *place, *merge, body, *tag)
        }
    }
}

/// The call of a box, whose room is taken, or nothing where there is no box of that number.
fn call(
    alloc: Global,
    boxes: &Boxes,
    place: u32,
    number: u32,
) -> Result<Option<Boxed<Faced>>, Memory>
    ensures { IfOk result (λ built. (room : ℕ) → IsBuilt boxes.now (call boxes.now place number) (suc room) room built) }
{
    if number as usize >= boxes.len() {
        return Ok(None);
    }
    let faced = Faced::of_box(alloc, place, number, boxes);
    Ok(Some(on_heap(alloc, faced)?))
}

/// A filter, whose room is taken.
fn filter_node(alloc: Global, filter: &Filter) -> Result<Option<Boxed<Faced>>, Memory>
    ensures { IfOk result (λ built. (boxes : List BoxProgram) (room : ℕ) → IsBuilt boxes (Some (form.Filter filter.now)) (suc room) room built) }
{
    let copy = filter.copy(alloc)?;
    Ok(Some(on_heap(alloc, Faced::filter(alloc, copy))?))
}

/// A synchrocell, whose room is taken.
fn sync_node(
    alloc: Global,
    place: u32,
    patterns: &[LabelSet],
) -> Result<Option<Boxed<Faced>>, Memory>
    ensures { IfOk result (λ built. (boxes : List BoxProgram) (room : ℕ) → IsBuilt boxes (Some (form.Sync place patterns.now)) (suc room) room built) }
{
    let copies = copy_sets(alloc, patterns)?;
    Ok(Some(on_heap(alloc, Faced::sync(alloc, place, copies))?))
}

/// Two parts in series, whose own room is taken, where the right one is built too. Takes that as it came, so that its
/// caller has one exit.
fn serial_over(
    alloc: Global,
    left: Boxed<Faced>,
    right: Result<Option<Boxed<Faced>>, Memory>,
) -> Result<Option<Boxed<Faced>>, Memory>
    ensures { IfOk result (λ built. (boxes : List BoxProgram) (first second : Option SomeNet) (old between new : ℕ) → IsMade boxes first old between left → IfOk right (IsBuilt boxes second between new) → IsBuilt boxes (in_series first second) (suc old) new built) }
{
    match right? {
        Some(right) => {
            let faced = Faced::serial(alloc, left.into_inner(), right.into_inner());
            Ok(Some(on_heap(alloc, faced)?))
        }
        None => Ok(None),
    }
}

/// A choice over its branches, whose own room is taken, where all of them are built.
fn choice_over(
    alloc: Global,
    place: u32,
    merge: Merge,
    branches: Option<Seq<Faced>>,
) -> Result<Option<Boxed<Faced>>, Memory>
    ensures { IfOk result (λ built. (boxes : List BoxProgram) (defined : Option (List SomeNet)) (old new : ℕ) → AreBuilt boxes defined old new branches → IsBuilt boxes (option_map (λ nets. form.Choice place merge nets (each (face boxes) nets)) defined) (suc old) new built) }
{
    match branches {
        Some(branches) => {
            let faced = Faced::choice(alloc, place, merge, branches);
            Ok(Some(on_heap(alloc, faced)?))
        }
        None => Ok(None),
    }
}

/// A star over its body, whose own room is taken, where that is built.
fn star_over(
    alloc: Global,
    place: u32,
    merge: Merge,
    body: Option<Boxed<Faced>>,
    exit: &LabelSet,
    guard: &Option<TagExpr>,
) -> Result<Option<Boxed<Faced>>, Memory>
    ensures { IfOk result (λ built. (boxes : List BoxProgram) (defined : Option SomeNet) (old new : ℕ) → IsBuilt boxes defined old new body → IsBuilt boxes (option_map (λ tree. form.Star place merge tree exit.now guard.now) defined) (suc old) new built) }
{
    match body {
        Some(body) => {
            let exit = exit.copy()?;
            let guard = copy_guard(alloc, guard)?;
            let faced = Faced::star(alloc, place, merge, body.into_inner(), exit, guard);
            Ok(Some(on_heap(alloc, faced)?))
        }
        None => Ok(None),
    }
}

/// A split over its body, whose own room is taken, where that is built.
fn split_over(
    alloc: Global,
    place: u32,
    merge: Merge,
    body: Option<Boxed<Faced>>,
    tag: u32,
) -> Result<Option<Boxed<Faced>>, Memory>
    ensures { IfOk result (λ built. (boxes : List BoxProgram) (defined : Option SomeNet) (old new : ℕ) → IsBuilt boxes defined old new body → IsBuilt boxes (option_map (λ tree. form.Split place merge tree tag) defined) (suc old) new built) }
{
    match body {
        Some(body) => {
            let faced = Faced::split(alloc, place, merge, body.into_inner(), tag);
            Ok(Some(on_heap(alloc, faced)?))
        }
        None => Ok(None),
    }
}

fn copy_guard(alloc: Global, guard: &Option<TagExpr>) -> Result<Option<TagExpr>, Memory>
    ensures { IfOk result (λ copy. copy ≡ guard.now) }
{
    match guard {
        Some(e) => Ok(Some(e.copy(alloc)?)),
        None => Ok(None),
    }
}

/// The node of two or more parts in series, whose own room is taken.
#[cycle(tree)]
fn series(
    alloc: Global,
    boxes: &Boxes,
    nets: &[Component],
    parts: &[Network],
    levels: u32,
    room: &mut usize,
) -> Result<Option<Boxed<Faced>>, Memory>
    ensures { IfOk result (IsBuilt boxes.now (series_of boxes.now levels nets.now parts.now) (suc room.old) room.new) }
{
    if parts.len() < 2 {
        return Ok(None);
    }
    let Some(left) = part(alloc, boxes, nets, &parts[0], levels, room)? else {
        return Ok(None);
    };
    let right = rest(alloc, boxes, nets, &parts[1..], levels, room);
    serial_over(alloc, left, right)
}

/// The tree of one part, or of several in series.
#[cycle(tree)]
fn rest(
    alloc: Global,
    boxes: &Boxes,
    nets: &[Component],
    parts: &[Network],
    levels: u32,
    room: &mut usize,
) -> Result<Option<Boxed<Faced>>, Memory>
    ensures { IfOk result (IsBuilt boxes.now (rest_of boxes.now levels nets.now parts.now) room.old room.new) }
{
    if parts.len() == 1 {
        return part(alloc, boxes, nets, &parts[0], levels, room);
    }
    series_tree(alloc, boxes, nets, parts, levels, room)
}

/// The tree of the component that a part of a network stands for.
#[cycle(tree)]
fn part(
    alloc: Global,
    boxes: &Boxes,
    nets: &[Component],
    network: &Network,
    levels: u32,
    room: &mut usize,
) -> Result<Option<Boxed<Faced>>, Memory>
    ensures { IfOk result (IsBuilt boxes.now (part_of boxes.now levels nets.now network.now) room.old room.new) }
{
    match network {
        Network::Named(number) => {
            if *number >= nets.len() {
                return Ok(None);
            }
            tree(alloc, boxes, nets, &nets[*number], levels, room)
        }
        Network::Made(component) => tree(alloc, boxes, nets, component, levels, room),
    }
}

/// The trees of branches.
#[cycle(tree)]
fn trees(
    alloc: Global,
    boxes: &Boxes,
    nets: &[Component],
    networks: &[Network],
    levels: u32,
    room: &mut usize,
) -> Result<Option<Seq<Faced>>, Memory>
    ensures { IfOk result (AreBuilt boxes.now (all_some (each (part_of boxes.now levels nets.now) networks.now)) room.old room.new) }
{
    let mut made = Seq::new(alloc);
    for network in networks {
        let Some(faced) = part(alloc, boxes, nets, network, levels, room)? else {
            return Ok(None);
        };
        sn_stack::append(&mut made, faced.into_inner())?;
    }
    Ok(Some(made))
}

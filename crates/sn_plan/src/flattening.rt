//! Choices whose branches are choices of the same kind, made one.
ghost use Rattle.std.specs.Prelude.{◌≡◌, ◌≤◌, ◌+◌, ◌++◌, ℕ, List, Some, IfOk, OnOk, length, map, nat_le, pred};
ghost use Rattle.std.specs.List.{All};
ghost use Rattle.sn_net.specs.declared.net.Merge.{Merge as Merging};
ghost use Rattle.sn_net.specs.declared.net.Net.{Net as Network};
ghost use Rattle.sn_net.specs.declared.net.Net.TheViews.{out-Net};
ghost use Rattle.sn_net.specs.WellFormed.{FitsBoxes, IsWellFormed, most_branches};
ghost use Rattle.sn_planned.specs.Flat.{branches_in, choice_of, flattened, in_place, is_same_merge, spread};
ghost use Rattle.sn_plan.specs.Replaced.{replaced};

use crate::choices::choice_of;
use crate::copies::{filter_of, split_of, star_of, sync_of};
use sn_list::{Boxed, Memory, Seq};
use sn_net::{Boxes, Merge, Net};
use sn_stack::append;
use std::alloc::Global;

/// How many branches a choice may have.
const MOST_BRANCHES: usize = 64;

/// Whether both merge in the same way.
fn is_same_merge(one: Merge, other: Merge) -> bool
    ensures { result ≡ is_same_merge one other }
{
    match (one, other) {
        (Merge::Free, Merge::Free) | (Merge::Det, Merge::Det) => true,
        (Merge::Free, Merge::Det) | (Merge::Det, Merge::Free) => false,
    }
}

/// Whether a choice of `count` branches may have `more` in place of one.
fn has_room(count: usize, more: usize) -> bool
    requires { count ≤ most_branches }
    ensures { result ≡ nat_le (pred count + more) most_branches }
{
    more <= MOST_BRANCHES - count.saturating_sub(1)
}

/// Whether the net, a branch of a choice of `count` that merges so, gives way to its own branches.
fn is_replaced(net: &Net, merge: Merge, count: usize) -> bool
    requires { count ≤ most_branches }
    ensures { result ≡ replaced count (branches_in merge (out-Net net.now)) }
{
    match net {
        Net::Choice {
            merge: other,
            branches,
            ..
        } => is_same_merge(merge, *other) && has_room(count, branches.len()),
        Net::Box { .. }
        | Net::Filter(_)
        | Net::Sync { .. }
        | Net::Serial { .. }
        | Net::Star { .. }
        | Net::Split { .. } => false,
    }
}

/// Appends each of `more`.
fn append_all(nets: &mut Seq<Net>, more: Seq<Net>) -> Result<(), Memory>
    ensures { OnOk result (nets.new ≡ nets.old ++ more) }
{
    for net in more.into_vec() {
        append(nets, net)?;
    }
    Ok(())
}

/// The branches of a choice, and nothing of another net.
fn own_branches(alloc: Global, net: Net) -> Seq<Net>
    ensures { (merge : Merging) (inner : List Network) → branches_in merge (out-Net net) ≡ Some inner → result ≡ inner }
{
    match net {
        Net::Choice {
            place: _place,
            merge: _merge,
            branches,
            faces: _faces,
        } => branches,
        _net => Seq::new(alloc),
    }
}

/// Appends the net, a branch of a choice of `count` that merges so, or in its place its own branches. Answers how many the choice has then.
fn put_in(
    alloc: Global,
    branches: &mut Seq<Net>,
    count: usize,
    merge: Merge,
    net: Net,
) -> Result<usize, Memory>
    requires { count ≤ most_branches }
    ensures few { IfOk result (λ n. n ≤ most_branches) }
    ensures placed { (others : ℕ → List Network) → IfOk result (λ n. branches.new ++ others n ≡ branches.old ++ in_place count net (branches_in merge (out-Net net)) others) }
{
    if !is_replaced(&net, merge, count) {
        append(branches, net)?;
        return Ok(count);
    }
    let inner = own_branches(alloc, net);
    let more = inner.len();
    append_all(branches, inner)?;
    Ok(count.saturating_sub(1) + more)
}

/// The branches of a choice that merges so, with those of each in its place where they fit.
fn spread(alloc: Global, merge: Merge, nets: Seq<Net>) -> Result<Seq<Net>, Memory>
    requires { length nets ≤ most_branches }
    ensures { IfOk result (λ made. made ≡ spread merge (length nets) nets) }
{
    let mut count = nets.len();
    let mut branches = Seq::new(alloc);
    for net in nets.into_vec() {
        count = put_in(alloc, &mut branches, count, merge, net)?;
    }
    Ok(branches)
}

/// A choice of these flat branches, made flat itself.
fn flat_choice(
    alloc: Global,
    place: u32,
    merge: Merge,
    nets: Seq<Net>,
    boxes: &Boxes,
) -> Result<Net, Memory>
    requires few { length nets ≤ most_branches }
    requires formed { ∥ All (IsWellFormed boxes.now) nets ∥₁ }
    ensures { IfOk result (λ made. made ≡ choice_of boxes.now place merge (spread merge (length nets) nets)) }
{
    let branches = spread(alloc, merge, nets)?;
    choice_of(alloc, place, merge, branches, boxes)
}

/// The net in which each branch of a choice that is a choice of the same kind gave way to its branches, from the leaves up.
#[cycle(flattening)]
pub(crate) fn flatten(alloc: Global, net: &Net, boxes: &Boxes) -> Result<Net, Memory>
    requires { FitsBoxes boxes.now net.now }
    ensures { IfOk result (λ made. made ≡ flattened boxes.now net.now) }
{
    match net {
        Net::Box { place, number } => Ok(Net::Box {
            place: *place,
            number: *number,
        }),
        Net::Filter(filter) => filter_of(alloc, filter),
        Net::Sync { place, patterns } => sync_of(alloc, *place, patterns.as_slice()),
        Net::Serial { left, right } => {
            let left = flatten_boxed(alloc, left.get(), boxes)?;
            let right = flatten_boxed(alloc, right.get(), boxes)?;
            Ok(Net::Serial { left, right })
        }
        Net::Choice {
            place,
            merge,
            branches,
            ..
        } => {
            let nets = flatten_each(alloc, branches.as_slice(), boxes)?;
            flat_choice(alloc, *place, *merge, nets, boxes)
        }
        Net::Star {
            place,
            merge,
            body,
            exit,
            guard,
        } => {
            let body = flatten_boxed(alloc, body.get(), boxes)?;
            star_of(alloc, *place, *merge, body, exit, guard)
        }
        Net::Split {
            place,
            merge,
            body,
            tag,
        } => {
            let body = flatten_boxed(alloc, body.get(), boxes)?;
            Ok(split_of(*place, *merge, body, *tag))
        }
    }
}

/// Each of the nets, made flat.
#[cycle(flattening)]
fn flatten_each(alloc: Global, nets: &[Net], boxes: &Boxes) -> Result<Seq<Net>, Memory>
    requires { All (FitsBoxes boxes.now) nets.now }
    ensures { IfOk result (λ made. made ≡ map (flattened boxes.now) nets.now) }
{
    let mut made = Seq::new(alloc);
    for net in nets {
        let net = flatten(alloc, net, boxes)?;
        append(&mut made, net)?;
    }
    Ok(made)
}

/// The net, made flat, on the heap.
#[cycle(flattening)]
fn flatten_boxed(alloc: Global, net: &Net, boxes: &Boxes) -> Result<Boxed<Net>, Memory>
    requires { FitsBoxes boxes.now net.now }
    ensures { IfOk result (λ made. made ≡ flattened boxes.now net.now) }
{
    let made = flatten(alloc, net, boxes)?;
    Boxed::new(alloc, made)
}

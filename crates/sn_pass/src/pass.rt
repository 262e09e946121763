//! One item through a network: what a part gives flows into the next part at once.
ghost use Rattle.std.specs.Prelude.{◌≡◌, ◌≢◌, ℕ, ℤ, OnOk, false, map};
ghost use Rattle.std.specs.Ordering.{int_eq};
ghost use Rattle.sn_streams.specs.Keys.Key.{Branch, Value};
ghost use Rattle.sn_net.specs.declared.net.Merge.{Merge as SomeMerge};
ghost use Rattle.sn_net.specs.declared.net.Net.TheVariants.{Serial};
ghost use Rattle.sn_net.specs.WellFormed.{FitsBoxes};
ghost use Rattle.sn_net.specs.Dispatchers.{level};
ghost use Rattle.sn_net.specs.Item as model;
ghost use Rattle.sn_model.specs.Meaning.{tree};
ghost use Rattle.sn_model.specs.Run.{boxes_of, depth_of, setting_of};
ghost use Rattle.sn_pass.specs.Flowing.{flows};
ghost use Rattle.sn_pass.specs.Inputs.{HasInputs};
ghost use Rattle.sn_pass.specs.Keeping.{child_of};
ghost use Rattle.sn_pass.specs.Output.{given};
ghost use Rattle.sn_pass.specs.Passing.{IsAtStar, IsChoiceOf, IsSplitOf, Passes, PassesAll};
ghost use Rattle.sn_pass.specs.States.{held};

use crate::dispatch::{choose, split, tap};
use crate::flowing::Flowing;
use crate::kept::{
    Kept, Taken, into_branches, into_levels, into_parts, into_replicas, keep, keep_parts,
    keep_replica, take_replica,
};
use crate::leaf::{pass_box, pass_cell, pass_filter};
use crate::output::Output;
use crate::slots::{keep_branch, take_at};
use crate::waiting::{Waiting, settle};
use crate::walk::Walk;
use sn_list::{Memory, Seq};
use sn_net::Net;
use sn_record::{LabelSet, Record};
use sn_tagexpr::TagExpr;
use std::mem::replace;

/// Appends what a network gives for an item, and keeps what is to be kept behind it. Calls go as deep as the network's tree.
#[cycle(pass)]
pub fn pass(
    walk: &Walk,
    net: &Net,
    kept: &mut Kept,
    item: Flowing,
    out: &mut Output,
) -> Result<(), Memory>
    requires formed { FitsBoxes (boxes_of walk.now.run.now) net.now }
    requires inputs { HasInputs walk.now }
    ensures { OnOk result (Passes (tree (setting_of walk.now.run.now) net.now) (held kept.old) (held kept.new) (flows item) (given out.old) (given out.new)) }
{
    match net {
        Net::Box { place, number } => pass_box(walk, *place, *number, item, &mut out.given),
        Net::Filter(filter) => pass_filter(walk.alloc, filter, item, out),
        Net::Sync { place, patterns } => {
            pass_cell(
                walk.alloc,
                *place,
                patterns.as_slice(),
                kept,
                item,
                &mut out.given,
            )
        }
        Net::Serial { left, right } => {
            pass_series(walk, left.get(), right.get(), kept, item, out)
        }
        Net::Choice {
            place,
            branches,
            faces,
            ..
        } => pass_choice(walk, branches, net, *place, faces, kept, item, out),
        Net::Star {
            place,
            body,
            exit,
            guard,
            ..
        } => pass_star(walk, body.get(), net, *place, exit, guard, kept, item, out),
        Net::Split {
            place,
            body,
            tag,
            ..
        } => pass_split(walk, body.get(), net, *place, *tag, kept, item, out),
    }
}

/// An item through two networks in series: what the left one gives goes through the right one.
#[cycle(pass)]
fn pass_series(
    walk: &Walk,
    left: &Net,
    right: &Net,
    kept: &mut Kept,
    item: Flowing,
    out: &mut Output,
) -> Result<(), Memory>
    requires left { FitsBoxes (boxes_of walk.now.run.now) left.now }
    requires right { FitsBoxes (boxes_of walk.now.run.now) right.now }
    requires inputs { HasInputs walk.now }
    ensures { OnOk result (Passes (tree (setting_of walk.now.run.now) (Serial left.now right.now)) (held kept.old) (held kept.new) (flows item) (given out.old) (given out.new)) }
{
    let (left_state, right_state) = into_parts(replace(kept, Kept::Fresh));
    let mut first = Taken { state: left_state };
    let mut second = Taken { state: right_state };
    let before = out.begin(walk.alloc);
    pass(walk, left, &mut first.state, item, out)?;
    let between = out.end(before);
    pass_each(walk, right, &mut second.state, between, out)?;
    keep_parts(kept, walk.alloc, first, second)
}

/// An item through a choice: a record goes through the branch that it matches best, and all else passes the branches by.
#[cycle(pass)]
fn pass_choice(
    walk: &Walk,
    branches: &Seq<Net>,
    choice: &Net,
    place: u32,
    faces: &Seq<Seq<LabelSet>>,
    kept: &mut Kept,
    item: Flowing,
    out: &mut Output,
) -> Result<(), Memory>
    requires formed { FitsBoxes (boxes_of walk.now.run.now) choice.now }
    requires inputs { HasInputs walk.now }
    requires parts { IsChoiceOf choice.now place branches.now faces.now }
    ensures { OnOk result (Passes (tree (setting_of walk.now.run.now) choice.now) (held kept.old) (held kept.new) (flows item) (given out.old) (given out.new)) }
{
    let (number, taken) = match choose(choice, place, faces.as_slice(), item, &mut out.given)? {
        Some(picked) => picked,
        None => return Ok(()),
    };
    let nets = branches.as_slice();
    pass_branch(walk, &nets[number as usize], number, kept, taken, out)
}

/// An item through a split: a record goes through the replica for the value of its tag, and all else passes the replicas by.
#[cycle(pass)]
fn pass_split(
    walk: &Walk,
    body: &Net,
    whole: &Net,
    place: u32,
    tag: u32,
    kept: &mut Kept,
    item: Flowing,
    out: &mut Output,
) -> Result<(), Memory>
    requires formed { FitsBoxes (boxes_of walk.now.run.now) whole.now }
    requires inputs { HasInputs walk.now }
    requires parts { IsSplitOf whole.now place body.now tag }
    ensures { OnOk result (Passes (tree (setting_of walk.now.run.now) whole.now) (held kept.old) (held kept.new) (flows item) (given out.old) (given out.new)) }
{
    let (value, taken) = match split(whole, place, tag, item, &mut out.given)? {
        Some(picked) => picked,
        None => return Ok(()),
    };
    pass_replica(walk, body, value, kept, taken, out)
}

/// Items through a network, one behind the other.
#[cycle(pass)]
fn pass_each(
    walk: &Walk,
    net: &Net,
    kept: &mut Kept,
    items: Seq<Flowing>,
    out: &mut Output,
) -> Result<(), Memory>
    requires formed { FitsBoxes (boxes_of walk.now.run.now) net.now }
    requires inputs { HasInputs walk.now }
    ensures { OnOk result (PassesAll (tree (setting_of walk.now.run.now) net.now) (held kept.old) (held kept.new) (map flows items) (given out.old) (given out.new)) }
{
    let mut items = items.into_vec();
    for item in items.drain(..) {
        pass(walk, net, kept, item, out)?;
    }
    out.put_by(items)
}

/// A record through the branch of a number, with what is kept for it among the branches of its choice.
#[cycle(pass)]
fn pass_branch(
    walk: &Walk,
    branch: &Net,
    number: u32,
    kept: &mut Kept,
    taken: Record,
    out: &mut Output,
) -> Result<(), Memory>
    requires formed { FitsBoxes (boxes_of walk.now.run.now) branch.now }
    requires inputs { HasInputs walk.now }
    ensures passes { OnOk result (Passes (tree (setting_of walk.now.run.now) branch.now) (child_of (held kept.old) (Branch number)) (child_of (held kept.new) (Branch number))
        (model.Rec taken) (given out.old) (given out.new)) }
    ensures others { OnOk result ((j : ℕ) → j ≢ number → child_of (held kept.new) (Branch j) ≡ child_of (held kept.old) (Branch j)) }
{
    let mut branches = into_branches(replace(kept, Kept::Fresh), walk.alloc);
    let state = take_at(&mut branches, number as usize);
    let mut own = Taken { state };
    pass(walk, branch, &mut own.state, Flowing::Rec(taken), out)?;
    keep_branch(kept, branches, number as usize, own)
}

/// A record through the replica for a value, with what is kept for it among the replicas of its split.
#[cycle(pass)]
fn pass_replica(
    walk: &Walk,
    body: &Net,
    value: i64,
    kept: &mut Kept,
    taken: Record,
    out: &mut Output,
) -> Result<(), Memory>
    requires formed { FitsBoxes (boxes_of walk.now.run.now) body.now }
    requires inputs { HasInputs walk.now }
    ensures passes { OnOk result (Passes (tree (setting_of walk.now.run.now) body.now) (child_of (held kept.old) (Value value)) (child_of (held kept.new) (Value value))
        (model.Rec taken) (given out.old) (given out.new)) }
    ensures others { OnOk result ((k : ℤ) → int_eq k value ≡ false → child_of (held kept.new) (Value k) ≡ child_of (held kept.old) (Value k)) }
{
    let mut replicas = into_replicas(replace(kept, Kept::Fresh), walk.alloc);
    let state = take_replica(&mut replicas, value);
    let mut own = Taken { state };
    pass(walk, body, &mut own.state, Flowing::Rec(taken), out)?;
    keep_replica(kept, replicas, value, own)
}

/// An item through a star: what comes to its levels is worked off from a list, so that calls go no deeper than the body's tree.
#[cycle(pass)]
fn pass_star(
    walk: &Walk,
    body: &Net,
    star: &Net,
    place: u32,
    exit: &LabelSet,
    guard: &Option<TagExpr>,
    kept: &mut Kept,
    item: Flowing,
    out: &mut Output,
) -> Result<(), Memory>
    requires formed { FitsBoxes (boxes_of walk.now.run.now) body.now }
    requires inputs { HasInputs walk.now }
    requires star { IsAtStar star.now place exit.now guard.now }
    ensures { OnOk result ((m : SomeMerge) → Passes (level place m exit.now guard.now (tree (setting_of walk.now.run.now) body.now) (depth_of walk.now.run.now))
        (held kept.old) (held kept.new) (flows item) (given out.old) (given out.new)) }
{
    let depth = walk.run.depth();
    let mut waiting = Vec::new(walk.alloc);
    waiting.push(Waiting { level: 0, item })?;
    let mut levels = into_levels(replace(kept, Kept::Fresh), walk.alloc);
    while let Some(next) = waiting.pop() {
        let Waiting { level, item } = next;
        let taken = match tap(
            star,
            place,
            exit,
            guard,
            depth - level,
            item,
            &mut out.given,
        )? {
            Some(taken) => taken,
            None => continue,
        };
        let state = take_at(&mut levels, level as usize);
        let mut own = Taken { state };
        let before = out.begin(walk.alloc);
        pass(walk, body, &mut own.state, Flowing::Rec(taken), out)?;
        let made = out.end(before);
        settle(&mut levels, &mut waiting, level, level + 1, own, made, out)?;
    }
    keep(kept, Kept::Levels(levels));
    Ok(())
}

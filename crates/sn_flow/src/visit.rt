//! Visits: what is reached from a variant, with each part's table.
ghost use Rattle.std.specs.Prelude.{◌≡◌, ◌<◌, ◌&&◌, ℕ, length, map, not};
ghost use Rattle.std.specs.List.{All};
ghost use Rattle.sn_record.specs.LabelSet.{Labels};
ghost use Rattle.sn_record.specs.Fits.{fits};
ghost use Rattle.sn_net.specs.WellFormed.{IsSoundChoice, FitsBoxes};
ghost use Rattle.sn_typing.specs.Outline.{Choice, Series, Split, Star, branch_of, is_guarded, outline};
ghost use Rattle.sn_flow.specs.declared.table.Table.{Table as SomeTable};
ghost use Rattle.sn_flow.specs.Visits.{FormVisited, PartVisited, PartVisitedAll, Turned, Visited, WithExit, after, beside};

use crate::chosen::{chosen, has_face};
use crate::flows::{box_flow, cell_flow, filter_flow};
use crate::indexed::Indexed;
use crate::sets::{MOST_VARIANTS, add, add_found, add_union, bind_alike, fits};
use crate::stop::Stop;
use crate::table::{Table, add_row, has_row, put_back, take_out};
use sn_list::Seq;
use sn_net::{Boxes, Net, TagExpr};
use sn_record::{Kind, Label, LabelSet};
use std::alloc::Global;

/// Visits the network with the variant: its table has a row for the variant then.
#[cycle(visits)]
pub fn visit(
    alloc: Global,
    net: &Net,
    boxes: &Boxes,
    table: &mut Table,
    variant: &LabelSet,
) -> Result<(), Stop>
    requires { FitsBoxes boxes.now net.now }
    ensures { Visited (outline boxes.now net.now) variant.now table.old (after table.new result) }
{
    let known = has_row(alloc, &table.rows, variant)?;
    if known {
        return Ok(());
    }
    if table.rows.len() >= MOST_VARIANTS {
        return Err(Stop::TooMany);
    }
    let flow = visit_form(alloc, net, boxes, &mut table.parts, variant)?;
    add_row(alloc, &mut table.rows, variant, flow)
}

/// Visits the parts of the network as its form has it, and answers what flows out for the variant.
#[cycle(visits)]
fn visit_form(
    alloc: Global,
    net: &Net,
    boxes: &Boxes,
    parts: &mut Seq<Table>,
    variant: &LabelSet,
) -> Result<Seq<LabelSet>, Stop>
    requires { FitsBoxes boxes.now net.now }
    ensures { FormVisited (outline boxes.now net.now) variant.now parts.old (beside parts.new result) }
{
    match net {
        Net::Box { number, .. } => box_flow(alloc, boxes.at(*number as usize), variant),
        Net::Filter(filter) => filter_flow(alloc, filter, variant),
        Net::Sync { patterns, .. } => cell_flow(alloc, patterns.as_slice(), variant),
        Net::Serial { left, right } => {
            visit_series(alloc, left.get(), right.get(), boxes, parts, variant)
        }
        Net::Choice {
            branches,
            faces,
            ..
        } => {
            let branches = branches.as_slice();
            visit_choice(alloc, branches, faces.as_slice(), boxes, parts, variant)
        }
        Net::Star {
            body,
            exit,
            guard,
            ..
        } => visit_star(alloc, body.get(), exit, guard, boxes, parts, variant),
        Net::Split { body, tag, .. } => {
            visit_split(alloc, body.get(), *tag, boxes, parts, variant)
        }
    }
}

/// The same for two networks in series: the second is visited with what flows out of the first.
#[cycle(visits)]
fn visit_series(
    alloc: Global,
    left: &Net,
    right: &Net,
    boxes: &Boxes,
    parts: &mut Seq<Table>,
    variant: &LabelSet,
) -> Result<Seq<LabelSet>, Stop>
    requires left { FitsBoxes boxes.now left.now }
    requires right { FitsBoxes boxes.now right.now }
    ensures { FormVisited (Series (outline boxes.now left.now) (outline boxes.now right.now)) variant.now parts.old (beside parts.new result) }
{
    let middle = visit_part(alloc, left, boxes, parts, 0, variant)?;
    visit_part_with(alloc, right, boxes, parts, 1, middle.as_slice())
}

/// The same for a choice of branches with these faces: each branch is visited with what is sent to it.
#[cycle(visits)]
fn visit_choice(
    alloc: Global,
    branches: &[Net],
    faces: &[Seq<LabelSet>],
    boxes: &Boxes,
    parts: &mut Seq<Table>,
    variant: &LabelSet,
) -> Result<Seq<LabelSet>, Stop>
    requires formed { All (FitsBoxes boxes.now) branches.now }
    requires sound { IsSoundChoice boxes.now branches.now faces.now }
    ensures { (place : ℕ) → FormVisited (Choice place faces.now (branch_of (map (outline boxes.now) branches.now))) variant.now parts.old (beside parts.new result) }
{
    if !has_face(faces, variant) {
        return Ok(Seq::new(alloc));
    }
    let mut flow = Indexed::new(alloc);
    for i in 0..branches.len() {
        let sent = chosen(alloc, faces, i, variant, faces[i].as_slice())?;
        let found = visit_part_with(alloc, &branches[i], boxes, parts, i, sent.as_slice());
        add_found(alloc, &mut flow, found)?;
    }
    Ok(flow.into_seq())
}

/// The same for a star: its body is visited with all that comes and stays, and all that comes flows out, with the exit.
#[cycle(visits)]
fn visit_star(
    alloc: Global,
    body: &Net,
    exit: &LabelSet,
    guard: &Option<TagExpr>,
    boxes: &Boxes,
    parts: &mut Seq<Table>,
    variant: &LabelSet,
) -> Result<Seq<LabelSet>, Stop>
    requires { FitsBoxes boxes.now body.now }
    ensures { FormVisited (Star exit.now (is_guarded guard.now) (outline boxes.now body.now)) variant.now parts.old (beside parts.new result) }
{
    let mut members = Indexed::new(alloc);
    add(alloc, &mut members, variant)?;
    let mut i = 0;
    while i < members.len() {
        visit_member(
            alloc,
            body,
            boxes,
            parts,
            exit,
            guard.is_some(),
            &mut members,
            i,
        )?;
        i += 1;
    }
    with_exit(alloc, members.as_slice(), exit)
}

/// The same for a split, which has a route where the variant has its tag.
#[cycle(visits)]
fn visit_split(
    alloc: Global,
    body: &Net,
    tag: u32,
    boxes: &Boxes,
    parts: &mut Seq<Table>,
    variant: &LabelSet,
) -> Result<Seq<LabelSet>, Stop>
    requires { FitsBoxes boxes.now body.now }
    ensures { (place : ℕ) → FormVisited (Split place tag (outline boxes.now body.now)) variant.now parts.old (beside parts.new result) }
{
    let label = Label {
        kind: Kind::Tag,
        id: tag,
    };
    if !variant.contains(label) {
        return Ok(Seq::new(alloc));
    }
    visit_part(alloc, body, boxes, parts, 0, variant)
}

/// Visits the i-th part with the variant, and answers what flows out of it.
#[cycle(visits)]
fn visit_part(
    alloc: Global,
    net: &Net,
    boxes: &Boxes,
    parts: &mut Seq<Table>,
    i: usize,
    variant: &LabelSet,
) -> Result<Seq<LabelSet>, Stop>
    requires formed { FitsBoxes boxes.now net.now }
    requires few { i < 64 }
    ensures { PartVisited (outline boxes.now net.now) i variant.now parts.old parts.new result }
{
    let mut part = take_out(alloc, parts, i);
    let visited = visit(alloc, net, boxes, &mut part, variant);
    put_back(alloc, parts, i, part, variant, visited)
}

/// Visits the i-th part with each of the variants, and answers what flows out of it for these together.
#[cycle(visits)]
fn visit_part_with(
    alloc: Global,
    net: &Net,
    boxes: &Boxes,
    parts: &mut Seq<Table>,
    i: usize,
    variants: &[LabelSet],
) -> Result<Seq<LabelSet>, Stop>
    requires formed { FitsBoxes boxes.now net.now }
    requires few { i < 64 }
    ensures { PartVisitedAll (outline boxes.now net.now) i variants.now parts.old parts.new result }
{
    let mut flow = Indexed::new(alloc);
    for variant in variants {
        let found = visit_part(alloc, net, boxes, parts, i, variant);
        add_found(alloc, &mut flow, found)?;
    }
    Ok(flow.into_seq())
}

/// Whether records of the variant surely leave.
fn leaves(exit: &LabelSet, guarded: bool, variant: &LabelSet) -> bool
    ensures { result ≡ (not guarded && fits exit.now variant.now) }
{
    !guarded && fits(exit, variant)
}

/// Visits a star's body, its only part, with the i-th of what comes from the variant, if that stays, and adds what flows out.
#[cycle(visits)]
fn visit_member(
    alloc: Global,
    body: &Net,
    boxes: &Boxes,
    parts: &mut Seq<Table>,
    exit: &LabelSet,
    guarded: bool,
    members: &mut Indexed<LabelSet>,
    i: usize,
) -> Result<(), Stop>
    requires formed { FitsBoxes boxes.now body.now }
    requires there { i < length members.old }
    ensures { (v : Labels) (before : SomeTable) → Turned exit.now guarded (outline boxes.now body.now) v before i parts.old members.old parts.new members.new result }
{
    let member = members.at(i).copy()?;
    if leaves(exit, guarded, &member) {
        return Ok(());
    }
    let found = visit_part(alloc, body, boxes, parts, 0, &member);
    add_found(alloc, members, found)
}

/// Each of the variants that have the binding tags of the exit, with it.
fn with_exit(alloc: Global, members: &[LabelSet], exit: &LabelSet) -> Result<Seq<LabelSet>, Stop>
    ensures { WithExit members.now exit.now result }
{
    let mut flow = Indexed::new(alloc);
    for member in members {
        if !bind_alike(member, exit) {
            continue;
        }
        add_union(alloc, &mut flow, member, exit)?;
    }
    Ok(flow.into_seq())
}

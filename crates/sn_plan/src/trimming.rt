//! Choices without branches that nothing is sent to.
ghost use Rattle.std.specs.Prelude.{◌≡◌, List, IfOk};
ghost use Rattle.sn_record.specs.LabelSet.{Labels};
ghost use Rattle.sn_net.specs.WellFormed.{FitsBoxes};
ghost use Rattle.sn_typing.specs.Outline.{Outline, outline};
ghost use Rattle.sn_typing.specs.Reached.{Turn};
ghost use Rattle.sn_flow.specs.Tables.{child, no_table, part_at};
ghost use Rattle.sn_planned.specs.Trimmed.{Trimmed, keep_or_drop, kept};
ghost use Rattle.sn_plan.specs.Used.{StandsAt, behind, is_used};

use crate::choices::choice_of;
use crate::copies::split_of;
use sn_flow::{Indexed, Table};
use sn_list::{Boxed, Memory, Seq};
use sn_net::{Boxes, Net};
use std::alloc::Global;

/// A table of nothing, which takes no memory.
fn no_table(alloc: Global) -> Table
    ensures { result ≡ no_table }
{
    Table {
        rows: Indexed::new(alloc),
        parts: Seq::new(alloc),
    }
}

/// The i-th table, or `nothing` where there is none.
fn part_of<'a>(parts: &'a [Table], i: usize, nothing: &'a Table) -> &'a Table
    requires { nothing.now ≡ no_table }
    ensures { result.now ≡ part_at parts.now i }
{
    match parts.get(i) {
        Some(part) => part,
        None => nothing,
    }
}

/// Whether something is sent to the i-th branch.
fn is_used(table: &Table, i: usize) -> bool
    ensures { result ≡ is_used table.now i }
{
    match table.parts.as_slice().get(i) {
        Some(part) => part.rows.len() != 0,
        None => false,
    }
}

/// Appends the branch, unless it may be dropped. Answers how many more may be.
fn keep_or_drop(nets: &mut Vec<Net>, net: Net, used: bool, spare: usize) -> Result<usize, Memory>
    ensures { IfOk result (λ n. behind nets.new.items n ≡ keep_or_drop used net (behind nets.old.items spare)) }
{
    if !used && spare > 0 {
        return Ok(spare - 1);
    }
    nets.push(net)?;
    Ok(spare)
}

/// The branches of a choice with this table that are used, and those of the others that may not be dropped.
fn keep(alloc: Global, branches: Seq<Net>, table: &Table) -> Result<Seq<Net>, Memory>
    ensures { IfOk result (λ nets. nets ≡ kept (is_used table.now) branches) }
{
    let mut spare = branches.len().saturating_sub(2);
    let mut rest = branches.into_vec();
    let mut nets = Vec::new(alloc);
    while let Some(net) = rest.pop() {
        let used = is_used(table, rest.len());
        spare = keep_or_drop(&mut nets, net, used, spare)?;
    }
    nets.reverse();
    Ok(Seq::from_vec(nets))
}

/// The network without branches that nothing is sent to, by the table of what reaches it. No choice within a branch is changed.
#[cycle(trimming)]
pub(crate) fn trim(alloc: Global, net: Net, boxes: &Boxes, table: &Table) -> Result<Net, Memory>
    requires { FitsBoxes boxes.now net }
    ensures { (root : Outline) (input : List Labels) (way : List Turn) → StandsAt root input way (outline boxes.now net) table.now → IfOk result (Trimmed boxes.now root input way net) }
{
    match net {
        Net::Box { place, number } => Ok(Net::Box { place, number }),
        Net::Filter(filter) => Ok(Net::Filter(filter)),
        Net::Sync { place, patterns } => Ok(Net::Sync { place, patterns }),
        Net::Serial { left, right } => {
            let left = trim_part(alloc, left, boxes, table, 0)?;
            let right = trim_part(alloc, right, boxes, table, 1)?;
            Ok(Net::Serial { left, right })
        }
        Net::Choice {
            place,
            merge,
            branches,
            faces: _faces,
        } => {
            let branches = keep(alloc, branches, table)?;
            choice_of(alloc, place, merge, branches, boxes)
        }
        Net::Star {
            place,
            merge,
            body,
            exit,
            guard,
        } => {
            let body = trim_part(alloc, body, boxes, table, 0)?;
            Ok(Net::Star {
                place,
                merge,
                body,
                exit,
                guard,
            })
        }
        Net::Split {
            place,
            merge,
            body,
            tag,
        } => {
            let body = trim_part(alloc, body, boxes, table, 0)?;
            Ok(split_of(place, merge, body, tag))
        }
    }
}

/// The i-th part of a network with this table, made so.
#[cycle(trimming)]
fn trim_part(
    alloc: Global,
    net: Boxed<Net>,
    boxes: &Boxes,
    table: &Table,
    i: usize,
) -> Result<Boxed<Net>, Memory>
    requires { FitsBoxes boxes.now net }
    ensures { (root : Outline) (input : List Labels) (way : List Turn) → StandsAt root input way (outline boxes.now net) (child table.now i) → IfOk result (Trimmed boxes.now root input way net) }
{
    let nothing = no_table(alloc);
    let part = part_of(table.parts.as_slice(), i, &nothing);
    let made = trim(alloc, net.into_inner(), boxes, part)?;
    Boxed::new(alloc, made)
}

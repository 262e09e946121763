ghost use Rattle.std.specs.Prelude.{◌≡◌, ◌<◌, ℕ, false, IfOk, length};
ghost use Rattle.std.specs.List.{list_any};
ghost use Rattle.sn_types.specs.RecordType.{is_same};
ghost use Rattle.sn_flow.specs.Tables.{no_table, part_at};
ghost use Rattle.sn_flow.specs.Visits.{PutBack, RowAdded, SameElsewhere, flow_in};

use crate::indexed::{Indexed, OfVariant};
use crate::stop::Stop;
use sn_list::{Memory, Seq};
use sn_net::copy_sets;
use sn_record::LabelSet;
use sn_stack::append;
use std::alloc::Global;
use std::mem;

/// What a part of a network answers to a variant that reached it.
#[derive(Drop)]
pub struct Row {
    pub variant: LabelSet,
    pub flow: Seq<LabelSet>,
}

impl OfVariant for Row {
    ghost variant_of = { λ row. row.variant };

    fn variant(&self) -> &LabelSet {
        &self.variant
    }
}

/// The rows of the variants that reached a part, and the tables of the parts within it, as far as these were reached.
#[derive(Drop)]
pub struct Table {
    pub rows: Indexed<Row>,
    pub parts: Seq<Table>,
}

/// A table of nothing, which takes no memory.
pub fn no_table(alloc: Global) -> Table
    ensures { result ≡ no_table }
{
    Table {
        rows: Indexed::new(alloc),
        parts: Seq::new(alloc),
    }
}

/// Whether some row is of the variant.
pub fn has_row(alloc: Global, rows: &Indexed<Row>, variant: &LabelSet) -> Result<bool, Memory>
    ensures { IfOk result (λ known. known ≡ list_any (λ row. is_same row.variant variant.now) rows.now) }
{
    rows.has(alloc, variant)
}

/// A copy of the flow of the variant.
pub fn flow_of(
    alloc: Global,
    rows: &Indexed<Row>,
    variant: &LabelSet,
) -> Result<Seq<LabelSet>, Memory>
    ensures { IfOk result (λ flow. flow ≡ flow_in rows.now variant.now) }
{
    match rows.find(alloc, variant)? {
        Some(row) => copy_sets(alloc, row.flow.as_slice()),
        None => Ok(Seq::new(alloc)),
    }
}

/// Adds a row of a new variant.
pub fn add_row(
    alloc: Global,
    rows: &mut Indexed<Row>,
    variant: &LabelSet,
    flow: Seq<LabelSet>,
) -> Result<(), Stop>
    requires { list_any (λ row. is_same row.variant variant.now) rows.old ≡ false }
    ensures { RowAdded rows.old variant.now flow rows.new result }
{
    let variant = variant.copy()?;
    rows.push(alloc, Row { variant, flow })?;
    Ok(())
}

/// The i-th table, or `nothing` where there is none.
pub fn part_of<'a>(parts: &'a [Table], i: usize, nothing: &'a Table) -> &'a Table
    requires { nothing.now ≡ no_table }
    ensures { result.now ≡ part_at parts.now i }
{
    match parts.get(i) {
        Some(part) => part,
        None => nothing,
    }
}

/// Takes the i-th of the tables out.
fn taken(alloc: Global, parts: &mut Vec<Table>, i: usize) -> Table
    ensures part { result ≡ part_at parts.old.items i }
    ensures others { SameElsewhere i parts.old.items parts.new.items }
{
    if i >= parts.len() {
        return no_table(alloc);
    }
    mem::replace(&mut parts[i], no_table(alloc))
}

/// The tables, with tables of nothing behind them up to the i-th.
fn padded(alloc: Global, parts: Seq<Table>, i: usize) -> Result<Seq<Table>, Memory>
    requires { i < 64 }
    ensures same { IfOk result (λ all. (j : ℕ) → part_at all j ≡ part_at parts j) }
    ensures long { IfOk result (λ all. i < length all) }
{
    let mut all = parts;
    for _ in all.len()..i + 1 {
        append(&mut all, no_table(alloc))?;
    }
    Ok(all)
}

/// The tables with another one at i.
pub fn put_part(
    alloc: Global,
    parts: Seq<Table>,
    i: usize,
    part: Table,
) -> Result<Seq<Table>, Memory>
    requires { i < 64 }
    ensures part { IfOk result (λ all. part_at all i ≡ part) }
    ensures others { IfOk result (λ all. SameElsewhere i parts all) }
{
    let all = padded(alloc, parts, i)?;
    let mut all = all.into_vec();
    drop(mem::replace(&mut all[i], part));
    Ok(Seq::from_vec(all))
}

/// Takes the i-th table out, and leaves the others.
pub fn take_out(alloc: Global, parts: &mut Seq<Table>, i: usize) -> Table
    ensures part { result ≡ part_at parts.old i }
    ensures others { SameElsewhere i parts.old parts.new }
{
    let mut all = mem::replace(parts, Seq::new(alloc)).into_vec();
    let part = taken(alloc, &mut all, i);
    *parts = Seq::from_vec(all);
    part
}

/// Puts the i-th table back after a visit with the variant, and answers a copy of the variant's flow, or why the visit stopped.
pub fn put_back(
    alloc: Global,
    parts: &mut Seq<Table>,
    i: usize,
    part: Table,
    variant: &LabelSet,
    visited: Result<(), Stop>,
) -> Result<Seq<LabelSet>, Stop>
    requires { i < 64 }
    ensures { PutBack parts.old i part variant.now visited parts.new result }
{
    visited?;
    let flow = flow_of(alloc, &part.rows, variant)?;
    let others = mem::replace(parts, Seq::new(alloc));
    *parts = put_part(alloc, others, i, part)?;
    Ok(flow)
}

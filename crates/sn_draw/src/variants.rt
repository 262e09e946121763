//! What flows along an edge, as its label.
use sn_flow::{Row, Table};
use sn_list::{Memory, Seq};
use sn_names::Names;
use sn_net::ascending;
use sn_output::push_variant;
use sn_record::{LabelSet, Text};
use sn_stack::append;
use std::alloc::Global;

/// So many variants a label shows.
const MOST_SHOWN: usize = 6;

/// A variant a line, the first six of them.
fn lines_of(alloc: Global, names: &Names, variants: &[LabelSet]) -> Result<Text, Memory> {
    let mut text = Seq::new(alloc);
    for (i, variant) in variants.iter().enumerate() {
        if i > 0 {
            text.extend_from_slice(b"\n")?;
        }
        if i >= MOST_SHOWN {
            text.extend_from_slice(b"and others")?;
            return Ok(text);
        }
        push_variant(alloc, &mut text, variant, names)?;
    }
    Ok(text)
}

/// The variants that reach a part.
fn reaching(alloc: Global, rows: &[Row]) -> Result<Seq<LabelSet>, Memory> {
    let mut variants = Seq::new(alloc);
    for row in rows {
        append(&mut variants, row.variant.copy()?)?;
    }
    Ok(ascending(variants))
}

/// Appends a copy of each.
fn append_copies(variants: &mut Seq<LabelSet>, more: &[LabelSet]) -> Result<(), Memory> {
    for variant in more {
        append(variants, variant.copy()?)?;
    }
    Ok(())
}

/// The variants that leave a part.
fn leaving(alloc: Global, rows: &[Row]) -> Result<Seq<LabelSet>, Memory> {
    let mut variants = Seq::new(alloc);
    for row in rows {
        append_copies(&mut variants, row.flow.as_slice())?;
    }
    Ok(ascending(variants))
}

/// The rows of a part's table, if it was reached.
fn rows_of<'a>(table: Option<&'a Table>) -> &'a [Row] {
    match table {
        Some(table) => table.rows.as_slice(),
        None => &[],
    }
}

/// The table of the i-th part, if it was reached.
pub fn part_of<'a>(table: Option<&'a Table>, i: usize) -> Option<&'a Table> {
    table?.parts.as_slice().get(i)
}

/// What reaches a part, a variant a line. It is empty where nothing does.
pub fn reaching_text(alloc: Global, names: &Names, table: Option<&Table>) -> Result<Text, Memory> {
    let variants = reaching(alloc, rows_of(table))?;
    lines_of(alloc, names, variants.as_slice())
}

/// What leaves a part, a variant a line. It is empty where nothing does.
pub fn leaving_text(alloc: Global, names: &Names, table: Option<&Table>) -> Result<Text, Memory> {
    let variants = leaving(alloc, rows_of(table))?;
    lines_of(alloc, names, variants.as_slice())
}

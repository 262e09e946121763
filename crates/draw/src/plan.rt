//! What a plan keeps of a network, and what it drops.
use crate::refusal::Refusal;
use sn_draw::{Shape, Statement};
use sn_list::{Memory, Seq};
use sn_net::Net;
use sn_plan::count_nodes;
use sn_record::Text;
use std::alloc::Global;

/// So many parts a title names at most.
const MOST_NAMED: usize = 12;

/// A network, and the statements of its picture.
#[derive(Drop)]
pub struct Drawn<'a> {
    pub net: &'a Net,
    pub statements: &'a [Statement],
}

/// The label of a part, where the statement is the one that shows it.
fn label_of(statement: &Statement) -> Option<&[u8]> {
    match statement {
        Statement::Open { label, .. } => Some(label.as_slice()),
        Statement::Node { shape, label, .. } => match shape {
            Shape::Box | Shape::Filter | Shape::Cell => Some(label.as_slice()),
            Shape::End | Shape::Fork | Shape::MergeInOrder | Shape::MergeFreely => None,
        },
        Statement::Close | Statement::Edge { .. } => None,
    }
}

/// The labels of the parts in a picture, each before those of what is in it.
fn labels_of<'a>(alloc: Global, statements: &'a [Statement]) -> Result<Vec<&'a [u8]>, Memory> {
    let mut labels = Vec::new(alloc);
    for statement in statements {
        if let Some(label) = label_of(statement) {
            labels.push(label)?;
        }
    }
    Ok(labels)
}

/// The labels of which none is left for `planned`, which are some of them in their order.
fn dropped<'a>(
    alloc: Global,
    labels: &[&'a [u8]],
    planned: &[&[u8]],
) -> Result<Vec<&'a [u8]>, Memory> {
    let mut rest = planned.iter();
    let mut next = rest.next();
    let mut others = Vec::new(alloc);
    for label in labels {
        match next {
            Some(wanted) if *wanted == *label => next = rest.next(),
            _ => others.push(*label)?,
        }
    }
    Ok(others)
}

/// Appends a label as one line: the first of its lines, and the last, which has the place.
fn push_label(alloc: Global, text: &mut Text, label: &[u8]) -> Result<(), Memory> {
    let mut breaks = 0u64;
    let mut last = Seq::new(alloc);
    for byte in label {
        if *byte == b'\n' {
            breaks = breaks.saturating_add(1);
            last = Seq::new(alloc);
        } else if breaks == 0 {
            text.extend_from_slice(&[*byte])?;
        } else {
            last.extend_from_slice(&[*byte])?;
        }
    }
    if breaks > 1 {
        text.extend_from_slice(b" ...")?;
    }
    if breaks > 0 {
        text.extend_from_slice(b" ")?;
    }
    text.extend_from_slice(last.as_slice())
}

/// Appends a line for each of the labels, the first twelve of them, and how many more there are.
fn push_labels(alloc: Global, text: &mut Text, labels: &[&[u8]]) -> Result<(), Refusal> {
    for label in labels.iter().take(MOST_NAMED) {
        text.extend_from_slice(b"\nwithout ")?;
        push_label(alloc, text, label)?;
    }
    if labels.len() > MOST_NAMED {
        let more = labels.len() - MOST_NAMED;
        text.extend_from_slice(format!(in alloc; "\nand {more} more")?.as_bytes())?;
    }
    Ok(())
}

/// Appends what a title says of a plan: how many nodes the network has, how many are planned, and the parts that were dropped, in the order of the source.
pub fn push_plan(
    alloc: Global,
    text: &mut Text,
    whole: &Drawn<'_>,
    planned: &Drawn<'_>,
) -> Result<(), Refusal> {
    let Some(before) = count_nodes(whole.net) else {
        return Err(Refusal::Memory);
    };
    let Some(after) = count_nodes(planned.net) else {
        return Err(Refusal::Memory);
    };
    let line = format!(in alloc; "\nplan: {before} nodes, {after} planned")?;
    text.extend_from_slice(line.as_bytes())?;
    let labels = labels_of(alloc, whole.statements)?;
    let kept = labels_of(alloc, planned.statements)?;
    let dropped = dropped(alloc, labels.as_slice(), kept.as_slice())?;
    push_labels(alloc, text, dropped.as_slice())
}

//! Parts of a network by their places, and what they take.
use sn_list::{Memory, Seq};
use sn_net::{BoxProgram, Claim, Net};
use sn_record::{Kind, Label, LabelSet};
use sn_stack::append;
use std::alloc::Global;

/// The labels of a variant that a part takes.
pub type Wanted = Seq<Label>;

/// The place of a part; a series has none.
fn place_of(net: &Net) -> Option<u32> {
    match net {
        Net::Box { place, .. } => Some(*place),
        Net::Filter(filter) => Some(filter.place),
        Net::Sync { place, .. } => Some(*place),
        Net::Serial { .. } => None,
        Net::Choice { place, .. } => Some(*place),
        Net::Star { place, .. } => Some(*place),
        Net::Split { place, .. } => Some(*place),
    }
}

/// The first of the networks' parts that stands at a place.
#[cycle(parts)]
fn part_among(nets: &[Net], place: u32) -> Option<&Net> {
    for net in nets {
        let found = part_at(net, place);
        if found.is_some() {
            return found;
        }
    }
    None
}

/// The first part of a network that stands at a place.
#[cycle(parts)]
pub fn part_at(net: &Net, place: u32) -> Option<&Net> {
    if place_of(net) == Some(place) {
        return Some(net);
    }
    match net {
        Net::Serial { left, right } => {
            let found = part_at(left.get(), place);
            if found.is_some() {
                return found;
            }
            part_at(right.get(), place)
        }
        Net::Choice { branches, .. } => part_among(branches.as_slice(), place),
        Net::Star { body, .. } => part_at(body.get(), place),
        Net::Split { body, .. } => part_at(body.get(), place),
        Net::Box { .. } => None,
        Net::Filter(_) => None,
        Net::Sync { .. } => None,
    }
}

/// The first part of the claims' networks that stands at a place.
pub fn part_of_claims(claims: &[Claim], place: u32) -> Option<&Net> {
    for claim in claims {
        let found = part_at(&claim.net, place);
        if found.is_some() {
            return found;
        }
    }
    None
}

/// The labels of a set.
fn labels_of(alloc: Global, set: &LabelSet) -> Result<Wanted, Memory> {
    let mut labels = Seq::new(alloc);
    for i in 0..set.len() {
        append(&mut labels, set.at(i))?;
    }
    Ok(labels)
}

fn add_sets(alloc: Global, wanted: &mut Seq<Wanted>, sets: &[LabelSet]) -> Result<(), Memory> {
    for set in sets {
        append(wanted, labels_of(alloc, set)?)?;
    }
    Ok(())
}

/// The variants that a part takes: a box's input, a filter's pattern, a cell's patterns, the faces of a choice's branches, the tag of a split.
pub fn wanted_by(alloc: Global, net: &Net, boxes: &[BoxProgram]) -> Result<Seq<Wanted>, Memory> {
    let mut wanted = Seq::new(alloc);
    match net {
        Net::Box { number, .. } => {
            if let Some(program) = boxes.get(*number as usize) {
                append(
                    &mut wanted,
                    Seq::from_slice(alloc, program.input.as_slice())?,
                )?;
            }
        }
        Net::Filter(filter) => append(&mut wanted, labels_of(alloc, &filter.pattern)?)?,
        Net::Sync { patterns, .. } => add_sets(alloc, &mut wanted, patterns.as_slice())?,
        Net::Choice { faces, .. } => {
            for face in faces.as_slice() {
                add_sets(alloc, &mut wanted, face.as_slice())?;
            }
        }
        Net::Split { tag, .. } => {
            let label = Label {
                kind: Kind::Tag,
                id: *tag,
            };
            append(&mut wanted, Seq::from_slice(alloc, &[label])?)?;
        }
        Net::Serial { .. } => {}
        Net::Star { .. } => {}
    }
    Ok(wanted)
}

ghost use Rattle.std.specs.Prelude.{◌≡◌, ◌++◌, ◌∷◌, [], IfOk, OnOk, IsTrue, map};
ghost use Rattle.sn_net.specs.Face.{variant_of, with_tag, variants, variant_cmp, ascending, face, IsFace, is_numbered};

use crate::expr::Boxes;
use crate::filter::tag;
use crate::list::append;
use crate::net::Net;
use sn_list::{Memory, Seq};
use sn_record::{Label, LabelSet};
use std::alloc::Global;
use std::cmp::Ordering;

/// Appends a copy of `set`.
pub(crate) fn push_copy(sets: &mut Seq<LabelSet>, set: &LabelSet) -> Result<(), Memory>
    ensures { OnOk result (sets.new ≡ sets.old ++ set.now ∷ []) }
{
    let set = set.copy()?;
    append(sets, set)
}

/// Appends a copy of each of `more`.
pub(crate) fn push_copies(sets: &mut Seq<LabelSet>, more: &[LabelSet]) -> Result<(), Memory>
    ensures { OnOk result (sets.new ≡ sets.old ++ more.now) }
{
    for set in more {
        push_copy(sets, set)?;
    }
    Ok(())
}

/// The set of the labels.
pub fn variant_of(alloc: Global, labels: &[Label]) -> Result<LabelSet, Memory>
    ensures { IfOk result (λ variant. variant ≡ variant_of labels.now) }
{
    let mut variant = LabelSet::new(alloc);
    for label in labels {
        variant.insert(*label)?;
    }
    Ok(variant)
}

/// Appends a copy of each of `more` with the tag added.
pub(crate) fn push_tagged(
    sets: &mut Seq<LabelSet>,
    id: u32,
    more: &[LabelSet],
) -> Result<(), Memory>
    ensures { OnOk result (sets.new ≡ sets.old ++ map (with_tag id) more.now) }
{
    for set in more {
        let mut set = set.copy()?;
        set.insert(tag(id))?;
        append(sets, set)?;
    }
    Ok(())
}

/// Appends the variants of `net`, some maybe more than once.
fn push_variants(
    alloc: Global,
    sets: &mut Seq<LabelSet>,
    net: &Net,
    boxes: &Boxes,
) -> Result<(), Memory>
    requires { IsTrue (is_numbered boxes.now net.now) }
    ensures { OnOk result (sets.new ≡ sets.old ++ variants boxes.now net.now) }
{
    match net {
        Net::Box { number, .. } => {
            let program = boxes.at(*number as usize);
            append(sets, variant_of(alloc, program.input.as_slice())?)
        }
        Net::Filter(filter) => push_copy(sets, &filter.pattern),
        Net::Sync { patterns, .. } => push_copies(sets, patterns.as_slice()),
        Net::Serial { left, .. } => push_variants(alloc, sets, left.get(), boxes),
        Net::Choice { branches, .. } => {
            for branch in branches.as_slice() {
                push_variants(alloc, sets, branch, boxes)?;
            }
            Ok(())
        }
        Net::Star { body, exit, .. } => {
            push_variants(alloc, sets, body.get(), boxes)?;
            push_copy(sets, exit)
        }
        Net::Split { body, tag, .. } => {
            let mut inner = Seq::new(alloc);
            push_variants(alloc, &mut inner, body.get(), boxes)?;
            push_tagged(sets, *tag, inner.as_slice())
        }
    }
}

/// The order of the lists of their labels.
pub fn compare(left: &LabelSet, right: &LabelSet) -> Ordering
    ensures { result ≡ variant_cmp left.now right.now }
{
    for i in 0..left.len() {
        if i >= right.len() {
            return Ordering::Greater;
        }
        let order = left.at(i).cmp(&right.at(i));
        if order != Ordering::Equal {
            return order;
        }
    }
    if left.len() < right.len() {
        return Ordering::Less;
    }
    Ordering::Equal
}

/// The sets in ascending order, each once.
pub fn ascending(sets: Seq<LabelSet>) -> Seq<LabelSet>
    ensures { result ≡ ascending sets }
{
    let mut sets = sets.into_vec();
    sets.sort_unstable_by(|left, right| compare(left, right));
    sets.dedup();
    Seq::from_vec(sets)
}

/// A copy of each of `sets`.
pub fn copy_sets(alloc: Global, sets: &[LabelSet]) -> Result<Seq<LabelSet>, Memory>
    ensures { IfOk result (λ copies. copies ≡ sets.now) }
{
    let mut copies = Seq::new(alloc);
    push_copies(&mut copies, sets)?;
    Ok(copies)
}

/// The variants that records are matched with, in ascending order and each once: of a box its input labels, of a
/// filter its pattern, of a synchrocell its patterns, of nets in series those of the left one, of a choice those of
/// each branch, of a star those of its body and its exit pattern, of a split those of its body with the tag added.
pub fn face(alloc: Global, net: &Net, boxes: &Boxes) -> Result<Seq<LabelSet>, Memory>
    requires { IsTrue (is_numbered boxes.now net.now) }
    ensures exact { IfOk result (λ sets. sets ≡ face boxes.now net.now) }
    ensures law { IfOk result (λ sets. IsFace boxes.now net.now sets) }
{
    let mut sets = Seq::new(alloc);
    push_variants(alloc, &mut sets, net, boxes)?;
    Ok(ascending(sets))
}

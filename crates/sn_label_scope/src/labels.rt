//! Labels by their numbers, and variants.
ghost use Rattle.std.specs.Prelude.{◌≡◌, IfOk, OnOk, fold, map as each};
ghost use Rattle.std.specs.FinMap as map;
ghost use Rattle.sn_label_scope.specs.Labels.{kind_of, label_at, labels_at, no_repeats, variant_at, variant_required};

use crate::refusal::{Reason, Refusals};
use sn_ast::{LabelAt, Variant};
use sn_list::{Memory, Seq};
use sn_names::NameTable;
use sn_record::{Kind, Label, LabelSet};
use std::alloc::Global;

fn kind_of(tag: bool) -> Kind
    ensures { result ≡ kind_of tag }
{
    if tag { Kind::Tag } else { Kind::Field }
}

/// The label by the number of its name.
pub fn label_at(names: &NameTable, label: &LabelAt) -> Label
    ensures { result ≡ label_at names.now label.now }
{
    Label {
        kind: kind_of(label.tag),
        id: names.label_number(label.name.text.as_slice()),
    }
}

/// The set of the labels. A second equal label is refused.
pub fn label_set(
    alloc: Global,
    names: &NameTable,
    refusals: &mut Refusals,
    labels: &[LabelAt],
) -> Result<LabelSet, Memory>
    ensures set { IfOk result (λ set. set ≡ labels_at names.now labels.now) }
    ensures refused { OnOk result (refusals.new ≡ no_repeats names.now map.empty labels.now refusals.old) }
{
    let mut set = LabelSet::new(alloc);
    for label in labels {
        let fresh = set.insert(label_at(names, label))?;
        refusals.require(fresh, Reason::Twice, label.name.at);
    }
    Ok(set)
}

/// The set of each variant's labels.
pub fn label_sets(
    alloc: Global,
    names: &NameTable,
    refusals: &mut Refusals,
    variants: &[Variant],
) -> Result<Seq<LabelSet>, Memory>
    ensures sets { IfOk result (λ sets. sets ≡ each (variant_at names.now) variants.now) }
    ensures refused { OnOk result (refusals.new ≡ fold (variant_required names.now) refusals.old variants.now) }
{
    let mut sets = Seq::new(alloc);
    for variant in variants {
        let set = label_set(alloc, names, refusals, variant.labels.as_slice())?;
        sn_stack::append(&mut sets, set)?;
    }
    Ok(sets)
}

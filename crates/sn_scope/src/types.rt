//! Types, with each name of a type replaced by its variants.
ghost use Rattle.std.specs.Prelude.{◌≡◌, IfOk, OnOk};
ghost use Rattle.sn_scope.specs.Types.{part_added, part_required, type_at, type_required, variants_of};

use crate::scopes::Scopes;
use crate::variants::Variants;
use sn_ast::TypePart;
use sn_label_scope::{Reason, Refusals, label_set};
use sn_list::{Memory, Seq};
use sn_names::NameTable;
use sn_record::LabelSet;
use std::alloc::Global;

/// The variants of the type with the number, and none where it is unknown.
fn variants_of(types: &[Seq<LabelSet>], number: Option<usize>) -> &[LabelSet]
    ensures { result.now ≡ variants_of types.now number }
{
    match number {
        Some(number) if number < types.len() => types[number].as_slice(),
        _ => &[],
    }
}

/// One more part: a variant, or those of the type that the name stands for. A name that is no type's is refused.
fn add_part(
    alloc: Global,
    names: &NameTable,
    scopes: &Scopes,
    types: &[Seq<LabelSet>],
    refusals: &mut Refusals,
    variants: &mut Variants,
    part: &TypePart,
) -> Result<(), Memory>
    ensures variants { OnOk result (variants.new ≡ part_added names.now scopes.now types.now variants.old part.now) }
    ensures refused { OnOk result (refusals.new ≡ part_required names.now scopes.now refusals.old part.now) }
{
    match part {
        TypePart::Set(variant) => {
            let set = label_set(alloc, names, refusals, variant.labels.as_slice())?;
            variants.add(set)
        }
        TypePart::Named(name) => {
            let number = scopes.type_of(name.text.as_slice());
            refusals.require(number.is_some(), Reason::Unknown, name.at);
            variants.add_all(variants_of(types, number))
        }
    }
}

/// The different variants of the parts, in the order of their first places.
pub fn type_at(
    alloc: Global,
    names: &NameTable,
    scopes: &Scopes,
    types: &[Seq<LabelSet>],
    refusals: &mut Refusals,
    parts: &[TypePart],
) -> Result<Seq<LabelSet>, Memory>
    ensures variants { IfOk result (λ variants. variants ≡ type_at names.now scopes.now types.now parts.now) }
    ensures refused { OnOk result (refusals.new ≡ type_required names.now scopes.now parts.now refusals.old) }
{
    let mut variants = Variants::new(alloc);
    for part in parts {
        add_part(alloc, names, scopes, types, refusals, &mut variants, part)?;
    }
    Ok(variants.into_sets())
}

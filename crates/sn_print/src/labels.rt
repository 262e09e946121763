//! The texts of labels, variants, tuples, types and signatures.
ghost use Rattle.std.specs.Prelude.{◌≡◌, ◌++◌, OnOk};
ghost use Rattle.sn_print.specs.Labels.{label_text, labels_text, part_text, sig_text, tuple_text, types_text, variant_text};

use crate::words::{push_separator, push_tag};
use sn_ast::{LabelAt, Sig, Text, Tuple, TypePart, Variant};
use sn_list::Memory;

pub fn push_label(text: &mut Text, label: &LabelAt) -> Result<(), Memory>
    ensures { OnOk result (text.new ≡ text.old ++ label_text label.now) }
{
    let name = label.name.text.as_slice();
    if label.tag {
        push_tag(text, name)
    } else {
        text.extend_from_slice(name)
    }
}

fn push_labels(text: &mut Text, labels: &[LabelAt]) -> Result<(), Memory>
    ensures { OnOk result (text.new ≡ text.old ++ labels_text labels.now) }
{
    for (i, label) in labels.iter().enumerate() {
        push_separator(text, b",", i)?;
        push_label(text, label)?;
    }
    Ok(())
}

pub fn push_variant(text: &mut Text, variant: &Variant) -> Result<(), Memory>
    ensures { OnOk result (text.new ≡ text.old ++ variant_text variant.now) }
{
    text.extend_from_slice(b"{")?;
    push_labels(text, variant.labels.as_slice())?;
    text.extend_from_slice(b"}")
}

pub fn push_tuple(text: &mut Text, tuple: &Tuple) -> Result<(), Memory>
    ensures { OnOk result (text.new ≡ text.old ++ tuple_text tuple.now) }
{
    text.extend_from_slice(b"(")?;
    push_labels(text, tuple.labels.as_slice())?;
    text.extend_from_slice(b")")
}

fn push_part(text: &mut Text, part: &TypePart) -> Result<(), Memory>
    ensures { OnOk result (text.new ≡ text.old ++ part_text part.now) }
{
    match part {
        TypePart::Set(variant) => push_variant(text, variant),
        TypePart::Named(name) => text.extend_from_slice(name.text.as_slice()),
    }
}

pub fn push_types(text: &mut Text, parts: &[TypePart]) -> Result<(), Memory>
    ensures { OnOk result (text.new ≡ text.old ++ types_text parts.now) }
{
    for (i, part) in parts.iter().enumerate() {
        push_separator(text, b" | ", i)?;
        push_part(text, part)?;
    }
    Ok(())
}

pub fn push_sig(text: &mut Text, sig: &Sig) -> Result<(), Memory>
    ensures { OnOk result (text.new ≡ text.old ++ sig_text sig.now) }
{
    match sig {
        Sig::Arrow { input, output } => {
            push_types(text, input.as_slice())?;
            text.extend_from_slice(b" -> ")?;
            push_types(text, output.as_slice())
        }
        Sig::Named(name) => text.extend_from_slice(name.text.as_slice()),
    }
}

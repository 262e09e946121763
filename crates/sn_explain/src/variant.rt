//! Variants as they are printed, and which labels they lack.
use sn_list::{Memory, Seq};
use sn_names::Names;
use sn_output::push_label;
use sn_record::{Label, Text};
use std::alloc::Global;

/// A label as it is printed.
fn label_text(alloc: Global, names: &Names, label: Label) -> Result<Text, Memory> {
    let mut text = Seq::new(alloc);
    push_label(&mut text, label.kind, names.name_or_none(label.id))?;
    Ok(text)
}

/// Whether a printed variant has a label that is printed so.
fn has_label(variant: &[u8], label: &[u8]) -> bool {
    for entry in variant.split(|byte| matches!(*byte, b'{' | b'}' | b',' | b' ')) {
        if entry == label {
            return true;
        }
    }
    false
}

/// Appends the labels, with a comma and a blank between any two.
fn push_labels(text: &mut Text, labels: &[Text]) -> Result<(), Memory> {
    for (i, label) in labels.iter().enumerate() {
        if i > 0 {
            text.extend_from_slice(b", ")?;
        }
        text.extend_from_slice(label.as_slice())?;
    }
    Ok(())
}

/// The texts of labels.
fn texts_of(alloc: Global, names: &Names, labels: &[Label]) -> Result<Vec<Text>, Memory> {
    let mut texts = Vec::with_capacity(alloc, labels.len())?;
    for label in labels {
        texts.push(label_text(alloc, names, *label)?)?;
    }
    Ok(texts)
}

/// Appends a variant of these labels.
pub fn push_wanted(
    alloc: Global,
    text: &mut Text,
    names: &Names,
    labels: &[Label],
) -> Result<(), Memory> {
    let texts = texts_of(alloc, names, labels)?;
    text.extend_from_slice(b"{")?;
    push_labels(text, texts.as_slice())?;
    text.extend_from_slice(b"}")
}

/// Appends those of the labels that a printed variant lacks.
pub fn push_lacking(
    alloc: Global,
    text: &mut Text,
    names: &Names,
    labels: &[Label],
    variant: &[u8],
) -> Result<(), Memory> {
    let texts = texts_of(alloc, names, labels)?;
    let mut count = 0usize;
    for label in texts.as_slice() {
        if !has_label(variant, label.as_slice()) {
            if count > 0 {
                text.extend_from_slice(b", ")?;
            }
            text.extend_from_slice(label.as_slice())?;
            count = count.saturating_add(1);
        }
    }
    Ok(())
}

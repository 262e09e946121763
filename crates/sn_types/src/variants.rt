//! Variants, compared with the variants of lists.
ghost use Rattle.std.specs.Prelude.{◌≡◌, ◌++◌, IfOk, OnOk};
ghost use Rattle.std.specs.List.{list_all, list_any};
ghost use Rattle.sn_record.specs.Fits.{fits};
ghost use Rattle.sn_types.specs.RecordType.{fits_properly, has_fit, is_needless, is_same, minimal};

use sn_list::Memory;
use sn_record::LabelSet;
use std::alloc::Global;

/// Appends a copy of each of `more`.
pub(crate) fn push_copies(variants: &mut Vec<LabelSet>, more: &[LabelSet]) -> Result<(), Memory>
    ensures { OnOk result (variants.new.items ≡ variants.old.items ++ more.now) }
{
    for variant in more {
        variants.push(variant.copy()?)?;
    }
    Ok(())
}

/// Whether each label of `small` is one of `large`, and each binding tag of `large` one of `small`.
fn fits(small: &LabelSet, large: &LabelSet) -> bool
    ensures { result ≡ fits small.now large.now }
{
    small.fits(large)
}

/// Whether the two have the same labels.
fn is_same(left: &LabelSet, right: &LabelSet) -> bool
    ensures { result ≡ is_same left.now right.now }
{
    fits(left, right) && fits(right, left)
}

/// Whether `small` fits `large` and has not all its labels.
fn fits_properly(small: &LabelSet, large: &LabelSet) -> bool
    ensures { result ≡ fits_properly small.now large.now }
{
    fits(small, large) && !fits(large, small)
}

/// Whether one of the variants fits `variant`.
fn has_fit(variants: &[LabelSet], variant: &LabelSet) -> bool
    ensures { result ≡ has_fit variants.now variant.now }
{
    variants.iter().any(|other| fits(other, variant))
}

/// Whether each of `variants` has a fit among the `others`.
pub(crate) fn all_have_fits(variants: &[LabelSet], others: &[LabelSet]) -> bool
    ensures { result ≡ list_all (has_fit others.now) variants.now }
{
    variants.iter().all(|variant| has_fit(others, variant))
}

/// Whether one of the variants has the labels of `variant`.
fn is_among(variants: &[LabelSet], variant: &LabelSet) -> bool
    ensures { result ≡ list_any (λ other. is_same other variant.now) variants.now }
{
    variants.iter().any(|other| is_same(other, variant))
}

/// Whether one of the variants that have not all its labels fits `variant`.
fn has_proper_fit(variants: &[LabelSet], variant: &LabelSet) -> bool
    ensures { result ≡ list_any (λ other. fits_properly other variant.now) variants.now }
{
    variants.iter().any(|other| fits_properly(other, variant))
}

/// Whether `variant` repeats one of the `earlier` ones, or a different one of the `whole` list fits it.
fn is_needless(whole: &[LabelSet], earlier: &[LabelSet], variant: &LabelSet) -> bool
    ensures { result ≡ is_needless whole.now earlier.now variant.now }
{
    is_among(earlier, variant) || has_proper_fit(whole, variant)
}

/// A copy of each variant that is not needless, in their order. Each is compared with each other one.
pub(crate) fn copy_minimal(alloc: Global, whole: &[LabelSet]) -> Result<Vec<LabelSet>, Memory>
    ensures { IfOk result (λ kept. kept.items ≡ minimal whole.now) }
{
    let mut kept = Vec::new(alloc);
    for (i, variant) in whole.iter().enumerate() {
        if !is_needless(whole, &whole[..i], variant) {
            kept.push(variant.copy()?)?;
        }
    }
    Ok(kept)
}

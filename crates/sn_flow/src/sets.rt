//! Sets of variants, as lists in which none stands twice.
ghost use Rattle.std.specs.Prelude.{◌≡◌, ◌∷◌, [], ◌&&◌};
ghost use Rattle.std.specs.List.{list_all, list_any};
ghost use Rattle.sn_record.specs.LabelSet.{union};
ghost use Rattle.sn_record.specs.Fits.{bind_alike, fits};
ghost use Rattle.sn_types.specs.RecordType.{has_fit, is_same};
ghost use Rattle.sn_flow.specs.Taken.{is_taken};
ghost use Rattle.sn_flow.specs.Visits.{Added, FoundAdded};

use crate::indexed::Indexed;
use crate::stop::Stop;
use sn_list::Seq;
use sn_record::LabelSet;
use std::alloc::Global;

/// How many variants a set has at most.
pub const MOST_VARIANTS: usize = 1024;

/// Whether `small` fits `large`.
pub fn fits(small: &LabelSet, large: &LabelSet) -> bool
    ensures { result ≡ fits small.now large.now }
{
    small.fits(large)
}

/// Whether the two have the same binding tags.
pub fn bind_alike(left: &LabelSet, right: &LabelSet) -> bool
    ensures { result ≡ bind_alike left.now right.now }
{
    left.binds_alike(right)
}

/// Whether some variant of the list fits `set`.
pub fn has_fit(variants: &[LabelSet], set: &LabelSet) -> bool
    ensures { result ≡ has_fit variants.now set.now }
{
    for variant in variants {
        if fits(variant, set) {
            return true;
        }
    }
    false
}

/// Whether each variant of the list has the binding tags of `set`.
fn all_bind_alike(variants: &[LabelSet], set: &LabelSet) -> bool
    ensures { result ≡ list_all (λ variant. bind_alike variant set.now) variants.now }
{
    for variant in variants {
        if !bind_alike(variant, set) {
            return false;
        }
    }
    true
}

/// Whether a component that takes the variants takes `set`.
pub fn is_taken(takes: &[LabelSet], set: &LabelSet) -> bool
    ensures { result ≡ is_taken takes.now set.now }
{
    has_fit(takes, set) && all_bind_alike(takes, set)
}

/// Adds a copy of a variant, unless it is there.
pub fn add(alloc: Global, sets: &mut Indexed<LabelSet>, variant: &LabelSet) -> Result<(), Stop>
    ensures { Added sets.old (variant.now ∷ []) sets.new result }
{
    let known = sets.has(alloc, variant)?;
    if known {
        return Ok(());
    }
    if sets.len() >= MOST_VARIANTS {
        return Err(Stop::TooMany);
    }
    let copy = variant.copy()?;
    sets.push(alloc, copy)?;
    Ok(())
}

/// Adds the union of two variants, unless it is there.
pub fn add_union(
    alloc: Global,
    sets: &mut Indexed<LabelSet>,
    variant: &LabelSet,
    more: &LabelSet,
) -> Result<(), Stop>
    ensures { Added sets.old (union variant.now more.now ∷ []) sets.new result }
{
    let whole = variant.union(more)?;
    add(alloc, sets, &whole)
}

/// Adds a copy of each variant that is not there.
pub fn add_all(alloc: Global, sets: &mut Indexed<LabelSet>, more: &[LabelSet]) -> Result<(), Stop>
    ensures { Added sets.old more.now sets.new result }
{
    for variant in more {
        add(alloc, sets, variant)?;
    }
    Ok(())
}

/// Adds what was found, as `add_all` does, or passes on why there is nothing.
pub fn add_found(
    alloc: Global,
    sets: &mut Indexed<LabelSet>,
    found: Result<Seq<LabelSet>, Stop>,
) -> Result<(), Stop>
    ensures { FoundAdded sets.old found sets.new result }
{
    let more = found?;
    add_all(alloc, sets, more.as_slice())
}

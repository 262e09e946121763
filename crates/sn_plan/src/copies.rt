//! Networks that are made of parts, and of copies of what else stands in others.
ghost use Rattle.std.specs.Prelude.{◌≡◌, IfOk};
ghost use Rattle.sn_net.specs.declared.net.Net.TheVariants as form;

use sn_list::{Boxed, Memory, Seq};
use sn_net::{Filter, Merge, Net, copy_guard, copy_sets};
use sn_record::LabelSet;
use sn_tagexpr::TagExpr;
use std::alloc::Global;

/// A copy of a filter.
pub(crate) fn filter_of(alloc: Global, filter: &Filter) -> Result<Net, Memory>
    ensures { IfOk result (λ made. made ≡ form.Filter filter.now) }
{
    let copy = filter.copy(alloc)?;
    Ok(Net::Filter(copy))
}

/// A synchrocell with copies of the patterns.
pub(crate) fn sync_of(alloc: Global, place: u32, patterns: &[LabelSet]) -> Result<Net, Memory>
    ensures { IfOk result (λ made. made ≡ form.Sync place patterns.now) }
{
    let patterns = copy_sets(alloc, patterns)?;
    Ok(Net::Sync { place, patterns })
}

/// A star over the body, with copies of the exit and the guard.
pub(crate) fn star_of(
    alloc: Global,
    place: u32,
    merge: Merge,
    body: Boxed<Net>,
    exit: &LabelSet,
    guard: &Option<TagExpr>,
) -> Result<Net, Memory>
    ensures { IfOk result (λ made. made ≡ form.Star place merge body exit.now guard.now) }
{
    let exit = exit.copy()?;
    let guard = copy_guard(alloc, guard)?;
    Ok(Net::Star {
        place,
        merge,
        body,
        exit,
        guard,
    })
}

/// A split over the body.
pub(crate) fn split_of(place: u32, merge: Merge, body: Boxed<Net>, tag: u32) -> Net
    ensures { result ≡ form.Split place merge body tag }
{
    Net::Split {
        place,
        merge,
        body,
        tag,
    }
}

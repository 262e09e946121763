ghost use Rattle.std.specs.Prelude.{◌≡◌, ◌+◌, Some, max};
ghost use Rattle.std.specs.Option.{option_map};
ghost use Rattle.sn_record.specs.Record.{greater, score as best_size, size_matched};

use crate::label_set::LabelSet;
use crate::record::Record;

/// How many labels `variant` has, where the record matches it.
fn size_matched(variant: &LabelSet, r: &Record) -> Option<u64>
    ensures { result ≡ size_matched r.now variant.now }
{
    if r.matches(variant) {
        return Some(variant.len() as u64);
    }
    None
}

/// The greater of two sizes, where there are any.
fn greater(best: Option<u64>, size: Option<u64>) -> Option<u64>
    ensures { result ≡ greater best size }
{
    match (best, size) {
        (Some(best), Some(size)) => Some(best.max(size)),
        (None, size) => size,
        (best, None) => best,
    }
}

/// The size of the largest of the variants that the record matches, or nothing where it matches none. Takes no memory.
pub fn score(variants: &[LabelSet], r: &Record) -> Option<u64>
    ensures { result ≡ best_size variants.now r.now }
{
    let mut best = None;
    for variant in variants {
        best = greater(best, size_matched(variant, r));
    }
    best
}

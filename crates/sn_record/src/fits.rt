//! Whether sets of labels fit the labels of maps.
ghost use Rattle.std.specs.Prelude.{◌≡◌, ◌&&◌, IsTrue, ◌↔◌};
ghost use Rattle.std.specs.FinMap as map;
ghost use Rattle.std.specs.FinMap.{is_sorted};
ghost use Rattle.std.specs.List.{list_all};
ghost use Rattle.sn_record.specs.Label.{label_cmp};
ghost use Rattle.sn_record.specs.Fits.{FitsAmong, is_bound};

use crate::label::Label;
use crate::label_map::LabelMap;
use crate::label_set::LabelSet;

/// Whether each label of `set` is one of the map's.
fn are_within<V>(set: &LabelSet, of: &LabelMap<V>) -> bool
    ensures { result ≡ list_all (λ entry. map.contains_key of.now entry.0) (map.entries set.now) }
{
    for entry in set.as_slice() {
        if of.get(entry.0).is_none() {
            return false;
        }
    }
    true
}

/// Whether each binding tag among entries in order is in `set`. They stand behind all others.
pub(crate) fn are_bound<V>(set: &LabelSet, entries: &[(Label, V)]) -> bool
    requires { IsTrue (is_sorted label_cmp entries.now) }
    ensures { result ≡ list_all (λ entry. is_bound set.now entry.0) entries.now }
{
    let mut left = entries.len();
    while left > 0 && entries[left - 1].0.is_binding() {
        left -= 1;
        if !set.contains(entries[left].0) {
            return false;
        }
    }
    true
}

/// Whether `set` fits the labels of the map.
pub(crate) fn fits<V>(set: &LabelSet, of: &LabelMap<V>) -> bool
    ensures { IsTrue result ↔ FitsAmong (map.contains_key of.now) set.now }
{
    are_within(set, of) && are_bound(set, of.as_slice())
}

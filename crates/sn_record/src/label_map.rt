ghost use Rattle.std.specs.Prelude.{◌≡◌, ◌++◌, ◌<◌, ◌==◌, IfOk, IfErr, OnOk, OnErr, IsTrue, slice_get};
ghost use Rattle.std.specs.FinMap as map;
ghost use Rattle.std.specs.FinMap.{is_sorted};
ghost use Rattle.std.specs.Option.{option_copied};
ghost use Rattle.sn_record.specs.Label.{label_cmp};

use crate::label::{ByLabel, Label};
use crate::merging::{find, in_order, merge, put};
use sn_list::Memory;
use std::alloc::Global;
use std::marker::Model;

/// Entries in strictly rising order of their labels, seen as the map from labels to values.
///
/// Label sets and records are such maps. They have a handful of entries, or thousands: a look-up goes by halves, and
/// many labels are put in at once.
#[derive(Drop)]
pub struct LabelMap<V> {
    entries: Vec<(Label, V)>,
}

impl<V> Model for LabelMap<V> {
    ghost use Rattle.std.specs.Prelude.{IsTrue};
    ghost use Rattle.std.specs.FinMap as map;
    ghost use Rattle.sn_record.specs.Label.{label_cmp};
    ghost use Rattle.sn_record.specs.contracts.label.Label as label;

    ghost Value = { map.FinMap label_cmp V };

    ghost coded = { map.code label.the_row.coded V.code };

    ghost view = { λ m. map.from_sorted m.entries.items };

    ghost invariant = { λ m. IsTrue (map.is_sorted label_cmp m.entries.items) };
}

impl<V> LabelMap<V> {
    /// An empty map, which takes no memory until something is inserted.
    pub fn new(alloc: Global) -> LabelMap<V>
        ensures { result ≡ map.empty }
    {
        LabelMap {
            entries: Vec::new(alloc),
        }
    }

    /// An empty map with room for so many entries.
    pub fn with_capacity(alloc: Global, capacity: usize) -> Result<LabelMap<V>, Memory>
        ensures { IfOk result (λ made. made ≡ map.empty) }
    {
        let entries = Vec::with_capacity(alloc, capacity)?;
        Ok(LabelMap { entries })
    }

    /// The map of entries that are in order. Takes no memory.
    pub fn from_sorted(entries: Vec<(Label, V)>) -> LabelMap<V>
        requires { IsTrue (is_sorted label_cmp entries.items) }
        ensures { result ≡ map.from_sorted entries.items }
    {
        LabelMap { entries }
    }

    /// The entries in the order of their labels. Takes no memory.
    pub fn into_entries(self) -> Vec<(Label, V)>
        ensures { result.items ≡ map.entries self }
    {
        let LabelMap { entries } = self;
        entries
    }

    pub fn allocator(&self) -> Global {
        *self.entries.allocator()
    }

    pub fn len(&self) -> usize
        ensures { result ≡ map.len self.now }
    {
        self.entries.len()
    }

    pub fn as_slice(&self) -> &[(Label, V)]
        ensures { result.now ≡ map.entries self.now }
    {
        self.entries.as_slice()
    }

    /// The i-th entry in the order of the labels.
    pub fn at(&self, i: usize) -> (Label, &V)
        requires { i < map.len self.now }
        ensures { slice_get (map.entries self.now) i ≡ Some (result.0, result.1.now) }
    {
        let entry = &self.entries[i];
        (entry.0, &entry.1)
    }

    pub fn get(&self, label: Label) -> Option<&V>
        ensures { option_copied result ≡ map.get self.now label }
    {
        find(&ByLabel, self.entries.as_slice(), &label)
    }

    /// Sets the value at `label`, and answers the old one. For want of memory `value` comes back, and the map is
    /// unchanged.
    pub fn insert(&mut self, label: Label, value: V) -> Result<Option<V>, V>
        ensures ok { OnOk result (self.new ≡ map.insert self.old label value) }
        ensures old { IfOk result (λ before. before ≡ map.get self.old label) }
        ensures err { OnErr result (self.new ≡ self.old) }
        ensures back { IfErr result (λ refused. refused ≡ value) }
    {
        put(&ByLabel, &mut self.entries, label, value)
    }
}

impl<V: Drop> LabelMap<V> {
    /// The map of entries in any order, with room for no more. Of several at one label the first stays.
    pub fn from_entries(entries: Vec<(Label, V)>) -> Result<LabelMap<V>, Memory>
        ensures { IfOk result (λ made. made ≡ map.from_entries entries.items) }
    {
        let mut entries = in_order(&ByLabel, entries)?;
        entries.shrink_to_fit();
        Ok(LabelMap { entries })
    }

    /// What the map has, and what `other` has at other labels.
    pub fn union(self, other: LabelMap<V>) -> Result<LabelMap<V>, Memory>
        ensures { IfOk result (λ both. both ≡ map.from_entries (map.entries self ++ map.entries other)) }
    {
        let entries = merge(&ByLabel, self.entries, other.entries)?;
        Ok(LabelMap { entries })
    }
}

impl<V: PartialEq> PartialEq for LabelMap<V> {
    ghost use Rattle.std.specs.Prelude.{◌&&◌};
    ghost use Rattle.std.specs.FinMap as map;
    ghost use Rattle.std.specs.Cmp.Lexicographic.{pointwise, lists_per};
    ghost use Rattle.std.specs.Ordering.{eq_by_cmp, on};
    ghost use Rattle.std.specs.Cmp.{on_per, and_per, partial_equiv_from_equiv, eq_by_cmp_equiv};
    ghost use Rattle.sn_record.specs.Label.{label_cmp, label_cmp_total};

    ghost eq = { on map.entries (pointwise (λ p q. eq_by_cmp label_cmp p.0 q.0 && V.eq p.1 q.1)) };

    ghost laws = { on_per map.entries (lists_per (and_per (on_per (λ p. p.0) (partial_equiv_from_equiv (eq_by_cmp_equiv label_cmp_total))) (on_per (λ p. p.1) V.laws))) };

    fn eq(&self, other: &LabelMap<V>) -> bool {
        self.entries == other.entries
    }
}

impl<V: Eq> Eq for LabelMap<V> {
    ghost use Rattle.std.specs.FinMap as map;
    ghost use Rattle.std.specs.Cmp.Lexicographic.{lists_equiv};
    ghost use Rattle.std.specs.Cmp.{on_equiv, and_equiv, eq_by_cmp_equiv};
    ghost use Rattle.sn_record.specs.Label.{label_cmp_total};

    ghost laws = { on_equiv map.entries (lists_equiv (and_equiv (on_equiv (λ p. p.0) (eq_by_cmp_equiv label_cmp_total)) (on_equiv (λ p. p.1) V.Eq.laws))) };
}

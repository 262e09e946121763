ghost use Rattle.std.specs.Prelude.{◌≡◌, ◌<◌, ◌==◌, IfOk, IfErr, OnOk, OnErr, IfSome, IsTrue, ◌↔◌, not, slice_get};
ghost use Rattle.std.specs.Option.{option_copied};
ghost use Rattle.std.specs.List.{All, filter};
ghost use Rattle.std.specs.FinMap as map;
ghost use Rattle.sn_record.specs.LabelSet.{contains};
ghost use Rattle.sn_record.specs.Record.{is_missing};

use crate::fits::fits;
use crate::label::Label;
use crate::label_map::LabelMap;
use crate::label_set::LabelSet;
use crate::value::Value;
use sn_list::Memory;
use std::alloc::Global;
use std::marker::Model;

/// A finite map from labels to values. Each value is sound, and a tag has an Int.
#[derive(PartialEq, Eq, Drop)]
pub struct Record {
    values: LabelMap<Value>,
}

impl Model for Record {
    ghost use Rattle.std.specs.FinMap as map;
    ghost use Rattle.sn_record.specs.contracts.label.Label as label;
    ghost use Rattle.sn_record.specs.contracts.value.Value as value;
    ghost use Rattle.sn_record.specs.Record.{Entries, IsRecord};

    ghost Value = { Entries };

    ghost coded = { map.code label.the_row.coded value.the_row.coded };

    ghost view = { λ r. r.values };

    ghost inverse = { λ m. record { values = m } };

    ghost invariant = { λ r. IsRecord r.values };
}

/// A copy of each entry.
fn copy_all(alloc: Global, entries: &[(Label, Value)]) -> Result<Vec<(Label, Value)>, Memory>
    ensures { IfOk result (λ copies. copies.items ≡ entries.now) }
{
    let mut copies = Vec::with_capacity(alloc, entries.len())?;
    for entry in entries {
        let value = entry.1.copy(alloc)?;
        copies.push((entry.0, value))?;
    }
    Ok(copies)
}

/// A copy of each entry whose label is in `labels`.
fn copy_within(
    alloc: Global,
    entries: &[(Label, Value)],
    labels: &LabelSet,
) -> Result<Vec<(Label, Value)>, Memory>
    ensures { IfOk result (λ copies.
        copies.items ≡ filter (λ entry. contains labels.now entry.0) entries.now) }
{
    let most = entries.len().min(labels.len());
    let mut copies = Vec::with_capacity(alloc, most)?;
    for entry in entries {
        if labels.contains(entry.0) {
            let value = entry.1.copy(alloc)?;
            copies.push((entry.0, value))?;
        }
    }
    Ok(copies)
}

/// How many entries `values` has with what it inherits of `entries`, where these have each label of `named` and none of
/// `values` beside. Nothing where it inherits nothing then.
fn room_of_whole(entries: &[(Label, Value)], named: &LabelSet, values: &LabelMap<Value>) -> usize {
    let inherited = entries.len().saturating_sub(named.len());
    if inherited == 0 {
        return 0;
    }
    inherited.saturating_add(values.len())
}

/// A copy of each entry whose label is neither in `named` nor in `values`, and room for `values` beside them.
fn copy_missing(
    alloc: Global,
    entries: &[(Label, Value)],
    named: &LabelSet,
    values: &LabelMap<Value>,
) -> Result<Vec<(Label, Value)>, Memory>
    ensures { IfOk result (λ copies.
        copies.items ≡ filter (λ entry. is_missing named.now values.now entry.0) entries.now) }
{
    let mut copies = Vec::with_capacity(alloc, room_of_whole(entries, named, values))?;
    for entry in entries {
        if !named.contains(entry.0) && values.get(entry.0).is_none() {
            let value = entry.1.copy(alloc)?;
            copies.push((entry.0, value))?;
        }
    }
    Ok(copies)
}

/// The entries whose labels are not in `named`, where they stand.
fn without_named(mut entries: Vec<(Label, Value)>, named: &LabelSet) -> Vec<(Label, Value)>
    ensures { result.items ≡ filter (λ entry. not (contains named.now entry.0)) entries.items }
{
    entries.retain(|entry| !named.contains(entry.0));
    entries
}

impl Record {
    ghost use Rattle.sn_record.specs.Record.{FitsLabel, IsRecord, Matches, overlay, restrict, inherit};

    /// The empty record, which takes no memory until a value is set.
    pub fn new(alloc: Global) -> Record
        ensures { result ≡ map.empty }
    {
        Record {
            values: LabelMap::new(alloc),
        }
    }

    /// The empty record with room for so many entries.
    pub fn with_capacity(alloc: Global, capacity: usize) -> Result<Record, Memory>
        ensures { IfOk result (λ made. made ≡ map.empty) }
    {
        let values = LabelMap::with_capacity(alloc, capacity)?;
        Ok(Record { values })
    }

    /// The record of entries in any order, with room for no more. Of several at one label the first stays.
    pub fn from_entries(entries: Vec<(Label, Value)>) -> Result<Record, Memory>
        requires { All (λ entry. FitsLabel entry.0 entry.1) entries.items }
        ensures { IfOk result (λ made. made ≡ map.from_entries entries.items) }
    {
        let values = LabelMap::from_entries(entries)?;
        Ok(Record { values })
    }

    pub fn len(&self) -> usize
        ensures { result ≡ map.len self.now }
    {
        self.values.len()
    }

    pub fn is_empty(&self) -> bool
        ensures { result ≡ (map.len self.now == 0) }
    {
        self.values.len() == 0
    }

    /// The i-th label in ascending order, and its value.
    pub fn at(&self, i: usize) -> (Label, &Value)
        requires { i < map.len self.now }
        ensures entry { slice_get (map.entries self.now) i ≡ Some (result.0, result.1.now) }
        ensures fits { FitsLabel result.0 result.1.now }
    {
        self.values.at(i)
    }

    /// The labels in ascending order, each beside its value.
    pub fn as_slice(&self) -> &[(Label, Value)]
        ensures entries { result.now ≡ map.entries self.now }
        ensures fits { IsRecord self.now }
    {
        self.values.as_slice()
    }

    pub fn get(&self, label: Label) -> Option<&Value>
        ensures value { option_copied result ≡ map.get self.now label }
        ensures fits { IfSome result (λ value. FitsLabel label value.now) }
    {
        self.values.get(label)
    }

    /// Sets the value at `label`, and answers the old one. For want of memory `value` comes back, and the record is
    /// unchanged.
    pub fn set(&mut self, label: Label, value: Value) -> Result<Option<Value>, Value>
        requires { FitsLabel label value }
        ensures ok { OnOk result (self.new ≡ map.insert self.old label value) }
        ensures old { IfOk result (λ before. before ≡ map.get self.old label) }
        ensures err { OnErr result (self.new ≡ self.old) }
        ensures back { IfErr result (λ refused. refused ≡ value) }
    {
        self.values.insert(label, value)
    }

    /// Whether `variant` fits the labels of the record.
    pub fn matches(&self, variant: &LabelSet) -> bool
        ensures { IsTrue result ↔ Matches self.now variant.now }
    {
        fits(variant, &self.values)
    }

    /// What the record has, and what `other` has at other labels.
    pub fn union_left(&self, other: &Record) -> Result<Record, Memory>
        ensures { IfOk result (λ both. both ≡ overlay self.now other.now) }
    {
        Record::inherit(other, &LabelSet::new(self.values.allocator()), self)
    }

    /// A copy of what the record has at labels of `variant`.
    pub fn restrict(&self, variant: &LabelSet) -> Result<Record, Memory>
        ensures { IfOk result (λ part. part ≡ restrict self.now variant.now) }
    {
        let entries = copy_within(self.values.allocator(), self.values.as_slice(), variant)?;
        Ok(Record {
            values: LabelMap::from_sorted(entries),
        })
    }

    /// What a component that names the labels `named` gives where it takes `from` and emits `self`: `self`, with each
    /// label of `from` that is neither in `named` nor in `self`, at its value in `from`. For want of memory `self` is
    /// dropped.
    pub fn inheriting(self, from: &Record, named: &LabelSet) -> Result<Record, Memory>
        ensures { IfOk result (λ whole. whole ≡ inherit from.now named.now self) }
    {
        let Record { values } = self;
        let missing = copy_missing(values.allocator(), from.values.as_slice(), named, &values)?;
        let values = values.union(LabelMap::from_sorted(missing))?;
        Ok(Record { values })
    }

    /// As `inheriting`, where `from` is given up: its entries are moved. Takes no memory where `self` or what it inherits is
    /// empty.
    pub fn inheriting_owned(self, from: Record, named: &LabelSet) -> Result<Record, Memory>
        ensures { IfOk result (λ whole. whole ≡ inherit from named.now self) }
    {
        let Record { values } = self;
        let Record { values: taken } = from;
        let inherited = LabelMap::from_sorted(without_named(taken.into_entries(), named));
        let values = values.union(inherited)?;
        Ok(Record { values })
    }

    /// As `inheriting`, and leaves `emitted` as it is.
    pub fn inherit(from: &Record, named: &LabelSet, emitted: &Record) -> Result<Record, Memory>
        ensures { IfOk result (λ whole. whole ≡ inherit from.now named.now emitted.now) }
    {
        let copy = emitted.copy()?;
        copy.inheriting(from, named)
    }

    pub fn copy(&self) -> Result<Record, Memory>
        ensures { IfOk result (λ copy. copy ≡ self.now) }
    {
        let entries = copy_all(self.values.allocator(), self.values.as_slice())?;
        Ok(Record {
            values: LabelMap::from_sorted(entries),
        })
    }
}

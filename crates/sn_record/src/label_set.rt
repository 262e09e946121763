ghost use Rattle.std.specs.Prelude.{◌≡◌, ◌<◌, ◌==◌, ◌||◌, IfOk, OnOk, OnErr, IsTrue, ◌↔◌, not, slice_get};
ghost use Rattle.std.specs.FinMap as map;
ghost use Rattle.std.specs.List.{filter};
ghost use Rattle.sn_record.specs.Fits.{BindAlike, Fits};
ghost use Rattle.sn_record.specs.LabelSet.{contains, IsSubset, union, minus};

use crate::fits::{are_bound, fits};
use crate::label::Label;
use crate::label_map::LabelMap;
use sn_list::Memory;
use std::alloc::Global;
use std::marker::Model;

/// A finite set of labels, as a variant of a type is.
#[derive(PartialEq, Eq, Drop)]
pub struct LabelSet {
    labels: LabelMap<()>,
}

impl Model for LabelSet {
    ghost use Rattle.std.specs.FinSet as set;
    ghost use Rattle.sn_record.specs.contracts.label.Label as label;
    ghost use Rattle.sn_record.specs.LabelSet.{Labels};

    ghost Value = { Labels };

    ghost coded = { set.code label.the_row.coded };

    ghost view = { λ s. s.labels };

    ghost inverse = { λ m. record { labels = m } };
}

impl LabelSet {
    /// The empty set, which takes no memory until a label is inserted.
    pub fn new(alloc: Global) -> LabelSet
        ensures { result ≡ map.empty }
    {
        LabelSet {
            labels: LabelMap::new(alloc),
        }
    }

    pub fn len(&self) -> usize
        ensures { result ≡ map.len self.now }
    {
        self.labels.len()
    }

    pub fn is_empty(&self) -> bool
        ensures { result ≡ (map.len self.now == 0) }
    {
        self.labels.len() == 0
    }

    /// The labels in ascending order, each beside nothing.
    pub(crate) fn as_slice(&self) -> &[(Label, ())]
        ensures { result.now ≡ map.entries self.now }
    {
        self.labels.as_slice()
    }

    /// The i-th label in ascending order.
    pub fn at(&self, i: usize) -> Label
        requires { i < map.len self.now }
        ensures { slice_get (map.keys self.now) i ≡ Some result }
    {
        let (label, _) = self.labels.at(i);
        label
    }

    /// Whether `label` is new. For want of memory the set is unchanged.
    pub fn insert(&mut self, label: Label) -> Result<bool, Memory>
        ensures ok { OnOk result (self.new ≡ map.insert self.old label tt) }
        ensures fresh { IfOk result (λ fresh. fresh ≡ not (contains self.old label)) }
        ensures err { OnErr result (self.new ≡ self.old) }
    {
        match self.labels.insert(label, ()) {
            Ok(before) => Ok(before.is_none()),
            Err(()) => Err(Memory),
        }
    }

    pub fn contains(&self, label: Label) -> bool
        ensures { result ≡ contains self.now label }
    {
        self.labels.get(label).is_some()
    }

    pub fn is_subset(&self, other: &LabelSet) -> bool
        ensures { IsTrue result ↔ IsSubset self.now other.now }
    {
        for entry in self.labels.as_slice() {
            if !other.contains(entry.0) {
                return false;
            }
        }
        true
    }

    /// Whether each label is one of `other`, and each binding tag of `other` is one of these.
    pub fn fits(&self, other: &LabelSet) -> bool
        ensures { IsTrue result ↔ Fits self.now other.now }
    {
        fits(self, &other.labels)
    }

    /// Whether both have the same binding tags.
    pub fn binds_alike(&self, other: &LabelSet) -> bool
        ensures { IsTrue result ↔ BindAlike self.now other.now }
    {
        are_bound(self, other.as_slice()) && are_bound(other, self.as_slice())
    }

    /// The labels that are in either set.
    pub fn union(&self, other: &LabelSet) -> Result<LabelSet, Memory>
        ensures { IfOk result (λ both. both ≡ union self.now other.now) }
    {
        let LabelSet { labels: first } = self.copy()?;
        let LabelSet { labels: second } = other.copy()?;
        let labels = first.union(second)?;
        Ok(LabelSet { labels })
    }

    /// The labels that are not in `other`.
    pub fn minus(&self, other: &LabelSet) -> Result<LabelSet, Memory>
        ensures { IfOk result (λ rest. rest ≡ minus self.now other.now) }
    {
        let mut rest = Vec::new(self.labels.allocator());
        for entry in self.labels.as_slice() {
            if !other.contains(entry.0) {
                rest.push(*entry)?;
            }
        }
        Ok(LabelSet {
            labels: LabelMap::from_sorted(rest),
        })
    }

    pub fn copy(&self) -> Result<LabelSet, Memory>
        ensures { IfOk result (λ copy. copy ≡ self.now) }
    {
        let entries = Vec::from_slice(self.labels.allocator(), self.labels.as_slice())?;
        Ok(LabelSet {
            labels: LabelMap::from_sorted(entries),
        })
    }
}

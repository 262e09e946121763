ghost use Rattle.std.specs.Prelude.{◌≡◌, ◌++◌, ◌↔◌, IfOk, IsTrue};
ghost use Rattle.sn_types.specs.RecordType.{IsMinimal, IsSubtype, minimal};

use crate::variants::{all_have_fits, copy_minimal, push_copies};
use sn_list::Memory;
use sn_record::LabelSet;
use std::alloc::Global;
use std::marker::Model;

/// A record type, seen as the list of its variants in their order. One may stand more than once.
#[derive(Drop)]
pub struct RecordType {
    variants: Vec<LabelSet>,
}

impl Model for RecordType {
    ghost use Rattle.std.specs.Prelude.{List};
    ghost use Rattle.std.specs.Coded.{coded_list};
    ghost use Rattle.sn_record.specs.LabelSet.{Labels};
    ghost use Rattle.sn_record.specs.contracts.label_set.LabelSet as labels;

    ghost Value = { List Labels };

    ghost coded = { coded_list labels.the_row.coded };

    ghost view = { λ t. t.variants.items };
}

impl RecordType {
    /// The type with a copy of each of the variants.
    pub fn of(alloc: Global, variants: &[LabelSet]) -> Result<RecordType, Memory>
        ensures { IfOk result (λ made. made ≡ variants.now) }
    {
        let mut copies = Vec::with_capacity(alloc, variants.len())?;
        push_copies(&mut copies, variants)?;
        Ok(RecordType { variants: copies })
    }

    pub fn as_slice(&self) -> &[LabelSet]
        ensures { result.now ≡ self.now }
    {
        self.variants.as_slice()
    }

    /// Whether for each variant some variant of `y` fits it, so that each record of the type is of `y` too. Takes no memory.
    pub fn is_subtype(&self, y: &RecordType) -> bool
        ensures { IsTrue result ↔ IsSubtype self.now y.now }
    {
        all_have_fits(self.as_slice(), y.as_slice())
    }

    /// The variants of both, those of `self` first.
    pub fn union(&self, y: &RecordType) -> Result<RecordType, Memory>
        ensures { IfOk result (λ both. both ≡ self.now ++ y.now) }
    {
        let count = self.variants.len().saturating_add(y.variants.len());
        let mut copies = Vec::with_capacity(*self.variants.allocator(), count)?;
        push_copies(&mut copies, self.as_slice())?;
        push_copies(&mut copies, y.as_slice())?;
        Ok(RecordType { variants: copies })
    }

    /// The variants without those that repeat an earlier one or that a different one fits, in their order.
    ///
    /// Each variant is compared with each other one, as no order of variants tells which fit one another: the cost is the
    /// square of their number.
    pub fn minimal(&self) -> Result<RecordType, Memory>
        ensures exact { IfOk result (λ fewest. fewest ≡ minimal self.now) }
        ensures narrower { IfOk result (λ fewest. IsSubtype fewest self.now) }
        ensures wider { IfOk result (λ fewest. IsSubtype self.now fewest) }
        ensures apart { IfOk result IsMinimal }
    {
        let variants = copy_minimal(*self.variants.allocator(), self.as_slice())?;
        Ok(RecordType { variants })
    }
}

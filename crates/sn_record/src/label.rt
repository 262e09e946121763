ghost use Rattle.std.specs.Prelude.{◌≡◌};
ghost use Rattle.std.proofs.Common.{rules};
ghost use Rattle.std.specs.Cmp.{partial_order_from_own_ties};
ghost use Rattle.std.specs.Cmp.Rules.{comparing};
ghost use Rattle.std.specs.Ordering.{as_partial_cmp};
ghost use Rattle.sn_record.specs.Label.{is_binding, label_cmp, label_cmp_total};

use sn_list::sorted::KeyOrder;
use std::cmp::Ordering;

/// What a label is: a field has any sound value, a tag an Int.
#[derive(Clone, Copy, PartialEq, Eq, Debug)]
pub enum Kind {
    Field,
    Tag,
}

/// A name in a record, given by its number. A field and a tag of one number are two labels.
#[derive(Clone, Copy, PartialEq, Eq)]
pub struct Label {
    pub kind: Kind,
    pub id: u32,
}

/// The least number of a binding tag.
pub const FIRST_BINDING: u32 = 1 << 31;

impl Label {
    /// Whether the label is a binding tag: a record that has one is taken by those variants alone that name it.
    pub fn is_binding(&self) -> bool
        ensures { result ≡ is_binding self.now }
    {
        self.kind == Kind::Tag && self.id >= FIRST_BINDING
    }
}

impl Ord for Label {
    ghost cmp = { label_cmp };

    ghost total = { label_cmp_total };

    ghost matches_partial_cmp = { Prim.search (comparing, rules) };

    ghost matches_eq = { Prim.search (comparing, rules) };

    fn cmp(&self, other: &Label) -> Ordering {
        let kind = self.kind as u8;
        let other_kind = other.kind as u8;
        kind.cmp(&other_kind).then(self.id.cmp(&other.id))
    }
}

impl PartialOrd for Label {
    ghost partial_cmp = { as_partial_cmp label_cmp };

    ghost laws = { partial_order_from_own_ties (Prim.search (comparing, rules)) (Prim.search (comparing, rules)) };

    fn partial_cmp(&self, other: &Label) -> Option<Ordering> {
        Some(self.cmp(other))
    }
}

/// The order of labels: fields before tags, and then by number.
#[derive(Clone, Copy)]
pub struct ByLabel;

impl KeyOrder<Label> for ByLabel {
    ghost order = { λ _. label_cmp };

    ghost total = { λ _. label_cmp_total };

    fn compare(&self, left: &Label, right: &Label) -> Ordering {
        left.cmp(right)
    }
}

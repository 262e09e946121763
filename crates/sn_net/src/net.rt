ghost use Rattle.std.specs.Prelude.{◌≡◌};
ghost use Rattle.sn_net.specs.Net.{all_deterministic, is_in_order};

use crate::filter::Filter;
use sn_list::{Boxed, Seq};
use sn_record::LabelSet;
use sn_tagexpr::TagExpr;

/// How the streams of replicas and branches are put together again.
#[derive(Clone, Copy, PartialEq, Eq)]
pub enum Merge {
    /// In any order, but that of each.
    Free,
    /// In the order of the records that caused them.
    Det,
}

impl Merge {
    /// Whether answers come in the order of the records that caused them.
    fn is_in_order(self) -> bool
        ensures { result ≡ is_in_order self }
    {
        match self {
            Merge::Free => false,
            Merge::Det => true,
        }
    }
}

/// A network of components. A place is a byte offset in the source.
#[derive(Drop)]
pub enum Net {
    /// A call of the box of that number for each record.
    Box {
        place: u32,
        number: u32,
    },
    Filter(Filter),
    /// Joins one record for each pattern.
    Sync {
        place: u32,
        patterns: Seq<LabelSet>,
    },
    /// What `left` answers flows into `right`.
    Serial {
        left: Boxed<Net>,
        right: Boxed<Net>,
    },
    /// Each record goes to the branch whose face it matches best.
    Choice {
        place: u32,
        merge: Merge,
        branches: Seq<Net>,
        /// The face of each branch.
        faces: Seq<Seq<LabelSet>>,
    },
    /// Replicas of `body` in series, until a record matches `exit` and the guard is not 0.
    Star {
        place: u32,
        merge: Merge,
        body: Boxed<Net>,
        exit: LabelSet,
        guard: Option<TagExpr>,
    },
    /// A replica of `body` for each value of the tag.
    Split {
        place: u32,
        merge: Merge,
        body: Boxed<Net>,
        tag: u32,
    },
}

/// What a net with a signature is said to do.
#[derive(Drop)]
pub struct Claim {
    /// That of the net's name in its declaration.
    pub place: u32,
    pub net: Net,
    pub input: Seq<LabelSet>,
    pub output: Seq<LabelSet>,
}

/// Whether each choice, star and split in the network merges in order.
pub fn all_det(net: &Net) -> bool
    ensures { result ≡ all_deterministic net.now }
{
    match net {
        Net::Box { .. } | Net::Filter(_) | Net::Sync { .. } => true,
        Net::Serial { left, right } => all_det(left.get()) && all_det(right.get()),
        Net::Choice {
            merge,
            branches,
            ..
        } => {
            for branch in branches.as_slice() {
                if !all_det(branch) {
                    return false;
                }
            }
            merge.is_in_order()
        }
        Net::Star { merge, body, .. } => merge.is_in_order() && all_det(body.get()),
        Net::Split { merge, body, .. } => merge.is_in_order() && all_det(body.get()),
    }
}

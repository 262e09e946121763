ghost use Rattle.std.specs.Prelude.{◌<◌, All, length};
ghost use Rattle.sn_net.specs.WellFormed.{FitsBoxes};

use sn_list::Seq;
use sn_names::Names;
use sn_net::{Boxes, Claim};

/// What a program is resolved to, part by part.
#[derive(Drop)]
pub struct Parts {
    /// The names of the labels, numbered in the order of their first places.
    pub names: Names,
    /// In the order of their declarations.
    pub boxes: Boxes,
    /// One for each net with a signature, in the order of the places of the nets' names.
    pub claims: Seq<Claim>,
    /// The place in `claims` of that of the outermost net `main`.
    pub main: u32,
}

/// A program in which each name is resolved. The network of each claim is well formed over the boxes, and one of the claims is
/// the program's.
#[derive(Drop)]
pub struct Resolved {
    pub(crate) parts: Parts,
    pub ghost formed: { All (λ claim. FitsBoxes parts.boxes claim.net) parts.claims },
    pub ghost has_main: { parts.main < length parts.claims },
}

impl Resolved {
    ghost use Rattle.std.specs.Prelude.{◌≡◌};
    ghost use Rattle.sn_scope.specs.Resolution.{parts_of};

    pub fn as_parts(&self) -> &Parts
        ensures parts { result.now ≡ parts_of self.now }
        ensures formed { All (λ claim. FitsBoxes result.now.boxes claim.net) result.now.claims }
        ensures main { result.now.main < length result.now.claims }
    {
        &self.parts
    }

    pub fn into_parts(self) -> Parts
        ensures parts { result ≡ parts_of self }
        ensures formed { All (λ claim. FitsBoxes result.boxes claim.net) result.claims }
        ensures main { result.main < length result.claims }
    {
        let Resolved { parts } = self;
        parts
    }
}

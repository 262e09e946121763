ghost use Rattle.std.specs.Prelude.{◌≡◌, length};

use crate::entry::Entry;
use sn_record::Items;

/// What a node gives at once.
#[derive(Drop)]
pub enum Given {
    Items(Items),
    Entry(Entry),
}

impl Given {
    ghost use Rattle.sn_node.specs.Local.{given_of};

    /// How many entries these are.
    pub fn len(&self) -> usize
        ensures { result ≡ length (given_of self.now) }
    {
        match self {
            Given::Items(items) => items.len(),
            Given::Entry(_) => 1,
        }
    }
}

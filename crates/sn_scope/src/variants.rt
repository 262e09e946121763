ghost use Rattle.std.specs.Prelude.{◌≡◌, [], OnOk, OnErr, fold};
ghost use Rattle.sn_scope.specs.Variants.{added, IsBegun};

use indexmap::IndexSet;
use sn_list::{Memory, Seq};
use sn_record::LabelSet;
use std::alloc::Global;
use std::hash::{Hash, Hasher};
use std::marker::Model;

/// A variant as it is looked up: by a hash of its labels.
#[derive(PartialEq, Eq, Drop)]
struct Key {
    set: LabelSet,
}

impl Hash for Key {
    ghost use Rattle.sn_scope.specs.Keys.{key_writes, same_writes};

    ghost hash_input = { λ k. key_writes k.set };

    ghost respects_eq = { λ j k. same_writes j.set k.set };

    fn hash<H: Hasher>(&self, state: &mut H) {
        for i in 0..self.set.len() {
            let label = self.set.at(i);
            state.write_u8(label.kind as u8);
            state.write_u32(label.id);
        }
    }
}

/// Different variants in the order in which they were first added, seen as the list of them.
pub struct Variants {
    sets: Vec<LabelSet>,
    // The same sets again, so that none is looked for by a walk.
    keys: IndexSet<Key>,
}

/// Written out, so that a function that gives them up calls this, and is not proved over the table of the keys.
impl Drop for Variants {
    fn drop(self) {
        let Variants {
            sets: _sets,
            keys: _keys,
        } = self;
    }
}

impl Model for Variants {
    ghost use Rattle.std.specs.Prelude.{◌≡◌, List, map};
    ghost use Rattle.std.specs.Coded.{coded_list};
    ghost use Rattle.std.specs.FinSet as set;
    ghost use Rattle.sn_record.specs.contracts.label.Label as label;
    ghost use Rattle.sn_record.specs.LabelSet.{Labels};

    ghost Value = { List Labels };

    ghost coded = { coded_list (set.code label.the_row.coded) };

    ghost view = { λ v. v.sets.items };

    ghost invariant = { λ v. v.sets.items ≡ map (λ k. k.set) v.keys.keys };
}

impl Variants {
    /// No variants. Takes no memory until one is added.
    pub fn new(alloc: Global) -> Variants
        ensures { result ≡ [] }
    {
        Variants {
            sets: Vec::new(alloc),
            keys: IndexSet::new(alloc),
        }
    }

    /// Puts a new variant at the end. For want of memory the variants are unchanged.
    pub fn add(&mut self, set: LabelSet) -> Result<(), Memory>
        ensures ok { OnOk result (self.new ≡ added self.old set) }
        ensures err { OnErr result (self.new ≡ self.old) }
    {
        // Room comes first, so that the sets and the keys grow together or not at all.
        self.sets.reserve(1)?;
        let key = Key { set: set.copy()? };
        if self.keys.insert(key)? {
            self.sets.push_reserved(set);
        }
        Ok(())
    }

    /// Adds a copy of each set in turn. For want of memory only some first of them are added.
    pub fn add_all(&mut self, sets: &[LabelSet]) -> Result<(), Memory>
        ensures ok { OnOk result (self.new ≡ fold added self.old sets.now) }
        ensures err { OnErr result (IsBegun self.old sets.now self.new) }
    {
        for set in sets {
            let copy = set.copy()?;
            self.add(copy)?;
        }
        Ok(())
    }

    /// The variants as a list. Takes no memory.
    pub fn into_sets(self) -> Seq<LabelSet>
        ensures { result ≡ self }
    {
        let Variants { sets, keys: _keys } = self;
        Seq::from_vec(sets)
    }
}

ghost use Rattle.std.specs.Prelude.{◌≡◌, ◌<◌, ◌^◌, [], length, false, if◌then◌else◌, OnOk, OnErr, IfOk, IfSome};
ghost use Rattle.sn_names.specs.Names.{is_held, is_marked, entered, label_number, number_in, name_at, numbered};

use indexmap::IndexSet;
use sn_list::Memory;
use sn_record::FIRST_BINDING;
use std::alloc::Global;
use std::marker::Model;

/// Whether a name begins with `#`, as those of binding tags do.
fn is_marked(name: &[u8]) -> bool
    ensures { result ≡ is_marked name.now }
{
    match name.first() {
        Some(c) => *c == b'#',
        None => false,
    }
}

/// The number of a label, by its name and the place of that among the names.
#[tactic(auto, using(crate::proofs::Labels::numbered_marked, crate::proofs::Labels::numbered_plain))]
pub(crate) fn numbered(name: &[u8], place: u32) -> u32
    requires { place < 2 ^ 31 }
    ensures { result ≡ numbered name.now place }
{
    if is_marked(name) {
        FIRST_BINDING + place
    } else {
        place
    }
}

/// Different names, numbered from 0 in the order in which they were entered, and seen as the list of them.
#[derive(Drop)]
pub struct NameTable {
    names: IndexSet<Vec<u8>>,
}

impl Model for NameTable {
    ghost use Rattle.std.specs.Prelude.{ℕ, List, map};
    ghost use Rattle.std.specs.Vec.{vec_items};
    ghost use Rattle.sn_names.specs.Names.{AreNumbered};

    ghost Value = { List (List ℕ) };

    ghost view = { λ s. map vec_items s.names.keys };

    ghost invariant = { λ s. AreNumbered (map vec_items s.names.keys) };
}

impl NameTable {
    /// No names. Takes no memory until a name is entered.
    pub fn new(alloc: Global) -> NameTable
        ensures { result ≡ [] }
    {
        NameTable {
            names: IndexSet::new(alloc),
        }
    }

    /// How many names are held.
    pub fn count(&self) -> u32
        ensures number { result ≡ length self.now }
        ensures few { result < 2 ^ 31 }
    {
        self.names.len() as u32
    }

    /// The name of a number.
    pub fn name_of(&self, id: u32) -> &[u8]
        requires { id < length self.now }
        ensures name { result.now ≡ name_at self.now id }
        ensures number { number_in self.now result.now ≡ id }
    {
        self.names.as_slice()[id as usize].as_slice()
    }

    /// The number of a name, or nothing where it is not held. Takes no memory.
    pub fn find(&self, name: &[u8]) -> Option<u32>
        ensures number { result ≡ (if is_held self.now name.now then Some (number_in self.now name.now) else None) }
        ensures within { IfSome result (λ i. i < length self.now) }
        ensures few { IfSome result (λ i. i < 2 ^ 31) }
    {
        match self.names.get_index_of(name) {
            Some(place) => Some(place as u32),
            None => None,
        }
    }

    /// The number that a name has, or would get. It is the count where the name is not held. Takes no memory.
    pub fn number(&self, name: &[u8]) -> u32
        ensures number { result ≡ number_in self.now name.now }
        ensures few { result < 2 ^ 31 }
    {
        match self.find(name) {
            Some(number) => number,
            None => self.count(),
        }
    }

    /// The number that a label of this name has, or would get: that of a binding tag is as much from the least such number on.
    /// Takes no memory.
    pub fn label_number(&self, name: &[u8]) -> u32
        ensures { result ≡ label_number self.now name.now }
    {
        numbered(name, self.number(name))
    }

    /// The number of a name, which goes to the end where it is new. On an `Err` the names are unchanged.
    /// A table of 2^31 - 1 names is full, and answers a new one with `Memory` too.
    pub fn enter(&mut self, name: &[u8]) -> Result<u32, Memory>
        ensures ok { OnOk result (self.new ≡ entered self.old name.now) }
        ensures number { IfOk result (λ i. i ≡ number_in self.new name.now) }
        ensures within { IfOk result (λ i. i < length self.new) }
        ensures err { OnErr result (self.new ≡ self.old) }
        // Only a new name can fail.
        ensures fresh { OnErr result (is_held self.old name.now ≡ false) }
    {
        if let Some(number) = self.find(name) {
            return Ok(number);
        }
        // One more would get the number of a binding tag.
        if self.count() == FIRST_BINDING - 1 {
            return Err(Memory);
        }
        let copy = Vec::from_slice(*self.names.allocator(), name)?;
        let (place, _) = self.names.insert_full(copy)?;
        Ok(place as u32)
    }
}

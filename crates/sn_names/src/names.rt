ghost use Rattle.std.specs.Prelude.{◌≡◌, ◌<◌, ◌≤◌, ◌↔◌, [], length, false, if◌then◌else◌, OnOk, OnErr, IfOk, IfErr, IfSome, IsOk};
ghost use Rattle.sn_names.specs.Names.{is_held, entered, label_name, label_number, place_of, IsFull, IsHeld};

use crate::fault::NamesFault;
use crate::table::{NameTable, numbered};
use sn_list::Memory;
use sn_record::FIRST_BINDING;
use std::alloc::Global;
use std::marker::Model;

const MOST_NAMES: u32 = 4096;

/// The place of a number.
fn place_of(id: u32) -> u32
    ensures { result ≡ place_of id }
{
    if id >= FIRST_BINDING {
        id - FIRST_BINDING
    } else {
        id
    }
}

/// At most 4,096 different names of labels, seen as the list of them in the order in which they were entered. The number of a name is
/// its place in the list, and for one that begins with `#` as much from the least number of a binding tag on.
#[derive(Drop)]
pub struct Names {
    table: NameTable,
}

impl Model for Names {
    ghost use Rattle.std.specs.Prelude.{ℕ, List};
    ghost use Rattle.sn_names.specs.Names.{AreNames};

    ghost Value = { List (List ℕ) };

    ghost view = { λ s. s.table };

    ghost invariant = { λ s. AreNames s.table };
}

impl Names {
    /// No names. Takes no memory until a name is entered.
    pub fn new(alloc: Global) -> Result<Names, Memory>
        ensures none { IfOk result (λ names. names ≡ []) }
        ensures succeeds { IsOk result }
    {
        Ok(Names {
            table: NameTable::new(alloc),
        })
    }

    /// The names of a table, which comes back where they are too many.
    pub fn from_table(table: NameTable) -> Result<Names, NameTable>
        ensures ok { IfOk result (λ names. names ≡ table) }
        ensures back { IfErr result (λ refused. refused ≡ table) }
        ensures fits { IsOk result ↔ (length table ≤ 4096) }
    {
        if table.count() > MOST_NAMES {
            return Err(table);
        }
        Ok(Names { table })
    }

    /// How many names are held.
    pub fn count(&self) -> u32
        ensures number { result ≡ length self.now }
        ensures most { result ≤ 4096 }
    {
        self.table.count()
    }

    /// The number of a name, or nothing where it is not held. Takes no memory.
    pub fn find(&self, name: &[u8]) -> Option<u32>
        ensures number { result ≡ (if is_held self.now name.now then Some (label_number self.now name.now) else None) }
        ensures held { IfSome result (IsHeld self.now) }
    {
        match self.table.find(name) {
            Some(place) => Some(numbered(name, place)),
            None => None,
        }
    }

    /// The name of a number.
    pub fn name_of(&self, id: u32) -> &[u8]
        requires { IsHeld self.now id }
        ensures name { result.now ≡ label_name self.now id }
        ensures number { label_number self.now result.now ≡ id }
    {
        self.table.name_of(place_of(id))
    }

    /// The name at the place of a number, which is empty where there is none.
    pub fn name_or_none(&self, id: u32) -> &[u8]
        ensures { result.now ≡ label_name self.now id }
    {
        let place = place_of(id);
        if place < self.count() {
            self.table.name_of(place)
        } else {
            &[]
        }
    }

    /// The number of a name, which goes to the end where it is new. On an `Err` the names are unchanged.
    pub fn number_of(&mut self, name: &[u8]) -> Result<u32, NamesFault>
        ensures ok { OnOk result (self.new ≡ entered self.old name.now) }
        ensures number { IfOk result (λ id. id ≡ label_number self.new name.now) }
        ensures held { IfOk result (IsHeld self.new) }
        ensures most { OnOk result (length self.new ≤ 4096) }
        ensures too_many { (result ≡ Err NamesFault.TooMany) ↔ IsFull self.old name.now }
        ensures err { OnErr result (self.new ≡ self.old) }
        // Only a new name can fail.
        ensures fresh { OnErr result (is_held self.old name.now ≡ false) }
    {
        if let Some(number) = self.find(name) {
            return Ok(number);
        }
        if self.count() == MOST_NAMES {
            return Err(NamesFault::TooMany);
        }
        let place = self.table.enter(name)?;
        Ok(numbered(name, place))
    }
}

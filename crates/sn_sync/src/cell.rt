ghost use Rattle.std.specs.Prelude.{◌≡◌, ◌≢◌, ◌↔◌, ℕ, IsTrue, IfOk, OnOk, IfErr, OnErr};
ghost use Rattle.sn_record.specs.Record.{Entries};
ghost use Rattle.sn_net.specs.Cell.{Reception, Joined, Unmatched, cell_next, cell_emits, new_cell, reception};
ghost use Rattle.sn_net.specs.Item.{Rec};
ghost use Rattle.sn_sync.specs.Synchrocell.{has_joined, accepts, cell_of, received};
ghost use Rattle.sn_sync.specs.Outcome.{ComesOut, items_out};

use crate::slots::{empty_slots, fill, free_slot, matches_any};
use sn_list::{Memory, Seq};
use sn_net::copy_sets;
use sn_record::{LabelSet, Record};
use std::alloc::Global;
use std::marker::Model;

/// What comes out of a cell for a record.
#[derive(PartialEq, Eq, Drop)]
pub enum CellOut {
    /// Nothing: a slot holds the record.
    Held,
    /// The record, as it came.
    Passed(Record),
    /// The records that were held and the one that came, joined to one.
    Joined(Record),
}

/// Whether a cell still collects records.
#[derive(Drop)]
enum State {
    /// A slot for each pattern.
    Waiting(Vec<Option<Record>>),
    /// It has joined its records.
    Passing,
}

/// What a synchrocell keeps between two records: one for each pattern that was filled, or that it has joined. It holds no patterns,
/// which its caller gives with each record: those that it was made with. It is seen as the state of the cell.
#[derive(Drop)]
pub struct Holding {
    state: State,
}

impl Model for Holding {
    ghost use Rattle.sn_net.specs.Cell.{CellState};
    ghost use Rattle.sn_sync.specs.Coding.{state_code};

    ghost Value = { CellState };

    ghost coded = { state_code };

    ghost use Rattle.sn_sync.specs.Slotted.{state_of};

    ghost view = { λ holding. state_of holding.state };
}

impl Holding {
    /// What a cell with the patterns keeps before anything came.
    pub fn new(alloc: Global, patterns: &[LabelSet]) -> Result<Holding, Memory>
        ensures { IfOk result (λ holding. holding ≡ new_cell patterns.now) }
    {
        let slots = empty_slots(alloc, patterns)?;
        Ok(Holding {
            state: State::Waiting(slots),
        })
    }

    /// Whether the cell has joined its records, and so lets pass whatever comes.
    pub fn has_joined(&self) -> bool
        ensures { result ≡ has_joined self.now }
    {
        match self.state {
            State::Waiting(_) => false,
            State::Passing => true,
        }
    }

    /// Whether the record may be offered: the cell has joined, or the record matches one of its patterns.
    pub fn accepts(&self, patterns: &[LabelSet], r: &Record) -> bool
        ensures accepts { result ≡ accepts (cell_of patterns.now self.now) r.now }
        ensures matched { IsTrue result ↔ (reception patterns.now self.now r.now ≢ Unmatched) }
    {
        self.has_joined() || matches_any(patterns, r)
    }

    /// What comes out for a record. For want of memory, which joined records alone take, the record comes back, and nothing is
    /// changed.
    pub fn offer(&mut self, patterns: &[LabelSet], r: Record) -> Result<CellOut, Record>
        requires { IsTrue (accepts (cell_of patterns.now self.old) r) }
        ensures next { OnOk result (self.new ≡ cell_next patterns.now self.old (Rec r)) }
        ensures comes_out { IfOk result (ComesOut r (reception patterns.now self.old r)) }
        ensures emits { (place : ℕ) → IfOk result (λ out. items_out out ≡ cell_emits place patterns.now self.old (Rec r)) }
        ensures back { IfErr result (λ refused. refused ≡ r) }
        ensures unchanged { OnErr result (self.new ≡ self.old) }
        ensures joining { OnErr result ((both : Entries) × (reception patterns.now self.old r ≡ Joined both)) }
    {
        let State::Waiting(slots) = &mut self.state else {
            return Ok(CellOut::Passed(r));
        };
        let Some(place) = free_slot(patterns, slots, &r) else {
            return Ok(CellOut::Passed(r));
        };
        match fill(*slots.allocator(), slots, place, r) {
            Ok(None) => Ok(CellOut::Held),
            Ok(Some(both)) => {
                self.state = State::Passing;
                Ok(CellOut::Joined(both))
            }
            Err(refused) => Err(refused),
        }
    }
}

/// A synchrocell: it holds one record for each of its patterns, joins them once it has all, and then lets pass whatever
/// comes. It is seen as its patterns and its state.
#[derive(Drop)]
pub struct Cell {
    patterns: Seq<LabelSet>,
    holding: Holding,
}

impl Model for Cell {
    ghost use Rattle.sn_sync.specs.Synchrocell.{Synchrocell, cell_of};
    ghost use Rattle.sn_sync.specs.Coding.{synchrocell_code};

    ghost Value = { Synchrocell };

    ghost coded = { synchrocell_code };

    ghost view = { λ cell. cell_of cell.patterns cell.holding };
}

impl Cell {
    /// A cell to which nothing came yet, with a copy of the patterns.
    pub fn new(alloc: Global, patterns: &[LabelSet]) -> Result<Cell, Memory>
        ensures patterns { IfOk result (λ cell. cell.patterns ≡ patterns.now) }
        ensures state { IfOk result (λ cell. cell.state ≡ new_cell patterns.now) }
    {
        let holding = Holding::new(alloc, patterns)?;
        let patterns = copy_sets(alloc, patterns)?;
        Ok(Cell { patterns, holding })
    }

    /// Whether the cell has joined its records, and so lets pass whatever comes.
    pub fn has_joined(&self) -> bool
        ensures { result ≡ has_joined self.now.state }
    {
        self.holding.has_joined()
    }

    /// Whether the record may be offered: the cell has joined, or the record matches one of its patterns.
    pub fn accepts(&self, r: &Record) -> bool
        ensures accepts { result ≡ accepts self.now r.now }
        ensures matched { IsTrue result ↔ (received self.now r.now ≢ Unmatched) }
    {
        self.holding.accepts(self.patterns.as_slice(), r)
    }

    /// What comes out for a record. For want of memory, which joined records alone take, the record comes back, and the
    /// cell is unchanged.
    pub fn offer(&mut self, r: Record) -> Result<CellOut, Record>
        requires { IsTrue (accepts self.old r) }
        ensures patterns { self.new.patterns ≡ self.old.patterns }
        ensures next { OnOk result (self.new.state ≡ cell_next self.old.patterns self.old.state (Rec r)) }
        ensures comes_out { IfOk result (ComesOut r (received self.old r)) }
        ensures emits { (place : ℕ) → IfOk result (λ out. items_out out ≡ cell_emits place self.old.patterns self.old.state (Rec r)) }
        ensures back { IfErr result (λ refused. refused ≡ r) }
        ensures unchanged { OnErr result (self.new ≡ self.old) }
        ensures joining { OnErr result ((both : Entries) × (received self.old r ≡ Joined both)) }
    {
        self.holding.offer(self.patterns.as_slice(), r)
    }
}

//! One entry through a box, a filter or a synchrocell.
ghost use Rattle.std.specs.Prelude.{◌≡◌, IfErr, IfOk, IfSome, IsTrue, List, MatchBool, None, OnErr, OnOk, Option, Some, length, ℕ};
ghost use Rattle.std.specs.List.{list_all};
ghost use Rattle.std.specs.Option.{option_map};
ghost use Rattle.sn_record.specs.LabelSet.{Labels};
ghost use Rattle.sn_net.specs.Cell.{cell_emits, cell_next};
ghost use Rattle.sn_net.specs.Filter.{IsClosed};
ghost use Rattle.sn_net.specs.Item.{ModelItem, Rec};
ghost use Rattle.sn_net.specs.declared.net.Net.TheOpen.{Net-F};
ghost use Rattle.sn_sync.specs.Synchrocell.{accepts};
ghost use Rattle.sn_model.specs.Components.{filter_item};
ghost use Rattle.sn_model.specs.Run.{net_of};
ghost use Rattle.sn_model.specs.declared.run.Run as declared_run;
ghost use Rattle.sn_net.specs.declared.net.Net as declared_net;
ghost use Rattle.sn_view.specs.View as view;
ghost use Rattle.sn_view.specs.Next.{answering_entry, box_gives, cell_after, items};
ghost use Rattle.sn_view.specs.Routed.{is_going};
ghost use Rattle.sn_node.specs.Answered.{form_at, IsAnsweredBy};
ghost use Rattle.sn_node.specs.Entry.{entry_of};
ghost use Rattle.sn_node.specs.Local.{cell_step, Counts, given_of, HasRoute, IsBox, IsPassing, Passes, WouldGive, is_cell};
ghost use Rattle.sn_node.specs.Seen.{node_of, state_of, waiting_of};
ghost use Rattle.sn_node.specs.Woken.{AreWoken};

use crate::entry::{Entry, Waiting};
use crate::given::Given;
use crate::node::{Node, State};
use crate::parts::part_at;
use sn_filter::apply;
use sn_list::Memory;
use sn_model::Run;
use sn_net::{Filter, Net};
use sn_record::{Item, Items, Record};
use sn_sync::{Cell, CellOut};
use std::alloc::Global;

/// What a node would pass on for its first entry.
#[derive(Drop)]
pub enum Passing {
    /// Nothing may be passed on.
    Nothing,
    /// This, while the entry still waits.
    Given(Given),
    /// At most so many entries, once the first entry is taken.
    Count(usize),
}

/// How many entries a box passes on for this, if it may.
fn done_count(w: &Waiting) -> Option<usize>
    ensures { (answer : ModelItem → List ModelItem) → IsAnsweredBy answer w.now → result ≡ option_map length (box_gives answer (waiting_of w.now)) }
{
    match w {
        Waiting::Finished { items, .. } => Some(items.len()),
        Waiting::InFlight { .. } => None,
        Waiting::Plain(Entry::Item(Item::Rec(_))) => None,
        Waiting::Plain(Entry::Item(Item::Fault(_))) => Some(1),
        Waiting::Plain(Entry::Mark) => Some(1),
        Waiting::Plain(Entry::End) => Some(1),
    }
}

/// What a box passes on for this, if it may.
fn box_given(w: Waiting) -> Option<Given>
    ensures { (answer : ModelItem → List ModelItem) → IsAnsweredBy answer w → option_map given_of result ≡ box_gives answer (waiting_of w) }
{
    match w {
        Waiting::Finished { items, .. } => Some(Given::Items(items)),
        Waiting::InFlight { .. } => None,
        Waiting::Plain(Entry::Item(Item::Rec(_))) => None,
        Waiting::Plain(Entry::Item(Item::Fault(fault))) => {
            Some(Given::Entry(Entry::Item(Item::Fault(fault))))
        }
        Waiting::Plain(Entry::Mark) => Some(Given::Entry(Entry::Mark)),
        Waiting::Plain(Entry::End) => Some(Given::Entry(Entry::End)),
    }
}

/// What a filter passes on for an entry, which has a route there.
fn filter_given(alloc: Global, filter: &Filter, entry: &Entry) -> Result<Given, Memory>
    requires closed { IsClosed filter.now }
    requires routed { IsTrue (list_all is_going (answering_entry (filter_item filter.now) (entry_of entry.now))) }
    ensures { IfOk result (λ given. given_of given ≡ answering_entry (filter_item filter.now) (entry_of entry.now)) }
{
    match entry {
        Entry::Item(item) => match item {
            Item::Rec(taken) => Ok(Given::Items(apply(alloc, filter, taken)?)),
            Item::Fault(fault) => Ok(Given::Entry(Entry::Item(Item::Fault(*fault)))),
        },
        Entry::Mark => Ok(Given::Entry(Entry::Mark)),
        Entry::End => Ok(Given::Entry(Entry::End)),
    }
}

/// What a cell passes on for a record that it accepts. For want of memory the record comes back, and nothing has changed.
fn record_given(alloc: Global, cell: &mut Cell, r: Record) -> Result<Given, Record>
    requires { IsTrue (accepts cell.old r) }
    ensures patterns { cell.new.patterns ≡ cell.old.patterns }
    ensures state { OnOk result (cell.new.state ≡ cell_next cell.old.patterns cell.old.state (Rec r)) }
    ensures given { (place : ℕ) → IfOk result (λ given. given_of given ≡ items (cell_emits place cell.old.patterns cell.old.state (Rec r))) }
    ensures back { IfErr result (λ refused. refused ≡ r) }
    ensures unchanged { OnErr result (cell.new ≡ cell.old) }
{
    match cell.offer(r) {
        Ok(CellOut::Held) => Ok(Given::Items(Items::new(alloc))),
        Ok(CellOut::Passed(r)) => Ok(Given::Entry(Entry::Item(Item::Rec(r)))),
        Ok(CellOut::Joined(r)) => Ok(Given::Entry(Entry::Item(Item::Rec(r)))),
        Err(refused) => Err(refused),
    }
}

/// What a cell passes on for an entry, which has a route there. For want of memory the entry comes back, and nothing has changed.
fn cell_given(alloc: Global, cell: &mut Cell, entry: Entry) -> Result<Given, Entry>
    requires { (place : ℕ) → IsTrue (list_all is_going (answering_entry (cell_emits place cell.old.patterns cell.old.state) (entry_of entry))) }
    ensures patterns { cell.new.patterns ≡ cell.old.patterns }
    ensures state { OnOk result (cell.new.state ≡ cell_after cell.old.patterns cell.old.state (entry_of entry)) }
    ensures given { (place : ℕ) → IfOk result (λ given. given_of given ≡ answering_entry (cell_emits place cell.old.patterns cell.old.state) (entry_of entry)) }
    ensures back { IfErr result (λ refused. refused ≡ entry) }
    ensures unchanged { OnErr result (cell.new ≡ cell.old) }
{
    match entry {
        Entry::Item(item) => match item {
            Item::Rec(r) => match record_given(alloc, cell, r) {
                Ok(given) => Ok(given),
                Err(refused) => Err(Entry::Item(Item::Rec(refused))),
            },
            Item::Fault(fault) => Ok(Given::Entry(Entry::Item(Item::Fault(fault)))),
        },
        Entry::Mark => Ok(Given::Entry(Entry::Mark)),
        Entry::End => Ok(Given::Entry(Entry::End)),
    }
}

/// The same of a node's state, which is a cell's.
fn cell_gives(alloc: Global, state: &mut State, entry: Entry) -> Result<Given, Entry>
    requires cell { IsTrue (is_cell (state_of state.old)) }
    requires routed { (place : ℕ) → IfSome (cell_step place (state_of state.old) (entry_of entry)) (λ step. IsTrue (list_all is_going step.entries)) }
    ensures given { (place : ℕ) → IfOk result (λ given. cell_step place (state_of state.old) (entry_of entry) ≡ Some (record { state = state_of state.new; entries = given_of given })) }
    ensures back { IfErr result (λ refused. refused ≡ entry) }
    ensures unchanged { OnErr result (state_of state.new ≡ state_of state.old) }
    ensures woken { (children : List view.Child) → AreWoken state.old children → AreWoken state.new children }
{
    match state {
        State::Cell(cell) => cell_given(alloc, cell, entry),
        State::Alone | State::InTurn(_) | State::Freely(_) => unreachable!(),
    }
}

/// What would be passed on, where that is told by its length alone.
fn counted(count: Option<usize>) -> Passing
    ensures { (run : declared_run.Run) (form : Option (Net-F declared_net.Net)) (n : view.Node) → Counts run form n count → IsPassing run form n result }
{
    match count {
        Some(most) => Passing::Count(most),
        None => Passing::Nothing,
    }
}

impl Node {
    /// Whether it keeps nothing.
    pub(crate) fn is_alone(&self) -> bool
        ensures { MatchBool result (state_of self.now.state ≡ view.Alone) (state_of self.now.state ≡ view.Alone → ⊥) }
    {
        match self.state {
            State::Alone => true,
            State::Cell(_) | State::InTurn(_) | State::Freely(_) => false,
        }
    }

    /// Whether it is a synchrocell.
    pub(crate) fn is_cell(&self) -> bool
        ensures { result ≡ is_cell (state_of self.now.state) }
    {
        match self.state {
            State::Cell(_) => true,
            State::Alone | State::InTurn(_) | State::Freely(_) => false,
        }
    }

    /// How many entries a box would pass on for its first one, if it may.
    fn box_count(&self) -> Option<usize>
        ensures { (place number : ℕ) → IsBox self.now.made place number → Counts self.now.made.run.value (Some (Net-F.Box place number)) (node_of self.now) result }
    {
        if !self.is_alone() {
            return None;
        }
        match self.waiting.first() {
            Some(first) => done_count(first),
            None => None,
        }
    }

    /// Passes on what a box may.
    fn pass_box(&mut self) -> Option<Given>
        ensures passed { (place number : ℕ) → IsBox self.old.made place number → Passes self.old.made.run.value (Some (Net-F.Box place number)) (node_of self.old) (node_of self.new) result }
        ensures made { self.new.made ≡ self.old.made }
    {
        if self.box_count().is_none() {
            return None;
        }
        match self.pop() {
            Some(first) => box_given(first),
            None => None,
        }
    }

    /// What a filter would pass on for its first entry, which has a route there.
    fn filter_passing(&self, alloc: Global, filter: &Filter) -> Result<Option<Given>, Memory>
        requires closed { IsClosed filter.now }
        requires routed { HasRoute self.now.made.run.value (Some (Net-F.Filter filter.now)) (node_of self.now) }
        ensures { IfOk result (WouldGive self.now.made.run.value (Some (Net-F.Filter filter.now)) (node_of self.now)) }
    {
        if !self.is_alone() {
            return Ok(None);
        }
        match self.first_plain() {
            Some(entry) => Ok(Some(filter_given(alloc, filter, entry)?)),
            None => Ok(None),
        }
    }

    /// Passes on what a filter answers to its first entry, which has a route there.
    fn pass_filter(&mut self, alloc: Global, filter: &Filter) -> Result<Option<Given>, Memory>
        requires closed { IsClosed filter.now }
        requires routed { HasRoute self.old.made.run.value (Some (Net-F.Filter filter.now)) (node_of self.old) }
        ensures ok { IfOk result (Passes self.old.made.run.value (Some (Net-F.Filter filter.now)) (node_of self.old) (node_of self.new)) }
        ensures err { OnErr result (node_of self.new ≡ node_of self.old) }
        ensures made { self.new.made ≡ self.old.made }
    {
        let Some(given) = self.filter_passing(alloc, filter)? else {
            return Ok(None);
        };
        let _passed = self.pop();
        Ok(Some(given))
    }

    /// How many entries a synchrocell would pass on for its first one, if there is one.
    fn cell_count(&self) -> Option<usize>
        ensures { (place : ℕ) (own : List Labels) → Counts self.now.made.run.value (Some (Net-F.Sync place own)) (node_of self.now) result }
    {
        if !self.is_cell() {
            return None;
        }
        match self.first_plain() {
            Some(_) => Some(1),
            None => None,
        }
    }

    /// Passes its first entry on as a synchrocell does, where it has a route there.
    fn pass_cell(&mut self, alloc: Global) -> Result<Option<Given>, Memory>
        requires routed { (place : ℕ) (own : List Labels) → HasRoute self.old.made.run.value (Some (Net-F.Sync place own)) (node_of self.old) }
        ensures ok { (place : ℕ) (own : List Labels) → IfOk result (Passes self.old.made.run.value (Some (Net-F.Sync place own)) (node_of self.old) (node_of self.new)) }
        ensures err { OnErr result (node_of self.new ≡ node_of self.old) }
        ensures made { self.new.made ≡ self.old.made }
    {
        if !self.is_cell() {
            return Ok(None);
        }
        let Some(entry) = self.pop_plain() else {
            return Ok(None);
        };
        match cell_gives(alloc, &mut self.state, entry) {
            Ok(given) => Ok(Some(given)),
            Err(refused) => {
                self.waiting.unpop(Waiting::Plain(refused));
                Err(Memory)
            }
        }
    }

    /// What the node would pass on for its first entry, which has a route there.
    pub fn passing(&self, alloc: Global, run: &Run) -> Result<Passing, Memory>
        requires of { self.now.made.run.value ≡ run.now }
        requires routed { HasRoute run.now (form_at (net_of run.now) self.now.made.path) (node_of self.now) }
        ensures { IfOk result (IsPassing run.now (form_at (net_of run.now) self.now.made.path) (node_of self.now)) }
    {
        let Some(part) = part_at(run.net(), self.made.path.as_slice()) else {
            return Ok(Passing::Nothing);
        };
        match part {
            Net::Box { .. } => Ok(counted(self.box_count())),
            Net::Filter(filter) => match self.filter_passing(alloc, filter)? {
                Some(given) => Ok(Passing::Given(given)),
                None => Ok(Passing::Nothing),
            },
            Net::Sync { .. } => Ok(counted(self.cell_count())),
            Net::Serial { .. } | Net::Choice { .. } | Net::Star { .. } | Net::Split { .. } => {
                Ok(Passing::Nothing)
            }
        }
    }

    /// Passes on the first entry of a box, a filter or a synchrocell, which has a route there. For want of memory nothing has changed.
    pub fn pass(&mut self, alloc: Global, run: &Run) -> Result<Option<Given>, Memory>
        requires of { self.old.made.run.value ≡ run.now }
        requires routed { HasRoute run.now (form_at (net_of run.now) self.old.made.path) (node_of self.old) }
        ensures ok { IfOk result (Passes run.now (form_at (net_of run.now) self.old.made.path) (node_of self.old) (node_of self.new)) }
        ensures err { OnErr result (node_of self.new ≡ node_of self.old) }
        ensures made { self.new.made ≡ self.old.made }
    {
        let Some(part) = part_at(run.net(), self.made.path.as_slice()) else {
            return Ok(None);
        };
        match part {
            Net::Box { .. } => Ok(self.pass_box()),
            Net::Filter(filter) => self.pass_filter(alloc, filter),
            Net::Sync { .. } => self.pass_cell(alloc),
            Net::Serial { .. } | Net::Choice { .. } | Net::Star { .. } | Net::Split { .. } => {
                Ok(None)
            }
        }
    }
}

//! What a network gives, and lists whose room is used again.
ghost use Rattle.std.specs.Prelude.{◌≡◌, [], OnOk};

use crate::flowing::Flowing;
use sn_list::{Memory, Seq};
use sn_record::Items;
use std::alloc::Global;
use std::mem::replace;

/// What was given so far. Each item needs lists of its own on its way: those that were worked off are put by for the next ones.
#[derive(Drop)]
pub struct Output {
    pub given: Seq<Flowing>,
    answers: Items,
    spare: Vec<Vec<Flowing>>,
}

impl Output {
    /// Nothing was given, and nothing is put by.
    pub fn new(alloc: Global) -> Output
        ensures { result.given ≡ [] }
    {
        Output {
            given: Seq::new(alloc),
            answers: Items::new(alloc),
            spare: Vec::new(alloc),
        }
    }

    /// Sets aside what was given so far, and begins with nothing.
    pub fn begin(&mut self, alloc: Global) -> Seq<Flowing>
        ensures before { result ≡ self.old.given }
        ensures anew { self.new.given ≡ [] }
    {
        let mut room = match self.spare.pop() {
            Some(room) => room,
            None => Vec::new(alloc),
        };
        room.clear();
        replace(&mut self.given, Seq::from_vec(room))
    }

    /// Goes back to what was set aside, and answers what was given since.
    pub fn end(&mut self, before: Seq<Flowing>) -> Seq<Flowing>
        ensures since { result ≡ self.old.given }
        ensures back { self.new.given ≡ before }
    {
        replace(&mut self.given, before)
    }

    /// Puts by a list that was worked off.
    pub fn put_by(&mut self, room: Vec<Flowing>) -> Result<(), Memory>
        ensures { self.new.given ≡ self.old.given }
    {
        self.spare.push(room)?;
        Ok(())
    }

    /// An empty list for what a filter answers.
    pub fn take_answers(&mut self, alloc: Global) -> Items
        ensures empty { result ≡ [] }
        ensures same { self.new.given ≡ self.old.given }
    {
        let mut room = replace(&mut self.answers, Items::new(alloc)).into_vec();
        room.clear();
        Items::from_vec(room)
    }

    /// Puts by the list of what a filter answered.
    pub fn put_answers(&mut self, room: Items)
        ensures { self.new.given ≡ self.old.given }
    {
        self.answers = room;
    }
}

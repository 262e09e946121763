//! The positions of many places of one text.
ghost use Rattle.std.specs.Prelude.{◌≡◌, ◌<◌, ◌*◌, length, IfOk, MatchOption};
ghost use Rattle.sn_place.specs.Place.{IsAt, AreMarks};
ghost use Rattle.sn_place.specs.declared.places.TheConstants.{STEP};

use crate::position::{Position, walk};
use sn_list::{Memory, Seq};
use sn_stack::append;
use std::alloc::Global;

/// How many bytes stand between two places whose positions are kept.
const STEP: usize = 256;

/// A text whose places are asked for: the position of each 256th is kept, so that each answer takes a short walk.
#[derive(Drop)]
pub struct Places<'a> {
    text: &'a [u8],
    marks: Seq<Position>,
    ghost marked: { AreMarks text.now marks },
    ghost enough: { length text.now < STEP * length marks },
}

impl<'a> Places<'a> {
    /// The places of a text. Takes memory for one position in 256 bytes, and a walk over the text.
    pub fn of(alloc: Global, text: &'a [u8]) -> Result<Places<'a>, Memory>
        ensures { IfOk result (λ places. places.text.now ≡ text.now) }
    {
        let mut marks = Seq::new(alloc);
        let mut position = Position { line: 1, column: 1 };
        let count = text.len() / STEP;
        for k in 0..count {
            append(&mut marks, position)?;
            position = walk(text, STEP * k, STEP * k + STEP, position);
        }
        append(&mut marks, position)?;
        Ok(Places { text, marks })
    }

    /// The position of a place, or nothing behind the end of the text.
    pub fn at(&self, at: usize) -> Option<Position>
        ensures { MatchOption result (length self.now.text.now < at) (λ position. IsAt self.now.text.now at position) }
    {
        if at > self.text.len() {
            return None;
        }
        let k = at / STEP;
        let mark = *self.marks.at(k);
        Some(walk(self.text, STEP * k, at, mark))
    }
}

ghost use Rattle.std.specs.Prelude.{◌≡◌, ◌+◌, ◌↔◌, IfOk, IsTrue, MatchOption};
ghost use Rattle.sn_record.specs.Value.{FitsIn, IsSound, is_printable_text, weight};

use sn_list::{Memory, Seq};
use std::alloc::Global;

/// Bytes. A sound text has bytes 0x20 to 0x7E alone.
pub type Text = Seq<u8>;

pub type Values = Seq<Value>;

/// What stands at a label of a record.
#[derive(PartialEq, Eq, Drop)]
pub enum Value {
    Int(i64),
    Text(Text),
    List(Values),
}

const MOST_LEVELS: u32 = 32;

const MOST_WEIGHT: u32 = 65_536;

/// Whether each byte is 0x20 to 0x7E.
fn is_printable(text: &[u8]) -> bool
    ensures { result ≡ is_printable_text text.now }
{
    for byte in text {
        if *byte < 0x20 || *byte > 0x7e {
            return false;
        }
    }
    true
}

impl Value {
    /// What is left of `room` past the value's weight, or nothing where the value is nested deeper than `levels`,
    /// too heavy or not printable. It goes no deeper than `levels` lists, whatever the value.
    fn room_left(&self, levels: u32, room: u32) -> Option<u32>
        ensures { MatchOption result (¬ FitsIn levels room self.now)
            (λ left. FitsIn levels room self.now × (weight self.now + left ≡ room)) }
    {
        if room == 0 {
            return None;
        }
        let left = room - 1;
        match self {
            Value::Int(_) => Some(left),
            Value::Text(text) => {
                if text.len() > left as usize || !is_printable(text.as_slice()) {
                    return None;
                }
                Some(left - text.len() as u32)
            }
            Value::List(values) => {
                if levels == 0 {
                    return None;
                }
                let mut left = left;
                for value in values.as_slice() {
                    left = value.room_left(levels - 1, left)?;
                }
                Some(left)
            }
        }
    }

    /// Whether a record may hold the value: its texts are printable, it is nested at most 32 deep, and it weighs at
    /// most 65,536. Takes no memory, and is at most 33 calls deep.
    pub fn is_sound(&self) -> bool
        ensures { IsTrue result ↔ IsSound self.now }
    {
        self.room_left(MOST_LEVELS, MOST_WEIGHT).is_some()
    }

    pub fn copy(&self, alloc: Global) -> Result<Value, Memory>
        ensures { IfOk result (λ copy. copy ≡ self.now) }
    {
        match self {
            Value::Int(n) => Ok(Value::Int(*n)),
            Value::Text(text) => {
                let text = Seq::from_slice(alloc, text.as_slice())?;
                Ok(Value::Text(text))
            }
            Value::List(values) => {
                let mut copies = Vec::with_capacity(alloc, values.len())?;
                for value in values.as_slice() {
                    let copy = value.copy(alloc)?;
                    copies.push(copy)?;
                }
                Ok(Value::List(Seq::from_vec(copies)))
            }
        }
    }
}

//! Where values lie by their numbers while no thread has them.
ghost use Rattle.std.specs.Prelude.{◌≡◌, length};

use sn_list::Memory;
use std::alloc::Global;
use std::sync::{Mutex, Wait};

/// Over so many locks the slots are spread, so that threads seldom wait for each other.
const SHARDS: u64 = 16;

/// What may rest until it is woken.
pub trait Rest {
    /// Lets it rest, unless something came for it since it was last looked at. Answers whether it rests.
    fn rest(&self) -> bool;
}

/// A slot for each number, in which a value lies or not.
#[derive(Drop)]
pub struct Slots<T> {
    shards: Vec<Mutex<Vec<Option<T>>>>,
    ghost spread: { length shards.items ≡ 16 },
}

/// Puts a value into a slot, which is made if it isn't there.
fn place<T: Drop>(slots: &mut Vec<Option<T>>, slot: u64, x: T) -> Result<(), Memory> {
    let slot = slot as usize;
    for _ in slots.len()..=slot {
        slots.push(None)?;
    }
    if let Some(free) = slots.get_mut(slot) {
        *free = Some(x);
    }
    Ok(())
}

impl<T: Drop> Slots<T> {
    pub fn new(alloc: Global) -> Result<Slots<T>, Memory> {
        let mut shards = Vec::new(alloc);
        for _ in 0..SHARDS {
            shards.push(Mutex::new(Vec::new(alloc)))?;
        }
        Ok(Slots { shards })
    }

    fn shard(&self, number: u64) -> &Mutex<Vec<Option<T>>> {
        &self.shards[(number % SHARDS) as usize]
    }

    /// Puts a value into its slot. For want of memory it is dropped.
    pub fn put<R: Wait>(&self, rt: &R, number: u64, x: T) -> Result<(), Memory> {
        let mut slots = self.shard(number).lock(rt);
        place(&mut slots, number / SHARDS, x)
    }

    /// Takes the value of a number out of its slot. There is none where another thread has it, or it is gone.
    pub fn take<R: Wait>(&self, rt: &R, number: u64) -> Option<T> {
        let mut slots = self.shard(number).lock(rt);
        slots.get_mut((number / SHARDS) as usize)?.take()
    }
}

impl<T: Rest + Drop> Slots<T> {
    /// Puts a value that has nothing to do into its slot, where it rests until it is woken. It comes back if something has come for it meanwhile.
    pub fn rest<R: Wait>(&self, rt: &R, number: u64, x: T) -> Result<Option<T>, Memory> {
        let mut slots = self.shard(number).lock(rt);
        if !x.rest() {
            return Ok(Some(x));
        }
        place(&mut slots, number / SHARDS, x)?;
        Ok(None)
    }
}

//! Items that wait at the levels of a star.
ghost use Rattle.std.specs.Prelude.{◌≡◌, ◌≢◌, ◌++◌, ◌≤◌, ℕ, OnOk, map};
ghost use Rattle.sn_pass.specs.Flowing.{flows};
ghost use Rattle.sn_pass.specs.Held.{kept_at};
ghost use Rattle.sn_pass.specs.Levels.{entries};
ghost use Rattle.sn_pass.specs.States.{held};
ghost use Rattle.sn_pass.specs.Waiting.{AreWithin, stack_of};

use crate::flowing::Flowing;
use crate::kept::{Kept, Taken};
use crate::output::Output;
use crate::slots::put_at;
use sn_list::{Memory, Seq};

/// An item that comes to a level of a star.
#[derive(Drop)]
pub struct Waiting {
    pub level: u32,
    pub item: Flowing,
}

/// Lets items wait at a level, before all that wait already, and the first of them first. Answers the room that their list took.
pub fn wait(
    waiting: &mut Vec<Waiting>,
    level: u32,
    items: Seq<Flowing>,
) -> Result<Vec<Flowing>, Memory>
    ensures { OnOk result (stack_of waiting.new.items ≡ entries level (map flows items) ++ stack_of waiting.old.items) }
{
    let mut items = items.into_vec();
    while let Some(item) = items.pop() {
        waiting.push(Waiting { level, item })?;
    }
    Ok(items)
}

/// Keeps the state of a level, through which an item went, and lets what it made wait at the level inside.
pub fn settle(
    levels: &mut Vec<Kept>,
    waiting: &mut Vec<Waiting>,
    level: u32,
    inside: u32,
    own: Taken,
    made: Seq<Flowing>,
    out: &mut Output,
) -> Result<(), Memory>
    ensures put { OnOk result (kept_at (map held levels.new.items) level ≡ held own.state) }
    ensures others { OnOk result ((j : ℕ) → j ≢ level → kept_at (map held levels.new.items) j ≡ kept_at (map held levels.old.items) j) }
    ensures waits { OnOk result (stack_of waiting.new.items ≡ entries inside (map flows made) ++ stack_of waiting.old.items) }
    ensures same { OnOk result (out.new.given ≡ out.old.given) }
{
    put_at(levels, level as usize, own.into_inner())?;
    let room = wait(waiting, inside, made)?;
    out.put_by(room)
}

//! What the branches of a choice, or the bodies of a star, keep in a list.
ghost use Rattle.std.specs.Prelude.{◌≡◌, ◌≢◌, ◌<◌, ℕ, OnOk, length, map};
ghost use Rattle.sn_streams.specs.Keys.Key.{Branch};
ghost use Rattle.sn_pass.specs.Held.{kept_at};
ghost use Rattle.sn_pass.specs.Keeping.{child_of};
ghost use Rattle.sn_pass.specs.States.{held};

use crate::kept::{Kept, Taken, keep};
use sn_list::Memory;
use std::mem::replace;

/// Takes out what is kept at a place, which is nothing past the end.
pub fn take_at(states: &mut Vec<Kept>, i: usize) -> Kept
    ensures taken { held result ≡ kept_at (map held states.old.items) i }
    ensures others { (j : ℕ) → j ≢ i → kept_at (map held states.new.items) j ≡ kept_at (map held states.old.items) j }
{
    if i >= states.len() {
        return Kept::Fresh;
    }
    replace(&mut states[i], Kept::Fresh)
}

/// Makes the list so long that it has the place.
fn grow(states: &mut Vec<Kept>, i: usize) -> Result<(), Memory>
    ensures long { OnOk result (i < length states.new.items) }
    ensures same { OnOk result ((j : ℕ) → kept_at (map held states.new.items) j ≡ kept_at (map held states.old.items) j) }
{
    while states.len() <= i {
        states.push(Kept::Fresh)?;
    }
    Ok(())
}

/// Keeps a state at a place, up to which the list grows.
pub fn put_at(states: &mut Vec<Kept>, i: usize, state: Kept) -> Result<(), Memory>
    ensures put { OnOk result (kept_at (map held states.new.items) i ≡ held state) }
    ensures others { OnOk result ((j : ℕ) → j ≢ i → kept_at (map held states.new.items) j ≡ kept_at (map held states.old.items) j) }
{
    grow(states, i)?;
    drop(replace(&mut states[i], state));
    Ok(())
}

/// Keeps what the branches of a choice keep, with a state for one of them.
pub fn keep_branch(kept: &mut Kept, branches: Vec<Kept>, i: usize, own: Taken) -> Result<(), Memory>
    ensures put { OnOk result (child_of (held kept.new) (Branch i) ≡ held own.state) }
    ensures others { OnOk result ((j : ℕ) → j ≢ i → child_of (held kept.new) (Branch j) ≡ kept_at (map held branches.items) j) }
{
    let mut branches = branches;
    put_at(&mut branches, i, own.into_inner())?;
    keep(kept, Kept::Branches(branches));
    Ok(())
}

//! What an engine keeps of a network between two items.
ghost use Rattle.std.specs.Prelude.{◌≡◌, ℕ, ℤ, IfOk, IsTrue, OnOk, map, false};
ghost use Rattle.std.specs.Ordering.{int_eq};
ghost use Rattle.sn_streams.specs.Keys.Key.{Branch, Value};
ghost use Rattle.sn_net.specs.Cell.{new_cell};
ghost use Rattle.sn_pass.specs.Held.{LevelsOf, kept_at};
ghost use Rattle.sn_pass.specs.Keeping.{child_of, left_of, right_of, state_or};
ghost use Rattle.sn_pass.specs.Keeping as keeping;
ghost use Rattle.sn_pass.specs.States.{at_value, held};

use sn_list::Memory;
use sn_record::LabelSet;
use sn_sync::Holding;
use std::alloc::Global;
use std::collections::BTreeMap;
use std::mem::replace;

/// What is kept of a network. It is made as its first item comes, so a part to which no item comes costs nothing.
#[derive(Drop)]
pub enum Kept {
    /// No item came yet, or nothing is to be kept.
    Fresh,
    Cell(Holding),
    /// Of both parts of a series.
    Parts(Box<(Kept, Kept)>),
    /// Of the branches of a choice, by their numbers.
    Branches(Vec<Kept>),
    /// Of a star's body at each level.
    Levels(Vec<Kept>),
    /// Of the replicas of a split's body, by the values of the tag.
    Replicas(BTreeMap<i64, Kept>),
}

/// What a part keeps, while it is taken out and an item goes through the part. Its `Drop` is written out, so that a function that gives
/// it up calls this, and is not proved over each form of it.
pub struct Taken {
    pub state: Kept,
}

impl Taken {
    pub fn into_inner(self) -> Kept
        ensures { result ≡ self.state }
    {
        let Taken { state } = self;
        state
    }
}

impl Drop for Taken {
    fn drop(self) {
        let Taken { state: _state } = self;
    }
}

/// Keeps something else.
pub fn keep(kept: &mut Kept, now: Kept)
    ensures { kept.new ≡ now }
{
    drop(replace(kept, now));
}

/// Keeps what a cell holds.
pub fn keep_cell(kept: &mut Kept, holding: Holding)
    ensures { held kept.new ≡ keeping.At holding }
{
    drop(replace(kept, Kept::Cell(holding)));
}

/// What a cell with the patterns holds.
pub fn into_holding(kept: Kept, alloc: Global, patterns: &[LabelSet]) -> Result<Holding, Memory>
    ensures { IfOk result (λ holding. holding ≡ state_or (new_cell patterns.now) (held kept)) }
{
    let Kept::Cell(holding) = kept else {
        return Holding::new(alloc, patterns);
    };
    Ok(holding)
}

/// What the left part and the right part of a series keep.
pub fn into_parts(kept: Kept) -> (Kept, Kept)
    ensures left { held result.0 ≡ left_of (held kept) }
    ensures right { held result.1 ≡ right_of (held kept) }
{
    let Kept::Parts(parts) = kept else {
        return (Kept::Fresh, Kept::Fresh);
    };
    Box::into_inner(parts)
}

/// What the branches of a choice keep.
pub fn into_branches(kept: Kept, alloc: Global) -> Vec<Kept>
    ensures { (i : ℕ) → kept_at (map held result.items) i ≡ child_of (held kept) (Branch i) }
{
    let Kept::Branches(branches) = kept else {
        return Vec::new(alloc);
    };
    branches
}

/// What a star's body keeps at each level.
pub fn into_levels(kept: Kept, alloc: Global) -> Vec<Kept>
    ensures { LevelsOf (held kept) (map held result.items) }
{
    let Kept::Levels(levels) = kept else {
        return Vec::new(alloc);
    };
    levels
}

/// What the replicas of a split's body keep.
pub fn into_replicas(kept: Kept, alloc: Global) -> BTreeMap<i64, Kept>
    ensures { (n : ℤ) → at_value result n ≡ child_of (held kept) (Value n) }
{
    let Kept::Replicas(replicas) = kept else {
        return BTreeMap::new(alloc);
    };
    replicas
}

/// Whether nothing is kept.
fn is_fresh(kept: &Kept) -> bool
    ensures { IsTrue result → held kept.now ≡ keeping.Fresh }
{
    matches!(kept, Kept::Fresh)
}

/// What both parts of a series keep, as what the series keeps.
pub fn of_parts(alloc: Global, first: Kept, second: Kept) -> Result<Kept, Memory>
    ensures left { IfOk result (λ kept. left_of (held kept) ≡ held first) }
    ensures right { IfOk result (λ kept. right_of (held kept) ≡ held second) }
{
    if is_fresh(&first) && is_fresh(&second) {
        return Ok(Kept::Fresh);
    }
    Ok(Kept::Parts(Box::new(alloc, (first, second))?))
}

/// Keeps what both parts of a series keep.
pub fn keep_parts(kept: &mut Kept, alloc: Global, first: Taken, second: Taken) -> Result<(), Memory>
    ensures left { OnOk result (left_of (held kept.new) ≡ held first.state) }
    ensures right { OnOk result (right_of (held kept.new) ≡ held second.state) }
{
    let parts = of_parts(alloc, first.into_inner(), second.into_inner())?;
    keep(kept, parts);
    Ok(())
}

/// Takes out what the replica for a value keeps.
pub fn take_replica(replicas: &mut BTreeMap<i64, Kept>, n: i64) -> Kept
    ensures taken { held result ≡ at_value replicas.old n }
    ensures gone { at_value replicas.new n ≡ keeping.Fresh }
    ensures others { (k : ℤ) → int_eq k n ≡ false → at_value replicas.new k ≡ at_value replicas.old k }
{
    match replicas.remove(&n) {
        Some(kept) => kept,
        None => Kept::Fresh,
    }
}

/// Keeps a state for the replica for a value, for which nothing is kept.
pub fn put_replica(replicas: &mut BTreeMap<i64, Kept>, n: i64, state: Kept) -> Result<(), Memory>
    requires { at_value replicas.old n ≡ keeping.Fresh }
    ensures put { OnOk result (at_value replicas.new n ≡ held state) }
    ensures others { OnOk result ((k : ℤ) → int_eq k n ≡ false → at_value replicas.new k ≡ at_value replicas.old k) }
{
    if is_fresh(&state) {
        return Ok(());
    }
    match replicas.insert(n, state) {
        Ok(_) => Ok(()),
        Err(_) => Err(Memory),
    }
}

/// Keeps what the replicas keep, with a state for a value, for which nothing is kept.
pub fn keep_replica(
    kept: &mut Kept,
    replicas: BTreeMap<i64, Kept>,
    n: i64,
    own: Taken,
) -> Result<(), Memory>
    requires { at_value replicas n ≡ keeping.Fresh }
    ensures put { OnOk result (child_of (held kept.new) (Value n) ≡ held own.state) }
    ensures others { OnOk result ((k : ℤ) → int_eq k n ≡ false → child_of (held kept.new) (Value k) ≡ at_value replicas k) }
{
    let mut replicas = replicas;
    put_replica(&mut replicas, n, own.into_inner())?;
    keep(kept, Kept::Replicas(replicas));
    Ok(())
}

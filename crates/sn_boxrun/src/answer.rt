ghost use Rattle.std.specs.Prelude.{◌≡◌, ◌++◌, ◌∷◌, [], map, IfOk, OnOk};
ghost use Rattle.sn_net.specs.Item.{modelled};
ghost use Rattle.sn_net.specs.Face.{variant_of};
ghost use Rattle.sn_net.specs.BoxEvaluation.{body_outcome, box_answer};
ghost use Rattle.sn_boxrun.specs.Call.{emitted_of, fault_of, fault_items, inherited};

use crate::machine::Machine;
use sn_box_values::{Stop, inputs};
use sn_list::{Memory, Seq};
use sn_net::{BoxProgram, variant_of};
use sn_record::{Fault, FaultKind, Item, Items, LabelSet, Record};
use sn_stack::append;
use std::alloc::Global;

/// What a box's body emits, and the fault that ended it, if there was one.
fn evaluate(
    alloc: Global,
    b: &BoxProgram,
    r: &Record,
    fuel: u64,
) -> Result<(Seq<Record>, Option<FaultKind>), Memory>
    ensures emitted { IfOk result (λ done. done.0 ≡ emitted_of (body_outcome b.now r.now fuel)) }
    ensures fault { IfOk result (λ done. done.1 ≡ fault_of (body_outcome b.now r.now fuel)) }
{
    let variables = inputs(alloc, r, b.input.as_slice())?;
    let mut machine = Machine::new(alloc, b, variables, fuel);
    match machine.run(&b.body) {
        Ok(_) => Ok((machine.into_emitted(), None)),
        Err(Stop::Faulted(fault)) => Ok((machine.into_emitted(), Some(fault))),
        Err(Stop::Memory) => Err(Memory),
    }
}

/// The records that were emitted, each with what it inherits from the record that a box with the input took.
fn inheriting(
    alloc: Global,
    input: &LabelSet,
    r: &Record,
    emitted: Seq<Record>,
) -> Result<Items, Memory>
    ensures { IfOk result (λ items. map modelled items ≡ map (inherited r.now input.now) emitted) }
{
    let mut items = Items::new(alloc);
    for made in emitted.into_vec() {
        let whole = made.inheriting(r, input)?;
        append(&mut items, Item::Rec(whole))?;
    }
    Ok(items)
}

/// As `inheriting`, of a record that is given up: the last record that was emitted takes what it inherits out of it, and
/// the earlier ones copy it.
fn inheriting_owned(
    alloc: Global,
    input: &LabelSet,
    taken: Record,
    emitted: Seq<Record>,
) -> Result<Items, Memory>
    ensures { IfOk result (λ items. map modelled items ≡ map (inherited taken input.now) emitted) }
{
    let mut emitted = emitted.into_vec();
    let Some(last) = emitted.pop() else {
        return Ok(Items::new(alloc));
    };
    let mut items = inheriting(alloc, input, &taken, Seq::from_vec(emitted))?;
    let whole = last.inheriting_owned(taken, input)?;
    append(&mut items, Item::Rec(whole))?;
    Ok(items)
}

/// Appends the fault, if there was one, at the place.
fn add_fault(items: &mut Items, place: u32, fault: Option<FaultKind>) -> Result<(), Memory>
    ensures { OnOk result (map modelled items.new ≡ map modelled items.old ++ fault_items place fault) }
{
    match fault {
        Some(kind) => append(items, Item::Fault(Fault { kind, place })),
        None => Ok(()),
    }
}

/// What a box answers to a record: what its body emits with so much fuel, in order, each record with what it inherits, and
/// then the fault, if one ended it, at the place of the box. The body's calls stand on a stack of the machine's own, so their
/// depth is bounded by the fuel alone.
pub fn call(
    alloc: Global,
    b: &BoxProgram,
    place: u32,
    r: &Record,
    fuel: u64,
) -> Result<Items, Memory>
    ensures { IfOk result (λ items. map modelled items ≡ box_answer b.now place r.now fuel) }
{
    let (emitted, fault) = evaluate(alloc, b, r, fuel)?;
    let input = variant_of(alloc, b.input.as_slice())?;
    let mut items = inheriting(alloc, &input, r, emitted)?;
    add_fault(&mut items, place, fault)?;
    Ok(items)
}

/// As `call`, of a record that is given up. The set of the box's input labels is handed in, so that it is made once for many calls.
pub fn call_owned(
    alloc: Global,
    b: &BoxProgram,
    place: u32,
    input: &LabelSet,
    taken: Record,
    fuel: u64,
) -> Result<Items, Memory>
    requires { input.now ≡ variant_of b.now.input }
    ensures { IfOk result (λ items. map modelled items ≡ box_answer b.now place taken fuel) }
{
    let (emitted, fault) = evaluate(alloc, b, &taken, fuel)?;
    let mut items = inheriting_owned(alloc, input, taken, emitted)?;
    add_fault(&mut items, place, fault)?;
    Ok(items)
}

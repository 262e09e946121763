ghost use Rattle.std.specs.Prelude.{◌≡◌, ◌++◌, ◌∷◌, IfOk, List, OnOk, map};
ghost use Rattle.sn_net.specs.Item.{ModelItem, modelled};
ghost use Rattle.sn_model.specs.Meaning.{one_list};
ghost use Rattle.sn_model.specs.Run.{boxes_of, given, net_of, setting_of};
ghost use Rattle.sn_model.specs.Typed.{AreTyped, FitsNet};
ghost use Rattle.sn_pass.specs.Inputs.{input_sets as sets_of};
ghost use Rattle.sn_once.specs.Giving.{IsRouted};

use crate::settle::settled;
use sn_list::{Memory, Seq};
use sn_model::Run;
use sn_pass::flowing::Flowing;
use sn_pass::kept::Kept;
use sn_pass::output::Output;
use sn_pass::pass::pass;
use sn_pass::walk::{Walk, input_sets};
use sn_record::{Item, Items, LabelSet};
use sn_stack::append;
use std::alloc::Global;
use std::snapshot::Snapshot;

/// An engine of a run, between two items. Whatever typed items it is fed, no record lacks a route.
#[derive(Drop)]
pub struct Once {
    run: Snapshot<Run>,
    /// The set of each box's input labels, made once for all items.
    inputs: Seq<LabelSet>,
    kept: Kept,
    /// Lists for the next item.
    output: Output,
    pub ghost ready: { inputs ≡ sets_of (boxes_of run.value) },
    pub ghost routed: { IsRouted run.value kept },
}

impl Once {
    ghost use Rattle.sn_once.specs.Rest.{IsOf, rest_of};

    /// An engine to which no item was fed yet.
    pub fn new(alloc: Global, run: &Run) -> Result<Once, Memory>
        ensures run { IfOk result (λ once. IsOf once run.now) }
        ensures rest { IfOk result (λ once. (xs : List ModelItem) → rest_of once xs ≡ one_list (setting_of run.now) (net_of run.now) xs) }
    {
        let inputs = input_sets(alloc, run.boxes().as_slice())?;
        Ok(Once {
            run: Snapshot::of(run),
            inputs,
            kept: Kept::Fresh,
            output: Output::new(alloc),
        })
    }

    /// Runs a typed item through the network until all that it causes has come out. For want of memory the engine is dropped
    /// with all that it gave for the item.
    pub fn feed(self, alloc: Global, run: &Run, item: Item) -> Result<(Once, Items), Memory>
        requires made_by { IsOf self run.now }
        requires typed { FitsNet (boxes_of run.now) (net_of run.now) item }
        ensures kept { IfOk result (λ fed. IsOf fed.0 run.now) }
        ensures given { IfOk result (λ fed. (xs : List ModelItem) → rest_of self (modelled item ∷ xs) ≡ map modelled fed.1 ++ rest_of fed.0 xs) }
    {
        let Once {
            run: made_by,
            inputs,
            mut kept,
            mut output,
        } = self;
        let walk = Walk {
            alloc,
            run,
            inputs: inputs.as_slice(),
        };
        let before = output.begin(alloc);
        pass(&walk, run.net(), &mut kept, Flowing::of(item), &mut output)?;
        let mut came = output.end(before).into_vec();
        let given = settled(alloc, &mut came)?;
        output.put_by(came)?;
        let next = Once {
            run: made_by,
            inputs,
            kept,
            output,
        };
        Ok((next, given))
    }
}

/// Appends each of the items.
fn append_all(out: &mut Items, items: Items) -> Result<(), Memory>
    ensures { OnOk result (out.new ≡ out.old ++ items) }
{
    for item in items.into_vec() {
        append(out, item)?;
    }
    Ok(())
}

/// What the network of a run gives on one thread for these typed items, in place of the run's own.
pub fn run_over(alloc: Global, run: &Run, items: Items) -> Result<Items, Memory>
    requires { AreTyped (boxes_of run.now) (net_of run.now) items }
    ensures { IfOk result (λ ys. map modelled ys ≡ one_list (setting_of run.now) (net_of run.now) (map modelled items)) }
{
    let mut once = Once::new(alloc, run)?;
    let mut out = Items::new(alloc);
    for item in items.into_vec() {
        let (next, given) = once.feed(alloc, run, item)?;
        once = next;
        append_all(&mut out, given)?;
    }
    Ok(out)
}

/// A copy of each of the items.
fn copied(alloc: Global, items: &[Item]) -> Result<Items, Memory>
    ensures { IfOk result (λ copies. copies ≡ items.now) }
{
    let mut copies = Items::new(alloc);
    for item in items {
        append(&mut copies, item.copy(alloc)?)?;
    }
    Ok(copies)
}

/// What a run gives on one thread.
pub fn run_once(alloc: Global, run: &Run) -> Result<Items, Memory>
    ensures { IfOk result (λ ys. map modelled ys ≡ given run.now) }
{
    let items = copied(alloc, run.items().as_slice())?;
    run_over(alloc, run, items)
}

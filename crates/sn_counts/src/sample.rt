//! The records of a number, and what comes of them on one thread, counted.
ghost use Rattle.std.specs.Prelude.{◌≡◌, ◌≤◌, length, map, IfOk, IfErr, OnOk};
ghost use Rattle.sn_names.specs.Names.{all_entered};
ghost use Rattle.sn_net.specs.Item.{modelled};
ghost use Rattle.sn_output.specs.Printed.{ending};
ghost use Rattle.sn_sample.specs.Counts.{counts_of};
ghost use Rattle.sn_sample.specs.Records.{HasLabels};
ghost use Rattle.sn_sample.specs.Tally.{counted};
ghost use Rattle.sn_model.specs.Run.{given};
ghost use Rattle.sn_plain.specs.Sample.{first_untyped, is_item_of_type, label_names};
ghost use Rattle.sn_counts.specs.Samples.{AreSamples, IsWrongEntry, WhyNoSamples};

use sn_list::Memory;
use sn_model::Run;
use sn_names::Names;
use sn_net::Claim;
use sn_once::run_once;
use sn_pieces::is_of_type;
use sn_record::{Fault, Item, Items, LabelSet};
use sn_sample::{Tally, sample_records};
use sn_stop::{LineFault, Refusal, Stop};
use std::alloc::Global;

/// Enters the names of the records' labels, where they are new.
fn enter_labels(names: &mut Names) -> Result<(), Stop>
    ensures entered { OnOk result (names.new ≡ all_entered names.old label_names) }
    ensures room { OnOk result (length names.new ≤ 4096) }
    ensures held { OnOk result (HasLabels names.new) }
    ensures refused { IfErr result (IsWrongEntry names.old) }
{
    names.number_of(b"v")?;
    names.number_of(b"k")?;
    names.number_of(b"n")?;
    Ok(())
}

/// Whether the item is no record, or matches one of the variants.
fn is_item_of_type(variants: &[LabelSet], item: &Item) -> bool
    ensures { result ≡ is_item_of_type variants.now item.now }
{
    match item {
        Item::Rec(record) => is_of_type(variants, record),
        Item::Fault(_) => true,
    }
}

/// The place of the first item that is a record of none of the variants.
fn first_untyped(variants: &[LabelSet], items: &[Item]) -> Option<usize>
    ensures { result ≡ first_untyped variants.now items.now }
{
    for (i, item) in items.iter().enumerate() {
        if !is_item_of_type(variants, item) {
            return Some(i);
        }
    }
    None
}

/// The counters of the records of a stream, up to the fault that ends it.
pub fn count_items(names: &Names, items: &[Item]) -> Result<(Tally, Option<Fault>), Memory>
    ensures counters { IfOk result (λ made. counts_of made.0 ≡ counted names.now (map modelled items.now)) }
    ensures fault { IfOk result (λ made. made.1 ≡ ending (map modelled items.now)) }
{
    let mut tally = Tally::new();
    for item in items {
        match item {
            Item::Rec(record) => tally.count(names, record)?,
            Item::Fault(fault) => return Ok((tally, Some(*fault))),
        }
    }
    Ok((tally, None))
}

/// The records of a number, and the names of a program with those of their labels.
#[derive(Drop)]
pub struct Samples {
    pub names: Names,
    pub items: Items,
}

/// Makes the records of a number, each of which is of the claim's input type.
pub fn make_samples(
    alloc: Global,
    mut names: Names,
    claim: &Claim,
    number: u32,
    count: u32,
) -> Result<Samples, Stop>
    ensures made { IfOk result (AreSamples names claim.now number count) }
    ensures ended { IfErr result (WhyNoSamples names claim.now number count) }
{
    enter_labels(&mut names)?;
    let items = sample_records(alloc, number, count, &names)?;
    match first_untyped(claim.input.as_slice(), items.as_slice()) {
        Some(i) => Err(Stop::Refused(Refusal::Line(LineFault::Untyped(i as u64 + 1)))),
        None => Ok(Samples { names, items }),
    }
}

/// The counters of what a run gives on one thread, up to the fault that ends it.
pub fn count_alone(alloc: Global, run: &Run, names: &Names) -> Result<(Tally, Option<Fault>), Stop>
    ensures counters { IfOk result (λ made. counts_of made.0 ≡ counted names.now (given run.now)) }
    ensures fault { IfOk result (λ made. made.1 ≡ ending (given run.now)) }
    ensures memory { IfErr result (λ why. why ≡ Stop.Memory) }
{
    let given = run_once(alloc, run)?;
    Ok(count_items(names, given.as_slice())?)
}

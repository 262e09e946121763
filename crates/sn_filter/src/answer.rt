ghost use Rattle.std.specs.Prelude.{◌≡◌, ◌++◌, ◌∷◌, [], map, All, IfOk, IfErr, OnOk, Ok};
ghost use Rattle.sn_record.specs.Record.{Matches};
ghost use Rattle.sn_record.specs.declared.item.Item.TheVariants as item;
ghost use Rattle.sn_net.specs.Filter.{IsClosed, IsClosedTemplate};
ghost use Rattle.sn_net.specs.Item.{modelled};
ghost use Rattle.sn_net.specs.Answer.{fault_at as model_fault, filter_answer, template_record as answered_record, up_to_fault, used};
ghost use Rattle.sn_filter.specs.Outcome.{Outcome, Gives, Adds};

use crate::outcome::Stop;
use crate::template::{template_record, template_record_owned};
use sn_list::Memory;
use sn_net::{Filter, RecordTags, Template};
use sn_record::{Fault, FaultKind, Item, Items, Record};
use sn_tagexpr::{ExprFault, eval};
use std::alloc::Global;

/// The fault of an expression at a filter's place.
fn fault_at(place: u32, fault: ExprFault) -> Fault
    ensures { result ≡ model_fault place fault }
{
    let kind = match fault {
        ExprFault::Overflow => FaultKind::Overflow,
        ExprFault::DivZero => FaultKind::DivZero,
    };
    Fault { kind, place }
}

/// Appends an item, which is dropped for want of memory.
fn push(items: &mut Items, item: Item) -> Result<(), Memory>
    ensures { OnOk result (items.new ≡ items.old ++ item ∷ []) }
{
    match items.push(item) {
        Ok(()) => Ok(()),
        Err(_) => Err(Memory),
    }
}

/// Appends what comes of a template: its record, or its fault at the filter's place. Answers whether it is a record,
/// since nothing comes behind a fault.
fn add(items: &mut Items, place: u32, made: Result<Record, Stop>) -> Result<bool, Memory>
    ensures { (outcome : Outcome) → Gives outcome made
        → IfOk result (Adds place (outcome ∷ []) (map modelled items.old) (map modelled items.new)) }
{
    match made {
        Ok(made) => {
            push(items, Item::Rec(made))?;
            Ok(true)
        }
        Err(Stop::Faulted(fault)) => {
            push(items, Item::Fault(fault_at(place, fault)))?;
            Ok(false)
        }
        Err(Stop::Memory) => Err(Memory),
    }
}

/// Appends the record of each template, up to the first fault, which stands at the filter's place. Answers whether there
/// was none.
fn add_each(
    alloc: Global,
    items: &mut Items,
    f: &Filter,
    templates: &[Template],
    taken: &Record,
) -> Result<bool, Memory>
    requires closed { All (IsClosedTemplate f.now.pattern) templates.now }
    requires matches { Matches taken.now f.now.pattern }
    ensures { IfOk result (Adds f.now.place (map (answered_record taken.now f.now.pattern) templates.now)
        (map modelled items.old) (map modelled items.new)) }
{
    for template in templates {
        let made = template_record(alloc, template, &f.pattern, taken);
        if !add(items, f.place, made)? {
            return Ok(false);
        }
    }
    Ok(true)
}

/// The templates that a filter uses for a record that matches its pattern: those of the first arm whose guard is not 0, or
/// the last list where every guard is 0. A guard that faults before that gives its fault at the filter's place, and nothing
/// else. Takes no memory.
pub fn choose<'a>(f: &'a Filter, r: &Record) -> Result<&'a [Template], Fault>
    requires closed { IsClosed f.now }
    requires matches { Matches r.now f.now.pattern }
    ensures templates { IfOk result (λ templates. used f.now r.now ≡ Ok templates.now) }
    ensures fault { IfErr result (λ fault. filter_answer f.now r.now ≡ modelled (item.Fault fault) ∷ []) }
{
    for arm in f.arms.as_slice() {
        match eval(&arm.guard, &RecordTags(r)) {
            Ok(n) => {
                if n != 0 {
                    return Ok(arm.templates.as_slice());
                }
            }
            Err(fault) => return Err(fault_at(f.place, fault)),
        }
    }
    Ok(f.templates.as_slice())
}

/// What templates over the filter's pattern give: the record of each, in order and up to the first fault.
fn records_of(
    alloc: Global,
    f: &Filter,
    templates: &[Template],
    r: &Record,
) -> Result<Items, Memory>
    requires closed { All (IsClosedTemplate f.now.pattern) templates.now }
    requires matches { Matches r.now f.now.pattern }
    ensures { IfOk result (λ items. map modelled items
        ≡ up_to_fault f.now.place (map (answered_record r.now f.now.pattern) templates.now)) }
{
    let mut items = Items::with_capacity(alloc, templates.len())?;
    add_each(alloc, &mut items, f, templates, r)?;
    Ok(items)
}

fn one_fault(alloc: Global, fault: Fault) -> Result<Items, Memory>
    ensures { IfOk result (λ items. map modelled items ≡ modelled (item.Fault fault) ∷ []) }
{
    let mut items = Items::with_capacity(alloc, 1)?;
    push(&mut items, Item::Fault(fault))?;
    Ok(items)
}

/// What a filter answers to a record that matches its pattern: the record of each template that it uses, in order. The first
/// part that faults ends the list with its fault, which stands at the filter's place, and a guard that faults gives its fault
/// alone.
pub fn apply(alloc: Global, f: &Filter, r: &Record) -> Result<Items, Memory>
    requires closed { IsClosed f.now }
    requires matches { Matches r.now f.now.pattern }
    ensures { IfOk result (λ items. map modelled items ≡ filter_answer f.now r.now) }
{
    match choose(f, r) {
        Ok(templates) => records_of(alloc, f, templates, r),
        Err(fault) => one_fault(alloc, fault),
    }
}

/// What a filter answers to a record that is given up, for which it uses one template: its record, or its fault. So no list
/// is made.
pub fn apply_single(
    alloc: Global,
    f: &Filter,
    template: &Template,
    taken: Record,
) -> Result<Item, Memory>
    requires single { used f.now taken ≡ Ok (template.now ∷ []) }
    requires closed { IsClosed f.now }
    requires matches { Matches taken f.now.pattern }
    ensures { IfOk result (λ item. filter_answer f.now taken ≡ modelled item ∷ []) }
{
    match template_record_owned(alloc, template, &f.pattern, taken) {
        Ok(made) => Ok(Item::Rec(made)),
        Err(Stop::Faulted(fault)) => Ok(Item::Fault(fault_at(f.place, fault))),
        Err(Stop::Memory) => Err(Memory),
    }
}

/// As `apply`, of a record that is given up, with the templates that are used for it, and behind the items that are there: the
/// last template's record takes what it inherits out of it, and those of the earlier ones copy it.
pub fn apply_onto(
    alloc: Global,
    f: &Filter,
    templates: &[Template],
    taken: Record,
    items: &mut Items,
) -> Result<(), Memory>
    requires templates { used f.now taken ≡ Ok templates.now }
    requires closed { IsClosed f.now }
    requires matches { Matches taken f.now.pattern }
    ensures { OnOk result (map modelled items.new ≡ map modelled items.old ++ filter_answer f.now taken) }
{
    let Some((last, earlier)) = templates.split_last() else {
        return Ok(());
    };
    if !add_each(alloc, items, f, earlier, &taken)? {
        return Ok(());
    }
    let made = template_record_owned(alloc, last, &f.pattern, taken);
    add(items, f.place, made)?;
    Ok(())
}

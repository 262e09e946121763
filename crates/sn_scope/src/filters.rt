//! Filters by the numbers of their labels.
ghost use Rattle.std.specs.Prelude.{◌≡◌, ◌++◌, ◌∷◌, [], IfOk, OnOk, fold, length, not, map as each};
ghost use Rattle.std.specs.List.{list_all};
ghost use Rattle.std.specs.FinMap as map;
ghost use Rattle.sn_net.specs.Filter.{target};
ghost use Rattle.sn_record.specs.LabelSet.{contains};
ghost use Rattle.sn_label_scope.specs.Refusals.{required};
ghost use Rattle.sn_label_scope.specs.declared.refusal.Reason.TheVariants as reason;
ghost use Rattle.sn_scope.specs.Filters.{are_few, arm_at, arm_required, filter_at, filter_required, identity_at, is_between, items_required, part_at, source_required, template_at, template_required};

use crate::tags::{require_tags, tag_expr};
use sn_ast::{ArmAt, ItemAt, ItemSource, TemplateAt, Variant};
use sn_label_scope::{Reason, Refusals, label_at, label_set};
use sn_list::{Memory, Seq};
use sn_names::NameTable;
use sn_net::{Arm, Filter, Part, Template};
use sn_record::{Kind, Label, LabelSet};
use std::alloc::Global;

/// Whether the count is one of those from `least` to `most`.
pub fn is_between(least: usize, most: usize, count: usize) -> bool
    ensures { result ≡ is_between least most count }
{
    least <= count && count <= most
}

/// What a template's item sets, and where the value comes from.
fn part_at(alloc: Global, names: &NameTable, item: &ItemAt) -> Result<Part, Memory>
    ensures { IfOk result (λ part. part ≡ part_at names.now item.now) }
{
    let target = names.label_number(item.target.name.text.as_slice());
    match &item.source {
        ItemSource::Same => Ok(Part::Copy(label_at(names, &item.target))),
        ItemSource::Field(name) => Ok(Part::Rename(
            target,
            names.label_number(name.text.as_slice()),
        )),
        ItemSource::Expr(e) => Ok(Part::Compute(target, tag_expr(alloc, names, e)?)),
    }
}

/// A label is refused that the item takes a value from and the pattern doesn't have.
fn require_source(names: &NameTable, refusals: &mut Refusals, pattern: &LabelSet, item: &ItemAt)
    ensures { refusals.new ≡ source_required names.now pattern.now item.now refusals.old }
{
    match &item.source {
        ItemSource::Same => {
            let label = label_at(names, &item.target);
            refusals.require(
                pattern.contains(label),
                Reason::Unknown,
                item.target.name.at,
            );
        }
        ItemSource::Field(name) => {
            let label = Label {
                kind: Kind::Field,
                id: names.label_number(name.text.as_slice()),
            };
            refusals.require(pattern.contains(label), Reason::Unknown, name.at);
        }
        ItemSource::Expr(e) => require_tags(names, refusals, pattern, Reason::Unknown, e),
    }
}

/// Appends what the item sets. Its label is refused where an item before it sets that, and one that it takes a value from where the
/// pattern doesn't have it.
fn add_item(
    alloc: Global,
    names: &NameTable,
    refusals: &mut Refusals,
    pattern: &LabelSet,
    set: &mut LabelSet,
    parts: &mut Seq<Part>,
    item: &ItemAt,
) -> Result<(), Memory>
    ensures parts { OnOk result (parts.new ≡ parts.old ++ part_at names.now item.now ∷ []) }
    ensures set { OnOk result (set.new ≡ map.insert set.old (target (part_at names.now item.now)) tt) }
    ensures refused { OnOk result (refusals.new ≡ required (not (contains set.old (target (part_at names.now item.now)))) reason.Twice item.now.target.name.at (source_required names.now pattern.now item.now refusals.old)) }
{
    require_source(names, refusals, pattern, item);
    let part = part_at(alloc, names, item)?;
    let target = part.target();
    sn_stack::append(parts, part)?;
    let fresh = set.insert(target)?;
    refusals.require(fresh, Reason::Twice, item.target.name.at);
    Ok(())
}

/// The template by its numbers. A label that is set twice is refused, and one that the pattern doesn't have.
fn template_at(
    alloc: Global,
    names: &NameTable,
    refusals: &mut Refusals,
    pattern: &LabelSet,
    template: &TemplateAt,
) -> Result<Template, Memory>
    ensures template { IfOk result (λ made. made ≡ template_at names.now template.now) }
    ensures refused { OnOk result (refusals.new ≡ items_required names.now pattern.now map.empty template.now.items refusals.old) }
{
    let mut set = LabelSet::new(alloc);
    let mut parts = Seq::new(alloc);
    for item in template.items.as_slice() {
        add_item(alloc, names, refusals, pattern, &mut set, &mut parts, item)?;
    }
    Ok(Template { parts })
}

/// The templates over the pattern.
fn templates_at(
    alloc: Global,
    names: &NameTable,
    refusals: &mut Refusals,
    pattern: &LabelSet,
    templates: &[TemplateAt],
) -> Result<Seq<Template>, Memory>
    ensures templates { IfOk result (λ made. made ≡ each (template_at names.now) templates.now) }
    ensures refused { OnOk result (refusals.new ≡ fold (template_required names.now pattern.now) refusals.old templates.now) }
{
    let mut made = Seq::new(alloc);
    for template in templates {
        let template = template_at(alloc, names, refusals, pattern, template)?;
        sn_stack::append(&mut made, template)?;
    }
    Ok(made)
}

/// The arm over the pattern, which has the guard's tags.
fn arm_at(
    alloc: Global,
    names: &NameTable,
    refusals: &mut Refusals,
    pattern: &LabelSet,
    arm: &ArmAt,
) -> Result<Arm, Memory>
    ensures arm { IfOk result (λ made. made ≡ arm_at names.now arm.now) }
    ensures refused { OnOk result (refusals.new ≡ arm_required names.now pattern.now refusals.old arm.now) }
{
    require_tags(names, refusals, pattern, Reason::GuardTag, &arm.guard);
    let guard = tag_expr(alloc, names, &arm.guard)?;
    let templates = templates_at(alloc, names, refusals, pattern, arm.templates.as_slice())?;
    Ok(Arm { guard, templates })
}

/// The arms over the pattern.
fn arms_at(
    alloc: Global,
    names: &NameTable,
    refusals: &mut Refusals,
    pattern: &LabelSet,
    arms: &[ArmAt],
) -> Result<Seq<Arm>, Memory>
    ensures arms { IfOk result (λ made. made ≡ each (arm_at names.now) arms.now) }
    ensures refused { OnOk result (refusals.new ≡ fold (arm_required names.now pattern.now) refusals.old arms.now) }
{
    let mut made = Seq::new(alloc);
    for arm in arms {
        let arm = arm_at(alloc, names, refusals, pattern, arm)?;
        sn_stack::append(&mut made, arm)?;
    }
    Ok(made)
}

/// Whether each arm has 1 to 16 templates.
fn have_few(arms: &[ArmAt]) -> bool
    ensures { result ≡ list_all (λ arm. is_between 1 16 (length arm.templates)) arms.now }
{
    for arm in arms {
        if !is_between(1, 16, arm.templates.len()) {
            return false;
        }
    }
    true
}

/// Whether there are 0 to 16 arms, and 1 to 16 templates in each list.
fn are_few(arms: &[ArmAt], templates: &[TemplateAt]) -> bool
    ensures { result ≡ are_few arms.now templates.now }
{
    is_between(0, 16, arms.len()) && have_few(arms) && is_between(1, 16, templates.len())
}

/// The filter of a pattern, 0 to 16 arms and 1 to 16 templates in each list. Another number of them is refused at the filter's
/// place.
pub fn filter_at(
    alloc: Global,
    names: &NameTable,
    refusals: &mut Refusals,
    place: u32,
    pattern: &Variant,
    arms: &[ArmAt],
    templates: &[TemplateAt],
) -> Result<Filter, Memory>
    ensures filter { IfOk result (λ filter. filter ≡ filter_at names.now place pattern.now arms.now templates.now) }
    ensures refused { OnOk result (refusals.new ≡ filter_required names.now place pattern.now arms.now templates.now refusals.old) }
{
    refusals.require(are_few(arms, templates), Reason::Arity, place);
    let pattern = label_set(alloc, names, refusals, pattern.labels.as_slice())?;
    let arms = arms_at(alloc, names, refusals, &pattern, arms)?;
    let templates = templates_at(alloc, names, refusals, &pattern, templates)?;
    Ok(Filter {
        place,
        pattern,
        arms,
        templates,
    })
}

/// The filter that passes each record on: its one template sets no label, so all are inherited.
pub fn identity_at(alloc: Global, place: u32) -> Result<Filter, Memory>
    ensures { IfOk result (λ filter. filter ≡ identity_at place) }
{
    let mut templates = Seq::new(alloc);
    sn_stack::append(
        &mut templates,
        Template {
            parts: Seq::new(alloc),
        },
    )?;
    Ok(Filter {
        place,
        pattern: LabelSet::new(alloc),
        arms: Seq::new(alloc),
        templates,
    })
}

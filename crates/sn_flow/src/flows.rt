//! What components answer to a variant.
ghost use Rattle.std.specs.Prelude.{◌≡◌, ◌++◌, ◌∷◌, [], IfOk, OnOk, map};
ghost use Rattle.std.specs.FinMap.{empty};
ghost use Rattle.sn_net.specs.Face.{variant_of};
ghost use Rattle.sn_net.specs.Filter.{every_template};
ghost use Rattle.sn_typing.specs.Outline.{template_variant};
ghost use Rattle.sn_flow.specs.Visits.{ComponentFlows};

use crate::indexed::Indexed;
use crate::sets::{add_union, is_taken};
use crate::stop::Stop;
use sn_list::{Memory, Seq};
use sn_net::{BoxProgram, Filter, Template, variant_of};
use sn_record::{Label, LabelSet};
use sn_stack::append;
use std::alloc::Global;
use std::slice::from_ref;

/// What a component answers to a variant that it takes: each output with what of the variant is not named.
fn component_flow(
    alloc: Global,
    takes: &[LabelSet],
    named: &LabelSet,
    outputs: &[LabelSet],
    variant: &LabelSet,
) -> Result<Seq<LabelSet>, Stop>
    ensures { ComponentFlows takes.now named.now outputs.now variant.now result }
{
    if !is_taken(takes, variant) {
        return Ok(Seq::new(alloc));
    }
    let rest = variant.minus(named)?;
    let mut flow = Indexed::new(alloc);
    for output in outputs {
        add_union(alloc, &mut flow, output, &rest)?;
    }
    Ok(flow.into_seq())
}

/// The set of each tuple.
fn sets_of(alloc: Global, tuples: &[Seq<Label>]) -> Result<Seq<LabelSet>, Memory>
    ensures { IfOk result (λ sets. sets ≡ map variant_of tuples.now) }
{
    let mut sets = Seq::new(alloc);
    for tuple in tuples {
        let set = variant_of(alloc, tuple.as_slice())?;
        append(&mut sets, set)?;
    }
    Ok(sets)
}

/// The labels that the template sets.
fn template_set(alloc: Global, template: &Template) -> Result<LabelSet, Memory>
    ensures { IfOk result (λ set. set ≡ template_variant template.now) }
{
    let mut set = LabelSet::new(alloc);
    for part in template.parts.as_slice() {
        set.insert(part.target())?;
    }
    Ok(set)
}

/// Appends the labels that each template sets.
fn push_template_sets(
    alloc: Global,
    sets: &mut Seq<LabelSet>,
    templates: &[Template],
) -> Result<(), Memory>
    ensures { OnOk result (sets.new ≡ sets.old ++ map template_variant templates.now) }
{
    for template in templates {
        let set = template_set(alloc, template)?;
        append(sets, set)?;
    }
    Ok(())
}

/// The labels that each template of each list sets.
fn template_sets(alloc: Global, filter: &Filter) -> Result<Seq<LabelSet>, Memory>
    ensures { IfOk result (λ sets. sets ≡ map template_variant (every_template filter.now)) }
{
    let mut sets = Seq::new(alloc);
    for arm in filter.arms.as_slice() {
        push_template_sets(alloc, &mut sets, arm.templates.as_slice())?;
    }
    push_template_sets(alloc, &mut sets, filter.templates.as_slice())?;
    Ok(sets)
}

/// What a box answers.
pub fn box_flow(
    alloc: Global,
    program: &BoxProgram,
    variant: &LabelSet,
) -> Result<Seq<LabelSet>, Stop>
    ensures { ComponentFlows (variant_of program.now.input ∷ []) (variant_of program.now.input) (map variant_of program.now.outputs) variant.now result }
{
    let named = variant_of(alloc, program.input.as_slice())?;
    let outputs = sets_of(alloc, program.outputs.as_slice())?;
    component_flow(alloc, from_ref(&named), &named, outputs.as_slice(), variant)
}

/// What a filter answers.
pub fn filter_flow(
    alloc: Global,
    filter: &Filter,
    variant: &LabelSet,
) -> Result<Seq<LabelSet>, Stop>
    ensures { ComponentFlows (filter.now.pattern ∷ []) filter.now.pattern (map template_variant (every_template filter.now)) variant.now result }
{
    let outputs = template_sets(alloc, filter)?;
    component_flow(
        alloc,
        from_ref(&filter.pattern),
        &filter.pattern,
        outputs.as_slice(),
        variant,
    )
}

/// What a synchrocell answers.
pub fn cell_flow(
    alloc: Global,
    patterns: &[LabelSet],
    variant: &LabelSet,
) -> Result<Seq<LabelSet>, Stop>
    ensures { ComponentFlows patterns.now empty (empty ∷ []) variant.now result }
{
    let named = LabelSet::new(alloc);
    component_flow(alloc, patterns, &named, from_ref(&named), variant)
}

//! Networks in which each name of a net or of a box is the number of its declaration.
ghost use Rattle.std.specs.Prelude.{◌≡◌, IfOk, OnOk, fold, length, map as each};
ghost use Rattle.sn_label_scope.specs.Labels.{variant_at, variant_required};
ghost use Rattle.sn_scope.specs.Filters.{filter_at, filter_required, identity_at, is_between};
ghost use Rattle.sn_scope.specs.Networks.{guard_at, guard_required, is_part, merge_of, named_at, network_at, network_required};
ghost use Rattle.sn_scope.specs.declared.network.Component.TheVariants as form;
ghost use Rattle.sn_scope.specs.declared.network.Network.TheVariants.{Made};
ghost use Rattle.sn_label_scope.specs.Refusals.{required};
ghost use Rattle.sn_scope.specs.Scopes.{meaning_of};
ghost use Rattle.sn_label_scope.specs.declared.refusal.Reason.TheVariants as reason;

use crate::filters::{filter_at, identity_at, is_between};
use crate::scopes::{Meaning, Scopes};
use crate::tags::{require_tags, tag_expr};
use sn_ast::{ArmAt, Ident, NetExpr, NetForm, TExpr, TemplateAt, Variant};
use sn_label_scope::{Reason, Refusals, label_set, label_sets};
use sn_list::{Boxed, Memory, Seq};
use sn_names::NameTable;
use sn_net::{Filter, Merge, TagExpr};
use sn_record::LabelSet;
use std::alloc::Global;

/// A part of a network: a net that was declared before, by its number, or a component of its own.
#[cycle(network)]
#[derive(Drop)]
pub enum Network {
    Named(usize),
    Made(Component),
}

/// A component. A place is a byte offset in the source.
#[cycle(network)]
#[derive(Drop)]
pub enum Component {
    /// A call of the box of that number.
    Box {
        place: u32,
        number: u32,
    },
    Filter(Filter),
    Sync {
        place: u32,
        patterns: Seq<LabelSet>,
    },
    /// Two or more parts. They are grouped only in trees, which are never higher than a limit.
    Serial(Seq<Network>),
    Choice {
        place: u32,
        merge: Merge,
        branches: Seq<Network>,
    },
    Star {
        place: u32,
        merge: Merge,
        body: Boxed<Network>,
        exit: LabelSet,
        guard: Option<TagExpr>,
    },
    Split {
        place: u32,
        merge: Merge,
        body: Boxed<Network>,
        tag: u32,
    },
}

fn merge_of(det: bool) -> Merge
    ensures { result ≡ merge_of det }
{
    if det { Merge::Det } else { Merge::Free }
}

/// Whether a name with this meaning may stand in a network.
fn is_part(meaning: Option<Meaning>) -> bool
    ensures { result ≡ is_part meaning }
{
    match meaning {
        Some(Meaning::Net(_) | Meaning::Box(_)) => true,
        Some(Meaning::Type(_) | Meaning::Signature(_)) | None => false,
    }
}

/// The component as a part of its own, on the heap.
fn made(alloc: Global, component: Component) -> Result<Boxed<Network>, Memory>
    ensures { IfOk result (λ network. network ≡ Made component) }
{
    Boxed::new(alloc, Network::Made(component))
}

/// The filter that passes each record on.
fn identity(alloc: Global, place: u32) -> Result<Boxed<Network>, Memory>
    ensures { IfOk result (λ network. network ≡ Made (form.Filter (identity_at place))) }
{
    let filter = identity_at(alloc, place)?;
    made(alloc, Component::Filter(filter))
}

/// The net that the name stands for, or a call of the box. What is neither is refused, and then a filter stands for it.
fn named_at(
    alloc: Global,
    scopes: &Scopes,
    refusals: &mut Refusals,
    name: &Ident,
) -> Result<Boxed<Network>, Memory>
    ensures network { IfOk result (λ network. network ≡ named_at (meaning_of scopes.now name.now.text) name.now.at) }
    ensures refused { OnOk result (refusals.new ≡ required (is_part (meaning_of scopes.now name.now.text)) reason.Unknown name.now.at refusals.old) }
{
    let place = name.at;
    let meaning = scopes.find(name.text.as_slice());
    refusals.require(is_part(meaning), Reason::Unknown, place);
    match meaning {
        Some(Meaning::Net(number)) => Boxed::new(alloc, Network::Named(number)),
        Some(Meaning::Box(number)) => made(alloc, Component::Box { place, number }),
        Some(Meaning::Type(_) | Meaning::Signature(_)) | None => identity(alloc, place),
    }
}

/// The guard of a star. A tag of it that the exit pattern doesn't have is refused.
fn guard_at(
    alloc: Global,
    names: &NameTable,
    refusals: &mut Refusals,
    exit: &LabelSet,
    guard: &Option<TExpr>,
) -> Result<Option<TagExpr>, Memory>
    ensures guard { IfOk result (λ made. made ≡ guard_at names.now guard.now) }
    ensures refused { OnOk result (refusals.new ≡ guard_required names.now exit.now guard.now refusals.old) }
{
    match guard {
        Some(e) => {
            require_tags(names, refusals, exit, Reason::GuardTag, e);
            Ok(Some(tag_expr(alloc, names, e)?))
        }
        None => Ok(None),
    }
}

fn filter(
    alloc: Global,
    names: &NameTable,
    refusals: &mut Refusals,
    place: u32,
    pattern: &Variant,
    arms: &[ArmAt],
    templates: &[TemplateAt],
) -> Result<Boxed<Network>, Memory>
    ensures network { IfOk result (λ network. network ≡ Made (form.Filter (filter_at names.now place pattern.now arms.now templates.now))) }
    ensures refused { OnOk result (refusals.new ≡ filter_required names.now place pattern.now arms.now templates.now refusals.old) }
{
    let filter = filter_at(alloc, names, refusals, place, pattern, arms, templates)?;
    made(alloc, Component::Filter(filter))
}

/// A synchrocell. Another number of patterns than 2 to 8 is refused.
fn sync(
    alloc: Global,
    names: &NameTable,
    refusals: &mut Refusals,
    place: u32,
    patterns: &[Variant],
) -> Result<Boxed<Network>, Memory>
    ensures network { IfOk result (λ network. network ≡ Made (form.Sync place (each (variant_at names.now) patterns.now))) }
    ensures refused { OnOk result (refusals.new ≡ fold (variant_required names.now) (required (is_between 2 8 (length patterns.now)) reason.Arity place refusals.old) patterns.now) }
{
    refusals.require(is_between(2, 8, patterns.len()), Reason::Arity, place);
    let patterns = label_sets(alloc, names, refusals, patterns)?;
    made(alloc, Component::Sync { place, patterns })
}

/// A star over its body.
fn star(
    alloc: Global,
    names: &NameTable,
    refusals: &mut Refusals,
    place: u32,
    merge: Merge,
    body: Boxed<Network>,
    exit: &Variant,
    guard: &Option<TExpr>,
) -> Result<Boxed<Network>, Memory>
    ensures network { IfOk result (λ network. network ≡ Made (form.Star place merge body (variant_at names.now exit.now) (guard_at names.now guard.now))) }
    ensures refused { OnOk result (refusals.new ≡ guard_required names.now (variant_at names.now exit.now) guard.now (variant_required names.now refusals.old exit.now)) }
{
    let exit = label_set(alloc, names, refusals, exit.labels.as_slice())?;
    let guard = guard_at(alloc, names, refusals, &exit, guard)?;
    made(
        alloc,
        Component::Star {
            place,
            merge,
            body,
            exit,
            guard,
        },
    )
}

/// The network with each name of a net or of a box by the number of that, and each label by the number of its name. As
/// deep in calls as the network is high.
#[cycle(network_at)]
pub fn network_at(
    alloc: Global,
    names: &NameTable,
    scopes: &Scopes,
    refusals: &mut Refusals,
    network: &NetExpr,
) -> Result<Boxed<Network>, Memory>
    ensures { IfOk result (λ made. (made ≡ network_at names.now scopes.now network.now) × (refusals.new ≡ network_required names.now scopes.now network.now refusals.old)) }
{
    let place = network.at;
    match &network.form {
        NetForm::Name(name) => named_at(alloc, scopes, refusals, name),
        NetForm::Identity => identity(alloc, place),
        NetForm::Filter {
            pattern,
            arms,
            templates,
        } => filter(
            alloc,
            names,
            refusals,
            place,
            pattern,
            arms.as_slice(),
            templates.as_slice(),
        ),
        NetForm::Sync { patterns } => sync(alloc, names, refusals, place, patterns.as_slice()),
        NetForm::Serial { parts } => {
            let parts = networks_at(alloc, names, scopes, refusals, parts.as_slice())?;
            made(alloc, Component::Serial(parts))
        }
        NetForm::Choice { det, branches } => {
            refusals.require(is_between(2, 64, branches.len()), Reason::Arity, place);
            let branches = networks_at(alloc, names, scopes, refusals, branches.as_slice())?;
            made(
                alloc,
                Component::Choice {
                    place,
                    merge: merge_of(*det),
                    branches,
                },
            )
        }
        NetForm::Star {
            det,
            body,
            exit,
            guard,
        } => {
            let body = network_at(alloc, names, scopes, refusals, body.get())?;
            let merge = merge_of(*det);
            star(alloc, names, refusals, place, merge, body, exit, guard)
        }
        NetForm::Split { det, body, tag, .. } => {
            let body = network_at(alloc, names, scopes, refusals, body.get())?;
            let tag = names.label_number(tag.text.as_slice());
            made(
                alloc,
                Component::Split {
                    place,
                    merge: merge_of(*det),
                    body,
                    tag,
                },
            )
        }
        // Where the boxes of a part run changes nothing of what they answer.
        NetForm::Placed { body, .. } => network_at(alloc, names, scopes, refusals, body.get()),
    }
}

#[cycle(network_at)]
fn networks_at(
    alloc: Global,
    names: &NameTable,
    scopes: &Scopes,
    refusals: &mut Refusals,
    networks: &[NetExpr],
) -> Result<Seq<Network>, Memory>
    ensures { IfOk result (λ made. (made ≡ each (network_at names.now scopes.now) networks.now) × (refusals.new ≡ fold (λ least check. check least) refusals.old (each (network_required names.now scopes.now) networks.now))) }
{
    let mut made = Seq::new(alloc);
    for network in networks {
        let network = network_at(alloc, names, scopes, refusals, network)?;
        sn_stack::append(&mut made, network.into_inner())?;
    }
    Ok(made)
}

//! Networks in series, without parts that change nothing.
ghost use Rattle.std.specs.Prelude.{◌≡◌, IfOk, map};
ghost use Rattle.sn_planned.specs.Slim.{before, both, gives_back, sets_nothing, slim, slimmed, unless_identity};

use crate::copies::{filter_of, split_of, star_of, sync_of};
use sn_list::{Boxed, Memory, Seq};
use sn_net::{Filter, Net, Template, copy_faces};
use sn_stack::append;
use std::alloc::Global;

/// Whether there is one template alone, which sets nothing.
fn sets_nothing(templates: &[Template]) -> bool
    ensures { result ≡ sets_nothing templates.now }
{
    match templates {
        [template] => template.parts.len() == 0,
        _ => false,
    }
}

/// Whether the filter takes any record without binding tags, and gives it back as it is.
fn gives_back(filter: &Filter) -> bool
    ensures { result ≡ gives_back filter.now }
{
    filter.pattern.is_empty() && filter.arms.is_empty() && sets_nothing(filter.templates.as_slice())
}

/// A copy of the filter, unless it gives records back as they are.
fn filter_behind(alloc: Global, filter: &Filter) -> Result<Option<Net>, Memory>
    ensures { IfOk result (λ made. made ≡ unless_identity filter.now) }
{
    if gives_back(filter) {
        return Ok(None);
    }
    let copy = filter_of(alloc, filter)?;
    Ok(Some(copy))
}

/// A network before what is left of another.
fn before(alloc: Global, net: Net, rest: Option<Net>) -> Result<Net, Memory>
    ensures { IfOk result (λ made. made ≡ before net rest) }
{
    match rest {
        None => Ok(net),
        Some(rest) => {
            let left = Boxed::new(alloc, net)?;
            let right = Boxed::new(alloc, rest)?;
            Ok(Net::Serial { left, right })
        }
    }
}

/// What is left of one, before what is left of another.
fn both(alloc: Global, first: Option<Net>, rest: Option<Net>) -> Result<Option<Net>, Memory>
    ensures { IfOk result (λ made. made ≡ both first rest) }
{
    match first {
        None => Ok(rest),
        Some(net) => {
            let made = before(alloc, net, rest)?;
            Ok(Some(made))
        }
    }
}

/// The net without identities behind the first part of a chain, at any depth.
#[cycle(slimming)]
pub(crate) fn slim(alloc: Global, net: &Net) -> Result<Net, Memory>
    ensures { IfOk result (λ made. made ≡ slimmed net.now) }
{
    match net {
        Net::Box { place, number } => Ok(Net::Box {
            place: *place,
            number: *number,
        }),
        Net::Filter(filter) => filter_of(alloc, filter),
        Net::Sync { place, patterns } => sync_of(alloc, *place, patterns.as_slice()),
        Net::Serial { left, right } => {
            let first = slim(alloc, left.get())?;
            let rest = slim_behind(alloc, right.get())?;
            before(alloc, first, rest)
        }
        Net::Choice {
            place,
            merge,
            branches,
            faces,
        } => {
            let branches = slim_each(alloc, branches.as_slice())?;
            let faces = copy_faces(alloc, faces.as_slice())?;
            Ok(Net::Choice {
                place: *place,
                merge: *merge,
                branches,
                faces,
            })
        }
        Net::Star {
            place,
            merge,
            body,
            exit,
            guard,
        } => {
            let body = slim_boxed(alloc, body.get())?;
            star_of(alloc, *place, *merge, body, exit, guard)
        }
        Net::Split {
            place,
            merge,
            body,
            tag,
        } => {
            let body = slim_boxed(alloc, body.get())?;
            Ok(split_of(*place, *merge, body, *tag))
        }
    }
}

/// What is left of the net behind another part.
#[cycle(slimming)]
fn slim_behind(alloc: Global, net: &Net) -> Result<Option<Net>, Memory>
    ensures { IfOk result (λ made. made ≡ (slim net.now).behind) }
{
    match net {
        Net::Serial { left, right } => {
            let first = slim_behind(alloc, left.get())?;
            let rest = slim_behind(alloc, right.get())?;
            both(alloc, first, rest)
        }
        Net::Filter(filter) => filter_behind(alloc, filter),
        Net::Box { .. }
        | Net::Sync { .. }
        | Net::Choice { .. }
        | Net::Star { .. }
        | Net::Split { .. } => {
            let made = slim(alloc, net)?;
            Ok(Some(made))
        }
    }
}

/// Each of the nets, made slim.
#[cycle(slimming)]
fn slim_each(alloc: Global, nets: &[Net]) -> Result<Seq<Net>, Memory>
    ensures { IfOk result (λ made. made ≡ map slimmed nets.now) }
{
    let mut made = Seq::new(alloc);
    for net in nets {
        let net = slim(alloc, net)?;
        append(&mut made, net)?;
    }
    Ok(made)
}

/// The net, made slim, on the heap.
#[cycle(slimming)]
fn slim_boxed(alloc: Global, net: &Net) -> Result<Boxed<Net>, Memory>
    ensures { IfOk result (λ made. made ≡ slimmed net.now) }
{
    let made = slim(alloc, net)?;
    Boxed::new(alloc, made)
}

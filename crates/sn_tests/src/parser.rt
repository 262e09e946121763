use crate::text::program;
use sn_ast::{Decl, ItemSource, NetForm, TypePart};
use std::alloc::Global;

/// The place of the network, the body or the first part of the type that the source's first declaration has.
fn place_in(decl: &Decl) -> Option<u32> {
    match decl {
        Decl::NetDecl(net) => Some(net.connect.at),
        Decl::BoxDecl(decl) => Some(decl.body.at),
        Decl::TypeDecl { parts, .. } => match parts.as_slice().get(0)? {
            TypePart::Set(variant) => Some(variant.at),
            TypePart::Named(name) => Some(name.at),
        },
        Decl::SigDecl { name, .. } => Some(name.at),
    }
}

fn place_of(alloc: Global, source: &str) -> Option<u32> {
    let program = program(alloc, source).ok()?;
    place_in(program.decls.as_slice().get(0)?)
}

/// The place of the first value that a net, which is a filter, gives to a tag.
fn value_place_in(decl: &Decl) -> Option<u32> {
    let Decl::NetDecl(net) = decl else {
        return None;
    };
    let NetForm::Filter { templates, .. } = &net.connect.form else {
        return None;
    };
    let template = templates.as_slice().get(0)?;
    match &template.items.as_slice().get(0)?.source {
        ItemSource::Expr(e) => Some(e.at),
        _ => None,
    }
}

fn value_place_of(alloc: Global, source: &str) -> Option<u32> {
    let program = program(alloc, source).ok()?;
    value_place_in(program.decls.as_slice().get(0)?)
}

#[test]
fn places_are_those_of_the_forms(rt: HostRuntime) {
    for (source, place) in [
        ("net n connect f;", 14),
        ("net n connect [];", 14),
        ("net n connect [{a} -> {a}];", 14),
        ("net n connect [|{a},{b}|];", 14),
        ("net n connect f .. g .. h;", 16),
        ("net n connect f || g;", 16),
        ("net n connect (f | g);", 17),
        ("net n connect f ** {a};", 16),
        ("net n connect f * {a} if (<t>);", 16),
        ("net n connect f !! <t>;", 16),
        ("net n connect (f ! <t>);", 17),
        ("box f (() -> ()) { 1 }", 19),
        ("box f (() -> ()) { <t> }", 19),
        ("box f (() -> ()) { x }", 19),
        ("box f (() -> ()) { -x }", 19),
        ("box f (() -> ()) { x + 1 }", 21),
        ("box f (() -> ()) { x && y }", 21),
        ("box f (() -> ()) { let x = 1 in x }", 19),
        ("box f (() -> ()) { if x then y else z }", 19),
        ("box f (() -> ()) { x; y }", 19),
        ("box f (() -> ()) { (x; y) }", 20),
        ("box f (() -> ()) { (x; y) * 1 }", 26),
        ("box f (() -> ()) { [1,\"t\"] }", 19),
        ("box f (() -> ()) { g(x) }", 19),
        ("box f (() -> ()) { out 1(x) }", 19),
        ("type t = {a} | u;", 9),
        ("typesig s = t;", 8),
    ] {
        assert!(rt; place_of(rt.alloc(), source) == Some(place), "{source}");
    }
}

#[test]
fn places_are_those_of_the_values(rt: HostRuntime) {
    for (source, place) in [
        ("net n connect [{<t>} -> {<t>=1}];", 29),
        ("net n connect [{<t>} -> {<t>=<t>}];", 29),
        ("net n connect [{<t>} -> {<t>=-1}];", 29),
        ("net n connect [{<t>} -> {<t>=1+2*3}];", 30),
        ("net n connect [{<t>} -> {<t>=1<2}];", 30),
        ("net n connect [{<t>} -> {<t>=1||2}];", 30),
        ("net n connect [{<t>} -> {<t>=1?2:3}];", 30),
        ("net n connect [{<t>} -> {<t>=(1)}];", 30),
    ] {
        assert!(rt;
            value_place_of(rt.alloc(), source) == Some(place),
            "{source}"
        );
    }
}

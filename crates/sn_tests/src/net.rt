ghost use Rattle.std.specs.Prelude.{[], IsTrue};
ghost use Rattle.std.specs.List.{list_all};
ghost use Rattle.sn_net.specs.Face.{is_numbered};

use sn_list::{Boxed, Seq};
use sn_net::{Filter, Merge, Net, Part, TagExpr, Template, all_det, face};
use sn_record::{Kind, Label, LabelSet};
use sn_stack::append;
use std::alloc::Global;
use std::process::Abort;

const A: Label = Label {
    kind: Kind::Field,
    id: 1,
};

const T: Label = Label {
    kind: Kind::Tag,
    id: 1,
};

/// The set of these labels.
fn set_of(rt: &impl Abort, alloc: Global, labels: &[Label]) -> LabelSet {
    let mut set = LabelSet::new(alloc);
    for label in labels {
        set.insert(*label).expect(rt, "memory");
    }
    set
}

/// The one template of two parts.
fn template_of(rt: &impl Abort, alloc: Global, first: Part, second: Part) -> Template {
    let mut parts = Seq::new(alloc);
    append(&mut parts, first).expect(rt, "memory");
    append(&mut parts, second).expect(rt, "memory");
    Template { parts }
}

/// A filter over `a` and `<t>` with one template.
fn filter_of(rt: &impl Abort, alloc: Global, first: Part, second: Part) -> Filter {
    let mut templates = Seq::new(alloc);
    append(&mut templates, template_of(rt, alloc, first, second)).expect(rt, "memory");
    Filter {
        place: 0,
        pattern: set_of(rt, alloc, &[A, T]),
        arms: Seq::new(alloc),
        templates,
    }
}

fn is_closed(rt: &impl Abort, alloc: Global, first: Part, second: Part) -> bool {
    filter_of(rt, alloc, first, second).is_closed()
}

#[test]
fn filters_are_closed(rt: HostRuntime) {
    let alloc = rt.alloc();
    let sum = Part::Compute(2, TagExpr::Tag(1));
    assert!(rt; is_closed(&rt, alloc, Part::Rename(2, 1), sum));
    assert!(rt; !is_closed(&rt, alloc, Part::Copy(A), Part::Rename(1, 1)));
    let missing = Part::Compute(2, TagExpr::Tag(2));
    assert!(rt; !is_closed(&rt, alloc, Part::Copy(T), missing));
}

/// A filter that takes each record with the label, and answers none.
fn sink(rt: &impl Abort, alloc: Global, label: Label) -> Filter {
    Filter {
        place: 0,
        pattern: set_of(rt, alloc, &[label]),
        arms: Seq::new(alloc),
        templates: Seq::new(alloc),
    }
}

/// A sink for each label.
fn sinks(rt: &impl Abort, alloc: Global, labels: &[Label]) -> Seq<Net>
    ensures { IsTrue (list_all (is_numbered []) result) }
{
    let mut branches = Seq::new(alloc);
    for label in labels {
        let branch = Net::Filter(sink(rt, alloc, *label));
        append(&mut branches, branch).expect(rt, "memory");
    }
    branches
}

/// A choice of a sink for each label, in a split, with no faces yet.
fn split_of(rt: &impl Abort, alloc: Global, labels: &[Label]) -> Net
    ensures { IsTrue (is_numbered [] result) }
{
    let choice = Net::Choice {
        place: 0,
        merge: Merge::Free,
        branches: sinks(rt, alloc, labels),
        faces: Seq::new(alloc),
    };
    Net::Split {
        place: 0,
        merge: Merge::Free,
        body: Boxed::new(alloc, choice).expect(rt, "memory"),
        tag: 1,
    }
}

/// Whether the face is both labels, and then the tag alone.
fn is_face_of_both(face: &[LabelSet]) -> bool {
    match face {
        [both, tag] => both.contains(A) && both.contains(T) && !tag.contains(A),
        _ => false,
    }
}

#[test]
fn a_face_ascends_without_repeats(rt: HostRuntime) {
    let net = split_of(&rt, rt.alloc(), &[T, A, T]);
    let sets = face(rt.alloc(), &net, &Seq::new(rt.alloc())).expect(&rt, "memory");
    assert!(rt; is_face_of_both(sets.as_slice()));
}

fn is_in_order(rt: &impl Abort, alloc: Global) -> bool {
    all_det(&split_of(rt, alloc, &[]))
}

#[test]
fn a_free_split_is_not_in_order(rt: HostRuntime) {
    assert!(rt; !is_in_order(&rt, rt.alloc()));
}

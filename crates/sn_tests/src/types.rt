use sn_list::Seq;
use sn_record::{Kind, Label, LabelSet};
use sn_stack::append;
use sn_types::RecordType;
use std::alloc::Global;
use std::process::Abort;

/// The variant of a word: a small letter is a field, a capital one a tag, and `-` nothing.
fn variant_of(rt: &impl Abort, alloc: Global, word: &[u8]) -> LabelSet {
    let mut variant = LabelSet::new(alloc);
    for letter in word {
        let kind = if letter.is_ascii_uppercase() {
            Kind::Tag
        } else {
            Kind::Field
        };
        let id = *letter as u32;
        if *letter != b'-' {
            variant.insert(Label { kind, id }).expect(rt, "memory");
        }
    }
    variant
}

/// The type of the words, each a variant. A text of no words has none.
fn type_of(rt: &impl Abort, alloc: Global, text: &[u8]) -> RecordType {
    let mut variants = Seq::new(alloc);
    for word in text.split(|byte| *byte == b' ') {
        if !word.is_empty() {
            append(&mut variants, variant_of(rt, alloc, word)).expect(rt, "memory");
        }
    }
    RecordType::of(alloc, variants.as_slice()).expect(rt, "memory")
}

/// Whether the type has the variants of the words, in their order.
fn is(rt: &impl Abort, alloc: Global, made: &RecordType, text: &[u8]) -> bool {
    made.as_slice() == type_of(rt, alloc, text).as_slice()
}

fn is_minimal(rt: &impl Abort, alloc: Global, text: &[u8], fewest: &[u8]) -> bool {
    let made = type_of(rt, alloc, text).minimal().expect(rt, "memory");
    is(rt, alloc, &made, fewest)
}

#[test]
fn minimal_types_keep_the_smallest(rt: HostRuntime) {
    let table: [(&[u8], &[u8]); 4] = [
        (b"ab c a c", b"c a"),
        (b"- a b", b"-"),
        (b"a a", b"a"),
        (b"", b""),
    ];
    for (text, fewest) in table {
        assert!(rt; is_minimal(&rt, rt.alloc(), text, fewest), "{text:?}");
    }
}

fn is_union(rt: &impl Abort, alloc: Global, left: &[u8], right: &[u8], both: &[u8]) -> bool {
    let left = type_of(rt, alloc, left);
    let right = type_of(rt, alloc, right);
    let made = left.union(&right).expect(rt, "memory");
    is(rt, alloc, &made, both)
}

#[test]
fn unions_keep_each_variant(rt: HostRuntime) {
    let alloc = rt.alloc();
    assert!(rt; is_union(&rt, alloc, b"ab c a c", b"a d", b"ab c a c a d"));
    assert!(rt; is_union(&rt, alloc, b"", b"A", b"A"));
}

fn is_subtype(rt: &impl Abort, alloc: Global, left: &[u8], right: &[u8]) -> bool {
    let left = type_of(rt, alloc, left);
    let right = type_of(rt, alloc, right);
    left.is_subtype(&right)
}

#[test]
fn subtypes_have_subsets(rt: HostRuntime) {
    let table: [(&[u8], &[u8], bool); 7] = [
        (b"ab", b"a", true),
        (b"", b"a", true),
        (b"a", b"-", true),
        (b"a", b"ab", false),
        (b"a b", b"a", false),
        (b"a", b"", false),
        (b"a", b"A", false),
    ];
    for (left, right, wanted) in table {
        assert!(rt;
            is_subtype(&rt, rt.alloc(), left, right) == wanted,
            "{left:?} {right:?}"
        );
    }
}

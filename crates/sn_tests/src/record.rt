use crate::text::{labels_of, records};
use sn_list::Seq;
use sn_record::{
    Fault, FaultKind, Item, Items, Kind, Label, LabelSet, Record, Value, Values, score,
};
use sn_stack::append;
use std::alloc::Global;
use std::process::Abort;

const A: Label = Label {
    kind: Kind::Field,
    id: 0,
};

const T: Label = Label {
    kind: Kind::Tag,
    id: 1,
};

/// The labels of each of the records.
fn sets_of(rt: &impl Abort, alloc: Global, records: &[Record]) -> Seq<LabelSet> {
    let mut sets = Seq::new(alloc);
    for record in records {
        append(&mut sets, labels_of(rt, alloc, record)).expect(rt, "memory");
    }
    sets
}

/// Whether the third set is the first two joined, and the fourth what the first has more.
fn are_joined(rt: &impl Abort, sets: &[LabelSet]) -> bool {
    let [first, second, both, rest] = sets else {
        return false;
    };
    first.is_subset(both)
        && first.union(second).expect(rt, "memory") == *both
        && first.minus(second).expect(rt, "memory") == *rest
}

#[test]
fn sets_are_joined(rt: HostRuntime) {
    for text in [
        "{}\n{}\n{}\n{}",
        "{a=1, b=1}\n{b=1, <b>=1}\n{a=1, b=1, <b>=1}\n{a=1}",
        "{<b>=1, a=1}\n{a=1}\n{a=1, <b>=1}\n{<b>=1}",
    ] {
        let sets = sets_of(&rt, rt.alloc(), records(&rt, rt.alloc(), text).as_slice());
        assert!(rt; are_joined(&rt, sets.as_slice()), "{text}");
    }
}

#[test]
fn sets_hold_their_labels(rt: HostRuntime) {
    let mut set = LabelSet::new(rt.alloc());
    assert!(rt; set.is_empty());
    assert!(rt; set.insert(T) == Ok(true));
    assert!(rt; set.insert(A) == Ok(true));
    assert!(rt; set.insert(T) == Ok(false));
    assert!(rt; set.len() == 2 && set.at(0) == A);
    let copy = set.copy().expect(&rt, "memory");
    assert!(rt; copy == set && copy.contains(T));
}

/// Whether the third record is what comes of the second, which was emitted for the first, where the labels of the fourth
/// were named.
fn inherits(rt: &impl Abort, alloc: Global, records: &[Record]) -> bool {
    let [taken, emitted, whole, named] = records else {
        return false;
    };
    let named = labels_of(rt, alloc, named);
    let made = Record::inherit(taken, &named, emitted).expect(rt, "memory");
    made == *whole && inherits_copied(rt, taken, emitted, &named) == *whole
}

fn inherits_copied(rt: &impl Abort, taken: &Record, emitted: &Record, named: &LabelSet) -> Record {
    let emitted = emitted.copy().expect(rt, "memory");
    emitted.inheriting(taken, named).expect(rt, "memory")
}

#[test]
fn what_was_not_named_flows(rt: HostRuntime) {
    for text in [
        "{a=1, <t>=7}\n{}\n{<t>=7}\n{a=0}",
        "{a=1, <t>=7}\n{b=1, <t>=2}\n{a=1, b=1, <t>=2}\n{}",
        "{a=1, <t>=7}\n{a=2}\n{a=2}\n{a=0, <t>=0}",
    ] {
        let records = records(&rt, rt.alloc(), text);
        assert!(rt; inherits(&rt, rt.alloc(), records.as_slice()), "{text}");
    }
}

/// As `inherits`, where the record that was taken is given up.
fn inherits_owned(rt: &impl Abort, alloc: Global, records: &[Record]) -> bool {
    let [taken, emitted, whole, named] = records else {
        return false;
    };
    let named = labels_of(rt, alloc, named);
    let taken = taken.copy().expect(rt, "memory");
    let emitted = emitted.copy().expect(rt, "memory");
    emitted.inheriting_owned(taken, &named).expect(rt, "memory") == *whole
}

#[test]
fn what_is_given_up_flows(rt: HostRuntime) {
    for text in [
        "{a=1, <t>=7}\n{}\n{<t>=7}\n{a=0}",
        "{a=1, <t>=7}\n{b=1, <t>=2}\n{a=1, b=1, <t>=2}\n{}",
        "{a=1, <t>=7}\n{a=2}\n{a=2}\n{a=0, <t>=0}",
        "{a=1}\n{a=1,b=2,c=3,d=4,e=5,f=6,g=7,h=8,<a>=1,<b>=2,<c>=3,<d>=4,<e>=5,<f>=6,<g>=7,<h>=8}\n{a=1,b=2,c=3,d=4,e=5,f=6,g=7,h=8,<a>=1,<b>=2,<c>=3,<d>=4,<e>=5,<f>=6,<g>=7,<h>=8}\n{}",
        "{x=1,a=7}\n{a=1,b=2,c=3,d=4,e=5,f=6,g=7,h=8,<a>=1,<b>=2,<c>=3,<d>=4,<e>=5,<f>=6,<g>=7,<h>=8}\n{a=1,b=2,c=3,d=4,e=5,f=6,g=7,h=8,x=1,<a>=1,<b>=2,<c>=3,<d>=4,<e>=5,<f>=6,<g>=7,<h>=8}\n{}",
    ] {
        let records = records(&rt, rt.alloc(), text);
        assert!(rt;
            inherits_owned(&rt, rt.alloc(), records.as_slice()),
            "{text}"
        );
    }
}

/// Whether the third record is what the first two give together, and the fourth what the first has of the second's labels.
fn wins_left(rt: &impl Abort, alloc: Global, records: &[Record]) -> bool {
    let [left, right, both, part] = records else {
        return false;
    };
    let labels = labels_of(rt, alloc, right);
    let restricted = left.restrict(&labels).expect(rt, "memory");
    restricted == *part && left.union_left(right).expect(rt, "memory") == *both
}

#[test]
fn the_left_record_wins(rt: HostRuntime) {
    for text in [
        "{a=1, <t>=7}\n{a=2, b=3}\n{a=1, b=3, <t>=7}\n{a=1}",
        "{}\n{a=2}\n{a=2}\n{}",
    ] {
        let records = records(&rt, rt.alloc(), text);
        assert!(rt; wins_left(&rt, rt.alloc(), records.as_slice()), "{text}");
    }
}

/// The largest number of labels, of the records behind the first, that the first record has all.
fn best(rt: &impl Abort, alloc: Global, records: &[Record]) -> Option<u64> {
    let (record, others) = records.split_first()?;
    score(sets_of(rt, alloc, others).as_slice(), record)
}

#[test]
fn the_largest_match_counts(rt: HostRuntime) {
    for (text, wanted) in [
        ("{a=1, <t>=7}\n{a=0, b=0}", None),
        ("{a=1, <t>=7}\n{a=0}\n{a=0, <t>=0}", Some(2)),
        ("{a=1}", None),
    ] {
        let records = records(&rt, rt.alloc(), text);
        assert!(rt;
            best(&rt, rt.alloc(), records.as_slice()) == wanted,
            "{text}"
        );
    }
}

/// A type whose values may go to another thread and be shared.
fn is_shared<X: Send + Sync>(_x: &X) -> bool {
    true
}

/// Whether a copy of the item in a list is equal to it.
fn is_copied(rt: &impl Abort, alloc: Global, item: &Item) -> bool {
    let mut items = Items::new(alloc);
    append(&mut items, item.copy(alloc).expect(rt, "memory")).expect(rt, "memory");
    is_shared(&items) && matches!(items.as_slice(), [copy] if copy == item)
}

#[test]
fn items_are_copied(rt: HostRuntime) {
    let fault = Item::Fault(Fault {
        kind: FaultKind::Index,
        place: 3,
    });
    let empty = Item::Rec(Record::new(rt.alloc()));
    assert!(rt; is_copied(&rt, rt.alloc(), &fault));
    assert!(rt; is_copied(&rt, rt.alloc(), &empty));
    assert!(rt; empty != fault);
}

/// Sets a tag, and answers whether it had the old value.
fn replaces(record: &mut Record, value: i64, old: Option<i64>) -> bool {
    match record.set(T, Value::Int(value)) {
        Ok(Some(Value::Int(before))) => old == Some(before),
        Ok(None) => old.is_none(),
        _ => false,
    }
}

#[test]
fn records_answer_their_values(rt: HostRuntime) {
    let mut record = Record::new(rt.alloc());
    assert!(rt; record.is_empty());
    assert!(rt; replaces(&mut record, 1, None));
    assert!(rt; replaces(&mut record, 2, Some(1)));
    assert!(rt; record.len() == 1);
    assert!(rt; record.get(T) == Some(&Value::Int(2)) && record.get(A).is_none());
    assert!(rt; *record.at(0).1 == Value::Int(2));
}

fn list_of(rt: &impl Abort, alloc: Global, value: Value) -> Value {
    let mut list = Values::new(alloc);
    append(&mut list, value).expect(rt, "memory");
    Value::List(list)
}

/// A text in so many lists.
fn nested(rt: &impl Abort, alloc: Global, text: &[u8], levels: u32) -> Value {
    let mut value = Value::Text(Seq::from_slice(alloc, text).expect(rt, "memory"));
    for _ in 0..levels {
        value = list_of(rt, alloc, value);
    }
    value
}

/// Whether the value is sound, where its copy is equal to it.
fn is_sound(rt: &impl Abort, alloc: Global, value: &Value) -> bool {
    value.is_sound() && value.copy(alloc).expect(rt, "memory") == *value
}

#[test]
fn values_are_sound(rt: HostRuntime) {
    let table: [(&[u8], u32, bool); 4] = [
        (&[0x20, 0x7e], 0, true),
        (b"x", 32, true),
        (&[0x1f], 0, false),
        (b"x", 33, false),
    ];
    for (text, levels, wanted) in table {
        let value = nested(&rt, rt.alloc(), text, levels);
        assert!(rt;
            is_sound(&rt, rt.alloc(), &value) == wanted,
            "{text:?} in {levels} lists"
        );
    }
}

use crate::text::{read, records};
use sn_record::{Kind, Label, Record, Value};

/// What the record has at the tag of this number.
fn tag_of(record: &Record, id: u32) -> Option<i64> {
    let label = Label {
        kind: Kind::Tag,
        id,
    };
    match record.get(label) {
        Some(Value::Int(number)) => Some(*number),
        _ => None,
    }
}

/// Two records whose labels have the names `b` and `a`, in this order.
const NAMED: &str = "{b=1,<a>=2}\n{<a>=3,<b>=4}";

#[test]
fn names_keep_their_numbers(rt: HostRuntime) {
    let records = records(&rt, rt.alloc(), NAMED);
    assert!(rt; records.len() == 2);
    let (first, second) = (records.at(0), records.at(1));
    assert!(rt; tag_of(first, 1) == Some(2));
    assert!(rt; tag_of(second, 1) == Some(3));
    assert!(rt; tag_of(second, 0) == Some(4));
}

#[test]
fn names_are_counted_once(rt: HostRuntime) {
    let names = read(rt.alloc(), NAMED).expect(&rt, "records").names;
    assert!(rt; names.count() == 2);
}

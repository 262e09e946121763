use sn_list::Seq;
use sn_names::Names;
use sn_record::{Item, Items, Kind, Label, Record, Value};
use sn_sample::{Tally, sample_records, sample_source};
use std::alloc::Global;
use std::test::Fail;

/// The first records of the number 1, whose labels are numbered in the order `v`, `k`, `n`.
fn first_records(alloc: Global, count: u32) -> Option<Items> {
    let mut names = Names::new(alloc).ok()?;
    for name in [b"v", b"k", b"n"] {
        names.number_of(name).ok()?;
    }
    if names.find(b"v").is_none() || names.find(b"k").is_none() || names.find(b"n").is_none() {
        return None;
    }
    sample_records(alloc, 1, count, &names).ok()
}

/// Whether the item is the record of these values of `v`, `k` and `n`.
fn has_values(item: &Item, values: [i64; 3]) -> bool {
    let Item::Rec(record) = item else {
        return false;
    };
    let labels = [(Kind::Field, 0), (Kind::Tag, 1), (Kind::Tag, 2)];
    for (i, (kind, id)) in labels.into_iter().enumerate() {
        if record.get(Label { kind, id }) != Some(&Value::Int(values[i])) {
            return false;
        }
    }
    record.len() == 3
}

#[test]
fn the_records_of_a_number_are_those_worked_out(rt: HostRuntime) -> Result<(), Fail> {
    let Some(items) = first_records(rt.alloc(), 3) else {
        assert!(rt; false);
        return Ok(());
    };
    assert!(rt; items.len() == 3);
    let wanted = [[590, 6, 8], [575, 6, 15], [84, 1, 0]];
    for (item, values) in items.as_slice().iter().zip(wanted) {
        assert!(rt; has_values(item, values));
    }
    Ok(())
}

#[test]
fn the_source_is_one_line(rt: HostRuntime) -> Result<(), Fail> {
    let source = sample_source();
    assert!(rt; source.starts_with(b"box twice ") && source.ends_with(b" !! <k>);"));
    assert!(rt; !source.contains(&b'\n'));
    Ok(())
}

/// The record of the field `w`, and the tag `<s>`, by the numbers 0 and 1 of their names.
fn with_integers(alloc: Global, w: i64, s: i64) -> Option<Record> {
    let mut record = Record::new(alloc);
    for (kind, id, n) in [(Kind::Field, 0, w), (Kind::Tag, 1, s)] {
        record.set(Label { kind, id }, Value::Int(n)).ok()?;
    }
    Some(record)
}

/// The counters of records of these integers.
fn counted(alloc: Global, integers: &[(i64, i64)]) -> Option<Tally> {
    let mut names = Names::new(alloc).ok()?;
    for name in [b"w", b"s"] {
        names.number_of(name).ok()?;
    }
    let mut tally = Tally::new();
    for (w, s) in integers {
        let record = with_integers(alloc, *w, *s)?;
        tally.count(&names, &record).ok()?;
    }
    tally
        .count(&Names::new(alloc).ok()?, &Record::new(alloc))
        .ok()?;
    Some(tally)
}

#[test]
fn counters_are_those_worked_out(rt: HostRuntime) -> Result<(), Fail> {
    let wanted = Tally {
        records: 3,
        s: 156,
        w: 2330,
        mix: 1_207_946,
    };
    assert!(rt; counted(rt.alloc(), &[(1180, 36), (1150, 120)]) == Some(wanted));
    let wanted = Tally {
        records: 2,
        s: 4_294_967_295,
        w: 1,
        mix: 0,
    };
    assert!(rt; counted(rt.alloc(), &[(4_294_967_297, -1)]) == Some(wanted));
    let mut text = Seq::new(rt.alloc());
    assert!(rt; wanted.push_line(&mut text).is_ok());
    assert!(rt; text.as_slice() == b"records=2 s=4294967295 w=1 mix=0\n".as_slice());
    Ok(())
}

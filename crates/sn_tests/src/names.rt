use sn_names::{NameTable, Names, NamesFault};
use sn_record::FIRST_BINDING;
use std::alloc::Global;
use std::process::Abort;

/// The number of the name at a place: that of a binding tag, if it begins with `#`.
fn number_at(place: u32) -> u32 {
    if place / 64 == 35 {
        FIRST_BINDING + place
    } else {
        place
    }
}

/// As many names as there may be, in order.
fn most(rt: &impl Abort, alloc: Global) -> Names {
    let mut names = Names::new(alloc).expect(rt, "memory");
    for i in 0..4096u32 {
        let name = [(i / 64) as u8, (i % 64) as u8];
        assert!(rt; names.number_of(&name) == Ok(number_at(i)), "{i}");
    }
    names
}

#[test]
fn names_keep_their_numbers(rt: HostRuntime) {
    let mut names = most(&rt, rt.alloc());
    assert!(rt; names.number_of(b"zz") == Err(NamesFault::TooMany));
    assert!(rt; names.number_of(&[0, 2]) == Ok(2));
    assert!(rt; has_most(&names) && has_marked(&names));
}

/// Whether the names are those of `most`.
fn has_most(names: &Names) -> bool {
    let Some(id) = names.find(&[0, 2]) else {
        return false;
    };
    id == 2
        && names.name_of(id) == [0, 2].as_slice()
        && names.find(&[63, 63]) == Some(4095)
        && names.find(b"zz").is_none()
        && names.count() == 4096
}

/// Whether the number of a binding tag's name goes with the name, and no other does.
fn has_marked(names: &Names) -> bool {
    let Some(id) = names.find(&[35, 7]) else {
        return false;
    };
    id == FIRST_BINDING + 2247
        && names.name_of(id) == [35, 7].as_slice()
        && names.name_or_none(4096).is_empty()
        && names.name_or_none(FIRST_BINDING + 4096).is_empty()
}

fn table_of(rt: &impl Abort, alloc: Global, count: u16) -> NameTable {
    let mut table = NameTable::new(alloc);
    for i in 0..count {
        table.enter(&i.to_le_bytes()).expect(rt, "memory");
    }
    table
}

#[test]
fn tables_of_few_names_convert(rt: HostRuntime) {
    let most = Names::from_table(table_of(&rt, rt.alloc(), 4096));
    assert!(rt; most.is_ok_and(|names| names.count() == 4096));
}

#[test]
fn tables_of_many_names_do_not_convert(rt: HostRuntime) {
    let table = table_of(&rt, rt.alloc(), 4097);
    assert!(rt; table.count() == 4097);
    assert!(rt; table.number(b"zzz") == 4097);
    assert!(rt; table.number(table.name_of(4096)) == 4096);
    let refused = Names::from_table(table);
    assert!(rt; refused.is_err_and(|back| back.count() == 4097));
}

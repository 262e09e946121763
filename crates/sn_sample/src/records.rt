ghost use Rattle.std.specs.Prelude.{◌≡◌, codes, IfOk, IsTrue};
ghost use Rattle.sn_names.specs.Names.{is_held, label_number};
ghost use Rattle.sn_sample.specs.Records.{HasLabels, sample_items, sample_record};

use crate::numbers::next_number;
use sn_list::Memory;
use sn_names::Names;
use sn_record::{Item, Items, Kind, Label, Record, Value};
use sn_stack::append;
use std::alloc::Global;

/// The label of a name that is held.
fn label_of(names: &Names, kind: Kind, name: &[u8]) -> Label
    requires { IsTrue (is_held names.now name.now) }
    ensures kind { result.kind ≡ kind }
    ensures id { result.id ≡ label_number names.now name.now }
{
    match names.find(name) {
        Some(id) => Label { kind, id },
        None => unreachable!(),
    }
}

/// The record of a number.
fn record_of(alloc: Global, names: &Names, x: u32) -> Result<Record, Memory>
    requires { HasLabels names.now }
    ensures { IfOk result (λ made. made ≡ sample_record names.now x) }
{
    let mut entries = Vec::with_capacity(alloc, 3)?;
    let v = label_of(names, Kind::Field, b"v");
    entries.push((v, Value::Int((x % 1_000) as i64)))?;
    let k = label_of(names, Kind::Tag, b"k");
    entries.push((k, Value::Int((x / 65_536 % 8) as i64)))?;
    let n = label_of(names, Kind::Tag, b"n");
    entries.push((n, Value::Int((x / 524_288 % 16) as i64)))?;
    Record::from_entries(entries)
}

/// The records of a number, from the first to one of so many, as items that flow.
///
/// The names `v`, `k` and `n` are held.
pub fn sample_records(
    alloc: Global,
    number: u32,
    count: u32,
    names: &Names,
) -> Result<Items, Memory>
    requires names { HasLabels names.now }
    ensures { IfOk result (λ items. items ≡ sample_items names.now number count) }
{
    let mut items = Items::with_capacity(alloc, count as usize)?;
    let mut x = number;
    for _ in 0..count {
        x = next_number(x);
        append(&mut items, Item::Rec(record_of(alloc, names, x)?))?;
    }
    Ok(items)
}

//! From a record to JSON.
ghost use Rattle.std.specs.Prelude.{◌≡◌, IfOk, IsTrue, IsUtf8, OnOk, map, string_bytes};
ghost use Rattle.sn_output.specs.Types.{label_text};
ghost use Rattle.sn_record.specs.Value.{every, is_printable};
ghost use Rattle.sn_record_roundtrip.specs.Writable.{IsWritable};
ghost use Rattle.serde_json.specs.View.{view, members_view};
ghost use Rattle.serde_json.specs.Data.{put as put_member};
ghost use Rattle.sn_json.specs.Writing.{data_of, json_of};

use serde_json::{Map, Number, Value as Json, push, put};
use sn_list::{Memory, Seq};
use sn_names::Names;
use sn_output::push_label;
use sn_record::{Label, Record, Text, Value};
use std::alloc::Global;

/// The bytes, which are text.
fn string_of(alloc: Global, bytes: &[u8]) -> Result<String, Memory>
    requires { IsUtf8 bytes.now }
    ensures { IfOk result (λ text. string_bytes text ≡ bytes.now) }
{
    match str::from_utf8(bytes) {
        Ok(text) => Ok(String::from_str(alloc, text)?),
        Err(_) => unreachable!(),
    }
}

/// The JSON of a value.
#[cycle(json)]
fn json_value(alloc: Global, value: &Value) -> Result<Json, Memory>
    requires { IsTrue (is_printable value.now) }
    ensures { IfOk result (λ json. view json ≡ data_of value.now) }
{
    match value {
        Value::Int(n) => Ok(Json::Number(Number::from(*n))),
        Value::Text(text) => {
            let text = string_of(alloc, text.as_slice())?;
            Ok(Json::String(text))
        }
        Value::List(values) => {
            let items = json_values(alloc, values.as_slice())?;
            Ok(Json::Array(items))
        }
    }
}

/// The JSON of each of the values.
#[cycle(json)]
fn json_values(alloc: Global, values: &[Value]) -> Result<Vec<Json>, Memory>
    requires { IsTrue (every (map is_printable values.now)) }
    ensures { IfOk result (λ items. map view items.items ≡ map data_of values.now) }
{
    let mut items = Vec::with_capacity(alloc, values.len())?;
    for value in values {
        let item = json_value(alloc, value)?;
        push(&mut items, item)?;
    }
    Ok(items)
}

/// The key of a label.
fn key_of(alloc: Global, names: &Names, label: Label) -> Result<Text, Memory>
    ensures { IfOk result (λ key. key ≡ label_text names.now label) }
{
    let mut key = Seq::new(alloc);
    push_label(&mut key, label.kind, names.name_or_none(label.id))?;
    Ok(key)
}

/// Sets the member of an entry.
fn put_entry(
    alloc: Global,
    members: &mut Map<String, Json>,
    names: &Names,
    label: Label,
    value: &Value,
) -> Result<(), Memory>
    requires named { IsUtf8 (label_text names.now label) }
    requires printable { IsTrue (is_printable value.now) }
    ensures { OnOk result (members_view members.new.entries ≡ put_member (label_text names.now label) (data_of value.now) (members_view members.old.entries)) }
{
    let key = key_of(alloc, names, label)?;
    let json = json_value(alloc, value)?;
    match str::from_utf8(key.as_slice()) {
        Ok(key) => Ok(put(members, alloc, key, json)?),
        Err(_) => unreachable!(),
    }
}

/// The object that a record is.
pub fn json_of(alloc: Global, shown: &Record, names: &Names) -> Result<Json, Memory>
    requires { IsWritable names.now shown.now }
    ensures { IfOk result (λ json. view json ≡ json_of names.now shown.now) }
{
    let mut members = Map::new(alloc);
    let mut i = shown.len();
    while i > 0 {
        i -= 1;
        let (label, value) = shown.at(i);
        put_entry(alloc, &mut members, names, label, value)?;
    }
    Ok(Json::Object(members))
}

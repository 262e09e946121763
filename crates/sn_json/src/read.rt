//! From JSON to the entries of a record.
ghost use Rattle.std.specs.Prelude.{◌≡◌, ◌⊎◌, IfOk, IfErr, Ok, Err};
ghost use Rattle.std.specs.List.{All};
ghost use Rattle.sn_input.specs.Steps.{Fits};
ghost use Rattle.sn_json.specs.declared.fault.JsonFault.{JsonFault as Fault};
ghost use Rattle.serde_json.specs.View.{view, items_view, members_view};
ghost use Rattle.sn_json.specs.Keys.{label_of};
ghost use Rattle.sn_json.specs.Reading.{WhyNot, entries_in, entries_of, entry_of, is_at_kind, suited, text_of, value_of, values_of};

use crate::fault::{JsonFault, Reason, ValueFault};
use crate::key::label_of;
use serde_json::{Map, Value as Json};
use sn_list::Seq;
use sn_record::{Kind, Text, Value};
use sn_record_parser::{Entry, WrittenLabel};
use sn_stack::append;
use std::alloc::Global;

/// The text, where a record may have it.
fn read_text(alloc: Global, text: &str) -> Result<Value, ValueFault>
    ensures text { IfOk result (λ v. text_of text.now ≡ Ok v) }
    ensures refused { IfErr result (WhyNot (text_of text.now)) }
{
    let text = Seq::from_slice(alloc, text.as_bytes())?;
    let text = Value::Text(text);
    if text.is_sound() {
        Ok(text)
    } else {
        Err(ValueFault::Because(Reason::Text))
    }
}

/// The value that JSON is.
#[cycle(read)]
fn read_value(alloc: Global, json: &Json) -> Result<Value, ValueFault>
    ensures value { IfOk result (λ v. value_of (view json.now) ≡ Ok v) }
    ensures refused { IfErr result (WhyNot (value_of (view json.now))) }
{
    match json {
        Json::Null => Err(ValueFault::Because(Reason::Null)),
        Json::Bool(_) => Err(ValueFault::Because(Reason::Boolean)),
        Json::Number(number) => match number.as_i64() {
            Some(n) => Ok(Value::Int(n)),
            None => Err(ValueFault::Because(Reason::Number)),
        },
        Json::String(text) => read_text(alloc, text.as_str()),
        Json::Array(items) => Ok(Value::List(read_values(alloc, items.as_slice())?)),
        Json::Object(_) => Err(ValueFault::Because(Reason::Object)),
    }
}

/// The values that the elements of an array are.
#[cycle(read)]
fn read_values(alloc: Global, items: &[Json]) -> Result<Seq<Value>, ValueFault>
    ensures values { IfOk result (λ vs. values_of (items_view items.now) ≡ Ok vs) }
    ensures refused { IfErr result (WhyNot (values_of (items_view items.now))) }
{
    let mut values = Seq::new(alloc);
    for item in items {
        let value = read_value(alloc, item)?;
        append(&mut values, value)?;
    }
    Ok(values)
}

/// That no record may have what stands at the key.
fn refused(alloc: Global, key: &str, why: Reason) -> JsonFault
    ensures { (result ≡ Fault.Memory) ⊎ (result ≡ Fault.Value key.now why) }
{
    match Text::from_slice(alloc, key.as_bytes()) {
        Ok(key) => JsonFault::Value(key, why),
        Err(_) => JsonFault::Memory,
    }
}

/// That the key is that of no label.
fn no_key(alloc: Global, key: &str) -> JsonFault
    ensures { (result ≡ Fault.Memory) ⊎ (result ≡ Fault.Key key.now) }
{
    match Text::from_slice(alloc, key.as_bytes()) {
        Ok(key) => JsonFault::Key(key),
        Err(_) => JsonFault::Memory,
    }
}

/// Whether a value of its form may stand at a label of the kind.
fn is_at_kind(kind: Kind, value: &Value) -> bool
    ensures { result ≡ is_at_kind kind value.now }
{
    match kind {
        Kind::Field => true,
        Kind::Tag => match value {
            Value::Int(_) => true,
            Value::Text(_) => false,
            Value::List(_) => false,
        },
    }
}

/// The entry of the value, where it is sound and suits the label.
fn suited(alloc: Global, key: &str, label: WrittenLabel, value: Value) -> Result<Entry, JsonFault>
    ensures entry { IfOk result (λ e. suited key.now label value ≡ Ok e) }
    ensures fits { IfOk result Fits }
    ensures refused { IfErr result (λ fault. (fault ≡ Fault.Memory) ⊎ (suited key.now label value ≡ Err fault)) }
{
    if !value.is_sound() {
        return Err(refused(alloc, key, Reason::TooLarge));
    }
    if !is_at_kind(label.kind, &value) {
        return Err(refused(alloc, key, Reason::Tag));
    }
    Ok(Entry { label, value })
}

/// The entry that a member is.
fn read_entry(alloc: Global, key: &str, json: &Json) -> Result<Entry, JsonFault>
    ensures entry { IfOk result (λ e. entry_of key.now (label_of key.now) (value_of (view json.now)) ≡ Ok e) }
    ensures fits { IfOk result Fits }
    ensures refused { IfErr result (λ fault. (fault ≡ Fault.Memory) ⊎ (entry_of key.now (label_of key.now) (value_of (view json.now)) ≡ Err fault)) }
{
    let Some(label) = label_of(alloc, key)? else {
        return Err(no_key(alloc, key));
    };
    match read_value(alloc, json) {
        Ok(value) => suited(alloc, key, label, value),
        Err(ValueFault::Because(why)) => Err(refused(alloc, key, why)),
        Err(ValueFault::Memory) => Err(JsonFault::Memory),
    }
}

/// The entries that the members of an object are.
fn read_members(alloc: Global, members: &Map<String, Json>) -> Result<Seq<Entry>, JsonFault>
    ensures entries { IfOk result (λ es. entries_in (members_view members.now.entries) ≡ Ok es) }
    ensures fit { IfOk result (All Fits) }
    ensures refused { IfErr result (λ fault. (fault ≡ Fault.Memory) ⊎ (entries_in (members_view members.now.entries) ≡ Err fault)) }
{
    let mut entries = Seq::new(alloc);
    for (key, json) in members.iter() {
        let entry = read_entry(alloc, key.as_str(), json)?;
        append(&mut entries, entry)?;
    }
    Ok(entries)
}

/// The entries of the record that a value of JSON is: those of the members of an object, in byte order of their keys. Of several members
/// with one key the last counts, as everywhere in serde_json.
pub fn entries_of(alloc: Global, json: &Json) -> Result<Seq<Entry>, JsonFault>
    ensures entries { IfOk result (λ es. entries_of (view json.now) ≡ Ok es) }
    ensures fit { IfOk result (All Fits) }
    ensures refused { IfErr result (λ fault. (fault ≡ Fault.Memory) ⊎ (entries_of (view json.now) ≡ Err fault)) }
{
    match json {
        Json::Object(members) => read_members(alloc, members),
        Json::Null => Err(JsonFault::NoObject),
        Json::Bool(_) => Err(JsonFault::NoObject),
        Json::Number(_) => Err(JsonFault::NoObject),
        Json::String(_) => Err(JsonFault::NoObject),
        Json::Array(_) => Err(JsonFault::NoObject),
    }
}

//! Lines of records as lines of JSON, and the other way round.
ghost use Rattle.std.specs.Prelude.{◌≡◌, ◌<◌, ◌≤◌, ◌⊎◌, [], length, IfErr, IfOk, IsUtf8, Ok, Err, Some, None};
ghost use Rattle.std.specs.List.{All, flat_map};
ghost use Rattle.sn_input.specs.declared.input.Input.{Input as SomeInput};
ghost use Rattle.sn_input.specs.declared.input.InputFault.{InputFault as SomeFault};
ghost use Rattle.sn_input.specs.Numbered.{with_entries};
ghost use Rattle.sn_input.specs.Reading.{ReadsFile, most_names};
ghost use Rattle.sn_input.specs.Steps.{Fits};
ghost use Rattle.sn_record_roundtrip.specs.Writable.{IsWritable};
ghost use Rattle.serde_json.specs.Read.{read};
ghost use Rattle.serde_json.specs.View.{view};
ghost use Rattle.sn_json.specs.declared.fault.JsonFault.{JsonFault as Fault};
ghost use Rattle.sn_json.specs.Lines.{Converts, IsReadBack, json_line, line_of_entries};

use crate::fault::JsonFault;
use crate::read::entries_of;
use crate::write::json_of;
use serde_json::Value as Json;
use sn_input::{Input, InputFault, read_records, record_of};
use sn_list::{Memory, Seq};
use sn_names::Names;
use sn_output::line_of;
use sn_record::{Record, Text};
use sn_record_parser::Entry;
use std::alloc::Global;

/// The line of JSON that a record is.
fn json_line(alloc: Global, shown: &Record, names: &Names) -> Result<Text, Memory>
    requires { IsWritable names.now shown.now }
    ensures line { IfOk result (λ text. text ≡ json_line names.now shown.now) }
    ensures reads { IfOk result (λ _. IsReadBack names.now shown.now) }
{
    let json = json_of(alloc, shown, names)?;
    let mut text = Seq::from_vec(json.to_vec(alloc)?);
    text.extend_from_slice(b"\n")?;
    Ok(text)
}

/// The lines of JSON that the records of an input are.
fn json_lines(alloc: Global, input: &Input) -> Result<Text, Memory>
    requires { All (IsWritable input.now.names) input.now.records }
    ensures lines { IfOk result (λ text. text ≡ flat_map (json_line input.now.names) input.now.records) }
    ensures read { IfOk result (λ _. All (IsReadBack input.now.names) input.now.records) }
{
    let mut text = Seq::new(alloc);
    for shown in input.records.as_slice() {
        let line = json_line(alloc, shown, &input.names)?;
        text.extend_from_slice(line.as_slice())?;
    }
    Ok(text)
}

/// The lines of JSON that the records of these lines are, each of which reads as that JSON. Lines of blanks alone have no record.
pub fn json_of_lines(alloc: Global, lines: &[u8]) -> Result<Text, InputFault>
    requires { length lines.now ≤ 16777216 }
    ensures text { IfOk result (λ text. (input : SomeInput) × ReadsFile [] lines.now (Ok input) × (text ≡ flat_map (json_line input.names) input.records) × All (IsReadBack input.names) input.records) }
    ensures refused { IfErr result (λ fault. (fault ≡ SomeFault.Memory) ⊎ ReadsFile [] lines.now (Err fault)) }
{
    let names = Names::new(alloc)?;
    let input = read_records(alloc, lines, names)?;
    Ok(json_lines(alloc, &input)?)
}

/// The printed line of the record that entries are.
fn line_of_entries(alloc: Global, entries: Seq<Entry>) -> Result<Text, JsonFault>
    requires { All Fits entries }
    ensures line { IfOk result (λ text. text ≡ line_of_entries entries) }
    ensures few { IfOk result (λ text. length (with_entries [] entries) ≤ most_names) }
    ensures refused { IfErr result (λ fault. (fault ≡ Fault.Memory) ⊎ ((fault ≡ Fault.TooManyNames) × (most_names < length (with_entries [] entries)))) }
{
    let mut names = Names::new(alloc)?;
    match record_of(alloc, &mut names, entries) {
        Ok(made) => Ok(line_of(alloc, &made, &names)?),
        Err(InputFault::TooManyNames) => Err(JsonFault::TooManyNames),
        Err(_) => Err(JsonFault::Memory),
    }
}

/// The value of JSON that a text is.
fn json_in(alloc: Global, text: &[u8]) -> Result<Json, JsonFault>
    ensures json { IfOk result (λ json. read text.now ≡ Some (view json)) }
    ensures refused { IfErr result (λ fault. (fault ≡ Fault.Memory) ⊎ ((fault ≡ Fault.NoJson) × ((¬ IsUtf8 text.now) ⊎ (read text.now ≡ None)))) }
{
    let Ok(text) = str::from_utf8(text) else {
        return Err(JsonFault::NoJson);
    };
    match Json::from_str(alloc, text) {
        Ok(json) => Ok(json),
        Err(fault) if fault.is_memory() => Err(JsonFault::Memory),
        Err(_) => Err(JsonFault::NoJson),
    }
}

/// The printed line of the record that a text is as JSON. Blanks, line feeds among them, may stand around its tokens.
pub fn line_of_json(alloc: Global, text: &[u8]) -> Result<Text, JsonFault>
    ensures line { IfOk result (λ line. Converts text.now (Ok line)) }
    ensures refused { IfErr result (λ fault. (fault ≡ Fault.Memory) ⊎ Converts text.now (Err fault)) }
{
    let json = json_in(alloc, text)?;
    let entries = entries_of(alloc, &json)?;
    line_of_entries(alloc, entries)
}

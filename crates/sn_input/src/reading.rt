//! A record file, line by line.
ghost use Rattle.std.specs.Prelude.{◌≡◌, ◌≤◌, ◌⊎◌, length, Ok, Err, Result, IfOk, IfErr, OnOk};
ghost use Rattle.sn_input.specs.declared.input.Input.{Input};
ghost use Rattle.sn_input.specs.declared.input.InputFault.{InputFault};
ghost use Rattle.sn_input.specs.Reading.{ReadsFile, most_records};
ghost use Rattle.sn_input.specs.Steps.{Adds, GoesOn, EndsWith, told};

use crate::input::{Input, InputFault, RecordFault};
use crate::one_line::read_line;
use sn_list::Seq;
use sn_names::Names;
use sn_record::Record;
use sn_stack::append;
use std::alloc::Global;

/// As many records as a file may have.
const MOST_RECORDS: usize = 1_048_576;

/// Adds the record of a line, where there is room for it.
fn add_record(input: &mut Input, number: u32, made: Record) -> Result<(), InputFault>
    requires { length input.old.records ≤ most_records }
    ensures added { OnOk result (Adds input.old number made input.new) }
    ensures refused { IfErr result (λ fault. (fault ≡ InputFault.Memory) ⊎ ((length input.old.records ≡ most_records) × (fault ≡ InputFault.TooMany number))) }
{
    if input.records.len() == MOST_RECORDS {
        return Err(InputFault::TooMany(number));
    }
    append(&mut input.records, made)?;
    append(&mut input.lines, number)?;
    Ok(())
}

/// Why a file is refused at a line. One record too many comes before one name too many.
fn refusal_at(number: u32, fault: RecordFault, is_full: bool) -> InputFault
    ensures { result ≡ told number fault is_full }
{
    match fault {
        RecordFault::BadLine => InputFault::BadLine(number),
        RecordFault::Twice(kind, name) => InputFault::Twice(number, kind, name),
        RecordFault::TooManyNames if is_full => InputFault::TooMany(number),
        RecordFault::TooManyNames => InputFault::TooManyNames,
        RecordFault::Memory => InputFault::Memory,
    }
}

/// Takes the line that follows what was read.
fn take_line(alloc: Global, input: &mut Input, number: u32, line: &[u8]) -> Result<(), InputFault>
    requires { length input.old.records ≤ most_records }
    ensures few { OnOk result (length input.new.records ≤ most_records) }
    ensures goes_on { OnOk result (GoesOn input.old number line.now input.new) }
    ensures ends { IfErr result (λ fault. (fault ≡ InputFault.Memory) ⊎ EndsWith input.old number line.now fault) }
{
    let found = match read_line(alloc, &mut input.names, line) {
        Ok(found) => found,
        Err(fault) => {
            let is_full = input.records.len() == MOST_RECORDS;
            return Err(refusal_at(number, fault, is_full));
        }
    };
    match found {
        None => Ok(()),
        Some(made) => add_record(input, number, made),
    }
}

/// The records of a file, whose new names go to the end of `names`. A file that is refused drops the names.
pub fn read_records(alloc: Global, bytes: &[u8], names: Names) -> Result<Input, InputFault>
    requires { length bytes.now ≤ 16777216 }
    // What is answered is what the file gives.
    ensures answer { IfOk result (λ input. ReadsFile names bytes.now (Ok input)) }
    ensures refused { IfErr result (λ fault. (fault ≡ InputFault.Memory) ⊎ ReadsFile names bytes.now (Err fault)) }
    // What the file gives is answered, unless memory is wanted.
    ensures once { (outcome : Result Input InputFault) → ReadsFile names bytes.now outcome → (result ≡ outcome) ⊎ (result ≡ Err InputFault.Memory) }
{
    let mut input = Input {
        records: Seq::new(alloc),
        lines: Seq::new(alloc),
        names,
    };
    let mut number = 0;
    for line in bytes.split(|byte| *byte == b'\n') {
        number += 1;
        take_line(alloc, &mut input, number, line)?;
    }
    Ok(input)
}

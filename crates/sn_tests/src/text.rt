//! Records, sets of labels and declarations from their text, so that a test says what it means in a line. Where memory is wanted, or a
//! text is none that it should be, the test ends there: so a value that is alive has one end, and its proof stays short.
use sn_ast::{ParseFault, Program};
use sn_input::{Input, InputFault, read_records};
use sn_lexer::lex;
use sn_list::Seq;
use sn_names::Names;
use sn_parser::parse;
use sn_record::{LabelSet, Record};
use std::alloc::Global;
use std::process::Abort;

/// The records of the text, one a line, if it is one of records. Their labels are numbered in the order in which the text names them.
pub fn read(alloc: Global, text: &str) -> Result<Input, InputFault> {
    if text.len() > 16_777_216 {
        return Err(InputFault::Memory);
    }
    let names = Names::new(alloc)?;
    read_records(alloc, text.as_bytes(), names)
}

/// The records of the text alone.
pub fn records(rt: &impl Abort, alloc: Global, text: &str) -> Seq<Record> {
    read(alloc, text).expect(rt, "records").records
}

/// The labels of a record.
pub fn labels_of(rt: &impl Abort, alloc: Global, record: &Record) -> LabelSet {
    let mut labels = LabelSet::new(alloc);
    for (label, _) in record.as_slice() {
        labels.insert(*label).expect(rt, "memory");
    }
    labels
}

/// The program that a source spells, if it spells one.
pub fn program(alloc: Global, source: &str) -> Result<Program, ParseFault> {
    if source.len() > 1_048_576 {
        return Err(ParseFault::Memory);
    }
    let source = source.as_bytes();
    let Ok(tokens) = lex(alloc, source) else {
        return Err(ParseFault::Memory);
    };
    parse(alloc, source, tokens.as_slice())
}

//! Why not all is converted, as it is told on standard error.
use sn_input::InputFault;
use sn_json::{JsonFault, Reason};
use sn_record::{Kind, Text};
use std::alloc::AllocError;
use std::io::ErrorKind;
use std::{fmt, io};

/// What is wrong in a line.
#[derive(Drop)]
pub enum Cause {
    /// It is no record, to be written as JSON.
    Record,
    /// A label of it repeats an earlier one.
    Twice(Kind, Text),
    /// It is no JSON.
    NoJson,
    /// It is JSON, and no object.
    NoObject,
    /// This key is that of no label.
    Key(Text),
    /// No record may have what stands at this key.
    Value(Text, Reason),
    /// It has more different names than a record file may have.
    Names,
    /// It is too long.
    Length,
    Memory,
}

/// Why not all is converted.
#[derive(Drop)]
pub enum Refusal {
    Usage,
    Read,
    /// The line of this number, counted from 1, is refused.
    Line(u64, Cause),
    Memory,
    Write,
}

impl From<AllocError> for Refusal {
    fn from(_memory: AllocError) -> Refusal {
        Refusal::Memory
    }
}

impl From<io::Error> for Refusal {
    fn from(fault: io::Error) -> Refusal {
        match fault.kind() {
            ErrorKind::OutOfMemory => Refusal::Memory,
            _ => Refusal::Read,
        }
    }
}

impl From<InputFault> for Cause {
    fn from(fault: InputFault) -> Cause {
        match fault {
            InputFault::BadLine(_) => Cause::Record,
            InputFault::Twice(_, kind, name) => Cause::Twice(kind, name),
            InputFault::TooMany(_) => Cause::Length,
            InputFault::TooManyNames => Cause::Names,
            InputFault::Memory => Cause::Memory,
        }
    }
}

impl From<JsonFault> for Cause {
    fn from(fault: JsonFault) -> Cause {
        match fault {
            JsonFault::NoJson => Cause::NoJson,
            JsonFault::NoObject => Cause::NoObject,
            JsonFault::Key(key) => Cause::Key(key),
            JsonFault::Value(key, why) => Cause::Value(key, why),
            JsonFault::TooManyNames => Cause::Names,
            JsonFault::Memory => Cause::Memory,
        }
    }
}

impl Refusal {
    /// The exit status of the program.
    pub fn status(&self) -> u8 {
        match self {
            Refusal::Usage => 2,
            Refusal::Read => 3,
            Refusal::Line(_, Cause::Names | Cause::Length) => 11,
            Refusal::Line(_, _) => 6,
            Refusal::Memory => 8,
            Refusal::Write => 9,
        }
    }
}

/// The word for why no record may have a value.
fn reason_word(why: Reason) -> &'static str {
    match why {
        Reason::Null => "Null",
        Reason::Boolean => "Boolean",
        Reason::Number => "Number",
        Reason::Object => "Object",
        Reason::Text => "Text",
        Reason::TooLarge => "TooLarge",
        Reason::Tag => "Tag",
    }
}

/// A key as it stands in JSON, in quotes.
#[derive(Drop)]
struct Quoted<'a>(&'a Text);

impl fmt::Display for Quoted<'_> {
    fn fmt<W: fmt::Write>(&self, f: &mut fmt::Formatter<W>) -> fmt::Result {
        match str::from_utf8(self.0.as_slice()) {
            Ok(text) => write!(f, "{text:?}"),
            Err(_) => Ok(()),
        }
    }
}

impl fmt::Display for Refusal {
    fn fmt<W: fmt::Write>(&self, f: &mut fmt::Formatter<W>) -> fmt::Result {
        let (number, cause) = match self {
            Refusal::Usage => return f.write_str("usage: records from-json | to-json"),
            Refusal::Read => return f.write_str("read: standard input"),
            Refusal::Memory => return f.write_str("memory"),
            Refusal::Write => return f.write_str("write"),
            Refusal::Line(number, cause) => (number, cause),
        };
        match cause {
            Cause::Record => write!(f, "input: BadLine {number}"),
            Cause::Twice(kind, name) => write_twice(f, *number, *kind, name),
            Cause::NoJson => write!(f, "input: NoJson {number}"),
            Cause::NoObject => write!(f, "input: NoObject {number}"),
            Cause::Key(key) => {
                let key = Quoted(key);
                write!(f, "input: Key {number} {key}")
            }
            Cause::Value(key, why) => {
                let key = Quoted(key);
                let why = reason_word(*why);
                write!(f, "input: {why} {number} {key}")
            }
            Cause::Names => write!(f, "limit: Names at line {number}"),
            Cause::Length => write!(f, "limit: Length at line {number}"),
            Cause::Memory => f.write_str("memory"),
        }
    }
}

/// Writes that a label stands twice in a line.
fn write_twice<W: fmt::Write>(
    f: &mut fmt::Formatter<W>,
    number: u64,
    kind: Kind,
    name: &Text,
) -> fmt::Result {
    let Ok(name) = str::from_utf8(name.as_slice()) else {
        return write!(f, "input: Twice {number}");
    };
    match kind {
        Kind::Field => write!(f, "input: Twice {number} {name}"),
        Kind::Tag => write!(f, "input: Twice {number} <{name}>"),
    }
}

//! What the checks of a command refuse.
ghost use Rattle.std.specs.Prelude.{◌≡◌};
ghost use Rattle.sn_stop.specs.Status.{fault_label, line_label, line_number, line_status, trace_label, trace_number, type_label};

use crate::status::Status;
use sn_record::{Kind, Text};

/// Which of a command's files.
#[derive(Clone, Copy)]
pub enum Which {
    Source,
    Input,
    Trace,
}

/// What is wrong in a source.
#[derive(Clone, Copy)]
pub enum SourceFault {
    BadUtf8,
    BadChar,
    NumberTooWide,
    TextOpen,
    Unexpected,
    Unknown,
    Twice,
    Arity,
    GuardTag,
}

impl SourceFault {
    /// What the line on `err` says before the place.
    pub fn label(&self) -> &'static [u8]
        ensures { result.now ≡ fault_label self.now }
    {
        match self {
            SourceFault::BadUtf8 => b"source: BadUtf8 at ",
            SourceFault::BadChar => b"source: BadChar at ",
            SourceFault::NumberTooWide => b"source: NumberTooWide at ",
            SourceFault::TextOpen => b"source: TextOpen at ",
            SourceFault::Unexpected => b"source: Unexpected at ",
            SourceFault::Unknown => b"source: Unknown at ",
            SourceFault::Twice => b"source: Twice at ",
            SourceFault::Arity => b"source: Arity at ",
            SourceFault::GuardTag => b"source: GuardTag at ",
        }
    }
}

/// What is wrong with the types of a net.
#[derive(Clone, Copy)]
pub enum TypeFault {
    /// A record has no route at a part of the net.
    NoRoute,
    /// A record may leave the net that is not of its output type.
    BadOutput,
}

impl TypeFault {
    /// What the line on `err` says before the place.
    pub(crate) fn label(&self) -> &'static [u8]
        ensures { result.now ≡ type_label self.now }
    {
        match self {
            TypeFault::NoRoute => b"type: NoRoute at ",
            TypeFault::BadOutput => b"type: BadOutput at ",
        }
    }
}

/// What is wrong in a line of an input. Lines are counted from 1.
#[derive(Drop)]
pub enum LineFault {
    /// It is no record.
    BadLine(u64),
    /// A label repeats an earlier one, by its kind and name.
    Twice(u64, Kind, Text),
    /// Its record is not of the input type.
    Untyped(u64),
    /// Its record is one too many.
    TooMany(u64),
    /// It has too many bytes.
    TooLong(u64),
}

impl LineFault {
    pub(crate) fn status(&self) -> Status
        ensures { result ≡ line_status self.now }
    {
        match self {
            LineFault::BadLine(_) | LineFault::Twice(_, _, _) | LineFault::Untyped(_) => {
                Status::Input
            }
            LineFault::TooMany(_) | LineFault::TooLong(_) => Status::Limit,
        }
    }

    /// The number of the line.
    pub(crate) fn number(&self) -> u64
        ensures { result ≡ line_number self.now }
    {
        match self {
            LineFault::BadLine(n)
            | LineFault::Twice(n, _, _)
            | LineFault::Untyped(n)
            | LineFault::TooMany(n)
            | LineFault::TooLong(n) => *n,
        }
    }

    /// What the line on `err` says before the number.
    pub(crate) fn label(&self) -> &'static [u8]
        ensures { result.now ≡ line_label self.now }
    {
        match self {
            LineFault::BadLine(_) => b"input: BadLine ",
            LineFault::Twice(_, _, _) => b"input: Twice ",
            LineFault::Untyped(_) => b"input: Untyped ",
            LineFault::TooMany(_) => b"limit: Records at line ",
            LineFault::TooLong(_) => b"limit: Line ",
        }
    }
}

/// What is wrong in a trace. Lines are counted from 1.
#[derive(Clone, Copy)]
pub enum TraceRefusal {
    /// The line is none of a trace, or stands behind the fault that ends it.
    BadLine(u32),
    /// The line names no event that may happen.
    NotEnabled(u32),
    /// Behind the last line the run has not come to its end.
    Unfinished,
}

impl TraceRefusal {
    /// The number of the line, or 0.
    pub(crate) fn number(&self) -> u32
        ensures { result ≡ trace_number self.now }
    {
        match self {
            TraceRefusal::BadLine(n) | TraceRefusal::NotEnabled(n) => *n,
            TraceRefusal::Unfinished => 0,
        }
    }

    /// What the line on `err` says before the number.
    pub(crate) fn label(&self) -> &'static [u8]
        ensures { result.now ≡ trace_label self.now }
    {
        match self {
            TraceRefusal::BadLine(_) => b"trace: BadLine ",
            TraceRefusal::NotEnabled(_) => b"trace: NotEnabled ",
            TraceRefusal::Unfinished => b"trace: Unfinished",
        }
    }
}

/// What the checks of a command refuse. A place is an offset in the source's bytes.
#[derive(Drop)]
pub enum Refusal {
    TooLarge(Which),
    Source(SourceFault, u32),
    /// No outermost net `main` has a signature.
    NoMain,
    TooDeep(u32),
    /// The tree of the net whose name stands there is too large.
    LargeTree(u32),
    /// The labels have too many different names.
    TooManyNames,
    /// The types of a net are wrong at the place, for records of the variant, which is printed.
    IllTyped(TypeFault, u32, Text),
    /// Too many variants flow in the net whose name stands there.
    Variants(u32),
    /// A line of the input is wrong.
    Line(LineFault),
    /// The trace is none of the run.
    Trace(TraceRefusal),
}

//! Why a command stops: its status, and what it writes on `err`.
ghost use Rattle.std.specs.Prelude.{◌≡◌, ◌++◌};
ghost use Rattle.std.specs.Fmt.{decimal};
ghost use Rattle.sn_stop.specs.Status.{ending_label, stop_detail, stop_label, stop_name, stop_place, stop_status};

use crate::refusal::{LineFault, Refusal, SourceFault, TraceRefusal, Which};
use crate::status::Status;
use sn_ast::ParseFault;
use sn_input::InputFault;
use sn_io::WriteFault;
use sn_label_scope::ScopeFault;
use sn_lexer::LexFault;
use sn_list::Memory;
use sn_names::NamesFault;
use sn_record::{Fault, FaultKind, Kind};

/// What the line on `err` says before the place of a fault that ends the output.
fn ending_label(kind: FaultKind) -> &'static [u8]
    ensures { result.now ≡ ending_label kind }
{
    match kind {
        FaultKind::Fuel => b"fault: Fuel at ",
        FaultKind::Overflow => b"fault: Overflow at ",
        FaultKind::DivZero => b"fault: DivZero at ",
        FaultKind::Kind => b"fault: Kind at ",
        FaultKind::Index => b"fault: Index at ",
        FaultKind::Depth => b"fault: Depth at ",
    }
}

/// Why a command ends otherwise than with its whole output.
#[derive(Drop)]
pub enum Stop {
    Refused(Refusal),
    /// What was printed ends at a fault.
    Faulted(Fault),
    Unread(Which),
    Memory,
    Write,
}

impl From<Memory> for Stop {
    ghost use Rattle.std.specs.Prelude.{◌≡◌};
    ghost use Rattle.sn_stop.specs.declared.stop.Stop.{Stop};

    ghost from_gives = { λ _ e. e ≡ Stop.Memory };

    fn from(_memory: Memory) -> Stop {
        Stop::Memory
    }
}

impl From<WriteFault> for Stop {
    ghost use Rattle.std.specs.Prelude.{◌≡◌};
    ghost use Rattle.sn_stop.specs.declared.stop.Stop.{Stop};

    ghost from_gives = { λ _ e. e ≡ Stop.Write };

    fn from(_fault: WriteFault) -> Stop {
        Stop::Write
    }
}

impl From<NamesFault> for Stop {
    ghost use Rattle.std.specs.Prelude.{◌≡◌};
    ghost use Rattle.sn_stop.specs.Stops.{names_stop};

    ghost from_gives = { λ f e. e ≡ names_stop f };

    fn from(fault: NamesFault) -> Stop {
        match fault {
            NamesFault::TooMany => Stop::Refused(Refusal::TooManyNames),
            NamesFault::Memory => Stop::Memory,
        }
    }
}

impl From<InputFault> for Stop {
    ghost use Rattle.std.specs.Prelude.{◌≡◌};
    ghost use Rattle.sn_stop.specs.Stops.{input_stop};

    ghost from_gives = { λ f e. e ≡ input_stop f };

    fn from(fault: InputFault) -> Stop {
        match fault {
            InputFault::BadLine(n) => Stop::Refused(Refusal::Line(LineFault::BadLine(n as u64))),
            InputFault::Twice(n, kind, name) => {
                Stop::Refused(Refusal::Line(LineFault::Twice(n as u64, kind, name)))
            }
            InputFault::TooMany(n) => Stop::Refused(Refusal::Line(LineFault::TooMany(n as u64))),
            InputFault::TooManyNames => Stop::Refused(Refusal::TooManyNames),
            InputFault::Memory => Stop::Memory,
        }
    }
}

impl From<LexFault> for Stop {
    ghost use Rattle.std.specs.Prelude.{◌≡◌};
    ghost use Rattle.sn_stop.specs.Stops.{lex_stop};

    ghost from_gives = { λ f e. e ≡ lex_stop f };

    fn from(fault: LexFault) -> Stop {
        match fault {
            LexFault::BadUtf8(at) => Stop::Refused(Refusal::Source(SourceFault::BadUtf8, at)),
            LexFault::BadChar(at) => Stop::Refused(Refusal::Source(SourceFault::BadChar, at)),
            LexFault::NumberTooWide(at) => {
                Stop::Refused(Refusal::Source(SourceFault::NumberTooWide, at))
            }
            LexFault::TextOpen(at) => Stop::Refused(Refusal::Source(SourceFault::TextOpen, at)),
            LexFault::Memory => Stop::Memory,
        }
    }
}

impl From<ParseFault> for Stop {
    ghost use Rattle.std.specs.Prelude.{◌≡◌};
    ghost use Rattle.sn_stop.specs.Stops.{parse_stop};

    ghost from_gives = { λ f e. e ≡ parse_stop f };

    fn from(fault: ParseFault) -> Stop {
        match fault {
            ParseFault::Unexpected(at) => {
                Stop::Refused(Refusal::Source(SourceFault::Unexpected, at))
            }
            ParseFault::TooDeep(at) => Stop::Refused(Refusal::TooDeep(at)),
            ParseFault::Memory => Stop::Memory,
        }
    }
}

impl From<ScopeFault> for Stop {
    ghost use Rattle.std.specs.Prelude.{◌≡◌};
    ghost use Rattle.sn_stop.specs.Stops.{scope_stop};

    ghost from_gives = { λ f e. e ≡ scope_stop f };

    fn from(fault: ScopeFault) -> Stop {
        match fault {
            ScopeFault::Unknown(at) => Stop::Refused(Refusal::Source(SourceFault::Unknown, at)),
            ScopeFault::Twice(at) => Stop::Refused(Refusal::Source(SourceFault::Twice, at)),
            ScopeFault::Arity(at) => Stop::Refused(Refusal::Source(SourceFault::Arity, at)),
            ScopeFault::GuardTag(at) => Stop::Refused(Refusal::Source(SourceFault::GuardTag, at)),
            ScopeFault::NoMain => Stop::Refused(Refusal::NoMain),
            ScopeFault::TooLarge(at) => Stop::Refused(Refusal::LargeTree(at)),
            ScopeFault::TooManyNames => Stop::Refused(Refusal::TooManyNames),
            ScopeFault::Memory => Stop::Memory,
        }
    }
}

impl Stop {
    pub fn status(&self) -> Status
        ensures { result ≡ stop_status self.now }
    {
        match self {
            Stop::Refused(Refusal::TooLarge(_)) => Status::TooLarge,
            Stop::Refused(Refusal::Source(_, _)) => Status::Source,
            Stop::Refused(Refusal::NoMain) => Status::Source,
            Stop::Refused(Refusal::TooDeep(_)) => Status::Limit,
            Stop::Refused(Refusal::LargeTree(_)) => Status::Limit,
            Stop::Refused(Refusal::TooManyNames) => Status::Limit,
            Stop::Refused(Refusal::IllTyped(_, _, _)) => Status::IllTyped,
            Stop::Refused(Refusal::Variants(_)) => Status::Limit,
            Stop::Refused(Refusal::Line(fault)) => fault.status(),
            Stop::Refused(Refusal::Trace(_)) => Status::Trace,
            Stop::Faulted(_) => Status::Fault,
            Stop::Unread(_) => Status::Read,
            Stop::Memory => Status::Memory,
            Stop::Write => Status::Write,
        }
    }

    /// The place in the source, or the number of the input's or the trace's line, that the line on `err` speaks of, or 0.
    pub fn place(&self) -> u64
        ensures { result ≡ stop_place self.now }
    {
        match self {
            Stop::Refused(Refusal::Source(_, at)) => *at as u64,
            Stop::Refused(Refusal::TooDeep(at)) => *at as u64,
            Stop::Refused(Refusal::LargeTree(at)) => *at as u64,
            Stop::Refused(Refusal::IllTyped(_, at, _)) => *at as u64,
            Stop::Refused(Refusal::Variants(at)) => *at as u64,
            Stop::Refused(Refusal::Line(fault)) => fault.number(),
            Stop::Refused(Refusal::Trace(fault)) => fault.number() as u64,
            Stop::Faulted(fault) => fault.place as u64,
            _ => 0,
        }
    }

    /// What the line on `err` says before a name or a place.
    pub fn label(&self) -> &'static [u8]
        ensures { result.now ≡ stop_label self.now }
    {
        match self {
            Stop::Refused(Refusal::TooLarge(_)) => b"too large: ",
            Stop::Refused(Refusal::Source(fault, _)) => fault.label(),
            Stop::Refused(Refusal::NoMain) => b"source: NoMain",
            Stop::Refused(Refusal::TooDeep(_)) => b"limit: TooDeep at ",
            Stop::Refused(Refusal::LargeTree(_)) => b"limit: TooLarge at ",
            Stop::Refused(Refusal::TooManyNames) => b"limit: Names",
            Stop::Refused(Refusal::IllTyped(fault, _, _)) => fault.label(),
            Stop::Refused(Refusal::Variants(_)) => b"limit: Variants at ",
            Stop::Refused(Refusal::Line(fault)) => fault.label(),
            Stop::Refused(Refusal::Trace(fault)) => fault.label(),
            Stop::Faulted(fault) => ending_label(fault.kind),
            Stop::Unread(_) => b"read: ",
            Stop::Memory => b"memory",
            Stop::Write => b"write",
        }
    }

    /// What the line speaks of: the name of a file, or the digits of the place, or nothing.
    pub fn name<'a>(
        &self,
        source: &'a [u8],
        input: &'a [u8],
        trace: &'a [u8],
        place: &'a [u8],
    ) -> &'a [u8]
        requires { place.now ≡ decimal (stop_place self.now) }
        ensures { result.now ≡ stop_name self.now source.now input.now trace.now }
    {
        match self {
            Stop::Refused(Refusal::TooLarge(Which::Source)) | Stop::Unread(Which::Source) => source,
            Stop::Refused(Refusal::TooLarge(Which::Input)) | Stop::Unread(Which::Input) => input,
            Stop::Refused(Refusal::TooLarge(Which::Trace)) | Stop::Unread(Which::Trace) => trace,
            Stop::Refused(Refusal::Source(_, _))
            | Stop::Refused(Refusal::TooDeep(_))
            | Stop::Refused(Refusal::LargeTree(_))
            | Stop::Refused(Refusal::IllTyped(_, _, _))
            | Stop::Refused(Refusal::Variants(_))
            | Stop::Refused(Refusal::Line(_))
            | Stop::Refused(Refusal::Trace(TraceRefusal::BadLine(_)))
            | Stop::Refused(Refusal::Trace(TraceRefusal::NotEnabled(_)))
            | Stop::Faulted(_) => place,
            _ => &source[..0],
        }
    }

    /// What the line says last, in three pieces: the label that stands twice, the variant for which types are wrong, or nothing.
    pub fn detail(&self) -> (&[u8], &[u8], &[u8])
        ensures { result.0.now ++ (result.1.now ++ result.2.now) ≡ stop_detail self.now }
    {
        match self {
            Stop::Refused(Refusal::IllTyped(_, _, variant)) => (b" for ", variant.as_slice(), b""),
            Stop::Refused(Refusal::Line(LineFault::Twice(_, Kind::Field, name))) => {
                (b" ", name.as_slice(), b"")
            }
            Stop::Refused(Refusal::Line(LineFault::Twice(_, Kind::Tag, name))) => {
                (b" <", name.as_slice(), b">")
            }
            _ => (b"", b"", b""),
        }
    }
}

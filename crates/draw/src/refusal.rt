//! Why no picture is printed, as it is told on standard error.
use itoa::Buffer;
use sn_ast::ParseFault;
use sn_label_scope::ScopeFault;
use sn_lexer::LexFault;
use sn_list::{Memory, Seq};
use sn_record::Text;
use sn_stop::Stop;
use std::alloc::{AllocError, Global};
use std::io::ErrorKind;
use std::{fmt, io};

/// Why no picture is printed.
#[derive(Drop)]
pub enum Refusal {
    Usage,
    /// The file of this name was not read.
    Read(Text),
    /// It is too large to be a source.
    TooLarge(Text),
    /// What is wrong in the source.
    Source(Stop),
    /// No net of this name has a signature.
    Claim(Text),
    Memory,
    Write,
}

impl From<Memory> for Refusal {
    fn from(_memory: Memory) -> Refusal {
        Refusal::Memory
    }
}

impl From<AllocError> for Refusal {
    fn from(_memory: AllocError) -> Refusal {
        Refusal::Memory
    }
}

impl From<io::Error> for Refusal {
    fn from(fault: io::Error) -> Refusal {
        match fault.kind() {
            ErrorKind::OutOfMemory => Refusal::Memory,
            _ => Refusal::Usage,
        }
    }
}

/// That a source is refused, or that memory is wanted.
fn refused(stop: Stop) -> Refusal {
    match stop {
        Stop::Memory => Refusal::Memory,
        other => Refusal::Source(other),
    }
}

impl From<LexFault> for Refusal {
    fn from(fault: LexFault) -> Refusal {
        refused(Stop::from(fault))
    }
}

impl From<ParseFault> for Refusal {
    fn from(fault: ParseFault) -> Refusal {
        refused(Stop::from(fault))
    }
}

impl From<ScopeFault> for Refusal {
    fn from(fault: ScopeFault) -> Refusal {
        refused(Stop::from(fault))
    }
}

impl Refusal {
    /// That the file of the name was not read.
    pub fn read(alloc: Global, name: &str) -> Refusal {
        match Seq::from_slice(alloc, name.as_bytes()) {
            Ok(name) => Refusal::Read(name),
            Err(_) => Refusal::Memory,
        }
    }

    /// That the file of the name is too large.
    pub fn too_large(alloc: Global, name: &str) -> Refusal {
        match Seq::from_slice(alloc, name.as_bytes()) {
            Ok(name) => Refusal::TooLarge(name),
            Err(_) => Refusal::Memory,
        }
    }

    /// That no net of the name has a signature.
    pub fn claim(alloc: Global, name: &[u8]) -> Refusal {
        match Seq::from_slice(alloc, name) {
            Ok(name) => Refusal::Claim(name),
            Err(_) => Refusal::Memory,
        }
    }

    /// The exit status of the program.
    pub fn status(&self) -> u8 {
        match self {
            Refusal::Usage => 2,
            Refusal::Read(_) => 3,
            Refusal::TooLarge(_) | Refusal::Source(_) | Refusal::Claim(_) => 6,
            Refusal::Memory => 8,
            Refusal::Write => 9,
        }
    }
}

/// Bytes that are text.
#[derive(Drop)]
struct Shown<'a>(&'a [u8]);

impl fmt::Display for Shown<'_> {
    fn fmt<W: fmt::Write>(&self, f: &mut fmt::Formatter<W>) -> fmt::Result {
        match str::from_utf8(self.0) {
            Ok(text) => f.write_str(text),
            Err(_) => Ok(()),
        }
    }
}

/// Writes what is wrong in a source, as snet tells it.
fn write_stop<W: fmt::Write>(f: &mut fmt::Formatter<W>, stop: &Stop) -> fmt::Result {
    let mut buffer = Buffer::new();
    let place = buffer.format(stop.place()).as_bytes();
    let label = Shown(stop.label());
    let name = Shown(stop.name(b"", b"", b"", place));
    let (before, detail, behind) = stop.detail();
    let before = Shown(before);
    let detail = Shown(detail);
    let behind = Shown(behind);
    write!(f, "{label}{name}{before}{detail}{behind}")
}

impl fmt::Display for Refusal {
    fn fmt<W: fmt::Write>(&self, f: &mut fmt::Formatter<W>) -> fmt::Result {
        match self {
            Refusal::Usage => f.write_str("usage: draw SOURCE [--claim NAME] [--plan]"),
            Refusal::Read(name) => {
                let name = Shown(name.as_slice());
                write!(f, "read: {name}")
            }
            Refusal::TooLarge(name) => {
                let name = Shown(name.as_slice());
                write!(f, "too large: {name}")
            }
            Refusal::Source(stop) => write_stop(f, stop),
            Refusal::Claim(name) => {
                let name = Shown(name.as_slice());
                write!(f, "source: no net {name} has a signature")
            }
            Refusal::Memory => f.write_str("memory"),
            Refusal::Write => f.write_str("write"),
        }
    }
}

//! Why not all is explained, as it is told on standard error.
use sn_list::{Memory, Seq};
use sn_record::Text;
use std::alloc::{AllocError, Global};
use std::io::ErrorKind;
use std::{fmt, io};

/// Why not all is explained.
#[derive(Drop)]
pub enum Refusal {
    Usage,
    /// The file of this name was not read.
    Read(Text),
    /// Standard input was not read.
    Lines,
    Memory,
    Write,
}

impl From<Memory> for Refusal {
    fn from(_memory: Memory) -> Refusal {
        Refusal::Memory
    }
}

impl From<AllocError> for Refusal {
    fn from(_memory: AllocError) -> Refusal {
        Refusal::Memory
    }
}

impl From<io::Error> for Refusal {
    fn from(fault: io::Error) -> Refusal {
        match fault.kind() {
            ErrorKind::OutOfMemory => Refusal::Memory,
            _ => Refusal::Lines,
        }
    }
}

impl Refusal {
    /// That the file of the name was not read.
    pub fn read(alloc: Global, name: &str) -> Refusal {
        match Seq::from_slice(alloc, name.as_bytes()) {
            Ok(name) => Refusal::Read(name),
            Err(_) => Refusal::Memory,
        }
    }

    /// The exit status of the program.
    pub fn status(&self) -> u8 {
        match self {
            Refusal::Usage => 2,
            Refusal::Read(_) | Refusal::Lines => 3,
            Refusal::Memory => 8,
            Refusal::Write => 9,
        }
    }
}

impl fmt::Display for Refusal {
    fn fmt<W: fmt::Write>(&self, f: &mut fmt::Formatter<W>) -> fmt::Result {
        match self {
            Refusal::Usage => f.write_str("usage: explain SOURCE [INPUT] < LINES"),
            Refusal::Read(name) => match str::from_utf8(name.as_slice()) {
                Ok(name) => write!(f, "read: {name}"),
                Err(_) => f.write_str("read"),
            },
            Refusal::Lines => f.write_str("read: standard input"),
            Refusal::Memory => f.write_str("memory"),
            Refusal::Write => f.write_str("write"),
        }
    }
}

use sn_list::Memory;
use sn_stop::{Status, Stop};
use std::alloc::AllocError;
use std::fmt;

/// Why nothing is printed, or not all.
#[derive(Clone, Copy)]
pub enum Refusal {
    /// The words ask for nothing that is known.
    Usage,
    /// A file was not read.
    Read,
    /// The source is none, or too large.
    Source,
    /// The types of a net are wrong.
    IllTyped,
    /// The input is no record file, or not of the main net's input type.
    Input,
    /// So many events happened that no more are counted.
    Events,
    /// A call that was begun could not be answered, or is not known of.
    Calls,
    /// So many turns were taken that no more are, and the end hasn't come.
    Turns,
    /// Nodes do not show the steps to them.
    Steps,
    Memory,
    Write,
}

impl From<Memory> for Refusal {
    fn from(_memory: Memory) -> Refusal {
        Refusal::Memory
    }
}

impl From<AllocError> for Refusal {
    fn from(_memory: AllocError) -> Refusal {
        Refusal::Memory
    }
}

impl From<Stop> for Refusal {
    fn from(stop: Stop) -> Refusal {
        match stop.status() {
            Status::Memory => Refusal::Memory,
            Status::IllTyped => Refusal::IllTyped,
            Status::Input => Refusal::Input,
            _ => Refusal::Source,
        }
    }
}

impl fmt::Display for Refusal {
    fn fmt<W: fmt::Write>(&self, f: &mut fmt::Formatter<W>) -> fmt::Result {
        f.write_str(match self {
            Refusal::Usage => {
                "drive next|late|reverse|shuffled|turns|turns-reverse|turns-shuffled SOURCE INPUT [SEED] [--fuel=N] [--depth=N] [--queue=N] [--count] [--steps]"
            }
            Refusal::Read => "a file was not read",
            Refusal::Source => "the source is refused",
            Refusal::IllTyped => "the types of a net are wrong",
            Refusal::Input => "the input is refused",
            Refusal::Events => "too many events happened",
            Refusal::Calls => "a call is not answered",
            Refusal::Turns => "the end doesn't come",
            Refusal::Steps => "steps are shown of events alone",
            Refusal::Memory => "there is no memory left",
            Refusal::Write => "the output was not written",
        })
    }
}

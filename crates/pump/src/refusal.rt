use sn_list::Memory;
use std::alloc::AllocError;
use std::fmt;

/// Why nothing is printed.
#[derive(Clone, Copy)]
pub enum Refusal {
    /// The words ask for nothing that is known.
    Usage,
    Memory,
}

impl From<Memory> for Refusal {
    fn from(_memory: Memory) -> Refusal {
        Refusal::Memory
    }
}

impl From<AllocError> for Refusal {
    fn from(_memory: AllocError) -> Refusal {
        Refusal::Memory
    }
}

impl fmt::Display for Refusal {
    fn fmt<W: fmt::Write>(&self, f: &mut fmt::Formatter<W>) -> fmt::Result {
        f.write_str(match self {
            Refusal::Usage => "pump stream|queue CAPACITY COUNT",
            Refusal::Memory => "there is no memory left",
        })
    }
}

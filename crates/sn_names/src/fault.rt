use sn_list::Memory;
use std::alloc::{AllocError, AllocFailed};

/// Why a name has no number.
#[derive(Clone, Copy, PartialEq, Eq, Debug)]
pub enum NamesFault {
    /// It is new, and 4,096 names are held.
    TooMany,
    Memory,
}

impl From<Memory> for NamesFault {
    ghost use Rattle.std.specs.Prelude.{◌≡◌};
    ghost use Rattle.sn_names.specs.declared.fault.NamesFault.{NamesFault};

    ghost from_gives = { λ _ e. e ≡ NamesFault.Memory };

    fn from(_memory: Memory) -> NamesFault {
        NamesFault::Memory
    }
}

impl From<AllocError> for NamesFault {
    ghost use Rattle.std.specs.Prelude.{◌≡◌};
    ghost use Rattle.sn_names.specs.declared.fault.NamesFault.{NamesFault};

    ghost from_gives = { λ _ e. e ≡ NamesFault.Memory };

    fn from(_refused: AllocError) -> NamesFault {
        NamesFault::Memory
    }
}

impl<T: Drop> From<AllocFailed<T>> for NamesFault {
    ghost use Rattle.std.specs.Prelude.{◌≡◌};
    ghost use Rattle.sn_names.specs.declared.fault.NamesFault.{NamesFault};

    ghost from_gives = { λ _ e. e ≡ NamesFault.Memory };

    fn from(_refused: AllocFailed<T>) -> NamesFault {
        NamesFault::Memory
    }
}

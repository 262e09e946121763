//! Why names do not fit.

use sn_list::Memory;

/// Why a program is not resolved. A place is a byte offset in the source.
#[derive(Clone, Copy, Debug)]
pub enum ScopeFault {
    /// A name that isn't visible or isn't of the kind wanted, or a label that its pattern doesn't have. In a box: a name that is
    /// no variable there, or a call of no function.
    Unknown(u32),
    /// A second declaration of a name in one scope, or a second equal label. In a box: a second function of one name, one with
    /// the name of a built-in function, or a second equal parameter.
    Twice(u32),
    /// A number of templates, patterns or branches that is not allowed. In a box: more than 8 parameters, arguments in another
    /// number than the function takes, or an output tuple that is not there or has more or fewer labels.
    Arity(u32),
    /// No outermost net `main` with a signature.
    NoMain,
    /// A tag of a guard that its exit pattern doesn't have.
    GuardTag(u32),
    /// The name of the first claim whose tree is too high, has too wide a face, or with which all trees have too many
    /// nodes.
    TooLarge(u32),
    Memory,
    /// The labels have more than 4,096 different names.
    TooManyNames,
}

impl From<Memory> for ScopeFault {
    ghost use Rattle.std.specs.Prelude.{◌≡◌};
    ghost use Rattle.sn_label_scope.specs.declared.fault.ScopeFault.{ScopeFault};

    ghost from_gives = { λ _ e. e ≡ ScopeFault.Memory };

    fn from(_: Memory) -> ScopeFault {
        ScopeFault::Memory
    }
}

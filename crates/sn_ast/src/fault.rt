//! Why a source is none.

use sn_list::Memory as WantedMemory;

/// Why a source is refused, with the place in its bytes.
#[derive(Clone, Copy, Debug, PartialEq, Eq)]
pub enum ParseFault {
    /// The first token that no program goes on with, or the source's length where all its tokens begin one.
    Unexpected(u32),
    /// The name of the first declaration of the outermost scope that is higher than 64, or has more than 128 counted
    /// parentheses open at once.
    TooDeep(u32),
    Memory,
}

impl From<WantedMemory> for ParseFault {
    ghost use Rattle.std.specs.Prelude.{◌≡◌};
    ghost use Rattle.sn_ast.specs.declared.fault.ParseFault.TheVariants.{Memory};

    ghost from_gives = { λ _ e. e ≡ Memory };

    fn from(_: WantedMemory) -> ParseFault {
        ParseFault::Memory
    }
}

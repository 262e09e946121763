use sn_list::{Memory as WantedMemory, Seq};

/// The signs that give a record and a list their form.
#[derive(Clone, Copy, PartialEq, Eq)]
pub enum Mark {
    OpenRecord,
    CloseRecord,
    OpenList,
    CloseList,
    Comma,
    Equals,
}

/// A word of a line.
#[derive(PartialEq, Eq, Drop)]
pub enum Token {
    Mark(Mark),
    /// The bytes of a name. A keyword of the language is one too.
    Name(Seq<u8>),
    /// The bytes of what stands in angle brackets: a name, behind `#` in a binding tag.
    Tag(Seq<u8>),
    Number(i64),
    /// What a text says, without its quotes and escapes: bytes 0x20 to 0x7E.
    Text(Seq<u8>),
}

/// Why a line has no tokens.
#[derive(Clone, Copy, PartialEq, Eq, Debug)]
pub enum TokenFault {
    /// It has what is no token.
    Wrong,
    Memory,
}

impl From<WantedMemory> for TokenFault {
    ghost use Rattle.std.specs.Prelude.{◌≡◌};
    ghost use Rattle.sn_record_tokens.specs.declared.token.TokenFault.{TokenFault};

    ghost from_gives = { λ _ e. e ≡ TokenFault.Memory };

    fn from(_wanted: WantedMemory) -> TokenFault {
        TokenFault::Memory
    }
}

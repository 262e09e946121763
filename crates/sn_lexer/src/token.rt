use sn_list::Memory as WantedMemory;

#[derive(Clone, Copy, PartialEq, Eq)]
pub enum TokenKind {
    Ident,
    Keyword,
    /// An identifier in angle brackets, behind `#` in a binding tag, with nothing between.
    Tag,
    Number,
    Text,
    Symbol,
}

/// A word of a source: its bytes from `start` up to before `end`.
#[derive(Clone, Copy, PartialEq, Eq)]
pub struct Token {
    pub kind: TokenKind,
    pub start: u32,
    pub end: u32,
}

/// Why a source is refused, with the place in its bytes.
#[derive(Clone, Copy, Debug, PartialEq, Eq)]
pub enum LexFault {
    /// The first sequence of bytes that is no character in UTF-8.
    BadUtf8(u32),
    /// A character that begins no token, or a backslash in a text that escapes nothing.
    BadChar(u32),
    /// The first digit of a number past 9223372036854775807.
    NumberTooWide(u32),
    /// The opening of a text or of a comment that is not closed.
    TextOpen(u32),
    Memory,
}

impl From<WantedMemory> for LexFault {
    ghost use Rattle.std.specs.Prelude.{◌≡◌};
    ghost use Rattle.sn_lexer.specs.declared.token.LexFault.{LexFault};

    ghost from_gives = { λ _ e. e ≡ LexFault.Memory };

    fn from(_wanted: WantedMemory) -> LexFault {
        LexFault::Memory
    }
}

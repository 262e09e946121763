//! Lines and columns.
ghost use Rattle.std.specs.Prelude.{◌≡◌, ◌≤◌, length};
ghost use Rattle.sn_place.specs.Place.{begins_character, IsAt};

/// A line and a column, counted from 1. A column counts characters.
#[derive(Clone, Copy, Debug, PartialEq, Eq)]
pub struct Position {
    pub line: usize,
    pub column: usize,
}

/// Whether the byte is the first of a character.
pub fn begins_character(byte: u8) -> bool
    ensures { result ≡ begins_character byte }
{
    byte < 0x80 || byte >= 0xC0
}

/// The position of the later of two places, of which the earlier one's is known.
pub(crate) fn walk(text: &[u8], from: usize, to: usize, start: Position) -> Position
    requires order { from ≤ to }
    requires within { to ≤ length text.now }
    requires known { IsAt text.now from start }
    ensures { IsAt text.now to result }
{
    let mut line = start.line;
    let mut column = start.column;
    for i in from..to {
        let byte = text[i];
        if byte == b'\n' {
            line += 1;
            column = 1;
        } else if begins_character(byte) {
            column += 1;
        }
    }
    Position { line, column }
}

/// The position of a place, by a walk over all that stands in front of it. Who asks for many places of one text takes `Places`.
pub fn position_at(text: &[u8], at: usize) -> Position
    requires { at ≤ length text.now }
    ensures { IsAt text.now at result }
{
    walk(text, 0, at, Position { line: 1, column: 1 })
}

//! Texts of nodes, cut to a width.
use sn_list::{Memory, Seq};
use sn_place::begins_character;
use sn_record::Text;
use std::alloc::Global;

/// So many characters a line has, before the next blank, comma or semicolon ends it.
const WIDTH: usize = 40;

/// So many it has at most.
const MOST_WIDTH: usize = 52;

/// Of so many characters a longer text shows its beginning.
const MOST: usize = 192;

/// Whether a line may end between two bytes of which none is a blank.
fn may_part(previous: u8, byte: u8) -> bool {
    byte != b' ' && (previous == b',' || previous == b';')
}

/// A text in lines of some 40 characters, the first 192 of it.
pub fn wrapped(alloc: Global, text: &[u8]) -> Result<Text, Memory> {
    let mut lines = Seq::new(alloc);
    let mut column = 0usize;
    let mut count = 0usize;
    let mut previous = b' ';
    for byte in text {
        if begins_character(*byte) {
            if count >= MOST {
                lines.extend_from_slice(b" ...")?;
                return Ok(lines);
            }
            count += 1;
            if column >= MOST_WIDTH || (column > WIDTH && may_part(previous, *byte)) {
                lines.extend_from_slice(b"\n")?;
                column = 0;
            }
            column += 1;
        }
        if *byte == b' ' && column > WIDTH {
            lines.extend_from_slice(b"\n")?;
            column = 0;
        } else {
            lines.extend_from_slice(&[*byte])?;
        }
        previous = *byte;
    }
    Ok(lines)
}

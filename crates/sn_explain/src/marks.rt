//! The line below a line that is shown.
use sn_list::{Memory, Seq};
use sn_place::begins_character;
use sn_record::Text;
use std::alloc::Global;

/// Bytes of a file, from `start` up to before `end`, that are meant.
#[derive(Clone, Copy, PartialEq, Eq)]
pub struct Range {
    pub start: usize,
    pub end: usize,
}

fn is_marked(place: usize, ranges: &[Range]) -> bool {
    ranges
        .iter()
        .any(|range| range.start <= place && place < range.end)
}

/// Where the last of the ranges ends.
fn last_end(ranges: &[Range]) -> usize {
    let mut last = 0;
    for range in ranges {
        last = range.end.max(last);
    }
    last
}

/// Carets under what is marked of a line's part, which begins at a place of the file, and blanks under the rest. Tabs stay tabs. What is marked
/// behind the part has a caret behind its last character.
pub fn marks_under(
    alloc: Global,
    shown: &[u8],
    place: usize,
    ranges: &[Range],
) -> Result<Text, Memory> {
    let mut marks = Seq::new(alloc);
    let last = last_end(ranges);
    for (i, byte) in shown.iter().enumerate() {
        let here = place.saturating_add(i);
        if here < last && begins_character(*byte) {
            let mark: &[u8] = match (is_marked(here, ranges), *byte) {
                (true, _) => b"^",
                (false, b'\t') => b"\t",
                (false, _) => b" ",
            };
            marks.extend_from_slice(mark)?;
        }
    }
    if is_marked(place.saturating_add(shown.len()), ranges) {
        marks.extend_from_slice(b"^")?;
    }
    Ok(marks)
}

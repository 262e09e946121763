//! Where a label stands on a line of a record file.
use crate::marks::Range;
use sn_list::{Memory, Seq};
use sn_stack::append;
use std::alloc::Global;

/// Whether a name may have the byte.
fn is_of_name(byte: u8) -> bool {
    byte.is_ascii_alphanumeric() || byte == b'_' || byte >= 0x80
}

/// Whether a name ends in front of the place, and the tag's bracket does not stand there.
fn may_begin(line: &[u8], at: usize) -> bool {
    if at == 0 || at > line.len() {
        return true;
    }
    let before = line[at - 1];
    !is_of_name(before) && before != b'<'
}

fn may_end(line: &[u8], at: usize) -> bool {
    match line.get(at) {
        Some(byte) => !is_of_name(*byte),
        None => true,
    }
}

/// Where a label stands on a line from a place on, outside of texts.
pub fn occurrences(
    alloc: Global,
    line: &[u8],
    start: usize,
    label: &[u8],
) -> Result<Seq<Range>, Memory> {
    let mut found = Seq::new(alloc);
    let mut is_text = false;
    let mut is_escaped = false;
    for at in 0..line.len() {
        let byte = line[at];
        if is_text {
            is_text = is_escaped || byte != b'"';
            is_escaped = !is_escaped && byte == b'\\';
        } else if byte == b'"' {
            is_text = true;
        } else if line[at..].starts_with(label) && may_begin(line, at) {
            let end = at.saturating_add(label.len());
            if may_end(line, end) {
                let start = start.saturating_add(at);
                let end = start.saturating_add(label.len());
                append(&mut found, Range { start, end })?;
            }
        }
    }
    Ok(found)
}

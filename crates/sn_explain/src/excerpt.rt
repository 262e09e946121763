//! What is shown of a file for a place.
ghost use Rattle.std.specs.Prelude.{◌≡◌, ◌≤◌, length, IfOk};
ghost use Rattle.sn_explain.specs.Excerpts.{IsExcerpt};

use crate::explanation::File;
use crate::marks::{Range, marks_under};
use sn_list::Memory;
use sn_place::{Position, begins_character, line_around, position_at};
use sn_record::Text;
use std::alloc::Global;

/// A line of so many bytes is shown whole.
const WIDTH: usize = 120;

/// Of a longer one so many bytes on each side of the place.
const AROUND: usize = 56;

/// The part of a file that is shown for a place.
#[derive(Drop)]
pub struct Excerpt<'a> {
    /// The name of the file.
    pub name: &'a [u8],
    pub position: Position,
    /// The line, or a part of it.
    pub shown: &'a [u8],
    /// How many bytes of the line stand in front of that part, and how many the line has.
    pub from: usize,
    pub whole: usize,
    /// What stands below: carets under what is meant.
    pub marks: Text,
}

/// Which part of a line is shown, around a place in it.
fn window(line: &[u8], place: usize) -> (usize, usize)
    requires { place ≤ length line.now }
    ensures before { result.0 ≤ place }
    ensures after { place ≤ result.1 }
    ensures within { result.1 ≤ length line.now }
{
    if line.len() <= WIDTH {
        return (0, line.len());
    }
    let mut from = place.saturating_sub(AROUND);
    while from < place && !begins_character(line[from]) {
        from += 1;
    }
    let mut to = place.saturating_add(AROUND).min(line.len());
    while to > place && to < line.len() && !begins_character(line[to]) {
        to -= 1;
    }
    (from, to)
}

/// What is shown of a file for a place, with these ranges of its bytes marked.
pub fn excerpt_at<'a>(
    alloc: Global,
    file: &File<'a>,
    at: usize,
    ranges: &[Range],
) -> Result<Excerpt<'a>, Memory>
    requires { at ≤ length file.now.text.now }
    ensures { IfOk result (λ x. IsExcerpt file.now.text.now at x) }
{
    let text = file.text;
    let (start, end) = line_around(text, at);
    let line = &text[start..end];
    let (from, to) = window(line, at - start);
    let shown = &line[from..to];
    let marks = marks_under(alloc, shown, start + from, ranges)?;
    Ok(Excerpt {
        name: file.name,
        position: position_at(text, at),
        shown,
        from,
        whole: line.len(),
        marks,
    })
}

//! Lines, one after another.
use crate::command::Direction;
use crate::refusal::{Cause, Refusal};
use sn_json::{json_of_lines, line_of_json};
use sn_record::Text;
use std::alloc::Global;
use std::io::{BufRead, Write};

/// The most bytes of a line.
const LINE_LIMIT: usize = 16_777_216;

/// Whether nothing but blanks stands in the line.
fn is_blank(line: &[u8]) -> bool {
    line.iter().all(|byte| byte.is_ascii_whitespace())
}

/// What a line that is not blank becomes.
fn converted(alloc: Global, direction: Direction, line: &[u8]) -> Result<Text, Cause> {
    if line.len() > LINE_LIMIT {
        return Err(Cause::Length);
    }
    match direction {
        Direction::FromJson => Ok(line_of_json(alloc, line)?),
        Direction::ToJson => Ok(json_of_lines(alloc, line)?),
    }
}

/// Converts the lines of the reader, up to the first that is refused. Lines of blanks alone are passed over. Only one line is held at a time.
///
/// # Errors
///
/// `Line` with the number of the line that is refused, counted from 1, of which nothing is written; `Read`, `Write` and `Memory`.
pub fn convert<R: BufRead, W: Write>(
    alloc: Global,
    direction: Direction,
    reader: &mut R,
    writer: &mut W,
) -> Result<(), Refusal> {
    let mut line = Vec::new(alloc);
    for number in 1..u64::MAX {
        line.clear();
        if reader.read_until(b'\n', &mut line)? == 0 {
            return Ok(());
        }
        if is_blank(line.as_slice()) {
            continue;
        }
        let text = match converted(alloc, direction, line.as_slice()) {
            Ok(text) => text,
            Err(Cause::Memory) => return Err(Refusal::Memory),
            Err(cause) => return Err(Refusal::Line(number, cause)),
        };
        if writer.write_all(text.as_slice()).is_err() {
            return Err(Refusal::Write);
        }
    }
    Ok(())
}

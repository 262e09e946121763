//! Lines, one after another.
use crate::refusal::Refusal;
use sn_explain::{Given, explain_line};
use sn_list::Seq;
use sn_record::Text;
use std::alloc::Global;
use std::io::{BufRead, Write};

/// Appends what is written of a piece of the input: a line, which the last may be without its line feed.
fn explain_piece(
    alloc: Global,
    given: &Given<'_>,
    paint: bool,
    piece: &[u8],
    out: &mut Text,
) -> Result<(), Refusal> {
    match piece {
        [line @ .., b'\n'] => Ok(explain_line(alloc, given, line, paint, out)?),
        _ => {
            let mut explained = Seq::new(alloc);
            explain_line(alloc, given, piece, paint, &mut explained)?;
            // What is passed on gets no line feed that it did not have.
            let is_passed = explained.len() == piece.len().saturating_add(1);
            let whole: &[u8] = if is_passed {
                piece
            } else {
                explained.as_slice()
            };
            Ok(out.extend_from_slice(whole)?)
        }
    }
}

/// Explains the lines of the reader. Only one line is held at a time.
///
/// # Errors
///
/// `Read`, `Write` and `Memory`.
pub fn explain_all<R: BufRead, W: Write>(
    alloc: Global,
    given: &Given<'_>,
    paint: bool,
    reader: &mut R,
    writer: &mut W,
) -> Result<(), Refusal> {
    let mut piece = Vec::new(alloc);
    for _ in 0..u64::MAX {
        piece.clear();
        if reader.read_until(b'\n', &mut piece)? == 0 {
            return Ok(());
        }
        let mut text = Seq::new(alloc);
        explain_piece(alloc, given, paint, piece.as_slice(), &mut text)?;
        if writer.write_all(text.as_slice()).is_err() {
            return Err(Refusal::Write);
        }
    }
    Ok(())
}

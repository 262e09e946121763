//! The text that explains a line.
ghost use Rattle.std.specs.Prelude.{◌≡◌, ◌++◌, OnOk};
ghost use Rattle.std.specs.List.{flat_map};
ghost use Rattle.std.specs.Fmt.{decimal};
ghost use Rattle.sn_explain.specs.Rendered.{framed, marked, plain, margin, cut_in_front, cut_behind, below_cut, place_row, line_row, marks_row, marks_text, note_row, digits_beside, excerpt_rows, explained};

use crate::excerpt::Excerpt;
use crate::explanation::Explanation;
use itoa::Buffer;
use sn_list::Memory;
use sn_record::Text;

fn framed(paint: bool) -> &'static [u8]
    ensures { result.now ≡ framed paint }
{
    if paint { b"\x1b[1;34m" } else { b"" }
}

fn marked(paint: bool) -> &'static [u8]
    ensures { result.now ≡ marked paint }
{
    if paint { b"\x1b[1;31m" } else { b"" }
}

fn plain(paint: bool) -> &'static [u8]
    ensures { result.now ≡ plain paint }
{
    if paint { b"\x1b[0m" } else { b"" }
}

fn cut_in_front(excerpt: &Excerpt<'_>) -> &'static [u8]
    ensures { result.now ≡ cut_in_front excerpt.now }
{
    if excerpt.from > 0 { b".. " } else { b"" }
}

fn below_cut(excerpt: &Excerpt<'_>) -> &'static [u8]
    ensures { result.now ≡ below_cut excerpt.now }
{
    if excerpt.from > 0 { b"   " } else { b"" }
}

fn push_number(out: &mut Text, number: usize) -> Result<(), Memory>
    ensures { OnOk result (out.new ≡ out.old ++ decimal number) }
{
    let mut buffer = Buffer::new();
    out.extend_from_slice(buffer.format(number).as_bytes())
}

/// Appends as many blanks as there are digits.
fn push_margin(out: &mut Text, digits: &[u8]) -> Result<(), Memory>
    ensures { OnOk result (out.new ≡ out.old ++ margin digits.now) }
{
    for _digit in digits {
        out.extend_from_slice(b" ")?;
    }
    Ok(())
}

fn cut_behind(excerpt: &Excerpt<'_>) -> &'static [u8]
    ensures { result.now ≡ cut_behind excerpt.now }
{
    if excerpt.whole > excerpt.from && excerpt.whole - excerpt.from > excerpt.shown.len() {
        b" .."
    } else {
        b""
    }
}

/// Appends a frame between two colours.
fn push_frame(out: &mut Text, text: &[u8], paint: bool) -> Result<(), Memory>
    ensures { OnOk result (out.new ≡ out.old ++ framed paint ++ text.now ++ plain paint) }
{
    out.extend_from_slice(framed(paint))?;
    out.extend_from_slice(text)?;
    out.extend_from_slice(plain(paint))
}

/// Appends the row with the file, the line and the column.
fn push_place_row(
    out: &mut Text,
    excerpt: &Excerpt<'_>,
    digits: &[u8],
    paint: bool,
) -> Result<(), Memory>
    requires { digits.now ≡ decimal excerpt.now.position.line }
    ensures { OnOk result (out.new ≡ out.old ++ place_row paint excerpt.now) }
{
    push_margin(out, digits)?;
    push_frame(out, b"--> ", paint)?;
    out.extend_from_slice(excerpt.name)?;
    out.extend_from_slice(b":")?;
    out.extend_from_slice(digits)?;
    out.extend_from_slice(b":")?;
    push_number(out, excerpt.position.column)?;
    out.extend_from_slice(b"\n")
}

/// Appends the row with the line, or the part of it that is shown.
fn push_line_row(
    out: &mut Text,
    excerpt: &Excerpt<'_>,
    digits: &[u8],
    paint: bool,
) -> Result<(), Memory>
    requires { digits.now ≡ decimal excerpt.now.position.line }
    ensures { OnOk result (out.new ≡ out.old ++ line_row paint excerpt.now) }
{
    out.extend_from_slice(framed(paint))?;
    out.extend_from_slice(digits)?;
    out.extend_from_slice(b" | ")?;
    out.extend_from_slice(plain(paint))?;
    out.extend_from_slice(cut_in_front(excerpt))?;
    out.extend_from_slice(excerpt.shown)?;
    out.extend_from_slice(cut_behind(excerpt))?;
    out.extend_from_slice(b"\n")
}

/// Appends carets.
fn push_marks(out: &mut Text, excerpt: &Excerpt<'_>, paint: bool) -> Result<(), Memory>
    ensures { OnOk result (out.new ≡ out.old ++ marks_text paint excerpt.now) }
{
    out.extend_from_slice(marked(paint))?;
    out.extend_from_slice(below_cut(excerpt))?;
    out.extend_from_slice(excerpt.marks.as_slice())?;
    out.extend_from_slice(plain(paint))?;
    out.extend_from_slice(b"\n")
}

/// Appends the row with what is marked.
fn push_marks_row(
    out: &mut Text,
    excerpt: &Excerpt<'_>,
    digits: &[u8],
    paint: bool,
) -> Result<(), Memory>
    requires { digits.now ≡ decimal excerpt.now.position.line }
    ensures { OnOk result (out.new ≡ out.old ++ marks_row paint excerpt.now) }
{
    push_margin(out, digits)?;
    out.extend_from_slice(framed(paint))?;
    out.extend_from_slice(b" | ")?;
    push_marks(out, excerpt, paint)
}

/// Appends the rows of what is shown.
fn push_excerpt(
    out: &mut Text,
    excerpt: &Excerpt<'_>,
    digits: &[u8],
    paint: bool,
) -> Result<(), Memory>
    requires { digits.now ≡ decimal excerpt.now.position.line }
    ensures { OnOk result (out.new ≡ out.old ++ (place_row paint excerpt.now ++ line_row paint excerpt.now ++ marks_row paint excerpt.now)) }
{
    push_place_row(out, excerpt, digits, paint)?;
    push_line_row(out, excerpt, digits, paint)?;
    push_marks_row(out, excerpt, digits, paint)
}

fn push_note(out: &mut Text, note: &[u8], digits: &[u8], paint: bool) -> Result<(), Memory>
    ensures { OnOk result (out.new ≡ out.old ++ note_row paint digits.now note.now) }
{
    push_margin(out, digits)?;
    push_frame(out, b" = ", paint)?;
    out.extend_from_slice(note)?;
    out.extend_from_slice(b"\n")
}

fn push_notes(out: &mut Text, notes: &[Text], digits: &[u8], paint: bool) -> Result<(), Memory>
    ensures { OnOk result (out.new ≡ out.old ++ flat_map (note_row paint digits.now) notes.now) }
{
    for note in notes {
        push_note(out, note.as_slice(), digits, paint)?;
    }
    Ok(())
}

/// Appends what stands below a line.
pub fn push_explanation(
    out: &mut Text,
    explanation: &Explanation<'_>,
    paint: bool,
) -> Result<(), Memory>
    ensures { OnOk result (out.new ≡ out.old ++ explained paint explanation.now) }
{
    let notes = explanation.notes.as_slice();
    match &explanation.excerpt {
        Some(excerpt) => {
            let mut buffer = Buffer::new();
            let digits = buffer.format(excerpt.position.line).as_bytes();
            push_excerpt(out, excerpt, digits, paint)?;
            push_notes(out, notes, digits, paint)
        }
        None => push_notes(out, notes, b"0", paint),
    }
}

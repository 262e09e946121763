//! From a line to what explains it.
ghost use Rattle.std.specs.Prelude.{◌≡◌, ◌≤◌, ◌++◌, ◌∷◌, [], length, IfOk, OnOk, IfSome};
ghost use Rattle.sn_place.specs.Place.{line_at};
ghost use Rattle.sn_explain.specs.Excerpts.{IsExcerpt, IsShown};
ghost use Rattle.sn_explain.specs.Kinds.{shape_of};
ghost use Rattle.sn_explain.specs.Explanations.{IsAbout, IsExplained, Shows, ShowsSource, ShowsInput, ShowsLine};

use crate::excerpt::{Excerpt, excerpt_at};
use crate::kind::Shape;
use crate::marks::Range;
use crate::notes::{notes_of, tokens_of};
use crate::occurrences::occurrences;
use crate::reading::{Refusal, read_refusal};
use crate::render::push_explanation;
use sn_list::{Memory, Seq};
use sn_place::{line_around, numbered_line, position_at};
use sn_record::Text;
use std::alloc::Global;

/// A file, by its name and its bytes.
#[derive(Clone, Copy)]
pub struct File<'a> {
    pub name: &'a [u8],
    pub text: &'a [u8],
}

/// The files of a run.
#[derive(Clone, Copy)]
pub struct Given<'a> {
    pub source: File<'a>,
    pub input: Option<File<'a>>,
}

/// What explains a line.
#[derive(Drop)]
pub struct Explanation<'a> {
    /// The line as it came.
    pub line: &'a [u8],
    pub refusal: Refusal<'a>,
    /// The place that it names, if it names one.
    pub excerpt: Option<Excerpt<'a>>,
    pub notes: Seq<Text>,
}

/// The place that is shown for one that a line names: the end of a text is shown in front of the line feeds that end it.
fn shown_place(text: &[u8], named: usize) -> usize
    requires { named ≤ length text.now }
    ensures { IsShown text.now named result }
{
    let mut at = named;
    if named == text.len() {
        while at > 0 && text[at - 1] == b'\n' {
            at -= 1;
        }
    }
    at
}

/// The token that begins at a place of a source, or else a byte.
fn token_at(alloc: Global, source: &[u8], at: usize) -> Result<Range, Memory> {
    if let Some(tokens) = tokens_of(alloc, source)? {
        for token in tokens.as_slice() {
            if token.start as usize == at {
                let end = token.end as usize;
                return Ok(Range { start: at, end });
            }
        }
    }
    Ok(Range {
        start: at,
        end: at.saturating_add(1),
    })
}

/// What is shown of the source for a place, or nothing where it has no such place.
fn source_excerpt<'a>(
    alloc: Global,
    given: &Given<'a>,
    number: u32,
) -> Result<Option<Excerpt<'a>>, Memory>
    ensures { IfOk result (λ found. IfSome found (λ x. ShowsSource given.now number x)) }
{
    let source = &given.source;
    let named = number as usize;
    if named > source.text.len() {
        return Ok(None);
    }
    let at = shown_place(source.text, named);
    let range = token_at(alloc, source.text, at)?;
    Ok(Some(excerpt_at(alloc, source, at, &[range])?))
}

/// The place of the repeated label on a line that begins at a place, or that place.
fn repeated(text: &[u8], number: usize, start: usize, ranges: &[Range]) -> usize
    requires there { start ≤ length text.now }
    requires line { line_at text.now start ≡ number }
    ensures within { result ≤ length text.now }
    ensures line { line_at text.now result ≡ number }
{
    let Some(range) = ranges.get(1) else {
        return start;
    };
    if range.start <= text.len() && position_at(text, range.start).line == number {
        range.start
    } else {
        start
    }
}

/// What is marked of a line that begins at a place: where the label stands if one is named, or else all of it.
fn marked(alloc: Global, text: &[u8], start: usize, label: &[u8]) -> Result<Seq<Range>, Memory>
    requires { start ≤ length text.now }
{
    let (from, to) = line_around(text, start);
    if label.is_empty() {
        let end = to.max(from.saturating_add(1));
        return Ok(Seq::from_slice(alloc, &[Range { start: from, end }])?);
    }
    occurrences(alloc, &text[from..to], from, label)
}

/// The line of a file with that number, where the label stands if one is named, or nothing where it has no such line.
fn line_excerpt<'a>(
    alloc: Global,
    file: &File<'a>,
    number: usize,
    label: &[u8],
) -> Result<Option<Excerpt<'a>>, Memory>
    requires { 1 ≤ number }
    ensures { IfOk result (λ found. IfSome found (λ x. ShowsLine file.now number x)) }
{
    let Some(start) = numbered_line(file.text, number) else {
        return Ok(None);
    };
    let ranges = marked(alloc, file.text, start, label)?;
    let at = repeated(file.text, number, start, ranges.as_slice());
    Ok(Some(excerpt_at(alloc, file, at, ranges.as_slice())?))
}

/// What is shown of the input for a line, or nothing where there is no such line.
fn input_excerpt<'a>(
    alloc: Global,
    given: &Given<'a>,
    number: u32,
    label: &[u8],
) -> Result<Option<Excerpt<'a>>, Memory>
    ensures { IfOk result (λ found. IfSome found (λ x. ShowsInput given.now number x)) }
{
    match &given.input {
        Some(file) if number > 0 => line_excerpt(alloc, file, number as usize, label),
        _ => Ok(None),
    }
}

/// What is shown for what a line says. Nothing where it names no place, or one that the files do not have.
fn excerpt_of<'a>(
    alloc: Global,
    given: &Given<'a>,
    refusal: &Refusal<'_>,
) -> Result<Option<Excerpt<'a>>, Memory>
    ensures { IfOk result (λ found. IfSome found (λ x. Shows (shape_of refusal.now.kind) given.now refusal.now.number x)) }
{
    match refusal.kind.shape() {
        Shape::Nothing => Ok(None),
        Shape::Name => Ok(None),
        Shape::TraceLine => Ok(None),
        Shape::Place => source_excerpt(alloc, given, refusal.number),
        Shape::PlaceForVariant => source_excerpt(alloc, given, refusal.number),
        Shape::Line => input_excerpt(alloc, given, refusal.number, &[]),
        Shape::LineAndLabel => input_excerpt(alloc, given, refusal.number, refusal.detail),
    }
}

/// Whether a line of this shape names a place in a file.
fn names_place(shape: Shape) -> bool {
    match shape {
        Shape::Nothing => false,
        Shape::Name => false,
        Shape::TraceLine => false,
        Shape::Place => true,
        Shape::PlaceForVariant => true,
        Shape::Line => true,
        Shape::LineAndLabel => true,
    }
}

/// What explains a line, or nothing where it is none of snet's or does not fit the files.
fn explanation_of<'a>(
    alloc: Global,
    given: &Given<'a>,
    line: &'a [u8],
) -> Result<Option<Explanation<'a>>, Memory>
    ensures { IfOk result (λ found. IfSome found (IsAbout given.now line.now)) }
{
    let Some(refusal) = read_refusal(line) else {
        return Ok(None);
    };
    let excerpt = excerpt_of(alloc, given, &refusal)?;
    if excerpt.is_none() && names_place(refusal.kind.shape()) {
        return Ok(None);
    }
    let notes = notes_of(alloc, given, &refusal)?;
    Ok(Some(Explanation {
        line,
        refusal,
        excerpt,
        notes,
    }))
}

/// Appends a line of standard error, which is given without its line feed, and what explains it. A line that is none of snet's, or does not fit the
/// files, is passed on as it is. With `paint` the places are coloured for a terminal.
pub fn explain_line<'a>(
    alloc: Global,
    given: &Given<'a>,
    line: &'a [u8],
    paint: bool,
    out: &mut Text,
) -> Result<(), Memory>
    ensures { OnOk result (IsExplained given.now line.now paint out.old out.new) }
{
    out.extend_from_slice(line)?;
    out.extend_from_slice(b"\n")?;
    match explanation_of(alloc, given, line)? {
        Some(explanation) => push_explanation(out, &explanation, paint),
        None => Ok(()),
    }
}

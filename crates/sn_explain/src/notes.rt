//! What stands below a line that is shown: what is known of the place, and the sentence of the kind.
ghost use Rattle.std.specs.Prelude.{◌≤◌, length};

use crate::explanation::Given;
use crate::kind::Kind;
use crate::part::{Wanted, part_of_claims, wanted_by};
use crate::reading::Refusal;
use crate::variant::{push_lacking, push_wanted};
use sn_ast::{ParseFault, Program};
use sn_draw::Texts;
use sn_label_scope::ScopeFault;
use sn_lexer::{LexFault, Token, lex};
use sn_list::{Memory, Seq};
use sn_names::Names;
use sn_net::Net;
use sn_output::push_type;
use sn_parser::parse;
use sn_place::begins_character;
use sn_record::{LabelSet, Text};
use sn_scope::{Parts, resolve};
use sn_stack::append;
use std::alloc::Global;

/// The most bytes of a source.
const SOURCE_LIMIT: usize = 1_048_576;

/// So many variants that a part takes are told.
const MOST_VARIANTS: usize = 6;

/// So many bytes of a part's text are shown.
const MOST_TEXT: usize = 160;

/// Appends the variants that a part takes, and which of their labels a variant lacks.
fn push_all_wanted(
    alloc: Global,
    text: &mut Text,
    names: &Names,
    wanted: &[Wanted],
    variant: &[u8],
) -> Result<(), Memory> {
    let shown = &wanted[..wanted.len().min(MOST_VARIANTS)];
    for (i, labels) in shown.iter().enumerate() {
        text.extend_from_slice(if i > 0 { b" | " } else { b"it takes " })?;
        push_wanted(alloc, text, names, labels.as_slice())?;
    }
    if wanted.len() > MOST_VARIANTS {
        text.extend_from_slice(b" | ..")?;
    }
    text.extend_from_slice(b"; ")?;
    text.extend_from_slice(variant)?;
    for (i, labels) in shown.iter().enumerate() {
        text.extend_from_slice(if i > 0 { b" | " } else { b" lacks " })?;
        push_lacking(alloc, text, names, labels.as_slice(), variant)?;
    }
    Ok(())
}

/// What the part at a place takes, and what a variant lacks for it.
fn route_note(
    alloc: Global,
    parts: &Parts,
    place: u32,
    variant: &[u8],
) -> Result<Option<Text>, Memory> {
    let Some(net) = part_of_claims(parts.claims.as_slice(), place) else {
        return Ok(None);
    };
    let wanted = wanted_by(alloc, net, parts.boxes.as_slice())?;
    if wanted.is_empty() {
        return Ok(None);
    }
    let mut text = Seq::new(alloc);
    push_all_wanted(alloc, &mut text, &parts.names, wanted.as_slice(), variant)?;
    Ok(Some(text))
}

/// A type behind some words.
fn type_note(
    alloc: Global,
    words: &[u8],
    variants: &[LabelSet],
    names: &Names,
) -> Result<Option<Text>, Memory> {
    let mut text = Seq::from_slice(alloc, words)?;
    push_type(alloc, &mut text, variants, names)?;
    Ok(Some(text))
}

/// The output type of the net whose name stands at a place.
fn output_note(alloc: Global, parts: &Parts, place: u32) -> Result<Option<Text>, Memory> {
    for claim in parts.claims.as_slice() {
        if claim.place == place {
            let output = claim.output.as_slice();
            return type_note(alloc, b"the output type is ", output, &parts.names);
        }
    }
    Ok(None)
}

/// The input type of the main net.
fn input_note(alloc: Global, parts: &Parts) -> Result<Option<Text>, Memory> {
    match parts.claims.as_slice().get(parts.main as usize) {
        Some(claim) => {
            let input = claim.input.as_slice();
            type_note(alloc, b"the input type of main is ", input, &parts.names)
        }
        None => Ok(None),
    }
}

/// The first bytes of a text, up to a character's end.
fn beginning(text: &[u8]) -> &[u8] {
    if text.len() <= MOST_TEXT {
        return text;
    }
    let mut end = MOST_TEXT;
    while end > 0 && !begins_character(text[end]) {
        end -= 1;
    }
    &text[..end]
}

/// The canonical text of the component at a place.
fn component_note(
    alloc: Global,
    program: &Program,
    parts: &Parts,
    place: u32,
) -> Result<Option<Text>, Memory> {
    let Some(net) = part_of_claims(parts.claims.as_slice(), place) else {
        return Ok(None);
    };
    let texts = Texts::of(alloc, program)?;
    let (words, text): (&[u8], &[u8]) = match net {
        Net::Box { number, .. } => (b"it is ", texts.of_box(*number)),
        Net::Star { .. } => (b"it is a star", texts.at(place)),
        _ => (b"it is ", texts.at(place)),
    };
    if text.is_empty() {
        return Ok(None);
    }
    let mut note = Seq::from_slice(alloc, words)?;
    let shown = beginning(text);
    note.extend_from_slice(shown)?;
    if shown.len() < text.len() {
        note.extend_from_slice(b" ..")?;
    }
    Ok(Some(note))
}

/// What a program says of the place that a line names.
fn program_note(
    alloc: Global,
    program: &Program,
    parts: &Parts,
    refusal: &Refusal<'_>,
) -> Result<Option<Text>, Memory> {
    match refusal.kind {
        Kind::NoRoute => route_note(alloc, parts, refusal.number, refusal.detail),
        Kind::BadOutput => output_note(alloc, parts, refusal.number),
        Kind::Untyped => input_note(alloc, parts),
        _ => component_note(alloc, program, parts, refusal.number),
    }
}

/// Whether more than its kind can be said of a line where its source is a program.
fn speaks_of_network(kind: Kind) -> bool {
    match kind {
        Kind::NoRoute => true,
        Kind::BadOutput => true,
        Kind::Untyped => true,
        Kind::Fuel => true,
        Kind::Overflow => true,
        Kind::DivZero => true,
        Kind::WrongKind => true,
        Kind::Index => true,
        Kind::Depth => true,
        _ => false,
    }
}

/// The tokens of a source, if it has any.
pub fn tokens_of(alloc: Global, source: &[u8]) -> Result<Option<Seq<Token>>, Memory> {
    if source.len() > SOURCE_LIMIT {
        return Ok(None);
    }
    match lex(alloc, source) {
        Ok(tokens) => Ok(Some(tokens)),
        Err(LexFault::Memory) => Err(Memory),
        Err(_) => Ok(None),
    }
}

/// The program of a source, if it is one.
fn program_of(alloc: Global, source: &[u8]) -> Result<Option<Program>, Memory> {
    if source.len() > SOURCE_LIMIT {
        return Ok(None);
    }
    let tokens = match lex(alloc, source) {
        Ok(tokens) => tokens,
        Err(LexFault::Memory) => return Err(Memory),
        Err(_) => return Ok(None),
    };
    match parse(alloc, source, tokens.as_slice()) {
        Ok(program) => Ok(Some(program)),
        Err(ParseFault::Memory) => Err(Memory),
        Err(_) => Ok(None),
    }
}

/// What a source says of the place that a line names, if it is a program.
fn source_note(
    alloc: Global,
    source: &[u8],
    refusal: &Refusal<'_>,
) -> Result<Option<Text>, Memory> {
    let Some(program) = program_of(alloc, source)? else {
        return Ok(None);
    };
    match resolve(alloc, &program) {
        Ok(resolved) => program_note(alloc, &program, resolved.as_parts(), refusal),
        Err(ScopeFault::Memory) => Err(Memory),
        Err(_) => Ok(None),
    }
}

/// What stands below a line: what is known of the place that it names, and the sentence of its kind.
pub fn notes_of(
    alloc: Global,
    given: &Given<'_>,
    refusal: &Refusal<'_>,
) -> Result<Seq<Text>, Memory> {
    let mut notes = Seq::new(alloc);
    if speaks_of_network(refusal.kind) {
        if let Some(note) = source_note(alloc, given.source.text, refusal)? {
            append(&mut notes, note)?;
        }
    }
    append(&mut notes, Seq::from_slice(alloc, refusal.kind.sentence())?)?;
    Ok(notes)
}

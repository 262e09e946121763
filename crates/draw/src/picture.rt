//! From the bytes of a source to a picture.
ghost use Rattle.std.specs.Prelude.{◌≤◌, length};
ghost use Rattle.std.specs.List.{All};
ghost use Rattle.sn_net.specs.WellFormed.{FitsBoxes};
ghost use Rattle.sn_typing.specs.Accepted.{IsAccepted};
ghost use Rattle.sn_load.specs.declared.load.TheConstants.{SOURCE_LIMIT};

use crate::claim::place_of;
use crate::command::Command;
use crate::plan::{Drawn, push_plan};
use crate::refusal::Refusal;
use sn_ast::Program;
use sn_draw::{Statement, Texts, dot_text, draw_net};
use sn_flow::{FlowFault, Stop as VisitStop, Table, check, visit_each};
use sn_lexer::lex;
use sn_list::{Held, Seq};
use sn_load::tell_fault;
use sn_names::Names;
use sn_net::{Boxes, Claim, Net};
use sn_output::push_type;
use sn_parser::parse;
use sn_place::Places;
use sn_plan::plan;
use sn_record::{LabelSet, Text};
use sn_scope::{Parts, resolve};
use sn_stop::Stop;
use std::alloc::Global;

/// What the parts of a network are told with.
#[derive(Drop)]
struct Pen<'a> {
    names: &'a Names,
    texts: &'a Texts,
    places: &'a Places<'a>,
}

/// What is wrong in the types of a claim, with the place by line and column.
fn told(alloc: Global, stop: &Stop, places: &Places<'_>) -> Result<Text, Refusal> {
    let (before, detail, behind) = stop.detail();
    let mut text = Seq::from_slice(alloc, stop.label())?;
    if let Some(position) = places.at(stop.place() as usize) {
        let line = position.line;
        let column = position.column;
        text.extend_from_slice(format!(in alloc; "{line}:{column}")?.as_bytes())?;
    }
    text.extend_from_slice(before)?;
    text.extend_from_slice(detail)?;
    text.extend_from_slice(behind)?;
    Ok(text)
}

/// The title of a claim's picture: the net with its types.
fn title(alloc: Global, name: &[u8], names: &Names, claim: &Claim) -> Result<Text, Refusal> {
    let mut text = Seq::from_slice(alloc, b"net ")?;
    text.extend_from_slice(name)?;
    text.extend_from_slice(b"\n")?;
    push_type(alloc, &mut text, claim.input.as_slice(), names)?;
    text.extend_from_slice(b" -> ")?;
    push_type(alloc, &mut text, claim.output.as_slice(), names)?;
    Ok(text)
}

/// Appends why a claim's types are refused, on a line of its own, and where a plan is asked for that there is none.
fn push_refusal(
    alloc: Global,
    title: &mut Text,
    pen: &Pen<'_>,
    fault: &FlowFault,
    is_planned: bool,
) -> Result<(), Refusal> {
    if is_planned {
        title.extend_from_slice(b"\nnot planned")?;
    }
    let why = told(alloc, &tell_fault(alloc, pen.names, fault), pen.places)?;
    title.extend_from_slice(b"\n")?;
    title.extend_from_slice(why.as_slice())?;
    Ok(())
}

/// What reaches each part of a network where these variants come to it. There is no table where more than 1,024 variants come to a part.
fn table_of(
    alloc: Global,
    net: &Net,
    boxes: &Boxes,
    input: &[LabelSet],
) -> Result<Option<Table>, Refusal>
    requires { FitsBoxes boxes.now net.now }
{
    match visit_each(alloc, net, boxes, input) {
        Ok(table) => Ok(Some(table)),
        Err(VisitStop::TooMany) => Ok(None),
        Err(VisitStop::Memory) => Err(Refusal::Memory),
    }
}

/// The statements of a network with what flows in it where these variants come to it.
fn with_flow(
    alloc: Global,
    pen: &Pen<'_>,
    net: &Net,
    boxes: &Boxes,
    input: &[LabelSet],
) -> Result<Seq<Statement>, Refusal>
    requires { FitsBoxes boxes.now net.now }
{
    let table = table_of(alloc, net, boxes, input)?;
    Ok(draw_net(alloc, net, pen.names, pen.texts, pen.places, table.as_ref())?)
}

/// The picture of a claim's network as it stands in the source.
fn draw_written(
    alloc: Global,
    pen: &Pen<'_>,
    title: &[u8],
    claim: &Claim,
    boxes: &Boxes,
) -> Result<Text, Refusal>
    requires { FitsBoxes boxes.now claim.now.net }
{
    let statements = with_flow(alloc, pen, &claim.net, boxes, claim.input.as_slice())?;
    Ok(dot_text(alloc, title, statements.as_slice())?)
}

/// Appends to the title what the plan dropped of a claim's network, where the picture of the planned one has these statements.
fn push_dropped(
    alloc: Global,
    pen: &Pen<'_>,
    title: &mut Text,
    claim: &Claim,
    net: &Net,
    statements: &[Statement],
) -> Result<(), Refusal> {
    let written = draw_net(alloc, &claim.net, pen.names, pen.texts, pen.places, None)?;
    let whole = Drawn {
        net: &claim.net,
        statements: written.as_slice(),
    };
    let planned = Drawn { net, statements };
    push_plan(alloc, title, &whole, &planned)
}

/// The picture of an accepted claim's network as it is planned, with what the plan dropped behind the title.
fn draw_planned(
    alloc: Global,
    pen: &Pen<'_>,
    title: &mut Text,
    claim: &Claim,
    boxes: &Boxes,
) -> Result<Text, Refusal>
    requires formed { FitsBoxes boxes.now claim.now.net }
    requires accepted { ∥ IsAccepted boxes.now claim.now ∥₁ }
{
    let net = plan(alloc, claim, boxes)?;
    let net = Held { value: net };
    let statements = with_flow(alloc, pen, &net.value, boxes, claim.input.as_slice())?;
    let statements = Held { value: statements };
    let picture = statements.value.as_slice();
    push_dropped(alloc, pen, title, claim, &net.value, picture)?;
    Ok(dot_text(alloc, title.as_slice(), picture)?)
}

/// The picture of a claim that a command asks for.
fn draw_claim(
    alloc: Global,
    pen: &Pen<'_>,
    command: &Command,
    claim: &Claim,
    boxes: &Boxes,
) -> Result<Text, Refusal>
    requires { FitsBoxes boxes.now claim.now.net }
{
    let mut title = title(alloc, command.claim(), pen.names, claim)?;
    match check(alloc, claim, boxes) {
        Ok(()) if command.is_planned => draw_planned(alloc, pen, &mut title, claim, boxes),
        Ok(()) => draw_written(alloc, pen, title.as_slice(), claim, boxes),
        Err(FlowFault::Memory) => Err(Refusal::Memory),
        Err(fault) => {
            push_refusal(alloc, &mut title, pen, &fault, command.is_planned)?;
            draw_written(alloc, pen, title.as_slice(), claim, boxes)
        }
    }
}

/// The picture of the claim about the net whose name stands at the place.
fn draw_at(
    alloc: Global,
    source: &[u8],
    program: &Program,
    command: &Command,
    parts: &Parts,
    place: u32,
) -> Result<Text, Refusal>
    requires { All (λ claim. FitsBoxes parts.now.boxes claim.net) parts.now.claims }
{
    let texts = Texts::of(alloc, program)?;
    let places = Places::of(alloc, source)?;
    let pen = Pen {
        names: &parts.names,
        texts: &texts,
        places: &places,
    };
    for claim in parts.claims.as_slice() {
        if claim.place == place {
            return draw_claim(alloc, &pen, command, claim, &parts.boxes);
        }
    }
    Err(Refusal::claim(alloc, command.claim()))
}

/// The picture that a command asks for of a source.
///
/// # Errors
///
/// `Source` where the source is refused, by its tokens, its grammar or its names, and `Claim` where it has no net of the command's name with a
/// signature.
pub fn picture_of(alloc: Global, source: &[u8], command: &Command) -> Result<Text, Refusal>
    requires { length source.now ≤ SOURCE_LIMIT }
{
    let tokens = lex(alloc, source)?;
    let program = parse(alloc, source, tokens.as_slice())?;
    let resolved = resolve(alloc, &program)?;
    match place_of(program.decls.as_slice(), command.claim()) {
        Some(place) => draw_at(alloc, source, &program, command, resolved.as_parts(), place),
        None => Err(Refusal::claim(alloc, command.claim())),
    }
}

//! From the bytes of a source to its program, and from those of an input to its records.
ghost use Rattle.std.specs.Prelude.{◌≡◌, ◌≤◌, length, not, IfOk, IfErr, IsTrue, List, OnOk};
ghost use Rattle.sn_net.specs.declared.expr.BoxProgram.{BoxProgram};
ghost use Rattle.std.specs.List.{All, position};
ghost use Rattle.sn_net.specs.WellFormed.{FitsBoxes};
ghost use Rattle.sn_typing.specs.Accepted.{IsAccepted};
ghost use Rattle.sn_pieces.specs.Lines.{is_of_type};
ghost use Rattle.sn_scope.specs.Resolution.{parts_of};
ghost use Rattle.sn_load.specs.Load.{AreTypedRecords, IsLoaded, IsTypedFile, WhyUnreadable};
ghost use Rattle.sn_load.specs.Scope.{IsMain, TellsRefusal, TellsType, WhyRefused, WhyUnloaded};
ghost use Rattle.sn_load.specs.declared.load.TheConstants.{SOURCE_LIMIT, INPUT_LIMIT};

use sn_flow::{FlowFault, check};
use sn_input::{Input, read_records};
use sn_lexer::lex;
use sn_list::Seq;
use sn_names::Names;
use sn_net::{Boxes, Claim};
use sn_output::push_variant;
use sn_parser::parse;
use sn_pieces::is_of_type;
use sn_record::{LabelSet, Record};
use sn_scope::{Parts, Resolved, resolve};
use sn_stop::{LineFault, Refusal, Stop, TypeFault};
use std::alloc::Global;

/// The most bytes of a source.
pub const SOURCE_LIMIT: u64 = 1_048_576;

/// The most bytes of an input.
pub const INPUT_LIMIT: u64 = 16_777_216;

/// The main claim of a source with its boxes, and the names of its labels.
#[derive(Drop)]
pub struct Program {
    pub names: Names,
    pub boxes: Boxes,
    pub claim: Claim,
}

/// That types are wrong at a place, with the variant printed.
fn tell_type(alloc: Global, names: &Names, fault: TypeFault, at: u32, variant: &LabelSet) -> Stop
    ensures { TellsType names.now fault at variant.now result }
{
    let mut text = Seq::new(alloc);
    match push_variant(alloc, &mut text, variant, names) {
        Ok(()) => Stop::Refused(Refusal::IllTyped(fault, at, text)),
        Err(_) => Stop::Memory,
    }
}

/// Why a claim is refused.
pub fn tell_fault(alloc: Global, names: &Names, fault: &FlowFault) -> Stop
    ensures { TellsRefusal names.now fault.now result }
{
    match fault {
        FlowFault::NoRoute(at, variant) => {
            tell_type(alloc, names, TypeFault::NoRoute, *at, variant)
        }
        FlowFault::BadOutput(at, variant) => {
            tell_type(alloc, names, TypeFault::BadOutput, *at, variant)
        }
        FlowFault::TooManyVariants(at) => Stop::Refused(Refusal::Variants(*at)),
        FlowFault::Memory => Stop::Memory,
    }
}

/// Checks the claims of a program in the order of their declarations, up to the first that is refused.
fn check_claims(alloc: Global, parts: &Parts) -> Result<(), Stop>
    requires { All (λ claim. FitsBoxes parts.now.boxes claim.net) parts.now.claims }
    ensures accepted { OnOk result (All (IsAccepted parts.now.boxes) parts.now.claims) }
    ensures refused { IfErr result (WhyRefused parts.now) }
{
    for claim in parts.claims.as_slice() {
        if let Err(fault) = check(alloc, claim, &parts.boxes) {
            return Err(tell_fault(alloc, &parts.names, &fault));
        }
    }
    Ok(())
}

/// The names, the boxes and the main claim of what a source is resolved to.
fn main_of(resolved: Resolved) -> Program
    requires { All (IsAccepted (parts_of resolved).boxes) (parts_of resolved).claims }
    ensures main { IsMain (parts_of resolved) result }
    ensures accepted { IsAccepted result.boxes result.claim }
    ensures formed { FitsBoxes result.boxes result.claim.net }
{
    let Parts {
        names,
        boxes,
        claims,
        main,
    } = resolved.into_parts();
    let mut claims = claims.into_vec();
    let claim = claims.swap_remove(main as usize);
    Program {
        names,
        boxes,
        claim,
    }
}

/// The program of a source, each claim of which is accepted. Its names know the labels of its boxes and of its network.
pub fn load_source(alloc: Global, bytes: &[u8]) -> Result<Program, Stop>
    requires { length bytes.now ≤ SOURCE_LIMIT }
    ensures loaded { IfOk result (IsLoaded bytes.now) }
    ensures ended { IfErr result (WhyUnloaded bytes.now) }
{
    let tokens = lex(alloc, bytes)?;
    let tree = parse(alloc, bytes, tokens.as_slice())?;
    let resolved = resolve(alloc, &tree)?;
    check_claims(alloc, resolved.as_parts())?;
    Ok(main_of(resolved))
}

/// The place of the first record that matches none of the variants.
fn first_untyped(variants: &[LabelSet], records: &[Record]) -> Option<usize>
    ensures { result ≡ position (λ r. not (is_of_type variants.now r)) records.now }
{
    for (i, r) in records.iter().enumerate() {
        if !is_of_type(variants, r) {
            return Some(i);
        }
    }
    None
}

/// The records of an input, and the names of its labels, the new ones at the end of those that are known.
pub fn read_input(alloc: Global, names: Names, claim: &Claim, bytes: &[u8]) -> Result<Input, Stop>
    requires { length bytes.now ≤ INPUT_LIMIT }
    ensures read { IfOk result (IsTypedFile names claim.now bytes.now) }
    ensures typed { IfOk result (λ input. (boxes : List BoxProgram) → IsAccepted boxes claim.now → AreTypedRecords boxes claim.now.net input.records) }
    ensures ended { IfErr result (WhyUnreadable names claim.now bytes.now) }
{
    let input = read_records(alloc, bytes, names)?;
    match first_untyped(claim.input.as_slice(), input.records.as_slice()) {
        Some(i) => Err(Stop::Refused(Refusal::Line(LineFault::Untyped(*input.lines.at(i) as u64)))),
        None => Ok(input),
    }
}

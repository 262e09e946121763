//! What can come out of a program, by its types.
ghost use Rattle.std.specs.Prelude.{◌≡◌, ◌++◌, ℕ, List, IfOk, OnOk};
ghost use Rattle.std.specs.List.{Contains};
ghost use Rattle.sn_net.specs.WellFormed.{FitsBoxes};
ghost use Rattle.sn_typing.specs.Outline.{outline};
ghost use Rattle.sn_typing.specs.Accepted.{IsAccepted};
ghost use Rattle.sn_flow.specs.Verdicts.{IsFlowOf};
ghost use Rattle.sn_load.specs.Flows.{HasFlows, IsFlowLine};

use crate::load::Program;
use sn_flow::{FlowFault, flow};
use sn_list::{Memory, Seq};
use sn_output::{push_type, push_variant};
use sn_record::{LabelSet, Text};
use sn_types::RecordType;
use std::alloc::Global;

/// The variants that can come out for one of the input's. A checked program has a route for each.
fn flow_of(alloc: Global, program: &Program, variant: &LabelSet) -> Result<Seq<LabelSet>, Memory>
    requires formed { FitsBoxes program.now.boxes program.now.claim.net }
    requires accepted { IsAccepted program.now.boxes program.now.claim }
    requires listed { Contains program.now.claim.input variant.now }
    ensures { IfOk result (IsFlowOf (outline program.now.boxes program.now.claim.net) variant.now) }
{
    match flow(alloc, &program.claim.net, &program.boxes, variant) {
        Ok(variants) => Ok(variants),
        Err(FlowFault::Memory) => Err(Memory),
        Err(FlowFault::NoRoute(_, _)) => unreachable!(),
        Err(FlowFault::BadOutput(_, _)) => unreachable!(),
        Err(FlowFault::TooManyVariants(_)) => unreachable!(),
    }
}

/// Appends the line of a variant of the input.
fn push_flow(
    alloc: Global,
    text: &mut Text,
    program: &Program,
    variant: &LabelSet,
) -> Result<(), Memory>
    requires formed { FitsBoxes program.now.boxes program.now.claim.net }
    requires accepted { IsAccepted program.now.boxes program.now.claim }
    requires listed { Contains program.now.claim.input variant.now }
    ensures { OnOk result ((line : List ℕ) × IsFlowLine program.now variant.now line × (text.new ≡ text.old ++ line)) }
{
    let flow = flow_of(alloc, program, variant)?;
    let fewest = RecordType::of(alloc, flow.as_slice())?.minimal()?;
    push_variant(alloc, text, variant, &program.names)?;
    text.extend_from_slice(b" -> ")?;
    push_type(alloc, text, fewest.as_slice(), &program.names)?;
    text.extend_from_slice(b"\n")
}

/// The lines of a checked program's types, one for each variant of its input.
pub fn flows_text(alloc: Global, program: &Program) -> Result<Text, Memory>
    requires formed { FitsBoxes program.now.boxes program.now.claim.net }
    requires accepted { IsAccepted program.now.boxes program.now.claim }
    ensures { IfOk result (HasFlows program.now program.now.claim.input) }
{
    let mut text = Seq::new(alloc);
    for variant in program.claim.input.as_slice() {
        push_flow(alloc, &mut text, program, variant)?;
    }
    Ok(text)
}

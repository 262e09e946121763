//! What is printed of a source whose types are checked.
ghost use Rattle.std.specs.Prelude.{IfOk};
ghost use Rattle.sn_net.specs.WellFormed.{FitsBoxes};
ghost use Rattle.sn_typing.specs.Accepted.{IsAccepted};
ghost use Rattle.sn_plain.specs.Reports.{HasPlan, HasPlanned, HasReport};

use sn_list::{Held, Memory, Seq};
use sn_load::{Program, flows_text};
use sn_plan::{count_nodes, plan};
use sn_record::Text;
use sn_sample::push_count;
use std::alloc::Global;

/// What is printed of a program.
#[derive(Clone, Copy)]
pub enum Report {
    /// What can come out for each variant of its input.
    Flows,
    /// How many nodes its network has, and how many the planned one.
    Plan,
}

/// How many nodes the planned network of a program has.
fn count_planned(alloc: Global, program: &Program) -> Result<u64, Memory>
    requires formed { FitsBoxes program.now.boxes program.now.claim.net }
    requires accepted { IsAccepted program.now.boxes program.now.claim }
    ensures { IfOk result (HasPlanned program.now) }
{
    let planned = plan(alloc, &program.claim, &program.boxes)?;
    let planned = Held { value: planned };
    match count_nodes(&planned.value) {
        Some(count) => Ok(count),
        None => Err(Memory),
    }
}

/// The line of the nodes of a program's network, before and after it is planned.
fn plan_text(alloc: Global, program: &Program) -> Result<Text, Memory>
    requires formed { FitsBoxes program.now.boxes program.now.claim.net }
    requires accepted { IsAccepted program.now.boxes program.now.claim }
    ensures { IfOk result (HasPlan program.now) }
{
    let after = count_planned(alloc, program)?;
    let Some(before) = count_nodes(&program.claim.net) else {
        return Err(Memory);
    };
    let mut text = Seq::new(alloc);
    push_count(&mut text, b"nodes=", before)?;
    push_count(&mut text, b" planned=", after)?;
    text.extend_from_slice(b"\n")?;
    Ok(text)
}

/// The text of a report on a checked program.
pub(crate) fn report_text(alloc: Global, program: &Program, report: Report) -> Result<Text, Memory>
    requires formed { FitsBoxes program.now.boxes program.now.claim.net }
    requires accepted { IsAccepted program.now.boxes program.now.claim }
    ensures { IfOk result (HasReport report program.now) }
{
    match report {
        Report::Flows => flows_text(alloc, program),
        Report::Plan => plan_text(alloc, program),
    }
}

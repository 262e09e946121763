//! Visits with each variant of an input.
ghost use Rattle.sn_net.specs.WellFormed.{FitsBoxes};
ghost use Rattle.sn_typing.specs.Outline.{outline};
ghost use Rattle.sn_flow.specs.Whole.{EachVisited};

use crate::stop::Stop;
use crate::table::{Table, no_table};
use crate::visit::visit;
use sn_net::{Boxes, Net};
use sn_record::LabelSet;
use std::alloc::Global;

/// The table of the network after visits with each variant of the input, or why there is none.
pub fn visit_each(
    alloc: Global,
    net: &Net,
    boxes: &Boxes,
    input: &[LabelSet],
) -> Result<Table, Stop>
    requires { FitsBoxes boxes.now net.now }
    ensures { EachVisited (outline boxes.now net.now) input.now result }
{
    let mut table = no_table(alloc);
    for variant in input {
        visit(alloc, net, boxes, &mut table, variant)?;
    }
    Ok(table)
}

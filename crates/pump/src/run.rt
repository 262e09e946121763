//! A run over faults, which are typed for any network.
ghost use Rattle.std.specs.Prelude.{IfOk, List, map};
ghost use Rattle.std.specs.List.{All};
ghost use Rattle.sn_net.specs.Filter.{IsClosed};
ghost use Rattle.sn_net.specs.Item.{modelled};
ghost use Rattle.sn_net.specs.declared.expr.BoxProgram.{BoxProgram as SomeBox};
ghost use Rattle.sn_net.specs.declared.net.Net.{Net as SomeNet};
ghost use Rattle.sn_record.specs.declared.item.Item.{Item as SomeItem};
ghost use Rattle.sn_typing.specs.Typed.{IsTyped};

use crate::refusal::Refusal;
use sn_list::{Memory, Seq};
use sn_model::Run;
use sn_net::{Boxes, Filter, Net};
use sn_record::{Fault, FaultKind, Item, Items, LabelSet};
use sn_stack::append;
use std::alloc::Global;

/// So many faults, each of another place.
pub fn faults(alloc: Global, count: u32) -> Result<Items, Memory>
    ensures { IfOk result (λ items. (boxes : List SomeBox) (net : SomeNet) → All (IsTyped boxes net) (map modelled items)) }
{
    let mut items = Items::new(alloc);
    for place in 0..count {
        append(
            &mut items,
            Item::Fault(Fault {
                kind: FaultKind::Index,
                place,
            }),
        )?;
    }
    Ok(items)
}

/// A run of the filter on so many faults.
fn run_of(alloc: Global, filter: Filter, count: u32) -> Result<Run, Memory>
    requires { IsClosed filter }
{
    let items = faults(alloc, count)?;
    let boxes = Boxes::new(alloc);
    let net = Net::Filter(filter);
    Ok(Run::new(net, boxes, 1, 1, 1, items))
}

/// A run of a filter that drops each record, on so many faults.
pub fn started(alloc: Global, count: u32) -> Result<Run, Refusal> {
    let filter = Filter {
        place: 0,
        pattern: LabelSet::new(alloc),
        arms: Seq::new(alloc),
        templates: Seq::new(alloc),
    };
    if !filter.is_closed() {
        return Err(Refusal::Usage);
    }
    let run = run_of(alloc, filter, count)?;
    Ok(run)
}

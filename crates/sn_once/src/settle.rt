//! From what flows within a network to what it gives.
ghost use Rattle.std.specs.Prelude.{◌≡◌, false, IfOk, map};
ghost use Rattle.sn_net.specs.Item.{holds_stuck, modelled};
ghost use Rattle.sn_pass.specs.Flowing.{flows};

use sn_list::Memory;
use sn_pass::flowing::Flowing;
use sn_record::{Item, Items};
use sn_stack::append;
use std::alloc::Global;

/// Takes out what came out of a network, as items. No record of it lacked a route.
pub fn settled(alloc: Global, came: &mut Vec<Flowing>) -> Result<Items, Memory>
    requires { holds_stuck (map flows came.old.items) ≡ false }
    ensures { IfOk result (λ items. map modelled items ≡ map flows came.old.items) }
{
    let mut items = Items::with_capacity(alloc, came.len())?;
    for flowing in came.drain(..) {
        match flowing {
            Flowing::Rec(record) => append(&mut items, Item::Rec(record))?,
            Flowing::Fault(fault) => append(&mut items, Item::Fault(fault))?,
            Flowing::Stuck(_) => unreachable!(),
        }
    }
    Ok(items)
}

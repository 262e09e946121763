//! Records as the items of a run.
ghost use Rattle.std.specs.Prelude.{◌≡◌, IfOk, List, map};
ghost use Rattle.sn_net.specs.declared.expr.BoxProgram.{BoxProgram};
ghost use Rattle.sn_net.specs.declared.net.Net.{Net as SomeNet};
ghost use Rattle.sn_net.specs.Item.{Rec, modelled};
ghost use Rattle.sn_model.specs.Typed.{AreTyped};
ghost use Rattle.sn_load.specs.Load.{AreTypedRecords};

use sn_list::{Memory, Seq};
use sn_record::{Item, Items, Record};
use sn_stack::append;
use std::alloc::Global;

/// The records as items. Of typed records the items are typed.
pub fn items_of(alloc: Global, records: Seq<Record>) -> Result<Items, Memory>
    ensures items { IfOk result (λ items. map modelled items ≡ map Rec records) }
    ensures typed { IfOk result (λ items. (boxes : List BoxProgram) (net : SomeNet) → AreTypedRecords boxes net records → AreTyped boxes net items) }
{
    let mut items = Items::new(alloc);
    for record in records.into_vec() {
        append(&mut items, Item::Rec(record))?;
    }
    Ok(items)
}

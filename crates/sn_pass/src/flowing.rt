ghost use Rattle.std.specs.Prelude.{◌≡◌, ◌++◌, ◌∷◌, [], OnOk, map};
ghost use Rattle.sn_net.specs.Item.{modelled};
ghost use Rattle.sn_pass.specs.Flowing.{flows};
ghost use Rattle.sn_sync.specs.Outcome.{items_out};

use sn_list::{Memory, Seq};
use sn_record::{Fault, Item, Items, Record};
use sn_stack::append;
use sn_sync::CellOut;

/// What flows within a network.
#[derive(Drop)]
pub enum Flowing {
    Rec(Record),
    Fault(Fault),
    /// At that place there was no route for a record.
    Stuck(u32),
}

impl Flowing {
    ghost use Rattle.sn_pass.specs.Flowing.{flows};

    /// An item as it flows in.
    pub fn of(item: Item) -> Flowing
        ensures { flows result ≡ modelled item }
    {
        match item {
            Item::Rec(record) => Flowing::Rec(record),
            Item::Fault(fault) => Flowing::Fault(fault),
        }
    }
}

/// Appends items, and answers the room that their list took.
pub fn append_items(out: &mut Seq<Flowing>, items: Items) -> Result<Items, Memory>
    ensures { OnOk result (map flows out.new ≡ map flows out.old ++ map modelled items) }
{
    let mut room = items.into_vec();
    for item in room.drain(..) {
        append(out, Flowing::of(item))?;
    }
    Ok(Items::from_vec(room))
}

/// Appends what comes out of a cell.
pub fn append_joined(out: &mut Seq<Flowing>, came: CellOut) -> Result<(), Memory>
    ensures { OnOk result (map flows out.new ≡ map flows out.old ++ items_out came) }
{
    match came {
        CellOut::Held => Ok(()),
        CellOut::Passed(record) => append(out, Flowing::Rec(record)),
        CellOut::Joined(record) => append(out, Flowing::Rec(record)),
    }
}

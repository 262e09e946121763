use sn_record::{Item, Items, Record};

/// What stands in a stream between two nodes.
#[derive(Drop)]
pub enum Entry {
    Item(Item),
    /// A border of an enclosing dispatcher.
    Mark,
    End,
}

/// What waits at a node. At a box a record may have a call.
#[derive(Drop)]
pub enum Waiting {
    Plain(Entry),
    /// Its call was begun with this record.
    InFlight { call: u64, given: Record },
    /// Its call gave these items.
    Finished { given: Record, items: Items },
}

//! Whether counts have room in four bytes each, without which nothing is written.
ghost use Rattle.std.specs.Prelude.{IsTrue, ◌↔◌};
ghost use Rattle.std.specs.List.{All};
ghost use Rattle.sn_wire.specs.Wire.{AreCounted, IsCounted, IsItemCounted};

use sn_boxrun::{Done, Job};
use sn_record::{Item, Record};

/// The largest number of four bytes.
const MOST: usize = u32::MAX as usize;

fn is_record_counted(record: &Record) -> bool
    ensures { IsTrue result ↔ IsCounted record.now }
{
    record.len() <= MOST
}

/// Whether the job may be written.
pub fn is_counted(job: &Job) -> bool
    ensures { IsTrue result ↔ IsCounted job.now.given }
{
    is_record_counted(&job.given)
}

fn is_item_counted(item: &Item) -> bool
    ensures { IsTrue result ↔ IsItemCounted item.now }
{
    match item {
        Item::Rec(record) => is_record_counted(record),
        Item::Fault(_) => true,
    }
}

fn are_items_counted(items: &[Item]) -> bool
    ensures { IsTrue result ↔ All IsItemCounted items.now }
{
    for item in items {
        if !is_item_counted(item) {
            return false;
        }
    }
    true
}

/// Whether the job and what its call gave may be written.
pub fn are_counted(done: &Done) -> bool
    ensures { IsTrue result ↔ AreCounted done.now.job done.now.items }
{
    let items = done.items().as_slice();
    is_counted(done.job()) && items.len() <= MOST && are_items_counted(items)
}

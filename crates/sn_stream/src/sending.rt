//! Sending a history that is known as items and then the end, and receiving entries.
ghost use Rattle.std.specs.Prelude.{◌≡◌, ◌≤◌, ◌+◌, [], List, IfErr, IfOk, IsFalse, IsTrue, OnOk, if◌then◌else◌, length, map, take};
ghost use Rattle.sn_model.specs.Ranges.{IsWithin};
ghost use Rattle.sn_model.specs.Run.{given, items_of};
ghost use Rattle.sn_model.specs.declared.run.TheConstants.{LONGEST_QUEUE};
ghost use Rattle.sn_net.specs.Item.{modelled};
ghost use Rattle.sn_net_histories.specs.Places.{root_at};
ghost use Rattle.sn_net_histories.specs.declared.place.Port.TheVariants as some_port;
ghost use Rattle.sn_record.specs.declared.item.Item.{Item as SomeItem};
ghost use Rattle.sn_stream.specs.Ends.{history_of, is_open, moves, new_end, passed, WasFull};
ghost use Rattle.sn_stream.specs.Ended.{ended, numbered};

use crate::ends::{GetEnd, PutEnd, make};
use crate::item::StreamItem;
use sn_list::Memory;
use sn_model::Run;
use sn_net_histories::{Place, Port};
use sn_record::Item;
use std::alloc::Global;
use std::sync::{Arc, Wait};
use std::thread::yield_now;

/// A stream for what comes into the whole network of a run, or for what leaves it.
pub fn make_at_root(
    alloc: Global,
    run: &Arc<Run>,
    port: Port,
    capacity: u32,
) -> Result<(PutEnd, GetEnd), Memory>
    requires capacity { IsWithin capacity LONGEST_QUEUE }
    requires port { IsTrue (is_open port) }
    ensures put { IfOk result (λ ends. ends.0 ≡ new_end ends.0.made) }
    ensures get { IfOk result (λ ends. ends.1 ≡ ends.0) }
    ensures run { IfOk result (λ ends. ends.0.made.run ≡ run.now.value) }
    ensures place { IfOk result (λ ends. ends.0.made.place ≡ root_at port) }
    ensures room { IfOk result (λ ends. ends.0.made.capacity ≡ capacity) }
    ensures comes { port ≡ some_port.In → IfOk result (λ ends. history_of ends.0 ≡ ended (items_of run.now.value)) }
    ensures leaves { port ≡ some_port.Out → IfOk result (λ ends. (ys : List SomeItem) → map modelled ys ≡ given run.now.value → history_of ends.0 ≡ ended ys) }
{
    make(alloc, run, &Place::root(port), capacity)
}

/// The entry of this number, from 0, of the items and then the end.
fn entry(alloc: Global, items: &[Item], number: usize) -> Result<StreamItem, Memory>
    ensures { IfOk result (λ x. x ≡ numbered items.now number) }
{
    if number < items.len() {
        let item = items[number].copy(alloc)?;
        return Ok(StreamItem::Item(item));
    }
    Ok(StreamItem::End)
}

/// Puts the next entry on a stream whose history is these items and then the end: that of this number, from 0, where those before it
/// were put. Answers whether there was room for it; there was none only where the stream was full at a step of this call.
pub fn send<R: Wait>(
    rt: &R,
    alloc: Global,
    put: &mut PutEnd,
    items: &[Item],
    number: usize,
) -> Result<bool, Memory>
    requires history { history_of put.old ≡ ended items.now }
    requires sent { passed put.old.moved ≡ take number (ended items.now) }
    requires within { number ≤ length items.now }
    ensures sent { IfOk result (λ was_room. passed put.new.moved ≡ take (if was_room then number + 1 else number) (ended items.now)) }
    ensures full { IfOk result (λ was_room. IsFalse was_room → WasFull put.old) }
    ensures made { put.new.made ≡ put.old.made }
    ensures unchanged { IfErr result (λ _. put.new ≡ put.old) }
{
    let next = entry(alloc, items, number)?;
    let Ok(()) = put.put(rt, next) else {
        return Ok(false);
    };
    Ok(true)
}

/// The same, and waits until there is room.
fn send_when_there_is_room<R: Wait>(
    rt: &R,
    alloc: Global,
    put: &mut PutEnd,
    items: &[Item],
    number: usize,
) -> Result<(), Memory>
    requires history { history_of put.old ≡ ended items.now }
    requires sent { passed put.old.moved ≡ take number (ended items.now) }
    requires within { number ≤ length items.now }
    ensures sent { OnOk result (passed put.new.moved ≡ take (number + 1) (ended items.now)) }
    ensures made { put.new.made ≡ put.old.made }
{
    for _ in rt.forever() {
        if send(rt, alloc, put, items, number)? {
            break;
        }
        yield_now();
    }
    Ok(())
}

/// Puts the items and then the end, which are the whole history of the stream, and waits where there is no room. Where memory is wanted
/// for a copy of an item, those before it were put.
pub fn send_all<R: Wait>(
    rt: &R,
    alloc: Global,
    put: &mut PutEnd,
    items: &[Item],
) -> Result<(), Memory>
    requires history { history_of put.old ≡ ended items.now }
    requires fresh { put.old.moved ≡ [] }
    ensures whole { OnOk result (passed put.new.moved ≡ ended items.now) }
    ensures made { put.new.made ≡ put.old.made }
{
    for number in 0..items.len() {
        send_when_there_is_room(rt, alloc, put, items, number)?;
    }
    send_when_there_is_room(rt, alloc, put, items, items.len())
}

/// Gets the next entry, and waits until there is one.
pub fn receive<R: Wait>(rt: &R, get: &mut GetEnd) -> StreamItem
    ensures { get.new ≡ moves get.old result }
{
    for _ in rt.forever() {
        if let Some(entry) = get.get(rt) {
            return entry;
        }
        yield_now();
    }
    unreachable!()
}

//! Entries on their way from one thread to another.
ghost use Rattle.sn_model.specs.Ranges.{IsWithin};
ghost use Rattle.sn_model.specs.declared.run.TheConstants.{LONGEST_QUEUE};

use crate::refusal::Refusal;
use crossbeam_queue::ArrayQueue;
use sn_model::Run;
use sn_net_histories::Port;
use sn_record::Item;
use sn_stream::{GetEnd, StreamItem, make_at_root, receive, send_all};
use std::alloc::Global;
use std::sync::{Arc, Wait};
use std::thread::{Threads, join, yield_now};

/// How many entries come before the end, and the end.
fn count_entries<R: Wait>(rt: &R, get: &mut GetEnd) -> u64 {
    let mut count: u64 = 1;
    for _ in rt.forever() {
        match receive(rt, get) {
            StreamItem::End => break,
            _ => count = count.wrapping_add(1),
        }
    }
    count
}

/// The items of the run and the end, by a stream for what comes into its network. Answers how many entries came.
pub fn by_stream<R: Threads + Wait + Sync>(
    rt: &R,
    alloc: Global,
    run: &Arc<Run>,
    capacity: u32,
) -> Result<u64, Refusal>
    requires { IsWithin capacity LONGEST_QUEUE }
{
    let (mut put, mut get) = make_at_root(alloc, run, Port::In, capacity)?;
    let items = run.items().as_slice();
    let (sent, count) = join(
        rt,
        move || send_all(rt, alloc, &mut put, items),
        move || count_entries(rt, &mut get),
    );
    sent?;
    Ok(count)
}

/// Pushes the item, and waits where there is no room.
fn push<R: Wait>(rt: &R, queue: &ArrayQueue<Item>, item: Item) {
    let mut waiting = item;
    for _ in rt.forever() {
        match queue.push(rt, waiting) {
            Ok(()) => return,
            Err(back) => waiting = back,
        }
        yield_now();
    }
}

fn push_all<R: Wait>(rt: &R, queue: &ArrayQueue<Item>, items: Vec<Item>) {
    for item in items {
        push(rt, queue, item);
    }
}

fn pop_so_many<R: Wait>(rt: &R, queue: &ArrayQueue<Item>, count: u64) -> u64 {
    let mut popped: u64 = 0;
    for _ in rt.forever() {
        if popped >= count {
            break;
        }
        match queue.pop(rt) {
            Some(_) => popped += 1,
            None => yield_now(),
        }
    }
    popped
}

/// The items, by a queue under no rule. Answers how many came.
pub fn by_queue<R: Threads + Wait + Sync>(
    rt: &R,
    alloc: Global,
    items: Vec<Item>,
    capacity: u32,
) -> Result<u64, Refusal>
    requires { IsWithin capacity LONGEST_QUEUE }
{
    let queue = ArrayQueue::new(alloc, capacity as usize)?;
    let count = items.len() as u64;
    let ((), popped) = join(
        rt,
        || push_all(rt, &queue, items),
        || pop_so_many(rt, &queue, count),
    );
    Ok(popped)
}

//! Streams between threads.
ghost use Rattle.std.specs.Prelude.{◌≡◌, []};
ghost use Rattle.sn_stream.specs.Ended.{ended};
ghost use Rattle.sn_stream.specs.Ends.{history_of};

use crate::load::{Loaded, load};
use sn_model::Run;
use sn_net_histories::Port;
use sn_once::run_once;
use sn_record::Item;
use sn_stream::{GetEnd, PutEnd, StreamItem, make_at_root, receive, send, send_all};
use std::alloc::Global;
use std::fmt::Write;
use std::process::Abort;
use std::sync::{Arc, Wait};
use std::thread::{Threads, join};

/// A run of a source over an input.
fn run_of(rt: &impl Abort, alloc: Global, source: &str, input: &str) -> Arc<Run> {
    let Loaded { run, names: _ } = load(alloc, source, input, 16).expect(
        rt,
        "a source and its input",
    );
    Arc::new(alloc, run).expect(rt, "memory")
}

/// Whether the entry is this item.
fn is_item(entry: Option<StreamItem>, item: &Item) -> bool {
    match entry {
        Some(StreamItem::Item(got)) => got == *item,
        _ => false,
    }
}

fn is_end(entry: Option<StreamItem>) -> bool {
    matches!(entry, Some(StreamItem::End))
}

/// Whether a stream with room for one takes a history of one item, is full then, gives it, and then has no more.
fn goes_one_by_one<R: Abort + Wait>(
    rt: &R,
    alloc: Global,
    put: PutEnd,
    get: GetEnd,
    items: &[Item],
) -> bool
    requires history { history_of put ≡ ended items.now }
    requires fresh { put.moved ≡ [] }
{
    let mut put = put;
    let mut get = get;
    if items.len() != 1 || get.get(rt).is_some() {
        return false;
    }
    if !send(rt, alloc, &mut put, items, 0).expect(rt, "memory") {
        return false;
    }
    if send(rt, alloc, &mut put, items, 1).expect(rt, "memory") {
        return false;
    }
    if !is_item(get.get(rt), &items[0]) {
        return false;
    }
    let has_ended = send(rt, alloc, &mut put, items, 1).expect(rt, "memory");
    has_ended && is_end(get.get(rt)) && get.get(rt).is_none()
}

#[test]
fn a_stream_takes_its_history_entry_by_entry(rt: HostRuntime) {
    let source = "net main ({a} -> {b}) connect [{a} -> {b=a}];";
    let run = run_of(&rt, rt.alloc(), source, "{a=1}");
    let answers = run_once(rt.alloc(), &run).expect(&rt, "memory");
    let (put, get) = make_at_root(rt.alloc(), &run, Port::Out, 1).expect(&rt, "memory");
    assert!(rt; goes_one_by_one(&rt, rt.alloc(), put, get, answers.as_slice()));
}

/// Whether these items come on the stream, in order, and then the end.
fn all_come<R: Wait>(rt: &R, get: &mut GetEnd, items: &[Item]) -> bool {
    for item in items {
        if !is_item(Some(receive(rt, get)), item) {
            return false;
        }
    }
    is_end(Some(receive(rt, get)))
}

/// Whether what comes into the network of a run goes from one thread to another.
fn goes_to_another_thread<R: Abort + Threads + Wait + Sync>(
    rt: &R,
    alloc: Global,
    run: &Arc<Run>,
) -> bool {
    let (mut put, mut get) = make_at_root(alloc, run, Port::In, 16).expect(rt, "memory");
    let items = run.items().as_slice();
    let (sent, came) = join(
        rt,
        move || send_all(rt, alloc, &mut put, items).is_ok(),
        move || all_come(rt, &mut get, items),
    );
    sent && came
}

/// A record file of so many different records.
fn many_records(rt: &impl Abort, alloc: Global, count: u32) -> String {
    let mut text = String::new(alloc);
    for number in 0..count {
        writeln!(text, "{{<n>={number}}}").expect(rt, "memory");
    }
    text
}

#[test]
fn a_million_entries_go_to_another_thread(rt: HostRuntime) {
    let input = many_records(&rt, rt.alloc(), 1_000_000);
    let source = "net main ({<n>} -> {<n>}) connect [];";
    let run = run_of(&rt, rt.alloc(), source, input.as_str());
    assert!(rt; goes_to_another_thread(&rt, rt.alloc(), &run));
}

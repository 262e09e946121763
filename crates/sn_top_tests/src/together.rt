//! Runs with workers.
use crate::holding::Holding;
use crate::served::{Served, files, serve_files, sink};
use sn_io::OpenGate;
use sn_top::Status;
use std::alloc::Global;
use std::process::Abort;
use std::sync::Wait;
use std::thread::Threads;

/// A slow and a quick box, whose records are merged in order.
const IN_ORDER: &str =
    "box slow ((a) -> (x)) { fun spin(i) = if i < 1 then 0 else spin(i - 1); spin(5000); out 1(a) } box quick ((b) -> (x)) { out 1(b) } net main ({a} | {b} -> {x}) connect slow || quick;";

/// The same, merged freely.
const FREE: &str =
    "box slow ((a) -> (x)) { fun spin(i) = if i < 1 then 0 else spin(i - 1); spin(5000); out 1(a) } box quick ((b) -> (x)) { out 1(b) } net main ({a} | {b} -> {x}) connect slow | quick;";

const TWO_EACH: &str = "{a=1}\n{b=2}\n{a=3}\n{b=4}\n";

const FOUR_IN_ORDER: &str =
    "box p ((a) -> (x)) { out 1(a) } box q ((b) -> (x)) { out 1(b) } box r ((c) -> (x)) { out 1(c) } box s ((d) -> (x)) { out 1(d) } net main ({a} | {b} | {c} | {d} -> {x}) connect p || q || r || s;";

const FOUR_FREE: &str =
    "box p ((a) -> (x)) { out 1(a) } box q ((b) -> (x)) { out 1(b) } box r ((c) -> (x)) { out 1(c) } box s ((d) -> (x)) { out 1(d) } net main ({a} | {b} | {c} | {d} -> {x}) connect p | q | r | s;";

/// A record for each of the four boxes.
const ONE_EACH: &str = "{a=1}\n{b=2}\n{c=3}\n{d=4}\n";

/// A call waits for others that must come for at most so many milliseconds, after which they have failed to.
const LIMIT: u64 = 5_000;

/// It waits so many milliseconds for one that must never come, in which an idle worker would have come.
const PATIENCE: u64 = 100;

/// Whether all went well and one of the texts is printed, and nothing on `err`.
fn is_one_of(served: &Served, texts: &[&str]) -> bool {
    texts
        .iter()
        .any(|text| served.is(Status::Ok, text.as_bytes(), b""))
}

/// Whether so many workers print one of the texts, and nothing on `err`.
fn prints_one_of<R: Abort + Threads + Wait + Sync>(
    rt: &R,
    alloc: Global,
    source: &str,
    input: &str,
    workers: &str,
    texts: &[&str],
) -> bool {
    let words = ["run", "s", "i", "--workers", workers, "--queue", "1"];
    let stored = files(rt, alloc, source.as_bytes(), input.as_bytes());
    let served = serve_files(rt, alloc, &words, stored, sink(rt, alloc, 5), &OpenGate);
    is_one_of(&served, texts)
}

#[test]
fn any_number_of_workers_prints_what_one_thread_does(rt: HostRuntime) {
    let texts = ["{x=1}\n{x=2}\n{x=3}\n{x=4}\n"];
    for workers in ["1", "2", "8"] {
        let is_one = prints_one_of(&rt, rt.alloc(), IN_ORDER, TWO_EACH, workers, &texts);
        assert!(rt; is_one, "{workers} workers");
    }
}

#[test]
fn a_free_choice_prints_what_it_may(rt: HostRuntime) {
    let input = "{a=1}\n{b=2}\n{a=3}\n";
    let texts = [
        "{x=1}\n{x=2}\n{x=3}\n",
        "{x=1}\n{x=3}\n{x=2}\n",
        "{x=2}\n{x=1}\n{x=3}\n",
    ];
    for workers in ["1", "2", "8"] {
        let is_one = prints_one_of(&rt, rt.alloc(), FREE, input, workers, &texts);
        assert!(rt; is_one, "{workers} workers");
    }
}

/// How many calls of four run at once, where each is held until this many are inside or for so many milliseconds: from the least to the most.
#[derive(Drop)]
struct Overlap<'a> {
    workers: &'a str,
    until: u64,
    milliseconds: u64,
    least: u64,
    most: u64,
}

/// Whether the four calls of a run came, one for each record, and so many of them ran at once.
fn overlaps<R: Abort + Threads + Wait + Sync>(
    rt: &R,
    alloc: Global,
    source: &str,
    input: &str,
    overlap: &Overlap,
) -> bool {
    let gate = Holding::new(rt, overlap.until, overlap.milliseconds);
    let words = ["run", "s", "i", "--workers", overlap.workers];
    let stored = files(rt, alloc, source.as_bytes(), input.as_bytes());
    let served = serve_files(rt, alloc, &words, stored, sink(rt, alloc, 64), &gate);
    let all_came = gate.calls() == Some(4);
    let within = overlap.least <= gate.most() && gate.most() <= overlap.most;
    served.status == Status::Ok && all_came && within
}

#[test]
fn two_calls_run_at_once(rt: HostRuntime) {
    let overlap = Overlap {
        workers: "4",
        until: 2,
        milliseconds: LIMIT,
        least: 2,
        most: 4,
    };
    for source in [IN_ORDER, FREE] {
        let is_so = overlaps(&rt, rt.alloc(), source, TWO_EACH, &overlap);
        assert!(rt; is_so, "{source}");
    }
}

/// Whether the four calls of four boxes overlap so, be they merged in order or freely.
fn boxes_overlap<R: Abort + Threads + Wait + Sync>(
    rt: &R,
    alloc: Global,
    overlap: &Overlap,
) -> bool {
    overlaps(rt, alloc, FOUR_IN_ORDER, ONE_EACH, overlap)
        && overlaps(rt, alloc, FOUR_FREE, ONE_EACH, overlap)
}

#[test]
fn four_workers_call_three_at_once(rt: HostRuntime) {
    let overlap = Overlap {
        workers: "4",
        until: 3,
        milliseconds: LIMIT,
        least: 3,
        most: 4,
    };
    assert!(rt; boxes_overlap(&rt, rt.alloc(), &overlap));
}

#[test]
fn two_workers_call_two_at_once_and_never_three(rt: HostRuntime) {
    let overlap = Overlap {
        workers: "2",
        until: 3,
        milliseconds: PATIENCE,
        least: 2,
        most: 2,
    };
    assert!(rt; boxes_overlap(&rt, rt.alloc(), &overlap));
}

#[test]
fn one_worker_never_calls_two_at_once(rt: HostRuntime) {
    let overlap = Overlap {
        workers: "1",
        until: 2,
        milliseconds: PATIENCE,
        least: 1,
        most: 1,
    };
    assert!(rt; boxes_overlap(&rt, rt.alloc(), &overlap));
}

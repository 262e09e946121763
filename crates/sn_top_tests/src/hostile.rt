//! Devices that fail, with either engine: a network whose merges are in order is run by nodes and streams, another by a graph.
use crate::served::{Served, files, owned, serve_files, sink};
use sn_io::{MemFiles, MemSink, OpenGate};
use sn_top::{Status, serve_words};
use std::alloc::Global;
use std::process::Abort;
use std::sync::Wait;
use std::thread::Threads;

/// Tiles are cut in two, and the halves of each are joined again.
const TILES: &str =
    "box cut ((v) -> (l,<w>) | (r,<w>)) { out 1(at(v, 0), 0); out 2(at(v, 1), 1) } box left ((l) -> (p)) { out 1(l * l) } box right ((r) -> (q)) { out 1(r + 1) } net main ({v,<id>} -> {p,q,<id>}) connect cut .. ((left || right) !! <w>) .. (([|{p},{q}|] ** {p,q}) !! <id>);";

/// The same, with a choice and a star that merge freely within splits that keep the order.
const FREE_TILES: &str =
    "box cut ((v) -> (l,<w>) | (r,<w>)) { out 1(at(v, 0), 0); out 2(at(v, 1), 1) } box left ((l) -> (p)) { out 1(l * l) } box right ((r) -> (q)) { out 1(r + 1) } net main ({v,<id>} -> {p,q,<id>}) connect cut .. ((left | right) !! <w>) .. (([|{p},{q}|] * {p,q}) !! <id>);";

const MOST_TILES: u64 = 200;

/// Room for all that comes of them.
const TEXT_ROOM: usize = 8_192;

/// A division by nothing, between two records that go the other way.
const DIVIDES: &str =
    "net main ({a,<d>} | {b} -> {x}) connect [{a,<d>} -> {x=a,<q>=10/<d>}] || [{b} -> {x=b}];";

const DIVIDES_FREELY: &str =
    "net main ({a,<d>} | {b} -> {x}) connect [{a,<d>} -> {x=a,<q>=10/<d>}] | [{b} -> {x=b}];";

const BY_NOTHING: &str = "{b=1}\n{a=2, <d>=0}\n{b=3}\n";

const DIVIDED: &[u8] = b"fault: DivZero at 40\n";

const RENAMES: &str = "net main ({a} -> {b}) connect [{a} -> {b=a}];";

/// The tiles, a line each.
fn tiles(rt: &impl Abort, alloc: Global) -> String {
    let mut lines = String::new(alloc);
    for i in 1..=MOST_TILES {
        let line = format!(in alloc; "{{v=[{i}, {i}], <id>={i}}}\n").expect(rt, "memory");
        lines.push_str(line.as_str()).expect(rt, "memory");
    }
    lines
}

/// What comes of so many tiles.
fn joined(rt: &impl Abort, alloc: Global, many: u64) -> String {
    let mut lines = String::new(alloc);
    for i in 1..=many {
        let line = format!(in alloc;
            "{{p={}, q={}, <id>={i}, <w>=0}}\n",
            i.wrapping_mul(i),
            i.wrapping_add(1)
        )
        .expect(rt, "memory");
        lines.push_str(line.as_str()).expect(rt, "memory");
    }
    lines
}

/// Whether the lines before the write of this number are kept, which fails.
fn keeps_what_was_written<R: Abort + Threads + Wait + Sync>(
    rt: &R,
    alloc: Global,
    words: &[&str],
    source: &str,
    write: u64,
) -> bool {
    let stored = files(rt, alloc, source.as_bytes(), tiles(rt, alloc).as_bytes());
    let mut out = sink(rt, alloc, 64);
    out.reserve(TEXT_ROOM).expect(rt, "memory");
    out.fail_at(write).expect(rt, "memory");
    let served = serve_files(rt, alloc, words, stored, out, &OpenGate);
    let kept = joined(rt, alloc, write.saturating_sub(1));
    served.is(Status::Write, kept.as_bytes(), b"write\n")
}

#[test]
fn a_sink_may_fail_at_any_write(rt: HostRuntime) {
    for write in 1..=MOST_TILES {
        let is_so = keeps_what_was_written(&rt, rt.alloc(), &["run", "s", "i"], TILES, write);
        assert!(rt; is_so, "write {write}");
    }
    assert!(rt; keeps_what_was_written(&rt, rt.alloc(), &["once", "s", "i"], TILES, 3));
    assert!(rt; keeps_what_was_written(&rt, rt.alloc(), &["run", "s", "i"], FREE_TILES, 3));
}

/// What is served of the division, where standard error takes nothing if it fails.
fn divide<R: Abort + Threads + Wait + Sync>(
    rt: &R,
    alloc: Global,
    source: &str,
    workers: &str,
    is_err_failing: bool,
) -> Served {
    let words = owned(rt, alloc, &["run", "s", "i", "--workers", workers]);
    let mut stored = files(rt, alloc, source.as_bytes(), BY_NOTHING.as_bytes());
    let mut out = sink(rt, alloc, 64);
    let mut err = sink(rt, alloc, 64);
    if is_err_failing {
        err.fail_at(1).expect(rt, "memory");
    }
    let status = serve_words(
        rt,
        alloc,
        &words,
        &mut stored,
        &mut out,
        &mut err,
        &OpenGate,
    );
    Served { status, out, err }
}

/// Whether the run ended at the fault, with one of the texts before it.
fn ended_at_fault(served: &Served, texts: &[&str], told: &[u8]) -> bool {
    texts
        .iter()
        .any(|text| served.is(Status::Fault, text.as_bytes(), told))
}

#[test]
fn a_fault_ends_a_run_whatever_the_workers_do(rt: HostRuntime) {
    let before = ["{x=1}\n"];
    for workers in ["1", "2", "8"] {
        let served = divide(&rt, rt.alloc(), DIVIDES, workers, false);
        assert!(rt;
            ended_at_fault(&served, &before, DIVIDED),
            "{workers} workers"
        );
        let served = divide(&rt, rt.alloc(), DIVIDES_FREELY, workers, false);
        let may_be = ["", "{x=1}\n", "{x=1}\n{x=3}\n"];
        assert!(rt;
            ended_at_fault(&served, &may_be, DIVIDED),
            "{workers} workers, freely"
        );
    }
    let served = divide(&rt, rt.alloc(), DIVIDES, "4", true);
    assert!(rt; ended_at_fault(&served, &before, b""));
}

/// What is served of the renaming by a command, where a call to the files or to the output fails.
fn rename<R: Abort + Threads + Wait + Sync>(
    rt: &R,
    alloc: Global,
    command: &str,
    stored: MemFiles,
    out: MemSink,
) -> Served {
    serve_files(rt, alloc, &[command, "s", "i"], stored, out, &OpenGate)
}

/// Whether a failing read is told in this line.
fn tells_read<R: Abort + Threads + Wait + Sync>(
    rt: &R,
    alloc: Global,
    command: &str,
    read: u64,
    line: &[u8],
) -> bool {
    let mut stored = files(rt, alloc, RENAMES.as_bytes(), b"{a=1}\n");
    stored.fail_at(read).expect(rt, "memory");
    rename(rt, alloc, command, stored, sink(rt, alloc, 64)).is(Status::Read, b"", line)
}

/// Whether the bytes before a failing write of one byte are kept.
fn keeps_bytes<R: Abort + Threads + Wait + Sync>(rt: &R, alloc: Global, command: &str) -> bool {
    let stored = files(rt, alloc, RENAMES.as_bytes(), b"{a=1}\n");
    let mut out = sink(rt, alloc, 1);
    out.fail_at(4).expect(rt, "memory");
    rename(rt, alloc, command, stored, out).is(Status::Write, b"{b=", b"write\n")
}

#[test]
fn what_fails_is_told(rt: HostRuntime) {
    for command in ["once", "run"] {
        assert!(rt;
            tells_read(&rt, rt.alloc(), command, 1, b"read: s\n"),
            "{command}"
        );
        assert!(rt;
            tells_read(&rt, rt.alloc(), command, 2, b"read: i\n"),
            "{command}"
        );
        assert!(rt; keeps_bytes(&rt, rt.alloc(), command), "{command}");
    }
}

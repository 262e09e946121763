//! Runs that are traced, and texts that are replayed.
use crate::served::{files, serve_files, sink};
use sn_io::{MemFiles, MemSink, OpenGate};
use sn_top::Status;
use std::alloc::Global;
use std::process::Abort;

const RENAMES: &[u8] = b"net main ({a} -> {b}) connect [{a} -> {b=a}];";

const EITHER_WAY: &[u8] =
    b"box slow ((a) -> (x)) { fun spin(i) = if i < 1 then 0 else spin(i - 1); spin(50); out 1(a) } net main ({a} | {b} -> {x}) connect slow | [{b} -> {x=b}];";

const THREE: &[u8] = b"{a=1}\n{b=2}\n{a=3}\n";

/// What the three records may give.
const MAY_GIVE: [&str; 3] = [
    "{x=1}\n{x=2}\n{x=3}\n",
    "{x=1}\n{x=3}\n{x=2}\n",
    "{x=2}\n{x=1}\n{x=3}\n",
];

/// Room for the lines of a trace.
const TEXT_ROOM: usize = 4_096;

/// A source `s`, an input `i`, and a trace `t`.
fn with_trace(
    rt: &impl Abort,
    alloc: Global,
    source: &[u8],
    input: &[u8],
    trace: &[u8],
) -> MemFiles {
    let mut stored = files(rt, alloc, source, input);
    stored.add(b"t", trace).expect(rt, "memory");
    stored
}

fn roomy_sink(rt: &impl Abort, alloc: Global) -> MemSink {
    let mut out = sink(rt, alloc, 64);
    out.reserve(TEXT_ROOM).expect(rt, "memory");
    out
}

#[test]
fn a_run_replays_what_it_wrote(rt: HostRuntime) {
    for workers in ["1", "4"] {
        let words = ["trace", "s", "i", "--workers", workers];
        let stored = files(&rt, rt.alloc(), EITHER_WAY, THREE);
        let out = roomy_sink(&rt, rt.alloc());
        let traced = serve_files(&rt, rt.alloc(), &words, stored, out, &OpenGate);
        assert!(rt; traced.status == Status::Ok, "{workers} workers");
        let stored = with_trace(&rt, rt.alloc(), EITHER_WAY, THREE, traced.out.held());
        let words = ["replay", "s", "i", "t"];
        let out = sink(&rt, rt.alloc(), 64);
        let replayed = serve_files(&rt, rt.alloc(), &words, stored, out, &OpenGate);
        let is_allowed = MAY_GIVE
            .iter()
            .any(|text| replayed.is(Status::Ok, text.as_bytes(), b""));
        assert!(rt; is_allowed, "{workers} workers");
    }
}

/// Whether a replay of the text ends so.
fn ends(
    rt: &(impl Abort + std::thread::Threads + std::sync::Wait + Sync),
    alloc: Global,
    trace: &[u8],
    status: Status,
    line: &str,
) -> bool {
    let stored = with_trace(rt, alloc, RENAMES, b"{a=1}\n", trace);
    let words = ["replay", "s", "i", "t"];
    let served = serve_files(rt, alloc, &words, stored, sink(rt, alloc, 64), &OpenGate);
    served.is(status, b"", line.as_bytes())
}

#[test]
fn other_texts_are_refused(rt: HostRuntime) {
    let table: [(&[u8], &str); 4] = [
        (b"", "trace: Unfinished\n"),
        (b"take\nlocal 0\nemit", "trace: BadLine 3\n"),
        (b"take\nlocal 00\n", "trace: BadLine 2\n"),
        (b"emit\n", "trace: NotEnabled 1\n"),
    ];
    for (text, line) in table {
        assert!(rt; ends(&rt, rt.alloc(), text, Status::Trace, line), "{line}");
    }
}

#[test]
fn devices_of_traces_may_fail(rt: HostRuntime) {
    let words = ["trace", "s", "i", "--workers", "1"];
    let mut out = sink(&rt, rt.alloc(), 13);
    out.fail_at(2).expect(&rt, "memory");
    let stored = files(&rt, rt.alloc(), RENAMES, b"{a=1}\n");
    let traced = serve_files(&rt, rt.alloc(), &words, stored, out, &OpenGate);
    assert!(rt; traced.is(Status::Write, b"take\nlocal 0\n", b"write\n"));
    let mut stored = with_trace(&rt, rt.alloc(), RENAMES, b"{a=1}\n", b"take\n");
    stored.fail_at(3).expect(&rt, "memory");
    let words = ["replay", "s", "i", "t"];
    let out = sink(&rt, rt.alloc(), 64);
    let unread = serve_files(&rt, rt.alloc(), &words, stored, out, &OpenGate);
    assert!(rt; unread.is(Status::Read, b"", b"read: t\n"));
}

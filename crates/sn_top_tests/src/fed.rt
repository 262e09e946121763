//! Long inputs, read in pieces from a file that fails.
use crate::served::{files, serve_files, sink};
use sn_io::OpenGate;
use sn_top::Status;
use std::alloc::Global;
use std::process::Abort;
use std::sync::Wait;
use std::thread::Threads;

const RENAMES: &str = "net main ({a} -> {b}) connect [{a} -> {b=a}];";

/// The bytes of each line, and how many lines the input has.
const LINE: u64 = 6;

const MANY: u64 = 8;

/// So many records with one label, a line each.
fn lines(rt: &impl Abort, alloc: Global, label: &str, many: u64) -> String {
    let mut lines = String::new(alloc);
    for i in 0..many {
        let line = format!(in alloc; "{{{label}={i}}}\n").expect(rt, "memory");
        lines.push_str(line.as_str()).expect(rt, "memory");
    }
    lines
}

/// Whether the records of the lines that ended before the read of this number are printed, which fails. The first read is that of the source.
fn prints_what_was_read<R: Abort + Threads + Wait + Sync>(
    rt: &R,
    alloc: Global,
    batch: u64,
    read: u64,
) -> bool {
    let input = lines(rt, alloc, "a", MANY);
    let mut stored = files(rt, alloc, RENAMES.as_bytes(), input.as_bytes());
    stored.fail_at(read).expect(rt, "memory");
    let word = format!(in alloc; "{batch}").expect(rt, "memory");
    let words = ["feed", "s", "i", "--batch", word.as_str()];
    let served = serve_files(rt, alloc, &words, stored, sink(rt, alloc, 64), &OpenGate);
    let ended = batch.wrapping_mul(read.saturating_sub(2)) / LINE;
    let printed = lines(rt, alloc, "b", MANY.min(ended));
    served.is(Status::Read, printed.as_bytes(), b"read: i\n")
}

#[test]
fn an_input_may_fail_at_any_read(rt: HostRuntime) {
    for batch in [1, 4, 6, 7, 48, 65_536] {
        // The last read finds that nothing more is there.
        let last = (LINE * MANY).div_ceil(batch).saturating_add(2);
        for read in 2..=last {
            let is_so = prints_what_was_read(&rt, rt.alloc(), batch, read);
            assert!(rt; is_so, "batch {batch}, read {read}");
        }
    }
}

//! Calls of the top over files and sinks in memory.
ghost use Rattle.std.specs.Prelude.{◌<◌};

use sn_io::{Gate, MemFiles, MemSink};
use sn_list::Memory;
use sn_top::{Status, serve_words};
use std::alloc::Global;
use std::process::Abort;
use std::sync::Wait;
use std::thread::Threads;

/// A source `s` and an input `i`.
pub fn try_files(alloc: Global, source: &[u8], input: &[u8]) -> Result<MemFiles, Memory> {
    let mut files = MemFiles::new(alloc);
    files.add(b"s", source)?;
    files.add(b"i", input)?;
    Ok(files)
}

pub fn files(rt: &impl Abort, alloc: Global, source: &[u8], input: &[u8]) -> MemFiles {
    try_files(alloc, source, input).expect(rt, "memory")
}

/// A sink with room for what is printed, which takes so many bytes a call.
pub fn try_sink(alloc: Global, piece: usize) -> Result<MemSink, Memory>
    requires { 0 < piece }
{
    let mut sink = MemSink::new(alloc, piece);
    sink.reserve(256)?;
    Ok(sink)
}

pub fn sink(rt: &impl Abort, alloc: Global, piece: usize) -> MemSink
    requires { 0 < piece }
{
    try_sink(alloc, piece).expect(rt, "memory")
}

#[derive(Drop)]
pub struct Served {
    pub status: Status,
    pub out: MemSink,
    pub err: MemSink,
}

impl Served {
    pub fn is(&self, status: Status, out: &[u8], err: &[u8]) -> bool {
        self.status == status && self.out.held() == out && self.err.held() == err
    }
}

pub fn owned(rt: &impl Abort, alloc: Global, words: &[&str]) -> Vec<String> {
    let mut owned = Vec::new(alloc);
    for word in words {
        let word = String::from_str(alloc, word).expect(rt, "memory");
        owned.push(word).expect(rt, "memory");
    }
    owned
}

/// What the words do with a source `s` and an input `i`.
pub fn serve_files<R: Abort + Threads + Wait + Sync, G: Gate>(
    rt: &R,
    alloc: Global,
    words: &[&str],
    mut files: MemFiles,
    mut out: MemSink,
    gate: &G,
) -> Served {
    let words = owned(rt, alloc, words);
    let mut err = sink(rt, alloc, 256);
    let status = serve_words(rt, alloc, &words, &mut files, &mut out, &mut err, gate);
    Served { status, out, err }
}

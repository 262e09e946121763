//! The outside: files to read, sinks to write, and a gate round each call of a box.
//!
//! Each of them counts its faults, and a fault is answered only where its count rose in that call, or
//! stands at its last value, 2^64 - 1, where it stays. So what a program answers for a fault has a
//! cause outside of it. Want of memory is the one answer with no such cause.
#![tactic(auto)]

mod files;
mod gate;
mod mem_files;
mod mem_sink;
mod null_sink;
mod plan;
mod sink;
mod std_files;
mod std_sink;

pub use files::{Bytes, Files, FilesFault};
pub use gate::{Gate, OpenGate};
pub use mem_files::MemFiles;
pub use mem_sink::MemSink;
pub use null_sink::NullSink;
pub use sink::{Failed, Sink, WriteFault, write_whole};
pub use std_files::StdFiles;
pub use std_sink::StdSink;

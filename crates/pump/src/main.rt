//! Passes entries from one thread to another, and prints how many came: `pump WAY CAPACITY COUNT`, where WAY is
//! - `stream`: a stream of sn_stream, for what comes into a network of a run over COUNT faults;
//! - `queue`: a queue under no rule, to compare with.
//!
//! CAPACITY is 1 to 1,024, and COUNT at most 16,777,216. A program to measure: `bench/stream` runs it. The exit status is 1 where the words are
//! none of these, or memory is wanted.
#![tactic(auto)]

mod command;
mod passing;
mod refusal;
mod run;

use command::{Command, Way};
use passing::{by_queue, by_stream};
use refusal::Refusal;
use run::{faults, started};
use std::alloc::{AllocError, Global};
use std::io::ErrorKind;
use std::process::ExitCode;
use std::sync::{Arc, Wait};
use std::thread::Threads;
use std::{env, io};

/// Why something outside was refused: for want of memory, or this.
fn told(fault: &io::Error, other: Refusal) -> Refusal {
    match fault.kind() {
        ErrorKind::OutOfMemory => Refusal::Memory,
        _ => other,
    }
}

/// The words of the command line after the program's name.
fn words(rt: &HostRuntime) -> Result<Vec<String>, Refusal> {
    match env::args(rt) {
        Ok(all) => Ok(all.skip(1).collect(rt.alloc())?),
        Err(fault) => Err(told(&fault, Refusal::Usage)),
    }
}

/// Does what the words ask for, and answers how many entries came through.
fn serve<R: Threads + Wait + Sync>(
    rt: &R,
    alloc: Global,
    words: &[String],
) -> Result<u64, Refusal> {
    let command = Command::read(words).ok_or(Refusal::Usage)?;
    match command.way {
        Way::Stream => {
            let run = started(alloc, command.count)?;
            let run = Arc::new(alloc, run).map_err(AllocError::from)?;
            by_stream(rt, alloc, &run, command.capacity)
        }
        Way::Queue => {
            let items = faults(alloc, command.count)?;
            by_queue(rt, alloc, items.into_vec(), command.capacity)
        }
    }
}

/// The exit status, with the line that says how many entries came, or why none did.
fn told_outcome(rt: &HostRuntime, outcome: Result<u64, Refusal>) -> u8 {
    match outcome {
        Ok(count) => {
            if println!(rt; "entries={count}").is_ok() {
                return 0;
            }
        }
        Err(refusal) => {
            let _ = eprintln!(rt; "pump: {refusal}");
        }
    }
    1
}

fn main(rt: HostRuntime) -> ExitCode {
    let outcome = match words(&rt) {
        Ok(words) => serve(&rt, rt.alloc(), words.as_slice()),
        Err(refusal) => Err(refusal),
    };
    ExitCode::from(told_outcome(&rt, outcome))
}

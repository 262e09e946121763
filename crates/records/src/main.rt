//! Records as JSON lines and back, a line at a time: `records from-json` reads JSON lines from standard input and writes a record file,
//! and `records to-json` does the reverse.
//!
//! The exit status is 0 where all lines were converted, 2 where the words ask for nothing that is known, 6 at a line that is refused, which
//! a line on standard error tells with the reason and behind which nothing is read, and 3, 8, 9 and 11 as those of snet. What stands before
//! such a line is written, and of it nothing.
#![tactic(auto)]

mod command;
mod convert;
mod refusal;

use command::{Asked, Direction, read_words};
use convert::convert;
use refusal::Refusal;
use std::io::{BufReader, BufWriter, ErrorKind, Write};
use std::process::ExitCode;
use std::{env, io};

/// The words of the command line after the program's name.
fn words(rt: &HostRuntime) -> Result<Vec<String>, Refusal> {
    match env::args(rt) {
        Ok(all) => Ok(all.skip(1).collect(rt.alloc())?),
        Err(fault) if fault.kind() == ErrorKind::OutOfMemory => Err(Refusal::Memory),
        Err(_) => Err(Refusal::Usage),
    }
}

/// Converts what standard input has. What was converted is written, also where a line behind it is refused.
fn run(rt: &HostRuntime, direction: Direction) -> Result<(), Refusal> {
    let alloc = rt.alloc();
    let mut reader = BufReader::new(alloc, rt.reader())?;
    let mut writer = BufWriter::new(alloc, io::writer(rt))?;
    let outcome = convert(alloc, direction, &mut reader, &mut writer);
    match writer.flush() {
        Ok(()) => outcome,
        Err(_) => Err(Refusal::Write),
    }
}

/// Does what the words ask for.
fn serve(rt: &HostRuntime) -> Result<(), Refusal> {
    let words = words(rt)?;
    match read_words(rt.alloc(), words.as_slice())? {
        Asked::Convert(direction) => run(rt, direction),
        Asked::Text(text) => match rt.stdout().write_all(text.as_bytes()) {
            Ok(()) => Ok(()),
            Err(_) => Err(Refusal::Write),
        },
    }
}

fn main(rt: HostRuntime) -> ExitCode {
    match serve(&rt) {
        Ok(()) => ExitCode::from(0),
        Err(refusal) => {
            let _ = eprintln!(rt; "{refusal}");
            ExitCode::from(refusal.status())
        }
    }
}

//! Explains what snet writes on standard error: `explain SOURCE [INPUT]` reads lines from standard input and writes each one, and below each that is a
//! refusal or a fault where its place is in these files, the text around it, and what would mend it. Lines that are none of snet's, or do not fit
//! the files, are passed on as they are. Places are coloured where standard output is a terminal.
//!
//! The exit status is 0 where all was read and written, 2 where the words ask for nothing that is known, and 3, 8 and 9 as those of snet.
#![tactic(auto)]

mod command;
mod lines;
mod refusal;

use command::{Asked, Command, read_words};
use lines::explain_all;
use refusal::Refusal;
use sn_explain::{File, Given};
use std::io::{BufReader, BufWriter, ErrorKind, IsTerminal, Write};
use std::process::ExitCode;
use std::{env, fs, io};

/// The words of the command line after the program's name.
fn words(rt: &HostRuntime) -> Result<Vec<String>, Refusal> {
    match env::args(rt) {
        Ok(all) => Ok(all.skip(1).collect(rt.alloc())?),
        Err(fault) if fault.kind() == ErrorKind::OutOfMemory => Err(Refusal::Memory),
        Err(_) => Err(Refusal::Usage),
    }
}

/// The bytes of a file.
fn read(rt: &HostRuntime, name: &str) -> Result<Vec<u8>, Refusal> {
    match fs::read(rt, name) {
        Ok(bytes) => Ok(bytes),
        Err(fault) if fault.kind() == ErrorKind::OutOfMemory => Err(Refusal::Memory),
        Err(_) => Err(Refusal::read(rt.alloc(), name)),
    }
}

/// Explains the lines of standard input over the files of a run. What was explained is written, also where reading fails behind it.
fn explain_given(rt: &HostRuntime, given: &Given<'_>) -> Result<(), Refusal> {
    let alloc = rt.alloc();
    let paint = rt.stdout().is_terminal();
    let mut reader = BufReader::new(alloc, rt.reader())?;
    let mut writer = BufWriter::new(alloc, io::writer(rt))?;
    let outcome = explain_all(alloc, given, paint, &mut reader, &mut writer);
    match writer.flush() {
        Ok(()) => outcome,
        Err(_) => Err(Refusal::Write),
    }
}

/// Explains the lines of standard input over a source alone.
fn explain_source(rt: &HostRuntime, source: File<'_>) -> Result<(), Refusal> {
    let given = Given {
        source,
        input: None,
    };
    explain_given(rt, &given)
}

/// Explains them over a source and a record file.
fn explain_both<'a>(rt: &HostRuntime, source: File<'a>, input: File<'a>) -> Result<(), Refusal> {
    let given = Given {
        source,
        input: Some(input),
    };
    explain_given(rt, &given)
}

/// A file with its bytes.
fn file<'a>(name: &'a str, text: &'a [u8]) -> File<'a> {
    File {
        name: name.as_bytes(),
        text,
    }
}

/// Reads the files that the command names.
fn explain(rt: &HostRuntime, command: &Command) -> Result<(), Refusal> {
    let name = command.source.as_str();
    let source = read(rt, name)?;
    match command.input() {
        None => explain_source(rt, file(name, source.as_slice())),
        Some(input) => {
            let lines = read(rt, input)?;
            explain_both(
                rt,
                file(name, source.as_slice()),
                file(input, lines.as_slice()),
            )
        }
    }
}

/// Does what the words ask for.
fn serve(rt: &HostRuntime) -> Result<(), Refusal> {
    let words = words(rt)?;
    match read_words(rt.alloc(), words.as_slice())? {
        Asked::Explain(command) => explain(rt, &command),
        Asked::Text(text) => match rt.stdout().write_all(text.as_bytes()) {
            Ok(()) => Ok(()),
            Err(_) => Err(Refusal::Write),
        },
    }
}

fn main(rt: HostRuntime) -> ExitCode {
    match serve(&rt) {
        Ok(()) => ExitCode::from(0),
        Err(refusal) => {
            let _ = eprintln!(rt; "{refusal}");
            ExitCode::from(refusal.status())
        }
    }
}

//! Draws the network of a source in the language of Graphviz: `draw SOURCE [--claim NAME] [--plan]` prints the picture of the network of `main`, or of
//! another net with a signature, as it is written or as it is planned.
//!
//! Each edge tells the variants that flow along it, as they are inferred from the input type; where the net's types are refused, the title
//! says so. The exit status is 0 where the picture was printed, 2 where the words ask for nothing that is known, 6 where the source is refused,
//! for the reason that stands on standard error, and 3, 8 and 9 as those of snet.
#![tactic(auto)]

mod claim;
mod command;
mod picture;
mod plan;
mod refusal;

use command::{Asked, Command, read_words};
use picture::picture_of;
use refusal::Refusal;
use sn_load::SOURCE_LIMIT;
use std::io::{ErrorKind, Write};
use std::process::ExitCode;
use std::{env, fs};

/// The words of the command line after the program's name.
fn words(rt: &HostRuntime) -> Result<Vec<String>, Refusal> {
    Ok(env::args(rt)?.skip(1).collect(rt.alloc())?)
}

/// The bytes of a file.
fn read(rt: &HostRuntime, name: &str) -> Result<Vec<u8>, Refusal> {
    match fs::read(rt, name) {
        Ok(bytes) => Ok(bytes),
        Err(fault) if fault.kind() == ErrorKind::OutOfMemory => Err(Refusal::Memory),
        Err(_) => Err(Refusal::read(rt.alloc(), name)),
    }
}

/// Prints the picture that a command asks for.
fn draw(rt: &HostRuntime, command: &Command) -> Result<(), Refusal> {
    let name = command.source.as_str();
    let source = read(rt, name)?;
    if source.len() as u64 > SOURCE_LIMIT {
        return Err(Refusal::too_large(rt.alloc(), name));
    }
    let text = picture_of(rt.alloc(), source.as_slice(), command)?;
    print(rt, text.as_slice())
}

fn print(rt: &HostRuntime, text: &[u8]) -> Result<(), Refusal> {
    match rt.stdout().write_all(text) {
        Ok(()) => Ok(()),
        Err(_) => Err(Refusal::Write),
    }
}

/// Does what the words ask for.
fn serve(rt: &HostRuntime) -> Result<(), Refusal> {
    let words = words(rt)?;
    match read_words(rt.alloc(), words.as_slice())? {
        Asked::Draw(command) => draw(rt, &command),
        Asked::Text(text) => print(rt, text.as_bytes()),
    }
}

fn main(rt: HostRuntime) -> ExitCode {
    match serve(&rt) {
        Ok(()) => ExitCode::from(0),
        Err(refusal) => {
            let _ = eprintln!(rt; "{refusal}");
            ExitCode::from(refusal.status())
        }
    }
}

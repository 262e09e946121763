//! The words of the command line.
use crate::refusal::Refusal;
use clap::error::ErrorKind;
use clap::{Command, Error};
use std::alloc::{AllocError, Global};

/// Which lines become which.
#[derive(Clone, Copy, PartialEq, Eq)]
pub enum Direction {
    FromJson,
    ToJson,
}

/// What the words ask for.
#[derive(Drop)]
pub enum Asked {
    Convert(Direction),
    /// To show this, which is help or the version.
    Text(String),
}

const FROM_JSON: &str = "from-json";

const TO_JSON: &str = "to-json";

/// The program with one more command, which takes no words.
fn with_command<'a>(
    alloc: Global,
    program: Command<'a>,
    name: &'a str,
    about: &'a str,
) -> Result<Command<'a>, AllocError> {
    program.subcommand(Command::new(alloc, name).about(about))
}

/// The program's commands, as `clap` is told of them.
fn program_form<'a>(alloc: Global) -> Result<Command<'a>, AllocError> {
    let program = Command::new(alloc, "records")
        .about(
            "Converts the records of S-Net to JSON lines and back, from standard input to standard output",
        )
        .version("0.1")
        .no_binary_name(true)
        .subcommand_required(true);
    let program = with_command(
        alloc,
        program,
        FROM_JSON,
        "Reads JSON lines, each an object, and writes a record file: a key a is the field a, a key <t> the tag <t>",
    )?;
    with_command(
        alloc,
        program,
        TO_JSON,
        "Reads a record file and writes JSON lines",
    )
}

/// What is said where `clap` refuses the words, or shows something in place of a command.
fn told(alloc: Global, error: &Error) -> Result<Asked, Refusal> {
    match error.kind() {
        ErrorKind::DisplayHelp | ErrorKind::DisplayVersion => {
            Ok(Asked::Text(format!(in alloc; "{error}")?))
        }
        ErrorKind::OutOfMemory => Err(Refusal::Memory),
        _ => Err(Refusal::Usage),
    }
}

/// What the words after the program's name ask for.
pub fn read_words(alloc: Global, words: &[String]) -> Result<Asked, Refusal> {
    let program = program_form(alloc)?;
    let matches = match program.try_get_matches_from(words) {
        Ok(matches) => matches,
        Err(error) => return told(alloc, &error),
    };
    match matches.subcommand() {
        Some((FROM_JSON, _)) => Ok(Asked::Convert(Direction::FromJson)),
        Some((TO_JSON, _)) => Ok(Asked::Convert(Direction::ToJson)),
        _ => Err(Refusal::Usage),
    }
}

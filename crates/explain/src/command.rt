//! The words of the command line.
use crate::refusal::Refusal;
use clap::error::ErrorKind;
use clap::{Arg, ArgMatches, Error};
use std::alloc::{AllocError, Global};

/// What is to be explained.
#[derive(Drop)]
pub struct Command {
    /// The name of the source's file.
    pub source: String,
    /// The name of the record file, if there is one.
    input: Option<String>,
}

impl Command {
    /// The name of the record file, if there is one.
    pub fn input(&self) -> Option<&str> {
        match &self.input {
            Some(name) => Some(name.as_str()),
            None => None,
        }
    }
}

/// What the words ask for.
#[derive(Drop)]
pub enum Asked {
    Explain(Command),
    /// To show this, which is help or the version.
    Text(String),
}

const SOURCE: &str = "SOURCE";

const INPUT: &str = "INPUT";

/// The program, as `clap` is told of it.
fn program_form<'a>(alloc: Global) -> Result<clap::Command<'a>, AllocError> {
    let program = clap::Command::new(alloc, "explain")
        .about(
            "Explains the lines that snet writes on standard error, which are read from standard input",
        )
        .version("0.1")
        .no_binary_name(true);
    let source = Arg::new(alloc, SOURCE)
        .required(true)
        .help("The file of the source");
    let input = Arg::new(alloc, INPUT).help("The record file");
    program.arg(source)?.arg(input)
}

/// What is said where `clap` refuses the words, or shows something in place of a command.
fn told(alloc: Global, error: &Error) -> Result<Asked, Refusal> {
    match error.kind() {
        ErrorKind::DisplayHelp | ErrorKind::DisplayVersion => {
            Ok(Asked::Text(format!(in alloc; "{error}")?))
        }
        ErrorKind::OutOfMemory => Err(Refusal::Memory),
        _ => Err(Refusal::Usage),
    }
}

/// The command of what `clap` found.
fn found(alloc: Global, matches: &ArgMatches) -> Result<Asked, Refusal> {
    let Some(source) = matches.get_str(SOURCE) else {
        return Err(Refusal::Usage);
    };
    let source = String::from_str(alloc, source)?;
    let input = match matches.get_str(INPUT) {
        Some(name) => Some(String::from_str(alloc, name)?),
        None => None,
    };
    Ok(Asked::Explain(Command { source, input }))
}

/// What the words after the program's name ask for.
pub fn read_words(alloc: Global, words: &[String]) -> Result<Asked, Refusal> {
    let program = program_form(alloc)?;
    match program.try_get_matches_from(words) {
        Ok(matches) => found(alloc, &matches),
        Err(error) => told(alloc, &error),
    }
}

//! The words of the command line.
use crate::refusal::Refusal;
use clap::error::ErrorKind;
use clap::{Arg, ArgAction, ArgMatches, Error};
use std::alloc::{AllocError, Global};

/// A picture that is asked for.
#[derive(Drop)]
pub struct Command {
    /// The name of the source's file.
    pub source: String,
    /// The name of the net, where it is not `main`.
    claim: Option<String>,
    /// Whether its network is drawn as it is planned.
    pub is_planned: bool,
}

impl Command {
    /// The name of the net that is drawn.
    pub fn claim(&self) -> &[u8] {
        match &self.claim {
            Some(name) => name.as_bytes(),
            None => b"main",
        }
    }
}

/// What the words ask for.
#[derive(Drop)]
pub enum Asked {
    Draw(Command),
    /// To show this, which is help or the version.
    Text(String),
}

const SOURCE: &str = "SOURCE";

const CLAIM: &str = "claim";

const PLAN: &str = "plan";

/// The program, as `clap` is told of it.
fn program_form<'a>(alloc: Global) -> Result<clap::Command<'a>, AllocError> {
    let program = clap::Command::new(alloc, "draw")
        .about("Prints the network of a source of S-Net in the language of Graphviz")
        .version("0.1")
        .no_binary_name(true);
    let source = Arg::new(alloc, SOURCE)
        .required(true)
        .help("The file of the source");
    let claim = Arg::new(alloc, CLAIM)
        .long(CLAIM)
        .value_name("NAME")
        .help("A net with a signature, in place of main");
    let plan = Arg::new(alloc, PLAN)
        .long(PLAN)
        .action(ArgAction::SetTrue)
        .help("Draw the planned network, with what was dropped in the title");
    program.arg(source)?.arg(claim)?.arg(plan)
}

/// What is said where `clap` refuses the words, or shows something in place of a picture.
fn told(alloc: Global, error: &Error) -> Result<Asked, Refusal> {
    match error.kind() {
        ErrorKind::DisplayHelp | ErrorKind::DisplayVersion => {
            Ok(Asked::Text(format!(in alloc; "{error}")?))
        }
        ErrorKind::OutOfMemory => Err(Refusal::Memory),
        _ => Err(Refusal::Usage),
    }
}

/// The command of what `clap` found.
fn found(alloc: Global, matches: &ArgMatches) -> Result<Asked, Refusal> {
    let Some(source) = matches.get_str(SOURCE) else {
        return Err(Refusal::Usage);
    };
    let source = String::from_str(alloc, source)?;
    let claim = match matches.get_str(CLAIM) {
        Some(name) => Some(String::from_str(alloc, name)?),
        None => None,
    };
    Ok(Asked::Draw(Command {
        source,
        claim,
        is_planned: matches.get_flag(PLAN),
    }))
}

/// What the words after the program's name ask for.
pub fn read_words(alloc: Global, words: &[String]) -> Result<Asked, Refusal> {
    let program = program_form(alloc)?;
    match program.try_get_matches_from(words) {
        Ok(matches) => found(alloc, &matches),
        Err(error) => told(alloc, &error),
    }
}

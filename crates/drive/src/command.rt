//! The words of the command line, after the program's name.
ghost use Rattle.std.specs.Prelude.{IfSome};
ghost use Rattle.sn_model.specs.Ranges.{IsWithin};
ghost use Rattle.sn_model.specs.declared.run.TheConstants.{LONGEST_QUEUE, MOST_FUEL, MOST_REPLICAS};

use crate::order::Way;
use sn_model::{LONGEST_QUEUE, MOST_FUEL, MOST_REPLICAS};

/// As `snet once` has it where no word says it.
const DEFAULT_FUEL: u64 = 1_000_000;

const DEFAULT_DEPTH: u32 = 1_000;

const DEFAULT_QUEUE: u32 = 16;

/// Units of fuel for each call of a box, how many replicas a star may have, and how many entries a stream between two nodes holds.
#[derive(Clone, Copy)]
pub struct Limits {
    pub fuel: u64,
    pub depth: u32,
    pub queue: u32,
    pub ghost some_fuel: { IsWithin fuel MOST_FUEL },
    pub ghost some_replicas: { IsWithin depth MOST_REPLICAS },
    pub ghost some_room: { IsWithin queue LONGEST_QUEUE },
}

/// What is printed.
#[derive(Clone, Copy)]
pub enum Report {
    Records,
    /// How many events happened or turns were taken, and how many nodes there are.
    Counts,
    /// The steps to each node.
    Steps,
}

/// What is asked for.
#[derive(Drop)]
pub struct Command<'a> {
    pub way: Way,
    /// The name of the source's file.
    pub source: &'a str,
    /// The name of the input's file.
    pub input: &'a str,
    pub seed: u64,
    pub limits: Limits,
    pub report: Report,
}

/// A number from 1 to `most`.
fn read_up_to(most: u64, digits: &str) -> Option<u64>
    ensures { IfSome result (λ n. IsWithin n most) }
{
    match digits.parse::<u64>() {
        Ok(n) if 1 <= n && n <= most => Some(n),
        _ => None,
    }
}

impl<'a> Command<'a> {
    pub fn read(words: &'a [String]) -> Option<Command<'a>> {
        let [way, source, input, more @ ..] = words else {
            return None;
        };
        let mut command = Command {
            way: Way::named(way.as_str())?,
            source: source.as_str(),
            input: input.as_str(),
            seed: 0,
            limits: Limits {
                fuel: DEFAULT_FUEL,
                depth: DEFAULT_DEPTH,
                queue: DEFAULT_QUEUE,
            },
            report: Report::Records,
        };
        for word in more {
            command.read_more(word.as_str())?;
        }
        Some(command)
    }

    /// Reads a word behind the files.
    fn read_more(&mut self, word: &str) -> Option<()> {
        match word.split_once('=') {
            Some(("--fuel", digits)) => self.limits.fuel = read_up_to(MOST_FUEL, digits)?,
            Some(("--depth", digits)) => {
                self.limits.depth = read_up_to(u64::from(MOST_REPLICAS), digits)? as u32
            }
            Some(("--queue", digits)) => {
                self.limits.queue = read_up_to(u64::from(LONGEST_QUEUE), digits)? as u32
            }
            Some(_) => return None,
            None if word == "--count" => self.report = Report::Counts,
            None if word == "--steps" => self.report = Report::Steps,
            None => self.seed = word.parse::<u64>().ok()?,
        }
        Some(())
    }
}

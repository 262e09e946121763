//! What the words ask for.
ghost use Rattle.std.specs.Prelude.{◌≡◌};
ghost use Rattle.sn_words.specs.Command.{input_of, source_of, trace_of};

use sn_list::Memory;
use sn_record::Text;
use std::alloc::AllocError;

/// What the words ask for. Names of files are the words as they stand, and never empty.
#[derive(PartialEq, Eq, Drop)]
pub enum Command {
    /// Run the net of a source over the records of an input, with so many workers, of which the calling thread is one.
    Run {
        source: Text,
        input: Text,
        workers: u32,
        /// Units of fuel for each call of a box.
        fuel: u64,
        /// How many replicas a star may have.
        depth: u32,
        /// How many entries a queue between workers holds.
        queue: u32,
        /// 1 where the planned network is run, and else 0.
        plan: u32,
    },
    /// Run the net of a source once over the records of an input, in one thread.
    Once {
        source: Text,
        input: Text,
        fuel: u64,
        depth: u32,
    },
    /// Check the types of a source, and print what can come out for each variant of its input.
    Check {
        source: Text,
    },
    /// Print the canonical text of a source.
    Print {
        source: Text,
    },
    /// Print how many nodes the net of a source has, and how many its planned network.
    Plan {
        source: Text,
    },
    /// Run the net of a source over the records of an input with workers, and print one line for each event of its graph.
    Trace {
        source: Text,
        input: Text,
        workers: u32,
        fuel: u64,
        depth: u32,
        queue: u32,
    },
    /// Check the text of a trace event by event, and print the records that come out by it.
    Replay {
        source: Text,
        input: Text,
        trace: Text,
        fuel: u64,
        depth: u32,
    },
    /// Run the net of a source in one thread over the records of an input that may be long, which is read in pieces and printed as it goes.
    Feed {
        source: Text,
        input: Text,
        /// The most bytes of a piece.
        batch: u32,
        fuel: u64,
        depth: u32,
    },
    /// Run the built-in net over so many records that are made from a number, and print counters of what comes out.
    Sample {
        number: u32,
        count: u32,
    },
}

impl Command {
    /// The name of the source's file, or nothing where the command reads none.
    pub fn source(&self) -> &[u8]
        ensures { result.now ≡ source_of self.now }
    {
        match self {
            Command::Run { source, .. } => source.as_slice(),
            Command::Once { source, .. } => source.as_slice(),
            Command::Check { source } => source.as_slice(),
            Command::Print { source } => source.as_slice(),
            Command::Plan { source } => source.as_slice(),
            Command::Trace { source, .. } => source.as_slice(),
            Command::Replay { source, .. } => source.as_slice(),
            Command::Feed { source, .. } => source.as_slice(),
            Command::Sample { .. } => &[],
        }
    }

    /// The name of the input's file, or nothing where the command reads none.
    pub fn input(&self) -> &[u8]
        ensures { result.now ≡ input_of self.now }
    {
        match self {
            Command::Run { input, .. } => input.as_slice(),
            Command::Once { input, .. } => input.as_slice(),
            Command::Trace { input, .. } => input.as_slice(),
            Command::Replay { input, .. } => input.as_slice(),
            Command::Feed { input, .. } => input.as_slice(),
            Command::Check { .. }
            | Command::Print { .. }
            | Command::Plan { .. }
            | Command::Sample { .. } => &[],
        }
    }

    /// The name of the trace's file, or nothing where the command reads none.
    pub fn trace(&self) -> &[u8]
        ensures { result.now ≡ trace_of self.now }
    {
        match self {
            Command::Replay { trace, .. } => trace.as_slice(),
            Command::Run { .. }
            | Command::Once { .. }
            | Command::Check { .. }
            | Command::Print { .. }
            | Command::Plan { .. }
            | Command::Trace { .. }
            | Command::Feed { .. }
            | Command::Sample { .. } => &[],
        }
    }
}

/// Why words gave no command.
#[derive(Clone, Copy, PartialEq, Eq, Debug)]
pub enum WordsFault {
    /// They ask for nothing that the program knows.
    Usage,
    Memory,
}

impl From<Memory> for WordsFault {
    ghost use Rattle.std.specs.Prelude.{◌≡◌};
    ghost use Rattle.sn_words.specs.declared.command.WordsFault.{WordsFault};

    ghost from_gives = { λ _ e. e ≡ WordsFault.Memory };

    fn from(_memory: Memory) -> WordsFault {
        WordsFault::Memory
    }
}

impl From<AllocError> for WordsFault {
    ghost use Rattle.std.specs.Prelude.{◌≡◌};
    ghost use Rattle.sn_words.specs.declared.command.WordsFault.{WordsFault};

    ghost from_gives = { λ _ e. e ≡ WordsFault.Memory };

    fn from(_error: AllocError) -> WordsFault {
        WordsFault::Memory
    }
}

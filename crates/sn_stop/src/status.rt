//! How a command ended.
ghost use Rattle.std.specs.Prelude.{◌≡◌};
ghost use Rattle.sn_stop.specs.Status.{status_code};

/// How a command ended. Its number is the exit status of the program.
#[derive(Clone, Copy, PartialEq, Eq)]
pub enum Status {
    /// The command was done.
    Ok,
    /// The words are no command.
    Usage,
    /// A file was not read.
    Read,
    /// The source is none.
    Source,
    /// The types of a net are wrong.
    IllTyped,
    /// The input is no record file, or not of the input type.
    Input,
    /// What was printed ends at a fault.
    Fault,
    /// Memory was wanted and not had.
    Memory,
    /// The output was not all written.
    Write,
    /// A file is past its limit.
    TooLarge,
    /// Another limit is passed.
    Limit,
    /// The trace is none of the run.
    Trace,
}

impl Status {
    /// The exit status of the program.
    pub fn code(self) -> u8
        ensures { result ≡ status_code self }
    {
        match self {
            Status::Ok => 0,
            Status::Usage => 2,
            Status::Read => 3,
            Status::Source => 4,
            Status::IllTyped => 5,
            Status::Input => 6,
            Status::Fault => 7,
            Status::Memory => 8,
            Status::Write => 9,
            Status::TooLarge => 10,
            Status::Limit => 11,
            Status::Trace => 13,
        }
    }
}

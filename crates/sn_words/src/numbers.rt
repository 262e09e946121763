//! Numbers as the command line writes them.
ghost use Rattle.std.specs.Prelude.{◌≡◌};
ghost use Rattle.sn_words.specs.Words.{number_of, within};

/// The workers of a run where no word says it.
pub const DEFAULT_WORKERS: u32 = 4;

/// Units of fuel for each call of a box where no word says it.
pub const DEFAULT_FUEL: u64 = 1_000_000;

/// How many replicas a star may have where no word says it.
pub const DEFAULT_DEPTH: u32 = 1_000;

/// How many entries a queue holds where no word says it.
pub const DEFAULT_QUEUE: u32 = 16;

/// Whether the planned network is run, where no word says it.
pub const DEFAULT_PLAN: u32 = 0;

/// The most bytes of a piece of a long input where no word says it.
pub const DEFAULT_BATCH: u32 = 65_536;

/// An option whose value is a number.
pub(crate) struct Setting {
    pub(crate) name: &'static str,
    pub(crate) least: u64,
    pub(crate) most: u64,
    /// The number where the option is not given.
    pub(crate) usual: u64,
}

/// The workers of a run, the caller among them.
pub(crate) const WORKERS: Setting = Setting {
    name: "workers",
    least: 1,
    most: 64,
    usual: DEFAULT_WORKERS as u64,
};

/// Units of fuel for each call of a box.
pub(crate) const FUEL: Setting = Setting {
    name: "fuel",
    least: 1,
    most: 1_000_000_000,
    usual: DEFAULT_FUEL,
};

/// How many replicas a star may have.
pub(crate) const DEPTH: Setting = Setting {
    name: "depth",
    least: 1,
    most: 2_000,
    usual: DEFAULT_DEPTH as u64,
};

/// How many entries a queue between workers holds.
pub(crate) const QUEUE: Setting = Setting {
    name: "queue",
    least: 1,
    most: 1_024,
    usual: DEFAULT_QUEUE as u64,
};

/// The most bytes of a piece of a long input.
pub(crate) const BATCH: Setting = Setting {
    name: "batch",
    least: 1,
    most: 1_048_576,
    usual: DEFAULT_BATCH as u64,
};

/// Whether the planned network is run.
pub(crate) const PLAN: Setting = Setting {
    name: "plan",
    least: 0,
    most: 1,
    usual: DEFAULT_PLAN as u64,
};

/// The number that one to ten digits write. A plus, which `parse` takes, is refused.
fn number_of_digits(word: &str) -> Option<u64>
    ensures { result ≡ number_of word.now }
{
    if word.len() > 10 || word.starts_with('+') {
        return None;
    }
    word.parse().ok()
}

/// The number that a word writes, if it is from `least` to `most`.
pub(crate) fn read_number(word: &str, least: u64, most: u64) -> Option<u64>
    ensures { result ≡ within least most (number_of word.now) }
{
    let number = number_of_digits(word)?;
    if number < least || number > most {
        return None;
    }
    Some(number)
}

//! Numbers by chance.
ghost use Rattle.std.specs.Prelude.{◌<◌};

use rand_core::utils::NextWord;
use rand_pcg::Pcg32;

/// A generator of numbers, the same for each seed.
#[derive(Drop)]
pub struct Chance {
    words: Pcg32,
}

impl Chance {
    pub fn new(seed: u64) -> Chance {
        Chance {
            words: Pcg32::new(seed, 0),
        }
    }

    /// A number below another.
    pub fn below(&mut self, bound: u32) -> u32
        requires { 0 < bound }
        ensures { result < bound }
    {
        self.words.next_word() % bound
    }
}

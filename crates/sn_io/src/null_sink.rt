ghost use Rattle.std.specs.Prelude.{None};

use crate::sink::{Failed, Sink};

/// Takes every piece whole, and tells nothing of what it got. It has no faults.
#[derive(Clone, Copy, PartialEq, Eq)]
pub struct NullSink;

impl Sink for NullSink {
    ghost held = { λ _. None };

    ghost faults = { λ _. 0 };

    fn write(&mut self, piece: &[u8]) -> Result<usize, Failed> {
        Ok(piece.len())
    }
}

ghost use Rattle.std.specs.Prelude.{◌≡◌, ◌<◌, ◌≤◌, ℕ, List, Option, length, take, IfOk, MatchResult, OnOk, OnErr};
ghost use Rattle.sn_io.specs.Causes.{HasCause};
ghost use Rattle.sn_io.specs.Told.{appended, AppendsPrefix};

use thiserror::Error;

/// A sink took nothing of a piece.
#[derive(Clone, Copy, PartialEq, Eq, Debug, Error)]
#[error("the sink took nothing")]
pub struct Failed;

/// A sink did not take all bytes.
#[derive(Clone, Copy, PartialEq, Eq, Debug, Error)]
#[error("the bytes were not all written")]
pub struct WriteFault;

/// Where bytes go.
pub trait Sink {
    /// What the sink holds, where it is told.
    ghost held: { Self → Option (List ℕ) };

    /// The count of faults.
    ghost faults: { Self → ℕ };

    /// Appends some first bytes of `piece`, and answers how many: at least one, unless `piece` is empty.
    ///
    /// After `Failed` nothing was appended.
    fn write(&mut self, piece: &[u8]) -> Result<usize, Failed>
        ensures most { IfOk result (λ n. n ≤ length piece.now) }
        ensures least { IfOk result (λ n. 0 < length piece.now → 0 < n) }
        ensures bytes { MatchResult result (λ n. held self.new ≡ appended (held self.old) (take n piece.now)) (λ _. held self.new ≡ held self.old) }
        ensures cause { HasCause (faults self.old) (faults self.new) result };
}

/// Appends all of `bytes`, in as many writes as the sink needs. Takes no memory.
///
/// After `WriteFault` some first bytes of `bytes` were appended, maybe none, and no others.
pub fn write_whole<S: Sink>(sink: &mut S, bytes: &[u8]) -> Result<(), WriteFault>
    ensures whole { OnOk result (S.held sink.new ≡ appended (S.held sink.old) bytes.now) }
    ensures part { OnErr result (AppendsPrefix (S.held sink.old) (S.held sink.new) bytes.now) }
    ensures cause { HasCause (S.faults sink.old) (S.faults sink.new) result }
{
    let mut written = 0;
    while written < bytes.len() {
        match sink.write(&bytes[written..]) {
            Ok(count) => written += count,
            Err(Failed) => return Err(WriteFault),
        }
    }
    Ok(())
}

ghost use Rattle.std.specs.Prelude.{◌≡◌, ◌<◌, ◌≤◌, ℕ, None, length, take, IfOk, MatchResult};
ghost use Rattle.std.specs.Io.KnownBytes.{Appends};
ghost use Rattle.sn_io.specs.Adapters.{faults_of, writer_of};
ghost use Rattle.sn_io.specs.Causes.{HasCause};

use crate::sink::{Failed, Sink};
use std::io;
use std::io::Write;

/// A sink over a writer of std, of which it tells nothing.
///
/// Each write is one call of the writer's `write` and one of its `flush`, so nothing is kept back. An
/// error of either, an interrupted call among them, is a fault, and so is a piece of which nothing was
/// taken. After a fault of `flush` it isn't known what of that piece came through.
#[derive(Drop)]
pub struct StdSink<W> {
    writer: W,
    faults: u64,
}

impl<W: Write> StdSink<W> {
    /// The writer of standard output is `rt.stdout()` and that of standard error `rt.stderr()`, of the
    /// `HostRuntime` that `main` is given. Where only `Print` is had, `std::io::writer(rt)` is the first.
    /// None of them keeps anything back.
    pub fn new(writer: W) -> StdSink<W>
        ensures { ⟦<StdSink<W> as Sink>⟧.faults result ≡ 0 }
    {
        StdSink { writer, faults: 0 }
    }
}

/// Writes some of `piece`, and flushes. Answers how many bytes were taken.
fn write_through<W: Write>(writer: &mut W, piece: &[u8]) -> io::Result<usize>
    ensures most { IfOk result (λ n. n ≤ length piece.now) }
    ensures bytes { IfOk result (λ n. Appends (W.contents writer.old) (W.contents writer.new) (take n piece.now)) }
{
    let taken = writer.write(piece)?;
    writer.flush()?;
    Ok(taken)
}

impl<W: Write> Sink for StdSink<W> {
    ghost held = { λ _. None };

    ghost faults = { faults_of };

    fn write(&mut self, piece: &[u8]) -> Result<usize, Failed>
        ensures most { IfOk result (λ n. n ≤ length piece.now) }
        ensures least { IfOk result (λ n. 0 < length piece.now → 0 < n) }
        ensures cause { HasCause (faults_of self.old) (faults_of self.new) result }

        // It tells nothing of what it holds, but what it took went to its writer.
        ensures passed { IfOk result (λ n. Appends (W.contents (writer_of self.old)) (W.contents (writer_of self.new)) (take n piece.now)) }
    {
        match write_through(&mut self.writer, piece) {
            Ok(taken) if taken > 0 || piece.is_empty() => Ok(taken),
            _ => {
                self.faults = self.faults.saturating_add(1);
                Err(Failed)
            }
        }
    }
}

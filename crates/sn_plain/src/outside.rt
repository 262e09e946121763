//! Reads the files of a command, and writes the line on `err`.
ghost use Rattle.std.specs.List.{flat_map};
ghost use Rattle.std.specs.Prelude.{◌≡◌, ◌≤◌, ◌++◌, ℕ, List, length, max, codes, IfOk, IfErr, IfSome, OnOk, OnErr};
ghost use Rattle.sn_io.specs.Causes.{HasCause};
ghost use Rattle.sn_io.specs.Told.{appended, AppendsPrefix};
ghost use Rattle.sn_plain.specs.Seen.{seen_file, seen_sink, GotLine, WhyUnread};

use sn_io::{Bytes, Files, FilesFault, Sink, WriteFault, write_whole};
use sn_stop::{Refusal, Stop, Which};
use std::alloc::Global;

/// All bytes of one of a command's files.
pub fn read_file<F: Files>(
    alloc: Global,
    files: &mut F,
    which: Which,
    name: &[u8],
    limit: u64,
) -> Result<Bytes, Stop>
    ensures whole { IfOk result (λ bytes. IfSome (F.bytes_of files.old name.now) (λ told. bytes ≡ told)) }
    ensures within { IfOk result (λ bytes. length bytes ≤ limit) }
    ensures unread { IfErr result (WhyUnread which limit (seen_file F.bytes_of F.faults files.old files.new name.now)) }
    ensures later { (any : List ℕ) → F.faults files.old any ≤ F.faults files.new any }
    ensures same { (any : List ℕ) → F.bytes_of files.new any ≡ F.bytes_of files.old any }
    ensures asked { F.asked files.new ≡ max (F.asked files.old) limit }
{
    match files.read(alloc, name, limit) {
        Ok(bytes) => Ok(bytes),
        Err(FilesFault::ReadFault) => Err(Stop::Unread(which)),
        Err(FilesFault::TooLarge) => Err(Stop::Refused(Refusal::TooLarge(which))),
        Err(FilesFault::Memory) => Err(Stop::Memory),
    }
}

/// Writes pieces one after the other. Takes no memory.
fn write_pieces<E: Sink>(err: &mut E, pieces: &[&[u8]]) -> Result<(), WriteFault>
    ensures whole { OnOk result (E.held err.new ≡ appended (E.held err.old) (flat_map (λ piece. piece.now) pieces.now)) }
    ensures part { OnErr result (AppendsPrefix (E.held err.old) (E.held err.new) (flat_map (λ piece. piece.now) pieces.now)) }
    ensures cause { HasCause (E.faults err.old) (E.faults err.new) result }
{
    for piece in pieces {
        write_whole(err, piece)?;
    }
    Ok(())
}

/// Writes the line that tells why a command stopped: a text, a name, a detail in three pieces, and a line feed. Where
/// `err` fails, the rest of the line is lost.
pub fn write_line<'a, E: Sink>(
    err: &mut E,
    label: &'a [u8],
    name: &'a [u8],
    detail: (&'a [u8], &'a [u8], &'a [u8]),
)
    ensures got { GotLine (seen_sink E.held E.faults err.old err.new)
        (label.now ++ (name.now ++ ((detail.entry.0.now ++ (detail.entry.1.now ++ detail.entry.2.now)) ++ codes "\n"))) }
    ensures later { E.faults err.old ≤ E.faults err.new }
{
    let (opening, middle, closing) = detail;
    let _ = write_pieces(err, &[label, name, opening, middle, closing, b"\n"]);
}

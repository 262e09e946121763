//! The commands that the calling thread does alone.
ghost use Rattle.std.specs.Prelude.{◌≡◌, ◌≢◌, ◌<◌, ◌≤◌, ℕ, List, Ok, Some, None, IfErr, IfSome, OnOk, codes, false, map, max, true};
ghost use Rattle.std.specs.String.{string_bytes};
ghost use Rattle.sn_io.specs.Told.{appended};
ghost use Rattle.sn_load.specs.Load.{AreLimits, limits_of};
ghost use Rattle.sn_plain.specs.Seen.{GotLine, seen_file, seen_sink};
ghost use Rattle.sn_stop.specs.Status.{stop_line};
ghost use Rattle.sn_plain.specs.Answer.{GotEnd, end_status, is_plain, reads_whole, seen, Finds, AsksFew, FindsFeed, FindsFor, FindsReplay, FindsReport, FindsText, WhyEnded, WhyStopped, WhyUnfed, WhyUnreported, WhyUnplayed, WhyUnprinted, IsAnswered, HasUnread, IsCutShort, IsUnwritten, IsAnsweredFor, IsCutShortFor, NeedsOthers, OfCommand};
ghost use Rattle.sn_plain.specs.Runs.{OnOneThread, whole};
ghost use Rattle.sn_words.specs.Command.{IsInRange, input_of, source_of, trace_of, usage_text};
ghost use Rattle.sn_words.specs.Words.{command_of};

use crate::feeding::feed_program;
use crate::outside::{read_file, write_line};
use crate::ready::prepare;
use crate::replaying::{TRACE_LIMIT, print_replay};
use crate::reports::{Report, report_text};
use crate::transcript::print_once;
use itoa::Buffer;
use sn_io::{Files, Sink, write_whole};
use sn_list::Held;
use sn_load::{SOURCE_LIMIT, canonical_text, load_source};
use sn_stop::{Status, Stop, Which};
use sn_words::{Command, WordsFault, read_words, usage_line};
use std::alloc::Global;

/// Runs a source over the records of an input on one thread, and prints what comes out.
fn run_once<F: Files, O: Sink>(
    alloc: Global,
    source_name: &[u8],
    input_name: &[u8],
    fuel: u64,
    depth: u32,
    files: &mut F,
    out: &mut O,
) -> Result<(), Stop>
    requires { AreLimits (limits_of fuel depth) }
    ensures done { OnOk result ((p : List ℕ)
        × Finds OnOneThread (limits_of fuel depth) (F.bytes_of files.old source_name.now) (F.bytes_of files.old input_name.now) (Ok (whole p))
        × (O.held out.new ≡ appended (O.held out.old) p)) }
    ensures stopped { IfErr result (WhyStopped OnOneThread OnOneThread (limits_of fuel depth)
        (seen_file F.bytes_of F.faults files.old files.new source_name.now)
        (seen_file F.bytes_of F.faults files.old files.new input_name.now)
        (seen_sink O.held O.faults out.old out.new)) }
    ensures same { (name : List ℕ) → F.bytes_of files.new name ≡ F.bytes_of files.old name }
    ensures later { (name : List ℕ) → F.faults files.old name ≤ F.faults files.new name }
    ensures out_later { O.faults out.old ≤ O.faults out.new }
{
    let ready = prepare(alloc, source_name, input_name, files)?;
    match print_once(alloc, ready, fuel, depth, out)? {
        None => Ok(()),
        Some(fault) => Err(Stop::Faulted(fault)),
    }
}

/// Checks a source, and prints a report on it.
fn run_report<F: Files, O: Sink>(
    alloc: Global,
    source_name: &[u8],
    report: Report,
    files: &mut F,
    out: &mut O,
) -> Result<(), Stop>
    ensures done { OnOk result ((p : List ℕ)
        × FindsReport report (F.bytes_of files.old source_name.now) (Ok (whole p))
        × (O.held out.new ≡ appended (O.held out.old) p)) }
    ensures stopped { IfErr result (WhyUnreported report
        (seen_file F.bytes_of F.faults files.old files.new source_name.now)
        (seen_sink O.held O.faults out.old out.new)) }
    ensures same { (name : List ℕ) → F.bytes_of files.new name ≡ F.bytes_of files.old name }
    ensures later { (name : List ℕ) → F.faults files.old name ≤ F.faults files.new name }
    ensures out_later { O.faults out.old ≤ O.faults out.new }
{
    let source = read_file(alloc, files, Which::Source, source_name, SOURCE_LIMIT)?;
    let program = load_source(alloc, source.as_slice())?;
    let program = Held { value: program };
    let text = report_text(alloc, &program.value, report)?;
    write_whole(out, text.as_slice())?;
    Ok(())
}

/// Prints the canonical text of a source.
fn run_print<F: Files, O: Sink>(
    alloc: Global,
    source_name: &[u8],
    files: &mut F,
    out: &mut O,
) -> Result<(), Stop>
    ensures done { OnOk result ((p : List ℕ)
        × FindsText (F.bytes_of files.old source_name.now) (Ok (whole p))
        × (O.held out.new ≡ appended (O.held out.old) p)) }
    ensures stopped { IfErr result (WhyUnprinted
        (seen_file F.bytes_of F.faults files.old files.new source_name.now)
        (seen_sink O.held O.faults out.old out.new)) }
    ensures same { (name : List ℕ) → F.bytes_of files.new name ≡ F.bytes_of files.old name }
    ensures later { (name : List ℕ) → F.faults files.old name ≤ F.faults files.new name }
    ensures out_later { O.faults out.old ≤ O.faults out.new }
{
    let source = read_file(alloc, files, Which::Source, source_name, SOURCE_LIMIT)?;
    let text = canonical_text(alloc, source.as_slice())?;
    write_whole(out, text.as_slice())?;
    Ok(())
}

/// Checks a text as a trace of a run over the records of an input, and prints the records that come out by it.
fn run_replay<F: Files, O: Sink>(
    alloc: Global,
    source_name: &[u8],
    input_name: &[u8],
    trace_name: &[u8],
    fuel: u64,
    depth: u32,
    files: &mut F,
    out: &mut O,
) -> Result<(), Stop>
    requires { AreLimits (limits_of fuel depth) }
    ensures done { OnOk result ((p : List ℕ)
        × FindsReplay (limits_of fuel depth) (F.bytes_of files.old source_name.now) (F.bytes_of files.old input_name.now) (F.bytes_of files.old trace_name.now) (Ok (whole p))
        × (O.held out.new ≡ appended (O.held out.old) p)) }
    ensures stopped { IfErr result (WhyUnplayed (limits_of fuel depth)
        (seen_file F.bytes_of F.faults files.old files.new source_name.now)
        (seen_file F.bytes_of F.faults files.old files.new input_name.now)
        (seen_file F.bytes_of F.faults files.old files.new trace_name.now)
        (seen_sink O.held O.faults out.old out.new)) }
    ensures same { (name : List ℕ) → F.bytes_of files.new name ≡ F.bytes_of files.old name }
    ensures later { (name : List ℕ) → F.faults files.old name ≤ F.faults files.new name }
    ensures out_later { O.faults out.old ≤ O.faults out.new }
{
    let ready = prepare(alloc, source_name, input_name, files)?;
    let ready = Held { value: ready };
    let text = read_file(alloc, files, Which::Trace, trace_name, TRACE_LIMIT)?;
    match print_replay(alloc, ready.into_inner(), text.as_slice(), fuel, depth, out)? {
        None => Ok(()),
        Some(fault) => Err(Stop::Faulted(fault)),
    }
}

/// Feeds an input that may be long to a source on one thread, and prints what comes out as it comes.
fn run_feed<F: Files, O: Sink>(
    alloc: Global,
    source_name: &[u8],
    input_name: &[u8],
    batch: u32,
    fuel: u64,
    depth: u32,
    files: &mut F,
    out: &mut O,
) -> Result<(), Stop>
    requires limits { AreLimits (limits_of fuel depth) }
    requires some { 0 < batch }
    requires few { batch ≤ 1_048_576 }
    ensures done { OnOk result ((p : List ℕ)
        × FindsFeed (limits_of fuel depth) (F.bytes_of files.old source_name.now) (F.bytes_of files.old input_name.now) (Ok (whole p))
        × (O.held out.new ≡ appended (O.held out.old) p)) }
    ensures stopped { IfErr result (WhyUnfed (limits_of fuel depth)
        (seen_file F.bytes_of F.faults files.old files.new source_name.now)
        (seen_file F.bytes_of F.faults files.old files.new input_name.now)
        (seen_sink O.held O.faults out.old out.new)) }
    ensures same { (name : List ℕ) → F.bytes_of files.new name ≡ F.bytes_of files.old name }
    ensures later { (name : List ℕ) → F.faults files.old name ≤ F.faults files.new name }
    ensures asked { F.asked files.new ≤ max (F.asked files.old) 1_048_576 }
    ensures out_later { O.faults out.old ≤ O.faults out.new }
{
    let source = read_file(alloc, files, Which::Source, source_name, SOURCE_LIMIT)?;
    let program = load_source(alloc, source.as_slice())?;
    match feed_program(alloc, program, input_name, batch, fuel, depth, files, out)? {
        None => Ok(()),
        Some(fault) => Err(Stop::Faulted(fault)),
    }
}

/// Whether the calling thread does the command alone.
pub fn is_plain(command: &Command) -> bool
    ensures { result ≡ is_plain command.now }
{
    match command {
        Command::Run { .. } | Command::Trace { .. } | Command::Sample { .. } => false,
        Command::Once { .. }
        | Command::Check { .. }
        | Command::Print { .. }
        | Command::Plan { .. }
        | Command::Replay { .. }
        | Command::Feed { .. } => true,
    }
}

/// Does a command that reads its whole input at once, on the calling thread alone.
fn work_on_whole<F: Files, O: Sink>(
    alloc: Global,
    command: &Command,
    files: &mut F,
    out: &mut O,
) -> Result<(), Stop>
    requires plain { is_plain command.now ≡ true }
    requires input { reads_whole command.now ≡ true }
    requires numbers { IsInRange command.now }
    ensures done { OnOk result ((p : List ℕ)
        × FindsFor command.now (seen_file F.bytes_of F.faults files.old files.new) (Ok (whole p))
        × (O.held out.new ≡ appended (O.held out.old) p)) }
    ensures stopped { IfErr result (WhyEnded command.now
        (seen_file F.bytes_of F.faults files.old files.new)
        (seen_sink O.held O.faults out.old out.new)) }
    ensures same { (name : List ℕ) → F.bytes_of files.new name ≡ F.bytes_of files.old name }
    ensures later { (name : List ℕ) → F.faults files.old name ≤ F.faults files.new name }
    ensures asked { AsksFew command.now (F.asked files.old) (F.asked files.new) }
    ensures out_later { O.faults out.old ≤ O.faults out.new }
{
    match command {
        Command::Once {
            source,
            input,
            fuel,
            depth,
        } => run_once(
            alloc,
            source.as_slice(),
            input.as_slice(),
            *fuel,
            *depth,
            files,
            out,
        ),
        Command::Replay {
            source,
            input,
            trace,
            fuel,
            depth,
        } => run_replay(
            alloc,
            source.as_slice(),
            input.as_slice(),
            trace.as_slice(),
            *fuel,
            *depth,
            files,
            out,
        ),
        Command::Run { .. }
        | Command::Check { .. }
        | Command::Print { .. }
        | Command::Plan { .. }
        | Command::Trace { .. }
        | Command::Feed { .. }
        | Command::Sample { .. } => unreachable!(),
    }
}

/// Does a command on the calling thread alone.
fn work_alone<F: Files, O: Sink>(
    alloc: Global,
    command: &Command,
    files: &mut F,
    out: &mut O,
) -> Result<(), Stop>
    requires plain { is_plain command.now ≡ true }
    requires numbers { IsInRange command.now }
    ensures done { OnOk result ((p : List ℕ)
        × FindsFor command.now (seen_file F.bytes_of F.faults files.old files.new) (Ok (whole p))
        × (O.held out.new ≡ appended (O.held out.old) p)) }
    ensures stopped { IfErr result (WhyEnded command.now
        (seen_file F.bytes_of F.faults files.old files.new)
        (seen_sink O.held O.faults out.old out.new)) }
    ensures same { (name : List ℕ) → F.bytes_of files.new name ≡ F.bytes_of files.old name }
    ensures later { (name : List ℕ) → F.faults files.old name ≤ F.faults files.new name }
    ensures asked { AsksFew command.now (F.asked files.old) (F.asked files.new) }
    ensures out_later { O.faults out.old ≤ O.faults out.new }
{
    match command {
        Command::Once { .. } | Command::Replay { .. } => work_on_whole(alloc, command, files, out),
        Command::Feed {
            source,
            input,
            batch,
            fuel,
            depth,
        } => run_feed(
            alloc,
            source.as_slice(),
            input.as_slice(),
            *batch,
            *fuel,
            *depth,
            files,
            out,
        ),
        Command::Check { source } => {
            run_report(alloc, source.as_slice(), Report::Flows, files, out)
        }
        Command::Print { source } => run_print(alloc, source.as_slice(), files, out),
        Command::Plan { source } => {
            run_report(alloc, source.as_slice(), Report::Plan, files, out)
        }
        Command::Run { .. } | Command::Trace { .. } | Command::Sample { .. } => unreachable!(),
    }
}

/// Writes the line that tells why a command stopped.
fn tell<E: Sink>(command: &Command, stop: &Stop, err: &mut E)
    ensures got { GotLine (seen_sink E.held E.faults err.old err.new) (stop_line stop.now (source_of command.now) (input_of command.now) (trace_of command.now)) }
    ensures err_later { E.faults err.old ≤ E.faults err.new }
{
    let mut buffer = Buffer::new();
    let place = buffer.format(stop.place()).as_bytes();
    let name = stop.name(command.source(), command.input(), command.trace(), place);
    write_line(err, stop.label(), name, stop.detail());
}

/// Answers the status of what was done. Where a command stopped, the line that tells why is written; a failing `err` changes no status.
pub fn conclude<E: Sink>(command: &Command, end: &Result<(), Stop>, err: &mut E) -> Status
    ensures status { result ≡ end_status end.now }
    ensures got { GotEnd (seen_sink E.held E.faults err.old err.new) end.now command.now }
    ensures err_later { E.faults err.old ≤ E.faults err.new }
{
    match end {
        Ok(()) => Status::Ok,
        Err(stop) => {
            tell(command, stop, err);
            stop.status()
        }
    }
}

/// Does a command on the calling thread, which needs no others. It returns.
pub fn serve_plain<F: Files, O: Sink, E: Sink>(
    alloc: Global,
    command: &Command,
    files: &mut F,
    out: &mut O,
    err: &mut E,
) -> Status
    requires plain { is_plain command.now ≡ true }
    requires numbers { IsInRange command.now }
    ensures answer { result ≢ Status.Read → result ≢ Status.Memory → result ≢ Status.Write
        → IsAnswered command.now (seen F.bytes_of F.faults O.held O.faults E.held E.faults files.old files.new out.old out.new err.old err.new) result }
    ensures read { result ≡ Status.Read
        → HasUnread command.now (seen F.bytes_of F.faults O.held O.faults E.held E.faults files.old files.new out.old out.new err.old err.new) }
    ensures memory { result ≡ Status.Memory
        → IsCutShort command.now (seen F.bytes_of F.faults O.held O.faults E.held E.faults files.old files.new out.old out.new err.old err.new) }
    ensures write { result ≡ Status.Write
        → IsUnwritten command.now (seen F.bytes_of F.faults O.held O.faults E.held E.faults files.old files.new out.old out.new err.old err.new) }
    ensures same { (name : List ℕ) → F.bytes_of files.new name ≡ F.bytes_of files.old name }
    ensures later { (name : List ℕ) → F.faults files.old name ≤ F.faults files.new name }
    ensures asked { AsksFew command.now (F.asked files.old) (F.asked files.new) }
    ensures out_later { O.faults out.old ≤ O.faults out.new }
    ensures err_later { E.faults err.old ≤ E.faults err.new }
{
    let end = work_alone(alloc, command, files, out);
    conclude(command, &end, err)
}

/// Says on `err` which words are known.
pub fn tell_usage<E: Sink>(err: &mut E) -> Status
    ensures status { result ≡ Status.Usage }
    ensures got { GotLine (seen_sink E.held E.faults err.old err.new) usage_text }
    ensures err_later { E.faults err.old ≤ E.faults err.new }
{
    let _ = write_whole(err, usage_line());
    Status::Usage
}

/// Says on `err` that there was no memory.
pub fn tell_memory<E: Sink>(err: &mut E) -> Status
    ensures status { result ≡ Status.Memory }
    ensures got { GotLine (seen_sink E.held E.faults err.old err.new) (codes "memory\n") }
    ensures err_later { E.faults err.old ≤ E.faults err.new }
{
    write_line(err, b"memory", b"", (b"", b"", b""));
    Status::Memory
}

/// Does a command on the calling thread, or nothing where it needs others.
fn serve_if_plain<F: Files, O: Sink, E: Sink>(
    alloc: Global,
    command: &Command,
    files: &mut F,
    out: &mut O,
    err: &mut E,
) -> Option<Status>
    requires numbers { IsInRange command.now }
    ensures answer { IfSome result (λ status. status ≢ Status.Read → status ≢ Status.Memory → status ≢ Status.Write
        → IsAnswered command.now (seen F.bytes_of F.faults O.held O.faults E.held E.faults files.old files.new out.old out.new err.old err.new) status) }
    ensures read { result ≡ Some Status.Read
        → HasUnread command.now (seen F.bytes_of F.faults O.held O.faults E.held E.faults files.old files.new out.old out.new err.old err.new) }
    ensures memory { result ≡ Some Status.Memory
        → IsCutShort command.now (seen F.bytes_of F.faults O.held O.faults E.held E.faults files.old files.new out.old out.new err.old err.new) }
    ensures write { result ≡ Some Status.Write
        → IsUnwritten command.now (seen F.bytes_of F.faults O.held O.faults E.held E.faults files.old files.new out.old out.new err.old err.new) }
    ensures others { result ≡ None → NeedsOthers command.now (seen F.bytes_of F.faults O.held O.faults E.held E.faults files.old files.new out.old out.new err.old err.new) }
    ensures same { (name : List ℕ) → F.bytes_of files.new name ≡ F.bytes_of files.old name }
    ensures later { (name : List ℕ) → F.faults files.old name ≤ F.faults files.new name }
    ensures out_later { O.faults out.old ≤ O.faults out.new }
    ensures err_later { E.faults err.old ≤ E.faults err.new }
{
    if !is_plain(command) {
        return None;
    }
    Some(serve_plain(alloc, command, files, out, err))
}

/// Does the command that the words after the program's name ask for, or says on `err` which words are known. Where the command needs other
/// threads, nothing is read or written, and there is no status.
pub fn serve_alone<F: Files, O: Sink, E: Sink>(
    alloc: Global,
    words: &[String],
    files: &mut F,
    out: &mut O,
    err: &mut E,
) -> Option<Status>
    ensures answer { IfSome result (λ status. status ≢ Status.Read → status ≢ Status.Memory → status ≢ Status.Write
        → IsAnsweredFor (command_of (map string_bytes words.now)) (seen F.bytes_of F.faults O.held O.faults E.held E.faults files.old files.new out.old out.new err.old err.new) status) }
    ensures read { result ≡ Some Status.Read
        → OfCommand HasUnread (command_of (map string_bytes words.now)) (seen F.bytes_of F.faults O.held O.faults E.held E.faults files.old files.new out.old out.new err.old err.new) }
    ensures memory { result ≡ Some Status.Memory
        → IsCutShortFor (command_of (map string_bytes words.now)) (seen F.bytes_of F.faults O.held O.faults E.held E.faults files.old files.new out.old out.new err.old err.new) }
    ensures write { result ≡ Some Status.Write
        → OfCommand IsUnwritten (command_of (map string_bytes words.now)) (seen F.bytes_of F.faults O.held O.faults E.held E.faults files.old files.new out.old out.new err.old err.new) }
    ensures others { result ≡ None
        → OfCommand NeedsOthers (command_of (map string_bytes words.now)) (seen F.bytes_of F.faults O.held O.faults E.held E.faults files.old files.new out.old out.new err.old err.new) }
    ensures same { (name : List ℕ) → F.bytes_of files.new name ≡ F.bytes_of files.old name }
    ensures later { (name : List ℕ) → F.faults files.old name ≤ F.faults files.new name }
    ensures out_later { O.faults out.old ≤ O.faults out.new }
    ensures err_later { E.faults err.old ≤ E.faults err.new }
{
    match read_words(alloc, words) {
        Ok(command) => serve_if_plain(alloc, &command, files, out, err),
        Err(WordsFault::Usage) => Some(tell_usage(err)),
        Err(WordsFault::Memory) => Some(tell_memory(err)),
    }
}

//! The top calls.
ghost use Rattle.std.specs.Prelude.{◌≡◌, ◌≢◌, ◌≤◌, ℕ, List, Ok, IfErr, OnOk, false, map};
ghost use Rattle.std.specs.String.{string_bytes};
ghost use Rattle.sn_io.specs.Told.{appended};
ghost use Rattle.sn_load.specs.Load.{AreLimits, limits_of};
ghost use Rattle.sn_plain.specs.Seen.{seen_file, seen_sink};
ghost use Rattle.sn_plain.specs.Answer.{is_plain, seen, Finds, FindsFor, FindsSample, WhyEnded, WhyStopped, WhyUncounted, IsAnswered, HasUnread, IsCutShort, IsUnwritten, IsAnsweredFor, OfCommand, IsCutShortFor};
ghost use Rattle.sn_plain.specs.Runs.{WithWorkers, whole};
ghost use Rattle.sn_plain.specs.Traces.{BegunTrace, Traced};
ghost use Rattle.sn_words.specs.Command.{IsInRange};
ghost use Rattle.sn_words.specs.Words.{command_of};
ghost use Rattle.sn_model.specs.Ranges.{IsWithin};
ghost use Rattle.sn_model.specs.declared.run.TheConstants.{LONGEST_QUEUE};

use crate::sample::count_sample;
use crate::tracing::trace_with_workers;
use crate::workers::{Setup, print_with_workers};
use sn_io::{Files, Gate, Sink, write_whole};
use sn_list::Seq;
use sn_load::load_source;
use sn_plain::{check_files, conclude, is_plain, prepare, serve_plain, tell_memory, tell_usage};
use sn_sample::sample_source;
use sn_stop::{Status, Stop};
use sn_words::{Command, WordsFault, read_words};
use std::alloc::Global;
use std::sync::Wait;
use std::thread::Threads;

/// Runs a source over the records of an input with workers, and prints what comes out: by the planned network, where that is asked for, of which the
/// same may come out.
fn run_with_workers<R: Threads + Wait + Sync, F: Files, O: Sink, G: Gate>(
    rt: &R,
    alloc: Global,
    source_name: &[u8],
    input_name: &[u8],
    setup: Setup,
    gate: &G,
    files: &mut F,
    out: &mut O,
) -> Result<(), Stop>
    requires limits { AreLimits (limits_of setup.fuel setup.depth) }
    requires workers { (1 ≤ setup.workers) × (setup.workers ≤ 64) }
    requires queue { IsWithin setup.queue LONGEST_QUEUE }
    ensures done { OnOk result ((p : List ℕ)
        × Finds WithWorkers (limits_of setup.fuel setup.depth) (F.bytes_of files.old source_name.now) (F.bytes_of files.old input_name.now) (Ok (whole p))
        × (O.held out.new ≡ appended (O.held out.old) p)) }
    ensures stopped { IfErr result (WhyStopped WithWorkers WithWorkers (limits_of setup.fuel setup.depth)
        (seen_file F.bytes_of F.faults files.old files.new source_name.now)
        (seen_file F.bytes_of F.faults files.old files.new input_name.now)
        (seen_sink O.held O.faults out.old out.new)) }
    ensures same { (name : List ℕ) → F.bytes_of files.new name ≡ F.bytes_of files.old name }
    ensures later { (name : List ℕ) → F.faults files.old name ≤ F.faults files.new name }
    ensures out_later { O.faults out.old ≤ O.faults out.new }
{
    let checked = check_files(alloc, source_name, input_name, files)?;
    let ready = checked.into_run(alloc, setup.is_planned)?;
    match print_with_workers(rt, alloc, ready, setup, gate, out)? {
        None => Ok(()),
        Some(fault) => Err(Stop::Faulted(fault)),
    }
}

/// Runs a source over the records of an input with workers, and prints the line of each event of its graph.
fn run_traced<R: Threads + Wait + Sync, F: Files, O: Sink, G: Gate>(
    rt: &R,
    alloc: Global,
    source_name: &[u8],
    input_name: &[u8],
    setup: Setup,
    gate: &G,
    files: &mut F,
    out: &mut O,
) -> Result<(), Stop>
    requires limits { AreLimits (limits_of setup.fuel setup.depth) }
    requires workers { (1 ≤ setup.workers) × (setup.workers ≤ 64) }
    requires queue { IsWithin setup.queue LONGEST_QUEUE }
    ensures done { OnOk result ((p : List ℕ)
        × Finds Traced (limits_of setup.fuel setup.depth) (F.bytes_of files.old source_name.now) (F.bytes_of files.old input_name.now) (Ok (whole p))
        × (O.held out.new ≡ appended (O.held out.old) p)) }
    ensures stopped { IfErr result (WhyStopped Traced BegunTrace (limits_of setup.fuel setup.depth)
        (seen_file F.bytes_of F.faults files.old files.new source_name.now)
        (seen_file F.bytes_of F.faults files.old files.new input_name.now)
        (seen_sink O.held O.faults out.old out.new)) }
    ensures same { (name : List ℕ) → F.bytes_of files.new name ≡ F.bytes_of files.old name }
    ensures later { (name : List ℕ) → F.faults files.old name ≤ F.faults files.new name }
    ensures out_later { O.faults out.old ≤ O.faults out.new }
{
    let ready = prepare(alloc, source_name, input_name, files)?;
    match trace_with_workers(rt, alloc, ready, setup, gate, out)? {
        None => Ok(()),
        Some(fault) => Err(Stop::Faulted(fault)),
    }
}

/// Runs the built-in source with workers over the records of a number, and prints the line of the counters of what comes out.
fn run_sample<R: Threads + Wait + Sync, O: Sink, G: Gate>(
    rt: &R,
    alloc: Global,
    number: u32,
    count: u32,
    gate: &G,
    out: &mut O,
) -> Result<(), Stop>
    ensures done { OnOk result ((p : List ℕ)
        × FindsSample number count (Ok (whole p))
        × (O.held out.new ≡ appended (O.held out.old) p)) }
    ensures stopped { IfErr result (WhyUncounted number count (seen_sink O.held O.faults out.old out.new)) }
    ensures out_later { O.faults out.old ≤ O.faults out.new }
{
    let program = load_source(alloc, sample_source())?;
    let (tally, fault) = count_sample(rt, alloc, program, number, count, gate)?;
    let mut line = Seq::new(alloc);
    tally.push_line(&mut line)?;
    write_whole(out, line.as_slice())?;
    match fault {
        None => Ok(()),
        Some(fault) => Err(Stop::Faulted(fault)),
    }
}

/// The numbers of a run's options.
fn set_up(fuel: u64, depth: u32, workers: u32, queue: u32, is_planned: bool) -> Setup
    ensures { result ≡ record { fuel = fuel; depth = depth; workers = workers; queue = queue; is_planned = is_planned } }
{
    Setup {
        fuel,
        depth,
        workers,
        queue,
        is_planned,
    }
}

/// Does a command with workers.
fn work_together<R: Threads + Wait + Sync, F: Files, O: Sink, G: Gate>(
    rt: &R,
    alloc: Global,
    command: &Command,
    gate: &G,
    files: &mut F,
    out: &mut O,
) -> Result<(), Stop>
    requires many { is_plain command.now ≡ false }
    requires numbers { IsInRange command.now }
    ensures done { OnOk result ((p : List ℕ)
        × FindsFor command.now (seen_file F.bytes_of F.faults files.old files.new) (Ok (whole p))
        × (O.held out.new ≡ appended (O.held out.old) p)) }
    ensures stopped { IfErr result (WhyEnded command.now
        (seen_file F.bytes_of F.faults files.old files.new)
        (seen_sink O.held O.faults out.old out.new)) }
    ensures same { (name : List ℕ) → F.bytes_of files.new name ≡ F.bytes_of files.old name }
    ensures later { (name : List ℕ) → F.faults files.old name ≤ F.faults files.new name }
    ensures out_later { O.faults out.old ≤ O.faults out.new }
{
    match command {
        Command::Run {
            source,
            input,
            workers,
            fuel,
            depth,
            queue,
            plan,
        } => run_with_workers(
            rt,
            alloc,
            source.as_slice(),
            input.as_slice(),
            set_up(*fuel, *depth, *workers, *queue, *plan == 1),
            gate,
            files,
            out,
        ),
        Command::Trace {
            source,
            input,
            workers,
            fuel,
            depth,
            queue,
        } => run_traced(
            rt,
            alloc,
            source.as_slice(),
            input.as_slice(),
            set_up(*fuel, *depth, *workers, *queue, false),
            gate,
            files,
            out,
        ),
        Command::Sample { number, count } => run_sample(rt, alloc, *number, *count, gate, out),
        Command::Once { .. }
        | Command::Check { .. }
        | Command::Print { .. }
        | Command::Plan { .. }
        | Command::Replay { .. }
        | Command::Feed { .. } => unreachable!(),
    }
}

/// Does a command with workers, of which the calling thread is one.
fn serve_together<R: Threads + Wait + Sync, F: Files, O: Sink, E: Sink, G: Gate>(
    rt: &R,
    alloc: Global,
    command: &Command,
    gate: &G,
    files: &mut F,
    out: &mut O,
    err: &mut E,
) -> Status
    requires many { is_plain command.now ≡ false }
    requires numbers { IsInRange command.now }
    ensures answer { result ≢ Status.Read → result ≢ Status.Memory → result ≢ Status.Write
        → IsAnswered command.now (seen F.bytes_of F.faults O.held O.faults E.held E.faults files.old files.new out.old out.new err.old err.new) result }
    ensures read { result ≡ Status.Read
        → HasUnread command.now (seen F.bytes_of F.faults O.held O.faults E.held E.faults files.old files.new out.old out.new err.old err.new) }
    ensures memory { result ≡ Status.Memory
        → IsCutShort command.now (seen F.bytes_of F.faults O.held O.faults E.held E.faults files.old files.new out.old out.new err.old err.new) }
    ensures write { result ≡ Status.Write
        → IsUnwritten command.now (seen F.bytes_of F.faults O.held O.faults E.held E.faults files.old files.new out.old out.new err.old err.new) }
    ensures same { (name : List ℕ) → F.bytes_of files.new name ≡ F.bytes_of files.old name }
    ensures later { (name : List ℕ) → F.faults files.old name ≤ F.faults files.new name }
    ensures out_later { O.faults out.old ≤ O.faults out.new }
    ensures err_later { E.faults err.old ≤ E.faults err.new }
{
    let end = work_together(rt, alloc, command, gate, files, out);
    conclude(command, &end, err)
}

/// Does the command, as it needs, and answers its status.
fn serve<R: Threads + Wait + Sync, F: Files, O: Sink, E: Sink, G: Gate>(
    rt: &R,
    alloc: Global,
    command: &Command,
    gate: &G,
    files: &mut F,
    out: &mut O,
    err: &mut E,
) -> Status
    requires { IsInRange command.now }
    ensures answer { result ≢ Status.Read → result ≢ Status.Memory → result ≢ Status.Write
        → IsAnswered command.now (seen F.bytes_of F.faults O.held O.faults E.held E.faults files.old files.new out.old out.new err.old err.new) result }
    ensures read { result ≡ Status.Read
        → HasUnread command.now (seen F.bytes_of F.faults O.held O.faults E.held E.faults files.old files.new out.old out.new err.old err.new) }
    ensures memory { result ≡ Status.Memory
        → IsCutShort command.now (seen F.bytes_of F.faults O.held O.faults E.held E.faults files.old files.new out.old out.new err.old err.new) }
    ensures write { result ≡ Status.Write
        → IsUnwritten command.now (seen F.bytes_of F.faults O.held O.faults E.held E.faults files.old files.new out.old out.new err.old err.new) }
    ensures same { (name : List ℕ) → F.bytes_of files.new name ≡ F.bytes_of files.old name }
    ensures later { (name : List ℕ) → F.faults files.old name ≤ F.faults files.new name }
    ensures out_later { O.faults out.old ≤ O.faults out.new }
    ensures err_later { E.faults err.old ≤ E.faults err.new }
{
    if is_plain(command) {
        serve_plain(alloc, command, files, out, err)
    } else {
        serve_together(rt, alloc, command, gate, files, out, err)
    }
}

/// Does the command that the words after the program's name ask for, or says on `err` which words are known.
pub fn serve_words<R: Threads + Wait + Sync, F: Files, O: Sink, E: Sink, G: Gate>(
    rt: &R,
    alloc: Global,
    words: &[String],
    files: &mut F,
    out: &mut O,
    err: &mut E,
    gate: &G,
) -> Status
    ensures answer { result ≢ Status.Read → result ≢ Status.Memory → result ≢ Status.Write
        → IsAnsweredFor (command_of (map string_bytes words.now)) (seen F.bytes_of F.faults O.held O.faults E.held E.faults files.old files.new out.old out.new err.old err.new) result }
    ensures read { result ≡ Status.Read
        → OfCommand HasUnread (command_of (map string_bytes words.now)) (seen F.bytes_of F.faults O.held O.faults E.held E.faults files.old files.new out.old out.new err.old err.new) }
    ensures memory { result ≡ Status.Memory
        → IsCutShortFor (command_of (map string_bytes words.now)) (seen F.bytes_of F.faults O.held O.faults E.held E.faults files.old files.new out.old out.new err.old err.new) }
    ensures write { result ≡ Status.Write
        → OfCommand IsUnwritten (command_of (map string_bytes words.now)) (seen F.bytes_of F.faults O.held O.faults E.held E.faults files.old files.new out.old out.new err.old err.new) }
    ensures same { (name : List ℕ) → F.bytes_of files.new name ≡ F.bytes_of files.old name }
    ensures later { (name : List ℕ) → F.faults files.old name ≤ F.faults files.new name }
    ensures out_later { O.faults out.old ≤ O.faults out.new }
    ensures err_later { E.faults err.old ≤ E.faults err.new }
{
    match read_words(alloc, words) {
        Ok(command) => serve(rt, alloc, &command, gate, files, out, err),
        Err(WordsFault::Usage) => tell_usage(err),
        Err(WordsFault::Memory) => tell_memory(err),
    }
}

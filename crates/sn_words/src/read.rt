//! The command of what `clap` found.
ghost use Rattle.std.specs.Prelude.{◌≡◌, ◌≢◌, ◌≤◌, ◌∷◌, [], Some, None, IfOk, IfSome, map, option_map};
ghost use Rattle.std.specs.String.{string_bytes};
ghost use Rattle.clap.specs.Words.{kind_of, subcommand_rows_of};
ghost use Rattle.sn_words.specs.Command.{IsInRange};
ghost use Rattle.sn_words.specs.Words.{asked_by, command_of, number_or, positional_in, check_form, feed_form, once_form, plan_form, print_form, replay_form, run_form, sample_form, trace_form};
ghost use Rattle.sn_words.specs.Clap.{asked_as, asked_in, look_of, run_arguments_in};
ghost use Rattle.sn_words.specs.declared.command.Command.TheVariants.{Trace as ATrace};

use crate::command::{Command, WordsFault};
use crate::forms::{COUNT, INPUT, SEED, SOURCE, TRACE, program_form};
use crate::numbers::{BATCH, DEPTH, FUEL, PLAN, QUEUE, Setting, WORKERS, read_number};
use clap::ArgMatches;
use clap::error::ErrorKind;
use sn_list::Seq;
use sn_record::Text;
use std::alloc::Global;

/// The most that the number of a sample may be.
const MOST_SEED: u64 = 2_147_483_647;

/// The most records of a sample.
const MOST_COUNT: u64 = 50_000;

/// The word that was given to a name, if it is not empty.
fn positional<'a>(given: &ArgMatches<'a>, name: &str) -> Option<&'a str>
    ensures { option_map (λ word. word.now) result ≡ positional_in (look_of given.now) name.now }
{
    let word = given.get_str(name)?;
    if word.is_empty() {
        return None;
    }
    Some(word)
}

/// The number that was given to an option, or its usual one.
fn number(given: &ArgMatches, setting: &Setting) -> Option<u64>
    requires least { setting.now.least ≤ setting.now.usual }
    requires most { setting.now.usual ≤ setting.now.most }
    ensures value { result ≡ number_or setting.now.least setting.now.most setting.now.usual (look_of given.now setting.now.name.now) }
    ensures range { IfSome result (λ n. (setting.now.least ≤ n) × (n ≤ setting.now.most)) }
{
    match given.get_str(setting.name) {
        Some(word) => read_number(word, setting.least, setting.most),
        None => Some(setting.usual),
    }
}

/// What `run` is given, and `trace` as well.
struct RunArguments {
    source: Text,
    input: Text,
    workers: u32,
    fuel: u64,
    depth: u32,
    queue: u32,
}

/// What `run` or `trace` was given.
fn run_arguments(alloc: Global, given: &ArgMatches) -> Result<RunArguments, WordsFault>
    ensures ok { IfOk result (λ run. run_arguments_in (look_of given.now) ≡ Some (run.source ∷ run.input ∷ [], run.workers ∷ run.fuel ∷ run.depth ∷ run.queue ∷ [])) }
    ensures usage { result ≡ Err WordsFault.Usage → run_arguments_in (look_of given.now) ≡ None }
    ensures in_range { IfOk result (λ run. IsInRange (ATrace run.source run.input run.workers run.fuel run.depth run.queue)) }
{
    let Some(source) = positional(given, SOURCE) else {
        return Err(WordsFault::Usage);
    };
    let Some(input) = positional(given, INPUT) else {
        return Err(WordsFault::Usage);
    };
    let Some(workers) = number(given, &WORKERS) else {
        return Err(WordsFault::Usage);
    };
    let Some(fuel) = number(given, &FUEL) else {
        return Err(WordsFault::Usage);
    };
    let Some(depth) = number(given, &DEPTH) else {
        return Err(WordsFault::Usage);
    };
    let Some(queue) = number(given, &QUEUE) else {
        return Err(WordsFault::Usage);
    };
    let source = Seq::from_slice(alloc, source.as_bytes())?;
    let input = Seq::from_slice(alloc, input.as_bytes())?;
    Ok(RunArguments {
        source,
        input,
        workers: workers as u32,
        fuel,
        depth: depth as u32,
        queue: queue as u32,
    })
}

/// The command `run` of what was given.
fn make_run(alloc: Global, given: &ArgMatches) -> Result<Command, WordsFault>
    ensures ok { IfOk result (λ command. asked_by run_form (look_of given.now) ≡ Some command) }
    ensures usage { result ≡ Err WordsFault.Usage → asked_by run_form (look_of given.now) ≡ None }
    ensures in_range { IfOk result IsInRange }
{
    let RunArguments {
        source,
        input,
        workers,
        fuel,
        depth,
        queue,
    } = run_arguments(alloc, given)?;
    let Some(plan) = number(given, &PLAN) else {
        return Err(WordsFault::Usage);
    };
    Ok(Command::Run {
        source,
        input,
        workers,
        fuel,
        depth,
        queue,
        plan: plan as u32,
    })
}

/// The command `once` of what was given.
fn make_once(alloc: Global, given: &ArgMatches) -> Result<Command, WordsFault>
    ensures ok { IfOk result (λ command. asked_by once_form (look_of given.now) ≡ Some command) }
    ensures usage { result ≡ Err WordsFault.Usage → asked_by once_form (look_of given.now) ≡ None }
    ensures in_range { IfOk result IsInRange }
{
    let Some(source) = positional(given, SOURCE) else {
        return Err(WordsFault::Usage);
    };
    let Some(input) = positional(given, INPUT) else {
        return Err(WordsFault::Usage);
    };
    let Some(fuel) = number(given, &FUEL) else {
        return Err(WordsFault::Usage);
    };
    let Some(depth) = number(given, &DEPTH) else {
        return Err(WordsFault::Usage);
    };
    let source = Seq::from_slice(alloc, source.as_bytes())?;
    let input = Seq::from_slice(alloc, input.as_bytes())?;
    Ok(Command::Once {
        source,
        input,
        fuel,
        depth: depth as u32,
    })
}

/// The command `check` of what was given.
fn make_check(alloc: Global, given: &ArgMatches) -> Result<Command, WordsFault>
    ensures ok { IfOk result (λ command. asked_by check_form (look_of given.now) ≡ Some command) }
    ensures usage { result ≡ Err WordsFault.Usage → asked_by check_form (look_of given.now) ≡ None }
    ensures in_range { IfOk result IsInRange }
{
    let Some(source) = positional(given, SOURCE) else {
        return Err(WordsFault::Usage);
    };
    let source = Seq::from_slice(alloc, source.as_bytes())?;
    Ok(Command::Check { source })
}

/// The command `print` of what was given.
fn make_print(alloc: Global, given: &ArgMatches) -> Result<Command, WordsFault>
    ensures ok { IfOk result (λ command. asked_by print_form (look_of given.now) ≡ Some command) }
    ensures usage { result ≡ Err WordsFault.Usage → asked_by print_form (look_of given.now) ≡ None }
    ensures in_range { IfOk result IsInRange }
{
    let Some(source) = positional(given, SOURCE) else {
        return Err(WordsFault::Usage);
    };
    let source = Seq::from_slice(alloc, source.as_bytes())?;
    Ok(Command::Print { source })
}

/// The command `plan` of what was given.
fn make_plan(alloc: Global, given: &ArgMatches) -> Result<Command, WordsFault>
    ensures ok { IfOk result (λ command. asked_by plan_form (look_of given.now) ≡ Some command) }
    ensures usage { result ≡ Err WordsFault.Usage → asked_by plan_form (look_of given.now) ≡ None }
    ensures in_range { IfOk result IsInRange }
{
    let Some(source) = positional(given, SOURCE) else {
        return Err(WordsFault::Usage);
    };
    let source = Seq::from_slice(alloc, source.as_bytes())?;
    Ok(Command::Plan { source })
}

/// The command `trace` of what was given.
fn make_trace(alloc: Global, given: &ArgMatches) -> Result<Command, WordsFault>
    ensures ok { IfOk result (λ command. asked_by trace_form (look_of given.now) ≡ Some command) }
    ensures usage { result ≡ Err WordsFault.Usage → asked_by trace_form (look_of given.now) ≡ None }
    ensures in_range { IfOk result IsInRange }
{
    let RunArguments {
        source,
        input,
        workers,
        fuel,
        depth,
        queue,
    } = run_arguments(alloc, given)?;
    Ok(Command::Trace {
        source,
        input,
        workers,
        fuel,
        depth,
        queue,
    })
}

/// The command `replay` of what was given.
fn make_replay(alloc: Global, given: &ArgMatches) -> Result<Command, WordsFault>
    ensures ok { IfOk result (λ command. asked_by replay_form (look_of given.now) ≡ Some command) }
    ensures usage { result ≡ Err WordsFault.Usage → asked_by replay_form (look_of given.now) ≡ None }
    ensures in_range { IfOk result IsInRange }
{
    let Some(source) = positional(given, SOURCE) else {
        return Err(WordsFault::Usage);
    };
    let Some(input) = positional(given, INPUT) else {
        return Err(WordsFault::Usage);
    };
    let Some(trace) = positional(given, TRACE) else {
        return Err(WordsFault::Usage);
    };
    let Some(fuel) = number(given, &FUEL) else {
        return Err(WordsFault::Usage);
    };
    let Some(depth) = number(given, &DEPTH) else {
        return Err(WordsFault::Usage);
    };
    let source = Seq::from_slice(alloc, source.as_bytes())?;
    let input = Seq::from_slice(alloc, input.as_bytes())?;
    let trace = Seq::from_slice(alloc, trace.as_bytes())?;
    Ok(Command::Replay {
        source,
        input,
        trace,
        fuel,
        depth: depth as u32,
    })
}

/// The command `feed` of what was given.
fn make_feed(alloc: Global, given: &ArgMatches) -> Result<Command, WordsFault>
    ensures ok { IfOk result (λ command. asked_by feed_form (look_of given.now) ≡ Some command) }
    ensures usage { result ≡ Err WordsFault.Usage → asked_by feed_form (look_of given.now) ≡ None }
    ensures in_range { IfOk result IsInRange }
{
    let Some(source) = positional(given, SOURCE) else {
        return Err(WordsFault::Usage);
    };
    let Some(input) = positional(given, INPUT) else {
        return Err(WordsFault::Usage);
    };
    let Some(batch) = number(given, &BATCH) else {
        return Err(WordsFault::Usage);
    };
    let Some(fuel) = number(given, &FUEL) else {
        return Err(WordsFault::Usage);
    };
    let Some(depth) = number(given, &DEPTH) else {
        return Err(WordsFault::Usage);
    };
    let source = Seq::from_slice(alloc, source.as_bytes())?;
    let input = Seq::from_slice(alloc, input.as_bytes())?;
    Ok(Command::Feed {
        source,
        input,
        batch: batch as u32,
        fuel,
        depth: depth as u32,
    })
}

/// The command `sample` of what was given.
fn make_sample(given: &ArgMatches) -> Result<Command, WordsFault>
    ensures ok { IfOk result (λ command. asked_by sample_form (look_of given.now) ≡ Some command) }
    ensures usage { result ≡ Err WordsFault.Usage → asked_by sample_form (look_of given.now) ≡ None }
    ensures in_range { IfOk result IsInRange }
{
    let Some(seed) = positional(given, SEED) else {
        return Err(WordsFault::Usage);
    };
    let Some(count) = positional(given, COUNT) else {
        return Err(WordsFault::Usage);
    };
    let Some(number) = read_number(seed, 0, MOST_SEED) else {
        return Err(WordsFault::Usage);
    };
    let Some(count) = read_number(count, 0, MOST_COUNT) else {
        return Err(WordsFault::Usage);
    };
    Ok(Command::Sample {
        number: number as u32,
        count: count as u32,
    })
}

/// The command of this name.
fn make_named(alloc: Global, name: &str, given: &ArgMatches) -> Result<Command, WordsFault>
    ensures ok { IfOk result (λ command. asked_as name.now (look_of given.now) ≡ Some command) }
    ensures usage { result ≡ Err WordsFault.Usage → asked_as name.now (look_of given.now) ≡ None }
    ensures in_range { IfOk result IsInRange }
{
    match name {
        "run" => make_run(alloc, given),
        "once" => make_once(alloc, given),
        "check" => make_check(alloc, given),
        "print" => make_print(alloc, given),
        "plan" => make_plan(alloc, given),
        "trace" => make_trace(alloc, given),
        "replay" => make_replay(alloc, given),
        "feed" => make_feed(alloc, given),
        "sample" => make_sample(given),
        _ => Err(WordsFault::Usage),
    }
}

/// The command of what `clap` found.
fn make_found(alloc: Global, matches: &ArgMatches) -> Result<Command, WordsFault>
    ensures ok { IfOk result (λ command. asked_in (subcommand_rows_of matches.now) ≡ Some command) }
    ensures usage { result ≡ Err WordsFault.Usage → asked_in (subcommand_rows_of matches.now) ≡ None }
    ensures in_range { IfOk result IsInRange }
{
    let Some((name, given)) = matches.subcommand() else {
        return Err(WordsFault::Usage);
    };
    make_named(alloc, name, given)
}

/// What the words lack, where `clap` refuses them.
fn fault_from(error: &clap::Error) -> WordsFault
    ensures { result ≡ WordsFault.Usage → kind_of error.now ≢ ErrorKind.OutOfMemory }
{
    match error.kind() {
        ErrorKind::OutOfMemory => WordsFault::Memory,
        _ => WordsFault::Usage,
    }
}

/// Reads the words after the program's name.
///
/// # Errors
///
/// `Usage` where they give no command, and `Memory` where there is no memory to read them.
pub fn read_words(alloc: Global, words: &[String]) -> Result<Command, WordsFault>
    ensures ok { IfOk result (λ command. command_of (map string_bytes words.now) ≡ Some command) }
    ensures usage { result ≡ Err WordsFault.Usage → command_of (map string_bytes words.now) ≡ None }
    ensures in_range { IfOk result IsInRange }
{
    let program = program_form(alloc)?;
    let matches = match program.into_inner().try_get_matches_from(words) {
        Ok(matches) => matches,
        Err(error) => return Err(fault_from(&error)),
    };
    make_found(alloc, &matches)
}

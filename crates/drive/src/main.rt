//! Runs the main net of a source over the records of an input, an event of sn_graph after the other, or a turn of a node of sn_turn after
//! the other, and prints what comes out as `snet once` does, up to the first fault.
//!
//! `drive ORDER SOURCE INPUT [SEED] [--fuel=N] [--depth=N] [--queue=N] [--count] [--steps]`, where ORDER says which event is next:
//! - `next`: what `next_event` says; each call is answered at once;
//! - `late`: the same, but a call is answered only where nothing else may happen, the oldest alone;
//! - `reverse`: the same, but then all calls are answered, from the last that was begun to the first;
//! - `shuffled`: any event that may happen, by a generator of numbers that begins with SEED, which is 0 where it is not given;
//!
//! or which node takes the next turn, of a network whose merges are all deterministic:
//! - `turns`: one after the other, and a new one behind all others;
//! - `turns-reverse`: the same, from the last to the first;
//! - `turns-shuffled`: any, by chance.
//!
//! With `--count` it prints how many events happened or turns were taken and how many nodes there are, in place of the records, and with `--steps`
//! the steps from the network to the part of it that each node is. A stream between two nodes has room for so many entries as `--queue` says,
//! or 16. Where memory is wanted that is not there, an event or a turn is tried once more. The exit status is 7 where a fault ends the output,
//! and 1 where there is none, for a reason that stands on standard error.
#![tactic(auto)]

mod chance;
mod command;
mod driving;
mod load;
mod nodes;
mod order;
mod refusal;
mod to_rest;
mod transcript;
mod trying;
mod turns;

use command::{Command, Report};
use load::{Loaded, load};
use nodes::{count_nodes, steps_of_all};
use order::Way;
use refusal::Refusal;
use sn_graph::Graph;
use sn_model::Run;
use sn_names::Names;
use sn_record::Item;
use std::alloc::AllocError;
use std::io::{ErrorKind, Write};
use std::process::ExitCode;
use std::sync::{Arc, Wait};
use std::{env, fs, io};
use to_rest::drive;
use transcript::Transcript;
use turns::{Nodes, take_turns};

/// The exit status where a fault ends the output.
const FAULT: u8 = 7;

/// Why something outside was refused: for want of memory, or this.
fn told(fault: &io::Error, other: Refusal) -> Refusal {
    match fault.kind() {
        ErrorKind::OutOfMemory => Refusal::Memory,
        _ => other,
    }
}

/// The words of the command line after the program's name.
fn words(rt: &HostRuntime) -> Result<Vec<String>, Refusal> {
    match env::args(rt) {
        Ok(all) => Ok(all.skip(1).collect(rt.alloc())?),
        Err(fault) => Err(told(&fault, Refusal::Usage)),
    }
}

fn read_file(rt: &HostRuntime, name: &str) -> Result<Vec<u8>, Refusal> {
    fs::read(rt, name).map_err(|fault| told(&fault, Refusal::Read))
}

/// The run that a command asks for, with the names of its labels.
fn loaded(rt: &HostRuntime, command: &Command) -> Result<Loaded, Refusal> {
    let source = read_file(rt, command.source)?;
    let input = read_file(rt, command.input)?;
    load(
        rt.alloc(),
        source.as_slice(),
        input.as_slice(),
        command.limits,
    )
}

fn print(rt: &HostRuntime, text: &[u8]) -> Result<(), Refusal> {
    rt.stdout().write_all(text).map_err(|_| Refusal::Write)
}

/// Prints how many events happened and how many nodes there are.
fn print_counts(rt: &HostRuntime, graph: &Graph) -> Result<(), Refusal> {
    let events = graph.applied();
    let nodes = count_nodes(graph);
    let line = format!(in rt.alloc(); "events {events} nodes {nodes}\n")?;
    print(rt, line.as_bytes())
}

/// Prints how many turns were taken and how many nodes there are.
fn print_turns(rt: &HostRuntime, nodes: &Nodes) -> Result<(), Refusal> {
    let turns = nodes.turns;
    let made = nodes.made;
    let line = format!(in rt.alloc(); "turns {turns} nodes {made}\n")?;
    print(rt, line.as_bytes())
}

/// Prints the steps to each node.
fn print_steps(rt: &HostRuntime, graph: &Graph) -> Result<(), Refusal> {
    let text = steps_of_all(rt.alloc(), graph)?;
    print(rt, text.as_slice())
}

/// Prints the records that came out, and answers the exit status.
fn print_records(rt: &HostRuntime, names: &Names, out: &[Item]) -> Result<u8, Refusal> {
    let shown = Transcript::of(rt.alloc(), names, out)?;
    print(rt, shown.text.as_slice())?;
    Ok(if shown.fault.is_some() { FAULT } else { 0 })
}

/// Prints what is asked for of a graph at rest, and answers the exit status.
fn print_report(
    rt: &HostRuntime,
    report: Report,
    names: &Names,
    graph: &Graph,
) -> Result<u8, Refusal> {
    match report {
        Report::Records => return print_records(rt, names, graph.out().as_slice()),
        Report::Counts => print_counts(rt, graph)?,
        Report::Steps => print_steps(rt, graph)?,
    }
    Ok(0)
}

/// Prints what is asked for of nodes that took turns, and answers the exit status.
fn print_nodes(
    rt: &HostRuntime,
    report: Report,
    names: &Names,
    nodes: &Nodes,
) -> Result<u8, Refusal> {
    match report {
        Report::Records => return print_records(rt, names, nodes.out.as_slice()),
        Report::Counts => print_turns(rt, nodes)?,
        Report::Steps => return Err(Refusal::Steps),
    }
    Ok(0)
}

/// Lets a run go on as the command says, prints what it asks for, and answers the exit status.
fn go<R: Wait>(
    rt: &HostRuntime,
    wait: &R,
    command: &Command,
    run: &Arc<Run>,
    names: &Names,
) -> Result<u8, Refusal> {
    match command.way {
        Way::Events(order) => {
            let graph = drive(rt.alloc(), run, order, command.seed)?;
            print_report(rt, command.report, names, &graph)
        }
        Way::Turns(order) => {
            let nodes = take_turns(wait, rt.alloc(), run, order, command.seed)?;
            print_nodes(rt, command.report, names, &nodes)
        }
    }
}

/// Does what the words ask for, and answers the exit status.
fn run<R: Wait>(rt: &HostRuntime, wait: &R, words: &[String]) -> Result<u8, Refusal> {
    let alloc = rt.alloc();
    let command = Command::read(words).ok_or(Refusal::Usage)?;
    let Loaded { run, names } = loaded(rt, &command)?;
    let run = Arc::new(alloc, run).map_err(AllocError::from)?;
    go(rt, wait, &command, &run, &names)
}

/// What the words of the command line ask for.
fn serve<R: Wait>(rt: &HostRuntime, wait: &R) -> Result<u8, Refusal> {
    let words = words(rt)?;
    run(rt, wait, words.as_slice())
}

/// The same, once more where memory was wanted: nothing is printed before all is there.
fn serve_again<R: Wait>(rt: &HostRuntime, wait: &R) -> Result<u8, Refusal> {
    match serve(rt, wait) {
        Err(Refusal::Memory) => serve(rt, wait),
        other => other,
    }
}

fn main(rt: HostRuntime) -> ExitCode {
    let status = serve_again(&rt, &rt);
    match status {
        Ok(status) => ExitCode::from(status),
        Err(refusal) => {
            let _ = eprintln!(rt; "drive: {refusal}");
            ExitCode::from(1)
        }
    }
}

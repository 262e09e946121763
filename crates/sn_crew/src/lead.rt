//! The caller: it reads what leaves the network, writes the lines, and serves nodes between.
ghost use Rattle.std.specs.Prelude.{◌≡◌, ◌≤◌, ◌++◌, [], ◌∷◌, false, List, ℕ, Option};
ghost use mathlib.Core.List.{IsPrefix};
ghost use Rattle.sn_io.specs.Causes.{Rose};
ghost use Rattle.sn_stream.specs.Ends.{history_of, passed};
ghost use Rattle.sn_stream.specs.declared.item.StreamItem.{StreamItem as SomeEntry};
ghost use Rattle.sn_crew.specs.Turns.{EndsAs, GoesOn, TurnsAs};
ghost use Rattle.sn_crew.specs.declared.lead.Turn.TheVariants.{Ended};
ghost use Rattle.sn_model.specs.declared.outcome.Outcome.TheVariants as outcome;

use crate::crew::{Crew, Service};
use sn_io::{Gate, Sink};
use sn_model::Outcome;
use sn_output::{LineFault, LineSink};
use sn_record::Item;
use sn_stream::{GetEnd, StreamItem};
use sn_wakeup::Backoff;
use std::alloc::Global;
use std::sync::Wait;

/// What came of a turn of the caller.
#[derive(Clone, Copy)]
pub enum Turn {
    /// Something was done.
    Went,
    /// There was nothing to do.
    Idle,
    Ended(Outcome),
}

/// Writes the line of a record that left the network. A fault ends the run, and so does the end.
fn write<S: Sink>(alloc: Global, out: &mut LineSink<S>, entry: StreamItem) -> Turn
    ensures goes { (moved : List SomeEntry) (first : Option (List ℕ)) → GoesOn out.old.names.now moved first (S.held out.old.sink.now) → TurnsAs out.old.names.now (moved ++ entry ∷ []) first (S.held out.new.sink.now) result }
    ensures rose { result ≡ Ended outcome.WriteFault → Rose (S.faults out.old.sink.now) (S.faults out.new.sink.now) }
    ensures later { S.faults out.old.sink.now ≤ S.faults out.new.sink.now }
    ensures names { out.new.names.now ≡ out.old.names.now }
    ensures same_sink { out.new.sink.ghost_name ≡ out.old.sink.ghost_name }
{
    let item = match entry {
        StreamItem::Item(item) => item,
        StreamItem::Mark => return Turn::Went,
        StreamItem::End => return Turn::Ended(Outcome::Whole),
    };
    let record = match item {
        Item::Rec(record) => record,
        Item::Fault(fault) => return Turn::Ended(Outcome::Faulted(fault)),
    };
    match out.line(alloc, &record) {
        Ok(()) => Turn::Went,
        Err(LineFault::WriteFault) => Turn::Ended(Outcome::WriteFault),
        Err(LineFault::Memory) => Turn::Ended(Outcome::Memory),
    }
}

/// Serves a node. If that is over, memory was wanted.
fn serve<R: Wait, G: Gate>(rt: &R, crew: &Crew<G>) -> Turn
    ensures turns { (names : List (List ℕ)) (moved : List SomeEntry) (first now : Option (List ℕ)) → GoesOn names moved first now → TurnsAs names moved first now result }
    ensures unwritten { result ≡ Ended outcome.WriteFault → ⊥ }
{
    match crew.serve_one(rt) {
        Service::Served => Turn::Went,
        Service::Idle => Turn::Idle,
        Service::Over => Turn::Ended(Outcome::Memory),
    }
}

/// Reads an entry and writes its line, or serves a node where there is none.
fn read_or_serve<R: Wait, S: Sink, G: Gate>(
    rt: &R,
    alloc: Global,
    crew: &Crew<G>,
    root: &mut GetEnd,
    out: &mut LineSink<S>,
) -> Turn
    ensures goes { (first : Option (List ℕ)) → GoesOn out.old.names.now root.old.moved first (S.held out.old.sink.now) → TurnsAs out.old.names.now root.new.moved first (S.held out.new.sink.now) result }
    ensures made { root.new.made ≡ root.old.made }
    ensures stated { IsPrefix (passed root.new.moved) (history_of root.new) }
    ensures rose { result ≡ Ended outcome.WriteFault → Rose (S.faults out.old.sink.now) (S.faults out.new.sink.now) }
    ensures later { S.faults out.old.sink.now ≤ S.faults out.new.sink.now }
    ensures names { out.new.names.now ≡ out.old.names.now }
    ensures same_sink { out.new.sink.ghost_name ≡ out.old.sink.ghost_name }
{
    match root.get(rt) {
        Some(entry) => write(alloc, out, entry),
        None => serve(rt, crew),
    }
}

/// Takes turns until the run has ended.
pub fn lead<R: Wait, S: Sink, G: Gate>(
    rt: &R,
    alloc: Global,
    crew: &Crew<G>,
    root: &mut GetEnd,
    out: &mut LineSink<S>,
) -> Outcome
    requires fresh { root.old.moved ≡ [] }
    ensures made { root.new.made ≡ root.old.made }
    ensures stated { IsPrefix (passed root.new.moved) (history_of root.new) }
    ensures ends { EndsAs out.old.names.now root.new.moved (S.held out.old.sink.now) (S.held out.new.sink.now) result }
    ensures rose { result ≡ outcome.WriteFault → Rose (S.faults out.old.sink.now) (S.faults out.new.sink.now) }
    ensures later { S.faults out.old.sink.now ≤ S.faults out.new.sink.now }
    ensures names { out.new.names.now ≡ out.old.names.now }
    ensures same_sink { out.new.sink.ghost_name ≡ out.old.sink.ghost_name }
{
    let mut backoff = Backoff::new(crew.output());
    for _ in rt.forever() {
        match read_or_serve(rt, alloc, crew, root, out) {
            Turn::Went => backoff.reset(),
            Turn::Idle => backoff.wait(rt),
            Turn::Ended(outcome) => return outcome,
        }
    }
    unreachable!()
}

//! A network run by a crew.
ghost use Rattle.std.specs.Prelude.{◌≡◌, ◌≤◌, [], true, false, IsTrue, None, Some};
ghost use mathlib.Core.List.{IsPrefix};
ghost use Rattle.sn_record.specs.declared.item.Fault.{Fault as SomeFault};
ghost use Rattle.sn_net.specs.Net.{all_deterministic};
ghost use Rattle.sn_io.specs.Causes.{Rose};
ghost use Rattle.sn_io.specs.Told.{AppendsPrefix};
ghost use Rattle.sn_output.specs.Printed.{ending, printed};
ghost use Rattle.sn_model.specs.Run.{given, net_of};
ghost use Rattle.sn_stream.specs.Ends.{history_of, passed};
ghost use Rattle.sn_crew.specs.Root.{HasWritten, IsRootOf, has_ended, items_among};
ghost use Rattle.sn_crew.specs.Turns.{EndsAs};
ghost use Rattle.sn_model.specs.declared.outcome.Outcome.TheVariants as outcome;

use crate::crew::{Crew, help};
use crate::lead::lead;
use sn_io::{Gate, Sink};
use sn_model::{Outcome, Run};
use sn_output::LineSink;
use sn_stream::GetEnd;
use sn_turn::Node;
use std::alloc::Global;
use std::sync::{Arc, Wait};
use std::thread::{Threads, join_mut};

/// Reads and writes while other threads serve nodes.
fn lead_others<R: Threads + Wait + Sync, S: Sink, G: Gate>(
    rt: &R,
    alloc: Global,
    crew: &Crew<G>,
    workers: u32,
    root: &mut GetEnd,
    out: &mut LineSink<S>,
) -> Outcome
    requires fresh { root.old.moved ≡ [] }
    ensures made { root.new.made ≡ root.old.made }
    ensures stated { IsPrefix (passed root.new.moved) (history_of root.new) }
    ensures ends { EndsAs out.old.names.now root.new.moved (S.held out.old.sink.now) (S.held out.new.sink.now) result }
    ensures rose { result ≡ outcome.WriteFault → Rose (S.faults out.old.sink.now) (S.faults out.new.sink.now) }
    ensures later { S.faults out.old.sink.now ≤ S.faults out.new.sink.now }
    ensures names { out.new.names.now ≡ out.old.names.now }
    ensures same_sink { out.new.sink.ghost_name ≡ out.old.sink.ghost_name }
{
    let ((), outcome) = join_mut(
        rt,
        &mut || help(rt, crew, workers),
        &mut || -> Outcome
            requires { root.now.moved ≡ [] }
            ensures made { root.exit.now.made ≡ root.entry.now.made }
            ensures stated { IsPrefix (passed root.exit.now.moved) (history_of root.exit.now) }
            ensures ends { EndsAs out.entry.now.names.now root.exit.now.moved (S.held out.entry.now.sink.now) (S.held out.exit.now.sink.now) result }
            ensures rose { result ≡ outcome.WriteFault → Rose (S.faults out.entry.now.sink.now) (S.faults out.exit.now.sink.now) }
            ensures later { S.faults out.entry.now.sink.now ≤ S.faults out.exit.now.sink.now }
            ensures names { out.exit.now.names.now ≡ out.entry.now.names.now }
            ensures same_sink { out.exit.now.sink.ghost_name ≡ out.entry.now.sink.ghost_name }
        {
            let outcome = lead(rt, alloc, crew, root, out);
            crew.stop(rt);
            outcome
        },
    );
    outcome
}

/// Reads and writes, with other threads that serve nodes or without.
fn lead_all<R: Threads + Wait + Sync, S: Sink, G: Gate>(
    rt: &R,
    alloc: Global,
    nodes: Vec<Node>,
    root: &mut GetEnd,
    workers: u32,
    gate: &G,
    out: &mut LineSink<S>,
) -> Outcome
    requires fresh { root.old.moved ≡ [] }
    ensures made { root.new.made ≡ root.old.made }
    ensures stated { IsPrefix (passed root.new.moved) (history_of root.new) }
    ensures ends { EndsAs out.old.names.now root.new.moved (S.held out.old.sink.now) (S.held out.new.sink.now) result }
    ensures rose { result ≡ outcome.WriteFault → Rose (S.faults out.old.sink.now) (S.faults out.new.sink.now) }
    ensures later { S.faults out.old.sink.now ≤ S.faults out.new.sink.now }
    ensures names { out.new.names.now ≡ out.old.names.now }
    ensures same_sink { out.new.sink.ghost_name ≡ out.old.sink.ghost_name }
{
    let Ok(crew) = Crew::new(alloc, gate, root) else {
        return Outcome::Memory;
    };
    crew.admit(rt, nodes);
    if workers < 2 {
        return lead(rt, alloc, &crew, root, out);
    }
    lead_others(rt, alloc, &crew, workers, root, out)
}

/// Runs a network whose merges are in order, by its nodes, of which the workers take turns. The calling thread reads what leaves the network,
/// writes the line of each record at once, and serves nodes where there is nothing to read. The run ends at the first fault. Where threads
/// can't be started it goes on with fewer. What is left of the nodes is dropped.
pub fn crew_run<R: Threads + Wait + Sync, S: Sink, G: Gate>(
    rt: &R,
    alloc: Global,
    run: Arc<Run>,
    nodes: Vec<Node>,
    root: &mut GetEnd,
    workers: u32,
    gate: &G,
    out: &mut LineSink<S>,
) -> Outcome
    requires in_order { IsTrue (all_deterministic (net_of run.value)) }
    requires root { IsRootOf run.value root.old }
    requires fresh { root.old.moved ≡ [] }
    requires workers { (1 ≤ workers) × (workers ≤ 64) }
    ensures made { root.new.made ≡ root.old.made }
    ensures beginning { IsPrefix (items_among root.new.moved) (given run.value) }
    ensures all { IsTrue (has_ended root.new.moved) → items_among root.new.moved ≡ given run.value }
    ensures written { AppendsPrefix (S.held out.old.sink.now) (S.held out.new.sink.now) (printed out.old.names.now (items_among root.new.moved)) }
    ensures whole { result ≡ outcome.Whole → HasWritten out.old.names.now root.new.moved (S.held out.old.sink.now) (S.held out.new.sink.now) true None }
    ensures ended { IsTrue (has_ended root.new.moved) → result ≡ outcome.Whole }
    ensures faulted { (fault : SomeFault) → result ≡ outcome.Faulted fault → HasWritten out.old.names.now root.new.moved (S.held out.old.sink.now) (S.held out.new.sink.now) false (Some fault) }
    ensures first { (fault : SomeFault) → ending (items_among root.new.moved) ≡ Some fault → result ≡ outcome.Faulted fault }
    ensures rose { result ≡ outcome.WriteFault → Rose (S.faults out.old.sink.now) (S.faults out.new.sink.now) }
    ensures later { S.faults out.old.sink.now ≤ S.faults out.new.sink.now }
    ensures names { out.new.names.now ≡ out.old.names.now }
    ensures same_sink { out.new.sink.ghost_name ≡ out.old.sink.ghost_name }
{
    let outcome = lead_all(rt, alloc, nodes, root, workers, gate, out);
    drop(run);
    outcome
}

//! A graph driven to its end with workers.
ghost use Rattle.std.specs.Prelude.{◌≡◌, ◌≤◌};
ghost use Rattle.sn_graph.specs.Graph.{IsGraphOf, seen};
ghost use Rattle.sn_turns.specs.OwnerEnds.{AreEndsOf};
ghost use Rattle.sn_turns.specs.declared.turn.Turn.TheVariants as turn;

use crate::drive::take_turns;
use crate::owner::{OwnerEnds, end_at_refusal, open_ends};
use crate::watcher::Watcher;
use sn_graph::Graph;
use sn_io::Gate;
use sn_jobs::JobHand;
use sn_model::{Outcome, Run};
use sn_workers::{Shared, Signals, help};
use std::alloc::Global;
use std::sync::{Arc, Wait};
use std::thread::{Threads, join_mut};

/// Drives a graph while other threads make calls.
fn drive_with<R: Threads + Wait + Sync, G: Gate, W: Watcher>(
    rt: &R,
    shared: &Shared<G>,
    ends: &mut OwnerEnds,
    theirs: &mut JobHand,
    workers: u32,
    graph: &mut Graph,
    watcher: &mut W,
) -> Outcome
    requires ends { AreEndsOf shared.now.run.now.value ends.old }
    requires hand { theirs.old.made.run ≡ shared.now.run.now.value }
    requires of { IsGraphOf graph.old shared.now.run.now.value }
    ensures of { IsGraphOf graph.new shared.now.run.now.value }
    ensures goes { W.goes (seen graph.old) watcher.old (seen graph.new) watcher.new (turn.Ended result) }
{
    let ((), outcome) = join_mut(
        rt,
        &mut ||
            requires { theirs.now.made.run ≡ shared.now.run.now.value }
        { help(rt, shared, theirs, workers) },
        &mut || -> Outcome
            requires { AreEndsOf shared.now.run.now.value ends.now × IsGraphOf graph.now shared.now.run.now.value }
            ensures of { IsGraphOf graph.exit.now shared.entry.now.run.now.value }
            ensures goes { W.goes (seen graph.entry.now) watcher.entry.now (seen graph.exit.now) watcher.exit.now (turn.Ended result) }
        {
            let outcome = take_turns(rt, shared, ends, graph, watcher);
            shared.signals.end();
            outcome
        },
    );
    outcome
}

/// Drives a graph to its end, and tells a watcher of each event as it happens. The calling thread applies the events. It gives calls to the workers, of
/// which it is one: at most `workers` calls run at a time. Where threads can't be started it goes on with fewer.
///
/// A graph to which 2^62 events happened does nothing more, and the call does not return.
pub fn drive_watched<R: Threads + Wait + Sync, G: Gate, W: Watcher>(
    rt: &R,
    alloc: Global,
    run: &Arc<Run>,
    graph: &mut Graph,
    workers: u32,
    gate: &G,
    watcher: &mut W,
) -> Outcome
    requires of { IsGraphOf graph.old run.now.value }
    requires workers { (1 ≤ workers) × (workers ≤ 64) }
    ensures of { IsGraphOf graph.new run.now.value }
    ensures goes { W.goes (seen graph.old) watcher.old (seen graph.new) watcher.new (turn.Ended result) }
{
    let shared = Shared {
        alloc,
        run,
        gate,
        signals: Signals::new(),
    };
    let alone = workers < 2;
    let Ok((mut ends, mut theirs)) = open_ends(alloc, run, alone) else {
        return end_at_refusal(&shared, graph, watcher);
    };
    if alone {
        return take_turns(rt, &shared, &mut ends, graph, watcher);
    }
    drive_with(rt, &shared, &mut ends, &mut theirs, workers, graph, watcher)
}

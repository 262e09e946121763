//! A graph to which nothing happened yet.
ghost use Rattle.std.specs.Prelude.{[], ◌≡◌, ◌<◌, ◌≤◌, IfOk, length, true, ℕ};
ghost use Rattle.sn_view.specs.Next.{start_view};
ghost use Rattle.sn_node.specs.Agenda.{is_listed};
ghost use Rattle.sn_graph.specs.Arena.{IsOf, view_of};
ghost use Rattle.sn_graph.specs.Listed.{IsListed};

use crate::arena::Arena;
use crate::grow::{NewNodes, grow};
use indexmap::IndexMap;
use sn_list::{Memory, Seq};
use sn_model::{Run, Trail};
use sn_node::{Agenda, Target};
use std::alloc::Global;
use std::collections::VecDeque;
use std::snapshot::Snapshot;

/// All numbers below a bound, listed.
fn list_all(alloc: Global, bound: usize) -> Result<Agenda, Memory>
    ensures listed { IfOk result (λ agenda. (i : ℕ) → i < bound → is_listed i agenda.stack.items ≡ true) }
    ensures room { IfOk result (λ agenda. bound ≤ length agenda.listed.items) }
{
    let mut agenda = Agenda::new(alloc);
    agenda.reach(bound)?;
    for i in 0..bound {
        agenda.list_if_below(i);
    }
    Ok(agenda)
}

impl Arena {
    /// The nodes of a run's network, at which nothing waits yet, all listed.
    pub(crate) fn start(alloc: Global, run: &Run) -> Result<Arena, Memory>
        ensures of { IfOk result (λ arena. IsOf arena run.now) }
        ensures view { IfOk result (λ arena. view_of arena ≡ start_view run.now) }
        ensures places { IfOk result (λ arena. arena.places.entries ≡ []) }
        ensures listed { IfOk result IsListed }
    {
        let mut grown = NewNodes::new(alloc, 0);
        grow(
            alloc,
            run,
            &mut grown,
            run.net(),
            &Trail::new(),
            &[],
            Target::Out,
        )?;
        let NewNodes { base: _, nodes } = grown;
        let agenda = list_all(alloc, nodes.len())?;
        Ok(Arena {
            run: Snapshot::of(run),
            nodes,
            applied: 0,
            calls: 0,
            taken: 0,
            ended: false,
            ready: VecDeque::new(alloc),
            out: Seq::new(alloc),
            places: IndexMap::new(alloc),
            agenda,
        })
    }
}

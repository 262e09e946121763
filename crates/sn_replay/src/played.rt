//! A run that is played again, line by line.
ghost use Rattle.std.specs.Prelude.{◌≡◌, ◌∷◌, []};
ghost use Rattle.std.specs.List.{list_any};
ghost use Rattle.sn_net.specs.Item.{modelled};
ghost use Rattle.sn_event_lines.specs.Naming.{is_fault as is_faulty};

use indexmap::IndexMap;
use sn_graph::{ApplyCause, Done, Effect, Event, Graph, Job, make_done};
use sn_list::Memory;
use sn_model::Run;
use sn_record::{Item, Items};
use sn_stack::append;
use sn_trace_lines::Line;
use std::alloc::Global;
use std::sync::Arc;

/// What a run has come to by the lines so far.
#[derive(Drop)]
pub(crate) struct Played {
    pub(crate) graph: Graph,
    /// The calls in flight, by their numbers.
    pub(crate) calls: IndexMap<u64, Job>,
    pub(crate) out: Items,
    /// Whether a fault came out.
    pub(crate) is_faulted: bool,
}

fn is_fault(item: &Item) -> bool
    ensures { result ≡ list_any is_faulty (modelled item.now ∷ []) }
{
    matches!(item, Item::Fault(_))
}

impl Played {
    ghost use Rattle.std.specs.Prelude.{◌<◌, ◌^◌, ℕ, IfErr, IfNone, IfOk, IfSome, OnOk, false};
    ghost use Rattle.sn_boxrun.specs.Job.{IsJobOf};
    ghost use Rattle.sn_view.specs.Next.{IsEnabled, start_view};
    ghost use Rattle.sn_view.specs.View.{Happening};
    ghost use Rattle.sn_graph.specs.Started.{finish_of};
    ghost use Rattle.sn_graph.specs.declared.event.ApplyCause.TheVariants as cause;
    ghost use Rattle.sn_graph.specs.declared.event.Effect.TheVariants as effect;
    ghost use Rattle.sn_trace_lines.specs.declared.line.Line.TheVariants as line;
    ghost use Rattle.sn_event_lines.specs.Naming.{Happens, Names};
    ghost use Rattle.sn_replay.specs.State.{IsPlayed, Keeps, Prepares, table_of, view_of};
    ghost use Rattle.sn_replay.specs.Tables.{IsTable, Loses};

    pub(crate) fn start(alloc: Global, run: &Run) -> Result<Played, Memory>
        ensures played { IfOk result (IsPlayed run.now) }
        ensures start { IfOk result (λ played. view_of played ≡ start_view run.now) }
    {
        let graph = Graph::start(alloc, run)?;
        Ok(Played {
            graph,
            calls: IndexMap::new(alloc),
            out: Items::new(alloc),
            is_faulted: false,
        })
    }

    /// The job of a call in flight, which leaves the table.
    fn job_of(&mut self, run: &Run, call: u64) -> Option<Job>
        requires { IsTable run.now (view_of self.old) (table_of self.old) }
        ensures job { IfSome result (IsJobOf run.now) }
        ensures named { IfSome result (λ job. Names (line.Finish call) (finish_of job)) }
        ensures only { IfSome result (λ job. (e : Happening) → Names (line.Finish call) e → IsEnabled (view_of self.old) e → e ≡ finish_of job) }
        ensures loses { IfSome result (λ job. Loses (finish_of job) (table_of self.old) (table_of self.new)) }
        ensures none { IfNone result ((e : Happening) → Names (line.Finish call) e → IsEnabled (view_of self.old) e → ⊥) }
        ensures graph { self.new.graph ≡ self.old.graph }
        ensures out { self.new.out ≡ self.old.out }
        ensures faulted { self.new.is_faulted ≡ self.old.is_faulted }
    {
        self.calls.swap_remove(&call)
    }

    /// The event that answers a call in flight.
    fn finish(&mut self, alloc: Global, run: &Arc<Run>, call: u64) -> Result<Event, ApplyCause>
        requires { IsTable run.now.value (view_of self.old) (table_of self.old) }
        ensures prepared { IfOk result (λ event. Prepares run.now.value (line.Finish call) event self.old self.new) }
        ensures refused { IfErr result (λ why. why ≡ cause.NotEnabled → (e : Happening) → Names (line.Finish call) e → IsEnabled (view_of self.old) e → ⊥) }
    {
        let Some(job) = self.job_of(run, call) else {
            return Err(ApplyCause::NotEnabled);
        };
        match make_done(alloc, run, job) {
            Ok(done) => Ok(Event::Finish { done }),
            Err(_job) => Err(ApplyCause::Memory),
        }
    }

    /// The event that a line names.
    fn event_of(&mut self, alloc: Global, run: &Arc<Run>, line: Line) -> Result<Event, ApplyCause>
        requires { IsTable run.now.value (view_of self.old) (table_of self.old) }
        ensures prepared { IfOk result (λ event. Prepares run.now.value line event self.old self.new) }
        ensures refused { IfErr result (λ why. why ≡ cause.NotEnabled → (e : Happening) → Names line e → IsEnabled (view_of self.old) e → ⊥) }
    {
        match line {
            Line::Take => Ok(Event::Take),
            Line::Start { node } => Ok(Event::Start { node }),
            Line::Finish { call } => self.finish(alloc, run, call),
            Line::Local { node } => Ok(Event::Local { node }),
            Line::Route { node } => Ok(Event::Route { node }),
            Line::Unfold { node } => Ok(Event::Unfold { node }),
            Line::Merge { node, child } => Ok(Event::Merge { node, child }),
            Line::Emit => Ok(Event::Emit),
        }
    }

    /// Keeps a call that began.
    fn keep(&mut self, job: Job) -> Result<(), ApplyCause>
        ensures kept { OnOk result (Keeps (effect.Call job) self.old self.new) }
        ensures memory { IfErr result (λ why. why ≡ cause.Memory) }
    {
        let call = job.call;
        match self.calls.insert(call, job) {
            Ok(_) => Ok(()),
            Err(_) => Err(ApplyCause::Memory),
        }
    }

    /// Keeps an item that came out.
    fn emit(&mut self, item: Item) -> Result<(), ApplyCause>
        ensures kept { OnOk result (Keeps (effect.Out item) self.old self.new) }
        ensures memory { IfErr result (λ why. why ≡ cause.Memory) }
    {
        let is_fault = is_fault(&item);
        match append(&mut self.out, item) {
            Ok(()) => {
                self.is_faulted |= is_fault;
                Ok(())
            }
            Err(_) => Err(ApplyCause::Memory),
        }
    }

    /// Keeps what came of an event.
    fn note(&mut self, effect: Effect) -> Result<(), ApplyCause>
        ensures kept { OnOk result (Keeps effect self.old self.new) }
        ensures memory { IfErr result (λ why. why ≡ cause.Memory) }
    {
        match effect {
            Effect::Call(job) => self.keep(job),
            Effect::Out(item) => self.emit(item),
            Effect::Moved => Ok(()),
        }
    }

    /// The event of a line happens, if it may.
    pub(crate) fn happen(
        &mut self,
        alloc: Global,
        run: &Arc<Run>,
        line: Line,
    ) -> Result<(), ApplyCause>
        requires played { IsPlayed run.now.value self.old }
        requires few { (view_of self.old).applied < 2 ^ 62 }
        requires sound { self.old.is_faulted ≡ false }
        ensures played { OnOk result (IsPlayed run.now.value self.new) }
        ensures happens { OnOk result (Happens (view_of self.old) line (view_of self.new)) }
        ensures refused { IfErr result (λ why. why ≡ cause.NotEnabled → (e : Happening) → Names line e → IsEnabled (view_of self.old) e → ⊥) }
    {
        let event = self.event_of(alloc, run, line)?;
        match self.graph.apply_given(alloc, run, event) {
            Ok(effect) => self.note(effect),
            Err(fault) => Err(fault.cause),
        }
    }
}

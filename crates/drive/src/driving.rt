//! A graph driven to rest.
ghost use Rattle.std.specs.Prelude.{◌≡◌, ◌≤◌};
ghost use Rattle.std.specs.List.{All};
ghost use Rattle.sn_boxrun.specs.Job.{IsJobOf};
ghost use Rattle.sn_view.proofs.Coding.{run_once};
ghost use Rattle.sn_graph.specs.Graph.{IsGraphOf};
ghost use Rattle.drive.specs.Driven.{OnlyAllowed, events_of};
ghost use Rattle.drive.specs.declared.driving.TheConstants.{MOST_EVENTS};

use crate::chance::Chance;
use crate::nodes::count_nodes;
use crate::order::Order;
use crate::refusal::Refusal;
use crate::trying::any_event;
use sn_graph::{ApplyCause, Done, Effect, Event, Graph, Job, make_done};
use sn_model::Run;
use std::alloc::Global;
use std::sync::Arc;

/// So many events may happen.
const MOST_EVENTS: u64 = 4_611_686_018_427_387_904;

/// How many events are tried by chance before another way is taken.
const TRIES: u32 = 32;

/// Among how many calls one is answered by chance.
const MOST_CALLS: usize = 1024;

/// A graph, with its calls in flight.
#[derive(Drop)]
pub struct Drive {
    run: Arc<Run>,
    graph: Graph,
    /// The calls that were begun and not answered, the oldest first unless some were answered by chance.
    calls: Vec<Job>,
    pub ghost of: { IsGraphOf graph run.value } by { run_once _ _ },
    pub ghost few: { events_of graph ≤ MOST_EVENTS },
    pub ghost allowed: { OnlyAllowed run.value graph },
    pub ghost begun: { All (IsJobOf run.value) calls.items },
}

/// Why an event did not happen.
fn refusal_of(cause: ApplyCause) -> Refusal {
    match cause {
        ApplyCause::NotEnabled => Refusal::Calls,
        ApplyCause::Memory => Refusal::Memory,
    }
}

impl Drive {
    ghost use Rattle.std.specs.Prelude.{◌+◌, ◌<◌, IfErr, IfOk, IfSome, IsTrue, OnErr, OnOk, Some, None, slice_get, vec_len};
    ghost use Rattle.sn_graph.specs.Event.{IsEventOf};
    ghost use Rattle.drive.specs.Driven.{CallsOf, IsDriven};

    pub fn start(alloc: Global, run: &Arc<Run>) -> Result<Drive, Refusal>
        ensures { IfOk result (λ drive. drive.run.value ≡ run.now.value) }
    {
        let shared: Result<_, _> = run.clone();
        let kept = shared?;
        let graph = Graph::start(alloc, run)?;
        Ok(Drive {
            run: kept,
            graph,
            calls: Vec::new(alloc),
        })
    }

    /// An event happens. Else it comes back, and nothing has changed.
    fn apply_once(&mut self, alloc: Global, event: Event) -> Result<Effect, (Refusal, Event)>
        requires { IsEventOf self.old.run.value event }
        ensures more { OnOk result (events_of self.new.graph ≡ events_of self.old.graph + 1) }
        ensures call { IfOk result (CallsOf self.old.run.value) }
        ensures back { IfErr result (λ refused. refused.1 ≡ event) }
        ensures unchanged { OnErr result (events_of self.new.graph ≡ events_of self.old.graph) }
        ensures calls { self.new.calls ≡ self.old.calls }
        ensures run { self.new.run.value ≡ self.old.run.value }
    {
        if self.graph.applied() >= MOST_EVENTS {
            return Err((Refusal::Events, event));
        }
        match self.graph.apply(alloc, &self.run, event) {
            Ok(effect) => Ok(effect),
            Err(fault) => Err((refusal_of(fault.cause), fault.event)),
        }
    }

    /// An event happens. Where it wants memory that is not there it is tried once more.
    fn apply(&mut self, alloc: Global, event: Event) -> Result<Effect, Refusal>
        requires { IsEventOf self.old.run.value event }
        ensures more { OnOk result (events_of self.new.graph ≡ events_of self.old.graph + 1) }
        ensures call { IfOk result (CallsOf self.old.run.value) }
        ensures calls { self.new.calls ≡ self.old.calls }
        ensures run { self.new.run.value ≡ self.old.run.value }
    {
        let event = match self.apply_once(alloc, event) {
            Ok(effect) => return Ok(effect),
            Err((Refusal::Memory, event)) => event,
            Err((refusal, _event)) => return Err(refusal),
        };
        match self.apply_once(alloc, event) {
            Ok(effect) => Ok(effect),
            Err((refusal, _event)) => Err(refusal),
        }
    }

    /// Keeps a call that is to be made.
    fn keep(&mut self, job: Job) -> Result<(), Refusal>
        requires { IsJobOf self.old.run.value job }
        ensures graph { self.new.graph ≡ self.old.graph }
        ensures run { self.new.run.value ≡ self.old.run.value }
    {
        match self.calls.push(job) {
            Ok(()) => Ok(()),
            Err(_) => Err(Refusal::Memory),
        }
    }

    /// An event happens, and a call that it begins is kept.
    fn happen(&mut self, alloc: Global, event: Event) -> Result<(), Refusal>
        requires { IsEventOf self.old.run.value event }
        ensures more { OnOk result (events_of self.old.graph < events_of self.new.graph) }
        ensures run { self.new.run.value ≡ self.old.run.value }
    {
        match self.apply(alloc, event)? {
            Effect::Call(job) => self.keep(job),
            Effect::Moved | Effect::Out(_) => Ok(()),
        }
    }

    /// The call of a job, made. Where it wants memory that is not there it is made once more.
    fn made(&self, alloc: Global, job: Job) -> Result<Done, Refusal>
        requires { IsJobOf self.now.run.value job }
        ensures { IfOk result (λ done. done.run.value ≡ self.now.run.value) }
    {
        let job = match make_done(alloc, &self.run, job) {
            Ok(done) => return Ok(done),
            Err(job) => job,
        };
        match make_done(alloc, &self.run, job) {
            Ok(done) => Ok(done),
            Err(_job) => Err(Refusal::Memory),
        }
    }

    /// Makes a call, and gives its answer.
    fn answer(&mut self, alloc: Global, job: Job) -> Result<(), Refusal>
        requires { IsJobOf self.old.run.value job }
        ensures more { OnOk result (events_of self.old.graph < events_of self.new.graph) }
        ensures calls { self.new.calls ≡ self.old.calls }
        ensures run { self.new.run.value ≡ self.old.run.value }
    {
        let done = self.made(alloc, job)?;
        self.apply(alloc, Event::Finish { done })?;
        Ok(())
    }

    fn next_event(&self) -> Option<Event>
        ensures { IfSome result (IsEventOf self.now.run.value) }
    {
        self.graph.next_event(&self.run)
    }

    /// Takes the call that was begun last.
    fn take_last(&mut self) -> Option<Job>
        ensures of { IfSome result (IsJobOf self.old.run.value) }
        ensures fewer { IfSome result (λ job. vec_len self.new.calls < vec_len self.old.calls) }
        ensures graph { self.new.graph ≡ self.old.graph }
        ensures run { self.new.run.value ≡ self.old.run.value }
    {
        self.calls.pop()
    }

    /// Takes the call that was begun first.
    fn take_first(&mut self) -> Option<Job>
        ensures of { IfSome result (IsJobOf self.old.run.value) }
        ensures graph { self.new.graph ≡ self.old.graph }
        ensures run { self.new.run.value ≡ self.old.run.value }
    {
        if self.calls.is_empty() {
            return None;
        }
        Some(self.calls.remove(0))
    }

    /// Takes a call by chance.
    fn take_any(&mut self, chance: &mut Chance) -> Option<Job>
        ensures of { IfSome result (IsJobOf self.old.run.value) }
        ensures graph { self.new.graph ≡ self.old.graph }
        ensures run { self.new.run.value ≡ self.old.run.value }
    {
        if self.calls.is_empty() {
            return None;
        }
        let i = chance.below(self.calls.len().min(MOST_CALLS) as u32);
        Some(self.calls.swap_remove(i as usize))
    }

    /// The answer to a call that was begun, and else the next event. Whether anything happened.
    fn step_next(&mut self, alloc: Global) -> Result<bool, Refusal>
        ensures more { IfOk result (λ more. IsTrue more → events_of self.old.graph < events_of self.new.graph) }
        ensures run { self.new.run.value ≡ self.old.run.value }
    {
        if let Some(job) = self.take_last() {
            self.answer(alloc, job)?;
            return Ok(true);
        }
        if let Some(event) = self.next_event() {
            self.happen(alloc, event)?;
            return Ok(true);
        }
        Ok(false)
    }

    /// The next event, and where there is none the answer to the oldest call.
    fn step_late(&mut self, alloc: Global) -> Result<bool, Refusal>
        ensures more { IfOk result (λ more. IsTrue more → events_of self.old.graph < events_of self.new.graph) }
        ensures run { self.new.run.value ≡ self.old.run.value }
    {
        if let Some(event) = self.next_event() {
            self.happen(alloc, event)?;
            return Ok(true);
        }
        if let Some(job) = self.take_first() {
            self.answer(alloc, job)?;
            return Ok(true);
        }
        Ok(false)
    }

    /// Answers all calls, from the last that was begun to the first.
    fn answer_all(&mut self, alloc: Global) -> Result<(), Refusal>
        ensures more { OnOk result (events_of self.old.graph ≤ events_of self.new.graph) }
        ensures run { self.new.run.value ≡ self.old.run.value }
    {
        while let Some(job) = self.take_last() {
            self.answer(alloc, job)?;
        }
        Ok(())
    }

    /// The next event, and where there is none the answers to all calls.
    fn step_reverse(&mut self, alloc: Global) -> Result<bool, Refusal>
        ensures more { IfOk result (λ more. IsTrue more → events_of self.old.graph < events_of self.new.graph) }
        ensures run { self.new.run.value ≡ self.old.run.value }
    {
        if let Some(event) = self.next_event() {
            self.happen(alloc, event)?;
            return Ok(true);
        }
        if let Some(job) = self.take_last() {
            self.answer(alloc, job)?;
            self.answer_all(alloc)?;
            return Ok(true);
        }
        Ok(false)
    }

    /// An event that may happen, of those that are tried by chance.
    fn tried_event(&self, chance: &mut Chance) -> Option<Event>
        ensures { IfSome result (IsEventOf self.now.run.value) }
    {
        let nodes = count_nodes(&self.graph).max(1);
        for _ in 0..TRIES {
            let event = any_event(chance, nodes);
            if self.graph.enabled(&self.run, &event) {
                return Some(event);
            }
        }
        None
    }

    /// The next event, one by chance, or none, so that a call is answered.
    fn chosen_event(&self, chance: &mut Chance) -> Option<Event>
        ensures { IfSome result (IsEventOf self.now.run.value) }
    {
        match chance.below(8) {
            0 => self.next_event(),
            1 | 2 => None,
            _ => self.tried_event(chance),
        }
    }

    /// An event or an answer by chance, and where that gives none the next event.
    fn step_shuffled(&mut self, alloc: Global, chance: &mut Chance) -> Result<bool, Refusal>
        ensures more { IfOk result (λ more. IsTrue more → events_of self.old.graph < events_of self.new.graph) }
        ensures run { self.new.run.value ≡ self.old.run.value }
    {
        if let Some(event) = self.chosen_event(chance) {
            self.happen(alloc, event)?;
            return Ok(true);
        }
        if let Some(job) = self.take_any(chance) {
            self.answer(alloc, job)?;
            return Ok(true);
        }
        self.step_next(alloc)
    }

    /// Does what is next in an order. Whether anything happened.
    pub fn step(
        &mut self,
        alloc: Global,
        order: Order,
        chance: &mut Chance,
    ) -> Result<bool, Refusal>
        ensures more { IfOk result (λ more. IsTrue more → events_of self.old.graph < events_of self.new.graph) }
        ensures run { self.new.run.value ≡ self.old.run.value }
    {
        match order {
            Order::Next => self.step_next(alloc),
            Order::Late => self.step_late(alloc),
            Order::Reverse => self.step_reverse(alloc),
            Order::Shuffled => self.step_shuffled(alloc, chance),
        }
    }

    /// The graph, if it is at rest.
    pub fn into_graph(self) -> Result<Graph, Refusal>
        ensures { IfOk result (IsDriven self.run.value) }
    {
        if !self.graph.at_rest(&self.run) {
            return Err(Refusal::Calls);
        }
        let _out = self.graph.out();
        let Drive { graph, .. } = self;
        Ok(graph)
    }
}

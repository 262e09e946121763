//! One event, if it may happen.
ghost use Rattle.std.specs.Prelude.{◌≡◌, ◌<◌, ◌^◌, ◌↔◌, IfErr, IfOk, IsTrue, OnErr};
ghost use Rattle.sn_model.specs.declared.run.Run.{Run};
ghost use Rattle.sn_view.specs.Chains.{Comes};
ghost use Rattle.sn_view.specs.Next.{IsEnabled};
ghost use Rattle.sn_view.specs.View as view;
ghost use Rattle.sn_graph.specs.Arena.{IsOf, view_of};
ghost use Rattle.sn_graph.specs.Event.{Applies, Happened, Happens, IsEventOf, IsRefused, counted, counted_as, finished_as, happening_of, refused_as};
ghost use Rattle.sn_graph.specs.Listed.{KeepsStack, LeavesAgenda};
ghost use Rattle.sn_graph.specs.Quiet.{IsQuiet};
ghost use Rattle.sn_graph.specs.Started.{finish_of};
ghost use Rattle.sn_graph.specs.Tabled.{IsTabled};

use crate::arena::Arena;
use crate::emit::Emitted;
use crate::event::{ApplyCause, ApplyFault, Effect, Event};
use sn_boxrun::Done;
use sn_list::Memory;
use sn_model::Run;
use std::alloc::Global;

impl Arena {
    /// Counts an event, if it moved something, where so many happened before it.
    fn counted(&mut self, before: u64, moved: Result<bool, Memory>) -> Result<Effect, ApplyCause>
        requires few { before < 2 ^ 62 }
        ensures answer { result ≡ counted_as moved }
        ensures view { view_of self.new ≡ counted before moved (view_of self.old) }
        ensures of { (run : Run) → IsOf self.old run → IsOf self.new run }
        ensures quiet { IsQuiet self.old self.new }
    {
        match moved {
            Ok(true) => {
                self.applied = before + 1;
                Ok(Effect::Moved)
            }
            Ok(false) => Err(ApplyCause::NotEnabled),
            Err(_memory) => Err(ApplyCause::Memory),
        }
    }

    /// The next item of the run comes in, or the end.
    fn happen_take(&mut self, alloc: Global, run: &Run) -> Result<Effect, ApplyCause>
        requires of { IsOf self.old run.now }
        requires few { self.old.applied < 2 ^ 62 }
        requires tabled { IsTabled self.old }
        ensures happens { Happens run.now view.Take (view_of self.old) result (view_of self.new) }
        ensures tabled { IsTabled self.new }
        ensures agenda { self.new.agenda ≡ self.old.agenda }
        ensures of { IsOf self.new run.now }
    {
        let before = self.applied;
        let moved = self.take(alloc, run);
        self.counted(before, moved)
    }

    /// A box, a filter or a synchrocell passes its first entry on.
    fn happen_local(&mut self, alloc: Global, run: &Run, i: usize) -> Result<Effect, ApplyCause>
        requires of { IsOf self.old run.now }
        requires came { ∥ Comes run.now (view_of self.old) ∥₁ }
        requires few { self.old.applied < 2 ^ 62 }
        requires tabled { IsTabled self.old }
        ensures happens { Happens run.now (view.Local i) (view_of self.old) result (view_of self.new) }
        ensures tabled { IsTabled self.new }
        ensures agenda { self.new.agenda ≡ self.old.agenda }
        ensures of { IsOf self.new run.now }
    {
        let before = self.applied;
        let moved = self.local(alloc, run, i);
        self.counted(before, moved)
    }

    /// A dispatcher sends its first entry.
    fn happen_route(&mut self, alloc: Global, run: &Run, i: usize) -> Result<Effect, ApplyCause>
        requires of { IsOf self.old run.now }
        requires came { ∥ Comes run.now (view_of self.old) ∥₁ }
        requires few { self.old.applied < 2 ^ 62 }
        requires tabled { IsTabled self.old }
        ensures happens { Happens run.now (view.Route i) (view_of self.old) result (view_of self.new) }
        ensures tabled { IsTabled self.new }
        ensures agenda { self.new.agenda ≡ self.old.agenda }
        ensures of { IsOf self.new run.now }
    {
        let before = self.applied;
        let moved = self.route(alloc, run, i);
        self.counted(before, moved)
    }

    /// A dispatcher is given the replica that its first entry needs.
    fn happen_unfold(&mut self, alloc: Global, run: &Run, i: usize) -> Result<Effect, ApplyCause>
        requires of { IsOf self.old run.now }
        requires few { self.old.applied < 2 ^ 62 }
        requires tabled { IsTabled self.old }
        ensures happens { Happens run.now (view.Unfold i) (view_of self.old) result (view_of self.new) }
        ensures tabled { IsTabled self.new }
        ensures agenda { KeepsStack self.old self.new }
        ensures of { IsOf self.new run.now }
    {
        let before = self.applied;
        let moved = self.unfold(alloc, run, i);
        self.counted(before, moved)
    }

    /// A dispatcher merges what is first of a child.
    fn happen_merge(&mut self, run: &Run, i: usize, c: usize) -> Result<Effect, ApplyCause>
        requires of { IsOf self.old run.now }
        requires came { ∥ Comes run.now (view_of self.old) ∥₁ }
        requires few { self.old.applied < 2 ^ 62 }
        requires tabled { IsTabled self.old }
        ensures happens { Happens run.now (view.Merge i c) (view_of self.old) result (view_of self.new) }
        ensures tabled { IsTabled self.new }
        ensures agenda { self.new.agenda ≡ self.old.agenda }
        ensures of { IsOf self.new run.now }
    {
        let before = self.applied;
        let moved = self.merge(i, c);
        self.counted(before, moved)
    }

    /// What is first of the output leaves the network.
    fn happen_emit(&mut self, alloc: Global, run: &Run) -> Result<Effect, ApplyCause>
        requires of { IsOf self.old run.now }
        requires few { self.old.applied < 2 ^ 62 }
        requires tabled { IsTabled self.old }
        ensures happens { Happens run.now view.Emit (view_of self.old) result (view_of self.new) }
        ensures tabled { IsTabled self.new }
        ensures agenda { self.new.agenda ≡ self.old.agenda }
        ensures of { IsOf self.new run.now }
    {
        match self.emit(alloc) {
            Ok(Emitted::No) => Err(ApplyCause::NotEnabled),
            Ok(Emitted::Nothing) => {
                self.applied += 1;
                Ok(Effect::Moved)
            }
            Ok(Emitted::Item(item)) => {
                self.applied += 1;
                Ok(Effect::Out(item))
            }
            Err(_memory) => Err(ApplyCause::Memory),
        }
    }

    /// A box is called on the next record at a node.
    fn happen_start(&mut self, run: &Run, i: usize) -> Result<Effect, ApplyCause>
        requires of { IsOf self.old run.now }
        requires came { ∥ Comes run.now (view_of self.old) ∥₁ }
        requires few { self.old.applied < 2 ^ 62 }
        requires tabled { IsTabled self.old }
        ensures happens { Happens run.now (view.Start i) (view_of self.old) result (view_of self.new) }
        ensures tabled { IsTabled self.new }
        ensures agenda { self.new.agenda ≡ self.old.agenda }
        ensures of { IsOf self.new run.now }
    {
        match self.start_call(run, i) {
            Ok(None) => Err(ApplyCause::NotEnabled),
            Ok(Some(job)) => {
                self.applied += 1;
                Ok(Effect::Call(job))
            }
            Err(_memory) => Err(ApplyCause::Memory),
        }
    }

    /// A call is answered. The answer comes back where it is not wanted. It takes no memory.
    fn happen_finish(&mut self, run: &Run, done: Done) -> Result<Effect, Done>
        requires of { IsOf self.old run.now }
        requires came { ∥ Comes run.now (view_of self.old) ∥₁ }
        requires few { self.old.applied < 2 ^ 62 }
        requires tabled { IsTabled self.old }
        requires run { done.run.value ≡ run.now }
        ensures happened { IfOk result (λ effect. Happened run.now (finish_of done.job) (view_of self.old) (view_of self.new) effect) }
        ensures refused { OnErr result (IsRefused (finish_of done.job) (view_of self.old) (view_of self.new)) }
        ensures back { IfErr result (λ back. back ≡ done) }
        ensures tabled { IsTabled self.new }
        ensures agenda { self.new.agenda ≡ self.old.agenda }
        ensures of { IsOf self.new run.now }
    {
        self.finish(run, done)?;
        self.applied += 1;
        Ok(Effect::Moved)
    }

    /// Whether the event may happen.
    pub(crate) fn enabled(&self, run: &Run, event: &Event) -> bool
        requires of { IsOf self.now run.now }
        requires tabled { IsTabled self.now }
        ensures { IsTrue result ↔ IsEnabled (view_of self.now) (happening_of event.now) }
    {
        match event {
            Event::Take => self.may_take(run),
            Event::Start { node } => self.may_start(run, *node as usize),
            Event::Finish { done } => self.may_finish(run, done),
            Event::Local { node } => self.may_local(run, *node as usize),
            Event::Route { node } => self.may_route(run, *node as usize),
            Event::Unfold { node } => self.may_unfold(run, *node as usize),
            Event::Merge { node, child } => self.may_merge(*node as usize, *child as usize),
            Event::Emit => self.may_emit(),
        }
    }

    /// An event, if it may happen. Else, or for want of memory, it comes back, and nothing has changed.
    pub(crate) fn happen(
        &mut self,
        alloc: Global,
        run: &Run,
        event: Event,
    ) -> Result<Effect, ApplyFault>
        requires of { IsOf self.old run.now }
        requires came { ∥ Comes run.now (view_of self.old) ∥₁ }
        requires few { self.old.applied < 2 ^ 62 }
        requires tabled { IsTabled self.old }
        requires done { IsEventOf run.now event }
        ensures applies { Applies run.now event (view_of self.old) result (view_of self.new) }
        ensures tabled { IsTabled self.new }
        ensures agenda { LeavesAgenda (happening_of event) self.old self.new }
        ensures of { IsOf self.new run.now }
    {
        let answer = match event {
            Event::Take => self.happen_take(alloc, run),
            Event::Start { node } => self.happen_start(run, node as usize),
            Event::Finish { done } => return finished(self.happen_finish(run, done)),
            Event::Local { node } => self.happen_local(alloc, run, node as usize),
            Event::Route { node } => self.happen_route(alloc, run, node as usize),
            Event::Unfold { node } => self.happen_unfold(alloc, run, node as usize),
            Event::Merge { node, child } => self.happen_merge(run, node as usize, child as usize),
            Event::Emit => self.happen_emit(alloc, run),
        };
        refused(answer, event)
    }
}

/// An event that did not happen comes back, with the reason.
fn refused(answer: Result<Effect, ApplyCause>, event: Event) -> Result<Effect, ApplyFault>
    ensures { result ≡ refused_as answer event }
{
    match answer {
        Ok(effect) => Ok(effect),
        Err(cause) => Err(ApplyFault { cause, event }),
    }
}

/// The same of a call's answer that was not wanted.
fn finished(answer: Result<Effect, Done>) -> Result<Effect, ApplyFault>
    ensures { result ≡ finished_as answer }
{
    match answer {
        Ok(effect) => Ok(effect),
        Err(done) => Err(ApplyFault {
            cause: ApplyCause::NotEnabled,
            event: Event::Finish { done },
        }),
    }
}

//! Who is told what happens to a graph.
ghost use Rattle.sn_view.specs.Placed.{AtRest};
ghost use Rattle.sn_view.specs.View.{View};
ghost use Rattle.sn_turns.specs.Over.{IsOver};
ghost use Rattle.sn_event_lines.specs.Told.{Came, came_out};
ghost use Rattle.sn_turns.specs.declared.turn.Turn.{Turn};
ghost use Rattle.sn_turns.specs.declared.turn.Turn.TheVariants as turn;
ghost use Rattle.sn_model.specs.declared.outcome.Outcome.TheVariants as outcome;

use crate::turn::Turn;
use sn_graph::Effect;
use sn_trace_lines::Line;
use std::alloc::Global;

/// Is told of each event that happened, and may end the run.
pub trait Watcher {
    /// What turns make of a graph and of the watcher, where the last of them came to this.
    ghost goes: { View → Self → View → Self → Turn → Type 0 };

    /// The event of a line happened, and this came of it.
    fn tell(&mut self, alloc: Global, line: Line, effect: &Effect) -> Turn
        ensures { (old new : View) → Came line (came_out effect.now) old new → goes old self.old new self.new result };

    /// There is nothing to do until an answer comes.
    fn idle(&mut self, alloc: Global) -> Turn
        ensures { (g : View) → goes g self.old g self.new result };

    ghost stays: { (g : View) (w : Self) → goes g w g w turn.Went };

    ghost gives_up: { (g : View) (w : Self) → (AtRest g → ⊥) → goes g w g w (turn.Ended outcome.Memory) };

    ghost rests: { (g : View) (w : Self) → IsOver g → goes g w g w (turn.Ended outcome.Whole) };

    ghost idled: { (g h : View) (w v : Self) → goes g w h v turn.Idle → goes g w h v turn.Went };

    ghost then: { (g h i : View) (w v u : Self) (t : Turn) → goes g w h v turn.Went → goes h v i u t → goes g w i u t };
}

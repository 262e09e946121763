//! Lines of events, written to a sink.
ghost use Rattle.std.specs.Prelude.{◌≡◌, ◌≤◌, ℕ, List, [], IfErr, OnErr, OnOk};
ghost use Rattle.sn_io.specs.Causes.{HasCause, Rose};
ghost use Rattle.sn_output.specs.declared.line_sink.LineFault.TheVariants as cause;
ghost use Rattle.sn_turns.specs.declared.turn.Turn.TheVariants as turn;
ghost use Rattle.sn_trace_lines.specs.Lines.{text_of};
ghost use Rattle.sn_view.specs.View.{View};
ghost use Rattle.sn_trace.specs.Traced.{Goes, Held};
ghost use Rattle.sn_trace.specs.Watching.{Took, ends_as, state};

use sn_graph::Effect;
use sn_io::{Sink, WriteFault, write_whole};
use sn_list::Seq;
use sn_model::Outcome;
use sn_output::LineFault;
use sn_record::Item;
use sn_trace_lines::{Line, push_line};
use sn_turns::{Turn, Watcher};
use std::alloc::Global;
use std::mem::replace;

/// How many bytes of lines are kept before they are written.
pub const ROOM: usize = 8192;

/// The longest line merges from a child: two numbers of twenty digits.
const LONGEST_LINE: usize = 48;

/// A sink to which the lines of events are written, many at a time.
#[derive(Drop)]
pub struct TraceSink<'a, S> {
    pub sink: &'a mut S,
    /// The lines that are not written yet, in room for `ROOM` bytes.
    pub kept: &'a mut Seq<u8>,
}

impl<S: Sink> TraceSink<'_, S> {
    /// Keeps no line any more.
    fn forget(&mut self, alloc: Global)
        ensures none { self.new.kept.now ≡ [] }
        ensures sink { self.new.sink ≡ self.old.sink }
    {
        let mut room = replace(self.kept, Seq::new(alloc)).into_vec();
        room.clear();
        *self.kept = Seq::from_vec(room);
    }

    /// Writes the lines that are kept. Then none are, whether they were written or not.
    fn flush(&mut self, alloc: Global) -> Result<(), WriteFault>
        ensures whole { OnOk result (Took S.held S.faults self.old self.new [] []) }
        ensures part { OnErr result ((rest : List ℕ) × Took S.held S.faults self.old self.new [] rest) }
        ensures none { self.new.kept.now ≡ [] }
        ensures cause { HasCause (S.faults self.old.sink.now) (S.faults self.new.sink.now) result }
        ensures same_sink { self.new.sink.ghost_name ≡ self.old.sink.ghost_name }
    {
        let written = write_whole(self.sink, self.kept.as_slice());
        self.forget(alloc);
        written
    }

    /// Keeps a line. Where the next might not fit, those that are kept are written. As there is room for a line, memory is not wanted.
    fn keep(&mut self, alloc: Global, line: Line) -> Result<(), LineFault>
        ensures whole { OnOk result (Took S.held S.faults self.old self.new (text_of line) []) }
        ensures part { OnErr result ((rest : List ℕ) × Took S.held S.faults self.old self.new (text_of line) rest) }
        ensures rose { IfErr result (λ fault. fault ≡ cause.WriteFault → Rose (S.faults self.old.sink.now) (S.faults self.new.sink.now)) }
        ensures later { S.faults self.old.sink.now ≤ S.faults self.new.sink.now }
        ensures same_sink { self.new.sink.ghost_name ≡ self.old.sink.ghost_name }
    {
        if push_line(self.kept, line).is_err() {
            self.forget(alloc);
            return Err(LineFault::Memory);
        }
        if self.kept.len() <= ROOM - LONGEST_LINE {
            return Ok(());
        }
        match self.flush(alloc) {
            Ok(()) => Ok(()),
            Err(WriteFault) => Err(LineFault::WriteFault),
        }
    }

    /// Writes the lines that are kept at the end of a run, and answers how it ended then.
    pub fn end(&mut self, alloc: Global, outcome: Outcome) -> Outcome
        ensures ends { (g h : View) (a : Held) → Goes g a h (state S.held S.faults self.old) (turn.Ended outcome) → Goes g a h (state S.held S.faults self.new) (turn.Ended result) }
        ensures none { self.new.kept.now ≡ [] }
        ensures same_sink { self.new.sink.ghost_name ≡ self.old.sink.ghost_name }
    {
        match self.flush(alloc) {
            Ok(()) => outcome,
            Err(WriteFault) => Outcome::WriteFault,
        }
    }
}

/// What comes of an event whose line is kept: a fault ends the run.
fn after(effect: &Effect) -> Turn
    ensures { result ≡ ends_as effect.now }
{
    match effect {
        Effect::Out(Item::Fault(fault)) => Turn::Ended(Outcome::Faulted(*fault)),
        Effect::Out(Item::Rec(_)) | Effect::Moved | Effect::Call(_) => Turn::Went,
    }
}

impl<S: Sink> Watcher for TraceSink<'_, S> {
    ghost use Rattle.sn_trace.specs.Watching as watching;

    ghost goes = { λ g w h v turn. watching.Watched S.held S.faults g w h v turn };

    fn tell(&mut self, alloc: Global, line: Line, effect: &Effect) -> Turn {
        match self.keep(alloc, line) {
            Ok(()) => after(effect),
            Err(LineFault::WriteFault) => Turn::Ended(Outcome::WriteFault),
            Err(LineFault::Memory) => Turn::Ended(Outcome::Memory),
        }
    }

    fn idle(&mut self, alloc: Global) -> Turn {
        match self.flush(alloc) {
            Ok(()) => Turn::Idle,
            Err(WriteFault) => Turn::Ended(Outcome::WriteFault),
        }
    }

    ghost stays = { watching.stays S.held S.faults };

    ghost gives_up = { watching.gives_up S.held S.faults };

    ghost rests = { watching.rests S.held S.faults };

    ghost idled = { watching.idled S.held S.faults };

    ghost then = { watching.then S.held S.faults };
}

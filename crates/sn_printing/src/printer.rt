//! Lines of the records that come out, written to a sink.
ghost use Rattle.std.specs.Prelude.{◌≡◌, ◌∷◌, []};
ghost use Rattle.sn_net.specs.Item.{modelled};
ghost use Rattle.sn_view.specs.View.{View};
ghost use Rattle.sn_printing.specs.Turns.{Emits, Goes, shows};

use sn_graph::Effect;
use sn_io::Sink;
use sn_model::Outcome;
use sn_output::{LineFault, LineSink};
use sn_record::Item;
use sn_trace_lines::Line;
use sn_turns::{Turn, Watcher};
use std::alloc::Global;

/// A sink to which the line of each record that comes out is written.
#[derive(Drop)]
pub struct Printer<'a, S> {
    pub lines: LineSink<'a, S>,
}

/// Writes the line of a record that came out. A fault ends the run.
fn write<S: Sink>(alloc: Global, lines: &mut LineSink<S>, item: &Item) -> Turn
    ensures goes { (old new : View) → Emits (modelled item.now ∷ []) old new → Goes lines.old.names.now (shows old (S.held lines.old.sink.now) (S.faults lines.old.sink.now)) (shows new (S.held lines.new.sink.now) (S.faults lines.new.sink.now)) result }
    ensures names { lines.new.names.now ≡ lines.old.names.now }
    ensures same_sink { lines.new.sink.ghost_name ≡ lines.old.sink.ghost_name }
{
    let record = match item {
        Item::Rec(record) => record,
        Item::Fault(fault) => return Turn::Ended(Outcome::Faulted(*fault)),
    };
    match lines.line(alloc, record) {
        Ok(()) => Turn::Went,
        Err(LineFault::WriteFault) => Turn::Ended(Outcome::WriteFault),
        Err(LineFault::Memory) => Turn::Ended(Outcome::Memory),
    }
}

impl<S: Sink> Watcher for Printer<'_, S> {
    ghost use Rattle.sn_printing.specs.Watching as watching;

    ghost goes = { λ g w h v turn. watching.Watched S.held S.faults g w h v turn };

    fn tell(&mut self, alloc: Global, _line: Line, effect: &Effect) -> Turn {
        match effect {
            Effect::Moved | Effect::Call(_) => Turn::Went,
            Effect::Out(item) => write(alloc, &mut self.lines, item),
        }
    }

    fn idle(&mut self, _alloc: Global) -> Turn {
        Turn::Idle
    }

    ghost stays = { watching.stays S.held S.faults };

    ghost gives_up = { watching.gives_up S.held S.faults };

    ghost rests = { watching.rests S.held S.faults };

    ghost idled = { watching.idled S.held S.faults };

    ghost then = { watching.then S.held S.faults };
}

//! The two ends of a stream.
//!
//! Of a call that finds the stream full, or empty, the clauses `full` and `empty` say that by the rule, and by what the end knows, there was such
//! a moment. They cannot say that the call looked: a step that is refused leaves what a pass knows as it was, and so tells it no more than it
//! could have known. A body that never looks meets them, at `put` once as many entries were put as there is room for. Tests refuse it.
ghost use Rattle.std.specs.Prelude.{◌≡◌, ◌++◌, ◌∷◌, [], IfErr, IfNone, IfOk, IfSome, IsTrue, OnErr, OnOk};
ghost use mathlib.Core.List.{IsPrefix};
ghost use Rattle.sn_model.specs.Ranges.{IsWithin};
ghost use Rattle.sn_model.specs.declared.run.TheConstants.{LONGEST_QUEUE};
ghost use Rattle.sn_stream.specs.Ends.{Leads, history_of, is_open, moves, new_end, passed, stated_at, WasEmpty, WasFull};

use crate::item::StreamItem;
use crate::rule::{Gets, Known, Line, Opens, Puts, Stating};
use crossbeam_queue::Pass;
use sn_list::Memory;
use sn_model::Run;
use sn_net_histories::Place;
use sn_wakeup::{Listener, Waker};
use std::alloc::Global;
use std::marker::{Brand, Model};
use std::snapshot::Snapshot;
use std::sync::{Arc, Wait};

/// The queue, and the run and the place whose history it follows; and who is woken by what happens at the other end, of which nothing is
/// claimed.
#[derive(Drop)]
pub struct Stream {
    line: Line,
    run: Snapshot<Run>,
    place: Snapshot<Place>,
    /// Notified of each entry that is put.
    reader: Listener,
    /// Notified of each entry that is got, which makes room.
    writer: Listener,
}

/// Puts entries. It is the only one that does.
#[derive(Drop)]
pub struct PutEnd {
    stream: Arc<Stream>,
    pass: Pass<StreamItem, Known>,
}

impl Model for PutEnd {
    ghost use Rattle.std.specs.Prelude.{true, false};
    ghost use Rattle.crossbeam_queue.specs.Passes.{view as knows};
    ghost use Rattle.sn_stream.specs.Coding.{end_code};
    ghost use Rattle.sn_stream.specs.Ends.{End, IsEndOf, made_of};

    ghost Value = { End };

    ghost coded = { end_code };

    ghost view = { λ e. record { made = made_of e.stream.value; moved = (knows e.pass).moved } };

    ghost invariant = { λ e. IsEndOf true false e.stream.value e.pass };
}

/// Gets entries. It is the only one that does.
#[derive(Drop)]
pub struct GetEnd {
    stream: Arc<Stream>,
    pass: Pass<StreamItem, Known>,
}

impl Model for GetEnd {
    ghost use Rattle.std.specs.Prelude.{true, false};
    ghost use Rattle.crossbeam_queue.specs.Passes.{view as knows};
    ghost use Rattle.sn_stream.specs.Coding.{end_code};
    ghost use Rattle.sn_stream.specs.Ends.{End, IsEndOf, made_of};

    ghost Value = { End };

    ghost coded = { end_code };

    ghost view = { λ e. record { made = made_of e.stream.value; moved = (knows e.pass).moved } };

    ghost invariant = { λ e. IsEndOf false true e.stream.value e.pass };
}

impl PutEnd {
    /// Puts the next entry of the history. It comes back, which is called full, only where the stream was full at a step of this call (of which
    /// `full` says what a clause can). Takes no memory.
    pub fn put<R: Wait>(&mut self, rt: &R, x: StreamItem) -> Result<(), StreamItem>
        requires next { IsPrefix (passed (self.old.moved ++ x ∷ [])) (history_of self.old) }
        ensures put { OnOk result (self.new ≡ moves self.old x) }
        ensures made { self.new.made ≡ self.old.made }
        ensures stated { IsPrefix (passed self.new.moved) (history_of self.new) }
        ensures back { IfErr result (λ refused. refused ≡ x) }
        ensures unchanged { OnErr result (self.new ≡ self.old) }
        ensures full { OnErr result (WasFull self.old) }
    {
        let line = &self.stream.line;
        line.push_as::<Puts, R>(rt, &mut self.pass, x)?;
        self.stream.reader.notify(rt);
        Ok(())
    }

    /// Whoever puts here is woken by this when there is room again.
    pub fn register(&self, waker: &Arc<Waker>) -> Result<(), Memory> {
        self.stream.writer.register(waker)
    }
}

impl GetEnd {
    /// Gets the next entry of the history. There is none only where the stream held none at a step of this call (of which `empty` says what a
    /// clause can). Takes no memory.
    pub fn get<R: Wait>(&mut self, rt: &R) -> Option<StreamItem>
        ensures got { IfSome result (λ x. self.new ≡ moves self.old x) }
        ensures made { self.new.made ≡ self.old.made }
        ensures stated { IsPrefix (passed self.new.moved) (history_of self.new) }
        ensures unchanged { IfNone result (self.new ≡ self.old) }
        ensures empty { IfNone result (WasEmpty self.old) }
    {
        let line = &self.stream.line;
        let entry = line.pop_as::<Gets, R>(rt, &mut self.pass);
        if entry.is_some() {
            self.stream.writer.notify(rt);
        }
        entry
    }

    /// Whoever gets here is woken by this when an entry comes.
    pub fn register(&self, waker: &Arc<Waker>) -> Result<(), Memory> {
        self.stream.reader.register(waker)
    }

    /// By what whoever gets here is woken, if it registered.
    pub fn waker(&self) -> Option<&Arc<Waker>> {
        self.stream.reader.waker()
    }
}

fn made<J: Stating>(
    alloc: Global,
    run: &Arc<Run>,
    place: &Place,
    capacity: u32,
) -> Result<(PutEnd, GetEnd), Memory>
    requires stated { J.stated ≡ stated_at run.now.value place.now }
    requires capacity { IsWithin capacity LONGEST_QUEUE }
    ensures put { IfOk result (λ ends. ends.0 ≡ new_end ends.0.made) }
    ensures get { IfOk result (λ ends. ends.1 ≡ ends.0) }
    ensures run { IfOk result (λ ends. ends.0.made.run ≡ run.now.value) }
    ensures place { IfOk result (λ ends. ends.0.made.place ≡ place.now) }
    ensures room { IfOk result (λ ends. ends.0.made.capacity ≡ capacity) }
{
    let (line, mut putting) = Line::ruled(alloc, capacity as usize)?;
    let getting = line.another::<Opens<J>>(&mut putting);
    let stream = Stream {
        line,
        run: Snapshot::<Run>::of(run),
        place: Snapshot::of(place),
        reader: Listener::new(),
        writer: Listener::new(),
    };
    let stream = Arc::new(alloc, stream)?;
    let put = PutEnd {
        stream: Arc::try_clone(&stream)?,
        pass: putting,
    };
    let get = GetEnd {
        stream,
        pass: getting,
    };
    Ok((put, get))
}

/// A stream for a place in a run, with room for so many entries: both ends, which have moved nothing yet. An end that is no longer used
/// is dropped.
pub fn make(
    alloc: Global,
    run: &Arc<Run>,
    place: &Place,
    capacity: u32,
) -> Result<(PutEnd, GetEnd), Memory>
    requires capacity { IsWithin capacity LONGEST_QUEUE }
    requires leads { Leads run.now.value place.now }
    requires port { IsTrue (is_open place.now.port) }
    ensures put { IfOk result (λ ends. ends.0 ≡ new_end ends.0.made) }
    ensures get { IfOk result (λ ends. ends.1 ≡ ends.0) }
    ensures run { IfOk result (λ ends. ends.0.made.run ≡ run.now.value) }
    ensures place { IfOk result (λ ends. ends.0.made.place ≡ place.now) }
    ensures room { IfOk result (λ ends. ends.0.made.capacity ≡ capacity) }
{
    made::<Brand>(alloc, run, place, capacity)
}

fn moves_between_threads<T: Send>(_end: &T) {}

/// Both ends may go to other threads.
pub fn ends_are_send(put: &PutEnd, get: &GetEnd) {
    moves_between_threads(put);
    moves_between_threads(get);
}

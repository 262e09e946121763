//! What a run prints: the lines of what comes of each record, before the next is taken.
ghost use Rattle.std.specs.Prelude.{◌≡◌, ◌≤◌, ◌++◌, ◌∷◌, [], map, None, IfErr, IfOk, List, OnOk};
ghost use Rattle.sn_io.specs.Told.{appended};
ghost use Rattle.sn_record.specs.declared.item.Item.{Item as SomeItem};
ghost use Rattle.sn_net.specs.Item.{Rec, modelled};
ghost use Rattle.sn_net.specs.WellFormed.{FitsBoxes};
ghost use Rattle.sn_model.specs.Meaning.{one_list};
ghost use Rattle.sn_model.specs.Run.{boxes_of, net_of, setting_of};
ghost use Rattle.sn_output.specs.Printed.{ending, printed};
ghost use Rattle.sn_load.specs.Load.{AreLimits, AreTypedRecords, limits_of};
ghost use Rattle.sn_plain.specs.Runs.{HasPrinted, OnOneThread, WhyCutOff, WhyUnfinished};
ghost use Rattle.sn_plain.specs.Ready.{setting_at};
ghost use Rattle.sn_plain.specs.Seen.{seen_sink};
ghost use Rattle.sn_plain.specs.Shown.{Shows};

use crate::ready::Ready;
use sn_io::{Sink, write_whole};
use sn_list::{Held, Memory, Seq};
use sn_model::Run;
use sn_names::Names;
use sn_once::Once;
use sn_output::push_line;
use sn_record::{Fault, Item, Items, Record, Text};
use sn_stop::Stop;
use sn_words::DEFAULT_QUEUE;
use std::alloc::Global;

/// The lines of a stream, and the fault that ends it.
#[derive(Drop)]
pub struct Transcript {
    pub text: Text,
    pub fault: Option<Fault>,
}

impl Transcript {
    /// The transcript of nothing, in the room of a text.
    fn in_room(text: Text) -> Transcript
        ensures text { result.text ≡ [] }
        ensures fault { result.fault ≡ None }
    {
        let mut bytes = text.into_vec();
        bytes.clear();
        Transcript {
            text: Seq::from_vec(bytes),
            fault: None,
        }
    }

    /// Adds the line of a record, or the fault that ends the stream. Behind a fault nothing is added.
    fn add(&mut self, alloc: Global, names: &Names, item: Item) -> Result<(), Memory>
        ensures { OnOk result ((before : List SomeItem) → Shows names.now (map modelled before) self.old → Shows names.now (map modelled (before ++ item ∷ [])) self.new) }
    {
        if self.fault.is_some() {
            return Ok(());
        }
        match item {
            Item::Rec(shown) => push_line(alloc, &mut self.text, &shown, names),
            Item::Fault(fault) => {
                self.fault = Some(fault);
                Ok(())
            }
        }
    }

    /// Adds items, one behind the other.
    fn add_all(&mut self, alloc: Global, names: &Names, items: Items) -> Result<(), Memory>
        ensures { OnOk result ((before : List SomeItem) → Shows names.now (map modelled before) self.old → Shows names.now (map modelled (before ++ items)) self.new) }
    {
        for item in items.into_vec() {
            self.add(alloc, names, item)?;
        }
        Ok(())
    }
}

/// The transcript of some items, in the room of a text.
pub(crate) fn shown_in(
    alloc: Global,
    room: Text,
    names: &Names,
    items: Items,
) -> Result<Transcript, Memory>
    ensures { IfOk result (Shows names.now (map modelled items)) }
{
    let mut shown = Transcript::in_room(room);
    shown.add_all(alloc, names, items)?;
    Ok(shown)
}

/// Prints the line of each record among items, up to the first fault, and answers that.
pub(crate) fn print_items<O: Sink>(
    alloc: Global,
    names: &Names,
    items: Items,
    out: &mut O,
) -> Result<Option<Fault>, Stop>
    ensures ended { IfOk result (λ fault. fault ≡ ending (map modelled items)) }
    ensures whole { OnOk result (O.held out.new ≡ appended (O.held out.old) (printed names.now (map modelled items))) }
    ensures stopped { IfErr result (WhyCutOff (seen_sink O.held O.faults out.old out.new) (printed names.now (map modelled items))) }
    ensures later { O.faults out.old ≤ O.faults out.new }
{
    let Transcript { text, fault } = shown_in(alloc, Seq::new(alloc), names, items)?;
    write_whole(out, text.as_slice())?;
    Ok(fault)
}

/// Prints what the network of a run gives on one thread for typed records, and answers the fault that ends it. What comes of a
/// record is written before the next is taken, and nothing is taken behind a fault.
fn print_run<O: Sink>(
    alloc: Global,
    run: &Run,
    names: &Names,
    records: Seq<Record>,
    out: &mut O,
) -> Result<Option<Fault>, Stop>
    requires { AreTypedRecords (boxes_of run.now) (net_of run.now) records }
    ensures ended { IfOk result (λ fault. fault ≡ ending (one_list (setting_of run.now) (net_of run.now) (map Rec records))) }
    ensures whole { OnOk result (O.held out.new ≡ appended (O.held out.old) (printed names.now (one_list (setting_of run.now) (net_of run.now) (map Rec records)))) }
    ensures stopped { IfErr result (WhyCutOff (seen_sink O.held O.faults out.old out.new) (printed names.now (one_list (setting_of run.now) (net_of run.now) (map Rec records)))) }
    ensures later { O.faults out.old ≤ O.faults out.new }
{
    let once = Once::new(alloc, run)?;
    let mut engine = Held { value: once };
    let mut room = Seq::new(alloc);
    for record in records.into_vec() {
        let (next, given) = engine.into_inner().feed(alloc, run, Item::Rec(record))?;
        engine = Held { value: next };
        let Transcript { text, fault } = shown_in(alloc, room, names, given)?;
        write_whole(out, text.as_slice())?;
        if fault.is_some() {
            return Ok(fault);
        }
        room = text;
    }
    Ok(None)
}

/// Runs a network over its records on one thread, prints what comes out, and answers the fault that ends it. The fuel is that of each
/// call of a box, and the depth how many replicas a star may have.
pub fn print_once<O: Sink>(
    alloc: Global,
    ready: Ready,
    fuel: u64,
    depth: u32,
    out: &mut O,
) -> Result<Option<Fault>, Stop>
    requires limits { AreLimits (limits_of fuel depth) }
    requires formed { FitsBoxes ready.boxes ready.net }
    requires typed { AreTypedRecords ready.boxes ready.net ready.records }
    ensures done { IfOk result (HasPrinted (OnOneThread (setting_at ready (limits_of fuel depth)) ready.net ready.records ready.names) (seen_sink O.held O.faults out.old out.new)) }
    ensures ended { IfErr result (WhyUnfinished (OnOneThread (setting_at ready (limits_of fuel depth)) ready.net ready.records ready.names) (seen_sink O.held O.faults out.old out.new)) }
    ensures later { O.faults out.old ≤ O.faults out.new }
{
    let Ready {
        net,
        boxes,
        records,
        names,
    } = ready;
    let run = Run::new(net, boxes, fuel, depth, DEFAULT_QUEUE, Items::new(alloc));
    let run = Held { value: run };
    print_run(alloc, &run.value, &names, records, out)
}

//! From the files of a run to what is run.
ghost use Rattle.std.specs.Prelude.{◌≡◌, ◌≤◌, ℕ, IsTrue, List, IfOk, IfErr};
ghost use Rattle.std.specs.List.{All};
ghost use Rattle.sn_net.specs.WellFormed.{FitsBoxes};
ghost use Rattle.sn_model.specs.Ranges.{IsWithin};
ghost use Rattle.sn_model.specs.declared.run.TheConstants.{LONGEST_QUEUE};
ghost use Rattle.sn_plain.specs.Ready.{IsReady, WhyNotReady, ready_of, setting_at};
ghost use Rattle.sn_typing.specs.Accepted.{IsAccepted};
ghost use Rattle.sn_load.specs.Load.{AreLimits, AreTypedRecords, limits_of};
ghost use Rattle.sn_pieces.specs.Lines.{is_of_type};
ghost use Rattle.sn_plain.specs.Seen.{seen_file};
ghost use Rattle.sn_plain.specs.Traces.{IsRunOver};

use crate::outside::read_file;
use sn_input::Input;
use sn_io::Files;
use sn_list::{Held, Memory, Seq};
use sn_load::{INPUT_LIMIT, Program, SOURCE_LIMIT, items_of, load_source, read_input};
use sn_model::Run;
use sn_names::Names;
use sn_net::{Boxes, Claim, Net};
use sn_plan::plan;
use sn_record::Record;
use sn_stop::{Stop, Which};
use std::alloc::Global;
use std::sync::Arc;

/// The main network of a source with its boxes, and the records of an input with the names of their labels.
#[derive(Drop)]
pub struct Ready {
    pub net: Net,
    pub boxes: Boxes,
    pub records: Seq<Record>,
    pub names: Names,
}

/// The main claim of a source that passed all checks, with its boxes, and the records of an input of its type with the names of their labels.
#[derive(Drop)]
pub struct Checked {
    pub claim: Claim,
    pub boxes: Boxes,
    pub records: Seq<Record>,
    pub names: Names,
}

impl Checked {
    ghost use Rattle.sn_plain.specs.Ready.{RunsAs};

    /// What is run of it.
    pub fn into_ready(self) -> Ready
        ensures { result ≡ ready_of self }
    {
        let Checked {
            claim,
            boxes,
            records,
            names,
        } = self;
        let Claim { net, .. } = claim;
        Ready {
            net,
            boxes,
            records,
            names,
        }
    }

    /// The same with the planned network.
    fn into_planned(self, alloc: Global) -> Result<Ready, Memory>
        requires formed { FitsBoxes self.boxes self.claim.net }
        requires accepted { IsAccepted self.boxes self.claim }
        requires of_type { All (λ r. IsTrue (is_of_type self.claim.input r)) self.records }
        ensures formed { IfOk result (λ planned. FitsBoxes planned.boxes planned.net) }
        ensures typed { IfOk result (λ planned. AreTypedRecords planned.boxes planned.net planned.records) }
        ensures alike { IfOk result (RunsAs (ready_of self)) }
    {
        let net = plan(alloc, &self.claim, &self.boxes)?;
        let Checked {
            claim: _claim,
            boxes,
            records,
            names,
        } = self;
        Ok(Ready {
            net,
            boxes,
            records,
            names,
        })
    }

    /// What is run of it, which is the planned network or the one that was written.
    pub fn into_run(self, alloc: Global, is_planned: bool) -> Result<Ready, Memory>
        requires formed { FitsBoxes self.boxes self.claim.net }
        requires accepted { IsAccepted self.boxes self.claim }
        requires of_type { All (λ r. IsTrue (is_of_type self.claim.input r)) self.records }
        requires typed { AreTypedRecords self.boxes self.claim.net self.records }
        ensures formed { IfOk result (λ ready. FitsBoxes ready.boxes ready.net) }
        ensures typed { IfOk result (λ ready. AreTypedRecords ready.boxes ready.net ready.records) }
        ensures alike { IfOk result (RunsAs (ready_of self)) }
    {
        if is_planned {
            return self.into_planned(alloc);
        }
        Ok(self.into_ready())
    }
}

/// Makes all checks before a run: of the source and its types, and then of the input. Each file is read once.
pub fn check_files<F: Files>(
    alloc: Global,
    source_name: &[u8],
    input_name: &[u8],
    files: &mut F,
) -> Result<Checked, Stop>
    ensures ready { IfOk result (λ checked. IsReady (F.bytes_of files.old source_name.now) (F.bytes_of files.old input_name.now) (ready_of checked)) }
    ensures formed { IfOk result (λ checked. FitsBoxes checked.boxes checked.claim.net) }
    ensures accepted { IfOk result (λ checked. IsAccepted checked.boxes checked.claim) }
    ensures of_type { IfOk result (λ checked. All (λ r. IsTrue (is_of_type checked.claim.input r)) checked.records) }
    ensures typed { IfOk result (λ checked. AreTypedRecords checked.boxes checked.claim.net checked.records) }
    ensures stopped { IfErr result (WhyNotReady
        (seen_file F.bytes_of F.faults files.old files.new source_name.now)
        (seen_file F.bytes_of F.faults files.old files.new input_name.now)) }
    ensures same { (name : List ℕ) → F.bytes_of files.new name ≡ F.bytes_of files.old name }
    ensures later { (name : List ℕ) → F.faults files.old name ≤ F.faults files.new name }
{
    let source = read_file(alloc, files, Which::Source, source_name, SOURCE_LIMIT)?;
    let program = load_source(alloc, source.as_slice())?;
    let program = Held { value: program };
    let input = read_file(alloc, files, Which::Input, input_name, INPUT_LIMIT)?;
    let Program {
        names,
        boxes,
        claim,
    } = program.into_inner();
    let checked = Held {
        value: (boxes, claim),
    };
    let Input { records, names, .. } = read_input(
        alloc,
        names,
        &checked.value.1,
        input.as_slice(),
    )?;
    let (boxes, claim) = checked.into_inner();
    Ok(Checked {
        claim,
        boxes,
        records,
        names,
    })
}

/// The same for a run of the network as it was written.
pub fn prepare<F: Files>(
    alloc: Global,
    source_name: &[u8],
    input_name: &[u8],
    files: &mut F,
) -> Result<Ready, Stop>
    ensures ready { IfOk result (IsReady (F.bytes_of files.old source_name.now) (F.bytes_of files.old input_name.now)) }
    ensures formed { IfOk result (λ ready. FitsBoxes ready.boxes ready.net) }
    ensures typed { IfOk result (λ ready. AreTypedRecords ready.boxes ready.net ready.records) }
    ensures stopped { IfErr result (WhyNotReady
        (seen_file F.bytes_of F.faults files.old files.new source_name.now)
        (seen_file F.bytes_of F.faults files.old files.new input_name.now)) }
    ensures same { (name : List ℕ) → F.bytes_of files.new name ≡ F.bytes_of files.old name }
    ensures later { (name : List ℕ) → F.faults files.old name ≤ F.faults files.new name }
{
    let checked = check_files(alloc, source_name, input_name, files)?;
    Ok(checked.into_ready())
}

/// A run that threads may share, and the names of its labels.
#[derive(Drop)]
pub struct Started {
    pub run: Arc<Run>,
    pub names: Names,
}

/// The value, so that threads may share it. For want of memory it is given up.
pub fn share<T: Drop>(alloc: Global, value: T) -> Result<Arc<T>, Memory>
    ensures { IfOk result (λ shared. shared.value ≡ value) }
{
    match Arc::new(alloc, value) {
        Ok(shared) => Ok(shared),
        Err(_) => Err(Memory),
    }
}

/// Makes a run of what is ready: `fuel` for each call of a box, at most `depth` replicas of a star, and at most `queue` entries in a queue between
/// two threads.
pub fn start(
    alloc: Global,
    ready: Ready,
    fuel: u64,
    depth: u32,
    queue: u32,
) -> Result<Started, Memory>
    requires limits { AreLimits (limits_of fuel depth) }
    requires queue { IsWithin queue LONGEST_QUEUE }
    requires formed { FitsBoxes ready.boxes ready.net }
    requires typed { AreTypedRecords ready.boxes ready.net ready.records }
    ensures run { IfOk result (λ started. IsRunOver (setting_at ready (limits_of fuel depth)) ready.net ready.records started.run.value) }
    ensures names { IfOk result (λ started. started.names ≡ ready.names) }
{
    let Ready {
        net,
        boxes,
        records,
        names,
    } = ready;
    let parts = Held {
        value: (net, boxes),
    };
    let names = Held { value: names };
    let items = items_of(alloc, records)?;
    let (net, boxes) = parts.into_inner();
    let run = Run::new(net, boxes, fuel, depth, queue, items);
    let run = share(alloc, run)?;
    let names = names.into_inner();
    Ok(Started { run, names })
}

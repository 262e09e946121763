//! From the bytes of a source and of an input to a run.
use crate::command::Limits;
use crate::refusal::Refusal;
use sn_input::Input;
use sn_list::Held;
use sn_load::{INPUT_LIMIT, Program, SOURCE_LIMIT, items_of, load_source, read_input};
use sn_model::Run;
use sn_names::Names;
use sn_net::Claim;
use std::alloc::Global;

/// A run, and the names of its labels.
#[derive(Drop)]
pub struct Loaded {
    pub run: Run,
    pub names: Names,
}

/// The run of the main claim of a source over the records of an input.
pub fn load(alloc: Global, source: &[u8], input: &[u8], limits: Limits) -> Result<Loaded, Refusal> {
    if source.len() as u64 > SOURCE_LIMIT {
        return Err(Refusal::Source);
    }
    let program = load_source(alloc, source)?;
    let program = Held { value: program };
    if input.len() as u64 > INPUT_LIMIT {
        return Err(Refusal::Input);
    }
    let Program {
        names,
        boxes,
        claim,
    } = program.into_inner();
    let checked = Held {
        value: (boxes, claim),
    };
    let Input { records, names, .. } = read_input(alloc, names, &checked.value.1, input)?;
    let items = items_of(alloc, records)?;
    let (boxes, claim) = checked.into_inner();
    let Claim { net, .. } = claim;
    let run = Run::new(net, boxes, limits.fuel, limits.depth, limits.queue, items);
    Ok(Loaded { run, names })
}

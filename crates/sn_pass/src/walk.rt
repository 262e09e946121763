//! What a network is run with.
ghost use Rattle.std.specs.Prelude.{◌≡◌, IfOk};
ghost use Rattle.sn_net.specs.Face.{variant_of as labels_of};
ghost use Rattle.sn_pass.specs.Inputs.{input_sets as sets_of};

use sn_list::{Memory, Seq};
use sn_model::Run;
use sn_net::{BoxProgram, variant_of};
use sn_record::LabelSet;
use sn_stack::append;
use std::alloc::Global;

/// A run, and the set of each box's input labels, which is made once for all records.
#[derive(Clone, Copy)]
pub struct Walk<'a> {
    pub alloc: Global,
    pub run: &'a Run,
    pub inputs: &'a [LabelSet],
}

impl<'a> Walk<'a> {
    ghost use Rattle.std.specs.Prelude.{◌≡◌, ◌<◌, Some, length, slice_get};
    ghost use Rattle.sn_model.specs.Run.{boxes_of};
    ghost use Rattle.sn_net.specs.Face.{variant_of as labels_of};
    ghost use Rattle.sn_pass.specs.Inputs.{HasInputs};

    /// The box of a number, and the set of its input labels.
    pub fn box_at(&self, number: u32) -> (&'a BoxProgram, &'a LabelSet)
        requires there { number < length (boxes_of self.now.run.now) }
        requires inputs { HasInputs self.now }
        ensures program { slice_get (boxes_of self.now.run.now) number ≡ Some result.0.now }
        ensures input { result.1.now ≡ labels_of result.0.now.input }
    {
        let run = self.run;
        let inputs = self.inputs;
        (run.boxes().at(number as usize), &inputs[number as usize])
    }
}

/// The set of each box's input labels, by the numbers of the boxes.
pub fn input_sets(alloc: Global, boxes: &[BoxProgram]) -> Result<Seq<LabelSet>, Memory>
    ensures { IfOk result (λ sets. sets ≡ sets_of boxes.now) }
{
    let mut sets = Seq::new(alloc);
    for program in boxes {
        let input = variant_of(alloc, program.input.as_slice())?;
        append(&mut sets, input)?;
    }
    Ok(sets)
}

//! The lines of what comes out.
ghost use Rattle.std.specs.Prelude.{IfOk};
ghost use Rattle.drive.specs.Shown.{Shows};

use sn_list::{Memory, Seq};
use sn_names::Names;
use sn_output::push_line;
use sn_record::{Fault, Item, Text};
use std::alloc::Global;

/// The lines of a stream, and the fault that ends it.
#[derive(Drop)]
pub struct Transcript {
    pub text: Text,
    pub fault: Option<Fault>,
}

impl Transcript {
    /// The lines of the records before the first fault, and that fault.
    pub fn of(alloc: Global, names: &Names, items: &[Item]) -> Result<Transcript, Memory>
        ensures { IfOk result (Shows names.now items.now) }
    {
        let mut text = Seq::new(alloc);
        for item in items {
            match item {
                Item::Rec(record) => push_line(alloc, &mut text, record, names)?,
                Item::Fault(fault) => {
                    return Ok(Transcript {
                        text,
                        fault: Some(*fault),
                    });
                }
            }
        }
        Ok(Transcript { text, fault: None })
    }
}

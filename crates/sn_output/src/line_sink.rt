//! Lines of records, written to a sink.
ghost use Rattle.std.specs.Prelude.{◌≡◌, ◌≤◌, IfErr, OnOk};
ghost use Rattle.sn_io.specs.Causes.{Rose};
ghost use Rattle.sn_io.specs.Told.{AppendsPrefix, appended};
ghost use Rattle.sn_output.specs.Line.{line as line_text};
ghost use Rattle.sn_output.specs.declared.line_sink.LineFault.TheVariants as cause;

use crate::line::line_of;
use sn_io::{Sink, write_whole};
use sn_names::Names;
use sn_record::Record;
use std::alloc::Global;
use thiserror::Error;

/// Why a line was not written whole.
#[derive(Clone, Copy, PartialEq, Eq, Debug, Drop, Error)]
pub enum LineFault {
    /// The sink failed.
    #[error("the output could not be written")]
    WriteFault,
    /// Memory was wanted for the line, of which nothing was written.
    #[error("out of memory")]
    Memory,
}

/// A sink to which lines of records are written, with the names of their labels.
#[derive(Drop)]
pub struct LineSink<'a, S> {
    pub sink: &'a mut S,
    pub names: &'a Names,
}

impl<S: Sink> LineSink<'_, S> {
    /// Writes the line of a record, which is made whole before any of it is written.
    pub fn line(&mut self, alloc: Global, shown: &Record) -> Result<(), LineFault>
        ensures whole { OnOk result (S.held self.new.sink.now ≡ appended (S.held self.old.sink.now) (line_text self.old.names.now shown.now)) }
        ensures part { IfErr result (λ fault. fault ≡ cause.WriteFault → AppendsPrefix (S.held self.old.sink.now) (S.held self.new.sink.now) (line_text self.old.names.now shown.now)) }
        ensures rose { IfErr result (λ fault. fault ≡ cause.WriteFault → Rose (S.faults self.old.sink.now) (S.faults self.new.sink.now)) }
        ensures nothing { IfErr result (λ fault. fault ≡ cause.Memory → S.held self.new.sink.now ≡ S.held self.old.sink.now) }
        ensures later { S.faults self.old.sink.now ≤ S.faults self.new.sink.now }
        ensures names { self.new.names.now ≡ self.old.names.now }
        ensures same_sink { self.new.sink.ghost_name ≡ self.old.sink.ghost_name }
    {
        let Ok(text) = line_of(alloc, shown, self.names) else {
            return Err(LineFault::Memory);
        };
        match write_whole(self.sink, text.as_slice()) {
            Ok(()) => Ok(()),
            Err(_) => Err(LineFault::WriteFault),
        }
    }
}

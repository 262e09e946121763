//! Record files: one record a line, read whole, or refused at the first line that is wrong.
#![tactic(auto)]

mod input;
mod line;
mod numbering;
mod one_line;
mod reading;
mod repeats;
mod room;

pub use input::{Input, InputFault, RecordFault};
pub use numbering::record_of;
pub use one_line::read_line;
pub use reading::read_records;

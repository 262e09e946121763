//! How a command ends: why it stops, its exit status, and the line that it writes on standard error.
#![tactic(auto)]

mod refusal;
mod status;
mod stop;

pub use refusal::{LineFault, Refusal, SourceFault, TraceRefusal, TypeFault, Which};
pub use status::Status;
pub use stop::Stop;

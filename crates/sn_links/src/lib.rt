//! Links between logical nodes: calls of boxes on their way to the node that makes them, and what they gave on its way back, as bytes. Each link
//! is two queues, each under a rule that every step keeps, however threads are scheduled.
#![tactic(auto)]

mod ends;
mod fault;
mod node;
mod placement;
mod rule;

pub use ends::{DoneLink, DonePort, Far, JobLink, JobPort, Near, ends_are_send, link};
pub use fault::{DoneFault, SendCause, SendFault};
pub use node::node_of;
pub use placement::Placement;
pub use rule::Target;

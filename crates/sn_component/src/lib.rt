//! Nodes of the second engine, in which workers pass entries from node to node: the source, and the nodes of boxes, filters and synchrocells; and the
//! way out of any node. Each node's type keeps that what it has given is what the definition makes of what it has received. So whatever it puts
//! is the next entry of the history of that place, however threads are scheduled.
#![tactic(auto)]

mod component;
mod moved;
mod outbox;
mod pass;
mod source;

pub use component::Component;
pub use moved::{Moved, some_or_idle};
pub use outbox::{Outbox, Sent, Until};
pub use pass::Keeps;
pub use source::Source;

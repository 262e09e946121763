//! Networks as pictures, in the language of Graphviz.
//!
//! A picture is a list of statements: clusters that open and close, nodes, and edges between them. Each box, filter and synchrocell is a node. A
//! choice, a star and a split are each a cluster, with a node where records part and a node where they merge.
#![tactic(auto)]

mod dot;
mod drawing;
mod label;
mod statement;
mod texts;
mod variants;

pub use dot::dot_text;
pub use drawing::draw_net;
pub use statement::{Flow, Shape, Statement};
pub use texts::Texts;

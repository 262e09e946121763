//! Networks: what they are made of, when they are closed, what their components answer, and where their dispatchers send items.
#![tactic(auto)]

mod copying;
mod expr;
mod faced;
mod faces;
mod filter;
mod laws;
mod list;
mod net;
mod routing;
mod tags;

pub use copying::{copy_faces, copy_guard};
pub use expr::{BoxProgram, Boxes, BuiltinKind, Expr, Fun};
pub use faced::Faced;
pub use faces::{ascending, compare, copy_sets, face, variant_of};
pub use filter::{Arm, Filter, Part, Template, is_over};
pub use net::{Claim, Merge, Net, all_det};
pub use routing::{Key, route};
pub use sn_tagexpr::{BinOp, TagExpr};
pub use tags::RecordTags;

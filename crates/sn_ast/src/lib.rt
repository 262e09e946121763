//! The syntax trees of a source, with places, and the grammar that says which tokens spell them.
//!
//! A place is an offset in bytes from the start of the source.
#![tactic(auto)]

mod box_expr;
mod declaration;
mod fault;
mod label;
pub mod laws;
pub mod measure;
mod network;
mod tag_expr;
mod terminal;

pub use box_expr::{BExpr, BForm};
pub use declaration::{BoxDecl, Decl, FunDecl, NetDecl, Program};
pub use fault::ParseFault;
pub use label::{Ident, LabelAt, Sig, Text, Tuple, TypePart, Variant};
pub use measure::{Kept, Measured};
pub use network::{ArmAt, ItemAt, ItemSource, NetExpr, NetForm, TemplateAt};
pub use sn_list::{Boxed, Seq};
pub use tag_expr::{Operator, TExpr, TForm};
pub use terminal::{Bracket, Infix, Keyword, Link, Sign, Symbol, Terminal};

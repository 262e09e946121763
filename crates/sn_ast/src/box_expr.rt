use crate::label::{Ident, Text};
use crate::tag_expr::Operator;
use sn_list::{Boxed, Seq};

/// An expression in a box. Its place is that of its operator, or else that of its first token.
#[cycle(box_expr)]
#[derive(Drop)]
pub struct BExpr {
    pub at: u32,
    pub form: BForm,
}

#[cycle(box_expr)]
#[derive(Drop)]
pub enum BForm {
    Number(i64),
    TextLit(Text),
    Tag(Ident),
    Name(Ident),
    Neg(Boxed<BExpr>),
    Not(Boxed<BExpr>),
    Op(Operator, Boxed<BExpr>, Boxed<BExpr>),
    And(Boxed<BExpr>, Boxed<BExpr>),
    Or(Boxed<BExpr>, Boxed<BExpr>),
    If(Boxed<BExpr>, Boxed<BExpr>, Boxed<BExpr>),
    Let(Ident, Boxed<BExpr>, Boxed<BExpr>),
    /// Two or more parts.
    Seq(Seq<BExpr>),
    ListLit(Seq<BExpr>),
    Call(Ident, Seq<BExpr>),
    /// The number of the output variant as it is written, and what is emitted.
    Out(u64, Seq<BExpr>),
}

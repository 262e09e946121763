use crate::label::Ident;
use sn_list::Boxed;

/// The binary operators that compute and compare numbers.
#[derive(Clone, Copy, PartialEq, Eq)]
pub enum Operator {
    Add,
    Sub,
    Mul,
    Div,
    Rem,
    Lt,
    Le,
    Gt,
    Ge,
    Eq,
    Ne,
}

/// An expression over tags. Its place is that of its operator, of `?:` that of the `?`, or else that of its first token.
#[cycle(tag_expr)]
#[derive(Drop)]
pub struct TExpr {
    pub at: u32,
    pub form: TForm,
}

#[cycle(tag_expr)]
#[derive(Drop)]
pub enum TForm {
    Number(i64),
    Tag(Ident),
    Neg(Boxed<TExpr>),
    Not(Boxed<TExpr>),
    Op(Operator, Boxed<TExpr>, Boxed<TExpr>),
    And(Boxed<TExpr>, Boxed<TExpr>),
    Or(Boxed<TExpr>, Boxed<TExpr>),
    Cond(Boxed<TExpr>, Boxed<TExpr>, Boxed<TExpr>),
}

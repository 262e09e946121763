use sn_box_values::Datum;
use sn_net::{BinOp, BuiltinKind, Expr};

/// What the values of all parts of a node are for.
#[derive(Clone, Copy)]
pub enum Purpose {
    List,
    /// The arguments of the function with the number.
    Call(u32),
    BuiltIn(BuiltinKind),
    /// The values of the output variant with the number.
    Emit(u32),
}

/// What waits for the value of a part.
#[derive(Drop)]
pub enum Frame<'a> {
    Neg,
    Not,
    /// The operator's right part comes next.
    Left(BinOp, &'a Expr),
    /// The left value is there.
    Right(BinOp, Datum),
    And(&'a Expr),
    Or(&'a Expr),
    /// The right part of `&&` or `||`.
    Truth,
    If(&'a Expr, &'a Expr),
    Let(&'a Expr),
    /// A variable ends, after which so many stand.
    LetEnd(usize),
    /// The parts of a sequence that are still to come.
    Sequence(&'a [Expr]),
    /// The parts that are still to come, and the values of those before the awaited one.
    Parts(Purpose, &'a [Expr], Vec<Datum>),
    /// The end of a function, and the variables of its caller.
    Return(Vec<Datum>),
}

/// What a machine does next.
#[derive(Drop)]
pub enum Turn<'a> {
    Evaluate(&'a Expr),
    /// A value is there for what waits for it.
    Resume(Datum),
}

/// What comes of a turn.
#[derive(Drop)]
pub enum Next<'a> {
    Turn(Turn<'a>),
    /// Nothing waits for the value.
    Value(Datum),
}

use sn_list::{Boxed, Seq};
use sn_record::{Label, Text};
use sn_tagexpr::BinOp;

/// The functions that every box has.
#[derive(Clone, Copy, PartialEq, Eq)]
pub enum BuiltinKind {
    Len,
    At,
    Slice,
    Join,
    Push,
    Text,
    Kind,
}

/// An expression of a box, in which each name is a number.
#[derive(Drop)]
pub enum Expr {
    Int(i64),
    TextLit(Text),
    /// The variable that was added i-th, from 0: the input labels or the parameters come first.
    Var(u32),
    Neg(Boxed<Expr>),
    Not(Boxed<Expr>),
    Op(BinOp, Boxed<Expr>, Boxed<Expr>),
    And(Boxed<Expr>, Boxed<Expr>),
    Or(Boxed<Expr>, Boxed<Expr>),
    If(Boxed<Expr>, Boxed<Expr>, Boxed<Expr>),
    /// The bound value, then the rest.
    Let(Boxed<Expr>, Boxed<Expr>),
    Seq(Seq<Expr>),
    ListLit(Seq<Expr>),
    /// The number of a function, from 0, and its arguments.
    Call(u32, Seq<Expr>),
    Builtin(BuiltinKind, Seq<Expr>),
    /// The number of an output variant, from 0, and the values of its labels.
    Emit(u32, Seq<Expr>),
}

/// A function of a box.
pub struct Fun {
    /// How many parameters it has.
    pub params: u32,
    pub body: Expr,
}

/// Written out, so that a function that gives this up calls it, and is not proved over each form of the body.
impl Drop for Fun {
    fn drop(self) {
        let Fun {
            params: _,
            body: _body,
        } = self;
    }
}

/// What a box takes, what it may emit, and what it does.
pub struct BoxProgram {
    pub input: Seq<Label>,
    pub outputs: Seq<Seq<Label>>,
    pub funs: Seq<Fun>,
    pub body: Expr,
}

/// Written out as that of a function.
impl Drop for BoxProgram {
    fn drop(self) {
        let BoxProgram {
            input: _input,
            outputs: _outputs,
            funs: _funs,
            body: _body,
        } = self;
    }
}

/// The boxes of a source, by their numbers.
pub type Boxes = Seq<BoxProgram>;

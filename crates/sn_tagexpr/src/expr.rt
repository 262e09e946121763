ghost use Rattle.std.specs.Prelude.{◌≡◌, IfOk};

use sn_list::{Boxed, Memory};
use std::alloc::Global;

/// The binary operators that compute and compare numbers.
#[derive(Clone, Copy, PartialEq, Eq)]
pub enum BinOp {
    Add,
    Sub,
    Mul,
    Div,
    Rem,
    Lt,
    Le,
    Gt,
    Ge,
    Eq,
    Ne,
}

/// An expression over the tags of a record, each by the number of its name.
#[derive(Drop)]
pub enum TagExpr {
    Number(i64),
    Tag(u32),
    Neg(Boxed<TagExpr>),
    /// 1 where the operand is 0, else 0.
    Not(Boxed<TagExpr>),
    Op(BinOp, Boxed<TagExpr>, Boxed<TagExpr>),
    And(Boxed<TagExpr>, Boxed<TagExpr>),
    Or(Boxed<TagExpr>, Boxed<TagExpr>),
    /// The second where the first is not 0, else the third.
    Cond(Boxed<TagExpr>, Boxed<TagExpr>, Boxed<TagExpr>),
}

/// A copy of what is in the box, in a box of its own.
#[cycle(copy)]
fn copy_boxed(alloc: Global, part: &Boxed<TagExpr>) -> Result<Boxed<TagExpr>, Memory>
    ensures { IfOk result (λ copy. copy ≡ part.now) }
{
    let copy = part.get().copy(alloc)?;
    Boxed::new(alloc, copy)
}

impl TagExpr {
    /// A copy. As deep in calls as the expression is high.
    #[cycle(copy)]
    pub fn copy(&self, alloc: Global) -> Result<TagExpr, Memory>
        ensures { IfOk result (λ copy. copy ≡ self.now) }
    {
        match self {
            TagExpr::Number(n) => Ok(TagExpr::Number(*n)),
            TagExpr::Tag(id) => Ok(TagExpr::Tag(*id)),
            TagExpr::Neg(part) => Ok(TagExpr::Neg(copy_boxed(alloc, part)?)),
            TagExpr::Not(part) => Ok(TagExpr::Not(copy_boxed(alloc, part)?)),
            TagExpr::Op(op, left, right) => {
                let left = copy_boxed(alloc, left)?;
                let right = copy_boxed(alloc, right)?;
                Ok(TagExpr::Op(*op, left, right))
            }
            TagExpr::And(left, right) => {
                let left = copy_boxed(alloc, left)?;
                let right = copy_boxed(alloc, right)?;
                Ok(TagExpr::And(left, right))
            }
            TagExpr::Or(left, right) => {
                let left = copy_boxed(alloc, left)?;
                let right = copy_boxed(alloc, right)?;
                Ok(TagExpr::Or(left, right))
            }
            TagExpr::Cond(test, left, right) => {
                let test = copy_boxed(alloc, test)?;
                let left = copy_boxed(alloc, left)?;
                let right = copy_boxed(alloc, right)?;
                Ok(TagExpr::Cond(test, left, right))
            }
        }
    }
}

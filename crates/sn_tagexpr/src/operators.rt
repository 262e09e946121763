ghost use Rattle.std.specs.Prelude.{◌≡◌, ℤ, SomeIff, FitsSigned};
ghost use Rattle.std.specs.Int.{w64};
ghost use Rattle.sn_tagexpr.specs.Operators.{operated, negated, within, is_zero, truth};

use crate::expr::BinOp;
use crate::fault::ExprFault;

/// 1 or 0.
pub fn truth(holds: bool) -> i64
    ensures { result ≡ truth holds }
{
    if holds { 1 } else { 0 }
}

/// What was computed, or the fault where it was out of range.
fn exact(found: Option<i64>) -> Result<i64, ExprFault>
    ensures { (n : ℤ) → SomeIff found (FitsSigned w64 n) n → result ≡ within n }
{
    found.ok_or(ExprFault::Overflow)
}

fn divide(left: i64, right: i64) -> Result<i64, ExprFault>
    ensures { result ≡ operated BinOp.Div left right }
{
    if right == 0 {
        return Err(ExprFault::DivZero);
    }
    exact(left.checked_div(right))
}

fn remainder(left: i64, right: i64) -> Result<i64, ExprFault>
    ensures { result ≡ operated BinOp.Rem left right }
{
    if right == 0 {
        return Err(ExprFault::DivZero);
    }
    Ok(left.wrapping_rem(right))
}

/// What the operator gives of two numbers. A quotient is cut toward zero, and a rest has the sign of `left`.
pub fn operate(op: BinOp, left: i64, right: i64) -> Result<i64, ExprFault>
    ensures { result ≡ operated op left right }
{
    match op {
        BinOp::Add => exact(left.checked_add(right)),
        BinOp::Sub => exact(left.checked_sub(right)),
        BinOp::Mul => exact(left.checked_mul(right)),
        BinOp::Div => divide(left, right),
        BinOp::Rem => remainder(left, right),
        BinOp::Lt => Ok(truth(left < right)),
        BinOp::Le => Ok(truth(left <= right)),
        BinOp::Gt => Ok(truth(left > right)),
        BinOp::Ge => Ok(truth(left >= right)),
        BinOp::Eq => Ok(truth(left == right)),
        BinOp::Ne => Ok(truth(left != right)),
    }
}

/// The number with the other sign.
pub fn negate(n: i64) -> Result<i64, ExprFault>
    ensures { result ≡ negated n }
{
    exact(n.checked_neg())
}

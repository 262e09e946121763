ghost use Rattle.std.specs.Prelude.{◌≡◌, ℕ, ℤ, Bool, IsTrue};
ghost use Rattle.sn_tagexpr.specs.Evaluation.{every_tag, worth};

use crate::expr::TagExpr;
use crate::fault::ExprFault;
use crate::operators::{negate, operate, truth};

/// The numbers of tags, as a record has them.
pub trait Tags {
    /// Whether a tag is there.
    ghost has: { Self → ℕ → Bool };

    /// The number of each tag that is there.
    ghost number: { Self → ℕ → ℤ };

    fn tag(&self, id: u32) -> i64
        requires { IsTrue (has self.now id) }
        ensures { result ≡ number self.now id };
}

/// The value of an expression, or its first fault in the order of evaluation. Takes no memory, and is as deep in calls
/// as the expression is high.
pub fn eval<T: Tags>(e: &TagExpr, tags: &T) -> Result<i64, ExprFault>
    requires { IsTrue (every_tag (T.has tags.now) e.now) }
    ensures { result ≡ worth (T.number tags.now) e.now }
{
    match e {
        TagExpr::Number(n) => Ok(*n),
        TagExpr::Tag(id) => Ok(tags.tag(*id)),
        TagExpr::Neg(part) => negate(eval(part.get(), tags)?),
        TagExpr::Not(part) => Ok(truth(eval(part.get(), tags)? == 0)),
        TagExpr::Op(op, left, right) => {
            let first = eval(left.get(), tags)?;
            let second = eval(right.get(), tags)?;
            operate(*op, first, second)
        }
        TagExpr::And(left, right) => {
            if eval(left.get(), tags)? == 0 {
                return Ok(0);
            }
            Ok(truth(eval(right.get(), tags)? != 0))
        }
        TagExpr::Or(left, right) => {
            if eval(left.get(), tags)? != 0 {
                return Ok(1);
            }
            Ok(truth(eval(right.get(), tags)? != 0))
        }
        TagExpr::Cond(test, left, right) => {
            if eval(test.get(), tags)? != 0 {
                return eval(left.get(), tags);
            }
            eval(right.get(), tags)
        }
    }
}

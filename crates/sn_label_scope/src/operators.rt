ghost use Rattle.std.specs.Prelude.{◌≡◌};
ghost use Rattle.sn_label_scope.specs.Operators.{bin_op};

use sn_ast::Operator;
use sn_tagexpr::BinOp;

/// The operator of the core form.
pub fn bin_op(operator: Operator) -> BinOp
    ensures { result ≡ bin_op operator }
{
    match operator {
        Operator::Add => BinOp::Add,
        Operator::Sub => BinOp::Sub,
        Operator::Mul => BinOp::Mul,
        Operator::Div => BinOp::Div,
        Operator::Rem => BinOp::Rem,
        Operator::Lt => BinOp::Lt,
        Operator::Le => BinOp::Le,
        Operator::Gt => BinOp::Gt,
        Operator::Ge => BinOp::Ge,
        Operator::Eq => BinOp::Eq,
        Operator::Ne => BinOp::Ne,
    }
}

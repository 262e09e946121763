//! The nodes of expressions in boxes, over parts that are kept or not.
ghost use Rattle.std.specs.Prelude.{◌≡◌, IfOk};
ghost use Rattle.sn_ast.specs.BoxExprs.{with_binding, with_condition, sequence_of, with_step};
ghost use Rattle.sn_ast.specs.Kept.{kept};
ghost use Rattle.sn_expr_parser.specs.BoxNodes.{node, with_row, is_close_bracket, is_close_paren, is_closed_by};

use crate::level::{Expression, all_boxed, both_boxed};
use sn_ast::measure::{append, no_row, raise};
use sn_ast::{BExpr, BForm, Boxed, Ident, Kept, Operator, Seq, Sign, Symbol, Terminal};
use sn_list::Memory;
use std::alloc::Global;

/// What arguments are given to: a function by its name, an output variant by its number, or a list.
pub enum Head {
    Function(Ident),
    Variant { at: u32, number: u64 },
    Elements { at: u32 },
}

/// Written out, so that a function that gives a head up calls this, and is not proved over each form of it.
impl Drop for Head {
    fn drop(self) {
        match self {
            Head::Function(_name) => (),
            Head::Variant {
                at: _at,
                number: _number,
            } => (),
            Head::Elements { at: _at } => (),
        }
    }
}

impl Head {
    /// The expression that this makes of arguments.
    fn node(self, arguments: Seq<BExpr>) -> BExpr
        ensures { result ≡ node self arguments }
    {
        match self {
            Head::Function(name) => BExpr {
                at: name.at,
                form: BForm::Call(name, arguments),
            },
            Head::Variant { at, number } => BExpr {
                at,
                form: BForm::Out(number, arguments),
            },
            Head::Elements { at } => BExpr {
                at,
                form: BForm::ListLit(arguments),
            },
        }
    }

    pub fn with_row(self, row: Kept<Seq<BExpr>>) -> Kept<BExpr>
        ensures { result ≡ with_row self row }
    {
        let (row, measure) = row?.into_parts();
        raise(Some(measure.with(self.node(row))))
    }

    /// Whether the symbol closes the arguments.
    pub fn is_closed_by(&self, symbol: Symbol) -> bool
        ensures { result ≡ is_closed_by self.now symbol }
    {
        match self {
            Head::Elements { .. } => is_close_bracket(symbol),
            _ => is_close_paren(symbol),
        }
    }
}

fn is_close_paren(symbol: Symbol) -> bool
    ensures { result ≡ is_close_paren symbol }
{
    match symbol {
        Symbol::CloseParen => true,
        _ => false,
    }
}

fn is_close_bracket(symbol: Symbol) -> bool
    ensures { result ≡ is_close_bracket symbol }
{
    match symbol {
        Symbol::CloseBracket => true,
        _ => false,
    }
}

impl Expression for BExpr {
    ghost use Rattle.sn_ast.specs.Operators.{box_operations};

    ghost operations = { box_operations };

    fn sign(sign: Sign, at: u32, operand: Boxed<BExpr>) -> BExpr
        ensures { result ≡ box_operations.sign sign at operand }
    {
        let form = match sign {
            Sign::Minus => BForm::Neg(operand),
            Sign::Not => BForm::Not(operand),
        };
        BExpr { at, form }
    }

    fn operator(operator: Operator, at: u32, left: Boxed<BExpr>, right: Boxed<BExpr>) -> BExpr
        ensures { result ≡ box_operations.op operator at left right }
    {
        let form = BForm::Op(operator, left, right);
        BExpr { at, form }
    }

    fn and(at: u32, left: Boxed<BExpr>, right: Boxed<BExpr>) -> BExpr
        ensures { result ≡ box_operations.and at left right }
    {
        let form = BForm::And(left, right);
        BExpr { at, form }
    }

    fn or(at: u32, left: Boxed<BExpr>, right: Boxed<BExpr>) -> BExpr
        ensures { result ≡ box_operations.or at left right }
    {
        let form = BForm::Or(left, right);
        BExpr { at, form }
    }
}

/// `let name = bound in body`, at its first token.
pub fn binding(
    alloc: Global,
    at: u32,
    name: Ident,
    bound: Kept<BExpr>,
    body: Kept<BExpr>,
) -> Result<Kept<BExpr>, Memory>
    ensures { IfOk result (λ r. r ≡ with_binding kept at name bound body) }
{
    let Some(both) = both_boxed(alloc, bound, body)? else {
        return Ok(None);
    };
    let ((bound, body), measure) = both.into_parts();
    let form = BForm::Let(name, bound, body);
    Ok(raise(Some(measure.with(BExpr { at, form }))))
}

/// `if test then first else last`, at its first token.
pub fn conditional(
    alloc: Global,
    at: u32,
    test: Kept<BExpr>,
    first: Kept<BExpr>,
    last: Kept<BExpr>,
) -> Result<Kept<BExpr>, Memory>
    ensures { IfOk result (λ r. r ≡ with_condition kept at test first last) }
{
    let Some(all) = all_boxed(alloc, test, first, last)? else {
        return Ok(None);
    };
    let (((test, first), last), measure) = all.into_parts();
    let form = BForm::If(test, first, last);
    Ok(raise(Some(measure.with(BExpr { at, form }))))
}

/// The part alone where none stand before it, and else a sequence.
pub fn sequence(
    at: u32,
    so_far: Option<Kept<Seq<BExpr>>>,
    part: Kept<BExpr>,
) -> Result<Kept<BExpr>, Memory>
    ensures { IfOk result (λ r. r ≡ sequence_of kept at so_far part) }
{
    let Some(so_far) = so_far else {
        return Ok(part);
    };
    let Some(row) = append(so_far, part)? else {
        return Ok(None);
    };
    let (row, measure) = row.into_parts();
    let form = BForm::Seq(row);
    Ok(raise(Some(measure.with(BExpr { at, form }))))
}

/// One more part of a sequence.
pub fn next_step(
    alloc: Global,
    so_far: Option<Kept<Seq<BExpr>>>,
    part: Kept<BExpr>,
) -> Result<Option<Kept<Seq<BExpr>>>, Memory>
    ensures { IfOk result (λ r. r ≡ with_step kept so_far part) }
{
    let so_far = match so_far {
        None => no_row(alloc),
        Some(so_far) => so_far,
    };
    Ok(Some(append(so_far, part)?))
}

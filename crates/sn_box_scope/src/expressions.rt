//! Expressions in boxes, in which each name becomes a number.
ghost use Rattle.std.specs.Prelude.{◌≡◌, IfOk, OnOk, length, map as each};
ghost use Rattle.sn_net.specs.Boxes.{has_size};
ghost use Rattle.sn_net.specs.declared.expr.Expr.TheVariants.{Emit, Let, TextLit};
ghost use Rattle.sn_label_scope.specs.Refusals.{required};
ghost use Rattle.sn_label_scope.specs.declared.refusal.Reason.TheVariants.{Unknown};
ghost use Rattle.sn_record.specs.Value.{is_printable_text};
ghost use Rattle.sn_box_scope.specs.Functions.{call_at, call_required};
ghost use Rattle.sn_box_scope.specs.Variables.{with_bound};
ghost use Rattle.sn_box_scope.specs.Expressions.{expr_at, expr_required, output_number, output_required, parts_over, parts_required};

use crate::functions::call_at;
use crate::scope::BoxScope;
use crate::variables::{Variables, to_number};
use sn_ast::{BExpr, BForm, Ident, Tuple};
use sn_label_scope::{Reason, Refusals, bin_op};
use sn_list::{Boxed, Memory, Seq};
use sn_net::Expr;
use std::alloc::Global;

/// Whether each byte is 0x20 to 0x7E.
fn is_printable(text: &[u8]) -> bool
    ensures { result ≡ is_printable_text text.now }
{
    for byte in text {
        if *byte < 0x20 || *byte > 0x7e {
            return false;
        }
    }
    true
}

/// A text. One with other bytes than 0x20 to 0x7E is refused, though no source says one.
fn text_at(alloc: Global, refusals: &mut Refusals, text: &[u8], at: u32) -> Result<Expr, Memory>
    ensures text { IfOk result (λ expr. expr ≡ TextLit text.now) }
    ensures refused { OnOk result (refusals.new ≡ required (is_printable_text text.now) Unknown at refusals.old) }
{
    refusals.require(is_printable(text), Reason::Unknown, at);
    Ok(Expr::TextLit(Seq::from_slice(alloc, text)?))
}

/// The number of the output tuple that is written as the n-th, from 1, or else how many there are.
fn output_number(count: usize, n: u64) -> usize
    ensures { result ≡ output_number count n }
{
    if 1 <= n && n <= count as u64 {
        (n - 1) as usize
    } else {
        count
    }
}

/// Whether there is such an output tuple, and it has so many labels.
fn has_labels(outputs: &[Tuple], number: usize, count: usize) -> bool
    ensures { result ≡ has_size (each (λ tuple. length tuple.labels) outputs.now) number count }
{
    match outputs.get(number) {
        Some(tuple) => tuple.labels.len() == count,
        None => false,
    }
}

/// What is emitted as the n-th output tuple. Where there is none, or it has another number of labels, the place is refused.
fn output_at(
    scope: &BoxScope,
    refusals: &mut Refusals,
    at: u32,
    n: u64,
    parts: Seq<Expr>,
) -> Result<Expr, Memory>
    ensures output { IfOk result (λ expr. expr ≡ Emit (output_number (length scope.now.outputs) n) parts) }
    ensures refused { OnOk result (refusals.new ≡ output_required scope.now n (length parts) at refusals.old) }
{
    let outputs = scope.declaration().outputs.as_slice();
    let number = output_number(outputs.len(), n);
    refusals.require(has_labels(outputs, number, parts.len()), Reason::Arity, at);
    Ok(Expr::Emit(to_number(number)?, parts))
}

#[cycle(expr_at)]
fn boxed_at(
    alloc: Global,
    scope: &BoxScope,
    refusals: &mut Refusals,
    variables: &mut Variables,
    e: &Boxed<BExpr>,
) -> Result<Boxed<Expr>, Memory>
    ensures { IfOk result (λ boxed. (boxed ≡ expr_at scope.now e.now variables.old) × (refusals.new ≡ expr_required scope.now e.now variables.old refusals.old) × (variables.new ≡ variables.old)) }
{
    Boxed::new(alloc, expr_at(alloc, scope, refusals, variables, e.get())?)
}

#[cycle(expr_at)]
fn pair_at(
    alloc: Global,
    scope: &BoxScope,
    refusals: &mut Refusals,
    variables: &mut Variables,
    left: &Boxed<BExpr>,
    right: &Boxed<BExpr>,
) -> Result<(Boxed<Expr>, Boxed<Expr>), Memory>
    ensures { IfOk result (λ pair. (pair.0 ≡ expr_at scope.now left.now variables.old) × (pair.1 ≡ expr_at scope.now right.now variables.old) × (refusals.new ≡ expr_required scope.now right.now variables.old (expr_required scope.now left.now variables.old refusals.old)) × (variables.new ≡ variables.old)) }
{
    let left = boxed_at(alloc, scope, refusals, variables, left)?;
    let right = boxed_at(alloc, scope, refusals, variables, right)?;
    Ok((left, right))
}

#[cycle(expr_at)]
fn parts_at(
    alloc: Global,
    scope: &BoxScope,
    refusals: &mut Refusals,
    variables: &mut Variables,
    parts: &Seq<BExpr>,
) -> Result<Seq<Expr>, Memory>
    ensures { IfOk result (λ made. (made ≡ parts_over (each (expr_at scope.now) parts.now) variables.old) × (refusals.new ≡ parts_required (each (expr_required scope.now) parts.now) variables.old refusals.old) × (variables.new ≡ variables.old) × (length made ≡ length parts.now)) }
{
    let mut made = Seq::new(alloc);
    for part in parts.as_slice() {
        let part = expr_at(alloc, scope, refusals, variables, part)?;
        sn_stack::append(&mut made, part)?;
    }
    Ok(made)
}

/// What stands behind a `let`, over the variables and the one that it binds.
#[cycle(expr_at)]
fn rest_at(
    alloc: Global,
    scope: &BoxScope,
    refusals: &mut Refusals,
    variables: &mut Variables,
    name: &Ident,
    rest: &Boxed<BExpr>,
) -> Result<Boxed<Expr>, Memory>
    ensures { IfOk result (λ boxed. (boxed ≡ expr_at scope.now rest.now (with_bound variables.old name.now)) × (refusals.new ≡ expr_required scope.now rest.now (with_bound variables.old name.now) refusals.old) × (variables.new ≡ variables.old)) }
{
    let outside = variables.count();
    variables.add_field(alloc, name)?;
    let rest = boxed_at(alloc, scope, refusals, variables, rest)?;
    variables.keep_first(outside);
    Ok(rest)
}

/// The expression by the numbers of its variables. What is refused of it is noted, and the walk goes on: a name that means
/// nothing gets a number past all. As deep in calls as the expression is high.
#[cycle(expr_at)]
pub(crate) fn expr_at(
    alloc: Global,
    scope: &BoxScope,
    refusals: &mut Refusals,
    variables: &mut Variables,
    e: &BExpr,
) -> Result<Expr, Memory>
    ensures { IfOk result (λ expr. (expr ≡ expr_at scope.now e.now variables.old) × (refusals.new ≡ expr_required scope.now e.now variables.old refusals.old) × (variables.new ≡ variables.old)) }
{
    match &e.form {
        BForm::Number(n) => Ok(Expr::Int(*n)),
        BForm::TextLit(text) => text_at(alloc, refusals, text.as_slice(), e.at),
        BForm::Tag(name) => variables.named(refusals, true, name),
        BForm::Name(name) => variables.named(refusals, false, name),
        BForm::Neg(part) => boxed_at(alloc, scope, refusals, variables, part).map(Expr::Neg),
        BForm::Not(part) => boxed_at(alloc, scope, refusals, variables, part).map(Expr::Not),
        BForm::Op(operator, left, right) => {
            let (left, right) = pair_at(alloc, scope, refusals, variables, left, right)?;
            Ok(Expr::Op(bin_op(*operator), left, right))
        }
        BForm::And(left, right) => {
            let (left, right) = pair_at(alloc, scope, refusals, variables, left, right)?;
            Ok(Expr::And(left, right))
        }
        BForm::Or(left, right) => {
            let (left, right) = pair_at(alloc, scope, refusals, variables, left, right)?;
            Ok(Expr::Or(left, right))
        }
        BForm::If(test, left, right) => {
            let test = boxed_at(alloc, scope, refusals, variables, test)?;
            let (left, right) = pair_at(alloc, scope, refusals, variables, left, right)?;
            Ok(Expr::If(test, left, right))
        }
        BForm::Let(name, bound, rest) => {
            let bound = boxed_at(alloc, scope, refusals, variables, bound)?;
            let rest = rest_at(alloc, scope, refusals, variables, name, rest)?;
            Ok(Expr::Let(bound, rest))
        }
        BForm::Seq(parts) => parts_at(alloc, scope, refusals, variables, parts).map(Expr::Seq),
        BForm::ListLit(parts) => parts_at(alloc, scope, refusals, variables, parts).map(
            Expr::ListLit,
        ),
        BForm::Call(name, parts) => {
            let parts = parts_at(alloc, scope, refusals, variables, parts)?;
            call_at(scope, refusals, name, parts)
        }
        BForm::Out(n, parts) => {
            let parts = parts_at(alloc, scope, refusals, variables, parts)?;
            output_at(scope, refusals, e.at, *n, parts)
        }
    }
}

//! Expressions over tags by the numbers of the tags.
ghost use Rattle.std.specs.Prelude.{◌≡◌, IfOk};
ghost use Rattle.sn_tagexpr.specs.declared.expr.TagExpr.{TagExpr as Expr};
ghost use Rattle.sn_scope.specs.Joints.{joined};
ghost use Rattle.sn_scope.specs.Tags.{tag_expr, tags_required};

use sn_ast::{TExpr, TForm};
use sn_label_scope::{Reason, Refusals, bin_op};
use sn_list::{Boxed, Memory};
use sn_names::NameTable;
use sn_record::{Kind, Label, LabelSet};
use sn_tagexpr::{BinOp, TagExpr};
use std::alloc::Global;

/// An operator between two parts.
#[derive(Clone, Copy)]
enum Joint {
    Op(BinOp),
    And,
    Or,
}

/// Two parts and what stands between them. Takes the parts as they came, so that its caller has no exit for each form.
fn join(
    joint: Joint,
    parts: Result<(Boxed<TagExpr>, Boxed<TagExpr>), Memory>,
) -> Result<TagExpr, Memory>
    ensures { (left right : Expr) → IfOk parts (λ pair. pair.0 ≡ left) → IfOk parts (λ pair. pair.1 ≡ right) → IfOk result (λ expr. expr ≡ joined joint left right) }
{
    let (left, right) = parts?;
    match joint {
        Joint::Op(operator) => Ok(TagExpr::Op(operator, left, right)),
        Joint::And => Ok(TagExpr::And(left, right)),
        Joint::Or => Ok(TagExpr::Or(left, right)),
    }
}

#[cycle(tag_expr)]
fn boxed_expr(alloc: Global, names: &NameTable, e: &TExpr) -> Result<Boxed<TagExpr>, Memory>
    ensures { IfOk result (λ boxed. boxed ≡ tag_expr names.now e.now) }
{
    Boxed::new(alloc, tag_expr(alloc, names, e)?)
}

#[cycle(tag_expr)]
fn boxed_pair(
    alloc: Global,
    names: &NameTable,
    left: &TExpr,
    right: &TExpr,
) -> Result<(Boxed<TagExpr>, Boxed<TagExpr>), Memory>
    ensures left { IfOk result (λ pair. pair.0 ≡ tag_expr names.now left.now) }
    ensures right { IfOk result (λ pair. pair.1 ≡ tag_expr names.now right.now) }
{
    let left = boxed_expr(alloc, names, left)?;
    let right = boxed_expr(alloc, names, right)?;
    Ok((left, right))
}

/// The expression with each tag by its number. As deep in calls as the expression is high.
#[cycle(tag_expr)]
pub fn tag_expr(alloc: Global, names: &NameTable, e: &TExpr) -> Result<TagExpr, Memory>
    ensures { IfOk result (λ expr. expr ≡ tag_expr names.now e.now) }
{
    match &e.form {
        TForm::Number(n) => Ok(TagExpr::Number(*n)),
        TForm::Tag(tag) => Ok(TagExpr::Tag(names.label_number(tag.text.as_slice()))),
        TForm::Neg(part) => Ok(TagExpr::Neg(boxed_expr(alloc, names, part.get())?)),
        TForm::Not(part) => Ok(TagExpr::Not(boxed_expr(alloc, names, part.get())?)),
        TForm::Op(operator, left, right) => {
            let joint = Joint::Op(bin_op(*operator));
            join(joint, boxed_pair(alloc, names, left.get(), right.get()))
        }
        TForm::And(left, right) => {
            join(
                Joint::And,
                boxed_pair(alloc, names, left.get(), right.get()),
            )
        }
        TForm::Or(left, right) => {
            join(Joint::Or, boxed_pair(alloc, names, left.get(), right.get()))
        }
        TForm::Cond(test, left, right) => {
            let test = boxed_expr(alloc, names, test.get())?;
            let (left, right) = boxed_pair(alloc, names, left.get(), right.get())?;
            Ok(TagExpr::Cond(test, left, right))
        }
    }
}

/// Each tag of the expression is refused that the pattern doesn't have.
pub fn require_tags(
    names: &NameTable,
    refusals: &mut Refusals,
    pattern: &LabelSet,
    reason: Reason,
    e: &TExpr,
)
    ensures { refusals.new ≡ tags_required names.now pattern.now reason e.now refusals.old }
{
    match &e.form {
        TForm::Number(_) => {}
        TForm::Tag(tag) => {
            let label = Label {
                kind: Kind::Tag,
                id: names.label_number(tag.text.as_slice()),
            };
            refusals.require(pattern.contains(label), reason, tag.at);
        }
        TForm::Neg(part) | TForm::Not(part) => {
            require_tags(names, refusals, pattern, reason, part.get());
        }
        TForm::Op(_, left, right) => {
            require_tags(names, refusals, pattern, reason, left.get());
            require_tags(names, refusals, pattern, reason, right.get());
        }
        TForm::And(left, right) | TForm::Or(left, right) => {
            require_tags(names, refusals, pattern, reason, left.get());
            require_tags(names, refusals, pattern, reason, right.get());
        }
        TForm::Cond(test, left, right) => {
            require_tags(names, refusals, pattern, reason, test.get());
            require_tags(names, refusals, pattern, reason, left.get());
            require_tags(names, refusals, pattern, reason, right.get());
        }
    }
}

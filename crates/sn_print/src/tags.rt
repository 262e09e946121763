//! The texts of expressions over tags.
ghost use Rattle.std.specs.Prelude.{◌≡◌, ◌++◌, codes, OnOk};
ghost use Rattle.sn_print.specs.Expressions.{by_rank, is_alone, operand, tag_shown, tag_text};

use crate::words::{operator_text, push_number, push_tag};
use sn_ast::{TExpr, TForm, Text};
use sn_list::Memory;

/// Whether the expression needs no parentheses as an operand.
fn stands_alone(e: &TExpr) -> bool
    ensures { result ≡ is_alone (tag_shown e.now).rank }
{
    match &e.form {
        TForm::Number(_) => true,
        TForm::Tag(_) => true,
        _ => false,
    }
}

/// As deep in calls as the expression is high.
#[cycle(tag_text)]
pub fn push_tag_expr(text: &mut Text, e: &TExpr) -> Result<(), Memory>
    ensures { OnOk result (text.new ≡ text.old ++ tag_text e.now) }
{
    match &e.form {
        TForm::Number(n) => push_number(text, *n),
        TForm::Tag(name) => push_tag(text, name.text.as_slice()),
        TForm::Neg(e) => push_led(text, b"-", e.get()),
        TForm::Not(e) => push_led(text, b"!", e.get()),
        TForm::Op(operator, e, f) => {
            push_operand(text, e.get())?;
            push_led(text, operator_text(*operator), f.get())
        }
        TForm::And(e, f) => {
            push_operand(text, e.get())?;
            push_led(text, b" && ", f.get())
        }
        TForm::Or(e, f) => {
            push_operand(text, e.get())?;
            push_led(text, b" || ", f.get())
        }
        TForm::Cond(c, e, f) => {
            push_operand(text, c.get())?;
            push_led(text, b" ? ", e.get())?;
            push_led(text, b" : ", f.get())
        }
    }
}

/// Appends an operand and what stands before it.
#[cycle(tag_text)]
fn push_led(text: &mut Text, before: &[u8], e: &TExpr) -> Result<(), Memory>
    ensures { OnOk result (text.new ≡ text.old ++ (before.now ++ operand (tag_shown e.now))) }
{
    text.extend_from_slice(before)?;
    push_operand(text, e)
}

#[cycle(tag_text)]
fn push_operand(text: &mut Text, e: &TExpr) -> Result<(), Memory>
    ensures { OnOk result (text.new ≡ text.old ++ operand (tag_shown e.now)) }
{
    if stands_alone(e) {
        return push_tag_expr(text, e);
    }
    text.extend_from_slice(b"(")?;
    push_tag_expr(text, e)?;
    text.extend_from_slice(b")")
}

//! The texts of expressions in boxes.
ghost use Rattle.std.specs.Prelude.{◌≡◌, ◌++◌, map, codes, OnOk};
ghost use Rattle.std.specs.Fmt.{decimal};
ghost use Rattle.sn_print.specs.Expressions.{arguments, box_shown, box_text, is_alone, is_sequence, operand, part};
ghost use Rattle.sn_print.specs.Words.{joined};

use crate::words::{
    operator_text, push_number, push_quoted, push_separator, push_tag, push_unsigned,
};
use sn_ast::{BExpr, BForm, Ident, Text};
use sn_list::Memory;

/// Whether the expression needs no parentheses as an operand.
fn stands_alone(e: &BExpr) -> bool
    ensures { result ≡ is_alone (box_shown e.now).rank }
{
    match &e.form {
        BForm::Number(_) => true,
        BForm::TextLit(_) => true,
        BForm::Tag(_) => true,
        BForm::Name(_) => true,
        BForm::ListLit(_) => true,
        BForm::Call(_, _) => true,
        BForm::Out(_, _) => true,
        _ => false,
    }
}

/// Whether the expression needs parentheses even as an argument.
fn is_in_steps(e: &BExpr) -> bool
    ensures { result ≡ is_sequence (box_shown e.now).rank }
{
    match &e.form {
        BForm::Seq(_) => true,
        _ => false,
    }
}

fn push_binding(text: &mut Text, name: &Ident) -> Result<(), Memory>
    ensures { OnOk result (text.new ≡ text.old ++ (codes "let " ++ name.now.text)) }
{
    text.extend_from_slice(b"let ")?;
    text.extend_from_slice(name.text.as_slice())
}

fn push_output(text: &mut Text, number: u64) -> Result<(), Memory>
    ensures { OnOk result (text.new ≡ text.old ++ (codes "out " ++ decimal number)) }
{
    text.extend_from_slice(b"out ")?;
    push_unsigned(text, number)
}

/// As deep in calls as the expression is high.
#[cycle(box_text)]
pub fn push_box_expr(text: &mut Text, e: &BExpr) -> Result<(), Memory>
    ensures { OnOk result (text.new ≡ text.old ++ box_text e.now) }
{
    match &e.form {
        BForm::Number(n) => push_number(text, *n),
        BForm::TextLit(content) => push_quoted(text, content.as_slice()),
        BForm::Tag(name) => push_tag(text, name.text.as_slice()),
        BForm::Name(name) => text.extend_from_slice(name.text.as_slice()),
        BForm::Neg(e) => push_led(text, b"-", e.get()),
        BForm::Not(e) => push_led(text, b"!", e.get()),
        BForm::Op(operator, e, f) => {
            push_operand(text, e.get())?;
            push_led(text, operator_text(*operator), f.get())
        }
        BForm::And(e, f) => {
            push_operand(text, e.get())?;
            push_led(text, b" && ", f.get())
        }
        BForm::Or(e, f) => {
            push_operand(text, e.get())?;
            push_led(text, b" || ", f.get())
        }
        BForm::If(c, e, f) => {
            push_led(text, b"if ", c.get())?;
            push_led(text, b" then ", e.get())?;
            push_led(text, b" else ", f.get())
        }
        BForm::Let(name, e, f) => {
            push_binding(text, name)?;
            push_led(text, b" = ", e.get())?;
            push_led(text, b" in ", f.get())
        }
        BForm::Seq(parts) => push_parts(text, b"; ", parts.as_slice()),
        BForm::ListLit(parts) => push_enclosed(text, b"[", parts.as_slice(), b"]"),
        BForm::Call(name, parts) => {
            text.extend_from_slice(name.text.as_slice())?;
            push_enclosed(text, b"(", parts.as_slice(), b")")
        }
        BForm::Out(number, parts) => {
            push_output(text, *number)?;
            push_enclosed(text, b"(", parts.as_slice(), b")")
        }
    }
}

/// Appends an operand and what stands before it.
#[cycle(box_text)]
fn push_led(text: &mut Text, before: &[u8], e: &BExpr) -> Result<(), Memory>
    ensures { OnOk result (text.new ≡ text.old ++ (before.now ++ operand (box_shown e.now))) }
{
    text.extend_from_slice(before)?;
    push_operand(text, e)
}

#[cycle(box_text)]
fn push_operand(text: &mut Text, e: &BExpr) -> Result<(), Memory>
    ensures { OnOk result (text.new ≡ text.old ++ operand (box_shown e.now)) }
{
    if stands_alone(e) {
        return push_box_expr(text, e);
    }
    text.extend_from_slice(b"(")?;
    push_box_expr(text, e)?;
    text.extend_from_slice(b")")
}

/// Appends an argument, a part of a sequence or the body of a function.
#[cycle(box_text)]
pub fn push_part(text: &mut Text, e: &BExpr) -> Result<(), Memory>
    ensures { OnOk result (text.new ≡ text.old ++ part (box_shown e.now)) }
{
    if !is_in_steps(e) {
        return push_box_expr(text, e);
    }
    text.extend_from_slice(b"(")?;
    push_box_expr(text, e)?;
    text.extend_from_slice(b")")
}

#[cycle(box_text)]
fn push_parts(text: &mut Text, separator: &[u8], parts: &[BExpr]) -> Result<(), Memory>
    ensures { OnOk result (text.new ≡ text.old ++ joined separator.now (map part (map box_shown parts.now))) }
{
    for (i, e) in parts.iter().enumerate() {
        push_separator(text, separator, i)?;
        push_part(text, e)?;
    }
    Ok(())
}

/// Appends arguments between brackets.
#[cycle(box_text)]
fn push_enclosed(
    text: &mut Text,
    opening: &[u8],
    parts: &[BExpr],
    closing: &[u8],
) -> Result<(), Memory>
    ensures { OnOk result (text.new ≡ text.old ++ (opening.now ++ (arguments (map box_shown parts.now) ++ closing.now))) }
{
    text.extend_from_slice(opening)?;
    push_parts(text, b",", parts)?;
    text.extend_from_slice(closing)
}

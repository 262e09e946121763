//! The texts of networks.
ghost use Rattle.std.specs.Prelude.{◌≡◌, ◌++◌, map, codes, IfOk, OnOk};
ghost use Rattle.sn_print.specs.Words.{in_parentheses};
ghost use Rattle.sn_print.specs.Expressions.{is_alone, operand};
ghost use Rattle.sn_print.specs.Labels.{variant_text};
ghost use Rattle.sn_print.specs.Networks.{arm_text, arms_text, else_text, guard_text, item_text, net_shown, net_text, source_text, split_operator, template_text, templates_text};
ghost use Rattle.sn_print.specs.Words.{chosen, joined};

use crate::labels::{push_label, push_variant};
use crate::tags::push_tag_expr;
use crate::words::{push_separator, push_tag, push_unsigned};
use sn_ast::{ArmAt, ItemAt, ItemSource, NetExpr, NetForm, TExpr, TemplateAt, Text, Variant};
use sn_list::{Memory, Seq};
use std::alloc::Global;

fn push_source(text: &mut Text, source: &ItemSource) -> Result<(), Memory>
    ensures { OnOk result (text.new ≡ text.old ++ source_text source.now) }
{
    match source {
        ItemSource::Same => Ok(()),
        ItemSource::Field(name) => {
            text.extend_from_slice(b"=")?;
            text.extend_from_slice(name.text.as_slice())
        }
        ItemSource::Expr(e) => {
            text.extend_from_slice(b"=")?;
            push_tag_expr(text, e)
        }
    }
}

fn push_item(text: &mut Text, item: &ItemAt) -> Result<(), Memory>
    ensures { OnOk result (text.new ≡ text.old ++ item_text item.now) }
{
    push_label(text, &item.target)?;
    push_source(text, &item.source)
}

fn push_items(text: &mut Text, items: &[ItemAt]) -> Result<(), Memory>
    ensures { OnOk result (text.new ≡ text.old ++ joined (codes ",") (map item_text items.now)) }
{
    for (i, item) in items.iter().enumerate() {
        push_separator(text, b",", i)?;
        push_item(text, item)?;
    }
    Ok(())
}

fn push_template(text: &mut Text, template: &TemplateAt) -> Result<(), Memory>
    ensures { OnOk result (text.new ≡ text.old ++ template_text template.now) }
{
    text.extend_from_slice(b"{")?;
    push_items(text, template.items.as_slice())?;
    text.extend_from_slice(b"}")
}

fn push_templates(text: &mut Text, templates: &[TemplateAt]) -> Result<(), Memory>
    ensures { OnOk result (text.new ≡ text.old ++ templates_text templates.now) }
{
    for (i, template) in templates.iter().enumerate() {
        push_separator(text, b";", i)?;
        push_template(text, template)?;
    }
    Ok(())
}

fn push_patterns(text: &mut Text, patterns: &[Variant]) -> Result<(), Memory>
    ensures { OnOk result (text.new ≡ text.old ++ joined (codes ",") (map variant_text patterns.now)) }
{
    for (i, pattern) in patterns.iter().enumerate() {
        push_separator(text, b",", i)?;
        push_variant(text, pattern)?;
    }
    Ok(())
}

fn push_guard(text: &mut Text, guard: &Option<TExpr>) -> Result<(), Memory>
    ensures { OnOk result (text.new ≡ text.old ++ guard_text guard.now) }
{
    match guard {
        None => Ok(()),
        Some(e) => {
            text.extend_from_slice(b" if (")?;
            push_tag_expr(text, e)?;
            text.extend_from_slice(b")")
        }
    }
}

fn push_arm(text: &mut Text, arm: &ArmAt) -> Result<(), Memory>
    ensures { OnOk result (text.new ≡ text.old ++ arm_text arm.now) }
{
    text.extend_from_slice(b" if (")?;
    push_tag_expr(text, &arm.guard)?;
    text.extend_from_slice(b") -> ")?;
    push_templates(text, arm.templates.as_slice())
}

/// Appends the arms of a filter, and the word before its last list.
fn push_arms(text: &mut Text, arms: &[ArmAt]) -> Result<(), Memory>
    ensures { OnOk result (text.new ≡ text.old ++ arms_text arms.now) }
{
    for arm in arms {
        push_arm(text, arm)?;
    }
    if arms.is_empty() {
        return Ok(());
    }
    text.extend_from_slice(b" else")
}

fn push_filter(
    text: &mut Text,
    pattern: &Variant,
    arms: &[ArmAt],
    templates: &[TemplateAt],
) -> Result<(), Memory>
    ensures { OnOk result (text.new ≡ text.old ++ (codes "[" ++ (variant_text pattern.now ++ (arms_text arms.now ++ (codes " -> " ++ (templates_text templates.now ++ codes "]")))))) }
{
    text.extend_from_slice(b"[")?;
    push_variant(text, pattern)?;
    push_arms(text, arms)?;
    text.extend_from_slice(b" -> ")?;
    push_templates(text, templates)?;
    text.extend_from_slice(b"]")
}

fn push_sync(text: &mut Text, patterns: &[Variant]) -> Result<(), Memory>
    ensures { OnOk result (text.new ≡ text.old ++ (codes "[|" ++ (joined (codes ",") (map variant_text patterns.now) ++ codes "|]"))) }
{
    text.extend_from_slice(b"[|")?;
    push_patterns(text, patterns)?;
    text.extend_from_slice(b"|]")
}

/// Appends what stands behind the body of a star.
fn push_exit(
    text: &mut Text,
    operator: &[u8],
    exit: &Variant,
    guard: &Option<TExpr>,
) -> Result<(), Memory>
    ensures { OnOk result (text.new ≡ text.old ++ (operator.now ++ (variant_text exit.now ++ guard_text guard.now))) }
{
    text.extend_from_slice(operator)?;
    push_variant(text, exit)?;
    push_guard(text, guard)
}

/// The text of an operator, which is doubled where it is deterministic.
fn operator<'a>(det: bool, doubled: &'a [u8], single: &'a [u8]) -> &'a [u8]
    ensures { result.now ≡ chosen det doubled.now single.now }
{
    if det { doubled } else { single }
}

/// The text of a split's operator, with its mark where the replicas are spread.
fn split_operator(det: bool, spread: bool) -> &'static [u8]
    ensures { result.now ≡ split_operator det spread }
{
    if spread {
        operator(det, b" !!@ ", b" !@ ")
    } else {
        operator(det, b" !! ", b" ! ")
    }
}

/// Whether the network needs no parentheses as a part of another.
fn stands_alone(n: &NetExpr) -> bool
    ensures { result ≡ is_alone (net_shown n.now).rank }
{
    match &n.form {
        NetForm::Name(_) => true,
        NetForm::Identity => true,
        NetForm::Filter { .. } => true,
        NetForm::Sync { .. } => true,
        _ => false,
    }
}

/// As deep in calls as the network is high.
#[cycle(net_text)]
pub fn push_network(text: &mut Text, n: &NetExpr) -> Result<(), Memory>
    ensures { OnOk result (text.new ≡ text.old ++ net_text n.now) }
{
    match &n.form {
        NetForm::Name(name) => text.extend_from_slice(name.text.as_slice()),
        NetForm::Identity => text.extend_from_slice(b"[]"),
        NetForm::Filter {
            pattern,
            arms,
            templates,
        } => push_filter(text, pattern, arms.as_slice(), templates.as_slice()),
        NetForm::Sync { patterns } => push_sync(text, patterns.as_slice()),
        NetForm::Serial { parts } => push_operands(text, b" .. ", parts.as_slice()),
        NetForm::Choice { det, branches } => {
            push_operands(text, operator(*det, b" || ", b" | "), branches.as_slice())
        }
        NetForm::Star {
            det,
            body,
            exit,
            guard,
        } => {
            push_operand(text, body.get())?;
            push_exit(text, operator(*det, b" ** ", b" * "), exit, guard)
        }
        NetForm::Split {
            det,
            spread,
            body,
            tag,
        } => {
            push_operand(text, body.get())?;
            text.extend_from_slice(split_operator(*det, *spread))?;
            push_tag(text, tag.text.as_slice())
        }
        NetForm::Placed { body, node } => {
            push_operand(text, body.get())?;
            text.extend_from_slice(b"@")?;
            push_unsigned(text, *node)
        }
    }
}

#[cycle(net_text)]
fn push_operand(text: &mut Text, n: &NetExpr) -> Result<(), Memory>
    ensures { OnOk result (text.new ≡ text.old ++ operand (net_shown n.now)) }
{
    if stands_alone(n) {
        return push_network(text, n);
    }
    text.extend_from_slice(b"(")?;
    push_network(text, n)?;
    text.extend_from_slice(b")")
}

#[cycle(net_text)]
fn push_operands(text: &mut Text, separator: &[u8], parts: &[NetExpr]) -> Result<(), Memory>
    ensures { OnOk result (text.new ≡ text.old ++ joined separator.now (map operand (map net_shown parts.now))) }
{
    for (i, part) in parts.iter().enumerate() {
        push_separator(text, separator, i)?;
        push_operand(text, part)?;
    }
    Ok(())
}

/// The canonical text of a network.
pub fn network_text(alloc: Global, n: &NetExpr) -> Result<Text, Memory>
    ensures { IfOk result (λ text. text ≡ net_text n.now) }
{
    let mut text = Seq::new(alloc);
    push_network(&mut text, n)?;
    Ok(text)
}

/// What stands behind the body of a star: its operator, its exit and its guard.
pub fn exit_text(
    alloc: Global,
    det: bool,
    exit: &Variant,
    guard: &Option<TExpr>,
) -> Result<Text, Memory>
    ensures { IfOk result (λ text. text ≡ chosen det (codes " ** ") (codes " * ") ++ (variant_text exit.now ++ guard_text guard.now)) }
{
    let mut text = Seq::new(alloc);
    push_exit(&mut text, operator(det, b" ** ", b" * "), exit, guard)?;
    Ok(text)
}

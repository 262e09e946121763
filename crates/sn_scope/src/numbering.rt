//! The names of a source's labels, entered in the order in which they stand.
ghost use Rattle.std.specs.Prelude.{◌≡◌, OnOk, map as each};
ghost use Rattle.std.specs.List.{fold};
ghost use Rattle.sn_scope.specs.Numbering.{after_arm, after_box, after_decl, after_guard, after_item, after_label, after_labels, after_net, after_network, after_sig, after_tags, after_part, after_template, after_tuple, after_types, after_variant, all_after};

use sn_ast::{
    ArmAt, BoxDecl, Decl, ItemAt, ItemSource, LabelAt, NetDecl, NetExpr, NetForm, Sig, TExpr,
    TForm, TemplateAt, Tuple, TypePart, Variant,
};
use sn_list::Memory;
use sn_names::NameTable;

fn enter_labels(names: &mut NameTable, labels: &[LabelAt]) -> Result<(), Memory>
    ensures { OnOk result (names.new ≡ after_labels names.old labels.now) }
{
    for label in labels {
        names.enter(label.name.text.as_slice())?;
    }
    Ok(())
}

fn enter_variants(names: &mut NameTable, variants: &[Variant]) -> Result<(), Memory>
    ensures { OnOk result (names.new ≡ fold after_variant names.old variants.now) }
{
    for variant in variants {
        enter_labels(names, variant.labels.as_slice())?;
    }
    Ok(())
}

fn enter_part(names: &mut NameTable, part: &TypePart) -> Result<(), Memory>
    ensures { OnOk result (names.new ≡ after_part names.old part.now) }
{
    match part {
        TypePart::Set(variant) => enter_labels(names, variant.labels.as_slice()),
        TypePart::Named(_) => Ok(()),
    }
}

fn enter_types(names: &mut NameTable, parts: &[TypePart]) -> Result<(), Memory>
    ensures { OnOk result (names.new ≡ after_types names.old parts.now) }
{
    for part in parts {
        enter_part(names, part)?;
    }
    Ok(())
}

fn enter_sig(names: &mut NameTable, sig: &Sig) -> Result<(), Memory>
    ensures { OnOk result (names.new ≡ after_sig sig.now names.old) }
{
    match sig {
        Sig::Arrow { input, output } => {
            enter_types(names, input.as_slice())?;
            enter_types(names, output.as_slice())
        }
        Sig::Named(_) => Ok(()),
    }
}

/// As deep in calls as the expression is high.
fn enter_tags(names: &mut NameTable, e: &TExpr) -> Result<(), Memory>
    ensures { OnOk result (names.new ≡ after_tags e.now names.old) }
{
    match &e.form {
        TForm::Number(_) => Ok(()),
        TForm::Tag(tag) => {
            names.enter(tag.text.as_slice())?;
            Ok(())
        }
        TForm::Neg(part) | TForm::Not(part) => enter_tags(names, part.get()),
        TForm::Op(_, left, right) => {
            enter_tags(names, left.get())?;
            enter_tags(names, right.get())
        }
        TForm::And(left, right) | TForm::Or(left, right) => {
            enter_tags(names, left.get())?;
            enter_tags(names, right.get())
        }
        TForm::Cond(test, left, right) => {
            enter_tags(names, test.get())?;
            enter_tags(names, left.get())?;
            enter_tags(names, right.get())
        }
    }
}

fn enter_item(names: &mut NameTable, item: &ItemAt) -> Result<(), Memory>
    ensures { OnOk result (names.new ≡ after_item names.old item.now) }
{
    names.enter(item.target.name.text.as_slice())?;
    match &item.source {
        ItemSource::Same => Ok(()),
        ItemSource::Field(name) => {
            names.enter(name.text.as_slice())?;
            Ok(())
        }
        ItemSource::Expr(e) => enter_tags(names, e),
    }
}

fn enter_template(names: &mut NameTable, template: &TemplateAt) -> Result<(), Memory>
    ensures { OnOk result (names.new ≡ after_template names.old template.now) }
{
    for item in template.items.as_slice() {
        enter_item(names, item)?;
    }
    Ok(())
}

fn enter_templates(names: &mut NameTable, templates: &[TemplateAt]) -> Result<(), Memory>
    ensures { OnOk result (names.new ≡ fold after_template names.old templates.now) }
{
    for template in templates {
        enter_template(names, template)?;
    }
    Ok(())
}

fn enter_arm(names: &mut NameTable, arm: &ArmAt) -> Result<(), Memory>
    ensures { OnOk result (names.new ≡ after_arm names.old arm.now) }
{
    enter_tags(names, &arm.guard)?;
    enter_templates(names, arm.templates.as_slice())
}

fn enter_arms(names: &mut NameTable, arms: &[ArmAt]) -> Result<(), Memory>
    ensures { OnOk result (names.new ≡ fold after_arm names.old arms.now) }
{
    for arm in arms {
        enter_arm(names, arm)?;
    }
    Ok(())
}

fn enter_guard(names: &mut NameTable, guard: &Option<TExpr>) -> Result<(), Memory>
    ensures { OnOk result (names.new ≡ after_guard guard.now names.old) }
{
    match guard {
        Some(e) => enter_tags(names, e),
        None => Ok(()),
    }
}

/// As deep in calls as the network is high.
#[cycle(enter_network)]
fn enter_network(names: &mut NameTable, network: &NetExpr) -> Result<(), Memory>
    ensures { OnOk result (names.new ≡ after_network network.now names.old) }
{
    match &network.form {
        NetForm::Name(_) | NetForm::Identity => Ok(()),
        NetForm::Filter {
            pattern,
            arms,
            templates,
        } => {
            enter_labels(names, pattern.labels.as_slice())?;
            enter_arms(names, arms.as_slice())?;
            enter_templates(names, templates.as_slice())
        }
        NetForm::Sync { patterns } => enter_variants(names, patterns.as_slice()),
        NetForm::Serial { parts } => enter_networks(names, parts.as_slice()),
        NetForm::Choice { branches, .. } => enter_networks(names, branches.as_slice()),
        NetForm::Star {
            body,
            exit,
            guard,
            ..
        } => {
            enter_network(names, body.get())?;
            enter_labels(names, exit.labels.as_slice())?;
            enter_guard(names, guard)
        }
        NetForm::Split { body, tag, .. } => {
            enter_network(names, body.get())?;
            names.enter(tag.text.as_slice())?;
            Ok(())
        }
        NetForm::Placed { body, .. } => enter_network(names, body.get()),
    }
}

#[cycle(enter_network)]
fn enter_networks(names: &mut NameTable, networks: &[NetExpr]) -> Result<(), Memory>
    ensures { OnOk result (names.new ≡ all_after (each after_network networks.now) names.old) }
{
    for network in networks {
        enter_network(names, network)?;
    }
    Ok(())
}

fn enter_tuples(names: &mut NameTable, tuples: &[Tuple]) -> Result<(), Memory>
    ensures { OnOk result (names.new ≡ fold after_tuple names.old tuples.now) }
{
    for tuple in tuples {
        enter_labels(names, tuple.labels.as_slice())?;
    }
    Ok(())
}

/// The functions and the body of a box name no labels but those of its input and its outputs.
fn enter_box(names: &mut NameTable, declaration: &BoxDecl) -> Result<(), Memory>
    ensures { OnOk result (names.new ≡ after_box declaration.now names.old) }
{
    enter_labels(names, declaration.input.labels.as_slice())?;
    enter_tuples(names, declaration.outputs.as_slice())
}

/// As deep in calls as declarations stand within one another.
#[cycle(enter_decl)]
fn enter_decl(names: &mut NameTable, decl: &Decl) -> Result<(), Memory>
    ensures { OnOk result (names.new ≡ after_decl decl.now names.old) }
{
    match decl {
        Decl::BoxDecl(declaration) => enter_box(names, declaration),
        Decl::NetDecl(net) => enter_net(names, net),
        Decl::TypeDecl { parts, .. } => enter_types(names, parts.as_slice()),
        Decl::SigDecl { sig, .. } => enter_sig(names, sig),
    }
}

#[cycle(enter_decl)]
fn enter_net(names: &mut NameTable, net: &NetDecl) -> Result<(), Memory>
    ensures { OnOk result (names.new ≡ after_net net.now names.old) }
{
    if let Some(sig) = &net.sig {
        enter_sig(names, sig)?;
    }
    enter_decls(names, net.decls.as_slice())?;
    enter_network(names, &net.connect)
}

/// Enters the name of each label of the declarations, in the order in which they stand.
#[cycle(enter_decl)]
pub fn enter_decls(names: &mut NameTable, decls: &[Decl]) -> Result<(), Memory>
    ensures { OnOk result (names.new ≡ all_after (each after_decl decls.now) names.old) }
{
    for decl in decls {
        enter_decl(names, decl)?;
    }
    Ok(())
}

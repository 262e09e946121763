//! The texts of declarations and programs.
ghost use Rattle.std.specs.Prelude.{◌≡◌, ◌++◌, map, codes, IfOk, OnOk};
ghost use Rattle.std.specs.List.{flat_map};
ghost use Rattle.sn_ast.specs.declared.label.Ident.{Ident as SomeIdent};
ghost use Rattle.sn_print.specs.Declarations.{body_text, box_decl_text, box_sig_text, decl_text, fun_text, inner_part, net_decl_text, program_text, sig_part};
ghost use Rattle.sn_print.specs.Labels.{sig_text, tuple_text, types_text};
ghost use Rattle.sn_print.specs.Networks.{net_text};
ghost use Rattle.sn_print.specs.Words.{joined};

use crate::boxes::{push_box_expr, push_part};
use crate::labels::{push_sig, push_tuple, push_types};
use crate::networks::push_network;
use crate::words::push_separator;
use sn_ast::{
    BoxDecl, Decl, FunDecl, Ident, NetDecl, NetExpr, Program, Sig, Text, Tuple, TypePart,
};
use sn_list::{Memory, Seq};
use std::alloc::Global;

fn push_params(text: &mut Text, params: &[Ident]) -> Result<(), Memory>
    ensures { OnOk result (text.new ≡ text.old ++ joined (codes ",") (map (λ (param : SomeIdent). param.text) params.now)) }
{
    for (i, param) in params.iter().enumerate() {
        push_separator(text, b",", i)?;
        text.extend_from_slice(param.text.as_slice())?;
    }
    Ok(())
}

fn push_function(text: &mut Text, function: &FunDecl) -> Result<(), Memory>
    ensures { OnOk result (text.new ≡ text.old ++ fun_text function.now) }
{
    text.extend_from_slice(b"fun ")?;
    text.extend_from_slice(function.name.text.as_slice())?;
    text.extend_from_slice(b"(")?;
    push_params(text, function.params.as_slice())?;
    text.extend_from_slice(b") = ")?;
    push_part(text, &function.body)?;
    text.extend_from_slice(b"; ")
}

fn push_functions(text: &mut Text, functions: &[FunDecl]) -> Result<(), Memory>
    ensures { OnOk result (text.new ≡ text.old ++ flat_map fun_text functions.now) }
{
    for function in functions {
        push_function(text, function)?;
    }
    Ok(())
}

fn push_outputs(text: &mut Text, outputs: &[Tuple]) -> Result<(), Memory>
    ensures { OnOk result (text.new ≡ text.old ++ joined (codes " | ") (map tuple_text outputs.now)) }
{
    for (i, output) in outputs.iter().enumerate() {
        push_separator(text, b" | ", i)?;
        push_tuple(text, output)?;
    }
    Ok(())
}

fn push_box_sig(text: &mut Text, decl: &BoxDecl) -> Result<(), Memory>
    ensures { OnOk result (text.new ≡ text.old ++ box_sig_text decl.now) }
{
    push_tuple(text, &decl.input)?;
    text.extend_from_slice(b" -> ")?;
    push_outputs(text, decl.outputs.as_slice())
}

fn push_body(text: &mut Text, decl: &BoxDecl) -> Result<(), Memory>
    ensures { OnOk result (text.new ≡ text.old ++ body_text decl.now) }
{
    push_functions(text, decl.funs.as_slice())?;
    push_box_expr(text, &decl.body)
}

fn push_box(text: &mut Text, decl: &BoxDecl) -> Result<(), Memory>
    ensures { OnOk result (text.new ≡ text.old ++ box_decl_text decl.now) }
{
    text.extend_from_slice(b"box ")?;
    text.extend_from_slice(decl.name.text.as_slice())?;
    text.extend_from_slice(b" (")?;
    push_box_sig(text, decl)?;
    text.extend_from_slice(b") { ")?;
    push_body(text, decl)?;
    text.extend_from_slice(b" }")
}

fn push_sig_part(text: &mut Text, sig: &Option<Sig>) -> Result<(), Memory>
    ensures { OnOk result (text.new ≡ text.old ++ sig_part sig.now) }
{
    match sig {
        None => Ok(()),
        Some(sig) => {
            text.extend_from_slice(b" (")?;
            push_sig(text, sig)?;
            text.extend_from_slice(b")")
        }
    }
}

fn push_type(text: &mut Text, name: &Ident, parts: &[TypePart]) -> Result<(), Memory>
    ensures { OnOk result (text.new ≡ text.old ++ (codes "type " ++ (name.now.text ++ (codes " = " ++ (types_text parts.now ++ codes ";"))))) }
{
    text.extend_from_slice(b"type ")?;
    text.extend_from_slice(name.text.as_slice())?;
    text.extend_from_slice(b" = ")?;
    push_types(text, parts)?;
    text.extend_from_slice(b";")
}

fn push_typesig(text: &mut Text, name: &Ident, sig: &Sig) -> Result<(), Memory>
    ensures { OnOk result (text.new ≡ text.old ++ (codes "typesig " ++ (name.now.text ++ (codes " = " ++ (sig_text sig.now ++ codes ";"))))) }
{
    text.extend_from_slice(b"typesig ")?;
    text.extend_from_slice(name.text.as_slice())?;
    text.extend_from_slice(b" = ")?;
    push_sig(text, sig)?;
    text.extend_from_slice(b";")
}

/// Appends what stands before the inner declarations of a net.
fn push_net_head(text: &mut Text, decl: &NetDecl) -> Result<(), Memory>
    ensures { OnOk result (text.new ≡ text.old ++ (codes "net " ++ (decl.now.name.text ++ sig_part decl.now.sig))) }
{
    text.extend_from_slice(b"net ")?;
    text.extend_from_slice(decl.name.text.as_slice())?;
    push_sig_part(text, &decl.sig)
}

/// Appends what stands behind the inner declarations of a net.
fn push_connect(text: &mut Text, connect: &NetExpr) -> Result<(), Memory>
    ensures { OnOk result (text.new ≡ text.old ++ (codes " connect " ++ (net_text connect.now ++ codes ";"))) }
{
    text.extend_from_slice(b" connect ")?;
    push_network(text, connect)?;
    text.extend_from_slice(b";")
}

/// As deep in calls as nets are declared in nets.
#[cycle(decl_text)]
fn push_decl(text: &mut Text, decl: &Decl) -> Result<(), Memory>
    ensures { OnOk result (text.new ≡ text.old ++ decl_text decl.now) }
{
    match decl {
        Decl::BoxDecl(decl) => push_box(text, decl),
        Decl::NetDecl(decl) => push_net(text, decl),
        Decl::TypeDecl { name, parts } => push_type(text, name, parts.as_slice()),
        Decl::SigDecl { name, sig } => push_typesig(text, name, sig),
    }
}

#[cycle(decl_text)]
fn push_net(text: &mut Text, decl: &NetDecl) -> Result<(), Memory>
    ensures { OnOk result (text.new ≡ text.old ++ net_decl_text decl.now) }
{
    push_net_head(text, decl)?;
    push_inner(text, decl.decls.as_slice())?;
    push_connect(text, &decl.connect)
}

/// Appends the inner declarations of a net in braces, or nothing where there are none.
#[cycle(decl_text)]
fn push_inner(text: &mut Text, decls: &[Decl]) -> Result<(), Memory>
    ensures { OnOk result (text.new ≡ text.old ++ inner_part (map decl_text decls.now)) }
{
    if decls.is_empty() {
        return Ok(());
    }
    text.extend_from_slice(b" { ")?;
    for (i, decl) in decls.iter().enumerate() {
        push_separator(text, b" ", i)?;
        push_decl(text, decl)?;
    }
    text.extend_from_slice(b" }")
}

fn push_line(text: &mut Text, decl: &Decl) -> Result<(), Memory>
    ensures { OnOk result (text.new ≡ text.old ++ (decl_text decl.now ++ codes "\n")) }
{
    push_decl(text, decl)?;
    text.extend_from_slice(b"\n")
}

/// The canonical text of a box's declaration.
pub fn box_text(alloc: Global, decl: &BoxDecl) -> Result<Text, Memory>
    ensures { IfOk result (λ text. text ≡ box_decl_text decl.now) }
{
    let mut text = Seq::new(alloc);
    push_box(&mut text, decl)?;
    Ok(text)
}

/// The canonical text of the program.
pub fn print(alloc: Global, program: &Program) -> Result<Text, Memory>
    ensures { IfOk result (λ text. text ≡ program_text program.now) }
{
    let mut text = Seq::new(alloc);
    for decl in program.decls.as_slice() {
        push_line(&mut text, decl)?;
    }
    Ok(text)
}

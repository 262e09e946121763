//! The text of a picture, as Graphviz reads it.
ghost use Rattle.std.specs.Prelude.{◌≡◌, ◌++◌, codes, decimal, IfOk, OnOk};
ghost use Rattle.std.specs.List.{flat_map};
ghost use Rattle.sn_draw.specs.Dot.{attributes, cluster_name, escaped, node_name, opening, picture_text, quoted, statement_text};

use crate::statement::Statement;
use itoa::Buffer;
use sn_list::{Memory, Seq};
use sn_record::Text;
use std::alloc::Global;

/// What stands before a picture: the direction, and fonts.
const HEADER: &[u8] =
    b"digraph network {\nranksep=0.1;\nnodesep=0.25;\ngraph [fontname=\"Helvetica\", fontsize=10, color=\"#888888\", labeljust=l];\nnode [fontname=\"Helvetica\", fontsize=10, margin=\"0.08,0.03\", width=0.2, height=0.2];\nedge [fontname=\"Helvetica\", fontsize=9, arrowsize=0.6];\n";

fn push_escaped(text: &mut Text, byte: u8) -> Result<(), Memory>
    ensures { OnOk result (text.new ≡ text.old ++ escaped byte) }
{
    match byte {
        b'"' => text.extend_from_slice(b"\\\""),
        b'\\' => text.extend_from_slice(b"\\\\"),
        b'\n' => text.extend_from_slice(b"\\n"),
        _ => text.extend_from_slice(&[byte]),
    }
}

fn push_quoted(text: &mut Text, label: &[u8]) -> Result<(), Memory>
    ensures { OnOk result (text.new ≡ text.old ++ quoted label.now) }
{
    text.extend_from_slice(b"\"")?;
    for byte in label {
        push_escaped(text, *byte)?;
    }
    text.extend_from_slice(b"\"")
}

fn push_number(text: &mut Text, number: u64) -> Result<(), Memory>
    ensures { OnOk result (text.new ≡ text.old ++ decimal number) }
{
    let mut buffer = Buffer::new();
    text.extend_from_slice(buffer.format(number).as_bytes())
}

fn push_name(text: &mut Text, number: u64) -> Result<(), Memory>
    ensures { OnOk result (text.new ≡ text.old ++ node_name number) }
{
    text.extend_from_slice(b"n")?;
    push_number(text, number)
}

fn push_attributes(text: &mut Text, more: &[u8], label: &[u8]) -> Result<(), Memory>
    ensures { OnOk result (text.new ≡ text.old ++ attributes more.now label.now) }
{
    text.extend_from_slice(b" [")?;
    text.extend_from_slice(more)?;
    text.extend_from_slice(b", label=")?;
    push_quoted(text, label)?;
    text.extend_from_slice(b"];\n")
}

fn push_cluster_name(text: &mut Text, number: u64) -> Result<(), Memory>
    ensures { OnOk result (text.new ≡ text.old ++ cluster_name number) }
{
    text.extend_from_slice(b"cluster_")?;
    push_number(text, number)
}

fn push_opening(text: &mut Text, label: &[u8]) -> Result<(), Memory>
    ensures { OnOk result (text.new ≡ text.old ++ opening label.now) }
{
    text.extend_from_slice(b" {\nlabel=")?;
    push_quoted(text, label)?;
    text.extend_from_slice(b";\n")
}

fn push_statement(text: &mut Text, statement: &Statement) -> Result<(), Memory>
    ensures { OnOk result (text.new ≡ text.old ++ statement_text statement.now) }
{
    match statement {
        Statement::Open { number, label } => {
            text.extend_from_slice(b"subgraph ")?;
            push_cluster_name(text, *number)?;
            push_opening(text, label.as_slice())
        }
        Statement::Close => text.extend_from_slice(b"}\n"),
        Statement::Node {
            number,
            shape,
            label,
        } => {
            push_name(text, *number)?;
            push_attributes(text, shape.text(), label.as_slice())
        }
        Statement::Edge {
            from,
            to,
            flow,
            label,
        } => {
            push_name(text, *from)?;
            text.extend_from_slice(b" -> ")?;
            push_name(text, *to)?;
            push_attributes(text, flow.text(), label.as_slice())
        }
    }
}

fn push_title(text: &mut Text, title: &[u8]) -> Result<(), Memory>
    ensures { OnOk result (text.new ≡ text.old ++ (codes "label=" ++ (quoted title.now ++ codes ";\nlabelloc=t;\n"))) }
{
    text.extend_from_slice(b"label=")?;
    push_quoted(text, title)?;
    text.extend_from_slice(b";\nlabelloc=t;\n")
}

fn push_statements(text: &mut Text, statements: &[Statement]) -> Result<(), Memory>
    ensures { OnOk result (text.new ≡ text.old ++ flat_map statement_text statements.now) }
{
    for statement in statements {
        push_statement(text, statement)?;
    }
    Ok(())
}

/// The text of a picture under a title: a line for each of its statements.
pub fn dot_text(alloc: Global, title: &[u8], statements: &[Statement]) -> Result<Text, Memory>
    ensures { IfOk result (λ text. text ≡ picture_text title.now statements.now) }
{
    let mut text = Seq::from_slice(alloc, HEADER)?;
    push_title(&mut text, title)?;
    push_statements(&mut text, statements)?;
    text.extend_from_slice(b"}\n")?;
    Ok(text)
}

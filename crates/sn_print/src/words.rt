//! The texts of words.
ghost use Rattle.std.specs.Prelude.{◌≡◌, ◌++◌, OnOk};
ghost use Rattle.std.specs.Fmt.{decimal, signed_decimal};
ghost use Rattle.sn_lexer.specs.Spelling.{escaped, quoted};
ghost use Rattle.sn_print.specs.Words.{in_angles, led_by, operator_text};

use itoa::Buffer;
use sn_ast::{Operator, Text};
use sn_list::Memory;

/// Appends what stands before the i-th of several texts: the separator, but for the first.
pub fn push_separator(text: &mut Text, separator: &[u8], i: usize) -> Result<(), Memory>
    ensures { OnOk result (text.new ≡ text.old ++ led_by separator.now i) }
{
    if i > 0 {
        text.extend_from_slice(separator)?;
    }
    Ok(())
}

/// Appends a number, which has no leading zeros.
pub fn push_number(text: &mut Text, n: i64) -> Result<(), Memory>
    ensures { OnOk result (text.new ≡ text.old ++ signed_decimal n) }
{
    let mut buffer = Buffer::new();
    text.extend_from_slice(buffer.format(n).as_bytes())
}

/// Appends a number that has no sign: that of an output variant, or of a node.
pub fn push_unsigned(text: &mut Text, n: u64) -> Result<(), Memory>
    ensures { OnOk result (text.new ≡ text.old ++ decimal n) }
{
    let mut digits = Buffer::new();
    text.extend_from_slice(digits.format(n).as_bytes())
}

fn push_escaped(text: &mut Text, byte: u8) -> Result<(), Memory>
    ensures { OnOk result (text.new ≡ text.old ++ escaped byte) }
{
    if byte == b'"' || byte == b'\\' {
        text.extend_from_slice(&[b'\\', byte])
    } else {
        text.extend_from_slice(&[byte])
    }
}

/// Appends a text between quotes, with its escapes.
pub fn push_quoted(text: &mut Text, content: &[u8]) -> Result<(), Memory>
    ensures { OnOk result (text.new ≡ text.old ++ quoted content.now) }
{
    text.extend_from_slice(b"\"")?;
    for byte in content {
        push_escaped(text, *byte)?;
    }
    text.extend_from_slice(b"\"")
}

/// Appends a tag.
pub fn push_tag(text: &mut Text, name: &[u8]) -> Result<(), Memory>
    ensures { OnOk result (text.new ≡ text.old ++ in_angles name.now) }
{
    text.extend_from_slice(b"<")?;
    text.extend_from_slice(name)?;
    text.extend_from_slice(b">")
}

/// The text of an operator, with a blank on each side.
pub fn operator_text(operator: Operator) -> &'static [u8]
    ensures { result.now ≡ operator_text operator }
{
    match operator {
        Operator::Add => b" + ",
        Operator::Sub => b" - ",
        Operator::Mul => b" * ",
        Operator::Div => b" / ",
        Operator::Rem => b" % ",
        Operator::Lt => b" < ",
        Operator::Le => b" <= ",
        Operator::Gt => b" > ",
        Operator::Ge => b" >= ",
        Operator::Eq => b" == ",
        Operator::Ne => b" != ",
    }
}

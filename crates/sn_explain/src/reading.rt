//! From a line to what it says.
ghost use Rattle.std.specs.Prelude.{◌≡◌, IfSome};
ghost use Rattle.sn_explain.specs.Numbers.{IsInFront, BeginsWith};
ghost use Rattle.sn_explain.specs.Explanations.{Tells};

use crate::kind::{KINDS, Kind, Shape};

/// What a line of standard error says: its kind, the place in the source or the number of a line of the input or of a trace, if it has one, and the words
/// behind it.
#[derive(Clone, Copy)]
pub struct Refusal<'a> {
    pub kind: Kind,
    pub number: u32,
    pub detail: &'a [u8],
}

/// A number and its digits, if it has any.
fn some_digits(number: u32, count: usize) -> Option<(u32, usize)>
    ensures { IfSome result (λ found. (found.0 ≡ number) × (found.1 ≡ count)) }
{
    if count == 0 {
        None
    } else {
        Some((number, count))
    }
}

/// The number that a text begins with, and how many digits it has.
fn read_number(text: &[u8]) -> Option<(u32, usize)>
    ensures { IfSome result (λ found. IsInFront text.now found.0 found.1) }
{
    let mut number = 0u32;
    for count in 0..text.len() {
        let byte = text[count];
        if byte < b'0' || byte > b'9' {
            return some_digits(number, count);
        }
        number = number.checked_mul(10)?.checked_add(u32::from(byte - b'0'))?;
    }
    some_digits(number, text.len())
}

/// What a line of the kind says, of which this stands behind the words of the kind.
fn read_rest(kind: Kind, rest: &[u8]) -> Option<Refusal<'_>>
    ensures kind { IfSome result (λ refusal. refusal.kind ≡ kind) }
    ensures number { IfSome result (λ refusal. BeginsWith rest.now refusal.number) }
{
    match kind.shape() {
        Shape::Nothing => {
            if !rest.is_empty() {
                return None;
            }
            Some(Refusal {
                kind,
                number: 0,
                detail: rest,
            })
        }
        Shape::Name => {
            if rest.is_empty() {
                return None;
            }
            Some(Refusal {
                kind,
                number: 0,
                detail: rest,
            })
        }
        Shape::Place | Shape::Line | Shape::TraceLine => {
            let (number, count) = read_number(rest)?;
            if count < rest.len() {
                return None;
            }
            Some(Refusal {
                kind,
                number,
                detail: &[],
            })
        }
        Shape::PlaceForVariant => read_with_detail(kind, rest, b" for "),
        Shape::LineAndLabel => read_with_detail(kind, rest, b" "),
    }
}

/// The same, of a number and other words behind `between`.
fn read_with_detail<'a>(kind: Kind, rest: &'a [u8], between: &[u8]) -> Option<Refusal<'a>>
    ensures kind { IfSome result (λ refusal. refusal.kind ≡ kind) }
    ensures number { IfSome result (λ refusal. BeginsWith rest.now refusal.number) }
{
    let (number, count) = read_number(rest)?;
    let detail = rest[count..].strip_prefix(between)?;
    if detail.is_empty() {
        return None;
    }
    Some(Refusal {
        kind,
        number,
        detail,
    })
}

/// What a line says, without its line feed, or nothing where it is no line of snet's.
pub fn read_refusal(line: &[u8]) -> Option<Refusal<'_>>
    ensures { IfSome result (Tells line.now) }
{
    for kind in &KINDS {
        if let Some(rest) = line.strip_prefix(kind.words()) {
            return read_rest(*kind, rest);
        }
    }
    None
}

//! The keys of an object that is a record.
ghost use Rattle.std.specs.Prelude.{◌≡◌, ◌≢◌, ◌==◌, ◌++◌, ◌∷◌, [], ℕ, List, length, IfOk, MatchOption};
ghost use Rattle.std.specs.Option.{option_copied};
ghost use Rattle.std.specs.Str.{chars};
ghost use Rattle.sn_lexer.specs.Spelling.{behind_mark, is_name};
ghost use Rattle.sn_json.specs.Keys.{inside_of, label_of};

use sn_lexer::{after_mark, read_name, split_first};
use sn_list::{Memory, Seq};
use sn_record::Kind;
use sn_record_parser::WrittenLabel;
use std::alloc::Global;

/// Whether no character is left.
fn is_at_end(text: &str) -> bool
    ensures { result ≡ (length (chars text.now) == 0) }
{
    split_first(text).is_none()
}

/// Whether the text is one name and no more.
fn is_name(text: &str) -> bool
    ensures { result ≡ is_name (chars text.now) }
{
    match read_name(text) {
        Some((_, rest)) => is_at_end(rest),
        None => false,
    }
}

/// Whether the text is one name, with `#` in front or not, and no more.
fn is_tag_name(text: &str) -> bool
    ensures { result ≡ behind_mark is_name (chars text.now) }
{
    is_name(after_mark(text))
}

/// What follows an opening bracket in front.
fn opened(text: &str) -> Option<&str>
    ensures { MatchOption result ((rest : List ℕ) → text.now ≢ 60 ∷ rest) (λ inside. text.now ≡ 60 ∷ inside.now) }
{
    text.strip_prefix('<')
}

/// What stands before a closing bracket at the end.
fn closed(text: &str) -> Option<&str>
    ensures { MatchOption result ((front : List ℕ) → text.now ≢ front ++ 62 ∷ []) (λ inside. text.now ≡ inside.now ++ 62 ∷ []) }
{
    text.strip_suffix('>')
}

/// What stands in the angle brackets that are all of the key.
fn inside(key: &str) -> Option<&str>
    ensures { option_copied result ≡ inside_of key.now }
{
    closed(opened(key)?)
}

fn label(alloc: Global, kind: Kind, name: &str) -> Result<WrittenLabel, Memory>
    ensures { IfOk result (λ label. label ≡ record { kind = kind; name = name.now }) }
{
    let name = Seq::from_slice(alloc, name.as_bytes())?;
    Ok(WrittenLabel { kind, name })
}

/// The label whose key it is: a field by its name, a tag by its name in angle brackets, with the `#` of a binding one.
pub fn label_of(alloc: Global, key: &str) -> Result<Option<WrittenLabel>, Memory>
    ensures { IfOk result (λ found. found ≡ label_of key.now) }
{
    if is_name(key) {
        return Ok(Some(label(alloc, Kind::Field, key)?));
    }
    match inside(key) {
        Some(name) if is_tag_name(name) => Ok(Some(label(alloc, Kind::Tag, name)?)),
        _ => Ok(None),
    }
}

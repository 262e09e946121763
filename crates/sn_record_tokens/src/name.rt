//! Names and tags.
ghost use Rattle.std.specs.Prelude.{IfOk, MatchOption};
ghost use Rattle.std.specs.Str.{chars};
ghost use Rattle.sn_record_tokens.specs.declared.token.Token.{Token};
ghost use Rattle.sn_record_tokens.specs.Tokens.{IsToken};
ghost use Rattle.sn_record_tokens.specs.Reading.{BeginsNo};

use sn_lexer::{after, after_mark, read_name};
use sn_list::{Memory, Seq};
use std::alloc::Global;

/// The bytes of the name in front, and what follows it.
pub fn copy_name(alloc: Global, text: &str) -> Result<Option<(Seq<u8>, &str)>, Memory>
    ensures { IfOk result (λ found. MatchOption found (BeginsNo Token.Name (chars text.now))
        (λ p. IsToken (Token.Name p.0) (chars text.now) (chars p.1.now))) }
{
    let Some((_, rest)) = read_name(text) else {
        return Ok(None);
    };
    let bytes = Seq::from_slice(alloc, &text.as_bytes()[..text.len() - rest.len()])?;
    Ok(Some((bytes, rest)))
}

/// The bytes of the name in the tag in front, with its `#`, and what follows the tag.
pub fn copy_tag(alloc: Global, text: &str) -> Result<Option<(Seq<u8>, &str)>, Memory>
    ensures { IfOk result (λ found. MatchOption found (BeginsNo Token.Tag (chars text.now))
        (λ p. IsToken (Token.Tag p.0) (chars text.now) (chars p.1.now))) }
{
    let Some(inside) = after(text, '<') else {
        return Ok(None);
    };
    let Some((_, behind)) = read_name(after_mark(inside)) else {
        return Ok(None);
    };
    let Some(rest) = after(behind, '>') else {
        return Ok(None);
    };
    let bytes = Seq::from_slice(alloc, &inside.as_bytes()[..inside.len() - behind.len()])?;
    Ok(Some((bytes, rest)))
}

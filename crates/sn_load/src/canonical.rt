//! From the bytes of a source to its canonical text.
ghost use Rattle.std.specs.Prelude.{◌≤◌, length, MatchResult};
ghost use Rattle.sn_load.specs.Source.{HasText, WhyNoText};
ghost use Rattle.sn_load.specs.declared.load.TheConstants.{SOURCE_LIMIT};

use sn_lexer::lex;
use sn_parser::parse;
use sn_print::print;
use sn_record::Text;
use sn_stop::Stop;
use std::alloc::Global;

/// The canonical text of a source.
pub fn canonical_text(alloc: Global, bytes: &[u8]) -> Result<Text, Stop>
    requires { length bytes.now ≤ SOURCE_LIMIT }
    ensures { MatchResult result (HasText bytes.now) (WhyNoText bytes.now) }
{
    let tokens = lex(alloc, bytes)?;
    let program = parse(alloc, bytes, tokens.as_slice())?;
    let text = print(alloc, &program)?;
    Ok(text)
}

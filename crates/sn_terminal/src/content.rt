ghost use Rattle.std.specs.Prelude.{◌≡◌, IfOk};
ghost use Rattle.sn_lexer.specs.Spelling.{quoted};
ghost use Rattle.sn_terminal.specs.Words.{IsQuoted};

use sn_ast::Text;
use sn_list::{Memory, Seq};
use sn_stack::append;
use std::alloc::Global;

/// A text without its quotes, and without the backslashes that escape.
pub fn content_of(alloc: Global, word: &[u8]) -> Result<Text, Memory>
    requires { IsQuoted word.now }
    ensures { IfOk result (λ content. word.now ≡ quoted content) }
{
    let mut content = Seq::new(alloc);
    let mut is_escaped = false;
    for byte in &word[1..word.len() - 1] {
        if *byte == b'\\' && !is_escaped {
            is_escaped = true;
        } else {
            append(&mut content, *byte)?;
            is_escaped = false;
        }
    }
    Ok(content)
}

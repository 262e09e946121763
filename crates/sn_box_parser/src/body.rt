ghost use Rattle.std.specs.Prelude.{ℕ};
ghost use Rattle.sn_ast.specs.declared.terminal.Symbol.TheVariants as some_symbol;
ghost use Rattle.sn_ast.specs.declared.terminal.Terminal.TheVariants as some_token;
ghost use Rattle.sn_box_parser.specs.BoxDeclResidual.{AfterPart, StepsFrom, StepsIn};
ghost use Rattle.sn_box_parser.specs.declared.machine.InBody.TheVariants as in_body;
ghost use Rattle.sn_box_parser.specs.declared.machine.Mode.TheVariants as some_mode;

use crate::machine::{BoxDeclParser, BoxDeclStep, BoxDeclStop, InBody, Mode};
use crate::parts::{Opened, Sequence};
use sn_ast::{BExpr, Kept, Keyword, Symbol, Terminal};
use sn_expr_parser::{BoxParser, BoxStop};
use std::alloc::Global;

/// Takes the token where a function or the sequence of the body comes next.
pub fn begin(alloc: Global, opened: Opened, token: Terminal) -> Result<BoxDeclStep, BoxDeclStop>
    ensures { StepsIn (some_mode.Inside opened in_body.Body) token result }
{
    if let Some(_) = token.keyword_at(Keyword::Fun) {
        return Ok(BoxDeclStep::More(BoxDeclParser {
            mode: Mode::Inside {
                opened,
                next: InBody::FunctionName,
            },
        }));
    }
    let sequence = Sequence {
        at: token.place(),
        so_far: None,
    };
    in_part(alloc, opened, sequence, BoxParser::start(alloc), token)
}

/// Takes a token of a part of the sequence, or the one after it.
pub fn in_part(
    alloc: Global,
    opened: Opened,
    sequence: Sequence,
    part: BoxParser,
    token: Terminal,
) -> Result<BoxDeclStep, BoxDeclStop>
    ensures { StepsIn (some_mode.Inside opened (in_body.InPart sequence part)) token result }
{
    match part.step(alloc, token) {
        Ok(part) => Ok(BoxDeclStep::More(BoxDeclParser {
            mode: Mode::Inside {
                opened,
                next: InBody::InPart { sequence, part },
            },
        })),
        Err(BoxStop::Memory) => Err(BoxDeclStop::Memory),
        Err(BoxStop::Refused) => Err(BoxDeclStop::Refused),
        Err(BoxStop::Ended { part, symbol, .. }) => {
            after_part(alloc, opened, sequence, part, symbol)
        }
    }
}

/// Takes the symbol after a part of the sequence.
fn after_part(
    alloc: Global,
    opened: Opened,
    sequence: Sequence,
    part: Kept<BExpr>,
    symbol: Symbol,
) -> Result<BoxDeclStep, BoxDeclStop>
    ensures { (at : ℕ) → StepsFrom (AfterPart opened sequence.at sequence.so_far part) (some_token.Symbol symbol at) result }
{
    match symbol {
        Symbol::Semicolon => next_part(alloc, opened, sequence, part),
        Symbol::CloseBrace => close(opened, sequence, part),
        _ => Err(BoxDeclStop::Refused),
    }
}

fn next_part(
    alloc: Global,
    opened: Opened,
    sequence: Sequence,
    part: Kept<BExpr>,
) -> Result<BoxDeclStep, BoxDeclStop>
    ensures { (at : ℕ) → StepsFrom (AfterPart opened sequence.at sequence.so_far part) (some_token.Symbol some_symbol.Semicolon at) result }
{
    let sequence = sequence.with_part(alloc, part)?;
    Ok(BoxDeclStep::More(BoxDeclParser {
        mode: Mode::Inside {
            opened,
            next: InBody::InPart {
                sequence,
                part: BoxParser::start(alloc),
            },
        },
    }))
}

fn close(opened: Opened, sequence: Sequence, part: Kept<BExpr>) -> Result<BoxDeclStep, BoxDeclStop>
    ensures { (at : ℕ) → StepsFrom (AfterPart opened sequence.at sequence.so_far part) (some_token.Symbol some_symbol.CloseBrace at) result }
{
    let body = sequence.ended(part)?;
    Ok(BoxDeclStep::Done(opened.with_body(body)))
}

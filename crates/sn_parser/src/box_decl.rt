ghost use Rattle.sn_parser.specs.Residual.{StepsIn};
ghost use Rattle.sn_parser.specs.declared.machine.Mode.TheVariants as some_mode;

use crate::machine::{Around, Mode, Parser, Stop};
use sn_ast::Terminal;
use sn_box_parser::{BoxDeclParser, BoxDeclStep, BoxDeclStop};
use std::alloc::Global;

/// Takes a token of a box's declaration, after its name.
pub fn in_box(
    alloc: Global,
    around: Around,
    at: u32,
    rest: BoxDeclParser,
    token: Terminal,
) -> Result<Parser, Stop>
    ensures { StepsIn around (some_mode.InBox at rest) token result }
{
    match rest.step(alloc, token) {
        Ok(BoxDeclStep::More(rest)) => Ok(Parser {
            around,
            mode: Mode::InBox { at, rest },
        }),
        Ok(BoxDeclStep::Done(decl)) => around.finish(alloc, at, decl),
        Err(BoxDeclStop::Memory) => Err(Stop::Memory),
        Err(BoxDeclStop::Refused) => Err(Stop::Refused),
    }
}

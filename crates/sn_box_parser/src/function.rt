ghost use Rattle.std.specs.Prelude.{ℕ};
ghost use Rattle.sn_ast.specs.declared.terminal.Terminal.TheVariants as some_token;
ghost use Rattle.sn_box_parser.specs.BoxDeclResidual.{AfterBody, StepsFrom, StepsIn};
ghost use Rattle.sn_box_parser.specs.declared.machine.InBody.TheVariants as in_body;
ghost use Rattle.sn_box_parser.specs.declared.machine.Mode.TheVariants as some_mode;

use crate::machine::{BoxDeclParser, BoxDeclStep, BoxDeclStop, InBody, Mode};
use crate::parts::{Function, Opened};
use crate::tokens::{into_name, symbol_at};
use sn_ast::{BExpr, Ident, Kept, Seq, Symbol, Terminal};
use sn_expr_parser::{BoxParser, BoxStop};
use std::alloc::Global;

/// Takes the token after `fun`.
pub fn name(opened: Opened, token: Terminal) -> Result<BoxDeclStep, BoxDeclStop>
    ensures { StepsIn (some_mode.Inside opened in_body.FunctionName) token result }
{
    let Some(name) = into_name(token) else {
        return Err(BoxDeclStop::Refused);
    };
    Ok(BoxDeclStep::More(BoxDeclParser {
        mode: Mode::Inside {
            opened,
            next: InBody::FunctionOpening { name },
        },
    }))
}

/// Takes the token after a function's name.
pub fn opening(opened: Opened, name: Ident, token: Terminal) -> Result<BoxDeclStep, BoxDeclStop>
    ensures { StepsIn (some_mode.Inside opened (in_body.FunctionOpening name)) token result }
{
    let Some(_) = symbol_at(token, Symbol::OpenParen) else {
        return Err(BoxDeclStop::Refused);
    };
    Ok(BoxDeclStep::More(BoxDeclParser {
        mode: Mode::Inside {
            opened,
            next: InBody::FirstParam { name },
        },
    }))
}

/// Takes the token after the `(` of a function.
pub fn first_param(
    alloc: Global,
    opened: Opened,
    name: Ident,
    token: Terminal,
) -> Result<BoxDeclStep, BoxDeclStop>
    ensures { StepsIn (some_mode.Inside opened (in_body.FirstParam name)) token result }
{
    let function = Function {
        name,
        params: Seq::new(alloc),
    };
    if let Some(_) = token.symbol_at(Symbol::CloseParen) {
        return Ok(BoxDeclStep::More(BoxDeclParser {
            mode: Mode::Inside {
                opened,
                next: InBody::Assign { function },
            },
        }));
    }
    param(opened, function, token)
}

/// Takes the token where a parameter comes next.
pub fn param(
    opened: Opened,
    function: Function,
    token: Terminal,
) -> Result<BoxDeclStep, BoxDeclStop>
    ensures { StepsIn (some_mode.Inside opened (in_body.Param function)) token result }
{
    let Some(param) = into_name(token) else {
        return Err(BoxDeclStop::Refused);
    };
    let function = function.with_param(param)?;
    Ok(BoxDeclStep::More(BoxDeclParser {
        mode: Mode::Inside {
            opened,
            next: InBody::AfterParam { function },
        },
    }))
}

/// Takes the token after a parameter.
pub fn after_param(
    opened: Opened,
    function: Function,
    token: Terminal,
) -> Result<BoxDeclStep, BoxDeclStop>
    ensures { StepsIn (some_mode.Inside opened (in_body.AfterParam function)) token result }
{
    if let Some(_) = token.symbol_at(Symbol::Comma) {
        return Ok(BoxDeclStep::More(BoxDeclParser {
            mode: Mode::Inside {
                opened,
                next: InBody::Param { function },
            },
        }));
    }
    let Some(_) = symbol_at(token, Symbol::CloseParen) else {
        return Err(BoxDeclStop::Refused);
    };
    Ok(BoxDeclStep::More(BoxDeclParser {
        mode: Mode::Inside {
            opened,
            next: InBody::Assign { function },
        },
    }))
}

/// Takes the token after a function's parameters.
pub fn assign(
    alloc: Global,
    opened: Opened,
    function: Function,
    token: Terminal,
) -> Result<BoxDeclStep, BoxDeclStop>
    ensures { StepsIn (some_mode.Inside opened (in_body.Assign function)) token result }
{
    let Some(_) = symbol_at(token, Symbol::Assign) else {
        return Err(BoxDeclStop::Refused);
    };
    Ok(BoxDeclStep::More(BoxDeclParser {
        mode: Mode::Inside {
            opened,
            next: InBody::InFunction {
                function,
                body: BoxParser::start(alloc),
            },
        },
    }))
}

/// Takes a token of a function's body, or the one after it.
pub fn in_function(
    alloc: Global,
    opened: Opened,
    function: Function,
    body: BoxParser,
    token: Terminal,
) -> Result<BoxDeclStep, BoxDeclStop>
    ensures { StepsIn (some_mode.Inside opened (in_body.InFunction function body)) token result }
{
    match body.step(alloc, token) {
        Ok(body) => Ok(BoxDeclStep::More(BoxDeclParser {
            mode: Mode::Inside {
                opened,
                next: InBody::InFunction { function, body },
            },
        })),
        Err(BoxStop::Memory) => Err(BoxDeclStop::Memory),
        Err(BoxStop::Refused) => Err(BoxDeclStop::Refused),
        Err(BoxStop::Ended { part, symbol, .. }) => after_body(opened, function, part, symbol),
    }
}

/// Takes the symbol after a function's body, which must be a semicolon.
fn after_body(
    opened: Opened,
    function: Function,
    body: Kept<BExpr>,
    symbol: Symbol,
) -> Result<BoxDeclStep, BoxDeclStop>
    ensures { (at : ℕ) → StepsFrom (AfterBody opened function.name function.params body) (some_token.Symbol symbol at) result }
{
    if symbol != Symbol::Semicolon {
        return Err(BoxDeclStop::Refused);
    }
    let opened = opened.with_function(function.with_body(body))?;
    Ok(BoxDeclStep::More(BoxDeclParser {
        mode: Mode::Inside {
            opened,
            next: InBody::Body,
        },
    }))
}

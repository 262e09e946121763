ghost use Rattle.sn_box_parser.specs.BoxDeclResidual.{StepsIn};
ghost use Rattle.sn_box_parser.specs.declared.machine.InOutputs.TheVariants as in_outputs;
ghost use Rattle.sn_box_parser.specs.declared.machine.Mode.TheVariants as some_mode;

use crate::machine::{BoxDeclParser, BoxDeclStep, BoxDeclStop, InBody, InOutputs, Mode};
use crate::parts::{Head, Opened};
use crate::tokens::symbol_at;
use sn_ast::measure::no_row;
use sn_ast::{Bracket, Ident, Seq, Symbol, Terminal, Tuple};
use sn_type_parser::{LabelParser, LabelStep, LabelStop};
use std::alloc::Global;

/// Takes the token after the box's name.
pub fn opening(name: Ident, token: Terminal) -> Result<BoxDeclStep, BoxDeclStop>
    ensures { StepsIn (some_mode.Opening name) token result }
{
    let Some(_) = symbol_at(token, Symbol::OpenParen) else {
        return Err(BoxDeclStop::Refused);
    };
    Ok(BoxDeclStep::More(BoxDeclParser {
        mode: Mode::Input { name },
    }))
}

/// Takes the token where the input comes next.
pub fn input(alloc: Global, name: Ident, token: Terminal) -> Result<BoxDeclStep, BoxDeclStop>
    ensures { StepsIn (some_mode.Input name) token result }
{
    let Some(opening) = symbol_at(token, Symbol::OpenParen) else {
        return Err(BoxDeclStop::Refused);
    };
    Ok(BoxDeclStep::More(BoxDeclParser {
        mode: Mode::InInput {
            name,
            opening,
            labels: LabelParser::start(alloc, Bracket::Paren),
        },
    }))
}

/// Takes a token of the input, after its opening parenthesis.
pub fn in_input(
    name: Ident,
    opening: u32,
    labels: LabelParser,
    token: Terminal,
) -> Result<BoxDeclStep, BoxDeclStop>
    ensures { StepsIn (some_mode.InInput name opening labels) token result }
{
    match labels.step(token) {
        Ok(LabelStep::More(labels)) => Ok(BoxDeclStep::More(BoxDeclParser {
            mode: Mode::InInput {
                name,
                opening,
                labels,
            },
        })),
        Ok(LabelStep::Done(labels)) => Ok(BoxDeclStep::More(BoxDeclParser {
            mode: Mode::Arrow {
                name,
                input: Tuple {
                    labels,
                    at: opening,
                },
            },
        })),
        Err(LabelStop::Memory) => Err(BoxDeclStop::Memory),
        Err(LabelStop::Refused) => Err(BoxDeclStop::Refused),
    }
}

/// Takes the token after the input.
pub fn arrow(
    alloc: Global,
    name: Ident,
    input: Tuple,
    token: Terminal,
) -> Result<BoxDeclStep, BoxDeclStop>
    ensures { StepsIn (some_mode.Arrow name input) token result }
{
    let Some(_) = symbol_at(token, Symbol::Arrow) else {
        return Err(BoxDeclStop::Refused);
    };
    Ok(BoxDeclStep::More(BoxDeclParser {
        mode: Mode::Outputs {
            head: Head {
                name,
                input,
                outputs: Seq::new(alloc),
            },
            next: InOutputs::Output,
        },
    }))
}

/// Takes the token where an output comes next.
pub fn output(alloc: Global, head: Head, token: Terminal) -> Result<BoxDeclStep, BoxDeclStop>
    ensures { StepsIn (some_mode.Outputs head in_outputs.Output) token result }
{
    let Some(opening) = symbol_at(token, Symbol::OpenParen) else {
        return Err(BoxDeclStop::Refused);
    };
    Ok(BoxDeclStep::More(BoxDeclParser {
        mode: Mode::Outputs {
            head,
            next: InOutputs::InOutput {
                opening,
                labels: LabelParser::start(alloc, Bracket::Paren),
            },
        },
    }))
}

/// Takes a token of an output, after its opening parenthesis.
pub fn in_output(
    head: Head,
    opening: u32,
    labels: LabelParser,
    token: Terminal,
) -> Result<BoxDeclStep, BoxDeclStop>
    ensures { StepsIn (some_mode.Outputs head (in_outputs.InOutput opening labels)) token result }
{
    match labels.step(token) {
        Ok(LabelStep::More(labels)) => Ok(BoxDeclStep::More(BoxDeclParser {
            mode: Mode::Outputs {
                head,
                next: InOutputs::InOutput { opening, labels },
            },
        })),
        Ok(LabelStep::Done(labels)) => {
            let head = head.with_output(Tuple {
                labels,
                at: opening,
            })?;
            Ok(BoxDeclStep::More(BoxDeclParser {
                mode: Mode::Outputs {
                    head,
                    next: InOutputs::AfterOutput,
                },
            }))
        }
        Err(LabelStop::Memory) => Err(BoxDeclStop::Memory),
        Err(LabelStop::Refused) => Err(BoxDeclStop::Refused),
    }
}

/// Takes the token after an output.
pub fn after_output(head: Head, token: Terminal) -> Result<BoxDeclStep, BoxDeclStop>
    ensures { StepsIn (some_mode.Outputs head in_outputs.AfterOutput) token result }
{
    if let Some(_) = token.symbol_at(Symbol::Bar) {
        return Ok(BoxDeclStep::More(BoxDeclParser {
            mode: Mode::Outputs {
                head,
                next: InOutputs::Output,
            },
        }));
    }
    let Some(_) = symbol_at(token, Symbol::CloseParen) else {
        return Err(BoxDeclStop::Refused);
    };
    Ok(BoxDeclStep::More(BoxDeclParser {
        mode: Mode::Outputs {
            head,
            next: InOutputs::Brace,
        },
    }))
}

/// Takes the token where the body comes next.
pub fn brace(alloc: Global, head: Head, token: Terminal) -> Result<BoxDeclStep, BoxDeclStop>
    ensures { StepsIn (some_mode.Outputs head in_outputs.Brace) token result }
{
    let Some(_) = symbol_at(token, Symbol::OpenBrace) else {
        return Err(BoxDeclStop::Refused);
    };
    Ok(BoxDeclStep::More(BoxDeclParser {
        mode: Mode::Inside {
            opened: Opened {
                head,
                functions: no_row(alloc),
            },
            next: InBody::Body,
        },
    }))
}

//! What a parser of expressions in boxes does where an operand comes next.
ghost use Rattle.std.specs.Prelude.{◌≡◌, ℕ, MatchOption};
ghost use Rattle.sn_ast.specs.Kept.{kept};
ghost use Rattle.sn_ast.specs.declared.terminal.Terminal.TheVariants.{Keyword as AKeyword, Symbol as ASymbol};
ghost use Rattle.sn_expr_parser.specs.BoxResidual.{is_open_paren, closes, StepsIn};
ghost use Rattle.sn_expr_parser.specs.declared.boxes.Mode.TheVariants.{LetName, LetAssign, AtOperand};
ghost use Rattle.sn_expr_parser.specs.declared.boxes.Awaited.TheVariants.{Want, AfterName, AfterOut, Opening, FirstArgument, FirstStep, Have};

use crate::box_after::go_on;
use crate::box_frame::{Frame, MiddlePart};
use crate::box_node::Head;
use crate::boxes::{Awaited, BoxParser, BoxStop, Mode, begin, within};
use crate::level::Level;
use sn_ast::measure::{leaf, no_row};
use sn_ast::{BExpr, BForm, Ident, Keyword, Symbol, Terminal};
use sn_stack::Stack;
use std::alloc::Global;

/// After an operand without parts.
fn after_leaf(frames: Stack<Frame>, level: Level<BExpr>, at: u32, form: BForm) -> BoxParser
    ensures { result ≡ record { frames = frames; mode = AtOperand level (Have (kept.leaf (record { at = at; form = form }))) } }
{
    let part = leaf(BExpr { at, form });
    BoxParser {
        frames,
        mode: Mode::AtOperand {
            level,
            awaited: Awaited::Have { part },
        },
    }
}

/// Takes the token after `let`.
pub(crate) fn let_name(frames: Stack<Frame>, at: u32, token: Terminal) -> Result<BoxParser, BoxStop>
    ensures { StepsIn frames (LetName at) token result }
{
    let Terminal::Name(name) = token else {
        return Err(BoxStop::Refused);
    };
    Ok(BoxParser {
        frames,
        mode: Mode::LetAssign { at, name },
    })
}

/// Takes the token after `let` and a name.
pub(crate) fn let_assign(
    frames: Stack<Frame>,
    at: u32,
    name: Ident,
    token: Terminal,
) -> Result<BoxParser, BoxStop>
    ensures { StepsIn frames (LetAssign at name) token result }
{
    let Some(_) = symbol_at(token, Symbol::Assign) else {
        return Err(BoxStop::Refused);
    };
    Ok(within(frames, Frame::Middle(MiddlePart::Bound { at, name }))?)
}

/// The token's place, if it is this symbol. Takes the token: a caller that has it at several exits would be proved over
/// each form of it at each of them.
fn symbol_at(token: Terminal, symbol: Symbol) -> Option<u32>
    ensures { MatchOption result ((at : ℕ) → token ≡ ASymbol symbol at → ⊥) (λ at. token ≡ ASymbol symbol at) }
{
    token.symbol_at(symbol)
}

/// Takes the token where an operand comes next.
pub(crate) fn operand(
    alloc: Global,
    frames: Stack<Frame>,
    level: Level<BExpr>,
    token: Terminal,
) -> Result<BoxParser, BoxStop>
    ensures { StepsIn frames (AtOperand level Want) token result }
{
    match token {
        Terminal::Number { value, at } => Ok(after_leaf(frames, level, at, BForm::Number(value))),
        Terminal::Literal { text, at } => Ok(after_leaf(frames, level, at, BForm::TextLit(text))),
        Terminal::Tag(name) => Ok(after_leaf(frames, level, name.at, BForm::Tag(name))),
        Terminal::Name(name) => Ok(BoxParser {
            frames,
            mode: Mode::AtOperand {
                level,
                awaited: Awaited::AfterName { name },
            },
        }),
        Terminal::Keyword { keyword, at } => word(frames, level, keyword, at),
        Terminal::Symbol { symbol, at } => opening(frames, level, symbol, at),
    }
}

/// Takes a keyword where an operand comes next.
pub(crate) fn word(
    frames: Stack<Frame>,
    level: Level<BExpr>,
    keyword: Keyword,
    at: u32,
) -> Result<BoxParser, BoxStop>
    ensures { StepsIn frames (AtOperand level Want) (AKeyword keyword at) result }
{
    let Keyword::Out = keyword else {
        return Err(BoxStop::Refused);
    };
    Ok(BoxParser {
        frames,
        mode: Mode::AtOperand {
            level,
            awaited: Awaited::AfterOut { at },
        },
    })
}

/// Takes a symbol where an operand comes next.
fn opening(
    frames: Stack<Frame>,
    level: Level<BExpr>,
    symbol: Symbol,
    at: u32,
) -> Result<BoxParser, BoxStop>
    ensures { StepsIn frames (AtOperand level Want) (ASymbol symbol at) result }
{
    if let Some(sign) = symbol.sign() {
        let level = level.with_next_sign(sign, at)?;
        return Ok(BoxParser {
            frames,
            mode: Mode::AtOperand {
                level,
                awaited: Awaited::Want,
            },
        });
    }
    match symbol {
        Symbol::OpenParen => Ok(BoxParser {
            frames,
            mode: Mode::AtOperand {
                level,
                awaited: Awaited::FirstStep,
            },
        }),
        Symbol::OpenBracket => Ok(BoxParser {
            frames,
            mode: Mode::AtOperand {
                level,
                awaited: Awaited::FirstArgument {
                    head: Head::Elements { at },
                },
            },
        }),
        _ => Err(BoxStop::Refused),
    }
}

/// Takes the token after a name.
pub(crate) fn after_name(
    alloc: Global,
    frames: Stack<Frame>,
    level: Level<BExpr>,
    name: Ident,
    token: Terminal,
) -> Result<BoxParser, BoxStop>
    ensures { StepsIn frames (AtOperand level (AfterName name)) token result }
{
    if is_open_paren(&token) {
        return Ok(BoxParser {
            frames,
            mode: Mode::AtOperand {
                level,
                awaited: Awaited::FirstArgument {
                    head: Head::Function(name),
                },
            },
        });
    }
    let part = leaf(BExpr {
        at: name.at,
        form: BForm::Name(name),
    });
    go_on(alloc, frames, level, part, token)
}

/// Takes the token after `out`.
pub(crate) fn after_out(
    frames: Stack<Frame>,
    level: Level<BExpr>,
    at: u32,
    token: Terminal,
) -> Result<BoxParser, BoxStop>
    ensures { StepsIn frames (AtOperand level (AfterOut at)) token result }
{
    let Terminal::Number { value, .. } = token else {
        return Err(BoxStop::Refused);
    };
    let number = value.unsigned_abs();
    Ok(BoxParser {
        frames,
        mode: Mode::AtOperand {
            level,
            awaited: Awaited::Opening {
                head: Head::Variant { at, number },
            },
        },
    })
}

/// Takes the token after `out` and a number.
pub(crate) fn opened(
    frames: Stack<Frame>,
    level: Level<BExpr>,
    head: Head,
    token: Terminal,
) -> Result<BoxParser, BoxStop>
    ensures { StepsIn frames (AtOperand level (Opening head)) token result }
{
    if is_open_paren(&token) {
        return Ok(BoxParser {
            frames,
            mode: Mode::AtOperand {
                level,
                awaited: Awaited::FirstArgument { head },
            },
        });
    }
    Err(BoxStop::Refused)
}

fn is_open_paren(token: &Terminal) -> bool
    ensures { result ≡ is_open_paren token.now }
{
    let Terminal::Symbol { symbol, .. } = token else {
        return false;
    };
    match *symbol {
        Symbol::OpenParen => true,
        _ => false,
    }
}

/// Takes the token after the bracket that opens arguments.
pub(crate) fn first_argument(
    alloc: Global,
    frames: Stack<Frame>,
    level: Level<BExpr>,
    head: Head,
    token: Terminal,
) -> Result<BoxParser, BoxStop>
    ensures { StepsIn frames (AtOperand level (FirstArgument head)) token result }
{
    let row = no_row(alloc);
    if closes(&head, &token) {
        let part = head.with_row(row);
        return Ok(BoxParser {
            frames,
            mode: Mode::AtOperand {
                level,
                awaited: Awaited::Have { part },
            },
        });
    }
    let mut frames = frames;
    frames.push(Frame::Arguments { level, head, row })?;
    begin(alloc, frames, token)
}

fn closes(head: &Head, token: &Terminal) -> bool
    ensures { result ≡ closes head.now token.now }
{
    let Terminal::Symbol { symbol, .. } = token else {
        return false;
    };
    head.is_closed_by(*symbol)
}

/// Takes the first token of a sequence in parentheses.
pub(crate) fn first_step(
    alloc: Global,
    frames: Stack<Frame>,
    level: Level<BExpr>,
    token: Terminal,
) -> Result<BoxParser, BoxStop>
    ensures { StepsIn frames (AtOperand level FirstStep) token result }
{
    let mut frames = frames;
    frames.push(Frame::Parens {
        level,
        at: token.place(),
        so_far: None,
    })?;
    begin(alloc, frames, token)
}

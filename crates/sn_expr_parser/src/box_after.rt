//! What a parser of expressions in boxes does with the token after an operand.
ghost use Rattle.std.specs.Prelude.{◌≡◌, ℕ, [], ◌∷◌, IfOk};
ghost use Rattle.sn_ast.specs.Terminals.{infix_of};
ghost use Rattle.sn_ast.specs.declared.terminal.Symbol.{Symbol as SomeSymbol};
ghost use Rattle.sn_ast.specs.declared.terminal.Terminal.TheVariants.{Keyword as AKeyword, Symbol as ASymbol};
ghost use Rattle.sn_expr_parser.specs.BoxResidual.{may_end, Up, StepsFrom, StepsIn, Innermost};
ghost use Rattle.sn_expr_parser.specs.declared.box_frame.Frame.TheVariants.{Parens, Arguments, Middle};
ghost use Rattle.sn_expr_parser.specs.declared.boxes.Mode.TheVariants.{AtOperand};
ghost use Rattle.sn_expr_parser.specs.declared.boxes.Awaited.TheVariants.{Have};

use crate::box_frame::{Frame, MiddlePart};
use crate::box_node::{Head, next_step, sequence};
use crate::boxes::{Awaited, BoxParser, BoxStop, Mode, within};
use crate::level::Level;
use sn_ast::measure::{append, parens};
use sn_ast::{BExpr, Infix, Kept, Keyword, Seq, Symbol, Terminal};
use sn_list::Memory;
use sn_stack::Stack;
use std::alloc::Global;

/// Takes the token after an operand.
pub(crate) fn go_on(
    alloc: Global,
    frames: Stack<Frame>,
    level: Level<BExpr>,
    part: Kept<BExpr>,
    token: Terminal,
) -> Result<BoxParser, BoxStop>
    ensures { StepsIn frames (AtOperand level (Have part)) token result }
{
    match token {
        Terminal::Symbol { symbol, at } => symbol_after(alloc, frames, level, part, symbol, at),
        Terminal::Keyword { keyword, .. } => {
            let whole = level.finished(alloc, part)?;
            up_to_keyword(alloc, frames, whole, keyword)
        }
        _ => Err(BoxStop::Refused),
    }
}

fn symbol_after(
    alloc: Global,
    frames: Stack<Frame>,
    level: Level<BExpr>,
    part: Kept<BExpr>,
    symbol: Symbol,
    at: u32,
) -> Result<BoxParser, BoxStop>
    ensures { StepsIn frames (AtOperand level (Have part)) (ASymbol symbol at) result }
{
    match symbol.infix() {
        Some(between) => operator(alloc, frames, level, part, between, at),
        None => {
            let whole = level.finished(alloc, part)?;
            up_to_symbol(alloc, frames, whole, symbol, at)
        }
    }
}

/// Takes an operator after an operand.
fn operator(
    alloc: Global,
    frames: Stack<Frame>,
    level: Level<BExpr>,
    part: Kept<BExpr>,
    between: Infix,
    at: u32,
) -> Result<BoxParser, BoxStop>
    ensures { (symbol : SomeSymbol) → infix_of symbol ≡ Some between → StepsIn frames (AtOperand level (Have part)) (ASymbol symbol at) result }
{
    let Some(level) = level.after(alloc, between, at, part)? else {
        return Err(BoxStop::Refused);
    };
    Ok(BoxParser {
        frames,
        mode: Mode::AtOperand {
            level,
            awaited: Awaited::Want,
        },
    })
}

/// The frames without the innermost last parts of forms, which end where the expression does.
fn without_last_parts(
    alloc: Global,
    frames: Stack<Frame>,
    whole: Kept<BExpr>,
) -> Result<(Option<Frame>, Stack<Frame>, Kept<BExpr>), Memory>
    ensures { IfOk result (λ r. Innermost frames whole r.0 r.1 r.2) }
{
    let mut frames = frames;
    let mut whole = whole;
    loop {
        let Some(frame) = frames.pop() else {
            return Ok((None, frames, whole));
        };
        match frame.into_last() {
            Ok(part) => {
                whole = part.completed(alloc, whole)?;
            }
            Err(frame) => return Ok((Some(frame), frames, whole)),
        }
    }
}

/// Takes a symbol after an expression that stands in the frames.
fn up_to_symbol(
    alloc: Global,
    frames: Stack<Frame>,
    whole: Kept<BExpr>,
    symbol: Symbol,
    at: u32,
) -> Result<BoxParser, BoxStop>
    ensures { StepsFrom (Up frames whole) (ASymbol symbol at) result }
{
    let (frame, frames, whole) = without_last_parts(alloc, frames, whole)?;
    match frame {
        None => Err(ended(whole, symbol, at)),
        Some(frame) => frame.take_symbol(alloc, frames, whole, symbol),
    }
}

/// Takes a keyword after an expression that stands in the frames.
fn up_to_keyword(
    alloc: Global,
    frames: Stack<Frame>,
    whole: Kept<BExpr>,
    keyword: Keyword,
) -> Result<BoxParser, BoxStop>
    ensures { (at : ℕ) → StepsFrom (Up frames whole) (AKeyword keyword at) result }
{
    let (frame, frames, whole) = without_last_parts(alloc, frames, whole)?;
    match frame {
        None => Err(BoxStop::Refused),
        Some(frame) => frame.take_keyword(frames, whole, keyword),
    }
}

/// Whether the symbol may follow a whole expression.
fn may_end(symbol: Symbol) -> bool
    ensures { result ≡ may_end symbol }
{
    match symbol {
        Symbol::Semicolon => true,
        Symbol::CloseBrace => true,
        _ => false,
    }
}

fn ended(part: Kept<BExpr>, symbol: Symbol, at: u32) -> BoxStop
    ensures { StepsFrom (Up [] part) (ASymbol symbol at) (Err result) }
{
    if may_end(symbol) {
        BoxStop::Ended { part, symbol, at }
    } else {
        BoxStop::Refused
    }
}

pub(crate) fn in_parens(
    alloc: Global,
    frames: Stack<Frame>,
    level: Level<BExpr>,
    at: u32,
    so_far: Option<Kept<Seq<BExpr>>>,
    part: Kept<BExpr>,
    symbol: Symbol,
) -> Result<BoxParser, BoxStop>
    ensures { (place : ℕ) → StepsFrom (Up (Parens level at so_far ∷ frames) part) (ASymbol symbol place) result }
{
    match symbol {
        Symbol::CloseParen => {
            let part = parens(sequence(at, so_far, part)?);
            Ok(BoxParser {
                frames,
                mode: Mode::AtOperand {
                    level,
                    awaited: Awaited::Have { part },
                },
            })
        }
        Symbol::Semicolon => {
            let so_far = next_step(alloc, so_far, part)?;
            Ok(within(frames, Frame::Parens { level, at, so_far })?)
        }
        _ => {
            drop((so_far, part));
            Err(BoxStop::Refused)
        }
    }
}

pub(crate) fn in_arguments(
    frames: Stack<Frame>,
    level: Level<BExpr>,
    head: Head,
    row: Kept<Seq<BExpr>>,
    part: Kept<BExpr>,
    symbol: Symbol,
) -> Result<BoxParser, BoxStop>
    ensures { (place : ℕ) → StepsFrom (Up (Arguments level head row ∷ frames) part) (ASymbol symbol place) result }
{
    let row = append(row, part)?;
    if head.is_closed_by(symbol) {
        let part = head.with_row(row);
        return Ok(BoxParser {
            frames,
            mode: Mode::AtOperand {
                level,
                awaited: Awaited::Have { part },
            },
        });
    }
    let Symbol::Comma = symbol else {
        return Err(BoxStop::Refused);
    };
    Ok(within(frames, Frame::Arguments { level, head, row })?)
}

pub(crate) fn in_middle(
    frames: Stack<Frame>,
    middle: MiddlePart,
    part: Kept<BExpr>,
    keyword: Keyword,
) -> Result<BoxParser, BoxStop>
    ensures { (at : ℕ) → StepsFrom (Up (Middle middle ∷ frames) part) (AKeyword keyword at) result }
{
    let Some(frame) = middle.next_frame(part, keyword) else {
        return Err(BoxStop::Refused);
    };
    Ok(within(frames, frame)?)
}

//! The parser of expressions over tags.
ghost use Rattle.std.specs.Prelude.{◌≡◌, ℕ, [], ◌∷◌, List, ◌↔◌, IfOk, MatchResult};
ghost use Rattle.sn_ast.specs.Kept.{Kept as SomeKept, kept};
ghost use Rattle.sn_ast.specs.TagExprs.{TagExpr, with_condition};
ghost use Rattle.sn_ast.specs.Terminals.{infix_of};
ghost use Rattle.sn_ast.specs.declared.tag_expr.TExpr.{TExpr as SomeExpr};
ghost use Rattle.sn_ast.specs.declared.terminal.Symbol.{Symbol as SomeSymbol};
ghost use Rattle.sn_ast.specs.declared.terminal.Terminal.{Terminal as SomeTerminal};
ghost use Rattle.sn_ast.specs.declared.terminal.Terminal.TheVariants.{Symbol as ASymbol};
ghost use Rattle.sn_expr_parser.specs.Levels.{fresh};
ghost use Rattle.sn_expr_parser.specs.TagResidual.{Read, read, may_end, ends, Up, Tested, Completes, StepsFrom, StepsIn, Steps, Innermost};
ghost use Rattle.sn_expr_parser.specs.declared.tags.Frame.TheVariants.{Parens, Middle, Right};
ghost use Rattle.sn_expr_parser.specs.declared.tags.Mode.TheVariants.{Want, Have};

use crate::level::{Expression, Level, all_boxed};
use sn_ast::measure::{leaf, parens, raise};
use sn_ast::{Boxed, Infix, Kept, Operator, Sign, Symbol, TExpr, TForm, Terminal};
use sn_list::Memory;
use sn_stack::Stack;
use std::alloc::Global;

/// Why a step answers no parser: memory was wanted and not had, or no expression goes on with the token, or the
/// expression ended before the token, which is the symbol at its place.
#[derive(Drop)]
pub enum TagStop {
    Memory,
    Refused,
    Ended {
        part: Kept<TExpr>,
        symbol: Symbol,
        at: u32,
    },
}

/// An open form in which an expression stands.
enum Frame {
    /// Parentheses, and what stands before them.
    Parens {
        level: Level<TExpr>,
    },
    /// Between the `?` and the `:` of a conditional.
    Middle {
        at: u32,
        test: Kept<TExpr>,
    },
    /// After the `:` of a conditional, which ends where the expression does.
    Right {
        at: u32,
        test: Kept<TExpr>,
        middle: Kept<TExpr>,
    },
}

/// Written out, so that whoever gives a frame or a stack of them up calls this, and is not proved over each form of it.
impl Drop for Frame {
    fn drop(self) {
        match self {
            Frame::Parens { level: _level } => (),
            Frame::Middle {
                at: _at,
                test: _test,
            } => (),
            Frame::Right {
                at: _at,
                test: _test,
                middle: _middle,
            } => (),
        }
    }
}

/// What comes next: an operand, or what may follow one.
#[derive(Drop)]
enum Mode {
    Want {
        level: Level<TExpr>,
    },
    Have {
        level: Level<TExpr>,
        part: Kept<TExpr>,
    },
}

/// A parser of an expression over tags, which is given one token at a time.
pub struct TagParser {
    frames: Stack<Frame>,
    mode: Mode,
}

/// Written out, so that whoever gives a parser up calls this, and is not proved over each form of it.
impl Drop for TagParser {
    fn drop(self) {
        let TagParser {
            frames: _frames,
            mode: _mode,
        } = self;
    }
}

impl From<Memory> for TagStop {
    ghost use Rattle.std.specs.Prelude.{◌≡◌};
    ghost use Rattle.sn_expr_parser.specs.declared.tags.TagStop.{TagStop};

    ghost from_gives = { λ _ e. e ≡ TagStop.Memory };

    fn from(_memory: Memory) -> TagStop {
        TagStop::Memory
    }
}

impl Expression for TExpr {
    ghost use Rattle.sn_ast.specs.Operators.{tag_operations};

    ghost operations = { tag_operations };

    fn sign(sign: Sign, at: u32, operand: Boxed<TExpr>) -> TExpr
        ensures { result ≡ tag_operations.sign sign at operand }
    {
        let form = match sign {
            Sign::Minus => TForm::Neg(operand),
            Sign::Not => TForm::Not(operand),
        };
        TExpr { at, form }
    }

    fn operator(operator: Operator, at: u32, left: Boxed<TExpr>, right: Boxed<TExpr>) -> TExpr
        ensures { result ≡ tag_operations.op operator at left right }
    {
        let form = TForm::Op(operator, left, right);
        TExpr { at, form }
    }

    fn and(at: u32, left: Boxed<TExpr>, right: Boxed<TExpr>) -> TExpr
        ensures { result ≡ tag_operations.and at left right }
    {
        let form = TForm::And(left, right);
        TExpr { at, form }
    }

    fn or(at: u32, left: Boxed<TExpr>, right: Boxed<TExpr>) -> TExpr
        ensures { result ≡ tag_operations.or at left right }
    {
        let form = TForm::Or(left, right);
        TExpr { at, form }
    }
}

/// A conditional. `at` is the place of its `?`.
fn conditional(
    alloc: Global,
    at: u32,
    test: Kept<TExpr>,
    middle: Kept<TExpr>,
    right: Kept<TExpr>,
) -> Result<Kept<TExpr>, Memory>
    ensures { IfOk result (λ r. r ≡ with_condition kept at test middle right) }
{
    let Some(all) = all_boxed(alloc, test, middle, right)? else {
        return Ok(None);
    };
    let (((test, middle), right), measure) = all.into_parts();
    let form = TForm::Cond(test, middle, right);
    Ok(raise(Some(measure.with(TExpr { at, form }))))
}

/// What takes a frame apart, which only methods can.
impl Frame {
    /// The place of a conditional, its test and its middle, if the frame is its right part, and else the frame.
    fn into_right(self) -> Result<(u32, Kept<TExpr>, Kept<TExpr>), Frame>
        ensures { MatchResult result (λ r. self ≡ Right r.0 r.1 r.2) (λ frame. (frame ≡ self) × ((at : ℕ) (test middle : SomeKept SomeExpr) → self ≡ Right at test middle → ⊥)) }
    {
        match self {
            Frame::Right { at, test, middle } => Ok((at, test, middle)),
            other => Err(other),
        }
    }

    /// Takes the symbol after an expression that stands in the frame.
    fn take_symbol(
        self,
        alloc: Global,
        frames: Stack<Frame>,
        whole: Kept<TExpr>,
        symbol: Symbol,
    ) -> Result<TagParser, TagStop>
        requires { (at : ℕ) (test middle : SomeKept SomeExpr) → self ≡ Right at test middle → ⊥ }
        ensures { (place : ℕ) → StepsFrom (Up (self ∷ frames) whole) (ASymbol symbol place) result }
    {
        match self {
            Frame::Parens { level } => in_parens(frames, level, whole, symbol),
            Frame::Middle { at, test } => in_middle(alloc, frames, at, test, whole, symbol),
            Frame::Right {
                at: _at,
                test: _test,
                middle: _middle,
            } => unreachable!(),
        }
    }
}

/// An expression begins in one more frame.
fn within(alloc: Global, frames: Stack<Frame>, frame: Frame) -> Result<TagParser, Memory>
    ensures { IfOk result (λ s. s ≡ record { frames = frame ∷ frames; mode = Want fresh }) }
{
    let mut frames = frames;
    frames.push(frame)?;
    let level = Level::new(alloc);
    Ok(TagParser {
        frames,
        mode: Mode::Want { level },
    })
}

/// After an operand without parts.
fn after_leaf(frames: Stack<Frame>, level: Level<TExpr>, at: u32, form: TForm) -> TagParser
    ensures { result ≡ record { frames = frames; mode = Have level (kept.leaf (record { at = at; form = form })) } }
{
    let part = leaf(TExpr { at, form });
    TagParser {
        frames,
        mode: Mode::Have { level, part },
    }
}

/// Takes the token where an operand comes next.
fn operand(
    alloc: Global,
    frames: Stack<Frame>,
    level: Level<TExpr>,
    token: Terminal,
) -> Result<TagParser, TagStop>
    ensures { StepsIn frames (Want level) token result }
{
    match token {
        Terminal::Number { value, at } => {
            Ok(after_leaf(frames, level, at, TForm::Number(value)))
        }
        Terminal::Tag(name) => Ok(after_leaf(frames, level, name.at, TForm::Tag(name))),
        Terminal::Symbol { symbol, at } => opening(alloc, frames, level, symbol, at),
        _ => Err(TagStop::Refused),
    }
}

/// Takes a symbol where an operand comes next.
fn opening(
    alloc: Global,
    frames: Stack<Frame>,
    level: Level<TExpr>,
    symbol: Symbol,
    at: u32,
) -> Result<TagParser, TagStop>
    ensures { StepsIn frames (Want level) (ASymbol symbol at) result }
{
    if let Some(sign) = symbol.sign() {
        let level = level.with_next_sign(sign, at)?;
        return Ok(TagParser {
            frames,
            mode: Mode::Want { level },
        });
    }
    let Symbol::OpenParen = symbol else {
        return Err(TagStop::Refused);
    };
    Ok(within(alloc, frames, Frame::Parens { level })?)
}

/// Takes the token after an operand.
fn go_on(
    alloc: Global,
    frames: Stack<Frame>,
    level: Level<TExpr>,
    part: Kept<TExpr>,
    token: Terminal,
) -> Result<TagParser, TagStop>
    ensures { StepsIn frames (Have level part) token result }
{
    let Terminal::Symbol { symbol, at } = token else {
        return Err(TagStop::Refused);
    };
    match symbol.infix() {
        Some(between) => operator(alloc, frames, level, part, between, at),
        None => {
            let whole = level.finished(alloc, part)?;
            tested(alloc, frames, whole, symbol, at)
        }
    }
}

/// Takes an operator after an operand.
fn operator(
    alloc: Global,
    frames: Stack<Frame>,
    level: Level<TExpr>,
    part: Kept<TExpr>,
    between: Infix,
    at: u32,
) -> Result<TagParser, TagStop>
    ensures { (symbol : SomeSymbol) → infix_of symbol ≡ Some between → StepsIn frames (Have level part) (ASymbol symbol at) result }
{
    let Some(level) = level.after(alloc, between, at, part)? else {
        return Err(TagStop::Refused);
    };
    Ok(TagParser {
        frames,
        mode: Mode::Want { level },
    })
}

/// Takes a symbol after a disjunction, which is the test of a conditional where it is a `?`.
fn tested(
    alloc: Global,
    frames: Stack<Frame>,
    test: Kept<TExpr>,
    symbol: Symbol,
    at: u32,
) -> Result<TagParser, TagStop>
    ensures { StepsFrom (Tested frames test) (ASymbol symbol at) result }
{
    let Symbol::Question = symbol else {
        return up(alloc, frames, test, symbol, at);
    };
    Ok(within(alloc, frames, Frame::Middle { at, test })?)
}

/// The frames without the innermost right parts of conditionals, which end where the expression does.
fn without_conditionals(
    alloc: Global,
    frames: Stack<Frame>,
    whole: Kept<TExpr>,
) -> Result<(Option<Frame>, Stack<Frame>, Kept<TExpr>), Memory>
    ensures { IfOk result (λ r. Innermost frames whole r.0 r.1 r.2) }
{
    let mut frames = frames;
    let mut whole = whole;
    loop {
        let Some(frame) = frames.pop() else {
            return Ok((None, frames, whole));
        };
        match frame.into_right() {
            Ok((at, test, middle)) => {
                whole = conditional(alloc, at, test, middle, whole)?;
            }
            Err(frame) => return Ok((Some(frame), frames, whole)),
        }
    }
}

/// Takes a symbol after an expression that stands in the frames.
fn up(
    alloc: Global,
    frames: Stack<Frame>,
    whole: Kept<TExpr>,
    symbol: Symbol,
    at: u32,
) -> Result<TagParser, TagStop>
    ensures { StepsFrom (Up frames whole) (ASymbol symbol at) result }
{
    let (frame, frames, whole) = without_conditionals(alloc, frames, whole)?;
    match frame {
        None => Err(ended(whole, symbol, at)),
        Some(frame) => frame.take_symbol(alloc, frames, whole, symbol),
    }
}

/// Whether the symbol may follow a whole expression.
fn may_end(symbol: Symbol) -> bool
    ensures { result ≡ may_end symbol }
{
    match symbol {
        Symbol::CloseParen => true,
        Symbol::CloseBrace => true,
        Symbol::Comma => true,
        _ => false,
    }
}

fn ended(part: Kept<TExpr>, symbol: Symbol, at: u32) -> TagStop
    ensures { StepsFrom (Up [] part) (ASymbol symbol at) (Err result) }
{
    if may_end(symbol) {
        TagStop::Ended { part, symbol, at }
    } else {
        TagStop::Refused
    }
}

fn in_parens(
    frames: Stack<Frame>,
    level: Level<TExpr>,
    whole: Kept<TExpr>,
    symbol: Symbol,
) -> Result<TagParser, TagStop>
    ensures { (at : ℕ) → StepsFrom (Up (Parens level ∷ frames) whole) (ASymbol symbol at) result }
{
    let Symbol::CloseParen = symbol else {
        return Err(TagStop::Refused);
    };
    let part = parens(whole);
    Ok(TagParser {
        frames,
        mode: Mode::Have { level, part },
    })
}

fn in_middle(
    alloc: Global,
    frames: Stack<Frame>,
    at: u32,
    test: Kept<TExpr>,
    middle: Kept<TExpr>,
    symbol: Symbol,
) -> Result<TagParser, TagStop>
    ensures { (colon : ℕ) → StepsFrom (Up (Middle at test ∷ frames) middle) (ASymbol symbol colon) result }
{
    let Symbol::Colon = symbol else {
        return Err(TagStop::Refused);
    };
    Ok(within(alloc, frames, Frame::Right { at, test, middle })?)
}

impl TagParser {
    /// A parser of an expression that begins with the next token, and that a `)`, a `}` or a `,` ends.
    pub fn start(alloc: Global) -> TagParser
        ensures from { (w us : List SomeTerminal) (e : SomeKept SomeExpr) → TagExpr kept w e us → ends us → Completes result w (read e us) }
        ensures to { (w : List SomeTerminal) (t : Read) → Completes result w t → TagExpr kept w t.part t.rest × ends t.rest }
    {
        TagParser {
            frames: Stack::new(alloc),
            mode: Mode::Want {
                level: Level::new(alloc),
            },
        }
    }

    /// Takes a token. Refuses it exactly where no expression goes on with it, and answers the expression exactly
    /// where it ends before the token.
    pub fn step(self, alloc: Global, token: Terminal) -> Result<TagParser, TagStop>
        ensures { Steps self token result }
    {
        let TagParser { frames, mode } = self;
        match mode {
            Mode::Want { level } => operand(alloc, frames, level, token),
            Mode::Have { level, part } => go_on(alloc, frames, level, part, token),
        }
    }
}

//! The parser of expressions in boxes.
ghost use Rattle.std.specs.Prelude.{◌≡◌, ◌∷◌, List, IfOk};
ghost use Rattle.sn_ast.specs.BoxExprs.{BoxExpr};
ghost use Rattle.sn_ast.specs.Kept.{Kept as SomeKept, kept};
ghost use Rattle.sn_ast.specs.declared.box_expr.BExpr.{BExpr as SomeExpr};
ghost use Rattle.sn_ast.specs.declared.terminal.Terminal.{Terminal as SomeTerminal};
ghost use Rattle.sn_expr_parser.specs.BoxResidual.{Read, read, ends, Completes, StepsIn, Steps};
ghost use Rattle.sn_expr_parser.specs.declared.boxes.Mode.TheVariants.{Begin, AtOperand};

use crate::box_after::go_on;
use crate::box_frame::{Frame, MiddlePart};
use crate::box_node::Head;
use crate::box_operand::{
    after_name, after_out, first_argument, first_step, let_assign, let_name, opened, operand, word,
};
use crate::level::Level;
use sn_ast::{BExpr, Ident, Kept, Keyword, Symbol, Terminal};
use sn_list::Memory;
use sn_stack::Stack;
use std::alloc::Global;

/// Why a step answers no parser: memory was wanted and not had, or no expression goes on with the token, or the
/// expression ended before the token, which is the symbol at its place.
#[derive(Drop)]
pub enum BoxStop {
    Memory,
    Refused,
    Ended {
        part: Kept<BExpr>,
        symbol: Symbol,
        at: u32,
    },
}

/// What comes next.
#[derive(Drop)]
pub(crate) enum Mode {
    /// An expression.
    Begin,
    /// The name that `let` binds.
    LetName {
        at: u32,
    },
    /// The `=` after that name.
    LetAssign {
        at: u32,
        name: Ident,
    },
    /// What stands at an operand of the level.
    AtOperand {
        level: Level<BExpr>,
        awaited: Awaited,
    },
}

/// What is awaited at an operand.
#[derive(Drop)]
pub(crate) enum Awaited {
    /// The operand.
    Want,
    /// A parenthesis that makes the name a call, or what may follow an operand.
    AfterName { name: Ident },
    /// The number of an output variant.
    AfterOut { at: u32 },
    /// The parenthesis that opens arguments.
    Opening { head: Head },
    /// An argument, or the bracket that closes none.
    FirstArgument { head: Head },
    /// The first token of a sequence in parentheses.
    FirstStep,
    /// What may follow the operand.
    Have { part: Kept<BExpr> },
}

/// A parser of an expression in a box, which is given one token at a time.
pub struct BoxParser {
    pub(crate) frames: Stack<Frame>,
    pub(crate) mode: Mode,
}

/// Written out, so that whoever gives a parser up calls this, and is not proved over each form of it.
impl Drop for BoxParser {
    fn drop(self) {
        let BoxParser {
            frames: _frames,
            mode: _mode,
        } = self;
    }
}

impl From<Memory> for BoxStop {
    ghost use Rattle.std.specs.Prelude.{◌≡◌};
    ghost use Rattle.sn_expr_parser.specs.declared.boxes.BoxStop.{BoxStop};

    ghost from_gives = { λ _ e. e ≡ BoxStop.Memory };

    fn from(_memory: Memory) -> BoxStop {
        BoxStop::Memory
    }
}

/// An expression begins in one more frame.
pub(crate) fn within(frames: Stack<Frame>, frame: Frame) -> Result<BoxParser, Memory>
    ensures { IfOk result (λ s. s ≡ record { frames = frame ∷ frames; mode = Begin }) }
{
    let mut frames = frames;
    frames.push(frame)?;
    Ok(BoxParser {
        frames,
        mode: Mode::Begin,
    })
}

/// Takes the token where an expression comes next.
pub(crate) fn begin(
    alloc: Global,
    frames: Stack<Frame>,
    token: Terminal,
) -> Result<BoxParser, BoxStop>
    ensures { StepsIn frames Begin token result }
{
    let Terminal::Keyword { keyword, at } = token else {
        return operand(alloc, frames, Level::new(alloc), token);
    };
    match keyword {
        Keyword::Let => Ok(BoxParser {
            frames,
            mode: Mode::LetName { at },
        }),
        Keyword::If => Ok(within(frames, Frame::Middle(MiddlePart::Test { at }))?),
        _ => word(frames, Level::new(alloc), keyword, at),
    }
}

impl Awaited {
    /// Takes the next token.
    fn step(
        self,
        alloc: Global,
        frames: Stack<Frame>,
        level: Level<BExpr>,
        token: Terminal,
    ) -> Result<BoxParser, BoxStop>
        ensures { StepsIn frames (AtOperand level self) token result }
    {
        match self {
            Awaited::Want => operand(alloc, frames, level, token),
            Awaited::AfterName { name } => after_name(alloc, frames, level, name, token),
            Awaited::AfterOut { at } => after_out(frames, level, at, token),
            Awaited::Opening { head } => opened(frames, level, head, token),
            Awaited::FirstArgument { head } => first_argument(alloc, frames, level, head, token),
            Awaited::FirstStep => first_step(alloc, frames, level, token),
            Awaited::Have { part } => go_on(alloc, frames, level, part, token),
        }
    }
}

impl BoxParser {
    /// A parser of an expression that begins with the next token, and that a `;` or a `}` ends.
    pub fn start(alloc: Global) -> BoxParser
        ensures from { (w us : List SomeTerminal) (e : SomeKept SomeExpr) → BoxExpr kept w e us → ends us → Completes result w (read e us) }
        ensures to { (w : List SomeTerminal) (t : Read) → Completes result w t → BoxExpr kept w t.part t.rest × ends t.rest }
    {
        BoxParser {
            frames: Stack::new(alloc),
            mode: Mode::Begin,
        }
    }

    /// Takes a token. Refuses it exactly where no expression goes on with it, and answers the expression exactly
    /// where it ends before the token.
    pub fn step(self, alloc: Global, token: Terminal) -> Result<BoxParser, BoxStop>
        ensures { Steps self token result }
    {
        let BoxParser { frames, mode } = self;
        match mode {
            Mode::Begin => begin(alloc, frames, token),
            Mode::LetName { at } => let_name(frames, at, token),
            Mode::LetAssign { at, name } => let_assign(frames, at, name, token),
            Mode::AtOperand { level, awaited } => awaited.step(alloc, frames, level, token),
        }
    }
}

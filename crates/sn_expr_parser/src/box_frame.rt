//! The open forms in which an expression of a box stands.
ghost use Rattle.std.specs.Prelude.{◌≡◌, ℕ, ◌∷◌, IfOk, MatchResult};
ghost use Rattle.sn_ast.specs.declared.terminal.Terminal.TheVariants.{Keyword as AKeyword, Symbol as ASymbol};
ghost use Rattle.sn_expr_parser.specs.BoxResidual.{next_frame, completed, Up, StepsFrom};
ghost use Rattle.sn_expr_parser.specs.declared.box_frame.Frame.TheVariants.{Last};
ghost use Rattle.sn_expr_parser.specs.declared.box_frame.LastPart.{LastPart as SomeLast};
ghost use Rattle.sn_expr_parser.specs.declared.box_frame.MiddlePart.TheVariants.{Bound, Test, Then};

use crate::box_after::{in_arguments, in_middle, in_parens};
use crate::box_node::{Head, binding, conditional};
use crate::boxes::{BoxParser, BoxStop};
use crate::level::Level;
use sn_ast::{BExpr, Ident, Kept, Keyword, Seq, Symbol};
use sn_list::Memory;
use sn_stack::Stack;
use std::alloc::Global;

/// A part of a form that a keyword follows, and what of the form stands before it.
pub(crate) enum MiddlePart {
    /// What a name is bound to, before `in`.
    Bound { at: u32, name: Ident },
    /// A test, before `then`.
    Test { at: u32 },
    /// What is taken where the test holds, before `else`.
    Then { at: u32, test: Kept<BExpr> },
}

/// Written out, so that whoever gives such a part up calls this, and is not proved over each form of it.
impl Drop for MiddlePart {
    fn drop(self) {
        match self {
            MiddlePart::Bound {
                at: _at,
                name: _name,
            } => (),
            MiddlePart::Test { at: _at } => (),
            MiddlePart::Then {
                at: _at,
                test: _test,
            } => (),
        }
    }
}

/// The last part of a form, which ends where the expression does, and what of the form stands before it.
pub(crate) enum LastPart {
    Body {
        at: u32,
        name: Ident,
        bound: Kept<BExpr>,
    },
    Else {
        at: u32,
        test: Kept<BExpr>,
        first: Kept<BExpr>,
    },
}

/// Written out, as for `MiddlePart`.
impl Drop for LastPart {
    fn drop(self) {
        match self {
            LastPart::Body {
                at: _at,
                name: _name,
                bound: _bound,
            } => (),
            LastPart::Else {
                at: _at,
                test: _test,
                first: _first,
            } => (),
        }
    }
}

/// An open form in which an expression stands.
pub(crate) enum Frame {
    /// Parentheses, with what stands before them, the place of the first token in them, and the parts before a `;`.
    Parens {
        level: Level<BExpr>,
        at: u32,
        so_far: Option<Kept<Seq<BExpr>>>,
    },
    /// Arguments, with what stands before them, what they are given to, and those before a `,`.
    Arguments {
        level: Level<BExpr>,
        head: Head,
        row: Kept<Seq<BExpr>>,
    },
    Middle(MiddlePart),
    Last(LastPart),
}

/// Written out, so that whoever gives a frame or a stack of them up calls this, and is not proved over each form of it.
impl Drop for Frame {
    fn drop(self) {
        match self {
            Frame::Parens {
                level: _level,
                at: _at,
                so_far: _so_far,
            } => (),
            Frame::Arguments {
                level: _level,
                head: _head,
                row: _row,
            } => (),
            Frame::Middle(_part) => (),
            Frame::Last(_part) => (),
        }
    }
}

impl LastPart {
    /// The form whose last part is `part`.
    pub(crate) fn completed(self, alloc: Global, part: Kept<BExpr>) -> Result<Kept<BExpr>, Memory>
        ensures { IfOk result (λ r. r ≡ completed self part) }
    {
        match self {
            LastPart::Body { at, name, bound } => binding(alloc, at, name, bound, part),
            LastPart::Else { at, test, first } => conditional(alloc, at, test, first, part),
        }
    }
}

impl MiddlePart {
    /// The frame after `part` and the keyword that follows it here.
    pub(crate) fn next_frame(self, part: Kept<BExpr>, keyword: Keyword) -> Option<Frame>
        ensures { result ≡ next_frame self part keyword }
    {
        match self {
            MiddlePart::Bound { at, name } => body(at, name, part, keyword),
            MiddlePart::Test { at } => then(at, part, keyword),
            MiddlePart::Then { at, test } => otherwise(at, test, part, keyword),
        }
    }
}

fn body(at: u32, name: Ident, bound: Kept<BExpr>, keyword: Keyword) -> Option<Frame>
    ensures { result ≡ next_frame (Bound at name) bound keyword }
{
    match keyword {
        Keyword::In => Some(Frame::Last(LastPart::Body { at, name, bound })),
        _ => None,
    }
}

fn then(at: u32, test: Kept<BExpr>, keyword: Keyword) -> Option<Frame>
    ensures { result ≡ next_frame (Test at) test keyword }
{
    match keyword {
        Keyword::Then => Some(Frame::Middle(MiddlePart::Then { at, test })),
        _ => None,
    }
}

fn otherwise(at: u32, test: Kept<BExpr>, first: Kept<BExpr>, keyword: Keyword) -> Option<Frame>
    ensures { result ≡ next_frame (Then at test) first keyword }
{
    match keyword {
        Keyword::Else => Some(Frame::Last(LastPart::Else { at, test, first })),
        _ => {
            drop((test, first));
            None
        }
    }
}

/// What takes a frame apart, which only methods can.
impl Frame {
    /// The last part of a form, if the frame is one, and else the frame.
    pub(crate) fn into_last(self) -> Result<LastPart, Frame>
        ensures { MatchResult result (λ part. self ≡ Last part) (λ frame. (frame ≡ self) × ((part : SomeLast) → self ≡ Last part → ⊥)) }
    {
        match self {
            Frame::Last(part) => Ok(part),
            other => Err(other),
        }
    }

    /// Takes the symbol after an expression that stands in the frame.
    pub(crate) fn take_symbol(
        self,
        alloc: Global,
        frames: Stack<Frame>,
        whole: Kept<BExpr>,
        symbol: Symbol,
    ) -> Result<BoxParser, BoxStop>
        requires { (part : SomeLast) → self ≡ Last part → ⊥ }
        ensures { (place : ℕ) → StepsFrom (Up (self ∷ frames) whole) (ASymbol symbol place) result }
    {
        match self {
            Frame::Parens { level, at, so_far } => {
                in_parens(alloc, frames, level, at, so_far, whole, symbol)
            }
            Frame::Arguments { level, head, row } => {
                in_arguments(frames, level, head, row, whole, symbol)
            }
            other => {
                drop(other);
                Err(BoxStop::Refused)
            }
        }
    }

    /// Takes the keyword after an expression that stands in the frame.
    pub(crate) fn take_keyword(
        self,
        frames: Stack<Frame>,
        whole: Kept<BExpr>,
        keyword: Keyword,
    ) -> Result<BoxParser, BoxStop>
        requires { (part : SomeLast) → self ≡ Last part → ⊥ }
        ensures { (at : ℕ) → StepsFrom (Up (self ∷ frames) whole) (AKeyword keyword at) result }
    {
        match self {
            Frame::Middle(part) => in_middle(frames, part, whole, keyword),
            other => {
                drop(other);
                Err(BoxStop::Refused)
            }
        }
    }
}

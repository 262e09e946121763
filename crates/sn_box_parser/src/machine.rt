ghost use Rattle.std.specs.Prelude.{◌≡◌, List};
ghost use Rattle.sn_ast.specs.Declarations.{RestOfBox};
ghost use Rattle.sn_ast.specs.Kept.{Kept as SomeKept, kept};
ghost use Rattle.sn_ast.specs.declared.declaration.Decl.{Decl as SomeDecl};
ghost use Rattle.sn_ast.specs.declared.terminal.Terminal.{Terminal as SomeTerminal};
ghost use Rattle.sn_box_parser.specs.BoxDeclResidual.{Completes, Read, Steps, StepsIn, read};
ghost use Rattle.sn_box_parser.specs.declared.machine.Mode.TheVariants as some_mode;

use crate::parts::{Function, Head, Opened, Sequence};
use crate::{body, function, head};
use sn_ast::{Decl, Ident, Kept, Terminal, Tuple};
use sn_expr_parser::BoxParser;
use sn_list::Memory;
use sn_type_parser::LabelParser;
use std::alloc::Global;

/// Why a box is not read on.
#[derive(Drop)]
pub enum BoxDeclStop {
    Memory,
    /// No box goes on with the token.
    Refused,
}

impl From<Memory> for BoxDeclStop {
    ghost use Rattle.std.specs.Prelude.{◌≡◌};
    ghost use Rattle.sn_box_parser.specs.declared.machine.BoxDeclStop.TheVariants.{Memory};

    ghost from_gives = { λ _ e. e ≡ Memory };

    fn from(_: Memory) -> BoxDeclStop {
        BoxDeclStop::Memory
    }
}

/// What a token led to.
#[derive(Drop)]
pub enum BoxDeclStep {
    More(BoxDeclParser),
    /// The token was the brace that closes the body.
    Done(Kept<Decl>),
}

/// What comes next.
#[derive(Drop)]
pub enum Mode {
    /// The `(` after the box's name.
    Opening {
        name: Ident,
    },
    /// The input.
    Input {
        name: Ident,
    },
    InInput {
        name: Ident,
        opening: u32,
        labels: LabelParser,
    },
    /// The `->` after the input.
    Arrow {
        name: Ident,
        input: Tuple,
    },
    /// What stands in the outputs.
    Outputs {
        head: Head,
        next: InOutputs,
    },
    /// What stands in the body.
    Inside {
        opened: Opened,
        next: InBody,
    },
}

/// What comes next in the outputs.
#[derive(Drop)]
pub enum InOutputs {
    /// An output.
    Output,
    InOutput { opening: u32, labels: LabelParser },
    /// What may stand after an output.
    AfterOutput,
    /// The `{` that opens the body.
    Brace,
}

/// What comes next in the body.
#[derive(Drop)]
pub enum InBody {
    /// A function, or the sequence of the body.
    Body,
    /// A function's name.
    FunctionName,
    /// The `(` after a function's name.
    FunctionOpening { name: Ident },
    /// A function's first parameter, or the `)` after none.
    FirstParam { name: Ident },
    /// A function's parameter.
    Param { function: Function },
    /// What may stand after a parameter.
    AfterParam { function: Function },
    /// The `=` before a function's body.
    Assign { function: Function },
    InFunction { function: Function, body: BoxParser },
    /// A part of the body's sequence.
    InPart { sequence: Sequence, part: BoxParser },
}

/// A box that is being read.
pub struct BoxDeclParser {
    pub mode: Mode,
}

/// Written out, so that whoever gives a parser up calls this, and is not proved over each part of it.
impl Drop for BoxDeclParser {
    fn drop(self) {
        let BoxDeclParser { mode: _mode } = self;
    }
}

impl InOutputs {
    /// Takes the next token.
    fn step(self, alloc: Global, head: Head, token: Terminal) -> Result<BoxDeclStep, BoxDeclStop>
        ensures { StepsIn (some_mode.Outputs head self) token result }
    {
        match self {
            InOutputs::Output => head::output(alloc, head, token),
            InOutputs::InOutput { opening, labels } => {
                head::in_output(head, opening, labels, token)
            }
            InOutputs::AfterOutput => head::after_output(head, token),
            InOutputs::Brace => head::brace(alloc, head, token),
        }
    }
}

impl InBody {
    /// Takes the next token.
    fn step(
        self,
        alloc: Global,
        opened: Opened,
        token: Terminal,
    ) -> Result<BoxDeclStep, BoxDeclStop>
        ensures { StepsIn (some_mode.Inside opened self) token result }
    {
        match self {
            InBody::Body => body::begin(alloc, opened, token),
            InBody::FunctionName => function::name(opened, token),
            InBody::FunctionOpening { name } => function::opening(opened, name, token),
            InBody::FirstParam { name } => function::first_param(alloc, opened, name, token),
            InBody::Param { function } => function::param(opened, function, token),
            InBody::AfterParam { function } => function::after_param(opened, function, token),
            InBody::Assign { function } => function::assign(alloc, opened, function, token),
            InBody::InFunction { function, body } => {
                function::in_function(alloc, opened, function, body, token)
            }
            InBody::InPart { sequence, part } => {
                body::in_part(alloc, opened, sequence, part, token)
            }
        }
    }
}

impl BoxDeclParser {
    /// Stands after the box's name.
    pub fn start(_alloc: Global, name: Ident) -> BoxDeclParser
        ensures from { (w us : List SomeTerminal) (d : SomeKept SomeDecl) → RestOfBox kept name w d us → Completes result w (read d us) }
        ensures to { (w : List SomeTerminal) (t : Read) → Completes result w t → RestOfBox kept name w t.part t.rest }
    {
        BoxDeclParser {
            mode: Mode::Opening { name },
        }
    }

    /// Takes the next token.
    pub fn step(self, alloc: Global, token: Terminal) -> Result<BoxDeclStep, BoxDeclStop>
        ensures { Steps self token result }
    {
        let BoxDeclParser { mode } = self;
        match mode {
            Mode::Opening { name } => head::opening(name, token),
            Mode::Input { name } => head::input(alloc, name, token),
            Mode::InInput {
                name,
                opening,
                labels,
            } => head::in_input(name, opening, labels, token),
            Mode::Arrow { name, input } => head::arrow(alloc, name, input, token),
            Mode::Outputs { head, next } => next.step(alloc, head, token),
            Mode::Inside { opened, next } => next.step(alloc, opened, token),
        }
    }
}

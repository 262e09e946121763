ghost use Rattle.std.specs.Prelude.{◌≡◌, List, ◌↔◌, IsTrue};
ghost use Rattle.sn_ast.specs.Labels.{Labels};
ghost use Rattle.sn_ast.specs.declared.label.LabelAt.{LabelAt as SomeLabel};
ghost use Rattle.sn_ast.specs.declared.terminal.Terminal.{Terminal as SomeTerminal};
ghost use Rattle.sn_type_parser.specs.LabelResidual.{closes, Completes, Steps, StepsIn};
ghost use Rattle.sn_type_parser.specs.Reads.{Read, read};
ghost use Rattle.sn_type_parser.specs.declared.labels.Mode.TheVariants.{First, Label, After};

use sn_ast::{Bracket, LabelAt, Symbol, Terminal};
use sn_list::{Memory, Seq};
use std::alloc::Global;

/// Why labels are not read on.
#[derive(Drop)]
pub enum LabelStop {
    Memory,
    Refused,
}

impl From<Memory> for LabelStop {
    ghost use Rattle.std.specs.Prelude.{◌≡◌};
    ghost use Rattle.sn_type_parser.specs.declared.labels.LabelStop.TheVariants.{Memory};

    ghost from_gives = { λ _ e. e ≡ Memory };

    fn from(_: Memory) -> LabelStop {
        LabelStop::Memory
    }
}

/// What comes next.
#[derive(Clone, Copy)]
enum Mode {
    /// A label, or the closing bracket.
    First,
    Label,
    /// A comma, or the closing bracket.
    After,
}

/// Reads `label, label, ..` and the closing bracket, after the opening one.
pub struct LabelParser {
    bracket: Bracket,
    labels: Seq<LabelAt>,
    mode: Mode,
}

/// Written out, so that whoever gives a parser up calls this, and is not proved over each form of it.
impl Drop for LabelParser {
    fn drop(self) {
        let LabelParser {
            bracket: _bracket,
            labels: _labels,
            mode: _mode,
        } = self;
    }
}

/// What a token led to.
#[derive(Drop)]
pub enum LabelStep {
    More(LabelParser),
    /// The token was the closing bracket.
    Done(Seq<LabelAt>),
}

impl LabelParser {
    /// Stands after the opening bracket.
    pub fn start(alloc: Global, bracket: Bracket) -> LabelParser
        ensures from { (w us : List SomeTerminal) (all : List SomeLabel) → Labels bracket w all us → Completes result w (read all us) }
        ensures to { (w : List SomeTerminal) (t : Read (List SomeLabel)) → Completes result w t → Labels bracket w t.part t.rest }
    {
        LabelParser {
            bracket,
            labels: Seq::new(alloc),
            mode: Mode::First,
        }
    }

    /// Takes the next token: answers the labels where it is the closing bracket, and refuses it where no labels go on
    /// with it.
    pub fn step(self, token: Terminal) -> Result<LabelStep, LabelStop>
        ensures { Steps self token result }
    {
        let LabelParser {
            bracket,
            labels,
            mode,
        } = self;
        match mode {
            Mode::First => first(bracket, labels, token),
            Mode::Label => label(bracket, labels, token),
            Mode::After => after(bracket, labels, token),
        }
    }
}

fn first(bracket: Bracket, labels: Seq<LabelAt>, token: Terminal) -> Result<LabelStep, LabelStop>
    ensures { StepsIn bracket labels First token result }
{
    if closes(bracket, &token) {
        return Ok(LabelStep::Done(labels));
    }
    label(bracket, labels, token)
}

fn label(bracket: Bracket, labels: Seq<LabelAt>, token: Terminal) -> Result<LabelStep, LabelStop>
    ensures { StepsIn bracket labels Label token result }
{
    let Some(label) = token.into_label() else {
        return Err(LabelStop::Refused);
    };
    let mut labels = labels;
    sn_stack::append(&mut labels, label)?;
    Ok(LabelStep::More(LabelParser {
        bracket,
        labels,
        mode: Mode::After,
    }))
}

fn after(bracket: Bracket, labels: Seq<LabelAt>, token: Terminal) -> Result<LabelStep, LabelStop>
    ensures { StepsIn bracket labels After token result }
{
    if closes(bracket, &token) {
        return Ok(LabelStep::Done(labels));
    }
    let Terminal::Symbol { symbol, .. } = token else {
        return Err(LabelStop::Refused);
    };
    match symbol {
        Symbol::Comma => Ok(LabelStep::More(LabelParser {
            bracket,
            labels,
            mode: Mode::Label,
        })),
        _ => Err(LabelStop::Refused),
    }
}

/// Whether the token closes the bracket.
fn closes(bracket: Bracket, token: &Terminal) -> bool
    ensures { IsTrue result ↔ closes bracket token.now }
{
    match token {
        Terminal::Symbol { symbol, .. } => *symbol == bracket.closing(),
        _ => false,
    }
}

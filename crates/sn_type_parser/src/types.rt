ghost use Rattle.std.specs.Prelude.{◌≡◌, [], ◌∷◌, ◌++◌, List, ◌↔◌, IfOk, ◌≢◌};
ghost use Rattle.sn_ast.specs.Labels.{Types};
ghost use Rattle.sn_ast.specs.declared.label.TypePart.{TypePart as SomePart};
ghost use Rattle.sn_ast.specs.declared.terminal.Symbol.TheVariants.{Bar as SomeBar};
ghost use Rattle.sn_ast.specs.declared.terminal.Terminal.{Terminal as SomeTerminal};
ghost use Rattle.sn_ast.specs.declared.terminal.Terminal.TheVariants.{Symbol as SomeSymbol};
ghost use Rattle.sn_type_parser.specs.Reads.{Read, read};
ghost use Rattle.sn_type_parser.specs.TypeResidual.{can_follow_type, EndsType, Completes, Steps, StepsIn};
ghost use Rattle.sn_type_parser.specs.declared.types.Mode.TheVariants.{Part, Variant as InVariant, After};

use crate::labels::{LabelParser, LabelStep, LabelStop};
use sn_ast::{Bracket, Symbol, Terminal, TypePart, Variant};
use sn_list::{Memory, Seq};
use std::alloc::Global;

/// Why a type is not read on.
#[derive(Drop)]
pub enum TypeStop {
    Memory,
    Refused,
    /// The token that was given stands after the type, whose parts these are.
    Ended {
        parts: Seq<TypePart>,
        symbol: Symbol,
        at: u32,
    },
}

impl From<Memory> for TypeStop {
    ghost use Rattle.std.specs.Prelude.{◌≡◌};
    ghost use Rattle.sn_type_parser.specs.declared.types.TypeStop.TheVariants.{Memory};

    ghost from_gives = { λ _ e. e ≡ Memory };

    fn from(_: Memory) -> TypeStop {
        TypeStop::Memory
    }
}

/// What comes next.
#[derive(Drop)]
enum Mode {
    Part,
    /// What is in a variant, whose opening bracket is at the place.
    Variant { at: u32, labels: LabelParser },
    /// A bar, or what follows the type.
    After,
}

/// Reads `part | part | ..`, and ends at the `;`, `)` or `->` that follows.
pub struct TypeParser {
    parts: Seq<TypePart>,
    mode: Mode,
}

/// Written out, so that whoever gives a parser up calls this, and is not proved over each form of it.
impl Drop for TypeParser {
    fn drop(self) {
        let TypeParser {
            parts: _parts,
            mode: _mode,
        } = self;
    }
}

impl TypeParser {
    /// Stands before the type.
    pub fn start(alloc: Global) -> TypeParser
        ensures from { (w us : List SomeTerminal) (all : List SomePart) → Types w all us → EndsType us → Completes result w (read all us) }
        ensures to { (w : List SomeTerminal) (t : Read (List SomePart)) → Completes result w t → Types w t.part t.rest × EndsType t.rest }
    {
        TypeParser {
            parts: Seq::new(alloc),
            mode: Mode::Part,
        }
    }

    /// Takes the next token: ends where the type is whole and the token may follow it, and refuses the token where no
    /// type goes on with it.
    pub fn step(self, alloc: Global, token: Terminal) -> Result<TypeParser, TypeStop>
        ensures { Steps self token result }
    {
        let TypeParser { parts, mode } = self;
        match mode {
            Mode::Part => begin_part(alloc, parts, token),
            Mode::Variant { at, labels } => in_variant(parts, at, labels, token),
            Mode::After => after_part(parts, token),
        }
    }
}

fn begin_part(alloc: Global, parts: Seq<TypePart>, token: Terminal) -> Result<TypeParser, TypeStop>
    ensures { StepsIn parts Part token result }
{
    match token {
        Terminal::Name(name) => {
            let parser = after(parts, TypePart::Named(name))?;
            Ok(parser)
        }
        Terminal::Symbol { symbol, at } => open_variant(alloc, parts, symbol, at),
        _ => Err(TypeStop::Refused),
    }
}

fn open_variant(
    alloc: Global,
    parts: Seq<TypePart>,
    symbol: Symbol,
    at: u32,
) -> Result<TypeParser, TypeStop>
    ensures { StepsIn parts Part (SomeSymbol symbol at) result }
{
    match symbol {
        Symbol::OpenBrace => Ok(TypeParser {
            parts,
            mode: Mode::Variant {
                at,
                labels: LabelParser::start(alloc, Bracket::Brace),
            },
        }),
        _ => Err(TypeStop::Refused),
    }
}

fn in_variant(
    parts: Seq<TypePart>,
    at: u32,
    labels: LabelParser,
    token: Terminal,
) -> Result<TypeParser, TypeStop>
    ensures { StepsIn parts (InVariant at labels) token result }
{
    match labels.step(token) {
        Ok(LabelStep::More(labels)) => Ok(TypeParser {
            parts,
            mode: Mode::Variant { at, labels },
        }),
        Ok(LabelStep::Done(labels)) => {
            let parser = after(parts, TypePart::Set(Variant { labels, at }))?;
            Ok(parser)
        }
        Err(LabelStop::Memory) => Err(TypeStop::Memory),
        Err(LabelStop::Refused) => Err(TypeStop::Refused),
    }
}

/// Stands after one more part.
fn after(parts: Seq<TypePart>, part: TypePart) -> Result<TypeParser, Memory>
    ensures { IfOk result (λ s. s ≡ record { parts = parts ++ part ∷ []; mode = After }) }
{
    let mut parts = parts;
    sn_stack::append(&mut parts, part)?;
    Ok(TypeParser {
        parts,
        mode: Mode::After,
    })
}

fn after_part(parts: Seq<TypePart>, token: Terminal) -> Result<TypeParser, TypeStop>
    ensures { StepsIn parts After token result }
{
    let Terminal::Symbol { symbol, at } = token else {
        return Err(TypeStop::Refused);
    };
    match symbol {
        Symbol::Bar => Ok(TypeParser {
            parts,
            mode: Mode::Part,
        }),
        _ => end(parts, symbol, at),
    }
}

/// Takes the token that follows a type, which is no bar.
fn end(parts: Seq<TypePart>, symbol: Symbol, at: u32) -> Result<TypeParser, TypeStop>
    requires { symbol ≢ SomeBar }
    ensures { StepsIn parts After (SomeSymbol symbol at) result }
{
    if can_follow(symbol) {
        return Err(TypeStop::Ended { parts, symbol, at });
    }
    Err(TypeStop::Refused)
}

fn can_follow(symbol: Symbol) -> bool
    ensures { result ≡ can_follow_type symbol }
{
    match symbol {
        Symbol::Semicolon => true,
        Symbol::CloseParen => true,
        Symbol::Arrow => true,
        _ => false,
    }
}

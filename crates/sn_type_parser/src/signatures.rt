ghost use Rattle.std.specs.Prelude.{◌≡◌, ◌≢◌, List, ◌↔◌, Some, None};
ghost use Rattle.sn_ast.specs.Labels.{IsSig};
ghost use Rattle.sn_ast.specs.declared.label.Sig.{Sig as SomeSig};
ghost use Rattle.sn_ast.specs.declared.terminal.Symbol.TheVariants.{Arrow as SomeArrow};
ghost use Rattle.sn_ast.specs.declared.terminal.Terminal.{Terminal as SomeTerminal};
ghost use Rattle.sn_ast.specs.declared.terminal.Terminal.TheVariants.{Symbol as SomeSymbol};
ghost use Rattle.sn_type_parser.specs.Reads.{Read, read};
ghost use Rattle.sn_type_parser.specs.SigResidual.{can_follow_sig, EndsSig, lone_name, AfterType, Completes, Steps, StepsFrom};

use crate::types::{TypeParser, TypeStop};
use sn_ast::{Ident, Sig, Symbol, Terminal, TypePart};
use sn_list::{Memory, Seq};
use std::alloc::Global;

/// Why a signature is not read on.
#[derive(Drop)]
pub enum SigStop {
    Memory,
    Refused,
    /// The token that was given stands after the signature.
    Ended { sig: Sig, symbol: Symbol, at: u32 },
}

impl From<Memory> for SigStop {
    ghost use Rattle.std.specs.Prelude.{◌≡◌};
    ghost use Rattle.sn_type_parser.specs.declared.signatures.SigStop.TheVariants.{Memory};

    ghost from_gives = { λ _ e. e ≡ Memory };

    fn from(_: Memory) -> SigStop {
        SigStop::Memory
    }
}

/// Reads `type -> type`, or the name of a signature, and ends at the `;` or `)` that follows.
pub struct SigParser {
    /// The input type, once its arrow was read.
    input: Option<Seq<TypePart>>,
    types: TypeParser,
}

/// Written out, so that whoever gives a parser up calls this, and is not proved over each form of it.
impl Drop for SigParser {
    fn drop(self) {
        let SigParser {
            input: _input,
            types: _types,
        } = self;
    }
}

impl SigParser {
    /// Stands before the signature.
    pub fn start(alloc: Global) -> SigParser
        ensures from { (w us : List SomeTerminal) (sig : SomeSig) → IsSig w sig us → EndsSig us → Completes result w (read sig us) }
        ensures to { (w : List SomeTerminal) (t : Read SomeSig) → Completes result w t → IsSig w t.part t.rest × EndsSig t.rest }
    {
        SigParser {
            input: None,
            types: TypeParser::start(alloc),
        }
    }

    /// Takes the next token: ends where the signature is whole and the token may follow it, and refuses the token where
    /// no signature goes on with it.
    pub fn step(self, alloc: Global, token: Terminal) -> Result<SigParser, SigStop>
        ensures { Steps self token result }
    {
        let SigParser { input, types } = self;
        match types.step(alloc, token) {
            Ok(types) => Ok(SigParser { input, types }),
            Err(TypeStop::Memory) => Err(SigStop::Memory),
            Err(TypeStop::Refused) => Err(SigStop::Refused),
            Err(TypeStop::Ended { parts, symbol, at }) => {
                after_type(alloc, input, parts, symbol, at)
            }
        }
    }
}

/// Takes the token after a type.
fn after_type(
    alloc: Global,
    input: Option<Seq<TypePart>>,
    parts: Seq<TypePart>,
    symbol: Symbol,
    at: u32,
) -> Result<SigParser, SigStop>
    ensures { StepsFrom (AfterType input parts) (SomeSymbol symbol at) result }
{
    match input {
        None => after_input(alloc, parts, symbol, at),
        Some(input) => after_output(input, parts, symbol, at),
    }
}

fn after_input(
    alloc: Global,
    input: Seq<TypePart>,
    symbol: Symbol,
    at: u32,
) -> Result<SigParser, SigStop>
    ensures { StepsFrom (AfterType None input) (SomeSymbol symbol at) result }
{
    match symbol {
        Symbol::Arrow => Ok(SigParser {
            input: Some(input),
            types: TypeParser::start(alloc),
        }),
        _ => after_name(input, symbol, at),
    }
}

/// Takes the token after what can only be the name of a signature.
fn after_name(parts: Seq<TypePart>, symbol: Symbol, at: u32) -> Result<SigParser, SigStop>
    requires { symbol ≢ SomeArrow }
    ensures { StepsFrom (AfterType None parts) (SomeSymbol symbol at) result }
{
    if !can_follow(symbol) {
        return Err(SigStop::Refused);
    }
    match lone_name(parts) {
        Some(name) => Err(SigStop::Ended {
            sig: Sig::Named(name),
            symbol,
            at,
        }),
        None => Err(SigStop::Refused),
    }
}

fn after_output(
    input: Seq<TypePart>,
    output: Seq<TypePart>,
    symbol: Symbol,
    at: u32,
) -> Result<SigParser, SigStop>
    ensures { StepsFrom (AfterType (Some input) output) (SomeSymbol symbol at) result }
{
    if can_follow(symbol) {
        return Err(SigStop::Ended {
            sig: Sig::Arrow { input, output },
            symbol,
            at,
        });
    }
    Err(SigStop::Refused)
}

/// The name, where the parts are one name alone.
fn lone_name(parts: Seq<TypePart>) -> Option<Ident>
    ensures { result ≡ lone_name parts }
{
    let mut parts = parts.into_vec();
    if parts.len() != 1 {
        return None;
    }
    match parts.pop() {
        Some(TypePart::Named(name)) => Some(name),
        _ => None,
    }
}

fn can_follow(symbol: Symbol) -> bool
    ensures { result ≡ can_follow_sig symbol }
{
    match symbol {
        Symbol::Semicolon => true,
        Symbol::CloseParen => true,
        _ => false,
    }
}

ghost use Rattle.sn_parser.specs.Residual.{AfterType, AfterTypeSig, EndSteps, StepsIn};
ghost use Rattle.sn_parser.specs.declared.machine.Mode.TheVariants as some_mode;

use crate::machine::{Around, Mode, Parser, Stop};
use crate::tokens::symbol_at;
use sn_ast::measure::leaf;
use sn_ast::{Decl, Ident, Seq, Sig, Symbol, Terminal, TypePart};
use sn_type_parser::{SigParser, SigStop, TypeParser, TypeStop};
use std::alloc::Global;

/// Takes the `=` after the name of a type.
pub fn type_assign(
    alloc: Global,
    around: Around,
    name: Ident,
    token: Terminal,
) -> Result<Parser, Stop>
    ensures { StepsIn around (some_mode.TypeAssign name) token result }
{
    let Some(_) = symbol_at(token, Symbol::Assign) else {
        return Err(Stop::Refused);
    };
    Ok(Parser {
        around,
        mode: Mode::InType {
            name,
            types: TypeParser::start(alloc),
        },
    })
}

/// Takes a token of a type.
pub fn in_type(
    alloc: Global,
    around: Around,
    name: Ident,
    types: TypeParser,
    token: Terminal,
) -> Result<Parser, Stop>
    ensures { StepsIn around (some_mode.InType name types) token result }
{
    match types.step(alloc, token) {
        Ok(types) => Ok(Parser {
            around,
            mode: Mode::InType { name, types },
        }),
        Err(TypeStop::Memory) => Err(Stop::Memory),
        Err(TypeStop::Refused) => Err(Stop::Refused),
        Err(TypeStop::Ended { parts, symbol, .. }) => type_ended(
            alloc, around, name, parts, symbol,
        ),
    }
}

/// Takes the symbol after a type, which must be a semicolon.
fn type_ended(
    alloc: Global,
    around: Around,
    name: Ident,
    parts: Seq<TypePart>,
    symbol: Symbol,
) -> Result<Parser, Stop>
    ensures { EndSteps (AfterType around.done around.nets name parts) symbol result }
{
    if symbol != Symbol::Semicolon {
        return Err(Stop::Refused);
    }
    let at = name.at;
    around.finish(alloc, at, leaf(Decl::TypeDecl { name, parts }))
}

/// Takes the `=` after the name of a type signature.
pub fn sig_assign(
    alloc: Global,
    around: Around,
    name: Ident,
    token: Terminal,
) -> Result<Parser, Stop>
    ensures { StepsIn around (some_mode.SigAssign name) token result }
{
    let Some(_) = symbol_at(token, Symbol::Assign) else {
        return Err(Stop::Refused);
    };
    Ok(Parser {
        around,
        mode: Mode::InSig {
            name,
            sig: SigParser::start(alloc),
        },
    })
}

/// Takes a token of a type signature.
pub fn in_sig(
    alloc: Global,
    around: Around,
    name: Ident,
    sig: SigParser,
    token: Terminal,
) -> Result<Parser, Stop>
    ensures { StepsIn around (some_mode.InSig name sig) token result }
{
    match sig.step(alloc, token) {
        Ok(sig) => Ok(Parser {
            around,
            mode: Mode::InSig { name, sig },
        }),
        Err(SigStop::Memory) => Err(Stop::Memory),
        Err(SigStop::Refused) => Err(Stop::Refused),
        Err(SigStop::Ended { sig, symbol, .. }) => sig_ended(alloc, around, name, sig, symbol),
    }
}

/// Takes the symbol after a type signature, which must be a semicolon.
fn sig_ended(
    alloc: Global,
    around: Around,
    name: Ident,
    sig: Sig,
    symbol: Symbol,
) -> Result<Parser, Stop>
    ensures { EndSteps (AfterTypeSig around.done around.nets name sig) symbol result }
{
    if symbol != Symbol::Semicolon {
        return Err(Stop::Refused);
    }
    let at = name.at;
    around.finish(alloc, at, leaf(Decl::SigDecl { name, sig }))
}

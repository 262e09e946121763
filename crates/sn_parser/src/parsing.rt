ghost use Rattle.std.specs.Prelude.{◌≡◌, ◌≢◌, ◌≤◌, ◌⊎◌, List, length, MatchResult};
ghost use Rattle.sn_ast.specs.declared.declaration.Program.{Program as SomeProgram};
ghost use Rattle.sn_ast.specs.declared.terminal.Terminal.{Terminal as SomeTerminal};
ghost use Rattle.sn_lexer.specs.Placed.{ArePlaced, IsPlaced, spelling};
ghost use Rattle.sn_parser.specs.Answer.{Faults, Spell};
ghost use Rattle.sn_parser.specs.Whole.{Goes, IsAnswer, Reads, WholeOf};
ghost use Rattle.sn_ast.specs.declared.fault.ParseFault.{ParseFault as SomeFault};
ghost use Rattle.sn_ast.specs.declared.fault.ParseFault.TheVariants as some_fault;
ghost use Rattle.sn_terminal.specs.Words.{Say, Says};

use crate::machine::{Outermost, Parser, Stop};
use sn_ast::{ParseFault, Program, Seq};
use sn_lexer::Token;
use sn_terminal::terminal;
use std::alloc::Global;

/// Goes on with a token of the source.
fn next(alloc: Global, source: &[u8], parser: Parser, token: Token) -> Result<Parser, ParseFault>
    requires { IsPlaced source.now token }
    ensures { (x : SomeTerminal) → Says token.kind (spelling source.now token) token.start x → Goes parser x result }
{
    let said = terminal(alloc, source, token)?;
    match parser.step(alloc, said) {
        Ok(parser) => Ok(parser),
        Err(Stop::Memory) => Err(ParseFault::Memory),
        Err(Stop::Refused) => Err(ParseFault::Unexpected(token.start)),
    }
}

/// The declarations of the outermost scope, each as it is kept within the limits.
fn declarations(
    alloc: Global,
    source: &[u8],
    tokens: &[Token],
) -> Result<Seq<Outermost>, ParseFault>
    requires size { length source.now ≤ 1048576 }
    requires placed { ArePlaced source.now 0 tokens.now }
    ensures { (xs : List SomeTerminal) → Say source.now tokens.now xs → Reads (length source.now) xs result }
{
    let mut parser = Parser::start(alloc);
    for token in tokens {
        parser = next(alloc, source, parser, *token)?;
    }
    match parser.end() {
        Some(decls) => Ok(decls),
        None => Err(ParseFault::Unexpected(source.len() as u32)),
    }
}

/// The program of the declarations, or the place of the first that passes a limit.
fn whole(alloc: Global, decls: Seq<Outermost>) -> Result<Program, ParseFault>
    ensures { WholeOf decls result }
{
    let mut whole = Seq::new(alloc);
    for part in decls.into_vec() {
        let (at, decl) = part;
        let Some(decl) = decl else {
            return Err(ParseFault::TooDeep(at));
        };
        let (decl, _) = decl.into_parts();
        sn_stack::append(&mut whole, decl)?;
    }
    Ok(Program { decls: whole })
}

fn parsed(alloc: Global, source: &[u8], tokens: &[Token]) -> Result<Program, ParseFault>
    requires size { length source.now ≤ 1048576 }
    requires placed { ArePlaced source.now 0 tokens.now }
    ensures { (xs : List SomeTerminal) → Say source.now tokens.now xs → IsAnswer (length source.now) xs result }
{
    let decls = declarations(alloc, source, tokens)?;
    whole(alloc, decls)
}

/// The program that the tokens of a source spell. Where they spell none, the refusal is `Unexpected`, whatever the limits;
/// where they spell one that passes a limit, it is `TooDeep`.
pub fn parse(alloc: Global, source: &[u8], tokens: &[Token]) -> Result<Program, ParseFault>
    requires size { length source.now ≤ 1048576 }
    requires placed { ArePlaced source.now 0 tokens.now }

    // What is answered is right.
    ensures answer { MatchResult result (Spell source.now tokens.now) (Faults source.now tokens.now) }

    // What is right is answered, unless memory is wanted.
    ensures program { (program : SomeProgram) → Spell source.now tokens.now program →
        MatchResult result (λ found. found ≡ program) (λ fault. fault ≡ some_fault.Memory) }
    ensures refused { (fault : SomeFault) → fault ≢ some_fault.Memory → Faults source.now tokens.now fault →
        MatchResult result (λ _. ⊥) (λ found. (found ≡ fault) ⊎ (found ≡ some_fault.Memory)) }
{
    parsed(alloc, source, tokens)
}

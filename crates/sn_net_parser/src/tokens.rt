//! What a token is, where nothing more is wanted of it. Each takes the token: a caller that has it at several exits would
//! be proved over each form of it at each of them.
ghost use Rattle.std.specs.Prelude.{◌≡◌, ℕ, MatchOption};
ghost use Rattle.sn_ast.specs.declared.terminal.Terminal.TheVariants as some_token;

use sn_ast::{Symbol, Terminal};

/// The token's place, if it is this symbol.
pub fn symbol_at(token: Terminal, symbol: Symbol) -> Option<u32>
    ensures { MatchOption result ((at : ℕ) → token ≡ some_token.Symbol symbol at → ⊥) (λ at. token ≡ some_token.Symbol symbol at) }
{
    token.symbol_at(symbol)
}

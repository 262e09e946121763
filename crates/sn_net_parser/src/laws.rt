//! Laws of the parser, each as the contract of a function that does nothing.
ghost use Rattle.std.specs.Prelude.{List, [], ◌∷◌, ℕ};
ghost use Rattle.sn_ast.specs.Kept.{Kept as SomeKept};
ghost use Rattle.sn_ast.specs.declared.network.NetExpr.{NetExpr as SomeNet};
ghost use Rattle.sn_ast.specs.declared.terminal.Symbol.TheVariants.{Semicolon};
ghost use Rattle.sn_ast.specs.declared.terminal.Terminal.{Terminal as SomeTerminal};
ghost use Rattle.sn_ast.specs.declared.terminal.Terminal.TheVariants.{Symbol};
ghost use Rattle.sn_net_parser.specs.Residual.{Completes, Read, read};
ghost use Rattle.sn_net_parser.specs.declared.machine.NetParser.{NetParser as SomeParser};

/// No state is complete without a further token, and each can be completed, whatever follows the semicolon.
pub fn goes_on_to_the_end()
    ensures never_at_end { (s : SomeParser) (t : Read) → Completes s [] t → ⊥ }
    ensures completable { (s : SomeParser) (at : ℕ) (us : List SomeTerminal) → (w : List SomeTerminal) × (n : SomeKept SomeNet) × Completes s w (read n (Symbol Semicolon at ∷ us)) }
{}

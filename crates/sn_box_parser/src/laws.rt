//! Laws of the parser, each as the contract of a function that does nothing.
ghost use Rattle.std.specs.Prelude.{List, []};
ghost use Rattle.sn_ast.specs.Kept.{Kept as SomeKept};
ghost use Rattle.sn_ast.specs.declared.declaration.Decl.{Decl as SomeDecl};
ghost use Rattle.sn_ast.specs.declared.terminal.Terminal.{Terminal as SomeTerminal};
ghost use Rattle.sn_box_parser.specs.BoxDeclResidual.{Completes, Read, read};
ghost use Rattle.sn_box_parser.specs.declared.machine.BoxDeclParser.{BoxDeclParser as SomeParser};

/// No state is complete without a further token, and each can be completed, whatever follows.
pub fn goes_on_to_the_end()
    ensures never_at_end { (s : SomeParser) (t : Read) → Completes s [] t → ⊥ }
    ensures completable { (s : SomeParser) (us : List SomeTerminal) → (w : List SomeTerminal) × (d : SomeKept SomeDecl) × Completes s w (read d us) }
{}

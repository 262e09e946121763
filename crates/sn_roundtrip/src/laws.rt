//! Laws of the canonical text, each as the contract of a function that does nothing.
ghost use Rattle.std.specs.Prelude.{ℕ, List};
ghost use Rattle.sn_ast.specs.declared.declaration.Program.{Program as SomeProgram};
ghost use Rattle.sn_ast.specs.declared.terminal.Terminal.{Terminal as SomeTerminal};
ghost use Rattle.sn_lexer.specs.Answer.{LexesAs};
ghost use Rattle.sn_lexer.specs.declared.token.Token.{Token as SomeToken};
ghost use Rattle.sn_parser.specs.Answer.{IsProgram, Spell};
ghost use Rattle.sn_roundtrip.specs.ReadsBack.{ReadsBack};
ghost use Rattle.sn_roundtrip.specs.Words.{AreWords};

/// The canonical text of each program that some well-formed terminals spell within the limits spells the program again,
/// apart from places, within the limits. So does that of each program that the tokens of some source spell.
pub fn canonical_text_reads_back()
    ensures words { (said : List SomeTerminal) (program : SomeProgram) → AreWords said → IsProgram said program → ReadsBack program }
    ensures source { (source : List ℕ) (tokens : List SomeToken) (program : SomeProgram) → LexesAs source tokens → Spell source tokens program → ReadsBack program }
{}

//! Laws of the grammar, each as the contract of a function that does nothing.
ghost use Rattle.std.specs.Prelude.{◌≡◌, ◌↔◌, ℕ, List, Some};
ghost use Rattle.sn_ast.specs.Declarations.{Declarations};
ghost use Rattle.sn_ast.specs.Kept.{Kept, keep, keep_all, kept};
ghost use Rattle.sn_ast.specs.Measures.{IsWithin, measured};
ghost use Rattle.sn_ast.specs.declared.declaration.Decl.{Decl as SomeDecl};
ghost use Rattle.sn_ast.specs.declared.measure.Measured.{Measured as SomePart};
ghost use Rattle.sn_ast.specs.declared.terminal.Terminal.{Terminal as SomeTerminal};

/// A part is kept exactly where it is within the limits, and as it is.
pub fn keeping_is_exact()
    ensures { (part kept_part : SomePart SomeDecl) → (keep part ≡ Some kept_part) ↔ (IsWithin part × (part ≡ kept_part)) }
{}

/// The grammar gives the same declarations whether they are measured whole or only kept within the limits: what the
/// tokens spell as kept is what is kept of the declarations that they spell.
pub fn same_declarations()
    ensures kept { (so_far all : List (ℕ × SomePart SomeDecl)) (tokens : List SomeTerminal) → Declarations measured so_far tokens all → Declarations kept (keep_all so_far) tokens (keep_all all) }
    ensures whole { (so_far : List (ℕ × SomePart SomeDecl)) (all : List (ℕ × Kept SomeDecl)) (tokens : List SomeTerminal) → Declarations kept (keep_all so_far) tokens all → (decls : List (ℕ × SomePart SomeDecl)) × Declarations measured so_far tokens decls × (keep_all decls ≡ all) }
{}

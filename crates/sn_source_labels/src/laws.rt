//! Which labels the names of a source know, as contracts of functions that do nothing.
ghost use Rattle.std.specs.Prelude.{◌≡◌, ℕ, slice_get, Ok, Some};
ghost use Rattle.sn_ast.specs.declared.declaration.Program.{Program as SomeProgram};
ghost use Rattle.sn_net.specs.declared.net.Claim.{Claim as SomeClaim};
ghost use Rattle.sn_pieces.specs.Known.{is_known};
ghost use Rattle.sn_scope.specs.Resolution.{resolution};
ghost use Rattle.sn_scope.specs.declared.resolved.Parts.{Parts as SomeParts};
ghost use Rattle.sn_stream_labels.specs.Known.{Knows};

/// The names of a program that is resolved know each label of its boxes, and of the network of each of its claims.
pub fn names_know_labels()
    ensures { (program : SomeProgram) (parts : SomeParts) (k : ℕ) (claim : SomeClaim) → resolution program ≡ Ok parts → slice_get parts.claims k ≡ Some claim
        → Knows (is_known parts.names) parts.boxes claim.net }
{}

//! The laws of scope, as the contracts of functions that do nothing.
ghost use Rattle.std.specs.Prelude.{[], length, slice_get, ◌∷◌, ◌≡◌, ◌≢◌, ◌↔◌, Err, List, Ok, Some, option_map, ℕ};
ghost use Rattle.sn_ast.specs.declared.declaration.BoxDecl.{BoxDecl as SomeBox};
ghost use Rattle.sn_ast.specs.declared.declaration.Decl.{Decl as SomeDecl};
ghost use Rattle.sn_ast.specs.declared.declaration.Decl.TheOpen.{Decl-F};
ghost use Rattle.sn_ast.specs.declared.declaration.Decl.TheViews.{out-Decl, out-NetDecl};
ghost use Rattle.sn_ast.specs.declared.declaration.NetDecl.{NetDecl as SomeNet};
ghost use Rattle.sn_ast.specs.declared.declaration.Program.{Program as SomeProgram};
ghost use Rattle.sn_ast.specs.declared.label.Sig.{Sig as SomeSig};
ghost use Rattle.sn_ast.specs.declared.network.NetExpr.{NetExpr as SomeNetwork};
ghost use Rattle.sn_box_scope.specs.Boxes.{box_at};
ghost use Rattle.sn_label_scope.specs.declared.fault.ScopeFault.TheVariants.{NoMain, TooLarge, TooManyNames};
ghost use Rattle.sn_label_scope.specs.declared.refusal.Refusal.{Refusal as SomeRefusal};
ghost use Rattle.sn_names.specs.Names.{all_entered};
ghost use Rattle.sn_net.specs.declared.expr.BoxProgram.{BoxProgram as SomeProgramOfBox};
ghost use Rattle.sn_net.specs.declared.net.Net.{Net as SomeTree};
ghost use Rattle.sn_record.specs.LabelSet.{Labels};
ghost use Rattle.sn_scope.specs.Networks.{network_at, network_required};
ghost use Rattle.sn_scope.specs.Numbering.{after_network, names_of};
ghost use Rattle.sn_scope.specs.Resolution.{fault_at, resolution};
ghost use Rattle.sn_scope.specs.declared.resolved.Parts.{Parts as SomeParts};
ghost use Rattle.sn_scope.specs.declared.scopes.Scopes.{Scopes as SomeScopes};
ghost use Rattle.sn_scope_rules.specs.Declared.{StandsAt, boxes_before};
ghost use Rattle.sn_scope_rules.specs.Named.{in_program};
ghost use Rattle.sn_scope_rules.specs.Placements.{without_placements};
ghost use Rattle.sn_scope_rules.specs.Programs.{ProgramBreaks};
ghost use Rattle.sn_scope_rules.specs.Refusals.{IsFirst};
ghost use Rattle.sn_scope_rules.specs.Results.{HasLongSeriesIn, HasNoMain, HasTooLarge, HasTooManyNames, IsResolved, IsWhole, Unbroken, boxes_of};
ghost use Rattle.sn_scope_rules.specs.Trees.{TreeOf};
ghost use Rattle.sn_scope_rules.specs.Types.{SignatureOf};
ghost use Rattle.sn_scope_rules.specs.Visible.{Around, found_at, stands_for};

/// A program is refused for a reason at a place exactly where it breaks that rule there and breaks none that comes before, and
/// for none of these reasons exactly where it breaks no rule.
pub fn resolution_refuses_the_least()
    ensures refused { (program : SomeProgram) (refusal : SomeRefusal) → (resolution program ≡ Err (fault_at refusal.reason refusal.at)) ↔ IsFirst (ProgramBreaks program) refusal }
    ensures unrefused { (program : SomeProgram) → ((refusal : SomeRefusal) → resolution program ≢ Err (fault_at refusal.reason refusal.at)) ↔ ((refusal : SomeRefusal) → ProgramBreaks program refusal → ⊥) }
{}

/// A name is found to be the declaration that it stands for, beside which it is told which declarations stand before that one.
pub fn names_find_what_they_stand_for()
    ensures stands { (around : Around) (name : List ℕ) → option_map (λ found. found.0) (found_at around name) ≡ stands_for around name }
{}

/// A program is resolved to its boxes in the order of their places and to a claim for each net with a signature, in the order of
/// the nets' names: the tree of the net's network where it stands, and the types of its signature. That of the outermost net
/// `main` is the program's. Nothing else is given, and this wherever it is so.
pub fn resolution_gives_what_is_declared()
    ensures resolved { (program : SomeProgram) (parts : SomeParts) → (resolution program ≡ Ok parts) ↔ IsResolved program parts }
{}

/// A program that breaks no rule is refused exactly where no outermost net `main` has a signature, or else where its labels have
/// too many names, or else for the first tree that is too large. It is resolved exactly where none of this is so.
pub fn resolution_keeps_its_limits()
    ensures no_main { (program : SomeProgram) → (resolution program ≡ Err NoMain) ↔ HasNoMain program }
    ensures too_many_names { (program : SomeProgram) → (resolution program ≡ Err TooManyNames) ↔ HasTooManyNames program }
    ensures too_large { (program : SomeProgram) (at : ℕ) → (resolution program ≡ Err (TooLarge at)) ↔ HasTooLarge program at }
    ensures whole { (program : SomeProgram) → ((parts : SomeParts) × (resolution program ≡ Ok parts)) ↔ IsWhole program }
{}

/// The names of a program are those of its labels, each once: they are entered one after another, from the first place to the
/// last.
pub fn names_are_those_of_labels()
    ensures names { (program : SomeProgram) → names_of program ≡ all_entered [] (in_program program) }
{}

/// What a name in a net's network is found to be is a declaration of the program, behind those that stand before it there. The
/// number of a box, which is how many boxes stand before it, is that of its own declaration among the boxes of the program.
pub fn calls_are_of_the_boxes_that_names_stand_for()
    ensures found { (program : SomeProgram) (around there : Around) (decl found : SomeDecl) (net : SomeNet) (name : List ℕ) → StandsAt program around decl → out-Decl decl ≡ Decl-F.NetDecl net → found_at ((out-NetDecl net).decls ∷ around) name ≡ Some (found, there) → StandsAt program there found }
    ensures numbered { (program : SomeProgram) (around : Around) (decl : SomeDecl) (declaration : SomeBox) → StandsAt program around decl → out-Decl decl ≡ Decl-F.BoxDecl declaration → slice_get (boxes_of program) (length (boxes_before around)) ≡ Some (box_at (names_of program) declaration) }
{}

/// A network where it stands is one tree at most, and a signature has one input and one output at most.
pub fn what_stands_is_one_thing()
    ensures tree { (names : List (List ℕ)) (boxes : List SomeProgramOfBox) (around : Around) (network : SomeNetwork) (one other : SomeTree) → TreeOf names boxes around network one → TreeOf names boxes around network other → one ≡ other }
    ensures types { (names : List (List ℕ)) (around : Around) (sig : SomeSig) (input output other_input other_output : List Labels) → SignatureOf names around sig input output → SignatureOf names around sig other_input other_output → (input ≡ other_input) × (output ≡ other_output) }
{}

/// Where no rule is broken, and each series has two parts or more, as each that tokens spell has, the network of each net of the
/// program is a tree.
pub fn unbroken_nets_are_trees()
    ensures tree { (names : List (List ℕ)) (boxes : List SomeProgramOfBox) (program : SomeProgram) → Unbroken program → HasLongSeriesIn program → (around : Around) (decl : SomeDecl) (net : SomeNet) → StandsAt program around decl → out-Decl decl ≡ Decl-F.NetDecl net → (tree : SomeTree) × TreeOf names boxes ((out-NetDecl net).decls ∷ around) (out-NetDecl net).connect tree }
{}

/// Where the parts of a network run changes nothing of what it is: its labels are numbered, it is resolved, and it is refused as
/// the same network without its placements.
pub fn placements_change_nothing()
    ensures labels { (names : List (List ℕ)) (network : SomeNetwork) → after_network (without_placements network) names ≡ after_network network names }
    ensures network { (names : List (List ℕ)) (scopes : SomeScopes) (network : SomeNetwork) → network_at names scopes (without_placements network) ≡ network_at names scopes network }
    ensures refused { (names : List (List ℕ)) (scopes : SomeScopes) (network : SomeNetwork) → network_required names scopes (without_placements network) ≡ network_required names scopes network }
{}

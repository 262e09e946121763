//! What follows from the definitions, as contracts of functions that do nothing.
ghost use Rattle.std.specs.Prelude.{◌≡◌, ◌↔◌, ℕ, Bool, List, Option, map, slice_get};
ghost use Rattle.std.specs.List.{Contains};
ghost use Rattle.sn_record.specs.LabelSet.{Labels};
ghost use Rattle.sn_record.specs.Fits.{Fits};
ghost use Rattle.sn_record.specs.Record.{Entries, Matches};
ghost use Rattle.sn_tagexpr.specs.declared.expr.TagExpr.{TagExpr};
ghost use Rattle.sn_net.specs.declared.expr.BoxProgram.{BoxProgram};
ghost use Rattle.sn_net.specs.declared.filter.Filter.{Filter};
ghost use Rattle.sn_net.specs.declared.net.Claim.{Claim};
ghost use Rattle.sn_net.specs.declared.net.Merge.{Merge};
ghost use Rattle.sn_net.specs.declared.net.Net.{Net};
ghost use Rattle.sn_net.specs.declared.net.Net.TheVariants as form;
ghost use Rattle.sn_net.specs.Item.{Rec};
ghost use Rattle.sn_typing.specs.Outline.{Outline, Choice, Series, Split, Star, box_outline, branch_of, cell_outline, filter_outline, is_guarded, outline};
ghost use Rattle.sn_typing.specs.Flow.{Below, Flows, IsClosedSet, IsRouted, Safe};
ghost use Rattle.sn_types.specs.Subsets.{IsUnbound};
ghost use Rattle.sn_typing.specs.Reached.{Reached, Turn};
ghost use Rattle.sn_typing.specs.Subsets as plain;
ghost use Rattle.sn_typing.specs.Subsets.{NamesNone};
ghost use Rattle.sn_typing.specs.Accepted.{IsAccepted};
ghost use Rattle.sn_typing.specs.Typed.{IsTyped};

/// The outline of each form of network, by the outlines of its parts.
pub fn outlines_of_forms()
    ensures of_box { (boxes : List BoxProgram) (place number : ℕ) → outline boxes (form.Box place number) ≡ box_outline place (slice_get boxes number) }
    ensures of_filter { (boxes : List BoxProgram) (filter : Filter) → outline boxes (form.Filter filter) ≡ filter_outline filter }
    ensures of_sync { (boxes : List BoxProgram) (place : ℕ) (patterns : List Labels) → outline boxes (form.Sync place patterns) ≡ cell_outline place patterns }
    ensures of_serial { (boxes : List BoxProgram) (left right : Net) → outline boxes (form.Serial left right) ≡ Series (outline boxes left) (outline boxes right) }
    ensures of_choice { (boxes : List BoxProgram) (place : ℕ) (merge : Merge) (branches : List Net) (faces : List (List Labels)) → outline boxes (form.Choice place merge branches faces) ≡ Choice place faces (branch_of (map (outline boxes) branches)) }
    ensures of_star { (boxes : List BoxProgram) (place : ℕ) (merge : Merge) (body : Net) (exit : Labels) (guard : Option TagExpr) → outline boxes (form.Star place merge body exit guard) ≡ Star exit (is_guarded guard) (outline boxes body) }
    ensures of_split { (boxes : List BoxProgram) (place : ℕ) (merge : Merge) (body : Net) (id : ℕ) → outline boxes (form.Split place merge body id) ≡ Split place id (outline boxes body) }
{}

/// Where a network is safe for a variant, it is safe for one that the first fits, which has more labels but no more binding tags, and
/// each variant that comes out for that is fitted by one that comes out for the first.
pub fn more_labels()
    ensures safe { (net : Outline) (v w : Labels) → Safe net v → Fits v w → Safe net w }
    ensures flows { (net : Outline) (v w u : Labels) → Safe net v → Fits v w → Flows net w u → Below (Flows net v) u }
{}

/// Where a network is safe for a variant, each record that matches it is typed for the network.
pub fn matching_records_are_typed()
    ensures { (boxes : List BoxProgram) (net : Net) (v : Labels) (r : Entries) → Safe (outline boxes net) v → Matches r v → IsTyped boxes net (Rec r) }
{}

/// A network is safe for a variant exactly where each part that is reached from them has a route for what reaches it.
pub fn safe_where_all_are_routed()
    ensures { (net : Outline) (v : Labels) → Safe net v ↔ ((way : List Turn) (part : Outline) (u : Labels) → Reached net v way part u → IsRouted part u) }
{}

/// A star is safe for a variant where there is a finite set that is closed.
pub fn closed_sets_make_safe()
    ensures { (exit : Labels) (guarded : Bool) (body : Outline) (v : Labels) (members : List Labels) → IsClosedSet exit guarded body v members → Safe (Star exit guarded body) v }
{}

/// Where a star is safe for a variant, there is such a set: the labels of a network are finitely many.
pub fn safe_stars_have_closed_sets()
    ensures { (exit : Labels) (guarded : Bool) (body : Outline) (v : Labels) → Safe (Star exit guarded body) v → (members : List Labels) × IsClosedSet exit guarded body v members }
{}

/// Where no label is a binding tag, what flows out of a network, whether it is safe, and whether a claim is accepted are told by
/// subsets alone.
pub fn without_binding_tags()
    ensures flows { (net : Outline) (v u : Labels) → NamesNone net → IsUnbound v → Flows net v u ↔ plain.Flows net v u }
    ensures safe { (net : Outline) (v : Labels) → NamesNone net → IsUnbound v → Safe net v ↔ plain.Safe net v }
    ensures accepted { (boxes : List BoxProgram) (claim : Claim) → NamesNone (outline boxes claim.net) → ((v : Labels) → Contains claim.input v → IsUnbound v)
        → IsAccepted boxes claim ↔ plain.IsAccepted boxes claim }
{}

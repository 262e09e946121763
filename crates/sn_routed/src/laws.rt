//! What follows from the definitions, as contracts of functions that do nothing.
ghost use Rattle.std.specs.Prelude.{◌≡◌, ℕ, ℤ, suc, true, false, is_some, slice_get, List, [], ◌∷◌, ◌++◌, Option, Some};
ghost use Rattle.std.specs.List.{Contains};
ghost use Rattle.std.specs.Option.{option_and_then};
ghost use Rattle.sn_record.specs.LabelSet.{Labels};
ghost use Rattle.sn_record.specs.Record.{Entries, Matches};
ghost use Rattle.sn_streams.specs.Keys.{Branch, Inside, Value};
ghost use Rattle.sn_streams.specs.Machines.{Machine, after};
ghost use Rattle.sn_streams.specs.Segments.{Segments};
ghost use Rattle.sn_streams.specs.Trees.{Component, Series};
ghost use Rattle.sn_tagexpr.specs.declared.expr.TagExpr.{TagExpr};
ghost use Rattle.sn_histories.specs.Entries.{Entry, Item};
ghost use Rattle.sn_histories.specs.Histories.{In, Port};
ghost use Rattle.sn_histories.specs.Sites.{Into, Left, Right, Step};
ghost use Rattle.sn_net.specs.declared.expr.BoxProgram.{BoxProgram};
ghost use Rattle.sn_net.specs.declared.filter.Filter.{Filter};
ghost use Rattle.sn_net.specs.declared.net.Merge.{Merge};
ghost use Rattle.sn_net.specs.declared.routing.Key.TheVariants as key;
ghost use Rattle.sn_net.specs.Cell.{CellState, new_cell};
ghost use Rattle.sn_net.specs.Dispatchers.{Network, choice, level, level_key, split};
ghost use Rattle.sn_net.specs.Face.{variant_of};
ghost use Rattle.sn_net.specs.Item.{ModelItem, Rec, holds_stuck};
ghost use Rattle.sn_net.specs.Route.{choice_key, of_record, split_key};
ghost use Rattle.sn_net.specs.declared.net.Net.{Net};
ghost use Rattle.sn_net.specs.declared.net.Net.TheVariants as form;
ghost use Rattle.sn_model.specs.declared.run.Run.{Run};
ghost use Rattle.sn_model.specs.Components.{alone, box_item, cell, filter_item};
ghost use Rattle.sn_model.specs.Run.{setting_of};
ghost use Rattle.sn_typing.specs.Typed.{MatchesOne};
ghost use Rattle.sn_net_histories.specs.Histories.{IsAtRun, Spot, Whole, history, leads_somewhere, tree_of};
ghost use Rattle.sn_routed.specs.Routed.{has_stuck, items_in};
ghost use Rattle.sn_routed.specs.Spots.{from_level, spot_at, spot_behind};

/// No record lacks a route at any place of a run.
pub fn no_record_lacks_a_route_at_a_place()
    ensures { (run : Run) (steps : List Step) (port : Port) → has_stuck (history run steps port) ≡ false }
{}

/// What a component answers to an item that comes to it, in the state after those before, is not stuck.
pub fn what_comes_has_a_route()
    ensures { (run : Run) (steps : List Step) (m : Machine ModelItem CellState) (start : CellState)
        (xss : Segments ModelItem) (before behind : List (Entry ModelItem)) (x : ModelItem) →
        IsAtRun run steps (record { part = Component m start; seg = xss }) → history run steps In ≡ before ++ (Item x ∷ behind) →
        holds_stuck (m.emits (after m start (items_in before)) x) ≡ false }
{}

/// A record that comes to a box, which is there, matches its input; one that comes to a filter matches its pattern, and one that comes
/// to a synchrocell matches one of its patterns.
pub fn records_match_where_they_come()
    ensures of_box { (run : Run) (steps : List Step) (boxes : List BoxProgram) (fuel place number : ℕ)
        (xss : Segments ModelItem) (before behind : List (Entry ModelItem)) (r : Entries) →
        IsAtRun run steps (record { part = alone (box_item boxes fuel place number); seg = xss }) → history run steps In ≡ before ++ (Item (Rec r) ∷ behind) →
        (program : BoxProgram) × (slice_get boxes number ≡ Some program) × Matches r (variant_of program.input) }
    ensures of_filter { (run : Run) (steps : List Step) (filter : Filter)
        (xss : Segments ModelItem) (before behind : List (Entry ModelItem)) (r : Entries) →
        IsAtRun run steps (record { part = alone (filter_item filter); seg = xss }) → history run steps In ≡ before ++ (Item (Rec r) ∷ behind) →
        Matches r filter.pattern }
    ensures of_cell { (run : Run) (steps : List Step) (place : ℕ) (patterns : List Labels)
        (xss : Segments ModelItem) (before behind : List (Entry ModelItem)) (r : Entries) →
        IsAtRun run steps (record { part = Component (cell place patterns) (new_cell patterns); seg = xss }) → history run steps In ≡ before ++ (Item (Rec r) ∷ behind) →
        MatchesOne (Contains patterns) r }
{}

/// An item that comes to a choice, to a level of a star or to a split never has the key of one without a route.
pub fn items_have_keys()
    ensures of_choice { (run : Run) (steps : List Step) (place : ℕ) (m : Merge) (faces : List (List Labels)) (branches : List Network)
        (xss : Segments ModelItem) (before behind : List (Entry ModelItem)) (x : ModelItem) →
        IsAtRun run steps (record { part = choice place m faces branches; seg = xss }) → history run steps In ≡ before ++ (Item x ∷ behind) →
        of_record (choice_key faces) x ≡ key.Stuck → ⊥ }
    ensures of_level { (run : Run) (steps : List Step) (place : ℕ) (m : Merge) (exit : Labels) (guard : Option TagExpr) (body : Network) (left : ℕ)
        (xss : Segments ModelItem) (before behind : List (Entry ModelItem)) (x : ModelItem) →
        IsAtRun run steps (record { part = level place m exit guard body left; seg = xss }) → history run steps In ≡ before ++ (Item x ∷ behind) →
        of_record (level_key place exit guard left) x ≡ key.Stuck → ⊥ }
    ensures of_split { (run : Run) (steps : List Step) (place : ℕ) (m : Merge) (id : ℕ) (body : Network)
        (xss : Segments ModelItem) (before behind : List (Entry ModelItem)) (x : ModelItem) →
        IsAtRun run steps (record { part = split place m id body; seg = xss }) → history run steps In ≡ before ++ (Item x ∷ behind) →
        of_record (split_key id) x ≡ key.Stuck → ⊥ }
{}

/// Steps lead somewhere just where they reach a spot, and what stands at the spot is what they reach in the tree. Further steps go on
/// from there.
pub fn what_stands_at_steps()
    ensures leads { (depth : ℕ) (net : Net) (steps : List Step) → leads_somewhere depth net steps ≡ is_some (spot_at depth (Whole net) steps) }
    ensures reached { (run : Run) (steps : List Step) (spot : Spot) → spot_at run.depth (Whole run.net) steps ≡ Some spot →
        (xss : Segments ModelItem) × IsAtRun run steps (record { part = tree_of (setting_of run) spot; seg = xss }) }
    ensures further { (depth : ℕ) (spot : Spot) (steps more : List Step) →
        spot_at depth spot (steps ++ more) ≡ option_and_then (λ next. spot_at depth next more) (spot_at depth spot steps) }
{}

/// The spots one step behind a network of each form.
pub fn spots_of_forms()
    ensures left { (depth : ℕ) (a b : Net) → spot_behind depth (Whole (form.Serial a b)) Left ≡ Some (Whole a) }
    ensures right { (depth : ℕ) (a b : Net) → spot_behind depth (Whole (form.Serial a b)) Right ≡ Some (Whole b) }
    ensures branch { (depth : ℕ) (place : ℕ) (m : Merge) (branches : List Net) (faces : List (List Labels)) (i : ℕ) (net : Net) →
        slice_get branches i ≡ Some net → spot_behind depth (Whole (form.Choice place m branches faces)) (Into (Branch i)) ≡ Some (Whole net) }
    ensures inside { (depth : ℕ) (place : ℕ) (m : Merge) (body : Net) (exit : Labels) (guard : Option TagExpr) →
        spot_behind depth (Whole (form.Star place m body exit guard)) (Into Inside) ≡ from_level place m exit guard body depth (Into Inside) }
    ensures replica { (depth : ℕ) (place : ℕ) (m : Merge) (body : Net) (id : ℕ) (n : ℤ) →
        spot_behind depth (Whole (form.Split place m body id)) (Into (Value n)) ≡ Some (Whole body) }
{}

/// Steps that lead somewhere lead on: to both parts of a series, to the branch that a choice sends an item to, into a level of a star
/// that has replicas left, and to each replica of a split. Without the item, a tree doesn't tell how many branches the choice has, since
/// a branch that lets items pass as the choice itself does may stand behind the last.
pub fn steps_lead_on()
    ensures left { (run : Run) (steps : List Step) (a b : Network) (xss : Segments ModelItem) → leads_somewhere run.depth run.net steps ≡ true →
        IsAtRun run steps (record { part = Series a b; seg = xss }) → leads_somewhere run.depth run.net (steps ++ (Left ∷ [])) ≡ true }
    ensures right { (run : Run) (steps : List Step) (a b : Network) (xss : Segments ModelItem) → leads_somewhere run.depth run.net steps ≡ true →
        IsAtRun run steps (record { part = Series a b; seg = xss }) → leads_somewhere run.depth run.net (steps ++ (Right ∷ [])) ≡ true }
    ensures branch { (run : Run) (steps : List Step) (place : ℕ) (m : Merge) (faces : List (List Labels)) (branches : List Network) (i : ℕ) (x : ModelItem) (xss : Segments ModelItem) →
        of_record (choice_key faces) x ≡ key.Branch i → leads_somewhere run.depth run.net steps ≡ true →
        IsAtRun run steps (record { part = choice place m faces branches; seg = xss }) → leads_somewhere run.depth run.net (steps ++ (Into (Branch i) ∷ [])) ≡ true }
    ensures inside { (run : Run) (steps : List Step) (place : ℕ) (m : Merge) (exit : Labels) (guard : Option TagExpr) (body : Network) (left : ℕ) (xss : Segments ModelItem) →
        leads_somewhere run.depth run.net steps ≡ true → IsAtRun run steps (record { part = level place m exit guard body (suc left); seg = xss }) →
        leads_somewhere run.depth run.net (steps ++ (Into Inside ∷ [])) ≡ true }
    ensures replica { (run : Run) (steps : List Step) (place : ℕ) (m : Merge) (id : ℕ) (body : Network) (n : ℤ) (xss : Segments ModelItem) →
        leads_somewhere run.depth run.net steps ≡ true → IsAtRun run steps (record { part = split place m id body; seg = xss }) →
        leads_somewhere run.depth run.net (steps ++ (Into (Value n) ∷ [])) ≡ true }
{}

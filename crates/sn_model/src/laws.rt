//! What follows from the definitions, as contracts of functions that do nothing.
ghost use Rattle.std.specs.Prelude.{◌≡◌, ◌↔◌, ℕ, IsTrue, List, [], ◌∷◌, ◌++◌, map, length, Option};
ghost use Rattle.std.specs.List.{flat_map};
ghost use Rattle.sn_record.specs.LabelSet.{Labels};
ghost use Rattle.sn_streams.specs.Forks.{InSeries};
ghost use Rattle.sn_streams.specs.Machines.{transduced};
ghost use Rattle.sn_streams.specs.OneByOne.{State, gives, next, rest, start};
ghost use Rattle.sn_streams.specs.Segments.{Segments, regrouped};
ghost use Rattle.sn_streams.specs.Trees.{Allows, Component, Series};
ghost use Rattle.sn_tagexpr.specs.declared.expr.TagExpr.{TagExpr};
ghost use Rattle.sn_net.specs.declared.filter.Filter.{Filter};
ghost use Rattle.sn_net.specs.declared.net.Merge.{Merge};
ghost use Rattle.sn_net.specs.declared.net.Merge.TheVariants.{Free};
ghost use Rattle.sn_net.specs.declared.net.Net.{Net};
ghost use Rattle.sn_net.specs.declared.net.Net.TheVariants as form;
ghost use Rattle.sn_net.specs.Cell.{new_cell};
ghost use Rattle.sn_net.specs.Dispatchers.{choice, level, split};
ghost use Rattle.sn_net.specs.Item.{ModelItem};
ghost use Rattle.sn_net.specs.Net.{all_deterministic};
ghost use Rattle.sn_net.specs.Route.{choice_key, split_key};
ghost use Rattle.sn_model.specs.Components.{alone, box_item, cell, filter_item};
ghost use Rattle.sn_model.specs.Meaning.{GoApart, MayAnswer, MayAnswerList, MayAnswerOccurring, Setting, one, one_list, tree};

/// The tree of each form of network, by the trees of its parts.
pub fn trees_of_forms()
    ensures of_box { (s : Setting) (place number : ℕ) → tree s (form.Box place number) ≡ alone (box_item s.boxes s.fuel place number) }
    ensures of_filter { (s : Setting) (filter : Filter) → tree s (form.Filter filter) ≡ alone (filter_item filter) }
    ensures of_sync { (s : Setting) (place : ℕ) (patterns : List Labels) → tree s (form.Sync place patterns) ≡ Component (cell place patterns) (new_cell patterns) }
    ensures of_serial { (s : Setting) (left right : Net) → tree s (form.Serial left right) ≡ Series (tree s left) (tree s right) }
    ensures of_choice { (s : Setting) (place : ℕ) (merge : Merge) (branches : List Net) (faces : List (List Labels)) → tree s (form.Choice place merge branches faces) ≡ choice place merge faces (map (tree s) branches) }
    ensures of_star { (s : Setting) (place : ℕ) (merge : Merge) (body : Net) (exit : Labels) (guard : Option TagExpr) → tree s (form.Star place merge body exit guard) ≡ level place merge exit guard (tree s body) s.depth }
    ensures of_split { (s : Setting) (place : ℕ) (merge : Merge) (body : Net) (id : ℕ) → tree s (form.Split place merge body id) ≡ split place merge id (tree s body) }
{}

/// A box or a filter answers each item of each segment, in order.
pub fn each_item_is_answered()
    ensures { (answer : ModelItem → List ModelItem) (xss yss : Segments ModelItem) → Allows (alone answer) xss yss ↔ (yss ≡ map (flat_map answer) xss) }
{}

/// What the left part of a network in series may answer flows into the right part.
pub fn parts_in_series()
    ensures { (s : Setting) (left right : Net) (xss yss : Segments ModelItem) → MayAnswer s (form.Serial left right) xss yss ↔ InSeries (MayAnswer s left) (MayAnswer s right) xss yss }
{}

/// Where segments of a stream are joined, an answer with the same segments joined is an answer.
pub fn regrouped_is_allowed()
    ensures { (s : Setting) (net : Net) (sizes : List ℕ) (xss yss : Segments ModelItem) → MayAnswer s net xss yss → MayAnswer s net (regrouped sizes xss) (regrouped sizes yss) }
{}

/// The one-thread meaning is one of the streams that a network may answer.
pub fn one_is_allowed()
    ensures stream { (s : Setting) (net : Net) (xss : Segments ModelItem) → MayAnswer s net xss (one s net xss) }
    ensures items { (s : Setting) (net : Net) (xs : List ModelItem) → MayAnswerList s net xs (one_list s net xs) }
{}

/// Where every choice, star and split merges in order, it is the only one.
pub fn one_is_only()
    ensures stream { (s : Setting) (net : Net) (xss yss : Segments ModelItem) → IsTrue (all_deterministic net) → MayAnswer s net xss yss → yss ≡ one s net xss }
    ensures items { (s : Setting) (net : Net) (xs ys : List ModelItem) → IsTrue (all_deterministic net) → MayAnswerList s net xs ys → ys ≡ one_list s net xs }
{}

/// An answer has as many segments as came in.
pub fn borders_are_kept()
    ensures { (s : Setting) (net : Net) (xss yss : Segments ModelItem) → MayAnswer s net xss yss → length yss ≡ length xss }
{}

/// A border behind the last item changes nothing.
pub fn last_border()
    ensures { (s : Setting) (net : Net) (xss yss : Segments ModelItem) → MayAnswer s net xss yss ↔ MayAnswer s net (xss ++ ([] ∷ [])) (yss ++ ([] ∷ [])) }
{}

/// It is the same to speak of the children of all keys and of those of the keys that occur.
pub fn occurring_keys()
    ensures { (s : Setting) (net : Net) (xss yss : Segments ModelItem) → MayAnswer s net xss yss ↔ MayAnswerOccurring s net xss yss }
{}

/// The one-thread meaning comes item by item: what the components keep then says what they still give.
pub fn one_item_at_a_time()
    ensures start { (s : Setting) (net : Net) (xs : List ModelItem) → one_list s net xs ≡ rest (tree s net) (start (tree s net)) xs }
    ensures item { (s : Setting) (net : Net) (state : State (tree s net)) (x : ModelItem) (xs : List ModelItem) →
        rest (tree s net) state (x ∷ xs) ≡ gives (tree s net) state x ++ rest (tree s net) (next (tree s net) state x) xs }
    ensures segments { (s : Setting) (net : Net) (xs : List ModelItem) → one s net (xs ∷ []) ≡ one_list s net xs ∷ [] }
{}

/// At a free choice or split, two neighbours with different keys may change places in the input: what the network may answer is
/// the same. So no order between them is promised.
pub fn neighbours_may_change_places()
    ensures choice { (s : Setting) (place : ℕ) (branches : List Net) (faces : List (List Labels)) (x y : ModelItem) (before behind : List ModelItem) (others yss : Segments ModelItem) →
        GoApart (choice_key faces) x y → MayAnswer s (form.Choice place Free branches faces) ((before ++ x ∷ y ∷ behind) ∷ others) yss →
        MayAnswer s (form.Choice place Free branches faces) ((before ++ y ∷ x ∷ behind) ∷ others) yss }
    ensures split { (s : Setting) (place : ℕ) (body : Net) (id : ℕ) (x y : ModelItem) (before behind : List ModelItem) (others yss : Segments ModelItem) →
        GoApart (split_key id) x y → MayAnswer s (form.Split place Free body id) ((before ++ x ∷ y ∷ behind) ∷ others) yss →
        MayAnswer s (form.Split place Free body id) ((before ++ y ∷ x ∷ behind) ∷ others) yss }
{}

//! What a running network can still come to, as contracts of functions that do nothing.
ghost use Rattle.std.specs.Prelude.{◌≡◌, ◌≤◌, ◌<◌, ◌↔◌, ◌⊎◌, ℕ, suc, IsTrue, List, length, Some, slice_get, false, true};
ghost use Rattle.std.specs.List.{All};
ghost use Rattle.std.specs.Option.{ForSome};
ghost use Rattle.sn_record.specs.Record.{Entries, Matches};
ghost use Rattle.sn_net.specs.declared.net.Net.TheOpen.{Net-F};
ghost use Rattle.sn_net.specs.Face.{variant_of};
ghost use Rattle.sn_net.specs.Item.{ModelItem, Rec};
ghost use Rattle.sn_net.specs.Net.{all_deterministic};
ghost use Rattle.sn_net.specs.WellFormed.{FitsBoxes, IsWellFormed};
ghost use Rattle.sn_typing.specs.Typed.{IsTyped};
ghost use Rattle.sn_model.specs.declared.run.Run.{Run};
ghost use Rattle.sn_model.specs.Run.{MayGive, boxes_of, given, input_of, net_of};
ghost use Rattle.sn_view.specs.Next.{IsEnabled, Next, enabled, form_of, is_fork, start_view};
ghost use Rattle.sn_view.specs.Epochs.{Epochs};
ghost use Rattle.sn_view.specs.View.{Child, Freely, Happening, It, Node, Plain, Start, ToChild, ToNode, Unfold, View};
ghost use Rattle.sn_live.specs.Runs.{IsPrefixOf};
ghost use Rattle.sn_view.specs.Apart.{HasChild, HasOwnFirst};
ghost use Rattle.sn_view.specs.Calls.{Flies, FliesAt, IsFinishOf};
ghost use Rattle.sn_view.specs.Chains.{Comes};
ghost use Rattle.sn_view.specs.Placed.{AtRest, ChoicesAreWhole, IsMove, IsOrderly, IsSane, IsUnfold, NothingIsAside, WellPlaced};
ghost use Rattle.sn_view.specs.Routed.{AllRouted, BoxesAreFed};
ghost use Rattle.sn_view.specs.Coming.{MayCome};
ghost use Rattle.sn_view.specs.Seen.{Can};
ghost use Rattle.sn_view.specs.Touched.{happens_at, is_touched};

/// At the start a graph can give exactly what the merges allow of its run.
pub fn starts_as_allowed()
    ensures can { (run : Run) (ys : List ModelItem) → Can (start_view run) ys ↔ MayGive run ys }
    ensures sane { (run : Run) → IsSane (start_view run) }
    ensures placed { (run : Run) → WellPlaced (start_view run) }
{}

/// Each event that is enabled changes nothing that can come, or is one move of the tree.
pub fn each_event_is_a_move()
    ensures moves { (g : View) (e : Happening) → WellPlaced g → IsSane g → IsEnabled g e → IsMove g (Next g e) }
    ensures sane { (g : View) (e : Happening) → WellPlaced g → IsSane g → IsEnabled g e → IsSane (Next g e) }
{}

/// After an event, what can still come could come before.
pub fn could_come_before()
    ensures { (g : View) (e : Happening) (ys : List ModelItem) → WellPlaced g → IsSane g → IsEnabled g e → Can (Next g e) ys → Can g ys }
{}

/// All events but Unfold leave the nodes as they stand, and after Unfold they are well placed too.
pub fn nodes_stand()
    ensures others { (g : View) (e : Happening) → WellPlaced g → IsSane g → IsEnabled g e → (IsUnfold e → ⊥) → WellPlaced (Next g e) }
    ensures unfolds { (g : View) (i : ℕ) → WellPlaced g → IsWellFormed (boxes_of g.run) (net_of g.run) → IsEnabled g (Unfold i) → WellPlaced (Next g (Unfold i)) }
{}

/// What can come goes on from what was emitted, and something can come.
pub fn emitted_is_prefix()
    ensures prefix { (g : View) (ys : List ModelItem) → Can g ys → IsPrefixOf g.out ys }
    ensures some { (g : View) → IsSane g → (ys : List ModelItem) × Can g ys }
{}

/// Where the network is well formed, a choice has a child for each key that it sends an item by.
pub fn choices_are_whole()
    ensures { (g : View) → WellPlaced g → IsWellFormed (boxes_of g.run) (net_of g.run) → ChoicesAreWhole g }
{}

/// What flows is in order at the start, and stays so after each event.
pub fn stays_orderly()
    ensures start { (run : Run) → IsOrderly (start_view run) }
    ensures kept { (g : View) (e : Happening) → WellPlaced g → IsOrderly g → IsSane g → IsEnabled g e → IsOrderly (Next g e) }
{}

/// Where no event but Finish is left and no call is in flight, nothing more can come.
pub fn nothing_at_rest()
    ensures { (g : View) (ys : List ModelItem) → WellPlaced g → IsOrderly g → IsSane g → AtRest g → Can g ys → ys ≡ g.out }
{}

/// After any list of events what can still come is allowed, what was emitted begins an allowed stream, and at rest it is one.
pub fn every_list_of_events()
    ensures allowed { (run : Run) (g : View) (ys : List ModelItem) → IsWellFormed (boxes_of run) (net_of run) → Comes run g → Can g ys → MayGive run ys }
    ensures begun { (run : Run) (g : View) → IsWellFormed (boxes_of run) (net_of run) → Comes run g → (ys : List ModelItem) × MayGive run ys × IsPrefixOf g.out ys }
    ensures whole { (run : Run) (g : View) → IsWellFormed (boxes_of run) (net_of run) → Comes run g → AtRest g → MayGive run g.out }
{}

/// A component has no children, and child 0 of a deterministic dispatcher keeps nothing: what passes by waits in its decisions.
pub fn nothing_is_kept_aside()
    ensures { (run : Run) (g : View) → IsWellFormed (boxes_of run) (net_of run) → Comes run g → NothingIsAside g }
{}

/// Where every choice, star and split merges in order, what was emitted begins the one-thread meaning, and at rest it is all of it.
pub fn one_stream_in_order()
    ensures begun { (run : Run) (g : View) → IsWellFormed (boxes_of run) (net_of run) → IsTrue (all_deterministic (net_of run)) → Comes run g → IsPrefixOf g.out (given run) }
    ensures whole { (run : Run) (g : View) → IsWellFormed (boxes_of run) (net_of run) → IsTrue (all_deterministic (net_of run)) → Comes run g → AtRest g → g.out ≡ given run }
{}

/// Where the items of a run are typed, nothing that waits is ever stuck, and nothing that a node passes on next would be.
pub fn no_record_lacks_a_route()
    ensures { (run : Run) (g : View) → IsWellFormed (boxes_of run) (net_of run) → All (IsTyped (boxes_of run) (net_of run)) (input_of run) → Comes run g → AllRouted g }
{}

/// Where the items of a run are typed, the box at which a record waits is one of the run's, and the record matches its input.
pub fn records_fit_their_boxes()
    ensures within { (run : Run) (g : View) (i p place number : ℕ) (n : Node) (r : Entries) → IsWellFormed (boxes_of run) (net_of run) → All (IsTyped (boxes_of run) (net_of run)) (input_of run) → Comes run g → slice_get g.nodes i ≡ Some n → form_of g n ≡ Some (Net-F.Box place number) → slice_get n.waiting p ≡ Some (Plain (It (Rec r))) → number < length (boxes_of run) }
    ensures matches { (run : Run) (g : View) (i p place number : ℕ) (n : Node) (r : Entries) → IsWellFormed (boxes_of run) (net_of run) → All (IsTyped (boxes_of run) (net_of run)) (input_of run) → Comes run g → slice_get g.nodes i ≡ Some n → form_of g n ≡ Some (Net-F.Box place number) → slice_get n.waiting p ≡ Some (Plain (It (Rec r))) → ForSome (slice_get (boxes_of run) number) (λ program. Matches r (variant_of program.input)) }
{}

/// Where the items of a run are typed, a box answers no record that waits at it with what is stuck.
pub fn boxes_are_fed()
    ensures { (run : Run) (g : View) → IsWellFormed (boxes_of run) (net_of run) → All (IsTyped (boxes_of run) (net_of run)) (input_of run) → Comes run g → BoxesAreFed g }
{}

/// No more calls were started, and no more marks came in at a free dispatcher, than events were applied.
pub fn events_are_counted()
    ensures calls { (run : Run) (g : View) → Comes run g → g.calls ≤ g.applied }
    ensures marks { (run : Run) (g : View) (i : ℕ) (n : Node) (e : Epochs) → Comes run g → slice_get g.nodes i ≡ Some n → n.state ≡ Freely e → e.input ≤ g.applied }
{}

/// A call that is in flight has a number that was given out, and no other place has that number.
pub fn calls_stand_once()
    ensures below { (run : Run) (g : View) (i p call : ℕ) (given : Entries) → Comes run g → FliesAt g i p call given → call < g.calls }
    ensures once { (run : Run) (g : View) (i p j q call : ℕ) (given other : Entries) → Comes run g → FliesAt g i p call given → FliesAt g j q call other → (i ≡ j) × (p ≡ q) }
{}

/// What is in flight at a node after an event was in flight there before, or this event started it there.
pub fn calls_stay()
    ensures stays { (g : View) (e : Happening) (i call : ℕ) (given : Entries) → Flies (Next g e) i call given → Flies g i call given ⊎ ((e ≡ Start i) × (call ≡ g.calls)) }
{}

/// What is in flight at a node before an event is in flight there after it, unless this event finishes it.
pub fn calls_fly_on()
    ensures stays { (g : View) (e : Happening) (i call : ℕ) (given : Entries) → Flies g i call given → Flies (Next g e) i call given ⊎ IsFinishOf e call }
{}

/// No node sends to itself, and the children of a node but the first begin at different nodes, none of which is the node itself.
pub fn nodes_stand_apart()
    ensures sends { (g : View) (i c : ℕ) (n : Node) → WellPlaced g → slice_get g.nodes i ≡ Some n → ((n.goes ≡ ToNode i) → ⊥) × ((n.goes ≡ ToChild i c) → ⊥) }
    ensures doors { (g : View) (i c : ℕ) (n : Node) (child : Child) → WellPlaced g → slice_get g.nodes i ≡ Some n → slice_get n.children (suc c) ≡ Some child → (child.entry ≡ i) → ⊥ }
    ensures distinct { (g : View) (i c d : ℕ) (n : Node) (left right : Child) → WellPlaced g → slice_get g.nodes i ≡ Some n → slice_get n.children (suc c) ≡ Some left → slice_get n.children (suc d) ≡ Some right → left.entry ≡ right.entry → c ≡ d }
{}

/// The first child of a dispatcher is what passes the others by.
pub fn own_is_first()
    ensures first { (g : View) (i : ℕ) (n : Node) → WellPlaced g → slice_get g.nodes i ≡ Some n → IsTrue (is_fork n.state) → HasOwnFirst n.children }
{}

/// All children but the first begin at a node that is there, and what a node sends goes to a node or a child that is there, never to a first child.
pub fn children_have_nodes()
    ensures entry { (g : View) (i c : ℕ) (n : Node) (child : Child) → WellPlaced g → slice_get g.nodes i ≡ Some n → slice_get n.children (suc c) ≡ Some child → child.entry < length g.nodes }
    ensures to_node { (g : View) (i j : ℕ) (n : Node) → WellPlaced g → slice_get g.nodes i ≡ Some n → n.goes ≡ ToNode j → j < length g.nodes }
    ensures to_child { (g : View) (i j c : ℕ) (n : Node) → WellPlaced g → slice_get g.nodes i ≡ Some n → n.goes ≡ ToChild j c → HasChild g j c }
    ensures not_aside { (g : View) (i j : ℕ) (n : Node) → WellPlaced g → slice_get g.nodes i ≡ Some n → (n.goes ≡ ToChild j 0) → ⊥ }
{}

/// What may happen at a node after an event that does not write to it might have happened before.
pub fn others_stay_as_they_are()
    ensures stays { (g : View) (e other : Happening) (j : ℕ) → happens_at other ≡ Some j → is_touched g e j ≡ false → enabled (Next g e) other ≡ true → enabled g other ≡ true }
{}

/// What can come of a graph that some list of enabled events led to, where nothing is kept of these but that there are some.
pub fn a_graph_that_came()
    ensures start { (run : Run) (ys : List ModelItem) → MayCome (start_view run) ys ↔ ∥ MayGive run ys ∥₁ }
    ensures before { (run : Run) (g : View) (e : Happening) (ys : List ModelItem) → FitsBoxes (boxes_of run) (net_of run) → ∥ Comes run g ∥₁ → IsEnabled g e → MayCome (Next g e) ys → MayCome g ys }
    ensures begins { (g : View) (ys : List ModelItem) → MayCome g ys → ∥ IsPrefixOf g.out ys ∥₁ }
    ensures some { (run : Run) (g : View) → FitsBoxes (boxes_of run) (net_of run) → ∥ Comes run g ∥₁ → ∥ ((ys : List ModelItem) × Can g ys) ∥₁ }
    ensures rest { (run : Run) (g : View) (ys : List ModelItem) → FitsBoxes (boxes_of run) (net_of run) → ∥ Comes run g ∥₁ → AtRest g → MayCome g ys → ys ≡ g.out }
    ensures allowed { (run : Run) (g : View) (ys : List ModelItem) → FitsBoxes (boxes_of run) (net_of run) → ∥ Comes run g ∥₁ → MayCome g ys → ∥ MayGive run ys ∥₁ }
{}

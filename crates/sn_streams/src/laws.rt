//! What follows from the definitions, as contracts of functions that do nothing.
ghost use Rattle.std.specs.Prelude.{◌≡◌, ◌↔◌, ℕ, Bool, false, List, [], ◌∷◌, ◌++◌, map, get_or, length};
ghost use Rattle.sn_streams.specs.Example.{by_branches};
ghost use Rattle.sn_streams.specs.Forks.{Deterministic, Free, Router};
ghost use Rattle.sn_streams.specs.Keys.{AreDistinct, Key, Own, is_among};
ghost use Rattle.sn_streams.specs.Machines.{transduced};
ghost use Rattle.sn_streams.specs.Occurring.{AllowsOccurring};
ghost use Rattle.sn_streams.specs.OneByOne.{State, answer, gives, next, one_by_one, rest, start, state_after};
ghost use Rattle.sn_streams.specs.Segments.{Segments, regrouped};
ghost use Rattle.sn_streams.specs.Shuffles.{SegmentShuffles, Shuffle, ShuffleByKey};
ghost use Rattle.sn_streams.specs.Trees.{AllDeterministic, Allows, Fork, Tree, one, with_own};

/// Where segments of a stream are joined, an answer with the same segments joined is an answer.
pub fn regrouped_is_allowed<A, S>()
    ensures { (t : Tree A S) (sizes : List ℕ) (xss yss : Segments A) → Allows t xss yss → Allows t (regrouped sizes xss) (regrouped sizes yss) }
{}

/// The one-thread meaning is one of the streams that the tree may answer.
pub fn one_is_allowed<A, S>()
    ensures { (t : Tree A S) (xss : Segments A) → Allows t xss (one t xss) }
{}

/// Where every fork is deterministic it is the only one.
pub fn one_is_only<A, S>()
    ensures { (t : Tree A S) (xss yss : Segments A) → AllDeterministic t → Allows t xss yss → yss ≡ one t xss }
{}

/// What a deterministic fork may answer, a free one with the same children may answer.
pub fn free_allows_more<A, S>()
    ensures { (r : Router A) (child : Key → Tree A S) (xss yss : Segments A) → Allows (Fork Deterministic r child) xss yss → Allows (Fork Free r child) xss yss }
{}

/// An answer has as many segments as the stream that it answers.
pub fn borders_are_kept<A, S>()
    ensures { (t : Tree A S) (xss yss : Segments A) → Allows t xss yss → length yss ≡ length xss }
{}

/// A segment without items is answered by one without items.
pub fn silence_is_kept<A, S>()
    ensures { (t : Tree A S) (xss yss : Segments A) (i : ℕ) → Allows t xss yss → get_or xss i [] ≡ [] → get_or yss i [] ≡ [] }
{}

/// The one-thread meaning is what one machine gives, an item at a time. What it gave stays the beginning, whatever items
/// come later.
pub fn one_item_at_a_time<A, S>()
    ensures item { (t : Tree A S) (state : State t) (x : A) (xs : List A) → rest t state (x ∷ xs) ≡ gives t state x ++ rest t (next t state x) xs }
    ensures stream { (t : Tree A S) (xss : Segments A) → one t xss ≡ transduced (one_by_one t) (start t) xss }
    ensures segment { (t : Tree A S) (xs : List A) → one t (xs ∷ []) ≡ answer t xs ∷ [] }
    ensures later { (t : Tree A S) (xs ys : List A) → answer t (xs ++ ys) ≡ answer t xs ++ rest t (state_after t xs) ys }
{}

/// A border behind the last item changes nothing.
pub fn last_border<A, S>()
    ensures { (t : Tree A S) (xss yss : Segments A) → Allows t xss yss ↔ Allows t (xss ++ ([] ∷ [])) (yss ++ ([] ∷ [])) }
{}

/// It is the same to speak of all children and to speak of those that get items.
pub fn occurring_children<A, S>()
    ensures { (t : Tree A S) (xss yss : Segments A) → Allows t xss yss ↔ AllowsOccurring t xss yss }
{}

/// A shuffle of one list for each key is a shuffle of the lists of some keys, where all others have lists without items.
pub fn shuffles_of_lists<A>()
    ensures { (keys : List Key) (lists : Key → List A) (ys : List A) → AreDistinct keys → ((k : Key) → is_among k keys ≡ false → lists k ≡ []) → ShuffleByKey ys lists ↔ Shuffle ys (map lists keys) }
{}

/// One stream for each key is shuffled segment by segment: all have as many segments, and each segment is a shuffle of
/// those at its place.
pub fn shuffles_by_segments<A>()
    ensures { (yss : Segments A) (streams : Key → Segments A) → SegmentShuffles yss streams ↔ (((k : Key) → length (streams k) ≡ length yss) × ((i : ℕ) → ShuffleByKey (get_or yss i []) (λ k. get_or (streams k) i []))) }
{}

/// An item that passes the children by becomes what the router makes of it.
pub fn passing_items<A, S>()
    ensures { (r : Router A) (s : S) (child : Key → Tree A S) (xss yss : Segments A) → Allows (with_own r s child Own) xss yss ↔ (yss ≡ map (map r.own) xss) }
{}

/// Of two items that go to two branches, a free fork may answer the later one first, though not across a border. The
/// one-thread meaning does not, and a deterministic fork may not.
pub fn two_branches()
    ensures overtakes { Allows (by_branches Free) ((0 ∷ 1 ∷ []) ∷ []) ((1 ∷ 0 ∷ []) ∷ []) }
    ensures border { Allows (by_branches Free) ((0 ∷ []) ∷ (1 ∷ []) ∷ []) ((1 ∷ []) ∷ (0 ∷ []) ∷ []) → ⊥ }
    ensures in_turn { one (by_branches Free) ((0 ∷ 1 ∷ []) ∷ []) ≡ (0 ∷ 1 ∷ []) ∷ [] }
    ensures deterministic { Allows (by_branches Deterministic) ((0 ∷ 1 ∷ []) ∷ []) ((1 ∷ 0 ∷ []) ∷ []) → ⊥ }
{}

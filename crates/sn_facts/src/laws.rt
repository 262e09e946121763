//! What follows from the definitions, as contracts of functions that do nothing.
ghost use Rattle.std.specs.Prelude.{◌≡◌, false, List, [], ◌∷◌, ◌++◌};
ghost use Rattle.std.specs.List.{list_any};
ghost use mathlib.Core.List.{IsPrefix};
ghost use Rattle.sn_streams.specs.Forks.{Merge, Router};
ghost use Rattle.sn_streams.specs.Keys.{Key, Own, key_eq};
ghost use Rattle.sn_streams.specs.Machines.{Machine};
ghost use Rattle.sn_streams.specs.Segments.{Segments};
ghost use Rattle.sn_streams.specs.Trees.{Component, Fork, Tree};
ghost use Rattle.sn_histories.specs.Entries.{End, Entry, Item, Mark, To};
ghost use Rattle.sn_histories.specs.Histories.{Decisions, In, IsAt, Out, PassesOwn, decision_on, hist};
ghost use Rattle.sn_histories.specs.Sites.{Into, Step};
ghost use Rattle.sn_facts.specs.Forking.{ComesFrom, Decides, Merges, for_child, is_for, to_child};
ghost use Rattle.sn_facts.specs.Working.{Works, gives_on, next_on};

/// What was given was put, or is held to be put. Where all of it begins a history, what was put and the next entry that is held do too.
pub fn held_may_be_put<A>()
    ensures { (put held given history : List (Entry A)) (next : Entry A) → given ≡ put ++ next ∷ held → IsPrefix given history → IsPrefix (put ++ next ∷ []) history }
{}

/// What was got was received, or still waits. Where all of it begins a history, what was received does too.
pub fn what_was_received_begins<A>()
    ensures { (received waiting got history : List (Entry A)) → got ≡ received ++ waiting → IsPrefix got history → IsPrefix received history }
{}

/// A box, a filter or a synchrocell begins with nothing received and nothing given, and for one entry more it gives what its machine makes of that.
pub fn a_component_works_on<A, S>()
    ensures begins { (m : Machine A S) (start : S) → Works m start [] start [] }
    ensures goes_on { (m : Machine A S) (start state : S) (received given : List (Entry A)) (e : Entry A) →
        Works m start received state given → Works m start (received ++ e ∷ []) (next_on m state e) (given ++ gives_on m state e) }
{}

/// A component that has received a beginning of what comes in has given a beginning of what leaves it.
pub fn a_component_gives_a_beginning<A, S>()
    ensures { (t : Tree A S) (xs : List A) (steps : List Step) (m : Machine A S) (start state : S) (xss : Segments A) (received given : List (Entry A)) →
        IsAt t xs steps (record { part = Component m start; seg = xss }) → Works m start received state given →
        IsPrefix received (hist t xs steps In) → IsPrefix given (hist t xs steps Out) }
{}

/// A fork begins with nothing received and nothing decided. The decision on one entry more is kept behind the others, the first that is kept is
/// served, and what goes to each child for the entry follows what went there.
pub fn a_fork_receives_on<A>()
    ensures begins { (r : Router A) → Decides r [] [] [] }
    ensures decides { (r : Router A) (received served kept : List (Entry A)) (e : Entry A) →
        Decides r received served kept → Decides r (received ++ e ∷ []) served (kept ++ decision_on r e ∷ []) }
    ensures serves { (r : Router A) (received served kept : List (Entry A)) (d : Entry A) → Decides r received served (d ∷ kept) → Decides r received (served ++ d ∷ []) kept }
    ensures sends { (r : Router A) (k : Key) (received : List (Entry A)) (e : Entry A) → to_child r k (received ++ e ∷ []) ≡ to_child r k received ++ for_child r k e }
{}

/// Where a fork has received a beginning of what comes in, its decisions begin its history of decisions, and what has gone to a child begins
/// what comes in there.
pub fn a_fork_sends_beginnings<A, S>()
    ensures decides { (t : Tree A S) (xs : List A) (steps : List Step) (merge : Merge) (r : Router A) (child : Key → Tree A S) (xss : Segments A)
        (received served kept : List (Entry A)) → IsAt t xs steps (record { part = Fork merge r child; seg = xss }) → Decides r received served kept →
        IsPrefix received (hist t xs steps In) → IsPrefix (served ++ kept) (hist t xs steps Decisions) }
    ensures sends { (t : Tree A S) (xs : List A) (steps : List Step) (merge : Merge) (r : Router A) (child : Key → Tree A S) (xss : Segments A)
        (k : Key) (received : List (Entry A)) → IsAt t xs steps (record { part = Fork merge r child; seg = xss }) →
        IsPrefix received (hist t xs steps In) → IsPrefix (to_child r k received) (hist t xs (steps ++ Into k ∷ []) In) }
{}

/// While an entry waits the end was not received. So a child that is made then has missed nothing, if no item of its key was received.
pub fn a_late_child_has_missed_nothing<A, S>()
    ensures { (t : Tree A S) (xs : List A) (steps : List Step) (merge : Merge) (r : Router A) (child : Key → Tree A S) (xss : Segments A)
        (k : Key) (received : List (Entry A)) (waiting : Entry A) → IsAt t xs steps (record { part = Fork merge r child; seg = xss }) →
        IsPrefix (received ++ waiting ∷ []) (hist t xs steps In) → list_any (is_for r k) received ≡ false → to_child r k received ≡ [] }
{}

/// A fork that merges begins with nothing given. One decision more changes nothing of what it has given. An item that passes the children by, a
/// mark or the end is given where it is next. An item of the group that is next is given, and the mark behind that group isn't: it serves the decision.
pub fn a_fork_merges_on<A>()
    ensures begins { Merges {A = A} (λ k. []) [] [] [] }
    ensures decided { (came : Key → List (Entry A)) (served kept given : List (Entry A)) (d : Entry A) →
        Merges came served kept given → Merges came served (kept ++ d ∷ []) given }
    ensures own { (came : Key → List (Entry A)) (served kept given : List (Entry A)) (y : A) →
        Merges came served (Item y ∷ kept) given → Merges came (served ++ Item y ∷ []) kept (given ++ Item y ∷ []) }
    ensures marked { (came : Key → List (Entry A)) (served kept given : List (Entry A)) →
        Merges came served (Mark ∷ kept) given → Merges came (served ++ Mark ∷ []) kept (given ++ Mark ∷ []) }
    ensures ended { (came : Key → List (Entry A)) (served kept given : List (Entry A)) →
        Merges came served (End ∷ kept) given → Merges came (served ++ End ∷ []) kept (given ++ End ∷ []) }
    ensures item { (came now : Key → List (Entry A)) (served kept given : List (Entry A)) (k : Key) (y : A) → ComesFrom k (Item y) came now →
        Merges came served (To k ∷ kept) given → Merges now served (To k ∷ kept) (given ++ Item y ∷ []) }
    ensures group { (came now : Key → List (Entry A)) (served kept given : List (Entry A)) (k : Key) → ComesFrom k Mark came now →
        Merges came served (To k ∷ kept) given → Merges now (served ++ To k ∷ []) kept given }
{}

/// Where a fork has received a beginning of what comes in, and a beginning of what leaves each child has come, it has given a beginning of what
/// leaves it.
pub fn a_fork_gives_a_beginning<A, S>()
    ensures { (t : Tree A S) (xs : List A) (steps : List Step) (merge : Merge) (r : Router A) (child : Key → Tree A S) (xss : Segments A)
        (came : Key → List (Entry A)) (received served kept given : List (Entry A)) → PassesOwn t →
        IsAt t xs steps (record { part = Fork merge r child; seg = xss }) → IsPrefix received (hist t xs steps In) →
        ((k : Key) → IsPrefix (came k) (hist t xs (steps ++ Into k ∷ []) Out)) → Decides r received served kept → Merges came served kept given →
        IsPrefix given (hist t xs steps Out) }
{}

/// While a group of a child is next, its end doesn't come.
pub fn no_child_ends_early<A, S>()
    ensures { (t : Tree A S) (xs : List A) (steps : List Step) (merge : Merge) (r : Router A) (child : Key → Tree A S) (xss : Segments A)
        (came : Key → List (Entry A)) (received served kept given : List (Entry A)) (k : Key) → key_eq k Own ≡ false →
        IsAt t xs steps (record { part = Fork merge r child; seg = xss }) → IsPrefix received (hist t xs steps In) →
        IsPrefix (came k ++ End ∷ []) (hist t xs (steps ++ Into k ∷ []) Out) → Decides r received served (To k ∷ kept) → Merges came served (To k ∷ kept) given → ⊥ }
{}

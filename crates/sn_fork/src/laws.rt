//! What follows from the definitions, as contracts of functions that do nothing.
ghost use Rattle.std.specs.Prelude.{◌≡◌, false, List, [], ◌∷◌, ◌++◌, map, true};
ghost use mathlib.Core.List.{IsPrefix};
ghost use Rattle.sn_streams.specs.Keys.{is_among};
ghost use Rattle.sn_histories.specs.Entries.{Item, To, Mark, End as TheEnd};
ghost use Rattle.sn_net.specs.Item.{ModelItem};
ghost use Rattle.sn_dispatch.specs.declared.det_fork.Decision.{Decision};
ghost use Rattle.sn_stream.specs.Ends.{End, passed};
ghost use Rattle.sn_stream.specs.declared.item.StreamItem.{StreamItem};
ghost use Rattle.sn_component.specs.Facts.{history_for};
ghost use Rattle.sn_component.specs.Seen.{given_by};
ghost use Rattle.sn_fork.specs.Facts.{Forks, IsChildAt, steps_to};
ghost use Rattle.sn_facts.specs.Forking.{to_child};
ghost use Rattle.sn_fork.specs.Seen.{AllHold, ChildSeen, Forking, IsNew, asks_child, decision_entry, got_from, keys_of};
ghost use Rattle.sn_net.specs.Item.{modelled};
ghost use Rattle.sn_record.specs.declared.item.Item.{Item as RecordItem};
ghost use Rattle.sn_streams.specs.Keys.{Own, key_eq};
ghost use Rattle.sn_dispatch.specs.declared.det_fork.Decision.TheVariants as decision;
ghost use Rattle.sn_stream.specs.Ends.{history_of, moves};
ghost use Rattle.sn_stream.specs.declared.item.StreamItem.TheVariants as stream_item;
ghost use Rattle.sn_fork.specs.Facts.{Each, ForksAt};
ghost use Rattle.sn_fork.specs.Turns.{Grows, Lacks};
ghost use Rattle.sn_net.specs.declared.net.Net.TheViews.{out-Net};
ghost use Rattle.sn_net.specs.declared.routing.Key.{Key};

/// What a fork has given is a beginning of what leaves it, and what it has given to a child of what comes in there: so the next entry that it
/// holds may be put.
pub fn a_fork_holds_what_may_be_put()
    ensures out { (f : Forking) → Forks f → IsPrefix (given_by f.output f.held) (history_for f.output.made) }
    ensures child { (f : Forking) (h : Forks f) (c : ChildSeen) → IsChildAt f.run (steps_to f) c → given_by c.to c.held ≡ to_child h.stands.router c.key h.received →
        IsPrefix (given_by c.to c.held) (history_for c.to.made) }
{}

/// A fork that gets an entry from the child whose group is next: an item is held to be put, a mark serves the decision, and the end doesn't come.
pub fn a_fork_serves_groups()
    ensures item { (f : Forking) → Forks f → (front back : List ChildSeen) (c : ChildSeen) (from : End) (x : ModelItem) (ds : List Decision) (d : Decision) (held : List StreamItem) →
        f.children ≡ front ++ c ∷ back → is_among c.key (map (λ (d : ChildSeen). d.key) front) ≡ false → from.made ≡ c.from.made →
        IsPrefix (passed from.moved) (history_for from.made) → passed from.moved ≡ passed c.from.moved ++ Item x ∷ [] →
        f.decisions ≡ d ∷ ds → decision_entry d ≡ To c.key → given_by f.output held ≡ given_by f.output f.held ++ Item x ∷ [] → Forks (got_from f front back c from f.decisions held) }
    ensures group { (f : Forking) → Forks f → (front back : List ChildSeen) (c : ChildSeen) (from : End) (ds : List Decision) (d : Decision) →
        f.children ≡ front ++ c ∷ back → is_among c.key (map (λ (d : ChildSeen). d.key) front) ≡ false → from.made ≡ c.from.made →
        IsPrefix (passed from.moved) (history_for from.made) → passed from.moved ≡ passed c.from.moved ++ Mark ∷ [] →
        f.decisions ≡ d ∷ ds → decision_entry d ≡ To c.key → Forks (got_from f front back c from ds f.held) }
    ensures no_end { (f : Forking) → Forks f → (front back : List ChildSeen) (c : ChildSeen) (from : End) (ds : List Decision) (d : Decision) →
        f.children ≡ front ++ c ∷ back → is_among c.key (map (λ (d : ChildSeen). d.key) front) ≡ false → from.made ≡ c.from.made →
        IsPrefix (passed from.moved) (history_for from.made) → passed from.moved ≡ passed c.from.moved ++ TheEnd ∷ [] →
        f.decisions ≡ d ∷ ds → decision_entry d ≡ To c.key → ⊥ }
{}

/// A fork whose first decision asks for no child: what passes by, a mark or the end is held to be put.
pub fn a_fork_serves_own()
    ensures { (f : Forking) → Forks f → (ds : List Decision) (d : Decision) (held : List StreamItem) → f.decisions ≡ d ∷ ds → asks_child d ≡ false →
        given_by f.output held ≡ given_by f.output f.held ++ decision_entry d ∷ [] → Forks (record f { decisions = ds; held = held }) }
{}

/// A fork that has received nothing and has given nothing.
pub fn a_fork_begins()
    ensures { (f : Forking) → ForksAt f → f.input.moved ≡ [] → f.waiting ≡ [] → f.decisions ≡ [] → f.output.moved ≡ [] → f.held ≡ [] → Each IsNew f.children → Forks f }
{}

/// A fork gets an entry, puts some of what it holds, or puts some of what it holds for a child.
pub fn a_fork_moves_entries()
    ensures gets { (f : Forking) → Forks f → (input : End) (x : StreamItem) → f.waiting ≡ [] → input ≡ moves f.input x → IsPrefix (passed input.moved) (history_of input) →
        Forks (record f { input = input; waiting = x ∷ [] }) }
    ensures puts { (f : Forking) → Forks f → (output : End) (held : List StreamItem) → given_by output held ≡ given_by f.output f.held → output.made ≡ f.output.made →
        Forks (record f { output = output; held = held }) }
    ensures sends { (f : Forking) → Forks f → (front back : List ChildSeen) (c : ChildSeen) (to : End) (held : List StreamItem) → f.children ≡ front ++ c ∷ back →
        given_by to held ≡ given_by c.to c.held → to.made ≡ c.to.made → Forks (record f { children = front ++ record c { to = to; held = held } ∷ back }) }
{}

/// A fork decides on the entry that waits: an item that passes its children by, a mark, an item for a child, for which it and a mark are held,
/// and the end, which is held for each child.
pub fn a_fork_takes_in()
    ensures own { (f : Forking) (h : Forks f) (item now : RecordItem) → f.waiting ≡ stream_item.Item item ∷ [] → key_eq (h.stands.router.key (modelled item)) Own ≡ true →
        modelled now ≡ h.stands.router.own (modelled item) → Forks (record f { waiting = []; decisions = f.decisions ++ decision.Own now ∷ [] }) }
    ensures mark { (f : Forking) → Forks f → f.waiting ≡ stream_item.Mark ∷ [] → Forks (record f { waiting = []; decisions = f.decisions ++ decision.Mark ∷ [] }) }
    ensures item { (f : Forking) (h : Forks f) (front back : List ChildSeen) (c : ChildSeen) (item : RecordItem) (d : Decision) (held : List StreamItem) →
        f.children ≡ front ++ c ∷ back → is_among c.key (keys_of front) ≡ false → is_among c.key (keys_of back) ≡ false → f.waiting ≡ stream_item.Item item ∷ [] →
        h.stands.router.key (modelled item) ≡ c.key → decision_entry d ≡ To c.key → given_by c.to held ≡ given_by c.to c.held ++ Item (modelled item) ∷ Mark ∷ [] →
        Forks (record f { waiting = []; decisions = f.decisions ++ d ∷ []; children = front ++ record c { held = held } ∷ back }) }
    ensures end { (f : Forking) → Forks f → (children : List ChildSeen) → f.waiting ≡ stream_item.End ∷ [] → AllHold TheEnd f.children children →
        Forks (record f { waiting = []; decisions = f.decisions ++ decision.End ∷ []; children = children }) }
{}

/// A child that a fork lacks is the next level of a star that has replicas left, or a replica of a split: a choice has all its branches.
pub fn what_a_fork_lacks_can_be_made()
    ensures { (f : Forking) (s : ForksAt f) (key : Key) → Lacks f key → Grows f.left (out-Net s.net) key }
{}

/// A child is made while an entry waits, so that the end was not received yet: nothing was given for it before.
pub fn a_fork_grows()
    ensures { (f : Forking) (h : Forks f) (c : ChildSeen) (x : StreamItem) → f.waiting ≡ x ∷ [] → IsChildAt f.run (steps_to f) c → is_among c.key (keys_of f.children) ≡ false →
        IsNew c → Forks (record f { children = f.children ++ c ∷ [] }) }
{}

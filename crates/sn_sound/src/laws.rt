//! What follows from the definitions, as contracts of functions that do nothing.
ghost use Rattle.std.specs.Prelude.{◌≡◌, Bool, false, List};
ghost use Rattle.std.specs.List.{All, AllByRecursion};
ghost use Rattle.sn_streams.specs.Forks.{Merge, Router};
ghost use Rattle.sn_streams.specs.Keys.{Key};
ghost use Rattle.sn_streams.specs.Segments.{Segments};
ghost use Rattle.sn_streams.specs.Trees.{Allows, Fork, Series, Tree};
ghost use Rattle.sn_net.specs.declared.net.Claim.{Claim};
ghost use Rattle.sn_net.specs.declared.net.Net.{Net};
ghost use Rattle.sn_net.specs.Item.{ModelItem, holds_stuck};
ghost use Rattle.sn_net.specs.WellFormed.{IsWellFormed};
ghost use Rattle.sn_model.specs.Meaning.{MayAnswer, MayAnswerList, Setting};
ghost use Rattle.sn_typing.specs.Accepted.{IsAccepted};
ghost use Rattle.sn_typing.specs.Typed.{IsItemOfType, IsTyped};
ghost use Rattle.sn_sound.specs.Carried.{Carries, EachItem, IsKept, Passes};

/// What each component of a tree keeps, the tree keeps, whatever the schedule. Of a series and of a fork, what comes out may pass
/// another test than what came in.
pub fn tests_are_carried<A, S>()
    ensures whole { (t : Tree A S) (test : A → Bool) → IsKept test t → Carries (Allows t) (Passes test) (Passes test) }
    ensures series { (a b : Tree A S) (before between behind : A → Bool) → Carries (Allows a) (Passes before) (Passes between)
        → Carries (Allows b) (Passes between) (Passes behind) → Carries (Allows (Series a b)) (Passes before) (Passes behind) }
    ensures fork { (merge : Merge) (r : Router A) (child : Key → Tree A S) (before behind : A → Bool) (inside : Key → A → Bool)
        → ((x : A) → Passes before x → Passes (inside (r.key x)) x) → ((k : Key) → Carries (Allows (child k)) (Passes (inside k)) (Passes behind))
        → Carries (Allows (Fork merge r child)) (Passes before) (Passes behind) }
{}

/// Where each item that flows in is a fault or a record typed for the network, no record lacks a route, whatever the schedule, the
/// fuel and the depth.
pub fn no_record_lacks_a_route()
    ensures lists { (s : Setting) (net : Net) (xs ys : List ModelItem) → IsWellFormed s.boxes net → All (IsTyped s.boxes net) xs
        → MayAnswerList s net xs ys → holds_stuck ys ≡ false }
    ensures streams { (s : Setting) (net : Net) (xss yss : Segments ModelItem) → IsWellFormed s.boxes net → EachItem (IsTyped s.boxes net) xss
        → MayAnswer s net xss yss → AllByRecursion (λ ys. holds_stuck ys ≡ false) yss }
{}

/// What comes out of the net of an accepted claim for items of its input type is of its output type, and no record lacks a route.
pub fn accepted_nets_are_sound()
    ensures lists { (s : Setting) (claim : Claim) (xs ys : List ModelItem) → IsWellFormed s.boxes claim.net → IsAccepted s.boxes claim → All (IsItemOfType claim.input) xs
        → MayAnswerList s claim.net xs ys → All (IsItemOfType claim.output) ys × (holds_stuck ys ≡ false) }
    ensures streams { (s : Setting) (claim : Claim) (xss yss : Segments ModelItem) → IsWellFormed s.boxes claim.net → IsAccepted s.boxes claim → EachItem (IsItemOfType claim.input) xss
        → MayAnswer s claim.net xss yss → EachItem (IsItemOfType claim.output) yss × AllByRecursion (λ ys. holds_stuck ys ≡ false) yss }
{}

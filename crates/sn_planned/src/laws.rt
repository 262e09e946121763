//! What follows from the definitions, as contracts of functions that do nothing.
ghost use Rattle.std.specs.Prelude.{◌≡◌, ◌↔◌, ◌≤◌, List, []};
ghost use Rattle.std.specs.List.{All, Contains};
ghost use Rattle.sn_record.specs.LabelSet.{Labels};
ghost use Rattle.sn_streams.specs.Segments.{Segments};
ghost use Rattle.sn_nested.specs.Alike.{AnswerAlike, EachItem};
ghost use Rattle.sn_net.specs.declared.expr.BoxProgram.{BoxProgram};
ghost use Rattle.sn_net.specs.declared.net.Claim.{Claim};
ghost use Rattle.sn_net.specs.declared.net.Net.{Net};
ghost use Rattle.sn_net.specs.Face.{face};
ghost use Rattle.sn_net.specs.Item.{ModelItem};
ghost use Rattle.sn_net.specs.WellFormed.{IsWellFormed};
ghost use Rattle.sn_typing.specs.Accepted.{IsAccepted, IsBounded};
ghost use Rattle.sn_typing.specs.Flow.{Safe};
ghost use Rattle.sn_typing.specs.Outline.{Outline, outline};
ghost use Rattle.sn_typing.specs.Reached.{Turn};
ghost use Rattle.sn_typing.specs.Typed.{IsItemOfType, IsTyped};
ghost use Rattle.sn_model.specs.Meaning.{MayAnswerList, Setting, one_list, tree};
ghost use Rattle.sn_planned.specs.Alike.{NetsAlike};
ghost use Rattle.sn_planned.specs.Flat.{flattened};
ghost use Rattle.sn_planned.specs.Height.{height};
ghost use Rattle.sn_planned.specs.Planned.{IsPlan};
ghost use Rattle.sn_planned.specs.Refined.{Refines, RefinesSafe};
ghost use Rattle.sn_planned.specs.Short.{IsShort};
ghost use Rattle.sn_planned.specs.Slim.{slimmed};
ghost use Rattle.sn_planned.specs.Trimmed.{Trimmed};

/// Where a branch of a choice that is a choice of the same kind gives way to its branches, a network answers as it did.
pub fn flat_nets_answer_alike()
    ensures alike { (s : Setting) (net : Net) → IsWellFormed s.boxes net → NetsAlike s (flattened s.boxes net) net }
    ensures formed { (boxes : List BoxProgram) (net : Net) → IsWellFormed boxes net → IsWellFormed boxes (flattened boxes net) }
    ensures face { (boxes : List BoxProgram) (net : Net) → IsWellFormed boxes net → face boxes (flattened boxes net) ≡ face boxes net }
{}

/// Without identities behind the first part of a chain, a network answers as it did what is of an input for which it is safe. It does not answer so what no
/// route is known for: an identity takes nothing that has a binding tag.
pub fn slim_nets_answer_alike()
    ensures { (s : Setting) (input : List Labels) (net : Net) → IsWellFormed s.boxes net → ((v : Labels) → Contains input v → Safe (outline s.boxes net) v)
        → (xss : Segments ModelItem) → EachItem (IsItemOfType input) xss → AnswerAlike (tree s net) (tree s (slimmed net)) xss }
{}

/// Without branches that nothing is sent to, a network answers as it did what is of the input that it was trimmed for.
pub fn trimmed_nets_answer_alike()
    ensures { (s : Setting) (input : List Labels) (net trimmed : Net) → IsWellFormed s.boxes net → ((v : Labels) → Contains input v → Safe (outline s.boxes net) v)
        → Trimmed s.boxes (outline s.boxes net) input [] net trimmed
        → (xss : Segments ModelItem) → EachItem (IsItemOfType input) xss → AnswerAlike (tree s net) (tree s trimmed) xss }
{}

/// The planned network of an accepted claim is well formed; what is of the claim's input type is typed for it, and is answered by it as by
/// the claim's network: it may answer the same streams, and on one thread it answers the same stream.
pub fn plans_answer_alike()
    ensures formed { (boxes : List BoxProgram) (claim : Claim) (planned : Net) → IsWellFormed boxes claim.net → IsAccepted boxes claim → IsPlan boxes claim planned → IsWellFormed boxes planned }
    ensures safe { (boxes : List BoxProgram) (claim : Claim) (planned : Net) (v : Labels) → IsWellFormed boxes claim.net → IsAccepted boxes claim → IsPlan boxes claim planned
        → Contains claim.input v → Safe (outline boxes planned) v }
    ensures typed { (boxes : List BoxProgram) (claim : Claim) (planned : Net) (xs : List ModelItem) → IsWellFormed boxes claim.net → IsAccepted boxes claim → IsPlan boxes claim planned
        → All (IsItemOfType claim.input) xs → All (IsTyped boxes planned) xs }
    ensures allowed { (s : Setting) (claim : Claim) (planned : Net) (xs ys : List ModelItem) → IsWellFormed s.boxes claim.net → IsAccepted s.boxes claim → IsPlan s.boxes claim planned
        → All (IsItemOfType claim.input) xs → MayAnswerList s planned xs ys ↔ MayAnswerList s claim.net xs ys }
    ensures one { (s : Setting) (claim : Claim) (planned : Net) (xs : List ModelItem) → IsWellFormed s.boxes claim.net → IsAccepted s.boxes claim → IsPlan s.boxes claim planned
        → All (IsItemOfType claim.input) xs → one_list s planned xs ≡ one_list s claim.net xs }
{}

/// Where a network is safe for a variant, it is so once it was made flat or slim, and no more flows through it.
pub fn no_more_flows()
    ensures flat { (boxes : List BoxProgram) (net : Net) → IsWellFormed boxes net → Refines (outline boxes (flattened boxes net)) (outline boxes net) }
    ensures slim { (boxes : List BoxProgram) (net : Net) → RefinesSafe (outline boxes (slimmed net)) (outline boxes net) }
    ensures formed { (boxes : List BoxProgram) (net : Net) → IsWellFormed boxes net → IsWellFormed boxes (slimmed net) }
    ensures face { (boxes : List BoxProgram) (net : Net) → IsWellFormed boxes net → face boxes (slimmed net) ≡ face boxes net }
{}

/// In a slim network no identity stands behind the first part of a chain, at any depth.
pub fn slim_nets_are_short()
    ensures { (net : Net) → IsShort (slimmed net) }
{}

/// A network that was made flat is bounded for an input where it was so before: to no part more variants come, and none answers more.
pub fn flat_nets_are_bounded()
    ensures { (boxes : List BoxProgram) (net : Net) (input : List Labels) → IsWellFormed boxes net → IsBounded (outline boxes net) input → IsBounded (outline boxes (flattened boxes net)) input }
{}

/// No stage makes a network higher, so a planned network is no higher than it was written.
pub fn no_stage_makes_a_net_higher()
    ensures flat { (boxes : List BoxProgram) (net : Net) → height (flattened boxes net) ≤ height net }
    ensures trimmed { (boxes : List BoxProgram) (root : Outline) (input : List Labels) (way : List Turn) (net trimmed : Net) → Trimmed boxes root input way net trimmed → height trimmed ≤ height net }
    ensures slim { (net : Net) → height (slimmed net) ≤ height net }
    ensures plan { (boxes : List BoxProgram) (claim : Claim) (planned : Net) → IsPlan boxes claim planned → height planned ≤ height claim.net }
{}

/// A claim has one planned network.
pub fn a_claim_has_one_plan()
    ensures { (boxes : List BoxProgram) (claim : Claim) (one other : Net) → IsPlan boxes claim one → IsPlan boxes claim other → one ≡ other }
{}

//! What follows from the definitions.
ghost use Rattle.std.specs.Prelude.{◌≡◌, ◌≢◌, ◌++◌, ◌↔◌, ℕ, List, None};
ghost use Rattle.sn_input.specs.Line.{lines_of};
ghost use Rattle.sn_model.specs.declared.run.Run.{Run as SomeRun};
ghost use Rattle.sn_net.specs.declared.net.Claim.{Claim as SomeClaim};
ghost use Rattle.sn_pieces.specs.Reader.{Begins};
ghost use Rattle.sn_record.specs.declared.item.Item.{Item as SomeItem};
ghost use Rattle.sn_feed.specs.Counted.{IsSoFar, whole_lines};
ghost use Rattle.sn_feed.specs.Going.{Given};
ghost use Rattle.sn_feed.specs.Still.{IsAnswer, IsAnswerTo, Still, StillBehind, names_of};
ghost use Rattle.sn_feed.specs.declared.feed.Feed.{Feed};

/// A feed still gives one thing alone, whatever comes.
pub fn one_answer_alone()
    ensures { (feed : Feed) (bytes : List ℕ) (one other : Given) → Still feed bytes one → Still feed bytes other → one ≡ other }
{}

/// The names of what it still gives begin with those that it has.
pub fn names_stay()
    ensures { (feed : Feed) (bytes : List ℕ) (given : Given) → Still feed bytes given → Begins (names_of feed) given.names }
{}

/// Where items stand before what a feed still gives, behind the first bytes of an input and whatever follows them, they are what the lines give
/// that ended in these bytes.
pub fn what_was_given_is_of_ended_lines()
    ensures { (run : SomeRun) (claim : SomeClaim) (names : List (List ℕ)) (bytes : List ℕ) (feed : Feed) (items : List SomeItem)
        → ((more : List ℕ) (given : Given) → IsAnswer run claim names (bytes ++ more) given ↔ StillBehind items feed more given) → IsSoFar run claim names bytes items (names_of feed) }
{}

/// An input that is refused at a line whatever follows its first bytes is refused at that line also where it is cut off later.
pub fn a_refused_line_counts()
    ensures { (run : SomeRun) (claim : SomeClaim) (names : List (List ℕ)) (bytes more : List ℕ) (given : Given) → ((any : List ℕ) → IsAnswer run claim names (bytes ++ any) given)
        → given.refused ≢ None → IsAnswerTo run claim names (whole_lines (lines_of (bytes ++ more))) given }
{}

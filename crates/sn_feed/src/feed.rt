ghost use Rattle.sn_once.specs.Rest.{run_of};
ghost use Rattle.sn_pieces.specs.Reader.{IsOpen, names_of as names_read, variants_of};
ghost use Rattle.sn_feed.specs.Going.{ReadsTyped};
ghost use Rattle.sn_feed.specs.Known.{StaysKnown};

use crate::going::{answer_line, go_through};
use crate::stop::{FeedStop, stopped};
use sn_list::Memory;
use sn_model::Run;
use sn_names::Names;
use sn_net::{Claim, copy_sets};
use sn_once::Once;
use sn_pieces::Reader;
use sn_record::Items;
use std::alloc::Global;

/// The most bytes of an input.
pub const MOST_INPUT: u64 = 1_099_511_627_776;

/// An input that is read in pieces, between two of them: the engine of a run, and what is kept of the lines.
#[derive(Drop)]
pub struct Feed {
    once: Once,
    reader: Reader,
    pub ghost unended: { IsOpen reader },
    pub ghost typed: { ReadsTyped (run_of once) (variants_of reader) },
    pub ghost known: { StaysKnown once (names_read reader) },
}

impl Feed {
    ghost use Rattle.std.specs.Prelude.{◌≡◌, [], ◌++◌, ◌↔◌, ℕ, List, IfErr, IfOk};
    ghost use Rattle.sn_typing.specs.Accepted.{IsAccepted};
    ghost use Rattle.sn_model.specs.Run.{boxes_of, items_of, net_of};
    ghost use Rattle.sn_stream_labels.specs.Known.{Knows};
    ghost use Rattle.sn_pieces.specs.Known.{is_known};
    ghost use Rattle.sn_pieces.specs.Reader.{Begins};
    ghost use Rattle.sn_feed.specs.Going.{Given};
    ghost use Rattle.sn_feed.specs.Known.{KnowsItems};
    ghost use Rattle.sn_feed.specs.Still.{IsAnswer, KnowsAtLine, Still, StillBehind, StopsAtEnd, StopsFeed, ends, is_of, names_of};

    /// A feed to which nothing came yet, for a run without items. New names go to the end of `names`.
    pub fn new(alloc: Global, run: &Run, claim: &Claim, names: Names) -> Result<Feed, Memory>
        requires none { items_of run.now ≡ [] }
        requires net { net_of run.now ≡ claim.now.net }
        requires accepted { IsAccepted (boxes_of run.now) claim.now }
        requires known { Knows (is_known names) (boxes_of run.now) (net_of run.now) }
        ensures run { IfOk result (λ feed. is_of feed run.now) }
        ensures names { IfOk result (λ feed. names_of feed ≡ names) }
        ensures still { IfOk result (λ feed. (bytes : List ℕ) (given : Given) → Still feed bytes given ↔ IsAnswer run.now claim.now names bytes given) }
    {
        let once = Once::new(alloc, run)?;
        let variants = copy_sets(alloc, claim.input.as_slice())?;
        let reader = Reader::new(alloc, variants, names);
        Ok(Feed { once, reader })
    }

    /// All names so far.
    pub fn names(&self) -> &Names
        ensures { result.now ≡ names_of self.now }
    {
        self.reader.names()
    }

    /// Takes a piece of the input, and answers what the lines that end in it give.
    pub fn piece(self, alloc: Global, run: &Run, bytes: &[u8]) -> Result<(Feed, Items), FeedStop>
        requires { is_of self run.now }
        ensures run { IfOk result (λ went. is_of went.0 run.now) }
        ensures names { IfOk result (λ went. Begins (names_of self) (names_of went.0)) }
        ensures went { IfOk result (λ went. (more : List ℕ) (given : Given) → Still self (bytes.now ++ more) given ↔ StillBehind went.1 went.0 more given) }
        ensures known { IfOk result (λ went. KnowsItems (names_of went.0) went.1) }
        ensures stopped { IfErr result (StopsFeed self bytes.now) }
        ensures told { IfErr result KnowsAtLine }
    {
        let Feed { once, mut reader } = self;
        let mut items = Items::new(alloc);
        match go_through(alloc, run, &mut reader, once, bytes, &mut items) {
            Ok(once) => Ok((Feed { once, reader }, items)),
            Err(halt) => Err(stopped(halt, reader, items)),
        }
    }

    /// Ends the input: a last line may lack its line feed. Answers what it gives, and the names by which all items are printed.
    pub fn end(self, alloc: Global, run: &Run) -> Result<(Names, Items), FeedStop>
        requires { is_of self run.now }
        ensures ended { IfOk result (λ ended. (given : Given) → Still self [] given ↔ (given ≡ ends ended.0 ended.1)) }
        ensures known { IfOk result (λ ended. KnowsItems ended.0 ended.1) }
        ensures stopped { IfErr result (StopsAtEnd self) }
        ensures told { IfErr result KnowsAtLine }
    {
        let Feed { once, mut reader } = self;
        let mut items = Items::new(alloc);
        match answer_line(alloc, run, &mut reader, once, &mut items) {
            Ok(_) => Ok((reader.into_names(), items)),
            Err(halt) => Err(stopped(halt, reader, items)),
        }
    }
}

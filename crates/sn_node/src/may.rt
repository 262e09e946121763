//! Whether a component may pass its first entry on. Nothing changes, and no memory is wanted.
ghost use Rattle.std.specs.Prelude.{◌≡◌, List, is_some, option_and_then};
ghost use Rattle.sn_net.specs.Item.{ModelItem};
ghost use Rattle.sn_model.specs.Run.{net_of};
ghost use Rattle.sn_view.specs.Next.{box_gives};
ghost use Rattle.sn_view.specs.View as view;
ghost use Rattle.sn_node.specs.Answered.{form_at};
ghost use Rattle.sn_node.specs.Local.{local_at};
ghost use Rattle.sn_node.specs.Seen.{node_of, waiting_of};

use crate::entry::{Entry, Waiting};
use crate::node::Node;
use crate::parts::part_at;
use sn_model::Run;
use sn_net::Net;
use sn_record::Item;

/// Whether a box is done with this.
fn is_done(w: &Waiting) -> bool
    ensures { (answer : ModelItem → List ModelItem) → result ≡ is_some (box_gives answer (waiting_of w.now)) }
{
    match w {
        Waiting::Finished { .. } => true,
        Waiting::InFlight { .. } => false,
        Waiting::Plain(Entry::Item(Item::Rec(_))) => false,
        Waiting::Plain(Entry::Item(Item::Fault(_))) => true,
        Waiting::Plain(Entry::Mark) => true,
        Waiting::Plain(Entry::End) => true,
    }
}

impl Node {
    /// Whether its first entry is one that a box is done with.
    fn is_first_done(&self) -> bool
        ensures { (answer : ModelItem → List ModelItem) → result ≡ is_some (option_and_then (box_gives answer) (view.first_of (node_of self.now).waiting)) }
    {
        match self.waiting.first() {
            Some(first) => is_done(first),
            None => false,
        }
    }

    /// Whether it may pass its first entry on.
    pub fn may_pass(&self, run: &Run) -> bool
        ensures { result ≡ is_some (local_at run.now (form_at (net_of run.now) self.now.made.path) (node_of self.now)) }
    {
        let Some(part) = part_at(run.net(), self.made.path.as_slice()) else {
            return false;
        };
        match part {
            Net::Box { .. } => self.is_alone() && self.is_first_done(),
            Net::Filter(_) => self.is_alone() && self.first_plain().is_some(),
            Net::Sync { .. } => self.is_cell() && self.first_plain().is_some(),
            Net::Serial { .. } | Net::Choice { .. } | Net::Star { .. } | Net::Split { .. } => false,
        }
    }
}

//! The key by which the first entry of a dispatcher goes.
ghost use Rattle.std.specs.Prelude.{◌≡◌, MatchOption, None, Some};
ghost use Rattle.sn_net.specs.Dispatchers.{no_way_inside};
ghost use Rattle.sn_net.specs.Item.{modelled};
ghost use Rattle.sn_net.specs.Routable.{IsDispatcher};
ghost use Rattle.sn_net.specs.declared.net.Net.TheViews.{out-Net};
ghost use Rattle.sn_model.specs.Run.{net_of};
ghost use Rattle.sn_view.specs.Next.{both, router_of};
ghost use Rattle.sn_view.specs.Routed.{is_dispatching};
ghost use Rattle.sn_node.specs.Answered.{form_at};
ghost use Rattle.sn_node.specs.Entry.{entry_of};
ghost use Rattle.sn_node.specs.Routes.{GoesBy, KeyIs, routing_at};
ghost use Rattle.sn_node.specs.Seen.{node_of};

use crate::entry::Entry;
use crate::node::Node;
use crate::parts::part_at;
use sn_model::Run;
use sn_net::{Key, Net, route};
use sn_record::{Fault, FaultKind, Item};

/// Where a star with no replica left sends an item that does not leave.
fn no_way_inside(place: u32, key: Key) -> Key
    ensures { result ≡ no_way_inside place key }
{
    match key {
        Key::Inside => Key::Broken(Fault {
            kind: FaultKind::Depth,
            place,
        }),
        Key::Bypass => Key::Bypass,
        Key::Branch(i) => Key::Branch(i),
        Key::Value(n) => Key::Value(n),
        Key::Broken(fault) => Key::Broken(fault),
        Key::Stuck => Key::Stuck,
    }
}

/// Where a choice, a split, or a star with so many replicas left sends an item.
fn key_of(net: &Net, left: u32, item: &Item) -> Key
    requires { IsDispatcher (out-Net net.now) }
    ensures { KeyIs (out-Net net.now) left (modelled item.now) result }
{
    let key = route(net, item);
    match net {
        Net::Star { place, .. } => {
            if left == 0 {
                no_way_inside(*place, key)
            } else {
                key
            }
        }
        Net::Choice { .. } => key,
        Net::Split { .. } => key,
        Net::Box { .. } | Net::Filter(_) | Net::Sync { .. } | Net::Serial { .. } => unreachable!(),
    }
}

/// The key of an entry at a dispatcher.
fn entry_key(net: &Net, left: u32, entry: &Entry) -> Key
    requires { IsDispatcher (out-Net net.now) }
    ensures { GoesBy (both (router_of (Some (out-Net net.now)) left) (Some (entry_of entry.now))) result }
{
    match entry {
        Entry::Item(item) => key_of(net, left, item),
        Entry::Mark => Key::Bypass,
        Entry::End => Key::Bypass,
    }
}

/// Whether it is a choice, a star or a split.
fn is_dispatching(net: &Net) -> bool
    ensures { result ≡ is_dispatching (out-Net net.now) }
{
    match net {
        Net::Choice { .. } | Net::Star { .. } | Net::Split { .. } => true,
        Net::Box { .. } | Net::Filter(_) | Net::Sync { .. } | Net::Serial { .. } => false,
    }
}

impl Node {
    /// The key by which the first entry goes, where it is a dispatcher with a first entry.
    pub fn next_key(&self, run: &Run) -> Option<Key>
        ensures { MatchOption result (routing_at (form_at (net_of run.now) self.now.made.path) (node_of self.now) ≡ None) (GoesBy (routing_at (form_at (net_of run.now) self.now.made.path) (node_of self.now))) }
    {
        let Some(part) = part_at(run.net(), self.made.path.as_slice()) else {
            return None;
        };
        if !is_dispatching(part) {
            return None;
        }
        match self.first_plain() {
            Some(entry) => Some(entry_key(part, self.made.left, entry)),
            None => None,
        }
    }
}

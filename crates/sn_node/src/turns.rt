//! How a deterministic dispatcher routes its first entry.
ghost use Rattle.std.specs.Prelude.{◌≡◌, IfOk, List, OnErr, OnOk, Some, true};
ghost use Rattle.std.specs.Option.{option_map};
ghost use Rattle.sn_streams.specs.Forks.{Router};
ghost use Rattle.sn_net.specs.Dispatchers.{stream_key};
ghost use Rattle.sn_net.specs.Item.{ModelItem, modelled};
ghost use Rattle.sn_view.specs.Next as next;
ghost use Rattle.sn_view.specs.Next.{plain_entry};
ghost use Rattle.sn_view.specs.View as view;
ghost use Rattle.sn_node.specs.Decides.{DecidesFirst, DecidesTo, Redecides, Undecides};
ghost use Rattle.sn_node.specs.Entry.{entry_of};
ghost use Rattle.sn_node.specs.Routes.{EntryGoes, item_sent};
ghost use Rattle.sn_node.specs.Seen.{decision_of, node_of, state_of};
ghost use Rattle.sn_node.specs.Woken.{AreWoken};
ghost use Rattle.sn_node.specs.States.{is_in_turn};

use crate::entry::Entry;
use crate::node::{Node, State};
use sn_dispatch::Decision;
use sn_list::Memory;
use sn_net::Key;
use sn_record::Item;

/// The decision on an item with that key, and the item, if it goes to a child.
fn of_item(key: Key, item: Item) -> (Decision, Option<Item>)
    ensures decision { (r : Router ModelItem) → EntryGoes r (view.It (modelled item)) key → decision_of result.0 ≡ next.decision_of r (view.It (modelled item)) }
    ensures sent { option_map modelled result.1 ≡ item_sent (stream_key key) (view.It (modelled item)) }
{
    match key {
        Key::Bypass => (Decision::Own(item), None),
        Key::Branch(i) => (Decision::To(Key::Branch(i)), Some(item)),
        Key::Inside => (Decision::To(Key::Inside), Some(item)),
        Key::Value(n) => (Decision::To(Key::Value(n)), Some(item)),
        Key::Broken(fault) => (Decision::Own(Item::Fault(fault)), None),
        Key::Stuck => (Decision::Own(item), None),
    }
}

/// The decision on an entry with that key, and the item, if it goes to a child.
fn of_entry(key: Key, entry: Entry) -> (Decision, Option<Item>)
    ensures decision { (r : Router ModelItem) → EntryGoes r (entry_of entry) key → decision_of result.0 ≡ next.decision_of r (entry_of entry) }
    ensures sent { option_map modelled result.1 ≡ item_sent (stream_key key) (entry_of entry) }
{
    match entry {
        Entry::Item(item) => of_item(key, item),
        Entry::Mark => (Decision::Mark, None),
        Entry::End => (Decision::End, None),
    }
}

/// Notes a mark at a deterministic dispatcher.
fn note_mark(state: &mut State) -> Result<(), Memory>
    requires { is_in_turn (state_of state.old) ≡ true }
    ensures ok { OnOk result (DecidesTo view.Mark (state_of state.old) (state_of state.new)) }
    ensures err { OnErr result (state_of state.new ≡ state_of state.old) }
    ensures woken { (children : List view.Child) → AreWoken state.old children → AreWoken state.new children }
{
    match state {
        State::InTurn(fork) => match fork.note(Decision::Mark) {
            Ok(()) => Ok(()),
            Err(_) => Err(Memory),
        },
        State::Alone | State::Cell(_) | State::Freely(_) => unreachable!(),
    }
}

/// Puts another in place of the decision that was noted last.
fn set_last(state: &mut State, d: Decision)
    ensures decision { Redecides (decision_of d) (state_of state.old) (state_of state.new) }
    ensures woken { (children : List view.Child) → AreWoken state.old children → AreWoken state.new children }
{
    match state {
        State::InTurn(fork) => fork.set_last(d),
        State::Alone | State::Cell(_) | State::Freely(_) => {}
    }
}

/// Takes the decision that was noted last away.
fn drop_last(state: &mut State)
    ensures decision { Undecides (state_of state.old) (state_of state.new) }
    ensures woken { (children : List view.Child) → AreWoken state.old children → AreWoken state.new children }
{
    match state {
        State::InTurn(fork) => fork.drop_last(),
        State::Alone | State::Cell(_) | State::Freely(_) => {}
    }
}

impl Node {
    /// Decides on the first entry, which goes by that key, and answers the item, if it goes to a child. For want of memory nothing
    /// has changed: a mark is noted before the entry is taken, and the decision then stands in its place.
    pub fn route_in_turn(&mut self, key: Key) -> Result<Option<Item>, Memory>
        requires { is_in_turn (node_of self.old).state ≡ true }
        ensures ok { (r : Router ModelItem) (e : view.Entry ModelItem) → plain_entry (view.first_of (node_of self.old).waiting) ≡ Some e → EntryGoes r e key → IfOk result (λ item. DecidesFirst r e (stream_key key) (option_map modelled item) (node_of self.old) (node_of self.new)) }
        ensures err { OnErr result (node_of self.new ≡ node_of self.old) }
        ensures made { self.new.made ≡ self.old.made }
    {
        note_mark(&mut self.state)?;
        let Some(entry) = self.pop_plain() else {
            drop_last(&mut self.state);
            return Ok(None);
        };
        let (decision, item) = of_entry(key, entry);
        set_last(&mut self.state, decision);
        Ok(item)
    }
}

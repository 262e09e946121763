//! How a free dispatcher routes its first entry.
ghost use Rattle.std.specs.Prelude.{◌≡◌, ◌<◌, ◌^◌, IfOk, List, OnErr, Some, true};
ghost use Rattle.sn_streams.specs.Forks.{Router};
ghost use Rattle.sn_net.specs.Dispatchers.{stream_key};
ghost use Rattle.sn_net.specs.Item.{ModelItem, modelled};
ghost use Rattle.sn_view.specs.Next.{plain_entry};
ghost use Rattle.sn_view.specs.View as view;
ghost use Rattle.sn_node.specs.Routes.{EntryGoes};
ghost use Rattle.sn_node.specs.RoutesFreely.{Closes, FreelyRoutes, GoesOut, marks_below};
ghost use Rattle.sn_node.specs.Seen.{node_of, state_of};
ghost use Rattle.sn_node.specs.Woken.{AreWoken};
ghost use Rattle.sn_node.specs.States.{is_freely};

use crate::entry::Entry;
use crate::node::{Node, State};
use sn_list::Memory;
use sn_net::Key;
use sn_record::Item;

/// What a free dispatcher sends to its children.
#[derive(Drop)]
pub enum Sent {
    Nothing,
    /// To the child of the key.
    Item(Item),
    /// A mark, to all.
    Marks,
}

/// What becomes of an item with that key: what passes the children by, or the item itself.
fn own_of(key: Key, item: Item) -> Result<Item, Item>
    ensures { (r : Router ModelItem) → EntryGoes r (view.It (modelled item)) key → GoesOut r (modelled item) (stream_key key) result }
{
    match key {
        Key::Bypass => Ok(item),
        Key::Branch(_) => Err(item),
        Key::Inside => Err(item),
        Key::Value(_) => Err(item),
        Key::Broken(fault) => Ok(Item::Fault(fault)),
        Key::Stuck => Ok(item),
    }
}

/// Notes a mark at the input.
fn close(state: &mut State)
    requires free { is_freely (state_of state.old) ≡ true }
    requires few { marks_below (2 ^ 62) (state_of state.old) }
    ensures closes { Closes (state_of state.old) (state_of state.new) }
    ensures woken { (children : List view.Child) → AreWoken state.old children → AreWoken state.new children }
{
    match state {
        State::Freely(freely) => freely.close_epoch(),
        State::Alone | State::Cell(_) | State::InTurn(_) => unreachable!(),
    }
}

impl Node {
    /// Routes the first entry, which goes by that key, and answers what goes to children. For want of memory nothing has changed:
    /// there is room at child 0 before the entry is taken.
    pub fn route_free(&mut self, key: Key) -> Result<Sent, Memory>
        requires free { is_freely (node_of self.old).state ≡ true }
        requires few { marks_below (2 ^ 62) (node_of self.old).state }
        ensures ok { (r : Router ModelItem) (e : view.Entry ModelItem) → plain_entry (view.first_of (node_of self.old).waiting) ≡ Some e → EntryGoes r e key → IfOk result (λ sent. FreelyRoutes r e (stream_key key) sent (node_of self.old) (node_of self.new)) }
        ensures err { OnErr result (node_of self.new ≡ node_of self.old) }
        ensures made { self.new.made ≡ self.old.made }
    {
        self.children.reserve_kept(0, 1)?;
        match self.pop_plain() {
            None => Ok(Sent::Nothing),
            Some(Entry::Item(item)) => match own_of(key, item) {
                Ok(own) => {
                    self.keep(0, Entry::Item(own));
                    Ok(Sent::Nothing)
                }
                Err(item) => Ok(Sent::Item(item)),
            },
            Some(Entry::Mark) => {
                close(&mut self.state);
                self.keep(0, Entry::Mark);
                Ok(Sent::Marks)
            }
            Some(Entry::End) => {
                self.keep(0, Entry::End);
                Ok(Sent::Nothing)
            }
        }
    }
}

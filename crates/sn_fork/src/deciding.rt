//! How a fork decides on what it received.
ghost use Rattle.std.specs.Prelude.{◌≡◌, ◌∷◌, [], false, IfOk, OnErr, OnOk, map, slice_get, Some};
ghost use Rattle.sn_model.specs.Run.{net_of};
ghost use Rattle.sn_view.specs.Parts.{part_at as the_part_at};
ghost use Rattle.sn_net.specs.Dispatchers.{stream_key};
ghost use Rattle.sn_streams.specs.Keys.{Own, key_eq};
ghost use Rattle.sn_fork.specs.Turns.{Decided, without_held};
ghost use Rattle.sn_net.specs.Item.{modelled};
ghost use Rattle.sn_net.specs.Routable.{IsDispatcher};
ghost use Rattle.sn_net.specs.declared.net.Net.TheViews.{out-Net};
ghost use Rattle.sn_fork.specs.Facts.{Wants, key_in};
ghost use Rattle.sn_fork.specs.Waits.{WaitsFor};
ghost use Rattle.sn_fork.specs.Seen.{ChildSeen};
ghost use Rattle.sn_net.specs.declared.routing.Key.TheVariants as some_key;
ghost use Rattle.sn_stream.specs.declared.item.StreamItem.TheVariants as stream_item;

use crate::children::{end_each, note_for, number_of, reserve_each};
use crate::fork::Fork;
use sn_dispatch::Decision;
use sn_list::Memory;
use sn_net::{Key, Net, route};
use sn_record::{Fault, FaultKind, Item};
use sn_stream::StreamItem;

/// What waits to be decided on.
#[derive(Clone, Copy, PartialEq, Eq)]
pub(crate) enum Waits {
    Nothing,
    Mark,
    End,
    /// An item that goes by this key.
    Item(Key),
}

/// Where an item goes from a dispatcher that has so many replicas left.
fn key_for(part: &Net, left: u32, item: &Item) -> Key
    requires { IsDispatcher (out-Net part.now) }
    ensures { result ≡ key_in left (out-Net part.now) (modelled item.now) }
{
    let key = route(part, item);
    match part {
        Net::Star { place, .. } => if left == 0 && key == Key::Inside {
            Key::Broken(Fault {
                kind: FaultKind::Depth,
                place: *place,
            })
        } else {
            key
        },
        _ => key,
    }
}

impl Fork {
    /// What waits, and where it goes.
    fn waits(&self, part: &Net) -> Waits
        requires { the_part_at (net_of self.now.run) self.now.path ≡ Some part.now }
        ensures { WaitsFor self.now result }
    {
        match &self.waiting {
            None => Waits::Nothing,
            Some(StreamItem::Mark) => Waits::Mark,
            Some(StreamItem::End) => Waits::End,
            Some(StreamItem::Item(item)) => Waits::Item(key_for(part, self.left, item)),
        }
    }

    /// Decides that the item that waits passes the children by. For want of memory nothing has changed.
    fn take_bypass(&mut self) -> Result<(), Memory>
        requires { Wants self.old some_key.Bypass }
        ensures same { self.new ≡ record self.old { waiting = self.new.waiting; decisions = self.new.decisions } }
        ensures ok { OnOk result (self.new.waiting ≡ []) }
        ensures err { OnErr result (self.new ≡ self.old) }
    {
        match self.waiting.take() {
            Some(StreamItem::Item(item)) => match self.decisions.note(Decision::Own(item)) {
                Ok(()) => Ok(()),
                Err(Decision::Own(item)) => {
                    self.waiting = Some(StreamItem::Item(item));
                    Err(Memory)
                }
                Err(_) => unreachable!(),
            },
            Some(StreamItem::Mark) => unreachable!(),
            Some(StreamItem::End) => unreachable!(),
            None => unreachable!(),
        }
    }

    /// Decides that a fault passes the children by in place of the item that waits. For want of memory nothing has changed.
    fn take_fault(&mut self, fault: Fault) -> Result<(), Memory>
        requires { Wants self.old (some_key.Broken fault) }
        ensures same { self.new ≡ record self.old { waiting = self.new.waiting; decisions = self.new.decisions } }
        ensures ok { OnOk result (self.new.waiting ≡ []) }
        ensures err { OnErr result (self.new ≡ self.old) }
    {
        match self.decisions.note(Decision::Own(Item::Fault(fault))) {
            Ok(()) => {
                self.waiting = None;
                Ok(())
            }
            Err(_) => Err(Memory),
        }
    }

    /// Decides on the mark that waits. For want of memory nothing has changed.
    fn take_mark(&mut self) -> Result<(), Memory>
        requires { self.old.waiting ≡ stream_item.Mark ∷ [] }
        ensures same { self.new ≡ record self.old { waiting = self.new.waiting; decisions = self.new.decisions } }
        ensures ok { OnOk result (self.new.waiting ≡ []) }
        ensures err { OnErr result (self.new ≡ self.old) }
    {
        match self.decisions.note(Decision::Mark) {
            Ok(()) => {
                self.waiting = None;
                Ok(())
            }
            Err(_) => Err(Memory),
        }
    }

    /// Decides that the item that waits goes to a child: it is held for it with a mark behind it. For want of memory nothing has changed.
    fn take_item(&mut self, key: Key, c: usize) -> Result<(), Memory>
        requires wants { Wants self.old key }
        requires child { (child : ChildSeen) × (slice_get self.old.children c ≡ Some child) × (child.key ≡ stream_key key) }
        ensures same { self.new ≡ record self.old { waiting = self.new.waiting; decisions = self.new.decisions; children = self.new.children } }
        ensures held { map without_held self.new.children ≡ map without_held self.old.children }
        ensures ok { OnOk result (self.new.waiting ≡ []) }
        ensures err { OnErr result (self.new ≡ self.old) }
    {
        match self.waiting.take() {
            Some(x) => match note_for(&mut self.decisions, &mut self.children[c].to, key, x) {
                Ok(()) => {
                    self.first = c;
                    self.last = c + 1;
                    Ok(())
                }
                Err(x) => {
                    self.waiting = Some(x);
                    Err(Memory)
                }
            },
            None => unreachable!(),
        }
    }

    /// Decides that the item that waits goes to the child of a key. Answers the key where there is no such child; then, and for want of
    /// memory, nothing has changed.
    fn take_for(&mut self, key: Key) -> Result<Option<Key>, Memory>
        requires wants { Wants self.old key }
        requires child { key_eq (stream_key key) Own ≡ false }
        ensures same { self.new ≡ record self.old { waiting = self.new.waiting; decisions = self.new.decisions; children = self.new.children } }
        ensures held { map without_held self.new.children ≡ map without_held self.old.children }
        ensures ok { IfOk result (Decided self.old self.new) }
        ensures err { OnErr result (self.new ≡ self.old) }
    {
        match number_of(self.children.as_slice(), &self.replicas, key) {
            Some(c) => {
                self.take_item(key, c)?;
                Ok(None)
            }
            None => Ok(Some(key)),
        }
    }

    /// Decides on the end that waits: it is held for each child. For want of memory nothing has changed.
    fn take_end(&mut self) -> Result<(), Memory>
        requires { self.old.waiting ≡ stream_item.End ∷ [] }
        ensures same { self.new ≡ record self.old { waiting = self.new.waiting; decisions = self.new.decisions; children = self.new.children } }
        ensures held { map without_held self.new.children ≡ map without_held self.old.children }
        ensures ok { OnOk result (self.new.waiting ≡ []) }
        ensures err { OnErr result (self.new ≡ self.old) }
    {
        reserve_each(&mut self.children)?;
        if self.decisions.note(Decision::End).is_err() {
            return Err(Memory);
        }
        end_each(&mut self.children);
        self.first = 0;
        self.last = self.children.len();
        self.waiting = None;
        Ok(())
    }

    /// No item that waits lacks a route: none does at any place of a run.
    fn routes_all(&self)
        ensures { Wants self.now some_key.Stuck → ⊥ }
    {
        let _waiting = &self.waiting;
    }

    /// Decides on the entry that waits, if one does. Answers the key of an item that has no child yet; then, and for want of memory, nothing has
    /// changed.
    pub(crate) fn decide(&mut self, part: &Net) -> Result<Option<Key>, Memory>
        requires { the_part_at (net_of self.old.run) self.old.path ≡ Some part.now }
        ensures same { self.new ≡ record self.old { waiting = self.new.waiting; decisions = self.new.decisions; children = self.new.children } }
        ensures held { map without_held self.new.children ≡ map without_held self.old.children }
        ensures ok { IfOk result (Decided self.old self.new) }
        ensures err { OnErr result (self.new ≡ self.old) }
    {
        match self.waits(part) {
            Waits::Nothing => {}
            Waits::Mark => self.take_mark()?,
            Waits::End => self.take_end()?,
            Waits::Item(key) => match key {
                Key::Bypass => self.take_bypass()?,
                Key::Broken(fault) => self.take_fault(fault)?,
                Key::Stuck => {
                    self.routes_all();
                    unreachable!()
                }
                Key::Branch(_) => return self.take_for(key),
                Key::Inside => return self.take_for(key),
                Key::Value(_) => return self.take_for(key),
            },
        }
        Ok(None)
    }
}

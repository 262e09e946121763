//! Entries that are put where a node sends them.
ghost use Rattle.std.specs.Prelude.{◌≡◌, ◌≢◌, ◌+◌, [], ◌∷◌, OnOk, length, ℕ};
ghost use Rattle.sn_model.specs.declared.run.Run.{Run};
ghost use Rattle.sn_view.specs.Next.{send};
ghost use Rattle.sn_node.specs.Entry.{entry_of};
ghost use Rattle.sn_node.specs.Local.{given_of};
ghost use Rattle.sn_node.specs.declared.given.Given.TheVariants as given;
ghost use Rattle.sn_node.specs.declared.node.Target.{Target};
ghost use Rattle.sn_node.specs.Seen.{target_of};
ghost use Rattle.sn_graph.specs.Arena.{IsOf, view_of};
ghost use Rattle.sn_graph.specs.Quiet.{IsQuiet};
ghost use Rattle.sn_graph.specs.Room.{HasRoom, written};

use crate::arena::Arena;
use sn_list::Memory;
use sn_node::{Entry, Given, Target};
use sn_record::Items;

impl Arena {
    /// Makes room for so many entries where a node sends them. Nothing that waits changes, whether there is memory or not.
    pub(crate) fn reserve(&mut self, goes: Target, n: usize) -> Result<(), Memory>
        ensures view { view_of self.new ≡ view_of self.old }
        ensures room { OnOk result (HasRoom goes n self.new) }
        ensures rooms { (other : Target) (m : ℕ) → HasRoom other m self.old → HasRoom other m self.new }
        ensures of { (run : Run) → IsOf self.old run → IsOf self.new run }
        ensures quiet { IsQuiet self.old self.new }
    {
        match goes {
            Target::Out => {
                self.ready.reserve(n)?;
            }
            Target::Node(node) => {
                if node < self.nodes.len() {
                    self.nodes[node].reserve(n)?;
                }
            }
            Target::Child { node, child } => {
                if node < self.nodes.len() {
                    self.nodes[node].reserve_kept(child, n)?;
                }
            }
        }
        Ok(())
    }

    /// Puts an entry where a node sends it, for which there is room.
    pub(crate) fn send(&mut self, goes: Target, entry: Entry)
        requires { HasRoom goes 1 self.old }
        ensures view { view_of self.new ≡ send (target_of goes) (entry_of entry ∷ []) (view_of self.old) }
        ensures room { (n : ℕ) → HasRoom goes (n + 1) self.old → HasRoom goes n self.new }
        ensures others { (other : Target) (m : ℕ) → written other ≢ written goes → HasRoom other m self.old → HasRoom other m self.new }
        ensures of { (run : Run) → IsOf self.old run → IsOf self.new run }
        ensures quiet { IsQuiet self.old self.new }
    {
        match goes {
            Target::Out => self.ready.push_back_reserved(entry),
            Target::Node(node) => {
                if node < self.nodes.len() {
                    self.nodes[node].wait(entry);
                }
            }
            Target::Child { node, child } => {
                if node < self.nodes.len() {
                    self.nodes[node].keep(child, entry);
                }
            }
        }
    }

    /// Puts items where a node sends them, for which there is room.
    fn send_items(&mut self, goes: Target, items: Items)
        requires { HasRoom goes (length items) self.old }
        ensures view { view_of self.new ≡ send (target_of goes) (given_of (given.Items items)) (view_of self.old) }
        ensures of { (run : Run) → IsOf self.old run → IsOf self.new run }
        ensures quiet { IsQuiet self.old self.new }
    {
        for item in items.into_vec() {
            self.send(goes, Entry::Item(item));
        }
    }

    /// Puts what a node gives where it sends it, for which there is room.
    pub(crate) fn send_given(&mut self, goes: Target, given: Given)
        requires { HasRoom goes (length (given_of given)) self.old }
        ensures view { view_of self.new ≡ send (target_of goes) (given_of given) (view_of self.old) }
        ensures of { (run : Run) → IsOf self.old run → IsOf self.new run }
        ensures quiet { IsQuiet self.old self.new }
    {
        match given {
            Given::Items(items) => self.send_items(goes, items),
            Given::Entry(entry) => self.send(goes, entry),
        }
    }
}

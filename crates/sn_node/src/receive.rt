//! Entries that come in at a node.
ghost use Rattle.std.specs.Prelude.{◌≡◌, ◌+◌, ◌<◌, ◌≤◌, [], ◌∷◌, OnOk, length, ℕ};
ghost use Rattle.sn_view.specs.View as view;
ghost use Rattle.sn_node.specs.Entry.{entry_of};
ghost use Rattle.sn_node.specs.Kept.{kept_room};
ghost use Rattle.sn_node.specs.Queue.{room};
ghost use Rattle.sn_node.specs.Seen.{node_of};
ghost use Rattle.sn_node.specs.Unwaited.{without_last};

use crate::entry::Entry;
use crate::node::Node;
use sn_list::Memory;

impl Node {
    /// Makes room for so many entries behind those that wait.
    pub fn reserve(&mut self, n: usize) -> Result<(), Memory>
        ensures same { node_of self.new ≡ node_of self.old }
        ensures room { OnOk result (n ≤ room self.new.waiting) }
        ensures kept { room self.old.waiting ≤ room self.new.waiting }
        ensures children { self.new.children ≡ self.old.children }
        ensures made { self.new.made ≡ self.old.made }
    {
        self.waiting.reserve(n)
    }

    /// Puts an entry behind those that wait, for which there is room.
    pub fn wait(&mut self, entry: Entry)
        requires { 0 < room self.old.waiting }
        ensures waits { node_of self.new ≡ view.waits_more (view.Plain (entry_of entry) ∷ []) (node_of self.old) }
        ensures room { room self.new.waiting + 1 ≡ room self.old.waiting }
        ensures made { self.new.made ≡ self.old.made }
    {
        self.waiting.push(entry);
    }

    /// Takes the entry that was put last away.
    pub fn unwait(&mut self)
        ensures rest { node_of self.new ≡ without_last (node_of self.old) }
        ensures made { self.new.made ≡ self.old.made }
    {
        self.waiting.drop_last();
    }

    /// Makes room for so many entries more of a child's output.
    pub fn reserve_kept(&mut self, child: usize, n: usize) -> Result<(), Memory>
        ensures same { node_of self.new ≡ node_of self.old }
        ensures room { OnOk result (child < length self.new.children.list.items → n ≤ kept_room self.new.children child) }
        ensures rooms { (d : ℕ) → kept_room self.old.children d ≤ kept_room self.new.children d }
        ensures waiting { self.new.waiting ≡ self.old.waiting }
        ensures made { self.new.made ≡ self.old.made }
    {
        self.children.reserve_kept(child, n)
    }
}

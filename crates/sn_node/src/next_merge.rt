//! The merge that is next at a dispatcher, and what is kept for it.
ghost use Rattle.std.specs.Prelude.{◌≡◌, ◌+◌, ◌==◌, ◌<◌, ◌∷◌, [], IfNone, IfSome, List, false, length, map, true, ℕ};
ghost use Rattle.sn_streams.specs.Keys.{AreDistinct};
ghost use Rattle.sn_view.specs.Next.{may_merge};
ghost use Rattle.sn_view.specs.View as view;
ghost use Rattle.sn_net.specs.Item.{ModelItem};
ghost use Rattle.sn_node.specs.Child.{child_of};
ghost use Rattle.sn_node.specs.Entry.{entry_of};
ghost use Rattle.sn_node.specs.Kept.{kept_room};
ghost use Rattle.sn_node.specs.Seen.{node_of, state_of};
ghost use Rattle.sn_node.specs.States.{is_freely};
ghost use Rattle.sn_node.specs.Woken.{AreWoken};

use crate::children::Children;
use crate::entry::Entry;
use crate::node::{Node, State};

/// Lists a child of a free dispatcher of which more is kept now, if something of it may be merged.
fn wake(state: &mut State, children: &Children, c: usize)
    ensures same { state_of state.new ≡ state_of state.old }
    ensures woken { (old : List view.Child) (more : List (view.Entry ModelItem)) → map child_of children.now.list.items ≡ view.changed_at c (view.keeps_more more) old → AreWoken state.old old → AreWoken state.new (map child_of children.now.list.items) }
{
    match state {
        State::Freely(freely) => freely.wake(children, c),
        State::Alone | State::Cell(_) | State::InTurn(_) => {}
    }
}

impl Node {
    /// Keeps an entry of a child, if there is one of that number, for which there is room.
    pub fn keep(&mut self, c: usize, entry: Entry)
        requires { c < length self.old.children.list.items → 0 < kept_room self.old.children c }
        ensures kept { node_of self.new ≡ view.child_gives c (entry_of entry ∷ []) (node_of self.old) }
        ensures room { c < length self.old.children.list.items → kept_room self.new.children c + 1 ≡ kept_room self.old.children c }
        ensures others { (d : ℕ) → (d == c) ≡ false → kept_room self.new.children d ≡ kept_room self.old.children d }
        ensures children { length self.new.children.list.items ≡ length self.old.children.list.items }
        ensures made { self.new.made ≡ self.old.made }
    {
        self.children.keep(c, entry);
        wake(&mut self.state, &self.children, c);
    }

    /// The child whose turn it is, where it has an entry.
    fn next_turn(&self) -> Option<usize>
        requires turns { is_freely (node_of self.now).state ≡ false }
        requires distinct { AreDistinct (map (λ child. child.key) (node_of self.now).children) }
        ensures some { IfSome result (λ c. may_merge (node_of self.now) c ≡ true) }
        ensures none { IfNone result ((c : ℕ) → may_merge (node_of self.now) c ≡ false) }
    {
        if self.serves_own() {
            return Some(0);
        }
        let key = self.served_key()?;
        let c = self.children.number_of(key)?;
        if self.may_merge(c) {
            return Some(c);
        }
        None
    }

    /// A child of which something may be merged, where there is one. It looks at the child whose turn it is, or from the end of what
    /// a free dispatcher lists, where a merge leaves a child of which more may be merged.
    pub fn next_merge(&self) -> Option<usize>
        requires { AreDistinct (map (λ child. child.key) (node_of self.now).children) }
        ensures some { IfSome result (λ c. may_merge (node_of self.now) c ≡ true) }
        ensures none { IfNone result ((c : ℕ) → may_merge (node_of self.now) c ≡ false) }
    {
        match &self.state {
            State::Freely(freely) => freely.next(&self.children),
            State::Alone | State::Cell(_) | State::InTurn(_) => self.next_turn(),
        }
    }
}

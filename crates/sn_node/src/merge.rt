//! What waits of a child's output, merged at its dispatcher.
ghost use Rattle.std.specs.Prelude.{◌≡◌, ◌<◌, MatchOption, None, Some, is_some, map, slice_get, true};
ghost use Rattle.std.specs.Option.{option_map};
ghost use Rattle.sn_net.specs.Dispatchers.{stream_key};
ghost use Rattle.sn_view.specs.View as view;
ghost use Rattle.sn_view.specs.Next.{kept_of, may_merge, takes_kept};
ghost use Rattle.sn_node.specs.Child.{child_of};
ghost use Rattle.sn_node.specs.Entry.{entry_of};
ghost use Rattle.sn_node.specs.Merges.{MergesTo, PassesMark, PopsTurn};
ghost use Rattle.sn_node.specs.Seen.{decision_of, node_of, state_of};
ghost use Rattle.sn_node.specs.Woken.{AreWoken};
ghost use Rattle.sn_node.specs.States.{first_turn, free_at, has_key_at, is_freely, is_in_turn, is_own, turn_key};

use crate::children::{Children, is_same_child};
use crate::entry::Entry;
use crate::node::{Node, State};
use sn_dispatch::Decision;
use sn_net::Key;

/// What comes of a merge at a dispatcher.
#[derive(Drop)]
pub enum Merged {
    /// It may not happen.
    No,
    /// The dispatcher moved, and gives nothing.
    Nothing,
    Gives(Entry),
}

/// The key of the child to which the item went.
fn key_of(decision: &Decision) -> Option<Key>
    ensures { option_map stream_key result ≡ turn_key (Some (decision_of decision.now)) }
{
    match decision {
        Decision::To(key) => Some(*key),
        Decision::Own(_) => None,
        Decision::Mark => None,
        Decision::End => None,
    }
}

/// Whether the decision passes the children by.
fn is_own(decision: &Decision) -> bool
    ensures { result ≡ is_own (Some (decision_of decision.now)) }
{
    match decision {
        Decision::To(_) => false,
        Decision::Own(_) => true,
        Decision::Mark => true,
        Decision::End => true,
    }
}

/// Notes a mark of a child that stands in the output's epoch, and tells whether a mark goes out.
fn pass_mark(state: &mut State, children: &Children, c: usize) -> bool
    requires stands { free_at (state_of state.old) c ≡ true }
    requires woken { AreWoken state.old (map child_of children.now.list.items) }
    ensures passes { PassesMark c (state_of state.old) (state_of state.new) result }
    ensures woken { AreWoken state.new (map child_of children.now.list.items) }
{
    match state {
        State::Freely(freely) => freely.pass_mark(children, c),
        State::Alone | State::Cell(_) | State::InTurn(_) => unreachable!(),
    }
}

/// Takes children off the end of what a free dispatcher lists, of which nothing may be merged.
fn settle(state: &mut State, children: &Children)
    requires { AreWoken state.old (map child_of children.now.list.items) }
    ensures same { state_of state.new ≡ state_of state.old }
    ensures woken { AreWoken state.new (map child_of children.now.list.items) }
{
    match state {
        State::Freely(freely) => freely.settle(children),
        State::Alone | State::Cell(_) | State::InTurn(_) => {}
    }
}

impl Node {
    pub(crate) fn is_in_turn(&self) -> bool
        ensures { result ≡ is_in_turn (node_of self.now).state }
    {
        match self.state {
            State::InTurn(_) => true,
            State::Alone | State::Cell(_) | State::Freely(_) => false,
        }
    }

    pub(crate) fn is_freely(&self) -> bool
        ensures { result ≡ is_freely (node_of self.now).state }
    {
        match self.state {
            State::Freely(_) => true,
            State::Alone | State::Cell(_) | State::InTurn(_) => false,
        }
    }

    /// The decision that is to be served next.
    fn first_decision(&self) -> Option<&Decision>
        ensures { option_map (λ d. decision_of d.now) result ≡ first_turn (node_of self.now).state }
    {
        match &self.state {
            State::InTurn(fork) => fork.first(),
            State::Alone | State::Cell(_) | State::Freely(_) => None,
        }
    }

    /// The key of the child whose group is served, where one is.
    pub(crate) fn served_key(&self) -> Option<Key>
        ensures { option_map stream_key result ≡ turn_key (first_turn (node_of self.now).state) }
    {
        match self.first_decision() {
            Some(decision) => key_of(decision),
            None => None,
        }
    }

    /// Whether the first decision passes the children by.
    pub(crate) fn serves_own(&self) -> bool
        ensures { result ≡ is_own (first_turn (node_of self.now).state) }
    {
        match self.first_decision() {
            Some(decision) => is_own(decision),
            None => false,
        }
    }

    /// Takes the first decision.
    fn pop_decision(&mut self) -> Option<Decision>
        ensures popped { MatchOption result ((first_turn (node_of self.old).state ≡ None) × (node_of self.new ≡ node_of self.old)) (λ d. PopsTurn (decision_of d) (node_of self.old) (node_of self.new)) }
        ensures made { self.new.made ≡ self.old.made }
    {
        match &mut self.state {
            State::InTurn(fork) => fork.drop_first(),
            State::Alone | State::Cell(_) | State::Freely(_) => None,
        }
    }

    /// Takes the first of what is kept of a child.
    fn pop_kept(&mut self, c: usize) -> Option<Entry>
        ensures first { view.first_of (kept_of (node_of self.old).children c) ≡ option_map entry_of result }
        ensures rest { node_of self.new ≡ takes_kept c (node_of self.old) }
        ensures made { self.new.made ≡ self.old.made }
    {
        self.children.pop_kept(c)
    }

    /// Whether something is kept of a child.
    fn has_kept(&self, c: usize) -> bool
        ensures { result ≡ is_some (view.first_of (kept_of (node_of self.now).children c)) }
    {
        self.children.first_kept(c).is_some()
    }

    /// Whether the child has that key.
    fn has_key(&self, c: usize, key: Key) -> bool
        ensures { result ≡ has_key_at (stream_key key) (slice_get (node_of self.now).children c) }
    {
        match self.children.at(c) {
            Some(child) => is_same_child(key, child.key),
            None => false,
        }
    }

    /// Whether the child of a free dispatcher stands in the output's epoch.
    fn may_take(&self, c: usize) -> bool
        ensures { result ≡ free_at (node_of self.now).state c }
    {
        match &self.state {
            State::Freely(freely) => freely.may_take(c),
            State::Alone | State::Cell(_) | State::InTurn(_) => false,
        }
    }

    /// Whether the first of what waits of the output of a child may be merged.
    pub fn may_merge(&self, c: usize) -> bool
        ensures { result ≡ may_merge (node_of self.now) c }
    {
        if self.is_freely() {
            return self.may_take(c) && self.has_kept(c);
        }
        if c == 0 {
            return self.serves_own();
        }
        match self.served_key() {
            Some(key) => self.has_key(c, key) && self.has_kept(c),
            None => false,
        }
    }

    /// Serves the first decision, if it passes the children by.
    fn merge_own(&mut self) -> Merged
        requires { is_in_turn (node_of self.old).state ≡ true }
        ensures merged { MergesTo result 0 (node_of self.old) (node_of self.new) }
        ensures made { self.new.made ≡ self.old.made }
    {
        if !self.serves_own() {
            return Merged::No;
        }
        match self.pop_decision() {
            Some(Decision::Own(item)) => Merged::Gives(Entry::Item(item)),
            Some(Decision::Mark) => Merged::Gives(Entry::Mark),
            Some(Decision::End) => Merged::Gives(Entry::End),
            Some(Decision::To(_)) => Merged::No,
            None => Merged::No,
        }
    }

    /// Takes an entry of the group that is served, which is of a child other than 0.
    fn merge_group(&mut self, c: usize) -> Merged
        requires state { is_in_turn (node_of self.old).state ≡ true }
        requires child { 0 < c }
        ensures merged { MergesTo result c (node_of self.old) (node_of self.new) }
        ensures made { self.new.made ≡ self.old.made }
    {
        let Some(key) = self.served_key() else {
            return Merged::No;
        };
        if !self.has_key(c, key) {
            return Merged::No;
        }
        match self.pop_kept(c) {
            None => Merged::No,
            Some(Entry::Item(item)) => Merged::Gives(Entry::Item(item)),
            Some(Entry::Mark) => {
                let _served = self.pop_decision();
                Merged::Nothing
            }
            Some(Entry::End) => Merged::Nothing,
        }
    }

    /// Takes an entry of a child that stands in the output's epoch.
    fn merge_free(&mut self, c: usize) -> Merged
        requires { is_freely (node_of self.old).state ≡ true }
        ensures merged { MergesTo result c (node_of self.old) (node_of self.new) }
        ensures made { self.new.made ≡ self.old.made }
    {
        if !self.may_take(c) {
            return Merged::No;
        }
        match self.pop_kept(c) {
            None => Merged::No,
            Some(Entry::Item(item)) => Merged::Gives(Entry::Item(item)),
            Some(Entry::End) => Merged::Gives(Entry::End),
            Some(Entry::Mark) => {
                if pass_mark(&mut self.state, &self.children, c) {
                    Merged::Gives(Entry::Mark)
                } else {
                    Merged::Nothing
                }
            }
        }
    }

    /// Takes the first of what waits of the output of a child, if its turn has come.
    pub fn merge(&mut self, c: usize) -> Merged
        ensures merged { MergesTo result c (node_of self.old) (node_of self.new) }
        ensures made { self.new.made ≡ self.old.made }
    {
        if self.is_in_turn() {
            if c == 0 {
                return self.merge_own();
            }
            return self.merge_group(c);
        }
        if self.is_freely() {
            let merged = self.merge_free(c);
            settle(&mut self.state, &self.children);
            return merged;
        }
        Merged::No
    }
}

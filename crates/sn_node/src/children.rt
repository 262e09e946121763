//! The children of a dispatcher, found by their keys.
ghost use Rattle.std.specs.Prelude.{◌≡◌, ◌==◌, ◌+◌, ◌-◌, ◌<◌, ◌≤◌, ◌++◌, ◌∷◌, [], IfSome, None, OnErr, OnOk, false, length, map, slice_get, take, ℕ, ℤ};
ghost use Rattle.std.specs.Option.{option_copied, option_map};
ghost use Rattle.std.specs.Ordering.{int_eq};
ghost use Rattle.std.specs.VecDeque.{deque_capacity, deque_len};
ghost use Rattle.indexmap.specs.IndexMap.{get};
ghost use Rattle.sn_streams.specs.Keys.{Value, key_eq};
ghost use Rattle.sn_net.specs.Dispatchers.{stream_key};
ghost use Rattle.sn_view.specs.Next.{child_of as child_number, kept_of};
ghost use Rattle.sn_view.specs.View as view;
ghost use Rattle.sn_node.specs.Child.{child_of};
ghost use Rattle.sn_node.specs.Children.{AreKeyed, found_with, found_without, is_found_at};
ghost use Rattle.sn_node.specs.Entry.{entry_of};

use crate::entry::Entry;
use indexmap::IndexMap;
use sn_list::Memory;
use sn_net::Key;
use std::alloc::Global;
use std::collections::VecDeque;

/// A child of a dispatcher.
#[derive(Drop)]
pub struct Child {
    pub key: Key,
    /// The node at which its items come in.
    pub entry: usize,
    /// What waits of its output.
    pub kept: VecDeque<Entry>,
}

/// The children of a dispatcher, by their numbers. The replica for a value of a split is found by the value.
#[derive(Drop)]
pub struct Children {
    pub list: Vec<Child>,
    values: IndexMap<i64, usize>,
    pub ghost keyed: { AreKeyed list.items values },
}

/// Whether two keys are of the same child.
pub(crate) fn is_same_child(a: Key, b: Key) -> bool
    ensures { result ≡ key_eq (stream_key a) (stream_key b) }
{
    match a {
        Key::Branch(i) => match b {
            Key::Branch(j) => i == j,
            Key::Inside | Key::Value(_) | Key::Bypass | Key::Broken(_) | Key::Stuck => false,
        },
        Key::Inside => match b {
            Key::Inside => true,
            Key::Branch(_) | Key::Value(_) | Key::Bypass | Key::Broken(_) | Key::Stuck => false,
        },
        Key::Value(n) => match b {
            Key::Value(m) => n == m,
            Key::Branch(_) | Key::Inside | Key::Bypass | Key::Broken(_) | Key::Stuck => false,
        },
        Key::Bypass | Key::Broken(_) | Key::Stuck => match b {
            Key::Bypass | Key::Broken(_) | Key::Stuck => true,
            Key::Branch(_) | Key::Inside | Key::Value(_) => false,
        },
    }
}

/// The number of the first child of a key, by a search from the front.
fn find_child(children: &[Child], key: Key) -> Option<usize>
    ensures { result ≡ child_number (map child_of children.now) (stream_key key) }
{
    for (i, child) in children.iter().enumerate() {
        if is_same_child(key, child.key) {
            return Some(i);
        }
    }
    None
}

/// Notes the number of a new child for its value, where its key is one.
fn enter(values: &mut IndexMap<i64, usize>, key: Key, number: usize) -> Result<(), Memory>
    ensures ok { OnOk result ((v : ℤ) → get int_eq values.new v ≡ found_with (stream_key key) number v (get int_eq values.old v)) }
    ensures err { OnErr result ((v : ℤ) → get int_eq values.new v ≡ get int_eq values.old v) }
{
    match key {
        Key::Value(n) => {
            values.insert(n, number)?;
            Ok(())
        }
        Key::Bypass | Key::Branch(_) | Key::Inside | Key::Broken(_) | Key::Stuck => Ok(()),
    }
}

/// Whether this is the number that is found for a value.
fn is_number_of(values: &IndexMap<i64, usize>, n: i64, number: usize) -> bool
    ensures { result ≡ is_found_at (get int_eq values.now n) number }
{
    match values.get(&n).copied() {
        Some(found) => found == number,
        None => false,
    }
}

/// Forgets the number of a child that was taken away, where it is found for its value.
fn leave(values: &mut IndexMap<i64, usize>, key: Key, number: usize)
    ensures { (v : ℤ) → get int_eq values.new v ≡ found_without (stream_key key) number v (get int_eq values.old v) }
{
    let Key::Value(n) = key else {
        return;
    };
    if is_number_of(values, n, number) {
        let _number = values.swap_remove(&n);
    }
}

/// The first entry that is kept.
fn first_entry(queue: &VecDeque<Entry>) -> Option<&Entry>
    ensures { option_map (λ e. entry_of e.now) result ≡ view.first_of (map entry_of queue.now.items) }
{
    queue.front()
}

/// Takes the first entry that is kept.
fn pop_entry(queue: &mut VecDeque<Entry>) -> Option<Entry>
    ensures first { view.first_of (map entry_of queue.old.items) ≡ option_map entry_of result }
    ensures rest { map entry_of queue.new.items ≡ view.rest_of (map entry_of queue.old.items) }
    ensures room { deque_capacity queue.old - deque_len queue.old ≤ deque_capacity queue.new - deque_len queue.new }
{
    queue.pop_front()
}

/// Puts an entry behind those that are kept, for which there is room.
fn push_entry(queue: &mut VecDeque<Entry>, entry: Entry)
    requires { 0 < deque_capacity queue.old - deque_len queue.old }
    ensures items { map entry_of queue.new.items ≡ map entry_of queue.old.items ++ entry_of entry ∷ [] }
    ensures room { deque_capacity queue.new - deque_len queue.new + 1 ≡ deque_capacity queue.old - deque_len queue.old }
{
    queue.push_back_reserved(entry);
}

impl Children {
    ghost use Rattle.sn_node.specs.Kept.{kept_room};

    /// No child, and no memory is taken.
    pub fn new(alloc: Global) -> Children
        ensures { result.list.items ≡ [] }
    {
        Children {
            list: Vec::new(alloc),
            values: IndexMap::new(alloc),
        }
    }

    pub fn len(&self) -> usize
        ensures { result ≡ length self.now.list.items }
    {
        self.list.len()
    }

    /// The child of a number.
    pub fn at(&self, c: usize) -> Option<&Child>
        ensures { option_copied result ≡ slice_get self.now.list.items c }
    {
        self.list.get(c)
    }

    /// The number of the replica for a value.
    fn number_of_value(&self, n: i64) -> Option<usize>
        ensures { result ≡ child_number (map child_of self.now.list.items) (Value n) }
    {
        self.values.get(&n).copied()
    }

    /// The number of the first child of a key. A child for a value is found at once, and others are among the first.
    pub fn number_of(&self, key: Key) -> Option<usize>
        ensures number { result ≡ child_number (map child_of self.now.list.items) (stream_key key) }
        ensures within { IfSome result (λ c. c < length self.now.list.items) }
    {
        match key {
            Key::Value(n) => self.number_of_value(n),
            Key::Bypass | Key::Branch(_) | Key::Inside | Key::Broken(_) | Key::Stuck => {
                find_child(self.list.as_slice(), key)
            }
        }
    }

    /// Adds a child behind the others, of which nothing is kept.
    pub fn add(&mut self, alloc: Global, key: Key, entry: usize) -> Result<(), Memory>
        requires { child_number (map child_of self.old.list.items) (stream_key key) ≡ None }
        ensures ok { OnOk result (map child_of self.new.list.items ≡ map child_of self.old.list.items ++ record { key = stream_key key; entry = entry; kept = [] } ∷ []) }
        ensures err { OnErr result (map child_of self.new.list.items ≡ map child_of self.old.list.items) }
        ensures rooms { (d : ℕ) → kept_room self.old d ≤ kept_room self.new d }
    {
        self.list.reserve(1)?;
        enter(&mut self.values, key, self.list.len())?;
        self.list.push_reserved(Child {
            key,
            entry,
            kept: VecDeque::new(alloc),
        });
        Ok(())
    }

    /// Takes the child that was added last away.
    pub fn drop_last(&mut self)
        ensures rest { map child_of self.new.list.items ≡ take (length self.old.list.items - 1) (map child_of self.old.list.items) }
        ensures rooms { (d : ℕ) → d < length self.new.list.items → kept_room self.old d ≤ kept_room self.new d }
    {
        let Some(child) = self.list.pop() else {
            return;
        };
        leave(&mut self.values, child.key, self.list.len());
    }

    /// Makes room for so many more entries to be kept of a child.
    pub fn reserve_kept(&mut self, c: usize, n: usize) -> Result<(), Memory>
        ensures same { map child_of self.new.list.items ≡ map child_of self.old.list.items }
        ensures ok { OnOk result (c < length self.new.list.items → n ≤ kept_room self.new c) }
        ensures rooms { (d : ℕ) → kept_room self.old d ≤ kept_room self.new d }
    {
        if c < self.list.len() {
            self.list[c].kept.reserve(n)?;
        }
        Ok(())
    }

    /// Keeps an entry of a child, if there is one of that number, for which there is room.
    pub fn keep(&mut self, c: usize, entry: Entry)
        requires { c < length self.old.list.items → 0 < kept_room self.old c }
        ensures kept { map child_of self.new.list.items ≡ view.changed_at c (view.keeps_more (entry_of entry ∷ [])) (map child_of self.old.list.items) }
        ensures room { c < length self.old.list.items → kept_room self.new c + 1 ≡ kept_room self.old c }
        ensures others { (d : ℕ) → (d == c) ≡ false → kept_room self.new d ≡ kept_room self.old d }
    {
        if c < self.list.len() {
            push_entry(&mut self.list[c].kept, entry);
        }
    }

    /// Takes the first entry that is kept of a child.
    pub fn pop_kept(&mut self, c: usize) -> Option<Entry>
        ensures first { view.first_of (kept_of (map child_of self.old.list.items) c) ≡ option_map entry_of result }
        ensures rest { map child_of self.new.list.items ≡ view.changed_at c (λ child. record child { kept = view.rest_of child.kept }) (map child_of self.old.list.items) }
        ensures rooms { (d : ℕ) → kept_room self.old d ≤ kept_room self.new d }
    {
        if c >= self.list.len() {
            return None;
        }
        pop_entry(&mut self.list[c].kept)
    }

    /// The first entry that is kept of a child.
    pub fn first_kept(&self, c: usize) -> Option<&Entry>
        ensures { option_map (λ e. entry_of e.now) result ≡ view.first_of (kept_of (map child_of self.now.list.items) c) }
    {
        if c >= self.list.len() {
            return None;
        }
        first_entry(&self.list[c].kept)
    }
}

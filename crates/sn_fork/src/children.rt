//! The children of a fork: where the one of a key is, and what is held for them.
ghost use Rattle.std.specs.Prelude.{◌≡◌, ◌<◌, ◌++◌, ◌∷◌, [], IfErr, IfSome, OnErr, OnOk, map, slice_get, None, Some, ℤ};
ghost use Rattle.std.specs.Ordering.{int_eq};
ghost use Rattle.indexmap.specs.IndexMap.{get};
ghost use Rattle.sn_net.specs.Dispatchers.{stream_key};
ghost use Rattle.sn_node.specs.Children.{found_with};
ghost use Rattle.sn_histories.specs.Entries.{End, Mark};
ghost use Rattle.std.specs.List.{All};
ghost use Rattle.sn_stream.specs.Ends.{entry_of};
ghost use Rattle.sn_component.specs.Outbox.{given, room};
ghost use Rattle.sn_fork.specs.Fork.{child_seen};
ghost use Rattle.sn_fork.specs.declared.fork.Child.{Child};
ghost use Rattle.sn_fork.specs.Seen.{AllHold};
ghost use Rattle.sn_fork.specs.Table.{AreKeyed};
ghost use Rattle.sn_dispatch.specs.declared.det_fork.Decision.TheVariants as some_decision;

use crate::fork::Child;
use indexmap::IndexMap;
use sn_component::Outbox;
use sn_dispatch::{Decision, DetFork};
use sn_list::Memory;
use sn_net::Key;
use sn_stream::StreamItem;

/// Notes the number of a new child for its value, where its key is one.
pub(crate) fn enter(
    replicas: &mut IndexMap<i64, usize>,
    key: Key,
    number: usize,
) -> Result<(), Memory>
    ensures ok { OnOk result ((v : ℤ) → get int_eq replicas.new v ≡ found_with (stream_key key) number v (get int_eq replicas.old v)) }
    ensures err { OnErr result ((v : ℤ) → get int_eq replicas.new v ≡ get int_eq replicas.old v) }
{
    match key {
        Key::Value(n) => {
            replicas.insert(n, number)?;
            Ok(())
        }
        Key::Bypass | Key::Branch(_) | Key::Inside | Key::Broken(_) | Key::Stuck => Ok(()),
    }
}

/// The number of the replica for a value.
fn replica_of(replicas: &IndexMap<i64, usize>, n: i64) -> Option<usize>
    ensures { result ≡ get int_eq replicas.now n }
{
    replicas.get(&n).copied()
}

/// The number of the child of a key, by a search among all where it isn't at the place where it is likely to be.
fn find(children: &[Child], key: Key, likely: usize) -> Option<usize>
    ensures some { IfSome result (λ c. (child : Child) × (slice_get children.now c ≡ Some child) × (child.key ≡ key)) }
    ensures none { result ≡ None → All (λ (child : Child). child.key ≡ key → ⊥) children.now }
{
    if likely < children.len() && children[likely].key == key {
        return Some(likely);
    }
    for c in 0..children.len() {
        if children[c].key == key {
            return Some(c);
        }
    }
    None
}

/// The number of the child of a key, if there is one. A replica is found by its value at once; the branches of a choice are few and stand in
/// order, and a level of a star has one child.
pub(crate) fn number_of(
    children: &[Child],
    replicas: &IndexMap<i64, usize>,
    key: Key,
) -> Option<usize>
    requires { AreKeyed (map child_seen children.now) replicas.now }
    ensures some { IfSome result (λ c. (child : Child) × (slice_get children.now c ≡ Some child) × (child.key ≡ key)) }
    ensures none { result ≡ None → All (λ (child : Child). child.key ≡ key → ⊥) children.now }
{
    match key {
        Key::Value(n) => replica_of(replicas, n),
        Key::Branch(i) => find(children, key, i as usize),
        Key::Bypass | Key::Inside | Key::Broken(_) | Key::Stuck => find(children, key, 0),
    }
}

/// Makes room for the end in the way to each child.
pub(crate) fn reserve_each(children: &mut Vec<Child>) -> Result<(), Memory>
    ensures same { map child_seen children.new.items ≡ map child_seen children.old.items }
    ensures room { OnOk result (All (λ (c : Child). 0 < room c.to) children.new.items) }
{
    for c in 0..children.len() {
        children[c].to.reserve(1)?;
    }
    Ok(())
}

/// Holds the end for each child.
pub(crate) fn end_each(children: &mut Vec<Child>)
    requires { All (λ (c : Child). 0 < room c.to) children.old.items }
    ensures { AllHold End (map child_seen children.old.items) (map child_seen children.new.items) }
{
    for c in 0..children.len() {
        children[c].to.hold(StreamItem::End);
    }
}

/// Notes that an item goes to a child, and holds it for the child with a mark behind it. For want of memory the item comes back.
pub(crate) fn note_for(
    decisions: &mut DetFork,
    to: &mut Outbox,
    key: Key,
    x: StreamItem,
) -> Result<(), StreamItem>
    ensures noted { OnOk result (decisions.new ≡ decisions.old ++ some_decision.To key ∷ []) }
    ensures put { to.new.put ≡ to.old.put }
    ensures given { OnOk result (given to.new ≡ given to.old ++ entry_of x ∷ Mark ∷ []) }
    ensures decisions { OnErr result (decisions.new ≡ decisions.old) }
    ensures held { OnErr result (to.new.held.items ≡ to.old.held.items) }
    ensures back { IfErr result (λ refused. refused ≡ x) }
{
    if to.reserve(2).is_err() {
        return Err(x);
    }
    if decisions.note(Decision::To(key)).is_err() {
        return Err(x);
    }
    to.hold(x);
    to.hold(StreamItem::Mark);
    Ok(())
}

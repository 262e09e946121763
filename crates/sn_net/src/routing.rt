//! Where a choice, a star or a split sends an item.
ghost use Rattle.std.specs.Prelude.{◌≡◌, ◌≤◌, IfSome, IsTrue, length};
ghost use Rattle.std.specs.FinMap.{contains_key};
ghost use Rattle.sn_record.specs.Record.{score as size_of_best};
ghost use Rattle.sn_tagexpr.specs.Evaluation.{every_tag, worth};
ghost use Rattle.sn_net.specs.declared.net.Net.TheViews.{out-Net};
ghost use Rattle.sn_net.specs.Answer.{fault_at, tag_number};
ghost use Rattle.sn_net.specs.Best.{after_branch, better};
ghost use Rattle.sn_net.specs.Filter.{is_over, tag as tag_label};
ghost use Rattle.sn_net.specs.Item.{modelled};
ghost use Rattle.sn_net.specs.Routable.{IsDispatcher};
ghost use Rattle.sn_net.specs.Route.{best_branch, choice_key, guarded, key_at, record_key, split_key, tap_key};
ghost use Rattle.sn_net.specs.WellFormed.{most_branches};

use crate::filter::tag;
use crate::net::Net;
use crate::tags::RecordTags;
use sn_list::Seq;
use sn_record::{Fault, FaultKind, Item, LabelSet, Record, Value, score};
use sn_tagexpr::{ExprFault, TagExpr, eval};

/// Where an item goes.
#[derive(Clone, Copy, PartialEq, Eq)]
pub enum Key {
    /// Past the children, as it is.
    Bypass,
    /// To the branch of a choice with that number, from 0.
    Branch(u32),
    /// Into the body of a star.
    Inside,
    /// To the replica of a split for that value of its tag.
    Value(i64),
    /// Nowhere: it becomes the fault, which passes the children.
    Broken(Fault),
    /// Nowhere: there is no route for it.
    Stuck,
}

/// The branch that a record matches best among those seen so far, and its score.
#[derive(Clone, Copy, PartialEq, Eq)]
struct Best {
    branch: u32,
    size: u64,
}

/// The better of two; of equals the first.
fn better(best: Option<Best>, next: Best) -> Option<Best>
    ensures { result ≡ better best next }
{
    match best {
        Some(earlier) if next.size <= earlier.size => Some(earlier),
        _ => Some(next),
    }
}

/// The best so far, or the next branch where the record matches its face better.
fn after_branch(best: Option<Best>, branch: u32, face: &[LabelSet], r: &Record) -> Option<Best>
    ensures { result ≡ after_branch best branch (size_of_best face.now r.now) }
{
    match score(face, r) {
        Some(size) => better(best, Best { branch, size }),
        None => best,
    }
}

/// The place of the leftmost of the faces with the greatest score, if the record matches a variant of any.
fn best_branch(faces: &[Seq<LabelSet>], r: &Record) -> Option<u32>
    requires { length faces.now ≤ most_branches }
    ensures { result ≡ best_branch faces.now r.now }
{
    let mut best = None;
    for i in 0..faces.len() {
        best = after_branch(best, i as u32, faces[i].as_slice(), r);
    }
    match best {
        Some(best) => Some(best.branch),
        None => None,
    }
}

/// Where a choice with these faces sends a record.
fn choice_key(faces: &[Seq<LabelSet>], r: &Record) -> Key
    requires { length faces.now ≤ most_branches }
    ensures { result ≡ choice_key faces.now r.now }
{
    match best_branch(faces, r) {
        Some(branch) => Key::Branch(branch),
        None => Key::Stuck,
    }
}

/// The fault of an expression, at a place.
fn fault_at(place: u32, fault: ExprFault) -> Fault
    ensures { result ≡ fault_at place fault }
{
    let kind = match fault {
        ExprFault::Overflow => FaultKind::Overflow,
        ExprFault::DivZero => FaultKind::DivZero,
    };
    Fault { kind, place }
}

/// Where a guard sends a record that matches the exit, which has all tags of the guard.
fn guard_key(place: u32, guard: &TagExpr, r: &Record) -> Key
    requires { IsTrue (every_tag (λ id. contains_key r.now (tag_label id)) guard.now) }
    ensures { result ≡ guarded place (worth (tag_number r.now) guard.now) }
{
    match eval(guard, &RecordTags(r)) {
        Ok(0) => Key::Inside,
        Ok(_) => Key::Bypass,
        Err(fault) => Key::Broken(fault_at(place, fault)),
    }
}

/// Where the tap of a star sends a record.
fn tap_key(place: u32, exit: &LabelSet, guard: &Option<TagExpr>, r: &Record) -> Key
    requires { IfSome guard.now (λ test. IsTrue (is_over exit.now test)) }
    ensures { result ≡ tap_key place exit.now guard.now r.now }
{
    if !r.matches(exit) {
        return Key::Inside;
    }
    match guard {
        Some(guard) => guard_key(place, guard, r),
        None => Key::Bypass,
    }
}

/// Where a split sends a record.
fn split_key(id: u32, r: &Record) -> Key
    ensures { result ≡ split_key id r.now }
{
    match r.get(tag(id)) {
        Some(Value::Int(n)) => Key::Value(*n),
        Some(_) => unreachable!(),
        None => Key::Stuck,
    }
}

/// Where a dispatcher sends a record.
fn record_key(net: &Net, r: &Record) -> Key
    requires { IsDispatcher (out-Net net.now) }
    ensures { result ≡ record_key (out-Net net.now) r.now }
{
    match net {
        Net::Choice { faces, .. } => choice_key(faces.as_slice(), r),
        Net::Star {
            place,
            exit,
            guard,
            ..
        } => tap_key(*place, exit, guard, r),
        Net::Split { tag, .. } => split_key(*tag, r),
        Net::Box { .. } | Net::Filter(_) | Net::Sync { .. } | Net::Serial { .. } => unreachable!(),
    }
}

/// Where a choice, a star or a split sends an item. A record goes to the branch of a choice whose face it matches best, of
/// equals to the leftmost; leaves a star where it matches the exit and the guard is not 0, and goes inside where not; and
/// goes to the replica of a split for its tag's value. A fault passes by. Takes no memory.
pub fn route(net: &Net, item: &Item) -> Key
    requires { IsDispatcher (out-Net net.now) }
    ensures { result ≡ key_at (out-Net net.now) (modelled item.now) }
{
    match item {
        Item::Rec(r) => record_key(net, r),
        Item::Fault(_) => Key::Bypass,
    }
}

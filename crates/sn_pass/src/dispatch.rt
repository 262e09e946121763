//! Where choices, splits and stars send what comes to them. What passes their children by is given out here.
ghost use Rattle.std.specs.Prelude.{◌≡◌, ◌==◌, IfOk, if◌then◌else◌, map};
ghost use Rattle.sn_net.specs.declared.net.Net.TheViews.{out-Net};
ghost use Rattle.sn_net.specs.Dispatchers.{no_way_inside};
ghost use Rattle.sn_net.specs.Routable.{IsDispatcher};
ghost use Rattle.sn_net.specs.Route.{record_key};
ghost use Rattle.sn_pass.specs.Flowing.{flows};
ghost use Rattle.sn_pass.specs.Passing.{IsAtChoice, IsAtSplit, IsAtStar, IsChosen, IsSplit, IsTapped};

use crate::flowing::Flowing;
use sn_list::{Memory, Seq};
use sn_net::{Key, Net, route};
use sn_record::{Fault, FaultKind, Item, LabelSet, Record};
use sn_stack::append;
use sn_tagexpr::TagExpr;

/// Where a dispatcher sends a record, which comes back.
fn key_of(net: &Net, taken: Record) -> (Key, Record)
    requires { IsDispatcher (out-Net net.now) }
    ensures key { result.0 ≡ record_key (out-Net net.now) taken }
    ensures same { result.1 ≡ taken }
{
    let item = Item::Rec(taken);
    let key = route(net, &item);
    match item {
        Item::Rec(taken) => (key, taken),
        Item::Fault(_) => unreachable!(),
    }
}

/// The branch of a choice for a record, or nothing for what passes all by and is given out.
pub fn choose(
    net: &Net,
    place: u32,
    faces: &[Seq<LabelSet>],
    item: Flowing,
    out: &mut Seq<Flowing>,
) -> Result<Option<(u32, Record)>, Memory>
    requires { IsAtChoice net.now faces.now }
    ensures { IfOk result (IsChosen place faces.now (flows item) (map flows out.old) (map flows out.new)) }
{
    match item {
        Flowing::Rec(taken) => {
            let (key, taken) = key_of(net, taken);
            match key {
                Key::Branch(branch) => Ok(Some((branch, taken))),
                Key::Stuck => {
                    append(out, Flowing::Stuck(place))?;
                    Ok(None)
                }
                Key::Bypass | Key::Inside | Key::Value(_) | Key::Broken(_) => unreachable!(),
            }
        }
        Flowing::Fault(fault) => {
            append(out, Flowing::Fault(fault))?;
            Ok(None)
        }
        Flowing::Stuck(at) => {
            append(out, Flowing::Stuck(at))?;
            Ok(None)
        }
    }
}

/// The value of a split's tag for a record, or nothing for what passes all replicas by and is given out.
pub fn split(
    net: &Net,
    place: u32,
    tag: u32,
    item: Flowing,
    out: &mut Seq<Flowing>,
) -> Result<Option<(i64, Record)>, Memory>
    requires { IsAtSplit net.now tag }
    ensures { IfOk result (IsSplit place tag (flows item) (map flows out.old) (map flows out.new)) }
{
    match item {
        Flowing::Rec(taken) => {
            let (key, taken) = key_of(net, taken);
            match key {
                Key::Value(n) => Ok(Some((n, taken))),
                Key::Stuck => {
                    append(out, Flowing::Stuck(place))?;
                    Ok(None)
                }
                Key::Bypass | Key::Branch(_) | Key::Inside | Key::Broken(_) => unreachable!(),
            }
        }
        Flowing::Fault(fault) => {
            append(out, Flowing::Fault(fault))?;
            Ok(None)
        }
        Flowing::Stuck(at) => {
            append(out, Flowing::Stuck(at))?;
            Ok(None)
        }
    }
}

/// The key before so many replicas: before the last one there is no way inside.
fn at_level(place: u32, left: u32, key: Key) -> Key
    ensures { result ≡ (if left == 0 then no_way_inside place key else key) }
{
    match key {
        Key::Inside if left == 0 => Key::Broken(Fault {
            kind: FaultKind::Depth,
            place,
        }),
        _ => key,
    }
}

/// The record that goes inside at the tap before so many replicas, or nothing for what leaves there and is given out.
pub fn tap(
    net: &Net,
    place: u32,
    exit: &LabelSet,
    guard: &Option<TagExpr>,
    left: u32,
    item: Flowing,
    out: &mut Seq<Flowing>,
) -> Result<Option<Record>, Memory>
    requires { IsAtStar net.now place exit.now guard.now }
    ensures { IfOk result (IsTapped place exit.now guard.now left (flows item) (map flows out.old) (map flows out.new)) }
{
    match item {
        Flowing::Rec(taken) => {
            let (key, taken) = key_of(net, taken);
            let given = match at_level(place, left, key) {
                Key::Inside => return Ok(Some(taken)),
                Key::Broken(fault) => Flowing::Fault(fault),
                Key::Stuck => Flowing::Stuck(place),
                Key::Bypass | Key::Branch(_) | Key::Value(_) => Flowing::Rec(taken),
            };
            append(out, given)?;
            Ok(None)
        }
        Flowing::Fault(fault) => {
            append(out, Flowing::Fault(fault))?;
            Ok(None)
        }
        Flowing::Stuck(at) => {
            append(out, Flowing::Stuck(at))?;
            Ok(None)
        }
    }
}

//! Copies of networks.
ghost use Rattle.std.specs.Prelude.{◌≡◌, IfOk};

use crate::faces::copy_sets;
use crate::list::append;
use crate::net::Net;
use sn_list::{Boxed, Memory, Seq};
use sn_record::LabelSet;
use sn_tagexpr::TagExpr;
use std::alloc::Global;

/// A copy of a guard, if there is one.
pub fn copy_guard(alloc: Global, guard: &Option<TagExpr>) -> Result<Option<TagExpr>, Memory>
    ensures { IfOk result (λ copy. copy ≡ guard.now) }
{
    match guard {
        Some(guard) => {
            let copy = guard.copy(alloc)?;
            Ok(Some(copy))
        }
        None => Ok(None),
    }
}

/// A copy of each of the faces.
pub fn copy_faces(alloc: Global, faces: &[Seq<LabelSet>]) -> Result<Seq<Seq<LabelSet>>, Memory>
    ensures { IfOk result (λ copies. copies ≡ faces.now) }
{
    let mut copies = Seq::new(alloc);
    for face in faces {
        let copy = copy_sets(alloc, face.as_slice())?;
        append(&mut copies, copy)?;
    }
    Ok(copies)
}

/// A copy of each of the nets.
#[cycle(copy)]
fn copy_each(alloc: Global, nets: &[Net]) -> Result<Seq<Net>, Memory>
    ensures { IfOk result (λ copies. copies ≡ nets.now) }
{
    let mut copies = Seq::new(alloc);
    for net in nets {
        let copy = net.copy(alloc)?;
        append(&mut copies, copy)?;
    }
    Ok(copies)
}

/// A copy of what is in the box, in a box of its own.
#[cycle(copy)]
fn copy_boxed(alloc: Global, part: &Boxed<Net>) -> Result<Boxed<Net>, Memory>
    ensures { IfOk result (λ copy. copy ≡ part.now) }
{
    let copy = part.get().copy(alloc)?;
    Boxed::new(alloc, copy)
}

impl Net {
    /// A copy. As deep in calls as the network is high.
    #[cycle(copy)]
    pub fn copy(&self, alloc: Global) -> Result<Net, Memory>
        ensures { IfOk result (λ copy. copy ≡ self.now) }
    {
        match self {
            Net::Box { place, number } => Ok(Net::Box {
                place: *place,
                number: *number,
            }),
            Net::Filter(filter) => Ok(Net::Filter(filter.copy(alloc)?)),
            Net::Sync { place, patterns } => {
                let patterns = copy_sets(alloc, patterns.as_slice())?;
                Ok(Net::Sync {
                    place: *place,
                    patterns,
                })
            }
            Net::Serial { left, right } => {
                let left = copy_boxed(alloc, left)?;
                let right = copy_boxed(alloc, right)?;
                Ok(Net::Serial { left, right })
            }
            Net::Choice {
                place,
                merge,
                branches,
                faces,
            } => {
                let branches = copy_each(alloc, branches.as_slice())?;
                let faces = copy_faces(alloc, faces.as_slice())?;
                Ok(Net::Choice {
                    place: *place,
                    merge: *merge,
                    branches,
                    faces,
                })
            }
            Net::Star {
                place,
                merge,
                body,
                exit,
                guard,
            } => {
                let body = copy_boxed(alloc, body)?;
                let exit = exit.copy()?;
                let guard = copy_guard(alloc, guard)?;
                Ok(Net::Star {
                    place: *place,
                    merge: *merge,
                    body,
                    exit,
                    guard,
                })
            }
            Net::Split {
                place,
                merge,
                body,
                tag,
            } => {
                let body = copy_boxed(alloc, body)?;
                Ok(Net::Split {
                    place: *place,
                    merge: *merge,
                    body,
                    tag: *tag,
                })
            }
        }
    }
}

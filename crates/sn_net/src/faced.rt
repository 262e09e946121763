//! Networks made from their parts, each beside its face.
//!
//! `face` walks all that is below a node. Here a node's face comes from those of its parts, so a network that is made from
//! its leaves up is never walked.
ghost use Rattle.std.specs.Prelude.{◌≡◌, ◌<◌, ◌++◌, ◌∷◌, [], IfOk, OnOk, List, All, length, map};
ghost use Rattle.std.specs.List.{flat_map};
ghost use Rattle.sn_net.specs.declared.expr.BoxProgram.{BoxProgram};
ghost use Rattle.sn_net.specs.declared.net.Net.TheVariants as form;
ghost use Rattle.sn_net.specs.Faced.{IsFaced, net_of, face_of};

use crate::expr::Boxes;
use crate::faces::{ascending, copy_sets, face, push_copies, push_copy, push_tagged};
use crate::filter::Filter;
use crate::list::append;
use crate::net::{Merge, Net};
use sn_list::{Boxed, Memory, Seq};
use sn_record::LabelSet;
use sn_tagexpr::TagExpr;
use std::alloc::Global;

/// A net and its face.
pub struct Faced {
    pub net: Net,
    pub face: Seq<LabelSet>,
}

/// Written out, so that a function that gives a net up calls this, and is not proved over each form of the net.
impl Drop for Faced {
    fn drop(self) {
        let Faced {
            net: _net,
            face: _face,
        } = self;
    }
}

/// The nets of the branches, and their faces.
fn apart(alloc: Global, branches: Seq<Faced>) -> Result<(Seq<Net>, Seq<Seq<LabelSet>>), Memory>
    ensures { IfOk result (λ parts. (parts.0 ≡ map net_of branches) × (parts.1 ≡ map face_of branches)) }
{
    let mut nets = Seq::new(alloc);
    let mut faces = Seq::new(alloc);
    for branch in branches.into_vec() {
        branch.append_to(&mut nets, &mut faces)?;
    }
    Ok((nets, faces))
}

/// A copy of the sets of all faces, in their order.
fn all_sets(alloc: Global, faces: &[Seq<LabelSet>]) -> Result<Seq<LabelSet>, Memory>
    ensures { IfOk result (λ sets. sets ≡ flat_map (λ face. face) faces.now) }
{
    let mut sets = Seq::new(alloc);
    for face in faces {
        push_copies(&mut sets, face.as_slice())?;
    }
    Ok(sets)
}

impl Faced {
    /// The net alone.
    pub fn into_net(self) -> Net
        ensures { result ≡ self.net }
    {
        let Faced { net, face: _face } = self;
        net
    }

    /// The net on the heap, and its face.
    fn into_boxed(self, alloc: Global) -> Result<(Boxed<Net>, Seq<LabelSet>), Memory>
        ensures net { IfOk result (λ parts. parts.0 ≡ self.net) }
        ensures face { IfOk result (λ parts. parts.1 ≡ self.face) }
    {
        let Faced { net, face } = self;
        let net = Boxed::new(alloc, net)?;
        Ok((net, face))
    }

    /// The net on the heap, and its face with one more set.
    fn into_boxed_with(
        self,
        alloc: Global,
        set: &LabelSet,
    ) -> Result<(Boxed<Net>, Seq<LabelSet>), Memory>
        ensures net { IfOk result (λ parts. parts.0 ≡ self.net) }
        ensures sets { IfOk result (λ parts. parts.1 ≡ self.face ++ set.now ∷ []) }
    {
        let (net, mut sets) = self.into_boxed(alloc)?;
        push_copy(&mut sets, set)?;
        Ok((net, sets))
    }

    /// Appends the net and its face.
    fn append_to(self, nets: &mut Seq<Net>, faces: &mut Seq<Seq<LabelSet>>) -> Result<(), Memory>
        ensures nets { OnOk result (nets.new ≡ nets.old ++ self.net ∷ []) }
        ensures faces { OnOk result (faces.new ≡ faces.old ++ self.face ∷ []) }
    {
        let Faced { net, face } = self;
        append(nets, net)?;
        append(faces, face)
    }

    /// A call of one of the boxes. Its face is the box's input variant.
    pub fn of_box(alloc: Global, place: u32, number: u32, boxes: &Boxes) -> Result<Faced, Memory>
        requires { number < length boxes.now }
        ensures net { IfOk result (λ faced. faced.net ≡ form.Box place number) }
        ensures face { IfOk result (IsFaced boxes.now) }
    {
        let mut faced = Faced {
            net: Net::Box { place, number },
            face: Seq::new(alloc),
        };
        faced.face = face(alloc, &faced.net, boxes)?;
        Ok(faced)
    }

    pub fn filter(alloc: Global, filter: Filter) -> Result<Faced, Memory>
        ensures net { IfOk result (λ faced. faced.net ≡ form.Filter filter) }
        ensures face { (boxes : List BoxProgram) → IfOk result (IsFaced boxes) }
    {
        let mut face = Seq::new(alloc);
        push_copy(&mut face, &filter.pattern)?;
        Ok(Faced {
            net: Net::Filter(filter),
            face,
        })
    }

    pub fn sync(alloc: Global, place: u32, patterns: Seq<LabelSet>) -> Result<Faced, Memory>
        ensures net { IfOk result (λ faced. faced.net ≡ form.Sync place patterns) }
        ensures face { (boxes : List BoxProgram) → IfOk result (IsFaced boxes) }
    {
        let sets = copy_sets(alloc, patterns.as_slice())?;
        Ok(Faced {
            net: Net::Sync { place, patterns },
            face: ascending(sets),
        })
    }

    /// Its face is that of `left`.
    pub fn serial(alloc: Global, left: Faced, right: Faced) -> Result<Faced, Memory>
        ensures net { IfOk result (λ faced. faced.net ≡ form.Serial left.net right.net) }
        ensures face { (boxes : List BoxProgram) → IsFaced boxes left → IfOk result (IsFaced boxes) }
    {
        let (left, face) = left.into_boxed(alloc)?;
        let (right, _) = right.into_boxed(alloc)?;
        Ok(Faced {
            net: Net::Serial { left, right },
            face,
        })
    }

    /// The faces of the branches stand in the net, in their order.
    pub fn choice(
        alloc: Global,
        place: u32,
        merge: Merge,
        branches: Seq<Faced>,
    ) -> Result<Faced, Memory>
        ensures net { IfOk result (λ faced. faced.net ≡ form.Choice place merge (map net_of branches) (map face_of branches)) }
        ensures face { (boxes : List BoxProgram) → All (IsFaced boxes) branches → IfOk result (IsFaced boxes) }
    {
        let (branches, faces) = apart(alloc, branches)?;
        let sets = all_sets(alloc, faces.as_slice())?;
        let net = Net::Choice {
            place,
            merge,
            branches,
            faces,
        };
        Ok(Faced {
            net,
            face: ascending(sets),
        })
    }

    pub fn star(
        alloc: Global,
        place: u32,
        merge: Merge,
        body: Faced,
        exit: LabelSet,
        guard: Option<TagExpr>,
    ) -> Result<Faced, Memory>
        ensures net { IfOk result (λ faced. faced.net ≡ form.Star place merge body.net exit guard) }
        ensures face { (boxes : List BoxProgram) → IsFaced boxes body → IfOk result (IsFaced boxes) }
    {
        let (body, sets) = body.into_boxed_with(alloc, &exit)?;
        let net = Net::Star {
            place,
            merge,
            body,
            exit,
            guard,
        };
        Ok(Faced {
            net,
            face: ascending(sets),
        })
    }

    pub fn split(
        alloc: Global,
        place: u32,
        merge: Merge,
        body: Faced,
        tag: u32,
    ) -> Result<Faced, Memory>
        ensures net { IfOk result (λ faced. faced.net ≡ form.Split place merge body.net tag) }
        ensures face { (boxes : List BoxProgram) → IsFaced boxes body → IfOk result (IsFaced boxes) }
    {
        let (body, face) = body.into_boxed(alloc)?;
        let mut sets = Seq::new(alloc);
        push_tagged(&mut sets, tag, face.as_slice())?;
        let net = Net::Split {
            place,
            merge,
            body,
            tag,
        };
        Ok(Faced {
            net,
            face: ascending(sets),
        })
    }
}

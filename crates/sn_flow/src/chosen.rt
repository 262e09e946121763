//! Which variants a choice sends to its branches.
ghost use Rattle.std.specs.Prelude.{◌≡◌, IfOk};
ghost use Rattle.std.specs.List.{list_any};
ghost use Rattle.sn_types.specs.RecordType.{has_fit};
ghost use Rattle.sn_flow.specs.Chosen.{chosen_of, is_beaten, is_before};

use crate::sets::{bind_alike, fits, has_fit};
use sn_list::{Memory, Seq};
use sn_record::LabelSet;
use sn_stack::append;
use std::alloc::Global;

/// Whether `other` of branch `j` is taken within `whole` in place of a variant of branch `i` with so many labels.
fn is_before(i: usize, size: usize, whole: &LabelSet, j: usize, other: &LabelSet) -> bool
    ensures { result ≡ is_before i size whole.now j other.now }
{
    fits(other, whole) && (other.len() > size || (other.len() == size && j < i))
}

/// Whether a variant of the face of branch `j` is.
fn is_beaten_by(i: usize, size: usize, whole: &LabelSet, j: usize, face: &[LabelSet]) -> bool
    ensures { result ≡ list_any (is_before i size whole.now j) face.now }
{
    for other in face {
        if is_before(i, size, whole, j, other) {
            return true;
        }
    }
    false
}

/// Whether a variant of any face is.
fn is_beaten(faces: &[Seq<LabelSet>], i: usize, size: usize, whole: &LabelSet) -> bool
    ensures { result ≡ is_beaten faces.now i size whole.now }
{
    for j in 0..faces.len() {
        if is_beaten_by(i, size, whole, j, faces[j].as_slice()) {
            return true;
        }
    }
    false
}

/// The variant with each of `own`, variants of branch `i`, that has the same binding tags and isn't beaten within both.
pub fn chosen(
    alloc: Global,
    faces: &[Seq<LabelSet>],
    i: usize,
    variant: &LabelSet,
    own: &[LabelSet],
) -> Result<Seq<LabelSet>, Memory>
    ensures { IfOk result (λ sets. sets ≡ chosen_of faces.now i variant.now own.now) }
{
    let mut sets = Seq::new(alloc);
    for other in own {
        if !bind_alike(other, variant) {
            continue;
        }
        let whole = variant.union(other)?;
        if !is_beaten(faces, i, other.len(), &whole) {
            append(&mut sets, whole)?;
        }
    }
    Ok(sets)
}

/// Whether some face has a variant that fits this one.
pub fn has_face(faces: &[Seq<LabelSet>], variant: &LabelSet) -> bool
    ensures { result ≡ list_any (λ face. has_fit face variant.now) faces.now }
{
    for face in faces {
        if has_fit(face.as_slice(), variant) {
            return true;
        }
    }
    false
}

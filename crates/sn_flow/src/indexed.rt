//! Lists of different variants, or of rows of different variants, in which one is found without a walk.
ghost use Rattle.std.specs.Prelude.{◌≡◌, ◌++◌, ◌<◌, ◌∷◌, [], Some, false, IfOk, OnOk, length, slice_get};
ghost use Rattle.std.specs.FinMap as labels;
ghost use Rattle.std.specs.List.{list_any};
ghost use Rattle.std.specs.Option.{option_copied};
ghost use Rattle.sn_record.specs.LabelSet.{Labels};
ghost use Rattle.sn_types.specs.RecordType.{is_same};
ghost use Rattle.sn_flow.specs.Places.{first_of};

use sn_list::{Memory, Seq};
use sn_record::{Label, LabelSet};
use std::alloc::Global;
use std::collections::BTreeMap;
use std::marker::Model;

/// What is of a variant.
pub trait OfVariant {
    ghost variant_of: { Self → Labels };

    fn variant(&self) -> &LabelSet
        ensures { result.now ≡ variant_of self.now };
}

impl OfVariant for LabelSet {
    ghost variant_of = { λ v. v };

    fn variant(&self) -> &LabelSet {
        self
    }
}

/// A list in which no two are of one variant, seen as the list.
pub struct Indexed<T: OfVariant> {
    list: Vec<T>,
    /// The place of each variant, by its labels.
    places: BTreeMap<Vec<Label>, usize>,
}

/// Written out, so that a function that gives a list up calls this, and is not proved over its parts.
impl<T: OfVariant + Drop> Drop for Indexed<T> {
    fn drop(self) {
        let Indexed {
            list: _list,
            places: _places,
        } = self;
    }
}

impl<T: OfVariant> Model for Indexed<T> {
    ghost use Rattle.std.specs.Prelude.{List, map};
    ghost use Rattle.std.specs.Coded.{coded_list};
    ghost use Rattle.sn_flow.specs.Places.{Tells};

    ghost Value = { List T };

    ghost coded = { coded_list T.code };

    ghost view = { λ s. s.list.items };

    ghost invariant = { λ s. Tells s.places (map T.variant_of s.list.items) };
}

/// The labels in ascending order.
fn key_of(alloc: Global, variant: &LabelSet) -> Result<Vec<Label>, Memory>
    ensures { IfOk result (λ key. key.items ≡ labels.keys variant.now) }
{
    let mut key = Vec::with_capacity(alloc, variant.len())?;
    for i in 0..variant.len() {
        key.push(variant.at(i))?;
    }
    Ok(key)
}

impl<T: OfVariant + Drop> Indexed<T> {
    /// An empty list, which takes no memory until something is pushed.
    pub fn new(alloc: Global) -> Indexed<T>
        ensures { result ≡ [] }
    {
        Indexed {
            list: Vec::new(alloc),
            places: BTreeMap::new(alloc),
        }
    }

    pub fn len(&self) -> usize
        ensures { result ≡ length self.now }
    {
        self.list.len()
    }

    pub fn at(&self, i: usize) -> &T
        requires { i < length self.now }
        ensures { slice_get self.now i ≡ Some result.now }
    {
        &self.list[i]
    }

    pub fn as_slice(&self) -> &[T]
        ensures { result.now ≡ self.now }
    {
        self.list.as_slice()
    }

    /// The list alone.
    pub fn into_seq(self) -> Seq<T>
        ensures { result ≡ self }
    {
        let Indexed {
            list,
            places: _places,
        } = self;
        Seq::from_vec(list)
    }

    /// What is of the variant.
    pub fn find(&self, alloc: Global, variant: &LabelSet) -> Result<Option<&T>, Memory>
        ensures { IfOk result (λ found. option_copied found ≡ first_of T.variant_of self.now variant.now) }
    {
        let key = key_of(alloc, variant)?;
        match self.places.get(&key) {
            Some(place) => Ok(Some(&self.list[*place])),
            None => Ok(None),
        }
    }

    /// Whether something is of the variant.
    pub fn has(&self, alloc: Global, variant: &LabelSet) -> Result<bool, Memory>
        ensures { IfOk result (λ has. has ≡ list_any (λ x. is_same (T.variant_of x) variant.now) self.now) }
    {
        let found = self.find(alloc, variant)?;
        Ok(found.is_some())
    }

    /// Appends what is of a new variant. For want of memory it is dropped, and the list is unchanged.
    pub fn push(&mut self, alloc: Global, x: T) -> Result<(), Memory>
        requires { list_any (λ y. is_same (T.variant_of y) (T.variant_of x)) self.old ≡ false }
        ensures { OnOk result (self.new ≡ self.old ++ x ∷ []) }
    {
        let key = key_of(alloc, x.variant())?;
        let place = self.list.len();
        self.list.push(x)?;
        if self.places.insert(key, place).is_err() {
            drop(self.list.pop());
            return Err(Memory);
        }
        Ok(())
    }
}

ghost use Rattle.std.specs.Prelude.{◌≡◌, [], ◌∷◌, ◌++◌, ◌==◌, ◌<◌, length, slice_get, OnOk, OnErr, IfOk, IfErr};

use crate::memory::Memory;
use std::alloc::{AllocFailed, Global};
use std::marker::Model;

/// A growable list, seen as the list of its elements.
#[derive(Debug, Drop)]
pub struct Seq<T> {
    elements: Vec<T>,
}

impl<T> Model for Seq<T> {
    ghost use Rattle.std.specs.Prelude.{List};
    ghost use Rattle.std.specs.Coded.{coded_list};

    ghost Value = { List T };

    ghost coded = { coded_list T.code };

    ghost view = { λ s. s.elements.items };
}

impl<T> Seq<T> {
    /// An empty list, which takes no memory until something is pushed.
    pub fn new(alloc: Global) -> Seq<T>
        ensures { result ≡ [] }
    {
        Seq {
            elements: Vec::new(alloc),
        }
    }

    /// An empty list, with room for `capacity` elements.
    pub fn with_capacity(alloc: Global, capacity: usize) -> Result<Seq<T>, Memory>
        ensures { IfOk result (λ s. s ≡ []) }
    {
        let elements = Vec::with_capacity(alloc, capacity)?;
        Ok(Seq { elements })
    }

    /// The list of a `Vec`'s elements. Takes no memory.
    pub fn from_vec(elements: Vec<T>) -> Seq<T>
        ensures { result ≡ elements.items }
    {
        Seq { elements }
    }

    /// The elements as a `Vec`. Takes no memory.
    pub fn into_vec(self) -> Vec<T>
        ensures { result.items ≡ self }
    {
        let Seq { elements } = self;
        elements
    }

    pub fn len(&self) -> usize
        ensures { result ≡ length self.now }
    {
        self.elements.len()
    }

    pub fn is_empty(&self) -> bool
        ensures { result ≡ (length self.now == 0) }
    {
        self.elements.is_empty()
    }

    pub fn as_slice(&self) -> &[T]
        ensures { result.now ≡ self.now }
    {
        self.elements.as_slice()
    }

    pub fn at(&self, i: usize) -> &T
        requires { i < length self.now }
        ensures { slice_get self.now i ≡ Some result.now }
    {
        &self.elements[i]
    }

    /// Appends `x`. For want of memory `x` comes back, and the list is unchanged.
    pub fn push(&mut self, x: T) -> Result<(), T>
        ensures ok { OnOk result (self.new ≡ self.old ++ x ∷ []) }
        ensures err { OnErr result (self.new ≡ self.old) }
        ensures back { IfErr result (λ refused. refused ≡ x) }
    {
        match self.elements.push(x) {
            Ok(()) => Ok(()),
            Err(refused) => {
                let AllocFailed { value } = refused;
                Err(value)
            }
        }
    }
}

impl<T: Copy> Seq<T> {
    /// A copy of a slice.
    pub fn from_slice(alloc: Global, elements: &[T]) -> Result<Seq<T>, Memory>
        ensures { IfOk result (λ s. s ≡ elements.now) }
    {
        let elements = Vec::from_slice(alloc, elements)?;
        Ok(Seq { elements })
    }

    /// Appends a copy of a slice. For want of memory the list is unchanged.
    pub fn extend_from_slice(&mut self, more: &[T]) -> Result<(), Memory>
        ensures ok { OnOk result (self.new ≡ self.old ++ more.now) }
        ensures err { OnErr result (self.new ≡ self.old) }
    {
        self.elements.extend_from_slice(more)?;
        Ok(())
    }
}

impl<T: PartialEq> PartialEq for Seq<T> {
    ghost use Rattle.std.specs.Cmp.Lexicographic.{pointwise, lists_per};

    ghost eq = { pointwise T.eq };

    ghost laws = { lists_per T.laws };

    fn eq(&self, other: &Seq<T>) -> bool {
        self.elements == other.elements
    }
}

impl<T: Eq> Eq for Seq<T> {
    ghost use Rattle.std.specs.Cmp.Lexicographic.{lists_equiv};

    ghost laws = { lists_equiv T.Eq.laws };
}

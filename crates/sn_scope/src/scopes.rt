//! Scopes: which declaration a name stands for where it is used.
ghost use Rattle.std.specs.Prelude.{◌≡◌, [], IfOk, OnOk, not, slice_get};
ghost use Rattle.sn_names.specs.Names.{is_held};
ghost use Rattle.sn_scope.specs.Scopes.{declared, entered_scope, empty_scope, is_outermost, left_scope, meaning_in, meaning_of, signature_of, type_of};

use sn_list::{Memory, Seq};
use sn_names::NameTable;
use std::alloc::Global;
use std::mem::replace;

/// What a name was declared as: the number of a type, a signature, a net or a box, from 0 in the order of their
/// declarations.
#[derive(Clone, Copy)]
pub enum Meaning {
    Type(usize),
    Signature(usize),
    Net(usize),
    Box(u32),
}

/// The names that were declared in one scope, each beside its meaning.
pub struct Scope {
    names: NameTable,
    meanings: Seq<Meaning>,
}

/// Written out, so that a function that gives a scope up calls this, and is not proved over the table of its names.
impl Drop for Scope {
    fn drop(self) {
        let Scope {
            names: _names,
            meanings: _meanings,
        } = self;
    }
}

/// A scope, and those around it from the outermost on.
#[derive(Drop)]
pub struct Scopes {
    outer: Seq<Scope>,
    current: Scope,
}

impl Scope {
    fn new(alloc: Global) -> Scope
        ensures { result ≡ empty_scope }
    {
        Scope {
            names: NameTable::new(alloc),
            meanings: Seq::new(alloc),
        }
    }

    /// What the name was declared as in this scope.
    fn find(&self, name: &[u8]) -> Option<Meaning>
        ensures { result ≡ meaning_in self.now name.now }
    {
        let number = self.names.number(name) as usize;
        if number < self.meanings.len() {
            return Some(*self.meanings.at(number));
        }
        None
    }

    /// Whether the name is new in this scope. One that is not keeps its meaning.
    fn declare(&mut self, name: &[u8], meaning: Meaning) -> Result<bool, Memory>
        ensures scope { OnOk result (self.new ≡ declared self.old name.now meaning) }
        ensures fresh { IfOk result (λ fresh. fresh ≡ not (is_held self.old.names name.now)) }
    {
        if self.names.find(name).is_some() {
            return Ok(false);
        }
        self.names.enter(name)?;
        sn_stack::append(&mut self.meanings, meaning)?;
        Ok(true)
    }
}

impl Scopes {
    /// The outermost scope, with no names.
    pub fn new(alloc: Global) -> Scopes
        ensures { result ≡ record { outer = []; current = empty_scope } }
    {
        Scopes {
            outer: Seq::new(alloc),
            current: Scope::new(alloc),
        }
    }

    /// What the name stands for: its meaning in the innermost scope that declares it.
    pub fn find(&self, name: &[u8]) -> Option<Meaning>
        ensures { result ≡ meaning_of self.now name.now }
    {
        let mut found = None;
        for scope in self.outer.as_slice() {
            found = scope.find(name).or(found);
        }
        self.current.find(name).or(found)
    }

    /// The number of the type that the name stands for.
    pub fn type_of(&self, name: &[u8]) -> Option<usize>
        ensures { result ≡ type_of self.now name.now }
    {
        match self.find(name) {
            Some(Meaning::Type(number)) => Some(number),
            _ => None,
        }
    }

    /// The number of the signature that the name stands for.
    pub fn signature_of(&self, name: &[u8]) -> Option<usize>
        ensures { result ≡ signature_of self.now name.now }
    {
        match self.find(name) {
            Some(Meaning::Signature(number)) => Some(number),
            _ => None,
        }
    }

    pub fn is_outermost(&self) -> bool
        ensures { result ≡ is_outermost self.now }
    {
        self.outer.is_empty()
    }

    /// Whether the name is new in the innermost scope. One that is not keeps its meaning.
    pub fn declare(&mut self, name: &[u8], meaning: Meaning) -> Result<bool, Memory>
        ensures scopes { OnOk result (self.new ≡ record self.old { current = declared self.old.current name.now meaning }) }
        ensures fresh { IfOk result (λ fresh. fresh ≡ not (is_held self.old.current.names name.now)) }
    {
        self.current.declare(name, meaning)
    }

    /// Begins a scope within the innermost one.
    pub fn enter(&mut self, alloc: Global) -> Result<(), Memory>
        ensures { OnOk result (self.new ≡ entered_scope self.old) }
    {
        let around = replace(&mut self.current, Scope::new(alloc));
        sn_stack::append(&mut self.outer, around)
    }

    /// Ends the innermost scope, and goes on with the one around it.
    pub fn leave(&mut self, alloc: Global)
        ensures { self.new ≡ left_scope self.old }
    {
        let mut outer = replace(&mut self.outer, Seq::new(alloc)).into_vec();
        self.current = match outer.pop() {
            Some(scope) => scope,
            None => Scope::new(alloc),
        };
        self.outer = Seq::from_vec(outer);
    }
}

//! The functions of a box, by their names.
ghost use Rattle.std.specs.Prelude.{◌≡◌, [], ◌∷◌, ◌++◌, if◌then◌else◌, IfOk, OnOk, not, map as each};
ghost use Rattle.sn_names.specs.Names.{entered, is_held};
ghost use Rattle.sn_label_scope.specs.Refusals.{required};
ghost use Rattle.sn_label_scope.specs.declared.refusal.Reason.TheVariants.{Twice};
ghost use Rattle.sn_box_scope.specs.Boxes.{names_apart};
ghost use Rattle.sn_box_scope.specs.Functions.{function_number};

use sn_ast::{BoxDecl, Ident};
use sn_label_scope::{Reason, Refusals};
use sn_list::{Memory, Seq};
use sn_names::NameTable;
use std::alloc::Global;
use std::marker::Model;

/// A box declaration, in which the functions can be found by their names. It is seen as the declaration.
pub(crate) struct BoxScope<'a> {
    declaration: &'a BoxDecl,
    /// The names of the functions, each once.
    names: NameTable,
    /// The place of the first function of each name.
    places: Seq<usize>,
}

/// Written out, so that a function that gives a scope up calls this, and is not proved over its tables.
impl<'a> Drop for BoxScope<'a> {
    fn drop(self) {
        let BoxScope {
            declaration: _,
            names: _names,
            places: _places,
        } = self;
    }
}

impl<'a> Model for BoxScope<'a> {
    ghost use Rattle.std.specs.Prelude.{map as each};
    ghost use Rattle.sn_ast.specs.declared.declaration.BoxDecl.{BoxDecl};
    ghost use Rattle.sn_ast.specs.contracts.declaration.BoxDecl as declared;
    ghost use Rattle.sn_box_scope.specs.Functions.{AreFirst};

    ghost Value = { BoxDecl };

    ghost coded = { declared.the_row.coded };

    ghost view = { λ s. s.declaration.now };

    ghost invariant = { λ s. AreFirst (each (λ fun. fun.name.text) s.declaration.now.funs) s.names s.places };
}

/// Enters a name among those seen, and answers whether it is new. One that is there already is refused.
pub(crate) fn see_name(
    seen: &mut NameTable,
    refusals: &mut Refusals,
    name: &Ident,
) -> Result<bool, Memory>
    ensures seen { OnOk result (seen.new ≡ entered seen.old name.now.text) }
    ensures refused { OnOk result (refusals.new ≡ required (not (is_held seen.old name.now.text)) Twice name.now.at refusals.old) }
    ensures fresh { IfOk result (λ fresh. fresh ≡ not (is_held seen.old name.now.text)) }
{
    let fresh = seen.find(name.text.as_slice()).is_none();
    refusals.require(fresh, Reason::Twice, name.at);
    seen.enter(name.text.as_slice())?;
    Ok(fresh)
}

/// Enters the name of the function at the place, which is found there unless one before it has the name. A second function
/// of a name is refused.
fn enter_function(
    names: &mut NameTable,
    places: &mut Seq<usize>,
    refusals: &mut Refusals,
    place: usize,
    name: &Ident,
) -> Result<(), Memory>
    ensures names { OnOk result (names.new ≡ entered names.old name.now.text) }
    ensures places { OnOk result (places.new ≡ (if is_held names.old name.now.text then places.old else places.old ++ place ∷ [])) }
    ensures refused { OnOk result (refusals.new ≡ required (not (is_held names.old name.now.text)) Twice name.now.at refusals.old) }
{
    if see_name(names, refusals, name)? {
        return sn_stack::append(places, place);
    }
    Ok(())
}

impl<'a> BoxScope<'a> {
    /// The scope of a box. A second function of a name is refused.
    pub(crate) fn new(
        alloc: Global,
        refusals: &mut Refusals,
        declaration: &'a BoxDecl,
    ) -> Result<BoxScope<'a>, Memory>
        ensures scope { IfOk result (λ scope. scope ≡ declaration.now) }
        ensures refused { OnOk result (refusals.new ≡ names_apart [] (each (λ fun. fun.name) declaration.now.funs) refusals.old) }
    {
        let mut names = NameTable::new(alloc);
        let mut places = Seq::new(alloc);
        for (place, fun) in declaration.funs.as_slice().iter().enumerate() {
            enter_function(&mut names, &mut places, refusals, place, &fun.name)?;
        }
        Ok(BoxScope {
            declaration,
            names,
            places,
        })
    }

    pub(crate) fn declaration(&self) -> &'a BoxDecl
        ensures { result.now ≡ self.now }
    {
        self.declaration
    }

    /// The place of the first function with the name, or else how many functions there are.
    pub(crate) fn function_number(&self, name: &[u8]) -> usize
        ensures { result ≡ function_number self.now.funs name.now }
    {
        match self.names.find(name) {
            Some(number) => *self.places.at(number as usize),
            None => self.declaration.funs.len(),
        }
    }
}

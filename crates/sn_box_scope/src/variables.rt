//! The variables of an expression, by their numbers.
ghost use Rattle.std.specs.Prelude.{◌≡◌, [], ◌∷◌, ◌++◌, OnOk, IfOk, length, take, nat_lt, map as each};
ghost use Rattle.sn_box_scope.specs.Variables.{field_variable, is_named, label_variable, variable_number, variable_required, with_bound};
ghost use Rattle.sn_net.specs.declared.expr.Expr.TheVariants.{Var};

use sn_ast::{Ident, LabelAt};
use sn_label_scope::{Reason, Refusals};
use sn_list::{Memory, Seq};
use sn_net::Expr;
use std::alloc::Global;
use std::marker::Model;

/// A variable: a field or a tag, and its name. A field and a tag of one name are two variables.
#[derive(Drop)]
pub(crate) struct Variable {
    pub(crate) tag: bool,
    pub(crate) name: Seq<u8>,
}

/// The variables that stand at a place, seen as the list of them, outermost first.
#[derive(Drop)]
pub(crate) struct Variables {
    standing: Vec<Variable>,
}

impl Model for Variables {
    ghost use Rattle.std.specs.Prelude.{List};
    ghost use Rattle.std.specs.Coded.{coded_list};
    ghost use Rattle.sn_box_scope.specs.declared.variables.Variable.{Variable};
    ghost use Rattle.sn_box_scope.specs.contracts.variables.Variable as variable;

    ghost Value = { List Variable };

    ghost coded = { coded_list variable.the_row.coded };

    ghost view = { λ s. s.standing.items };
}

impl Variable {
    fn is_named(&self, tag: bool, name: &[u8]) -> bool
        ensures { result ≡ is_named tag name.now self.now }
    {
        self.tag == tag && self.name.as_slice() == name
    }
}

impl Variables {
    /// No variables. Takes no memory until one is added.
    pub(crate) fn new(alloc: Global) -> Variables
        ensures { result ≡ [] }
    {
        Variables {
            standing: Vec::new(alloc),
        }
    }

    pub(crate) fn count(&self) -> usize
        ensures { result ≡ length self.now }
    {
        self.standing.len()
    }

    fn add(&mut self, alloc: Global, tag: bool, name: &[u8]) -> Result<(), Memory>
        ensures { OnOk result (self.new ≡ self.old ++ record { tag = tag; name = name.now } ∷ []) }
    {
        let name = Seq::from_slice(alloc, name)?;
        self.standing.push(Variable { tag, name })?;
        Ok(())
    }

    /// Adds a variable behind the others, which hides those of its name.
    pub(crate) fn add_field(&mut self, alloc: Global, name: &Ident) -> Result<(), Memory>
        ensures { OnOk result (self.new ≡ with_bound self.old name.now) }
    {
        self.add(alloc, false, name.text.as_slice())
    }

    /// Leaves the variables that were added first.
    pub(crate) fn keep_first(&mut self, count: usize)
        ensures { self.new ≡ take count self.old }
    {
        self.standing.truncate(count);
    }

    /// The number of the innermost variable with the name, or else how many there are. It walks them all: there are as many
    /// as a box has input labels or a function has parameters, and the `let`s around the place.
    fn number(&self, tag: bool, name: &[u8]) -> usize
        ensures { result ≡ variable_number tag name.now self.now }
    {
        let mut found = self.count();
        for (place, variable) in self.standing.iter().enumerate() {
            if variable.is_named(tag, name) {
                found = place;
            }
        }
        found
    }

    /// The variable that a name stands for. A name that stands for none is refused.
    pub(crate) fn named(
        &self,
        refusals: &mut Refusals,
        tag: bool,
        name: &Ident,
    ) -> Result<Expr, Memory>
        ensures variable { IfOk result (λ expr. expr ≡ Var (variable_number tag name.now.text self.now)) }
        ensures refused { OnOk result (refusals.new ≡ variable_required tag name.now self.now refusals.old) }
    {
        let number = self.number(tag, name.text.as_slice());
        refusals.require(number < self.count(), Reason::Unknown, name.at);
        Ok(Expr::Var(to_number(number)?))
    }
}

/// A count as a number of a box program. So many that a `u32` can't count them do not fit into memory.
pub(crate) fn to_number(count: usize) -> Result<u32, Memory>
    ensures { IfOk result (λ number. number ≡ count) }
{
    match u32::try_from(count) {
        Ok(number) => Ok(number),
        Err(_) => Err(Memory),
    }
}

/// The labels of the input as variables.
pub(crate) fn label_variables(alloc: Global, labels: &[LabelAt]) -> Result<Variables, Memory>
    ensures { IfOk result (λ variables. variables ≡ each label_variable labels.now) }
{
    let mut variables = Variables::new(alloc);
    for label in labels {
        variables.add(alloc, label.tag, label.name.text.as_slice())?;
    }
    Ok(variables)
}

/// The parameters of a function as variables.
pub(crate) fn parameter_variables(alloc: Global, params: &[Ident]) -> Result<Variables, Memory>
    ensures { IfOk result (λ variables. variables ≡ each field_variable params.now) }
{
    let mut variables = Variables::new(alloc);
    for param in params {
        variables.add_field(alloc, param)?;
    }
    Ok(variables)
}

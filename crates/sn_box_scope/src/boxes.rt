//! Box declarations resolved.
ghost use Rattle.std.specs.Prelude.{◌≡◌, IfOk, OnOk, None, [], fold, map as each};
ghost use Rattle.std.specs.FinMap as map;
ghost use Rattle.sn_net.specs.Boxes.{IsClosedBox};
ghost use Rattle.sn_box_scope.specs.Boxes.{box_at, box_required, fun_at, fun_required, names_apart, tuple_at, tuple_required};

use crate::expressions::expr_at;
use crate::functions::builtin_named;
use crate::scope::{BoxScope, see_name};
use crate::variables::{label_variables, parameter_variables, to_number};
use sn_ast::{BoxDecl, FunDecl, Ident, Tuple};
use sn_label_scope::{Reason, Refusals, label_at};
use sn_list::{Memory, Seq};
use sn_names::NameTable;
use sn_net::{BoxProgram, Fun};
use sn_record::{Label, LabelSet};
use std::alloc::Global;

/// The most parameters of a function.
const MOST_PARAMS: usize = 8;

/// The labels of a tuple, in the order as written. A second equal label is refused.
fn tuple_at(
    alloc: Global,
    names: &NameTable,
    refusals: &mut Refusals,
    tuple: &Tuple,
) -> Result<Seq<Label>, Memory>
    ensures labels { IfOk result (λ labels. labels ≡ tuple_at names.now tuple.now) }
    ensures refused { OnOk result (refusals.new ≡ tuple_required names.now refusals.old tuple.now) }
{
    let mut set = LabelSet::new(alloc);
    let mut labels = Seq::new(alloc);
    for label in tuple.labels.as_slice() {
        let numbered = label_at(names, label);
        let fresh = set.insert(numbered)?;
        refusals.require(fresh, Reason::Twice, label.name.at);
        sn_stack::append(&mut labels, numbered)?;
    }
    Ok(labels)
}

fn tuples_at(
    alloc: Global,
    names: &NameTable,
    refusals: &mut Refusals,
    tuples: &[Tuple],
) -> Result<Seq<Seq<Label>>, Memory>
    ensures tuples { IfOk result (λ made. made ≡ each (tuple_at names.now) tuples.now) }
    ensures refused { OnOk result (refusals.new ≡ fold (tuple_required names.now) refusals.old tuples.now) }
{
    let mut made = Seq::new(alloc);
    for tuple in tuples {
        let labels = tuple_at(alloc, names, refusals, tuple)?;
        sn_stack::append(&mut made, labels)?;
    }
    Ok(made)
}

/// A second equal parameter is refused.
fn require_params(alloc: Global, refusals: &mut Refusals, params: &[Ident]) -> Result<(), Memory>
    ensures { OnOk result (refusals.new ≡ names_apart [] params.now refusals.old) }
{
    let mut seen = NameTable::new(alloc);
    for param in params {
        see_name(&mut seen, refusals, param)?;
    }
    Ok(())
}

/// A function of a box, over its parameters alone. A name is refused that every box has, a second equal parameter, and more
/// parameters than a function may have.
fn fun_at(
    alloc: Global,
    refusals: &mut Refusals,
    scope: &BoxScope,
    fun: &FunDecl,
) -> Result<Fun, Memory>
    ensures function { IfOk result (λ made. made ≡ fun_at scope.now fun.now) }
    ensures refused { OnOk result (refusals.new ≡ fun_required scope.now refusals.old fun.now) }
{
    let params = fun.params.as_slice();
    let builtin = builtin_named(fun.name.text.as_slice());
    refusals.require(builtin.is_none(), Reason::Twice, fun.name.at);
    refusals.require(params.len() <= MOST_PARAMS, Reason::Arity, fun.name.at);
    require_params(alloc, refusals, params)?;
    let count = to_number(params.len())?;
    let mut variables = parameter_variables(alloc, params)?;
    let body = expr_at(alloc, scope, refusals, &mut variables, &fun.body)?;
    Ok(Fun {
        params: count,
        body,
    })
}

fn funs_at(
    alloc: Global,
    refusals: &mut Refusals,
    scope: &BoxScope,
    funs: &[FunDecl],
) -> Result<Seq<Fun>, Memory>
    ensures functions { IfOk result (λ made. made ≡ each (fun_at scope.now) funs.now) }
    ensures refused { OnOk result (refusals.new ≡ fold (fun_required scope.now) refusals.old funs.now) }
{
    let mut made = Seq::new(alloc);
    for fun in funs {
        let fun = fun_at(alloc, refusals, scope, fun)?;
        sn_stack::append(&mut made, fun)?;
    }
    Ok(made)
}

/// The program of a box. What is refused of the declaration is noted, and the program is made all the same. As deep in
/// calls as its expressions are high.
pub fn box_at(
    alloc: Global,
    names: &NameTable,
    refusals: &mut Refusals,
    declaration: &BoxDecl,
) -> Result<BoxProgram, Memory>
    ensures program { IfOk result (λ program. program ≡ box_at names.now declaration.now) }
    ensures refused { OnOk result (refusals.new ≡ box_required names.now declaration.now refusals.old) }
    // Where nothing is refused, the program is closed.
    ensures closed { IfOk result (λ program. refusals.new ≡ None → IsClosedBox program) }
{
    let input = tuple_at(alloc, names, refusals, &declaration.input)?;
    let outputs = tuples_at(alloc, names, refusals, declaration.outputs.as_slice())?;
    let scope = BoxScope::new(alloc, refusals, declaration)?;
    let funs = funs_at(alloc, refusals, &scope, declaration.funs.as_slice())?;
    let mut variables = label_variables(alloc, declaration.input.labels.as_slice())?;
    let body = expr_at(alloc, &scope, refusals, &mut variables, &declaration.body)?;
    Ok(BoxProgram {
        input,
        outputs,
        funs,
        body,
    })
}

//! What a name means where it is called.
ghost use Rattle.std.specs.Prelude.{◌≡◌, IfOk, OnOk, length};
ghost use Rattle.sn_net.specs.Boxes.{builtin_size};
ghost use Rattle.sn_box_scope.specs.Functions.{builtin_named, call_at, call_required};

use crate::scope::BoxScope;
use crate::variables::to_number;
use sn_ast::Ident;
use sn_label_scope::{Reason, Refusals};
use sn_list::{Memory, Seq};
use sn_net::{BuiltinKind, Expr};

/// The function that every box has by the name.
pub(crate) fn builtin_named(name: &[u8]) -> Option<BuiltinKind>
    ensures { result ≡ builtin_named name.now }
{
    if name == b"len".as_slice() {
        Some(BuiltinKind::Len)
    } else if name == b"at".as_slice() {
        Some(BuiltinKind::At)
    } else if name == b"slice".as_slice() {
        Some(BuiltinKind::Slice)
    } else if name == b"join".as_slice() {
        Some(BuiltinKind::Join)
    } else if name == b"push".as_slice() {
        Some(BuiltinKind::Push)
    } else if name == b"text".as_slice() {
        Some(BuiltinKind::Text)
    } else if name == b"kind".as_slice() {
        Some(BuiltinKind::Kind)
    } else {
        None
    }
}

/// How many arguments the function takes.
fn builtin_size(kind: BuiltinKind) -> usize
    ensures { result ≡ builtin_size kind }
{
    match kind {
        BuiltinKind::Len | BuiltinKind::Text | BuiltinKind::Kind => 1,
        BuiltinKind::At | BuiltinKind::Join | BuiltinKind::Push => 2,
        BuiltinKind::Slice => 3,
    }
}

/// The call of what the name means, over its arguments. A name that means nothing is refused, and another number of
/// arguments than it takes.
pub(crate) fn call_at(
    scope: &BoxScope,
    refusals: &mut Refusals,
    name: &Ident,
    parts: Seq<Expr>,
) -> Result<Expr, Memory>
    ensures call { IfOk result (λ call. call ≡ call_at scope.now.funs name.now parts) }
    ensures refused { OnOk result (refusals.new ≡ call_required scope.now.funs name.now (length parts) refusals.old) }
{
    if let Some(kind) = builtin_named(name.text.as_slice()) {
        refusals.require(parts.len() == builtin_size(kind), Reason::Arity, name.at);
        return Ok(Expr::Builtin(kind, parts));
    }
    let number = scope.function_number(name.text.as_slice());
    match scope.declaration().funs.as_slice().get(number) {
        Some(fun) => refusals.require(parts.len() == fun.params.len(), Reason::Arity, name.at),
        None => refusals.require(false, Reason::Unknown, name.at),
    }
    Ok(Expr::Call(to_number(number)?, parts))
}

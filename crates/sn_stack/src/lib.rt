//! What a parser without recursion keeps: stacks of what is open, and lists that grow by what is finished.
#![tactic(auto)]

ghost use Rattle.std.specs.Prelude.{◌≡◌, [], ◌∷◌, ◌++◌, OnOk, OnErr};

mod stack;

use sn_list::{Memory, Seq};
pub use stack::Stack;

/// Appends `x`. For want of memory `x` is dropped, and the list is unchanged.
pub fn append<T: Drop>(list: &mut Seq<T>, x: T) -> Result<(), Memory>
    ensures ok { OnOk result (list.new ≡ list.old ++ x ∷ []) }
    ensures err { OnErr result (list.new ≡ list.old) }
{
    match list.push(x) {
        Ok(()) => Ok(()),
        Err(_) => Err(Memory),
    }
}

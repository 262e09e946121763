ghost use Rattle.std.specs.Prelude.{◌≡◌, ◌++◌, ◌∷◌, [], OnOk};

use sn_list::{Memory, Seq};

/// Appends `x`. For want of memory `x` is dropped.
pub(crate) fn append<T: Drop>(list: &mut Seq<T>, x: T) -> Result<(), Memory>
    ensures { OnOk result (list.new ≡ list.old ++ x ∷ []) }
{
    match list.push(x) {
        Ok(()) => Ok(()),
        Err(_) => Err(Memory),
    }
}

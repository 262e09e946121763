//! Values that are moved to the heap as soon as they are made.
ghost use Rattle.std.specs.Prelude.{◌≡◌, IfOk, Ok};

use sn_list::{Boxed, Memory};
use std::alloc::Global;

/// What was made, on the heap. Takes the answer as it came, so that its caller is not proved over each form of the value.
pub fn on_heap<T: Drop>(alloc: Global, made: Result<T, Memory>) -> Result<Boxed<T>, Memory>
    ensures { IfOk result (λ boxed. made ≡ Ok boxed) }
{
    Boxed::new(alloc, made?)
}

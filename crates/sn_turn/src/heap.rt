//! Values that stay where they lie while what owns them moves.
ghost use Rattle.std.specs.Prelude.{◌≡◌, IfOk};

use sn_list::Memory;
use std::alloc::Global;
use std::marker::Model;

/// A value on the heap, seen as the value, which may be changed there. A node is large, and goes from hand to hand at each turn.
#[derive(Drop)]
pub struct OnHeap<T> {
    content: Box<T>,
}

impl<T> Model for OnHeap<T> {
    ghost use Rattle.std.specs.Prelude.{◌≡◌};

    ghost Value = { T };

    ghost coded = { T.code };

    ghost view = { λ b. b.content.value };
}

impl<T> OnHeap<T> {
    ghost use Rattle.std.specs.Borrow.{Lends, sem};
    ghost use Rattle.sn_turn.specs.contracts.heap.OnHeap.{the_row};

    pub fn get(&self) -> &T
        ensures { result.now ≡ self.now }
    {
        &self.content
    }

    pub fn get_mut(&mut self) -> &mut T
        ensures* writes_back { sem 𝓛 (Lends (the_row T.row) T.row self.entry result (λ x. x)) }
        ensures value { result.now ≡ self.old }
    {
        &mut self.content
    }
}

impl<T: Drop> OnHeap<T> {
    /// For want of memory `value` is dropped.
    pub fn new(alloc: Global, value: T) -> Result<OnHeap<T>, Memory>
        ensures { IfOk result (λ b. b ≡ value) }
    {
        let content = Box::new(alloc, value)?;
        Ok(OnHeap { content })
    }
}

ghost use Rattle.std.specs.Prelude.{◌≡◌, IfOk};

use crate::memory::Memory;
use std::alloc::Global;
use std::marker::Model;

/// A value on the heap, seen as the value.
#[derive(Drop)]
pub struct Boxed<T> {
    content: Box<T>,
}

impl<T> Model for Boxed<T> {
    ghost Value = { T };

    ghost coded = { T.code };

    ghost view = { λ b. b.content.value };
}

impl<T> Boxed<T> {
    pub fn get(&self) -> &T
        ensures { result.now ≡ self.now }
    {
        &self.content
    }

    pub fn into_inner(self) -> T
        ensures { result ≡ self }
    {
        let Boxed { content } = self;
        Box::into_inner(content)
    }
}

impl<T: Drop> Boxed<T> {
    /// For want of memory `value` is dropped.
    pub fn new(alloc: Global, value: T) -> Result<Boxed<T>, Memory>
        ensures { IfOk result (λ b. b ≡ value) }
    {
        let content = Box::new(alloc, value)?;
        Ok(Boxed { content })
    }
}

impl<T: PartialEq> PartialEq for Boxed<T> {
    ghost eq = { T.eq };

    ghost laws = { T.laws };

    fn eq(&self, other: &Boxed<T>) -> bool {
        self.get() == other.get()
    }
}

impl<T: Eq> Eq for Boxed<T> {
    ghost laws = { T.Eq.laws };
}

ghost use Rattle.std.specs.Prelude.{◌≡◌, [], ◌∷◌, MatchOption, OnOk, OnErr};

use sn_list::Memory;
use std::alloc::Global;
use std::marker::Model;

/// A stack, seen as the list of its elements with the top first.
#[derive(Drop)]
pub struct Stack<T> {
    elements: Vec<T>,
}

impl<T> Model for Stack<T> {
    ghost use Rattle.std.specs.Prelude.{List, reverse};
    ghost use Rattle.std.specs.Coded.{coded_list};

    ghost Value = { List T };

    ghost coded = { coded_list T.code };

    ghost view = { λ s. reverse s.elements.items };
}

impl<T: Drop> Stack<T> {
    /// An empty stack, which takes no memory until something is pushed.
    pub fn new(alloc: Global) -> Stack<T>
        ensures { result ≡ [] }
    {
        Stack {
            elements: Vec::new(alloc),
        }
    }

    /// For want of memory `x` is dropped, and the stack is unchanged.
    pub fn push(&mut self, x: T) -> Result<(), Memory>
        ensures ok { OnOk result (self.new ≡ x ∷ self.old) }
        ensures err { OnErr result (self.new ≡ self.old) }
    {
        self.elements.push(x)?;
        Ok(())
    }

    /// Takes the top, or answers nothing where the stack is empty.
    pub fn pop(&mut self) -> Option<T>
        ensures { MatchOption result (self.old ≡ []) (λ x. self.old ≡ x ∷ self.new) }
    {
        self.elements.pop()
    }
}

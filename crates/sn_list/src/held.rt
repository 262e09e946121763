ghost use Rattle.std.specs.Prelude.{◌≡◌};

/// A tree, or what holds some. A function that gives it up at several exits calls its `drop` at each, and is not proved over each form of
/// the tree there.
pub struct Held<T> {
    pub value: T,
}

impl<T> Held<T> {
    pub fn into_inner(self) -> T
        ensures { result ≡ self.value }
    {
        let Held { value } = self;
        value
    }
}

impl<T: Drop> Drop for Held<T> {
    fn drop(self) {
        let Held { value: _value } = self;
    }
}

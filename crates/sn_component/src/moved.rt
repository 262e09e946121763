ghost use Rattle.std.specs.Prelude.{◌≡◌, if◌then◌else◌};
ghost use Rattle.sn_component.specs.declared.moved.Moved.TheVariants as moved;

/// How a turn went.
#[derive(Clone, Copy, PartialEq, Eq, Debug)]
pub enum Moved {
    /// An entry was got or put, or a replica was made.
    Some,
    /// A way in was found empty, or a way out full.
    Idle,
    /// The end was passed on.
    Done,
}

/// Where something was put, or else nothing.
pub fn some_or_idle(some: bool) -> Moved
    ensures { result ≡ (if some then moved.Some else moved.Idle) }
{
    if some { Moved::Some } else { Moved::Idle }
}

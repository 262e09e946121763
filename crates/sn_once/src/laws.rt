//! What follows from the definitions.
ghost use Rattle.std.specs.Prelude.{◌≡◌, []};
ghost use Rattle.sn_once.specs.Rest.{rest_of};
ghost use Rattle.sn_once.specs.declared.once.Once.{Once};

/// An engine gives nothing more where no item comes.
pub fn nothing_is_owed()
    ensures { (once : Once) → rest_of once [] ≡ [] }
{}

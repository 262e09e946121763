use sn_list::Memory;
use sn_tagexpr::ExprFault;

/// Why a template has no record.
#[derive(Clone, Copy, PartialEq, Eq, Debug)]
pub enum Stop {
    /// The first fault among its parts.
    Faulted(ExprFault),
    Memory,
}

impl From<Memory> for Stop {
    ghost use Rattle.std.specs.Prelude.{◌≡◌};
    ghost use Rattle.sn_filter.specs.declared.outcome.Stop.{Stop};

    ghost from_gives = { λ _ e. e ≡ Stop.Memory };

    fn from(_wanted: Memory) -> Stop {
        Stop::Memory
    }
}

impl From<ExprFault> for Stop {
    ghost use Rattle.std.specs.Prelude.{◌≡◌};
    ghost use Rattle.sn_filter.specs.declared.outcome.Stop.{Stop};

    ghost from_gives = { λ f e. e ≡ Stop.Faulted f };

    fn from(fault: ExprFault) -> Stop {
        Stop::Faulted(fault)
    }
}

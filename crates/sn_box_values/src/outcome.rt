use sn_list::Memory;
use sn_record::FaultKind;
use sn_tagexpr::ExprFault;

/// Why there is no value.
#[derive(Clone, Copy, PartialEq, Eq, Debug)]
pub enum Stop {
    Faulted(FaultKind),
    Memory,
}

impl From<Memory> for Stop {
    ghost use Rattle.std.specs.Prelude.{◌≡◌};
    ghost use Rattle.sn_box_values.specs.declared.outcome.Stop.{Stop};

    ghost from_gives = { λ _ e. e ≡ Stop.Memory };

    fn from(_wanted: Memory) -> Stop {
        Stop::Memory
    }
}

impl From<FaultKind> for Stop {
    ghost use Rattle.std.specs.Prelude.{◌≡◌};
    ghost use Rattle.sn_box_values.specs.declared.outcome.Stop.{Stop};

    ghost from_gives = { λ fault e. e ≡ Stop.Faulted fault };

    fn from(fault: FaultKind) -> Stop {
        Stop::Faulted(fault)
    }
}

impl From<ExprFault> for Stop {
    ghost use Rattle.std.specs.Prelude.{◌≡◌};
    ghost use Rattle.sn_net.specs.Answer.{fault_kind};
    ghost use Rattle.sn_box_values.specs.declared.outcome.Stop.{Stop};

    ghost from_gives = { λ fault e. e ≡ Stop.Faulted (fault_kind fault) };

    fn from(fault: ExprFault) -> Stop {
        Stop::Faulted(match fault {
            ExprFault::Overflow => FaultKind::Overflow,
            ExprFault::DivZero => FaultKind::DivZero,
        })
    }
}

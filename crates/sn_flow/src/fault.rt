ghost use Rattle.std.specs.Prelude.{◌≡◌};

use sn_list::Memory as OutOfMemory;
use sn_record::LabelSet;

/// Why a claim is refused.
#[derive(Drop)]
pub enum FlowFault {
    /// At the place a record of the variant has no route.
    NoRoute(u32, LabelSet),
    /// Of the net at the place a record of the variant may leave, which is not of the output type.
    BadOutput(u32, LabelSet),
    /// More variants than the limits, in the net at the place.
    TooManyVariants(u32),
    Memory,
}

impl From<OutOfMemory> for FlowFault {
    ghost use Rattle.sn_flow.specs.declared.fault.FlowFault.{FlowFault};

    ghost from_gives = { λ _ e. e ≡ FlowFault.Memory };

    fn from(_: OutOfMemory) -> FlowFault {
        FlowFault::Memory
    }
}

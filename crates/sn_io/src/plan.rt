ghost use Rattle.std.specs.Prelude.{◌≡◌, OnOk, OnErr};

use sn_list::{Memory, Seq};
use std::alloc::Global;

/// Which calls of a fake are to fail. Calls are counted from 1; the count stays at its last value.
#[derive(Drop)]
pub struct Plan {
    calls: u64,
    planned: Seq<u64>,
}

impl Plan {
    ghost use Rattle.sn_io.specs.Planned.{empty_plan, fails_next, after_call, with_call};

    pub fn new(alloc: Global) -> Plan
        ensures { result ≡ empty_plan }
    {
        Plan {
            calls: 0,
            planned: Seq::new(alloc),
        }
    }

    /// Plans a fault at the call with this number.
    pub fn add(&mut self, call: u64) -> Result<(), Memory>
        ensures ok { OnOk result (self.new ≡ with_call self.old call) }
        ensures err { OnErr result (self.new ≡ self.old) }
    {
        match self.planned.push(call) {
            Ok(()) => Ok(()),
            Err(_) => Err(Memory),
        }
    }

    /// Counts a call, and answers whether it is to fail.
    pub fn count_call(&mut self) -> bool
        ensures fails { result ≡ fails_next self.old }
        ensures counted { self.new ≡ after_call self.old }
    {
        self.calls = self.calls.saturating_add(1);
        self.planned.as_slice().contains(&self.calls)
    }
}

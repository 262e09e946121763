ghost use Rattle.std.specs.Prelude.{◌<◌};

use crate::plan::Plan;
use crate::sink::{Failed, Sink};
use sn_list::Memory;
use std::alloc::Global;

/// A sink in memory, with planned faults.
///
/// A write takes no memory: it takes what fits into what was reserved, and fails where nothing is left.
#[derive(Drop)]
pub struct MemSink {
    held: Vec<u8>,
    piece: usize,
    plan: Plan,
    faults: u64,
    ghost takes: { 0 < piece },
}

impl Sink for MemSink {
    ghost use Rattle.std.specs.Prelude.{◌≡◌, ◌+◌, ◌<◌, ◌≤◌, Some, length, take, false, IsTrue, IsErr, IsOk, IfOk, MatchResult};
    ghost use Rattle.sn_io.specs.Causes.{HasCause};
    ghost use Rattle.sn_io.specs.Told.{appended};
    ghost use Rattle.sn_io.specs.Planned.{fails_next, after_call};
    ghost use Rattle.sn_io.specs.SinkInMemory.{sink_bytes, sink_faults, sink_plan, sink_piece, sink_room, share_of};

    ghost held = { λ s. Some (sink_bytes s) };

    ghost faults = { sink_faults };

    fn write(&mut self, piece: &[u8]) -> Result<usize, Failed>
        ensures most { IfOk result (λ n. n ≤ length piece.now) }
        ensures least { IfOk result (λ n. 0 < length piece.now → 0 < n) }
        ensures bytes { MatchResult result (λ n. Some (sink_bytes self.new) ≡ appended (Some (sink_bytes self.old)) (take n piece.now)) (λ _. Some (sink_bytes self.new) ≡ Some (sink_bytes self.old)) }
        ensures cause { HasCause (sink_faults self.old) (sink_faults self.new) result }

        // What is planned comes, and nothing else but a want of room.
        ensures counted { sink_plan self.new ≡ after_call (sink_plan self.old) }
        ensures planned { IsTrue (fails_next (sink_plan self.old)) → IsErr result }
        ensures succeeds { fails_next (sink_plan self.old) ≡ false → 0 < sink_room self.old → IsOk result }
        ensures share { IfOk result (λ n. n ≡ share_of self.old piece.now) }
        ensures piece { sink_piece self.new ≡ sink_piece self.old }
    {
        let is_planned = self.plan.count_call();
        let room = self.held.capacity() - self.held.len();
        let share = piece.len().min(self.piece).min(room);
        let is_full = share == 0 && !piece.is_empty();
        if is_planned || is_full || self.held.extend_from_slice(&piece[..share]).is_err() {
            self.faults = self.faults.saturating_add(1);
            return Err(Failed);
        }
        Ok(share)
    }
}

impl MemSink {
    ghost use Rattle.std.specs.Prelude.{◌≡◌, ◌<◌, ◌≤◌, [], OnOk, OnErr};
    ghost use Rattle.sn_io.specs.Planned.{empty_plan, with_call};
    ghost use Rattle.sn_io.specs.SinkInMemory.{sink_bytes, sink_faults, sink_plan, sink_piece, sink_room, KeepsContent};

    /// An empty sink that takes at most `piece` bytes a call. Nothing is reserved yet.
    pub fn new(alloc: Global, piece: usize) -> MemSink
        requires { 0 < piece }
        ensures empty { sink_bytes result ≡ [] }
        ensures no_faults { sink_faults result ≡ 0 }
        ensures no_plan { sink_plan result ≡ empty_plan }
        ensures piece { sink_piece result ≡ piece }
    {
        MemSink {
            held: Vec::new(alloc),
            piece,
            plan: Plan::new(alloc),
            faults: 0,
        }
    }

    /// What it holds.
    pub fn held(&self) -> &[u8]
        ensures { result.now ≡ sink_bytes self.now }
    {
        self.held.as_slice()
    }

    /// Makes room for `n` bytes more.
    pub fn reserve(&mut self, n: usize) -> Result<(), Memory>
        ensures room { OnOk result (n ≤ sink_room self.new) }
        ensures content { KeepsContent self.old self.new }
        ensures plan { sink_plan self.new ≡ sink_plan self.old }
    {
        self.held.reserve(n)?;
        Ok(())
    }

    /// Plans a fault at the write with this number, counted from 1.
    pub fn fail_at(&mut self, call: u64) -> Result<(), Memory>
        ensures ok { OnOk result (sink_plan self.new ≡ with_call (sink_plan self.old) call) }
        ensures err { OnErr result (sink_plan self.new ≡ sink_plan self.old) }
        ensures content { KeepsContent self.old self.new }
        ensures room { sink_room self.new ≡ sink_room self.old }
    {
        self.plan.add(call)
    }
}

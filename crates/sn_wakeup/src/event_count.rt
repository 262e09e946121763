//! Where threads sleep until something happens.
use crossbeam_utils::CachePadded;
use std::sync::Wait;
use std::sync::atomic::{AtomicU64, Ordering};
use std::time::Duration;

/// A thread that sleeps through all notifications looks again after this time, in milliseconds. Nothing depends on it.
const LONGEST_SLEEP: u64 = 100;

/// How often it was notified while somebody slept, and how many threads sleep or are about to. Each count has a line of its own, since many
/// threads read it while others write beside it.
#[derive(Drop)]
pub struct EventCount {
    epoch: CachePadded<AtomicU64>,
    sleepers: CachePadded<AtomicU64>,
}

impl EventCount {
    pub fn new() -> EventCount {
        EventCount {
            epoch: CachePadded::new(AtomicU64::new(0)),
            sleepers: CachePadded::new(AtomicU64::new(0)),
        }
    }

    /// Says that this thread is about to sleep, and answers the epoch to sleep in. Whoever then looks once more for something to do, before it
    /// sleeps, misses no notification.
    pub fn prepare(&self) -> u64 {
        self.sleepers.fetch_add(1, Ordering::SeqCst);
        self.epoch.load(Ordering::SeqCst)
    }

    /// This thread does not sleep after all.
    pub fn cancel(&self) {
        self.sleepers.fetch_sub(1, Ordering::SeqCst);
    }

    /// Sleeps until the epoch is another one. It may return early.
    pub fn sleep<R: Wait>(&self, rt: &R, epoch: u64) {
        self.epoch.park_timeout(
            rt,
            (epoch % 4_294_967_296) as u32,
            Duration::from_millis(LONGEST_SLEEP),
        );
        self.sleepers.fetch_sub(1, Ordering::SeqCst);
    }

    /// Wakes one thread that sleeps. Answers whether there was one.
    pub fn notify_one(&self) -> bool {
        let is_heard = self.begin_epoch();
        if is_heard {
            self.epoch.wake_one();
        }
        is_heard
    }

    /// Wakes all that sleep.
    pub fn notify_all(&self) {
        if self.begin_epoch() {
            self.epoch.wake_all();
        }
    }

    /// Begins a new epoch if a thread sleeps.
    fn begin_epoch(&self) -> bool {
        if self.sleepers.load(Ordering::SeqCst) == 0 {
            return false;
        }
        self.epoch.fetch_add(1, Ordering::SeqCst);
        true
    }
}

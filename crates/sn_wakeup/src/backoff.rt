//! Waiting without burning a processor.
use crate::event_count::EventCount;
use std::sync::Wait;
use std::thread;

/// So many times a thread yields before it sleeps.
const YIELDS: u32 = 32;

/// How long a thread has waited for something to do, and for which event it waits.
pub struct Backoff<'a> {
    event: &'a EventCount,
    yields: u32,
    /// The epoch in which the thread is about to sleep.
    epoch: Option<u64>,
}

impl<'a> Backoff<'a> {
    pub fn new(event: &'a EventCount) -> Backoff<'a> {
        Backoff {
            event,
            yields: 0,
            epoch: None,
        }
    }

    /// There was something to do.
    pub fn reset(&mut self) {
        self.yields = 0;
        if self.epoch.take().is_some() {
            self.event.cancel();
        }
    }

    /// There was nothing to do. The thread yields at first; later it says that it is about to sleep, and sleeps where there was nothing to do
    /// since then.
    pub fn wait<R: Wait>(&mut self, rt: &R) {
        if let Some(epoch) = self.epoch.take() {
            self.event.sleep(rt, epoch);
            return;
        }
        if self.yields < YIELDS {
            self.yields += 1;
            thread::yield_now();
            return;
        }
        self.epoch = Some(self.event.prepare());
    }
}

impl Drop for Backoff<'_> {
    fn drop(self) {
        let Backoff {
            event,
            yields: _,
            epoch,
        } = self;
        if epoch.is_some() {
            event.cancel();
        }
    }
}

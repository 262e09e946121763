//! A gate that holds calls, to see how many run at once.
use sn_io::Gate;
use std::sync::Wait;
use std::sync::atomic::{AtomicU64, Ordering};
use std::thread::Parker;
use std::time::Duration;

/// Holds each call until so many were inside at once, or for so many milliseconds, and counts the calls.
#[derive(Drop)]
pub struct Holding<'a, R> {
    rt: &'a R,
    entered: AtomicU64,
    inside: AtomicU64,
    most: AtomicU64,
    wanted: u64,
    milliseconds: u64,
}

impl<R: Wait + Sync> Holding<'_, R> {
    pub fn new(rt: &R, wanted: u64, milliseconds: u64) -> Holding<'_, R> {
        Holding {
            rt,
            entered: AtomicU64::new(0),
            inside: AtomicU64::new(0),
            most: AtomicU64::new(0),
            wanted,
            milliseconds,
        }
    }

    /// How many calls came, all of which have left again.
    pub fn calls(&self) -> Option<u64> {
        if self.inside.load(Ordering::SeqCst) != 0 {
            return None;
        }
        Some(self.entered.load(Ordering::SeqCst))
    }

    /// How many were inside at once, at most.
    pub fn most(&self) -> u64 {
        self.most.load(Ordering::SeqCst)
    }
}

impl<R: Wait + Sync> Gate for Holding<'_, R> {
    fn enter(&self, _call: u64) {
        self.entered.fetch_add(1, Ordering::SeqCst);
        let inside = self.inside.fetch_add(1, Ordering::SeqCst).wrapping_add(1);
        self.most.fetch_max(inside, Ordering::SeqCst);
        let parker = Parker::new();
        for _ in 0..self.milliseconds {
            if self.most.load(Ordering::SeqCst) >= self.wanted {
                return;
            }
            parker.park_timeout(self.rt, Duration::from_millis(1));
        }
    }

    fn leave(&self, _call: u64) {
        self.inside.fetch_sub(1, Ordering::SeqCst);
    }
}

//! What the owner and the workers tell each other beside jobs and answers.
use crossbeam_utils::CachePadded;
use sn_wakeup::EventCount;
use std::sync::atomic::{AtomicBool, Ordering};

/// Two flags, on lines of their own, since each is read again and again by other threads than those that write beside it; and an event
/// for each thing that a thread may wait for.
#[derive(Drop)]
pub struct Signals {
    over: CachePadded<AtomicBool>,
    refused: CachePadded<AtomicBool>,
    /// Notified for each job, and at the end: idle workers sleep on it.
    pub jobs: EventCount,
    /// Notified for each answer, and where memory is refused: the owner sleeps on it.
    pub answers: EventCount,
    /// Notified where an answer was collected, and at the end: workers with an answer for which there is no room sleep on it.
    pub room: EventCount,
}

impl Signals {
    pub fn new() -> Signals {
        Signals {
            over: CachePadded::new(AtomicBool::new(false)),
            refused: CachePadded::new(AtomicBool::new(false)),
            jobs: EventCount::new(),
            answers: EventCount::new(),
            room: EventCount::new(),
        }
    }

    /// The owner says that the workers are to end.
    pub fn end(&self) {
        self.over.store(true, Ordering::SeqCst);
        self.jobs.notify_all();
        self.room.notify_all();
    }

    pub fn is_over(&self) -> bool {
        self.over.load(Ordering::SeqCst)
    }

    /// A worker was refused memory for a call, which will have no answer.
    pub fn refuse(&self) {
        self.refused.store(true, Ordering::SeqCst);
        self.answers.notify_one();
    }

    pub fn is_refused(&self) -> bool {
        self.refused.load(Ordering::SeqCst)
    }
}

fn is_shared_between_threads<T: Sync>(_: &T) {}

/// Threads may share the signals.
pub fn signals_are_sync(signals: &Signals) {
    is_shared_between_threads(signals);
}

//! Who is woken when something happens here.
use crate::waker::Waker;
use sn_list::Memory;
use std::sync::{Arc, OnceLock, Wait};

/// Nobody at first, and then the one who registered.
#[derive(Drop)]
pub struct Listener {
    waker: OnceLock<Arc<Waker>>,
}

impl Listener {
    pub fn new() -> Listener {
        Listener {
            waker: OnceLock::new(),
        }
    }

    /// From now on this waker is called. The first one stays.
    pub fn register(&self, waker: &Arc<Waker>) -> Result<(), Memory> {
        let theirs = Arc::try_clone(waker)?;
        let _ = self.waker.try_set(theirs);
        Ok(())
    }

    /// Who registered.
    pub fn waker(&self) -> Option<&Arc<Waker>> {
        self.waker.get()
    }

    /// Wakes who registered, if someone has.
    pub fn notify<R: Wait>(&self, rt: &R) {
        if let Some(waker) = self.waker.get() {
            waker.wake(rt);
        }
    }
}

fn is_shared_between_threads<T: Send + Sync>(_: &T) {}

/// Threads may share who listens.
pub fn listeners_are_shared(listener: &Listener) {
    is_shared_between_threads(listener);
}

//! How a task comes to be looked at again.
use crate::run_queue::RunQueue;
use std::sync::atomic::{AtomicBool, Ordering};
use std::sync::{Arc, Wait};

/// Whom it wakes: a task, which is then put into the run queue, or the calling thread.
#[derive(Drop)]
pub struct Waker {
    queue: Arc<RunQueue>,
    /// The number of the task, or nothing for the calling thread.
    task: Option<u64>,
    /// Whether something may have come for the task since it was last looked at. Where that is so, nobody need wake it.
    is_notified: AtomicBool,
    /// Whether the task waits to be put into the run queue.
    is_idle: AtomicBool,
}

impl Waker {
    /// Wakes a task, which is already to be looked at.
    pub fn of_task(queue: Arc<RunQueue>, task: u64) -> Waker {
        Waker {
            queue,
            task: Some(task),
            is_notified: AtomicBool::new(true),
            is_idle: AtomicBool::new(false),
        }
    }

    /// Wakes the calling thread.
    pub fn of_caller(queue: Arc<RunQueue>) -> Waker {
        Waker {
            queue,
            task: None,
            is_notified: AtomicBool::new(false),
            is_idle: AtomicBool::new(false),
        }
    }

    /// The task is looked at now. What comes from here on is told by `rest`.
    pub fn begin(&self) {
        self.is_notified.store(false, Ordering::SeqCst);
    }

    /// Lets the task rest until it is woken, unless something came since the look began. Answers whether it rests.
    pub fn rest(&self) -> bool {
        self.is_idle.store(true, Ordering::SeqCst);
        // Where another thread has seen that it rests, that one puts it into the run queue.
        !self.is_notified.load(Ordering::SeqCst) || !self.is_idle.swap(false, Ordering::SeqCst)
    }

    /// Something has come for the task.
    pub fn wake<R: Wait>(&self, rt: &R) {
        let Some(task) = self.task else {
            self.queue.output.notify_one();
            return;
        };
        if self.is_notified.load(Ordering::SeqCst)
            || self.is_notified.swap(true, Ordering::SeqCst)
        {
            return;
        }
        if self.is_idle.swap(false, Ordering::SeqCst) {
            self.queue.push(rt, task);
        }
    }
}

//! The tasks that have something to do.
use crate::event_count::EventCount;
use sn_list::Memory;
use sn_pool::Pool;
use std::alloc::Global;
use std::sync::Wait;

/// The numbers of the tasks that have something to do, and where threads sleep that have not.
#[derive(Drop)]
pub struct RunQueue {
    ready: Pool<u64>,
    /// Notified when a task has something to do: idle workers sleep on it.
    pub tasks: EventCount,
    /// Notified when something has come for the calling thread alone, which sleeps on it, or a task has something to do while no worker sleeps.
    pub output: EventCount,
}

impl RunQueue {
    pub fn new(alloc: Global) -> Result<RunQueue, Memory> {
        let ready = Pool::new(alloc)?;
        Ok(RunQueue {
            ready,
            tasks: EventCount::new(),
            output: EventCount::new(),
        })
    }

    /// The task of this number has something to do. For want of memory the run is over.
    pub fn push<R: Wait>(&self, rt: &R, task: u64) {
        if self.ready.put(rt, task).is_err() {
            self.stop(rt);
            return;
        }
        if !self.tasks.notify_one() {
            self.output.notify_one();
        }
    }

    /// Takes out the task that waits longest, unless the run is over.
    pub fn take<R: Wait>(&self, rt: &R) -> Option<u64> {
        self.ready.take(rt)
    }

    /// The run is over: no task is taken any more.
    pub fn stop<R: Wait>(&self, rt: &R) {
        self.ready.stop(rt);
        self.tasks.notify_all();
        self.output.notify_all();
    }

    pub fn is_stopped<R: Wait>(&self, rt: &R) -> bool {
        self.ready.stopped(rt)
    }
}

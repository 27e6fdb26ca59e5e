//! How many workers run at the same time.
use std::sync::{Condvar, Mutex, Wait};

/// Places for workers that run: as many as there are processors. More workers would only take these from each other, and
/// whoever has the engine's lock, or is the next to have it, might be without one. No contract speaks of it.
#[derive(Drop)]
pub(crate) struct Places {
    free: Mutex<usize>,
    freed: Condvar,
}

impl Places {
    /// So many places, all free.
    pub(crate) fn new(count: usize) -> Places {
        Places {
            free: Mutex::new(count),
            freed: Condvar::new(),
        }
    }

    /// Takes a place, once one is free.
    pub(crate) fn take<R: Wait>(&self, rt: &R) {
        // Another may take the place that was freed before this thread looks again: then it waits on.
        let mut free = self
            .freed
            .wait_while(rt, self.free.lock(rt), |free| *free == 0);
        *free = free.saturating_sub(1);
    }

    /// Gives a place back.
    pub(crate) fn give<R: Wait>(&self, rt: &R) {
        let mut free = self.free.lock(rt);
        *free = free.saturating_add(1);
        drop(free);
        self.freed.notify_one();
    }
}

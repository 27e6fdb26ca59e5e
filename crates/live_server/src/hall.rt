//! What the thread that reads and the thread that runs share beside the ring.
use std::sync::atomic::{AtomicBool, Ordering};
use std::sync::{Condvar, CondvarTimeouts, Mutex, Wait};
use std::time::{Clock, Duration};

// A sleeper is woken where the other thread did something since it last looked.
#[derive(Drop)]
struct Stir {
    stirred: Mutex<bool>,
    changed: Condvar,
}

impl Stir {
    fn new() -> Stir {
        Stir {
            stirred: Mutex::new(false),
            changed: Condvar::new(),
        }
    }

    // The other thread did something.
    fn stir<R: Wait>(&self, rt: &R) {
        let mut stirred = self.stirred.lock(rt);
        *stirred = true;
        drop(stirred);
        self.changed.notify_all();
    }

    // Sleeps until the other thread has done something since the last sleep, or so long.
    fn sleep<R: Wait + Clock>(&self, rt: &R, at_most: Option<Duration>) {
        let mut stirred = self.stirred.lock(rt);
        if !*stirred {
            stirred = match at_most {
                Some(time) => self.changed.wait_timeout(rt, stirred, time).0,
                None => self.changed.wait(rt, stirred),
            };
        }
        *stirred = false;
    }
}

/// How the input stands.
#[derive(Clone, Copy, Debug, PartialEq, Eq)]
pub(crate) enum Input {
    /// More may come.
    Open,
    /// All was handed on.
    Ended,
    /// It couldn't be opened, or a call of the reader failed.
    Failed,
}

/// The sleepers at both ends of the ring, and what the ends tell each other besides. No contract speaks of it.
#[derive(Drop)]
pub(crate) struct Hall {
    items: Stir,
    room: Stir,
    has_ended: AtomicBool,
    has_failed: AtomicBool,
    is_closed: AtomicBool,
}

impl Hall {
    pub(crate) fn new() -> Hall {
        Hall {
            items: Stir::new(),
            room: Stir::new(),
            has_ended: AtomicBool::new(false),
            has_failed: AtomicBool::new(false),
            is_closed: AtomicBool::new(false),
        }
    }

    /// Bytes were put into the ring.
    pub(crate) fn note_items<R: Wait>(&self, rt: &R) {
        self.items.stir(rt);
    }

    /// Bytes were taken out of it.
    pub(crate) fn note_room<R: Wait>(&self, rt: &R) {
        self.room.stir(rt);
    }

    /// Sleeps until bytes were put in, no more come, or so long.
    pub(crate) fn wait_for_items<R: Wait + Clock>(&self, rt: &R, at_most: Option<Duration>) {
        self.items.sleep(rt, at_most);
    }

    /// Sleeps until bytes were taken out, or no more are.
    pub(crate) fn wait_for_room<R: Wait + Clock>(&self, rt: &R) {
        self.room.sleep(rt, None);
    }

    /// No more comes. What was put in before is there.
    pub(crate) fn end<R: Wait>(&self, rt: &R, is_all: bool) {
        self.has_failed.store(!is_all, Ordering::SeqCst);
        self.has_ended.store(true, Ordering::SeqCst);
        self.items.stir(rt);
    }

    pub(crate) fn input(&self) -> Input {
        if !self.has_ended.load(Ordering::SeqCst) {
            return Input::Open;
        }
        if self.has_failed.load(Ordering::SeqCst) {
            Input::Failed
        } else {
            Input::Ended
        }
    }

    /// No more is taken.
    pub(crate) fn close<R: Wait>(&self, rt: &R) {
        self.is_closed.store(true, Ordering::SeqCst);
        self.room.stir(rt);
    }

    pub(crate) fn is_closed(&self) -> bool {
        self.is_closed.load(Ordering::SeqCst)
    }
}

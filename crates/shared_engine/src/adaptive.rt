//! A lock that many may share or one may have alone, tried for a while before its thread sleeps.
//!
//! std's lock lets a thread sleep after a hundred looks, and a sleep with its waking costs as much as many steps of the
//! engine. Here a thread tries in a bounded number of turns first, and after some in vain it lets others run between
//! two: whoever has the lock, or is the next to have it, may be without a processor. While somebody wants the lock
//! alone, those who would share it hold back, so that they can't pass it round among themselves. Nothing that is proved
//! rests on this: std's lock alone says who may do what, and once the turns are over its way is taken.
use std::hint::spin_loop;
use std::sync::atomic::{AtomicU64, Ordering};
use std::sync::{RwLock, RwLockReadGuard, RwLockWriteGuard, Wait};
use std::thread::yield_now;

// How often a thread tries before it sleeps, and how often it looks at `wanted` between two of the first tries. A look
// costs next to nothing while nobody changes the word; a try takes the lock's word, and what lies beside it, from
// whoever has it.
const TRIES: u32 = 1_000;

const LOOKS: u32 = 256;

// The same for who would share it: who has it alone, has it for a few microseconds.
const READ_LOOKS: u32 = 64;

// After how many tries it lets others run before the next one: a few microseconds, longer than most have the lock.
const EARLY_TRIES: u32 = 16;

// The same for who is patient, before it does as the others.
const PATIENT_TRIES: u32 = 32;

const PATIENT_LOOKS: u32 = 96;

const PATIENT_EARLY_TRIES: u32 = 28;

// After a try at once in vain the lock is taken to be in use at so many of the next ones.
const IN_USE: u64 = 64;

/// How a thread waits for the lock alone.
#[derive(Clone, Copy)]
pub(crate) enum Patience {
    /// It tries often, and from its first try in vain on those who would share the lock hold back. For a commit, say, or
    /// for $GETs that were gathered before, which take less time than the next reads of the others.
    Short,
    /// For a while nobody holds back for it. For lone commands: whoever has the lock does many of them one after the
    /// other, and who would share it gathers others meanwhile.
    Long,
}

/// A lock over a value. Its guards are std's.
#[derive(Drop)]
pub(crate) struct AdaptiveLock<T> {
    // How many threads want the lock alone.
    wanted: AtomicU64,
    // At how many of the next tries at once it is taken to be in use.
    in_use: AtomicU64,
    // Keeps these words out of the cache lines of the lock, which change with each try.
    _apart: [u64; 14],
    lock: RwLock<T>,
}

impl<T> AdaptiveLock<T> {
    /// A lock that nobody has. Takes no memory.
    pub(crate) fn new(value: T) -> AdaptiveLock<T> {
        AdaptiveLock {
            wanted: AtomicU64::new(0),
            in_use: AtomicU64::new(0),
            _apart: [0; 14],
            lock: RwLock::new(value),
        }
    }

    /// The value, once nobody else can have the lock.
    pub(crate) fn into_inner(self) -> T {
        let AdaptiveLock {
            wanted: _,
            in_use: _,
            _apart: _,
            lock,
        } = self;
        lock.into_inner()
    }

    // Whether somebody wants the lock alone.
    fn is_wanted(&self) -> bool {
        self.wanted.load(Ordering::Relaxed) != 0
    }

    // Lets others go on for so many looks.
    fn look_away(&self, looks: u32) {
        for _ in 0..looks {
            if self.wanted.load(Ordering::Relaxed) == u64::MAX {
                return;
            }
            spin_loop();
        }
    }

    // Between two tries: so many looks where it is an early one, else other threads run.
    fn rest(&self, is_early: bool, looks: u32) {
        if is_early {
            self.look_away(looks);
        } else {
            yield_now();
        }
    }

    /// The lock, shared: others may share it, and nobody has it alone.
    pub(crate) fn read<R: Wait>(&self, rt: &R) -> RwLockReadGuard<'_, T> {
        for tries in 0..TRIES {
            // Others may take or free the lock between these two: then it is tried in vain, and once more.
            if !self.is_wanted() {
                if let Some(guard) = self.lock.try_read() {
                    return guard;
                }
            }
            self.rest(tries < EARLY_TRIES, READ_LOOKS);
        }
        self.lock.read(rt)
    }

    /// The lock alone, where nobody has it now, and none of the last tries at once was in vain. Else others are about, whom
    /// much that is done under it alone would keep waiting. Threads that try together may miscount their tries.
    pub(crate) fn write_at_once(&self) -> Option<RwLockWriteGuard<'_, T>> {
        let in_use = self.in_use.load(Ordering::Relaxed);
        if in_use > 0 {
            self.in_use.store(in_use - 1, Ordering::Relaxed);
            return None;
        }
        let guard = self.lock.try_write();
        if guard.is_none() {
            self.in_use.store(IN_USE, Ordering::Relaxed);
        }
        guard
    }

    /// The lock alone.
    pub(crate) fn write<R: Wait>(&self, rt: &R, patience: Patience) -> RwLockWriteGuard<'_, T> {
        if let Some(guard) = self.lock.try_write() {
            return guard;
        }
        if let Patience::Long = patience {
            if let Some(guard) = self.wait_patiently() {
                return guard;
            }
        }
        self.wanted.fetch_add(1, Ordering::SeqCst);
        let guard = self.write_in_tries(rt);
        self.wanted.fetch_sub(1, Ordering::SeqCst);
        guard
    }

    // The lock alone, if it is free at one of some tries. Nobody holds back meanwhile.
    fn wait_patiently(&self) -> Option<RwLockWriteGuard<'_, T>> {
        for tries in 0..PATIENT_TRIES {
            self.rest(tries < PATIENT_EARLY_TRIES, PATIENT_LOOKS);
            if let Some(guard) = self.lock.try_write() {
                return Some(guard);
            }
        }
        None
    }

    // Those who would share the lock hold back meanwhile.
    fn write_in_tries<R: Wait>(&self, rt: &R) -> RwLockWriteGuard<'_, T> {
        for tries in 0..TRIES {
            if let Some(guard) = self.lock.try_write() {
                return guard;
            }
            self.rest(tries < EARLY_TRIES, LOOKS);
        }
        self.lock.write(rt)
    }
}

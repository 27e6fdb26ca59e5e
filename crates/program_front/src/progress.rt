//! How far a long run is, told on a terminal.
use std::rt::Clock;
use std::sync::atomic::{AtomicU64, Ordering};
use std::time::Instant;

/// When a run was begun, and after how many of its seconds its progress was told last.
#[derive(Drop)]
pub struct Progress {
    begun: Instant,
    told: AtomicU64,
}

impl Progress {
    /// From now on; none where there is no time.
    pub fn new(rt: &impl Clock) -> Option<Progress> {
        Some(Progress {
            begun: Instant::now(rt).ok()?,
            told: AtomicU64::new(0),
        })
    }

    /// How many seconds have passed, where it is time to tell: at most once a second, and not in the first.
    pub fn due(&self, rt: &impl Clock) -> Option<u64> {
        let seconds = self.begun.elapsed(rt).ok()?.as_secs();
        if seconds <= self.told.load(Ordering::Relaxed) {
            return None;
        }
        self.told.store(seconds, Ordering::Relaxed);
        Some(seconds)
    }

    /// Tells so many lines of what is named, in one line on standard error that is written over, where it is time to.
    pub fn tell_lines(&self, rt: &(impl Clock + Eprint), program: &str, name: &str, lines: u64) {
        if let Some(seconds) = self.due(rt) {
            let pace = lines.checked_div(seconds).unwrap_or(lines);
            let _ = eprint!(rt; "\r{program}: {name}: {lines} lines, {pace} a second  ");
        }
    }

    /// Clears what was told, if something was.
    pub fn clear(&self, rt: &impl Eprint) {
        if self.told.load(Ordering::Relaxed) > 0 {
            let _ = eprint!(rt; "\r\x1b[K");
        }
    }
}

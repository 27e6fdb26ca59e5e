//! When a worker lets the collector look at some keys, and at how many. No proof rests on it.
use shared_engine::Turn;

// After how many lines that write there is a turn.
const WRITES_PER_TURN: u64 = 64;

// At how many keys a turn looks, at least: at more than come with so many lines, or else it would stay among those that
// are in use, and never get round to those that were killed behind it.
const FEWEST_KEYS: usize = 72;

// The same at most, also in place of several turns that fell due before a hold came, as in a long transaction.
const MOST_KEYS: usize = 65_536;

/// The turns of one worker.
#[derive(Drop)]
pub(crate) struct Turns {
    // How many lines that write were done.
    writes: u64,
    // At how many keys a turn looks that falls due.
    keys: usize,
    /// The turn that goes with the next hold of the engine's lock in which lines may write.
    pub(crate) next: Turn,
}

impl Turns {
    /// No line was done.
    pub(crate) fn new() -> Turns {
        Turns {
            writes: 0,
            keys: FEWEST_KEYS,
            next: Turn::NotDue,
        }
    }

    /// Counts lines that write, before they are done: with each 64th a turn falls due.
    pub(crate) fn note_writes(&mut self, count: u64) {
        self.note_taken();
        let before = self.writes / WRITES_PER_TURN;
        self.writes = self.writes.wrapping_add(count);
        let after = self.writes / WRITES_PER_TURN;
        if after != before {
            self.next = self.next_with(after.wrapping_sub(before) as usize);
        }
    }

    // The turn that is due where so many more fall due.
    fn next_with(&self, more: usize) -> Turn {
        let due = match self.next {
            Turn::Due(keys) => keys,
            Turn::NotDue | Turn::Taken(_) => 0,
        };
        let keys = due.saturating_add(self.keys.saturating_mul(more));
        Turn::Due(keys.min(MOST_KEYS))
    }

    // Takes in a turn that was taken: after one that took out most of the keys at which it looked the next looks at twice
    // as many, else at half as many.
    fn note_taken(&mut self) {
        let Turn::Taken(progress) = self.next else {
            return;
        };
        self.next = Turn::NotDue;
        self.keys = if progress.removed > progress.visited / 2 {
            self.keys.saturating_mul(2).min(MOST_KEYS)
        } else {
            (self.keys / 2).max(FEWEST_KEYS)
        };
    }
}

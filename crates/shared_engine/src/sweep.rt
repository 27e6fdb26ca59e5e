//! How far the collector has gone round, and when it pays that it goes on.
use collector::Progress;
use command::DataCommand;
use job_core::Core;

/// Whether a data command only looks.
pub(crate) fn looks(command: &DataCommand) -> bool {
    matches!(command, DataCommand::Look(_))
}

// So many more absences, and so many more older versions, may lie there before a turn pays.
const FEW_ABSENCES: u64 = 256;

const FEW_OLDER: usize = 1_024;

// After so many units a horizon is drawn, where no turn draws one.
const UNITS_PER_HORIZON: u64 = 64;

// A round of turns over all keys: how many absences were written before the last one began, and how many keys this one
// visited.
#[derive(Clone, Copy, Debug, PartialEq, Eq, Drop)]
struct Round {
    absences: u64,
    visited: usize,
}

impl Round {
    fn new() -> Round {
        Round {
            absences: 0,
            visited: 0,
        }
    }

    // Takes in a turn's visits. With the last of all keys the next round begins.
    fn note_visits(&mut self, visited: usize, absences: u64, keys: usize) {
        self.visited = self.visited.saturating_add(visited);
        if self.visited >= keys {
            *self = Round {
                absences,
                visited: 0,
            };
        }
    }
}

/// The keys that were visited one after the other since the last unit that wrote, at horizons that aren't before it:
/// each has one version left, or none. Once they are all, a further turn would find nothing.
#[derive(Clone, Copy, Debug, PartialEq, Eq, Drop)]
pub(crate) struct Sweep {
    written_at: u64,
    drawn_at: u64,
    visited: usize,
    is_done: bool,
    round: Round,
}

impl Sweep {
    /// Nothing is written, and nothing visited.
    pub(crate) fn new() -> Sweep {
        Sweep {
            written_at: 0,
            drawn_at: 0,
            visited: 0,
            is_done: false,
            round: Round::new(),
        }
    }

    /// Whether all keys were visited since the last write.
    pub(crate) fn is_done(&self) -> bool {
        self.is_done
    }

    /// Whether a turn pays: since the last round began a quarter as many absences were written as there are keys, or half as
    /// many versions again lie below newer ones as there are keys. About one below each is what SETs that come again and
    /// again leave, and they drop it themselves.
    pub(crate) fn pays(&self, core: &Core) -> bool {
        let keys = core.placed_count();
        let absences = core.absences().wrapping_sub(self.round.absences);
        absences > (keys / 4) as u64 + FEW_ABSENCES
            || core.older() > keys.saturating_add(keys / 2).saturating_add(FEW_OLDER)
    }

    /// Whether writes are 64 units or more behind the last horizon that was drawn.
    pub(crate) fn is_behind(&self) -> bool {
        self.written_at.wrapping_sub(self.drawn_at) >= UNITS_PER_HORIZON
    }

    /// A horizon is drawn.
    pub(crate) fn note_horizon(&mut self) {
        self.drawn_at = self.written_at;
    }

    /// Takes in the unit with this number. One that only looks leaves nothing to be dropped.
    pub(crate) fn note_unit(&mut self, number: u64, looks: bool) {
        if !looks {
            *self = Sweep {
                written_at: number,
                drawn_at: self.drawn_at,
                visited: 0,
                is_done: false,
                round: self.round,
            };
        }
    }

    /// Takes in a turn at this horizon, which has left so many keys. One at a horizon before the last write leaves
    /// versions that an open transaction sees, so it counts for nothing.
    pub(crate) fn note_turn(&mut self, horizon: u64, turn: Progress, core: &Core) {
        self.note_horizon();
        let keys = core.placed_count();
        self.round.note_visits(turn.visited, core.absences(), keys);
        if horizon < self.written_at {
            self.visited = 0;
        } else {
            let kept = turn.visited.saturating_sub(turn.removed);
            self.visited = self.visited.saturating_add(kept);
            self.is_done = self.visited >= keys;
        }
    }
}

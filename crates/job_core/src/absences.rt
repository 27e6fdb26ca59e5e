//! When it is worth while to look for killed nodes that lie in the way.

// For how many times a search is left out, at most: seventeen has few multiples among the lengths of loops.
const LONGEST_PAUSE: u8 = 16;

// Each search in vain in turn doubles the pause before the next, so that those who find none pay for one in seventeen.
#[derive(Clone, Copy)]
struct Pause {
    left: u8,
    next: u8,
}

impl Pause {
    fn new() -> Pause {
        Pause { left: 0, next: 0 }
    }

    // Whether it is over: if not a search less is to be left out.
    fn is_over(&mut self) -> bool {
        if self.left == 0 {
            return true;
        }
        self.left -= 1;
        false
    }

    // A search was in vain or not.
    fn note_search(&mut self, has_found: bool) {
        if has_found {
            self.next = 0;
            return;
        }
        self.left = self.next;
        self.next = if self.next < 8 {
            2 * self.next + 1
        } else {
            LONGEST_PAUSE
        };
    }
}

/// Nodes that are killed while older content is asked for stay as absences, until a collector has visited them. What is
/// kept here tells whether there may be some, and is advice, which no contract trusts.
#[derive(Clone, Copy)]
pub(crate) struct Absences {
    since: u64,
    unvisited: usize,
    looks: Pause,
    kills: Pause,
    is_kill: bool,
}

impl Absences {
    /// There are none.
    pub(crate) fn new() -> Absences {
        Absences {
            since: 0,
            unvisited: 0,
            looks: Pause::new(),
            kills: Pause::new(),
            is_kill: false,
        }
    }

    /// After this stamp there may be some, among so many placed references.
    pub(crate) fn note_kills(&mut self, stamp: u64, placed: usize) {
        self.since = stamp;
        self.unvisited = placed;
    }

    /// A turn of the collector at this horizon visits so many references, if there are as many.
    pub(crate) fn note_turn(&mut self, horizon: u64, limit: usize) {
        if horizon > self.since {
            self.unvisited = self.unvisited.saturating_sub(limit);
        }
    }

    /// Whether to look for them at this look-up.
    pub(crate) fn are_sought(&mut self) -> bool {
        self.unvisited != 0 && self.looks.is_over()
    }

    /// A search for them was in vain or not.
    pub(crate) fn note_search(&mut self, has_found: bool) {
        self.looks.note_search(has_found);
    }

    /// A lone KILL comes: it may look for them below its reference.
    pub(crate) fn begin_kill(&mut self) {
        self.is_kill = self.kills.is_over();
    }

    /// Whether this is a KILL that looks for them.
    pub(crate) fn are_sought_by_kill(&self) -> bool {
        self.is_kill
    }

    /// Its search, if it is one that looks for them, was in vain or not.
    pub(crate) fn end_kill(&mut self, has_found: bool) {
        if self.is_kill {
            self.is_kill = false;
            self.kills.note_search(has_found);
        }
    }
}

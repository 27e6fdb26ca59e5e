//! Where the last new reference went into the tree: the next one often goes there too.
use btree::Trail;

// For how many new references the place isn't tried, at most.
const LONGEST_PAUSE: u8 = 15;

/// The trail to the last new reference, and how long it isn't tried after tries in vain: each one in turn doubles the
/// pause, so that references in no order pay for one try in sixteen. It is advice, which no contract trusts.
#[derive(Clone, Copy)]
pub(crate) struct Near {
    trail: Trail,
    left: u8,
    pause: u8,
}

impl Near {
    /// Near no reference.
    pub(crate) fn new() -> Near {
        Near {
            trail: Trail::new(),
            left: 0,
            pause: 0,
        }
    }

    /// The trail, unless this is a time to pass over.
    pub(crate) fn trail(&mut self) -> Option<Trail> {
        if self.left == 0 {
            return Some(self.trail);
        }
        self.left -= 1;
        None
    }

    /// A try told where a new reference goes.
    pub(crate) fn told(&mut self, trail: Trail) {
        self.trail = trail;
        self.pause = 0;
    }

    /// A try told nothing.
    pub(crate) fn was_in_vain(&mut self) {
        self.left = self.pause;
        self.pause = if self.pause < 8 {
            2 * self.pause + 1
        } else {
            LONGEST_PAUSE
        };
    }

    /// A new reference goes where a look-up went.
    pub(crate) fn note(&mut self, trail: &Trail) {
        self.trail = *trail;
    }
}

//! The parts in their order.

/// Which part is the next, and which alone is run, 0 for each.
#[derive(Clone, Copy)]
pub struct Turn {
    number: u64,
    chosen: u64,
}

impl Turn {
    /// Before the first part.
    pub fn new(chosen: u64) -> Turn {
        Turn { number: 0, chosen }
    }

    /// Goes on to the next part. Whether it is run.
    pub fn is_next(&mut self) -> bool {
        self.number = self.number.saturating_add(1);
        self.chosen == 0 || self.chosen == self.number
    }

    /// Whether one part alone is run.
    pub fn is_alone(&self) -> bool {
        self.chosen != 0
    }

    /// Whether, once all parts have been gone over, a part is chosen that isn't there.
    pub fn is_past(&self) -> bool {
        self.chosen > self.number
    }
}

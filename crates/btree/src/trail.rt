//! Where a look-up went.
ghost use Rattle.std.specs.Prelude.{◌≡◌};

// No row has so many places.
const NO_PLACE: u8 = 255;

/// Where a look-up went: the place in each node that it visited.
///
/// Contracts see of it how many nodes were visited. The places are advice, which no contract trusts.
#[derive(Clone, Copy)]
pub struct Trail {
    pub(crate) visits: usize,
    places: [u8; 16],
}

impl Trail {
    /// The trail of no look-up.
    pub fn new() -> Trail
        ensures { result.visits ≡ 0 }
    {
        Trail {
            visits: 0,
            places: [NO_PLACE; 16],
        }
    }

    /// How many nodes were visited.
    pub fn visits(&self) -> usize
        ensures { result ≡ self.now.visits }
    {
        self.visits
    }

    // Notes the place in the node that was visited last.
    pub(crate) fn note(&mut self, at: usize)
        ensures { self.new.visits ≡ self.old.visits }
    {
        let level = self.visits.wrapping_sub(1);
        self.put(level, at);
    }

    // Notes the place in the node so many levels below the root.
    pub(crate) fn put(&mut self, level: usize, at: usize)
        ensures { self.new.visits ≡ self.old.visits }
    {
        self.places[level % 16] = (at % 256) as u8;
    }

    // The place that was noted so many levels below the root.
    pub(crate) fn place(&self, level: usize) -> usize {
        self.places[level % 16] as usize
    }
}

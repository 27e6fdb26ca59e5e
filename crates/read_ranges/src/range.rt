//! Ranges of references, and how one takes in another.
ghost use Rattle.std.specs.Prelude.{◌≡◌, ◌&&◌, ◌||◌, not, true, false, IfOk, OnOk, OnErr};
ghost use Rattle.collation.specs.Reference.{Reference};
ghost use Rattle.globals.specs.Cuts.{stands_before};
ghost use Rattle.read_ranges.specs.Ranges.{between, begins_after, ends_after, is_in, Joins};

use crate::edge::{Edge, is_at_most};
use globals::Cut;
use key_codec::Key;
use std::alloc::AllocError;

/// References that were read.
#[derive(Debug, Drop)]
pub enum ReadRange {
    /// One reference, without those under it.
    One(Key),
    /// The references from one edge on and before another.
    Between(Edge, Edge),
}

// How what lies between two cuts joins a range.
pub(crate) enum Joint {
    // It isn't known to join it without a gap.
    Apart,
    // It lies in the range.
    Within,
    // The range with the second cut as its end has both.
    Higher,
    // The range with the first cut as its beginning has both.
    Lower,
}

impl ReadRange {
    /// What lies between two cuts. Takes memory only for a key of over 38 bytes.
    ///
    /// Refusals: `AllocError`.
    pub fn new(low: Cut<'_>, high: Cut<'_>) -> Result<ReadRange, AllocError>
        ensures { IfOk result (λ range. (x : Reference) → is_in range x ≡ between low.entry high.entry x) }
    {
        let low = Edge::of(low)?;
        let high = Edge::of(high)?;
        Ok(ReadRange::Between(low, high))
    }

    /// The cut at which the range begins. Takes no memory.
    pub fn low(&self) -> Cut<'_>
        ensures { (x : Reference) → stands_before result x ≡ begins_after self.now x }
    {
        match self {
            ReadRange::One(key) => Cut::Before(key),
            ReadRange::Between(low, _) => low.cut(),
        }
    }

    /// The cut at which the range ends. Takes no memory.
    pub fn high(&self) -> Cut<'_>
        ensures { (x : Reference) → stands_before result x ≡ ends_after self.now x }
    {
        match self {
            ReadRange::One(key) => Cut::After(key),
            ReadRange::Between(_, high) => high.cut(),
        }
    }

    /// Whether a reference lies in the range. Takes no memory.
    pub fn contains(&self, key: &Key) -> bool
        ensures { result ≡ is_in self.now key.now }
    {
        match self {
            ReadRange::One(one) => key == one,
            ReadRange::Between(low, high) => !low.is_short(key) && high.is_short(key),
        }
    }

    fn joint(&self, low: Cut<'_>, high: Cut<'_>) -> Joint
        ensures { Joins result self.now low.entry high.entry }
    {
        if !is_at_most(low, self.high()) || !is_at_most(self.low(), high) {
            return Joint::Apart;
        }
        let begins = is_at_most(self.low(), low);
        let ends = is_at_most(high, self.high());
        if begins {
            if ends { Joint::Within } else { Joint::Higher }
        } else {
            if ends { Joint::Lower } else { Joint::Apart }
        }
    }

    // Whether the range is seen to have what lies between two cuts. Takes no memory.
    pub(crate) fn covers(&self, low: Cut<'_>, high: Cut<'_>) -> bool
        ensures { result ≡ true → (x : Reference) → is_in self.now x ≡ (is_in self.now x || between low.entry high.entry x) }
    {
        match self.joint(low, high) {
            Joint::Within => true,
            Joint::Apart => false,
            Joint::Higher => false,
            Joint::Lower => false,
        }
    }

    // Puts another cut as its end. Takes memory only for a key of over 38 bytes.
    fn end_at(&mut self, high: Cut<'_>) -> Result<(), AllocError>
        ensures ends { OnOk result ((x : Reference) → is_in self.new x ≡ (not (begins_after self.old x) && stands_before high.entry x)) }
        ensures err { OnErr result (self.new ≡ self.old) }
    {
        match self {
            ReadRange::One(key) => {
                let grown = ReadRange::new(Cut::Before(key), high)?;
                *self = grown;
            }
            ReadRange::Between(_, end) => {
                *end = Edge::of(high)?;
            }
        }
        Ok(())
    }

    // Puts another cut as its beginning. Takes memory only for a key of over 38 bytes.
    fn begin_at(&mut self, low: Cut<'_>) -> Result<(), AllocError>
        ensures begins { OnOk result ((x : Reference) → is_in self.new x ≡ (not (stands_before low.entry x) && ends_after self.old x)) }
        ensures err { OnErr result (self.new ≡ self.old) }
    {
        match self {
            ReadRange::One(key) => {
                let grown = ReadRange::new(low, Cut::After(key))?;
                *self = grown;
            }
            ReadRange::Between(beginning, _) => {
                *beginning = Edge::of(low)?;
            }
        }
        Ok(())
    }

    // Takes in what lies between two cuts, where that joins the range without a gap, and tells whether it has.
    // Takes memory only for a key of over 38 bytes.
    pub(crate) fn take_in(&mut self, low: Cut<'_>, high: Cut<'_>) -> Result<bool, AllocError>
        ensures joined { IfOk result (λ joined. joined ≡ true → (x : Reference) → is_in self.new x ≡ (is_in self.old x || between low.entry high.entry x)) }
        ensures apart { IfOk result (λ joined. joined ≡ false → self.new ≡ self.old) }
        ensures err { OnErr result (self.new ≡ self.old) }
    {
        match self.joint(low, high) {
            Joint::Apart => Ok(false),
            Joint::Within => Ok(true),
            Joint::Higher => {
                self.end_at(high)?;
                Ok(true)
            }
            Joint::Lower => {
                self.begin_at(low)?;
                Ok(true)
            }
        }
    }
}

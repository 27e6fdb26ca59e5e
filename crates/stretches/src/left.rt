//! What a command leaves of stretches.
ghost use Rattle.std.specs.Prelude.{◌≡◌, true, false};
ghost use Rattle.collation.specs.Reference.{Reference};
ghost use Rattle.read_ranges.specs.Ranges.{between};
ghost use Rattle.stretches.specs.Empty.{stays};

use globals::Cut;
use read_ranges::ReadRange;
use std::alloc::AllocError;

/// What a command leaves of stretches, which aren't changed yet.
#[derive(Debug, Drop)]
pub enum Left {
    /// All of them stay as they are.
    All,
    /// What lies in this range is taken out of them.
    Without(ReadRange),
    /// None of them stays.
    Nothing,
}

impl Left {
    // What lies between two cuts is taken out; all, where memory is refused for these.
    pub(crate) fn without(low: Cut<'_>, high: Cut<'_>) -> Left
        ensures { (x : Reference) → between low.entry high.entry x ≡ true → stays result x ≡ false }
    {
        match ReadRange::new(low, high) {
            Ok(range) => Left::Without(range),
            Err(AllocError) => Left::Nothing,
        }
    }
}

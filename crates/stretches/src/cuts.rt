//! The earlier and the later of two cuts, and whether one stands between others.
ghost use Rattle.std.specs.Prelude.{◌≡◌, ◌&&◌, ◌||◌, true};
ghost use Rattle.collation.specs.Reference.{Reference};
ghost use Rattle.globals.specs.Cuts.{stands_before, stands_under, stands_within};
ghost use Rattle.read_ranges.specs.Ranges.{AreEarlier};
ghost use Rattle.stretches.specs.Empty.{EndsBetween, LiesIn, StartsBetween};

use globals::Cut;
use read_ranges::{ReadRange, is_at_most};

// The first of two cuts, or the second where that stands after it.
pub(crate) fn later<'c>(first: Cut<'c>, second: Cut<'c>) -> Cut<'c>
    ensures first { AreEarlier first.entry result }
    ensures second { AreEarlier second.entry result }
    ensures one { (x : Reference) → stands_before result x ≡ (stands_before first.entry x || stands_before second.entry x) }
{
    if is_at_most(first, second) {
        second
    } else {
        first
    }
}

// The first of two cuts, or the second where that stands before it.
pub(crate) fn earlier<'c>(first: Cut<'c>, second: Cut<'c>) -> Cut<'c>
    ensures first { AreEarlier result first.entry }
    ensures second { AreEarlier result second.entry }
    ensures one { (x : Reference) → stands_before result x ≡ (stands_before first.entry x && stands_before second.entry x) }
{
    if is_at_most(first, second) {
        first
    } else {
        second
    }
}

// Whether the second cut stands behind the first, and not behind the end.
pub(crate) fn stands_between(cut: Cut<'_>, start: Cut<'_>, end: Option<Cut<'_>>) -> bool
    ensures { result ≡ true → StartsBetween cut.entry start.entry end.entry }
{
    !is_at_most(start, cut) && is_within(start, end)
}

// Whether the cut doesn't stand behind the end, where there is one.
fn is_within(cut: Cut<'_>, end: Option<Cut<'_>>) -> bool
    ensures { result ≡ true → (x : Reference) → stands_before cut.entry x ≡ true → stands_within end.entry x ≡ true }
{
    match end {
        Some(end) => is_at_most(cut, end),
        None => true,
    }
}

// Whether the second cut stands before the first, and not before the floor.
pub(crate) fn ends_between(cut: Cut<'_>, end: Cut<'_>, floor: Option<Cut<'_>>) -> bool
    ensures { result ≡ true → EndsBetween cut.entry end.entry floor.entry }
{
    !is_at_most(cut, end) && is_over(end, floor)
}

// Whether the cut doesn't stand before the floor, where there is one.
fn is_over(cut: Cut<'_>, floor: Option<Cut<'_>>) -> bool
    ensures { result ≡ true → (x : Reference) → stands_under floor.entry x ≡ true → stands_before cut.entry x ≡ true }
{
    match floor {
        Some(floor) => is_at_most(floor, cut),
        None => true,
    }
}

// Whether the cut lies in the stretch, or at one of its ends.
pub(crate) fn has_cut(stretch: &ReadRange, cut: Cut<'_>) -> bool
    ensures { result ≡ true → LiesIn cut.entry stretch.now }
{
    is_at_most(stretch.low(), cut) && is_at_most(cut, stretch.high())
}

// Whether the stretch begins behind a reference and ends before one, as between two that were set. Advice.
pub(crate) fn is_parted(stretch: &ReadRange) -> bool {
    match (stretch.low(), stretch.high()) {
        (Cut::After(_), Cut::Before(_)) => true,
        _ => false,
    }
}

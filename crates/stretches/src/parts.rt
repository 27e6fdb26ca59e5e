//! Parts of stretches, stretches that become one, and lists of them.
ghost use Rattle.std.specs.Prelude.{◌≡◌, ◌&&◌, ◌||◌, ◌≤◌, ◌<◌, ◌++◌, ◌∷◌, true, not, length, take, drop, IfSome};
ghost use Rattle.collation.specs.Reference.{Reference};
ghost use Rattle.globals.specs.Cuts.{stands_before};
ghost use Rattle.read_ranges.specs.Ranges.{between, is_in};

use crate::cuts::{earlier, later};
use globals::Cut;
use read_ranges::{ReadRange, is_at_most};
use std::alloc::AllocError;
use std::mem::replace;

// Takes out the elements of a list between two places.
pub(crate) fn cut_out(list: &mut Vec<ReadRange>, first: usize, last: usize)
    requires order { first ≤ last }
    requires within { last ≤ length list.old.items }
    ensures { list.new.items ≡ take first list.old.items ++ drop last list.old.items }
{
    if first < last {
        drop(list.drain(first..last));
    }
}

// Puts an element in place of those of a list between two places.
pub(crate) fn put_in_place(list: &mut Vec<ReadRange>, first: usize, last: usize, stretch: ReadRange)
    requires order { first < last }
    requires within { last ≤ length list.old.items }
    ensures { list.new.items ≡ take first list.old.items ++ stretch ∷ drop last list.old.items }
{
    cut_out(list, first + 1, last);
    drop(replace(&mut list[first], stretch));
}

// The part of a stretch before a cut; none where that is nothing, or memory is refused.
pub(crate) fn part_before(stretch: &ReadRange, cut: Cut<'_>) -> Option<ReadRange>
    ensures { IfSome result (λ part. (x : Reference) → is_in part x ≡ true → (is_in stretch.now x && stands_before cut.entry x) ≡ true) }
{
    part_between(stretch.low(), earlier(stretch.high(), cut))
}

// The part of a stretch behind a cut; none where that is nothing, or memory is refused.
pub(crate) fn part_behind(stretch: &ReadRange, cut: Cut<'_>) -> Option<ReadRange>
    ensures { IfSome result (λ part. (x : Reference) → is_in part x ≡ true → (is_in stretch.now x && not (stands_before cut.entry x)) ≡ true) }
{
    part_between(later(stretch.low(), cut), stretch.high())
}

// What lies between two cuts; none where that is nothing, or memory is refused.
fn part_between(low: Cut<'_>, high: Cut<'_>) -> Option<ReadRange>
    ensures { IfSome result (λ part. (x : Reference) → is_in part x ≡ between low.entry high.entry x) }
{
    if is_at_most(high, low) {
        return None;
    }
    match ReadRange::new(low, high) {
        Ok(part) => Some(part),
        Err(AllocError) => None,
    }
}

// A stretch with the two at its ends, which it touches; none where it doesn't, or memory is refused.
pub(crate) fn joined(first: &ReadRange, last: &ReadRange, stretch: &ReadRange) -> Option<ReadRange>
    ensures { IfSome result (λ joined. (x : Reference) → is_in joined x ≡ true → ((is_in first.now x || is_in last.now x) || is_in stretch.now x) ≡ true) }
{
    let (low, high) = (stretch.low(), stretch.high());
    let (begin, end) = (first.low(), last.high());
    let (first_end, last_begin) = (first.high(), last.low());
    if !is_at_most(low, first_end) || !is_at_most(last_begin, high) {
        return None;
    }
    match ReadRange::new(earlier(begin, low), later(end, high)) {
        Ok(joined) => Some(joined),
        Err(AllocError) => None,
    }
}

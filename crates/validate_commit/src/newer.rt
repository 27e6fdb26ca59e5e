//! Whether a version after a stamp stands in one of many ranges.
//!
//! Ranges that were read overlap where a transaction reads the same nodes again and again: m MERGEs of n nodes note m
//! ranges of them all. Walked one by one these would take m times n steps, while each other job waits. So where there
//! are more than a few, those that have to be walked are put in the order of their beginnings, and each is looked
//! through only from where those before it end: no node is passed twice. A range of one reference is looked up, without
//! a walk, and mostly not even that: the store tells of most references that they weren't written since (`is_recent`).
//!
//! The answer doesn't rest on that order, nor on memory: what is passed over is seen to lie in a range that has no
//! newer version, and where the list of ranges is refused memory each is looked through by itself.
ghost use Rattle.std.specs.Prelude.{◌≡◌, ◌&&◌, true, false, IfOk};
ghost use Rattle.std.specs.List.{list_any};
ghost use Rattle.collation.specs.Reference.{Reference};
ghost use Rattle.globals.specs.Cuts.{stands_before};
ghost use Rattle.version_chain.specs.Versions.{newest_of};
ghost use Rattle.version_store.specs.Versions.{versions_of};
ghost use Rattle.read_ranges.specs.Ranges.{begins_after, between, is_in, is_in_one};
ghost use Rattle.validate_commit.specs.Newer.{is_later, is_single, is_in_single, is_in_wide, HasNewerIn, NoneNewerIn, HasNewerRead, NoneNewerRead};

use globals::Cut;
use key_codec::Key;
use read_ranges::{ReadRange, is_at_most};
use std::alloc::{AllocError, Global};
use std::cmp::Ordering;
use version_store::KeyedStore;

// So many ranges are looked through one by one.
const FEW: usize = 8;

// Whether a newest stamp, if there is one, is after another.
fn is_after(newest: Option<u64>, stamp: u64) -> bool
    ensures { result ≡ is_later newest stamp }
{
    match newest {
        Some(newest) => newest > stamp,
        None => false,
    }
}

// Whether a version after the stamp stands at a reference. It is looked up only where it may have been written since.
fn is_newer_at(store: &KeyedStore, key: &Key, stamp: u64) -> bool
    ensures { result ≡ is_later (newest_of (versions_of store.now.versions key.now)) stamp }
{
    store.is_recent(key, stamp) && is_after(store.newest_of(key), stamp)
}

// Whether a version after the stamp stands at a reference of the range.
fn is_newer(store: &KeyedStore, range: &ReadRange, stamp: u64) -> bool
    ensures found { result ≡ true → HasNewerIn store.now.versions stamp (is_in range.now) }
    ensures none { result ≡ false → NoneNewerIn store.now.versions stamp (is_in range.now) }
{
    match range {
        ReadRange::One(key) => is_newer_at(store, key, stamp),
        ReadRange::Between(low, high) => is_after(store.newest_in(low.cut(), high.cut()), stamp),
    }
}

// Whether the range is one reference with a version after the stamp.
fn is_newer_alone(store: &KeyedStore, range: &ReadRange, stamp: u64) -> bool
    ensures found { result ≡ true → HasNewerIn store.now.versions stamp (λ x. is_single range.now && is_in range.now x) }
    ensures none { result ≡ false → NoneNewerIn store.now.versions stamp (λ x. is_single range.now && is_in range.now x) }
{
    match range {
        ReadRange::One(_) => is_newer(store, range, stamp),
        ReadRange::Between(_, _) => false,
    }
}

// Whether a version after the stamp stands between two cuts.
fn is_newer_between(store: &KeyedStore, low: Cut<'_>, high: Cut<'_>, stamp: u64) -> bool
    ensures found { result ≡ true → HasNewerIn store.now.versions stamp (between low.entry high.entry) }
    ensures none { result ≡ false → NoneNewerIn store.now.versions stamp (between low.entry high.entry) }
{
    if is_at_most(high, low) {
        return false;
    }
    is_after(store.newest_in(low, high), stamp)
}

// Where the part of a range begins that isn't seen to lie between two cuts. All behind it is of the range, if it stands
// before its end.
fn rest_from<'r>(low: Cut<'r>, high: Cut<'r>, range: &'r ReadRange) -> Cut<'r>
    ensures passed { (x : Reference) → is_in range.now x ≡ true → stands_before result x ≡ true → between low.entry high.entry x ≡ true }
    ensures inside { (x : Reference) → stands_before result x ≡ false → begins_after range.now x ≡ false }
{
    let beginning = range.low();
    if is_at_most(low, beginning) && is_at_most(beginning, high) {
        high
    } else {
        beginning
    }
}

// Whether a version after the stamp stands in the range. What lies between the two cuts has none, and is passed over.
fn is_newer_past(
    store: &KeyedStore,
    low: Cut<'_>,
    high: Cut<'_>,
    range: &ReadRange,
    stamp: u64,
) -> bool
    requires { NoneNewerIn store.now.versions stamp (between low high) }
    ensures found { result ≡ true → HasNewerIn store.now.versions stamp (is_in range.now) }
    ensures none { result ≡ false → NoneNewerIn store.now.versions stamp (is_in range.now) }
{
    let from = rest_from(low, high, range);
    is_newer_between(store, from, range.high(), stamp)
}

// Whether a version after the stamp stands in one of the ranges. Where none begins before an earlier one, no node is
// passed twice: of those that were looked through the one that ends last is kept.
fn is_newer_in_row(store: &KeyedStore, ranges: &[&ReadRange], stamp: u64) -> bool
    ensures found { result ≡ true → HasNewerIn store.now.versions stamp (λ x. list_any (λ r. is_in r.now x) ranges.now) }
    ensures none { result ≡ false → NoneNewerIn store.now.versions stamp (λ x. list_any (λ r. is_in r.now x) ranges.now) }
{
    let mut low = Cut::Start;
    let mut high = Cut::Start;
    for range in ranges {
        if is_newer_past(store, low, high, range, stamp) {
            return true;
        }
        if is_at_most(high, range.high()) {
            low = range.low();
            high = range.high();
        }
    }
    false
}

// Whether a version after the stamp stands in one of the ranges: each is looked through by itself.
fn is_newer_in_each(store: &KeyedStore, ranges: &[ReadRange], stamp: u64) -> bool
    ensures found { result ≡ true → HasNewerRead store.now.versions stamp ranges.now }
    ensures none { result ≡ false → NoneNewerRead store.now.versions stamp ranges.now }
{
    for range in ranges {
        if is_newer(store, range, stamp) {
            return true;
        }
    }
    false
}

// Whether one of the ranges is one reference with a version after the stamp.
fn is_newer_in_single(store: &KeyedStore, ranges: &[ReadRange], stamp: u64) -> bool
    ensures found { result ≡ true → HasNewerIn store.now.versions stamp (is_in_single ranges.now) }
    ensures none { result ≡ false → NoneNewerIn store.now.versions stamp (is_in_single ranges.now) }
{
    for range in ranges {
        if is_newer_alone(store, range, stamp) {
            return true;
        }
    }
    false
}

// Which of two ranges begins first. Advice, on which no contract rests.
fn by_beginning(one: &ReadRange, other: &ReadRange) -> Ordering {
    if !is_at_most(other.low(), one.low()) {
        Ordering::Less
    } else if is_at_most(one.low(), other.low()) {
        Ordering::Equal
    } else {
        Ordering::Greater
    }
}

// The ranges that aren't one reference, in the order of their beginnings.
fn wide_in_order<'r>(
    alloc: Global,
    ranges: &'r [ReadRange],
) -> Result<Vec<&'r ReadRange>, AllocError>
    ensures { IfOk result (λ wide. (x : Reference) → list_any (λ r. is_in r.now x) wide.items ≡ is_in_wide ranges.now x) }
{
    let mut wide = Vec::new(alloc);
    for range in ranges {
        match range {
            ReadRange::One(_) => {}
            ReadRange::Between(_, _) => wide.push(range)?,
        }
    }
    wide.sort_unstable_by(|one, other| by_beginning(one, other));
    Ok(wide)
}

// Whether a version after the stamp stands in one of the ranges. It may take memory, and is never refused.
pub(crate) fn is_newer_in_one(
    alloc: Global,
    store: &KeyedStore,
    ranges: &[ReadRange],
    stamp: u64,
) -> bool
    ensures found { result ≡ true → HasNewerRead store.now.versions stamp ranges.now }
    ensures none { result ≡ false → NoneNewerRead store.now.versions stamp ranges.now }
{
    if ranges.len() <= FEW {
        return is_newer_in_each(store, ranges, stamp);
    }
    if is_newer_in_single(store, ranges, stamp) {
        return true;
    }
    match wide_in_order(alloc, ranges) {
        Ok(wide) => is_newer_in_row(store, &wide, stamp),
        Err(AllocError) => is_newer_in_each(store, ranges, stamp),
    }
}

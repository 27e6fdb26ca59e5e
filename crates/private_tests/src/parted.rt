//! Stretches that SETs in order part more often than parts are kept: what lies ahead of them is kept.
use crate::keys::key_of;
use globals::Cut;
use key_codec::Key;
use read_ranges::ReadRange;
use refusal::Refusal;
use std::alloc::{AllocError, Global};
use std::test::*;
use stretches::{Left, Stretches};

fn range_of(root: &Key) -> Result<ReadRange, Refusal> {
    match ReadRange::new(Cut::Before(root), Cut::Past(root)) {
        Ok(range) => Ok(range),
        Err(AllocError) => Err(Refusal::OutOfMemory),
    }
}

// Notes a stretch of all at and under ^A.
fn note_all(alloc: Global, stretches: &mut Stretches) -> Result<(), Refusal> {
    let root = key_of(alloc, b"A")?;
    let range = range_of(&root);
    drop(root);
    stretches.follow(Left::All, &Some(range?));
    Ok(())
}

// Takes a reference out of the stretches as a SET of it does, and tells whether it lay in one.
fn is_taken_out(alloc: Global, stretches: &mut Stretches, spelled: &[u8]) -> Result<bool, Refusal> {
    let key = key_of(alloc, spelled)?;
    let left = stretches.left_by_set(&key);
    drop(key);
    let lay = match &left {
        Left::All => false,
        _ => true,
    };
    stretches.follow(left, &None);
    Ok(lay)
}

// The digit, or counted from nine on down.
fn digit(back: bool, number: u8) -> u8 {
    if back {
        b'9' - number % 10
    } else {
        b'0' + number % 10
    }
}

// The same of ^A(first,0,0,0) to ^A(first,9,9,9), by number.
fn is_taken_at(
    alloc: Global,
    stretches: &mut Stretches,
    first: u8,
    back: bool,
    number: u16,
) -> Result<bool, Refusal> {
    let second = digit(back, (number / 100 % 10) as u8);
    let third = digit(back, (number / 10 % 10) as u8);
    let last = digit(back, (number % 10) as u8);
    is_taken_out(alloc, stretches, &[b'A', first, second, third, last])
}

// How many of them lay in a stretch when they were taken out, one after the other.
fn count_taken_out(
    alloc: Global,
    stretches: &mut Stretches,
    first: u8,
    back: bool,
) -> Result<u64, Refusal> {
    let mut count: u64 = 0;
    for number in 0..1000u16 {
        if is_taken_at(alloc, stretches, first, back, number)? {
            count = count.wrapping_add(1);
        }
    }
    Ok(count)
}

// How many of ^A(3,..) and, in turns with these and back, of ^A(4,..).
fn count_from_both_ends(alloc: Global, stretches: &mut Stretches) -> Result<u64, Refusal> {
    let mut count: u64 = 0;
    for number in 0..1000u16 {
        let first = is_taken_at(alloc, stretches, b'3', false, number)?;
        let last = is_taken_at(alloc, stretches, b'4', true, number)?;
        if first && last {
            count = count.wrapping_add(1);
        }
    }
    Ok(count)
}

// The same of ^A(3,..) and ^A(4,..), or back.
fn counts_taken_out(
    alloc: Global,
    stretches: &mut Stretches,
    back: bool,
) -> Result<(u64, u64), Refusal> {
    let (first, second) = if back { (b'4', b'3') } else { (b'3', b'4') };
    Ok((
        count_taken_out(alloc, stretches, first, back)?,
        count_taken_out(alloc, stretches, second, back)?,
    ))
}

// All of them lie in a stretch: in one of all at and under ^A, or in its part between ^A(1) and ^A(7).
fn all_lie(alloc: Global, between: bool, back: bool) -> Result<bool, Refusal> {
    let mut stretches = Stretches::new(alloc);
    note_all(alloc, &mut stretches)?;
    if between {
        is_taken_out(alloc, &mut stretches, b"A1")?;
        is_taken_out(alloc, &mut stretches, b"A7")?;
    }
    let counts = counts_taken_out(alloc, &mut stretches, back)?;
    Ok(counts == (1000, 1000))
}

#[test]
fn what_lies_ahead_of_sets_in_order_is_kept(rt: HostRuntime) -> Result<(), Fail> {
    assert!(rt; all_lie(rt.alloc(), false, false)?);
    assert!(rt; all_lie(rt.alloc(), true, false)?);
    Ok(())
}

#[test]
fn what_lies_ahead_of_sets_backward_is_kept(rt: HostRuntime) -> Result<(), Fail> {
    assert!(rt; all_lie(rt.alloc(), false, true)?);
    assert!(rt; all_lie(rt.alloc(), true, true)?);
    Ok(())
}

#[test]
fn what_lies_between_sets_from_both_ends_is_kept(rt: HostRuntime) -> Result<(), Fail> {
    let mut stretches = Stretches::new(rt.alloc());
    note_all(rt.alloc(), &mut stretches)?;
    assert_eq!(rt; count_from_both_ends(rt.alloc(), &mut stretches)?, 1000);
    Ok(())
}

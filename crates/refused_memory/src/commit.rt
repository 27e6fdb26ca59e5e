//! A refused commit leaves all as it was. Two sides, each a store, a journal, a lock table and an open transaction, are
//! made with the same lines: units at many stamps whose versions are kept, locks of three jobs, and a transaction that
//! has read, has locks, and writes 40 keys, 20 of them new. The first commits.
//!
//! Where that is refused both sides are compared: now and cut, the content at each stamp between, the newest stamp of
//! each key, the journals' units and bytes, who would have which lock, the counts of the other jobs, and what the
//! transactions answer next. Then the first tries again. Its commit has to be the second's, and leave the same; so has
//! the next transaction's.
use collation::Job;
use comparing::{Tally, are_answered_alike, are_counts_alike, first_difference};
use doing::prepare;
use lines::{COUNTED, COUNTED_AT_END, NEXT};
use refusal::Refusal;
use side::Side;
use std::alloc::Global;

pub mod comparing;
mod doing;
mod lines;
mod side;

// What is compared after a refusal, and done by both transactions. What differs, if anything does.
fn difference_after_refusal(
    alloc: Global,
    first: &mut Side,
    second: &mut Side,
    tally: &mut Tally,
) -> Result<Option<&'static str>, Refusal> {
    if let Some(what) = first_difference(alloc, first, second, tally)? {
        return Ok(Some(what));
    }
    if !are_counts_alike(
        alloc,
        (&mut *first, &mut *second),
        &COUNTED,
        &mut tally.counts,
    )? {
        return Ok(Some("lock counts"));
    }
    if !are_answered_alike(alloc, first, second, &NEXT, &mut tally.answers)? {
        return Ok(Some("answers"));
    }
    Ok(None)
}

// Commits the first side, at the second try where memory was refused, and the second. What differs, if anything does.
fn difference_at_commit(
    alloc: Global,
    first: &mut Side,
    second: &mut Side,
    tally: &mut Tally,
    refused: &mut u64,
) -> Result<Option<&'static str>, Refusal> {
    let mut verdict = first.commit();
    if verdict.is_err() {
        *refused = refused.saturating_add(1);
        if let Some(what) = difference_after_refusal(alloc, first, second, tally)? {
            return Ok(Some(what));
        }
        verdict = first.commit();
    }
    if verdict? != second.commit()? {
        return Ok(Some("receipts"));
    }
    first_difference(alloc, first, second, tally)
}

// The next transaction of both.
fn difference_in_next(
    alloc: Global,
    first: &mut Side,
    second: &mut Side,
    tally: &mut Tally,
    refused: &mut u64,
) -> Result<Option<&'static str>, Refusal> {
    first.begin();
    second.begin();
    if !are_answered_alike(alloc, first, second, &NEXT, &mut tally.answers)? {
        return Ok(Some("answers"));
    }
    difference_at_commit(alloc, first, second, tally, refused)
}

fn difference_of_sides(
    alloc: Global,
    first: &mut Side,
    second: &mut Side,
    tally: &mut Tally,
    refused: &mut u64,
) -> Result<Option<&'static str>, Refusal> {
    prepare(alloc, second)?;
    prepare(alloc, first)?;
    if let Some(what) = difference_at_commit(alloc, first, second, tally, refused)? {
        return Ok(Some(what));
    }
    if let Some(what) = difference_in_next(alloc, first, second, tally, refused)? {
        return Ok(Some(what));
    }
    let (one, other) = (&mut *first, &mut *second);
    if !are_counts_alike(alloc, (one, other), &COUNTED, &mut tally.counts)? {
        return Ok(Some("lock counts"));
    }
    if !are_counts_alike(alloc, (first, second), &COUNTED_AT_END, &mut tally.counts)? {
        return Ok(Some("lock counts"));
    }
    Ok(None)
}

/// What differs of two sides, if anything does.
pub fn difference(
    alloc: Global,
    tally: &mut Tally,
    refused: &mut u64,
) -> Result<Option<&'static str>, Refusal> {
    let job = Job::new(1)?;
    let mut first = Side::new(alloc, job);
    let mut second = Side::new(alloc, job);
    difference_of_sides(alloc, &mut first, &mut second, tally, refused)
}

//! What two sides show by the public calls of store, journal and lock table.
use crate::commit::doing::{do_line, would_have};
use crate::commit::lines::{ASKED, Counted};
use crate::commit::side::Side;
use command::Reply;
use globals::{Cut, OrderedView, walk_from};
use key_codec::Key;
use refusal::Refusal;
use std::alloc::{AllocError, Global};
use version_store::KeyedStore;

/// How much was compared.
#[derive(Clone, Copy)]
pub struct Tally {
    /// Contents at a stamp.
    pub contents: u64,
    /// Their nodes.
    pub nodes: u64,
    /// Keys whose newest stamps were.
    pub keys: u64,
    /// Bytes of the journals.
    pub bytes: u64,
    /// Replies to a LOCK.
    pub locks: u64,
    /// How many times a job has a name.
    pub counts: u64,
    /// Answers of the transaction's next commands.
    pub answers: u64,
}

impl Tally {
    /// Nothing was compared.
    pub fn new() -> Tally {
        Tally {
            contents: 0,
            nodes: 0,
            keys: 0,
            bytes: 0,
            locks: 0,
            counts: 0,
            answers: 0,
        }
    }
}

fn add(tally: &mut u64, more: u64) {
    *tally = tally.saturating_add(more);
}

// Whether the other view has each member of this one, with its value.
fn is_within<V: OrderedView, W: OrderedView>(view: &V, other: &W, nodes: &mut u64) -> bool {
    for (key, value) in walk_from(view, Cut::Start) {
        match other.get(key) {
            Some(text) => {
                if text != value {
                    return false;
                }
            }
            None => return false,
        }
        add(nodes, 1);
    }
    true
}

// At each stamp from the cut to now.
fn are_contents_alike(
    first: &KeyedStore,
    second: &KeyedStore,
    tally: &mut Tally,
) -> Result<bool, Refusal> {
    for stamp in first.cut()..first.now().saturating_add(1) {
        let one = first.view_at(stamp)?;
        let other = second.view_at(stamp)?;
        if !is_within(&one, &other, &mut tally.nodes)
            || !is_within(&other, &one, &mut tally.nodes)
        {
            return Ok(false);
        }
        add(&mut tally.contents, 1);
    }
    Ok(true)
}

fn have_newest_alike(
    placed: &[Key],
    first: &KeyedStore,
    second: &KeyedStore,
    keys: &mut u64,
) -> bool {
    for key in placed {
        let (low, high) = (Cut::Before(key), Cut::After(key));
        if first.newest_in(low, high) != second.newest_in(low, high) {
            return false;
        }
        add(keys, 1);
    }
    true
}

// The newest stamp of each key that is placed in the first. A refused commit may have placed some that have none.
fn are_newest_alike(
    alloc: Global,
    first: &KeyedStore,
    second: &KeyedStore,
    keys: &mut u64,
) -> Result<bool, AllocError> {
    let placed = first.next_keys(alloc, usize::MAX)?;
    let are_alike = have_newest_alike(placed.as_slice(), first, second, keys);
    drop(placed);
    Ok(are_alike)
}

// The stamps, the contents, and the newest stamp of each key of either.
fn are_stores_alike(
    alloc: Global,
    first: &KeyedStore,
    second: &KeyedStore,
    tally: &mut Tally,
) -> Result<bool, Refusal> {
    if first.now() != second.now() || first.cut() != second.cut() {
        return Ok(false);
    }
    let of_first = are_newest_alike(alloc, first, second, &mut tally.keys)?;
    let of_second = are_newest_alike(alloc, second, first, &mut tally.keys)?;
    Ok(of_first && of_second && are_contents_alike(first, second, tally)?)
}

fn are_journals_alike(first: &Side, second: &Side, bytes: &mut u64) -> bool {
    let (one, other) = (first.journal(), second.journal());
    add(bytes, one.as_slice().len() as u64);
    one.len() == other.len() && one.as_slice() == other.as_slice()
}

fn are_locks_alike(
    alloc: Global,
    first: &Side,
    second: &Side,
    locks: &mut u64,
) -> Result<bool, Refusal> {
    for line in ASKED {
        if would_have(alloc, first, line)? != would_have(alloc, second, line)? {
            return Ok(false);
        }
        add(locks, 1);
    }
    Ok(true)
}

// How many times a job has a name: it gives it back until another job would have it, and takes it again.
fn count_of(alloc: Global, side: &mut Side, row: Counted) -> Result<u64, Refusal> {
    let (back, asks, again) = row;
    let mut count: u64 = 0;
    for _ in 0..9 {
        if would_have(alloc, side, asks)? {
            break;
        }
        drop(do_line(alloc, side, false, back)?);
        add(&mut count, 1);
    }
    for _ in 0..count {
        drop(do_line(alloc, side, false, again)?);
    }
    Ok(count)
}

/// Whether the counts of these names are the same.
pub fn are_counts_alike(
    alloc: Global,
    sides: (&mut Side, &mut Side),
    rows: &[Counted],
    counts: &mut u64,
) -> Result<bool, Refusal> {
    let (first, second) = sides;
    for row in rows {
        if count_of(alloc, first, *row)? != count_of(alloc, second, *row)? {
            return Ok(false);
        }
        add(counts, 1);
    }
    Ok(true)
}

/// What differs of stores, journals and the replies to LOCKs, if anything does.
pub fn first_difference(
    alloc: Global,
    first: &Side,
    second: &Side,
    tally: &mut Tally,
) -> Result<Option<&'static str>, Refusal> {
    if !are_stores_alike(alloc, first.store(), second.store(), tally)? {
        return Ok(Some("stores"));
    }
    if !are_journals_alike(first, second, &mut tally.bytes) {
        return Ok(Some("journals"));
    }
    if !are_locks_alike(alloc, first, second, &mut tally.locks)? {
        return Ok(Some("locks"));
    }
    Ok(None)
}

// Whether the transactions answer the line alike.
fn is_answered_alike(
    alloc: Global,
    first: &mut Side,
    second: &mut Side,
    line: &str,
) -> Result<bool, Refusal> {
    let answer = do_line(alloc, first, true, line)?;
    let is_same = is_answer(alloc, second, line, &answer);
    drop(answer);
    is_same
}

fn is_answer(alloc: Global, side: &mut Side, line: &str, answer: &Reply) -> Result<bool, Refusal> {
    let own = do_line(alloc, side, true, line)?;
    let is_same = own == *answer;
    drop(own);
    Ok(is_same)
}

/// Whether the transactions answer the lines alike.
pub fn are_answered_alike(
    alloc: Global,
    first: &mut Side,
    second: &mut Side,
    lines: &[&str],
    answers: &mut u64,
) -> Result<bool, Refusal> {
    for line in lines {
        if !is_answered_alike(alloc, first, second, line)? {
            return Ok(false);
        }
        add(answers, 1);
    }
    Ok(true)
}

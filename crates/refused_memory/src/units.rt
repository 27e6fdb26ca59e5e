//! Units of all five kinds, pushed to a journal and had back from its bytes: each is the one that was pushed. Their keys
//! have from 2 to 64 bytes, and the longest there is. After a refusal the journal is as it was, and the unit is pushed
//! when it is tried again. So are $GETs that were gathered before.
use journal::Journal;
use made::push_unit_to;
use read_back::is_made;
use refusal::Refusal;
use std::alloc::Global;

mod gathered;
mod lines;
mod made;
mod read_back;

// Pushes the nth unit, at once or, where memory is refused, at the second try. Whether a refusal left all as it was.
fn is_pushed(
    alloc: Global,
    journal: &mut Journal,
    n: u64,
    refused: &mut u64,
) -> Result<bool, Refusal> {
    let before = (journal.len(), journal.size());
    if push_unit_to(alloc, journal, n).is_ok() {
        return Ok(true);
    }
    *refused = refused.saturating_add(1);
    let is_same = before == (journal.len(), journal.size());
    push_unit_to(alloc, journal, n)?;
    Ok(is_same)
}

fn all_are_pushed(
    alloc: Global,
    journal: &mut Journal,
    count: u64,
    refused: &mut u64,
) -> Result<bool, Refusal> {
    for n in 0..count {
        if !is_pushed(alloc, journal, n, refused)? {
            return Ok(false);
        }
    }
    Ok(journal.len() == count)
}

fn all_are_had_back(alloc: Global, journal: &Journal) -> Result<bool, Refusal> {
    let mut n: u64 = 0;
    for unit in journal.units() {
        if !is_made(alloc, unit, n)? {
            return Ok(false);
        }
        n = n.wrapping_add(1);
    }
    Ok(n == journal.len())
}

fn run(alloc: Global, count: u64, refused: &mut u64) -> Result<bool, Refusal> {
    let mut journal = Journal::new(alloc);
    let pushed = all_are_pushed(alloc, &mut journal, count, refused);
    let had_back = all_are_had_back(alloc, &journal);
    drop(journal);
    Ok(pushed? && had_back?)
}

/// What differs where so many units are pushed, if anything does.
pub fn difference(
    alloc: Global,
    count: u64,
    refused: &mut u64,
) -> Result<Option<&'static str>, Refusal> {
    if !run(alloc, count, refused)? {
        return Ok(Some("the units"));
    }
    if !gathered::is_right(alloc, refused)? {
        return Ok(Some("the gathered units"));
    }
    Ok(None)
}

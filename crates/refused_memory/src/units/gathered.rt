//! $GETs that are gathered, and pushed in one go: each has a receipt with its number, and is had back. After a refusal
//! what is gathered and the journal are as they were, and it is done when it is tried again.
use crate::units::made::found_of;
use collation::Job;
use command::{Answer, DataCommand, Look};
use journal::{Gets, Journal, Receipts, Unit};
use key_codec::Key;
use refusal::Refusal;
use std::alloc::Global;

const MANY: u64 = 40;

const VALUE: &[u8] = b"what it has";

fn is_gathered(gets: &mut Gets, key: &Key, refused: &mut u64) -> Result<bool, Refusal> {
    let before = gets.len();
    if gets.push(key, VALUE).is_ok() {
        return Ok(true);
    }
    *refused = refused.saturating_add(1);
    let is_same = gets.len() == before;
    gets.push(key, VALUE)?;
    Ok(is_same)
}

fn all_are_gathered(alloc: Global, gets: &mut Gets, refused: &mut u64) -> Result<bool, Refusal> {
    for n in 0..MANY {
        let key = found_of(alloc, n)?;
        let gathered = is_gathered(gets, &key, refused);
        drop(key);
        if !gathered? {
            return Ok(false);
        }
    }
    Ok(gets.len() == MANY)
}

// Whether they are as many as were gathered, with the numbers from this one on.
fn have_numbers(receipts: &mut Receipts, job: Job, first: u64) -> bool {
    for n in 0..MANY {
        let Some(receipt) = receipts.next() else {
            return false;
        };
        if receipt.number() != first.wrapping_add(n) || receipt.job() != job {
            return false;
        }
    }
    receipts.next().is_none()
}

fn are_pushed(journal: &mut Journal, gets: &Gets, refused: &mut u64) -> Result<bool, Refusal> {
    let before = (journal.len(), journal.size());
    let first = before.0.wrapping_add(1);
    match journal.push_gets(gets) {
        Ok(mut receipts) => return Ok(have_numbers(&mut receipts, gets.job(), first)),
        Err(_) => *refused = refused.saturating_add(1),
    }
    let is_same = before == (journal.len(), journal.size());
    let mut receipts = journal.push_gets(gets)?;
    Ok(have_numbers(&mut receipts, gets.job(), first) && is_same)
}

fn is_made(alloc: Global, unit: &Unit, n: u64) -> Result<bool, Refusal> {
    let Unit::Lone(_, DataCommand::Look(Look::Get(key, None)), Answer::Value(value)) = unit else {
        return Ok(false);
    };
    let made = found_of(alloc, n)?;
    let is_same = made == *key && value.as_slice() == VALUE;
    drop(made);
    Ok(is_same)
}

fn all_are_had_back(alloc: Global, journal: &Journal) -> Result<bool, Refusal> {
    let mut n: u64 = 0;
    for unit in journal.units() {
        let unit = unit?;
        let made = is_made(alloc, &unit, n % MANY);
        drop(unit);
        if !made? {
            return Ok(false);
        }
        n = n.wrapping_add(1);
    }
    Ok(n == journal.len() && n == 2 * MANY)
}

/// Whether it is so of a journal to which they are pushed twice.
pub fn is_right(alloc: Global, refused: &mut u64) -> Result<bool, Refusal> {
    let mut journal = Journal::new(alloc);
    let mut gets = Gets::new(alloc, Job::new(300)?);
    let is_done = all_are_gathered(alloc, &mut gets, refused)?
        && are_pushed(&mut journal, &gets, refused)?
        && are_pushed(&mut journal, &gets, refused)?;
    Ok(is_done && all_are_had_back(alloc, &journal)?)
}

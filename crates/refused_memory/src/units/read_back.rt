//! The units that are had back, beside those that were made.
use crate::units::made::{access_of, answer_of, job_of, lock_of};
use command::{Answer, DataCommand};
use journal::{Exchange, Unit};
use lock_name::LockCommand;
use refusal::Refusal;
use std::alloc::{AllocError, Global};

fn is_access(alloc: Global, command: &DataCommand, n: u64) -> Result<bool, Refusal> {
    let made = access_of(alloc, n)?;
    let is_same = made == *command;
    drop(made);
    Ok(is_same)
}

fn is_answer(alloc: Global, answer: &Answer, n: u64) -> Result<bool, Refusal> {
    let made = answer_of(alloc, n)?;
    let is_same = made == *answer;
    drop(made);
    Ok(is_same)
}

fn is_lock(alloc: Global, command: &LockCommand, n: u64) -> Result<bool, Refusal> {
    let made = lock_of(alloc, n)?;
    let is_same = made == *command;
    drop(made);
    Ok(is_same)
}

fn is_exchange(
    alloc: Global,
    command: &DataCommand,
    answer: &Answer,
    n: u64,
) -> Result<bool, Refusal> {
    let is_same = is_access(alloc, command, n)?;
    Ok(is_same && is_answer(alloc, answer, n)?)
}

fn are_exchanges(alloc: Global, exchanges: &[Exchange], n: u64) -> Result<bool, Refusal> {
    let mut number = n;
    for exchange in exchanges {
        if !is_exchange(alloc, &exchange.command, &exchange.answer, number)? {
            return Ok(false);
        }
        number = number.wrapping_add(1);
    }
    Ok(exchanges.len() as u64 == n / 5 % 5)
}

fn is_body(alloc: Global, unit: &Unit, n: u64) -> Result<bool, Refusal> {
    match unit {
        Unit::Lone(_, command, answer) => Ok(n % 5 == 0 && is_exchange(alloc, command, answer, n)?),
        Unit::Whole(_, exchanges) => Ok(
            n % 5 == 1 && are_exchanges(alloc, exchanges.as_slice(), n)?,
        ),
        Unit::Lock(_, inside, command, had) => Ok(
            n % 5 == 2
                && *inside == (n % 2 == 0)
                && *had == (n % 3 == 0)
                && is_lock(alloc, command, n)?,
        ),
        Unit::Back(_) => Ok(n % 5 == 3),
        Unit::End(_) => Ok(n % 5 == 4),
    }
}

fn is_unit(alloc: Global, unit: &Unit, n: u64) -> Result<bool, Refusal> {
    let job = job_of(n)?;
    Ok(unit.job() == job && is_body(alloc, unit, n)?)
}

/// Whether what was read back is the nth unit that was made.
pub fn is_made(alloc: Global, read: Result<Unit, AllocError>, n: u64) -> Result<bool, Refusal> {
    match read {
        Ok(unit) => {
            let is_same = is_unit(alloc, &unit, n);
            drop(unit);
            is_same
        }
        Err(_) => Err(Refusal::OutOfMemory),
    }
}

//! Lines that are done on a side.
use crate::commit::lines::{BESIDE, HISTORY, INSIDE, LOCKS};
use crate::commit::side::Side;
use collation::Job;
use command::{Command, Reply};
use refusal::Refusal;
use script::{Drafts, read_line};
use std::alloc::Global;

/// What a line asks; each is of the grammar.
pub fn read(alloc: Global, line: &str) -> Result<(Job, Command), Refusal> {
    let mut drafts = Drafts::new(alloc);
    match read_line(alloc, line.as_bytes(), &mut drafts) {
        Ok(asked) => Ok(asked),
        Err(fault) => Err(fault.refusal),
    }
}

/// The reply to a line, in the transaction or outside.
pub fn do_line(alloc: Global, side: &mut Side, inside: bool, line: &str) -> Result<Reply, Refusal> {
    match read(alloc, line) {
        Ok((job, command)) => side.step(job, inside, command),
        Err(refusal) => Err(refusal),
    }
}

/// Lines whose replies nobody asks for.
pub fn do_lines(
    alloc: Global,
    side: &mut Side,
    inside: bool,
    lines: &[&str],
) -> Result<(), Refusal> {
    for line in lines {
        drop(do_line(alloc, side, inside, line)?);
    }
    Ok(())
}

/// Does all up to the commit.
pub fn prepare(alloc: Global, side: &mut Side) -> Result<(), Refusal> {
    do_lines(alloc, side, false, &HISTORY)?;
    do_lines(alloc, side, false, &LOCKS)?;
    side.begin();
    do_lines(alloc, side, true, &INSIDE)?;
    do_lines(alloc, side, false, &BESIDE)
}

/// Whether a LOCK would be had.
pub fn would_have(alloc: Global, side: &Side, line: &str) -> Result<bool, Refusal> {
    match read(alloc, line) {
        Ok((job, command)) => {
            let had = side.would_have(job, &command);
            drop(command);
            Ok(had)
        }
        Err(refusal) => Err(refusal),
    }
}

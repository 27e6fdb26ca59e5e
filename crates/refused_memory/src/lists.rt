//! What a core does where memory is refused: the lines that were not answered `OutOfMemory`, given to a second core,
//! get the same replies, and leave the same journal and the same listing.
//!
//! The lists are the worked rows and those of `lines.rt`. Each is run twice: the first core's collector passes after
//! each line, and in the second run it takes a checkpoint after each line too; the second core does neither. Where a
//! line, a pass or a checkpoint is refused, journals and listings are compared there and then. In the end both take a
//! checkpoint, and have the same base.
use crate::turns::Turn;
use cores::{Checkpoints, Replies, is_alike};
use refusal::Refusal;
use std::alloc::Global;
use worked_rows::Row;

mod cores;
mod lines;

fn lists_are_alike(
    alloc: Global,
    turn: &mut Turn,
    checkpoints: Checkpoints,
    replies: &mut Replies,
    refused: &mut u64,
) -> Result<bool, Refusal> {
    for script in lines::LISTS {
        if turn.is_next() && !is_alike(alloc, script, checkpoints, replies, refused)? {
            return Ok(false);
        }
    }
    Ok(true)
}

fn rows_are_alike(
    alloc: Global,
    rows: &[Row],
    turn: &mut Turn,
    checkpoints: Checkpoints,
    replies: &mut Replies,
    refused: &mut u64,
) -> Result<bool, Refusal> {
    for (script, _) in rows {
        if turn.is_next() && !is_alike(alloc, script, checkpoints, replies, refused)? {
            return Ok(false);
        }
    }
    Ok(true)
}

// One run of all lists.
fn run_is_alike(
    alloc: Global,
    turn: &mut Turn,
    checkpoints: Checkpoints,
    texts: &mut Replies,
    n: &mut u64,
) -> Result<bool, Refusal> {
    let lists = lists_are_alike(alloc, turn, checkpoints, texts, n)?;
    let answered = rows_are_alike(alloc, &worked_rows::ANSWERED, turn, checkpoints, texts, n)?;
    let wrong = rows_are_alike(alloc, &worked_rows::REFUSED, turn, checkpoints, texts, n)?;
    let commits = rows_are_alike(alloc, &worked_rows::COMMITS, turn, checkpoints, texts, n)?;
    let levels = rows_are_alike(alloc, &worked_rows::LEVELS, turn, checkpoints, texts, n)?;
    let outside = rows_are_alike(alloc, &worked_rows::OUTSIDE, turn, checkpoints, texts, n)?;
    let inside = rows_are_alike(alloc, &worked_rows::INSIDE, turn, checkpoints, texts, n)?;
    Ok(lists && answered && wrong && commits && levels && outside && inside)
}

/// What differs in the lists that are run, if anything does.
pub fn difference(
    alloc: Global,
    turn: &mut Turn,
    refused: &mut u64,
) -> Result<Option<&'static str>, Refusal> {
    let mut replies = Replies::new(alloc)?;
    let without = run_is_alike(alloc, turn, Checkpoints::Never, &mut replies, refused)?;
    let with = run_is_alike(
        alloc,
        turn,
        Checkpoints::AfterEachLine,
        &mut replies,
        refused,
    )?;
    if without && with {
        Ok(None)
    } else {
        Ok(Some("a list"))
    }
}

//! A block under one hold of the lock.
ghost use Rattle.std.specs.Prelude.{◌≡◌, ◌≢◌, IfSome};
ghost use Rattle.std.specs.List.{All};
ghost use Rattle.command.specs.declared.request.Command.{Command};

use command::{Command, Reply};
use pin_board::{Blank, SEATS};
use session_acts::{command_of, is_replied, is_written, opened};
use shared_engine::{BoardName, SerialRun, Session, Shared, Turn};
use std::alloc::Global;
use std::marker::Brand;
use std::sync::Wait;
use std::test::*;

// A block, behind a TRESTART. Another job has set ^X to 2 since the transaction began.
const BLOCK: [&str; 11] = [
    "1 $TRESTART",
    "1 $GET(^X)",
    "1 SET ^X=3",
    "1 LOCK +^X",
    "1 TSTART",
    "1 TCOMMIT",
    "1 TCOMMIT",
    "1 TROLLBACK",
    "1 SET ^Y=1",
    "1 TSTART",
    "1 $GET(^Y)",
];

// The replies to it, with the job 0.
const WANTED: [&str; 11] = [
    "0 1\n",
    "0 2\n",
    "0 ok\n",
    "0 1\n",
    "0 level 2\n",
    "0 level 1\n",
    "0 committed\n",
    "0 error 9 NoTransaction\n",
    "0 ok\n",
    "0 level 1\n",
    "0 1\n",
];

// The commands of lines, of which none is a HALT.
fn block_of(alloc: Global, lines: &[&str]) -> Option<Vec<Command>>
    ensures { IfSome result (λ block. All (λ (c : Command). c ≢ Command.Halt) block.items) }
{
    let mut block = Vec::new(alloc);
    'lines: for line in lines {
        match command_of(alloc, line)? {
            Command::Halt => return None,
            command => block.push(command).ok()?,
        }
    }
    Some(block)
}

fn are_wanted(alloc: Global, replies: &[Reply]) -> bool {
    let mut good = 0usize;
    for (want, reply) in WANTED.iter().zip(replies) {
        if is_written(alloc, reply, want) {
            good = good.wrapping_add(1);
        }
    }
    good == WANTED.len() && replies.len() == WANTED.len()
}

// Begins a transaction, lets another job write what it will read, begins anew, and runs the block.
fn run<B: BoardName, R: Wait>(
    rt: &R,
    alloc: Global,
    engine: &Shared<B>,
    mine: &mut Session<B>,
    other: &mut Session<B>,
) -> Option<Vec<Reply>> {
    let is_ready = is_replied(rt, alloc, engine, mine, "1 SET ^X=1", "0 ok\n")
        && is_replied(rt, alloc, engine, mine, "1 TSTART", "0 level 1\n")
        && is_replied(rt, alloc, engine, other, "2 SET ^X=2", "0 ok\n");
    if !is_ready || mine.tlevel() == 0 {
        return None;
    }
    let block = block_of(alloc, &BLOCK)?;
    match engine.trestart_serially(rt, alloc, mine, block, &[true; 4], &mut Turn::NotDue) {
        Ok(SerialRun::Done(replies)) => Some(replies),
        _ => None,
    }
}

// Whether the replies are as wanted, the transaction that the block began last is open, and there are the receipts of a
// lone SET, of a LOCK, of a commit and of another lone SET.
fn is_as_wanted<B: BoardName, R: Wait>(
    rt: &R,
    alloc: Global,
    engine: &Shared<B>,
    mine: &mut Session<B>,
    other: &mut Session<B>,
) -> bool {
    match run(rt, alloc, engine, mine, other) {
        Some(replies) => {
            are_wanted(alloc, replies.as_slice()) && mine.tlevel() == 1 && mine.numbers().len() == 4
        }
        None => false,
    }
}

// The other session, of job 2.
fn is_done_beside<B: BoardName, R: Wait>(
    rt: &R,
    alloc: Global,
    engine: &Shared<B>,
    mine: &mut Session<B>,
) -> bool {
    match opened(rt, alloc, engine, 2) {
        Some(mut other) => is_as_wanted(rt, alloc, engine, mine, &mut other),
        None => false,
    }
}

// The session of the block, of job 1.
fn is_done<B: BoardName, R: Wait>(rt: &R, alloc: Global, engine: &Shared<B>) -> bool {
    match opened(rt, alloc, engine, 1) {
        Some(mut mine) => is_done_beside(rt, alloc, engine, &mut mine),
        None => false,
    }
}

fn is_block_done<B: BoardName, R: Wait>(rt: &R, alloc: Global, blank: Blank) -> bool
    requires { (blank.seat.table_id ≡ B.table) × (blank.words.seats ≡ 4096) }
{
    let engine = Shared::<B>::new(alloc, blank);
    is_done(rt, alloc, &engine)
}

#[test]
fn a_block_commits_though_others_wrote(rt: HostRuntime) -> Result<(), Fail> {
    let blank = Blank::new(rt.alloc(), SEATS)?;
    let is_done = is_block_done::<Brand, _>(&rt, rt.alloc(), blank);
    assert!(rt; is_done);
    Ok(())
}

// The lines of a block whose LOCK is blocked, by another job that holds ^X.
const CUT: [&str; 3] = ["1 SET ^Y=1", "1 LOCK +^X", "1 SET ^Y=2"];

// What comes of that block in a transaction that begins anew, where the LOCK has to have its names or not.
fn cut<B: BoardName, R: Wait>(
    rt: &R,
    alloc: Global,
    engine: &Shared<B>,
    mine: &mut Session<B>,
    must: bool,
) -> Option<SerialRun> {
    if mine.tlevel() == 0 {
        return None;
    }
    let block = block_of(alloc, &CUT)?;
    engine
        .trestart_serially(rt, alloc, mine, block, &[false, must], &mut Turn::NotDue)
        .ok()
}

// Whether the block ends at the LOCK where that has to have its names.
fn ends_at_lock<B: BoardName, R: Wait>(
    rt: &R,
    alloc: Global,
    engine: &Shared<B>,
    mine: &mut Session<B>,
) -> bool {
    match cut(rt, alloc, engine, mine, true) {
        Some(SerialRun::Blocked(place)) => place == 1,
        _ => false,
    }
}

// Whether it goes on behind the LOCK where that need not.
fn goes_on_behind<B: BoardName, R: Wait>(
    rt: &R,
    alloc: Global,
    engine: &Shared<B>,
    mine: &mut Session<B>,
) -> bool {
    match cut(rt, alloc, engine, mine, false) {
        Some(SerialRun::Done(replies)) => {
            replies.len() == 3 && is_written(alloc, &replies[1], "0 0\n")
        }
        _ => false,
    }
}

// Both, and what the transaction sees behind each.
fn is_cut_as_wanted<B: BoardName, R: Wait>(
    rt: &R,
    alloc: Global,
    engine: &Shared<B>,
    mine: &mut Session<B>,
    other: &mut Session<B>,
) -> bool {
    is_replied(rt, alloc, engine, other, "2 LOCK +^X", "0 1\n")
        && is_replied(rt, alloc, engine, mine, "1 TSTART", "0 level 1\n")
        && ends_at_lock(rt, alloc, engine, mine)
        && is_replied(rt, alloc, engine, mine, "1 $GET(^Y)", "0 1\n")
        && goes_on_behind(rt, alloc, engine, mine)
        && is_replied(rt, alloc, engine, mine, "1 $GET(^Y)", "0 2\n")
}

// The other session, of job 2.
fn is_cut_beside<B: BoardName, R: Wait>(
    rt: &R,
    alloc: Global,
    engine: &Shared<B>,
    mine: &mut Session<B>,
) -> bool {
    match opened(rt, alloc, engine, 2) {
        Some(mut other) => is_cut_as_wanted(rt, alloc, engine, mine, &mut other),
        None => false,
    }
}

// The session of the block, of job 1.
fn is_cut<B: BoardName, R: Wait>(rt: &R, alloc: Global, engine: &Shared<B>) -> bool {
    match opened(rt, alloc, engine, 1) {
        Some(mut mine) => is_cut_beside(rt, alloc, engine, &mut mine),
        None => false,
    }
}

fn is_block_cut<B: BoardName, R: Wait>(rt: &R, alloc: Global, blank: Blank) -> bool
    requires { (blank.seat.table_id ≡ B.table) × (blank.words.seats ≡ 4096) }
{
    let engine = Shared::<B>::new(alloc, blank);
    is_cut(rt, alloc, &engine)
}

#[test]
fn a_block_ends_at_a_blocked_lock_that_has_to_have_its_names(rt: HostRuntime) -> Result<(), Fail> {
    let blank = Blank::new(rt.alloc(), SEATS)?;
    let is_cut = is_block_cut::<Brand, _>(&rt, rt.alloc(), blank);
    assert!(rt; is_cut);
    Ok(())
}

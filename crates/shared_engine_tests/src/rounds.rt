//! Turns of a collector that has gone round, and checkpoints.
ghost use Rattle.std.specs.Prelude.{◌≡◌};

use pin_board::{Blank, SEATS};
use session_acts::{is_replied, opened};
use shared_engine::{BoardName, Session, Shared};
use std::alloc::Global;
use std::marker::Brand;
use std::sync::Wait;
use std::test::*;

// How many keys a turn of two visits. No turn is refused here.
fn visited<B: BoardName, R: Wait>(rt: &R, engine: &Shared<B>) -> usize {
    match engine.collect(rt, 2) {
        Ok(turn) => turn.visited,
        Err(_) => 9,
    }
}

fn is_set<B: BoardName, R: Wait>(
    rt: &R,
    alloc: Global,
    engine: &Shared<B>,
    session: &mut Session<B>,
    line: &str,
) -> bool {
    is_replied(rt, alloc, engine, session, line, "0 ok\n")
}

// Four turns over three keys.
fn four_turns<B: BoardName, R: Wait>(rt: &R, engine: &Shared<B>) -> [usize; 4] {
    let first = visited(rt, engine);
    let second = visited(rt, engine);
    let third = visited(rt, engine);
    let fourth = visited(rt, engine);
    [first, second, third, fourth]
}

// The turns after three SETs.
fn after_three_sets<B: BoardName, R: Wait>(
    rt: &R,
    alloc: Global,
    engine: &Shared<B>,
    session: &mut Session<B>,
) -> [usize; 4] {
    let one = is_set(rt, alloc, engine, session, "1 SET ^A(1)=1");
    let two = is_set(rt, alloc, engine, session, "1 SET ^A(2)=2");
    let three = is_set(rt, alloc, engine, session, "1 SET ^A(3)=3");
    if one && two && three {
        four_turns(rt, engine)
    } else {
        [9; 4]
    }
}

// Those after one more, beside a transaction that began before it.
fn beside_a_transaction<B: BoardName, R: Wait>(
    rt: &R,
    alloc: Global,
    engine: &Shared<B>,
    session: &mut Session<B>,
    other: &mut Session<B>,
) -> [usize; 4] {
    let is_begun = is_replied(rt, alloc, engine, other, "2 TSTART", "0 level 1\n");
    let is_written = is_set(rt, alloc, engine, session, "1 SET ^A(1)=4");
    if is_begun && is_written {
        four_turns(rt, engine)
    } else {
        [9; 4]
    }
}

// The turns after the SETs, beside the transaction, and after its end.
fn both<B: BoardName, R: Wait>(
    rt: &R,
    alloc: Global,
    engine: &Shared<B>,
    session: &mut Session<B>,
    other: &mut Session<B>,
) -> Option<([usize; 4], [usize; 4], [usize; 4])> {
    let alone = after_three_sets(rt, alloc, engine, session);
    let beside = beside_a_transaction(rt, alloc, engine, session, other);
    let is_over = is_replied(rt, alloc, engine, other, "2 TROLLBACK", "0 ok\n");
    let over = if is_over {
        four_turns(rt, engine)
    } else {
        [9; 4]
    };
    let is_read = is_replied(rt, alloc, engine, session, "1 $GET(^A(1))", "0 4\n");
    if is_read && visited(rt, engine) == 0 {
        Some((alone, beside, over))
    } else {
        None
    }
}

// The other session, of job 2.
fn turns_beside<B: BoardName, R: Wait>(
    rt: &R,
    alloc: Global,
    engine: &Shared<B>,
    session: &mut Session<B>,
) -> Option<([usize; 4], [usize; 4], [usize; 4])> {
    match opened(rt, alloc, engine, 2) {
        Some(mut other) => both(rt, alloc, engine, session, &mut other),
        None => None,
    }
}

// The session that writes, of job 1.
fn turns_here<B: BoardName, R: Wait>(
    rt: &R,
    alloc: Global,
    engine: &Shared<B>,
) -> Option<([usize; 4], [usize; 4], [usize; 4])> {
    match opened(rt, alloc, engine, 1) {
        Some(mut session) => turns_beside(rt, alloc, engine, &mut session),
        None => None,
    }
}

fn turns<B: BoardName, R: Wait>(
    rt: &R,
    alloc: Global,
    blank: Blank,
) -> Option<([usize; 4], [usize; 4], [usize; 4])>
    requires { (blank.seat.table_id ≡ B.table) × (blank.words.seats ≡ 4096) }
{
    let engine = Shared::<B>::new(alloc, blank);
    turns_here(rt, alloc, &engine)
}

// Three keys are visited by two turns, and then none until something is written; beside a transaction that began before
// that they are visited again and again, and once more after its end.
#[test]
fn a_collector_that_has_gone_round_waits_for_a_write(rt: HostRuntime) -> Result<(), Fail> {
    let blank = Blank::new(rt.alloc(), SEATS)?;
    let found = turns::<Brand, _>(&rt, rt.alloc(), blank);
    assert_eq!(rt; found, Some(([2, 2, 0, 0], [2, 2, 2, 2], [2, 2, 0, 0])));
    Ok(())
}

// The number of the session's newest unit, 0 where it has none.
fn newest_of<B: BoardName>(session: &Session<B>) -> u64 {
    match session.numbers().last() {
        Some(number) => *number,
        None => 0,
    }
}

// Where the base stands while a transaction is open that began after the first of two SETs, and after its end; then the
// number of one SET more.
fn bases<B: BoardName, R: Wait>(
    rt: &R,
    alloc: Global,
    engine: &Shared<B>,
    session: &mut Session<B>,
    other: &mut Session<B>,
) -> Option<(u64, u64, u64)> {
    let one = is_set(rt, alloc, engine, session, "1 SET ^A=1");
    let is_begun = is_replied(rt, alloc, engine, other, "2 TSTART", "0 level 1\n");
    let two = is_set(rt, alloc, engine, session, "1 SET ^A=2");
    let first = engine.checkpoint(rt).ok()?;
    let is_over = is_replied(rt, alloc, engine, other, "2 TROLLBACK", "0 ok\n");
    let second = engine.checkpoint(rt).ok()?;
    let three = is_set(rt, alloc, engine, session, "1 SET ^A=3");
    if one && is_begun && two && is_over && three {
        Some((first, second, newest_of(session)))
    } else {
        None
    }
}

// The other session, of job 2.
fn bases_beside<B: BoardName, R: Wait>(
    rt: &R,
    alloc: Global,
    engine: &Shared<B>,
    session: &mut Session<B>,
) -> Option<(u64, u64, u64)> {
    match opened(rt, alloc, engine, 2) {
        Some(mut other) => bases(rt, alloc, engine, session, &mut other),
        None => None,
    }
}

// The session that writes, of job 1.
fn bases_here<B: BoardName, R: Wait>(
    rt: &R,
    alloc: Global,
    engine: &Shared<B>,
) -> Option<(u64, u64, u64)> {
    match opened(rt, alloc, engine, 1) {
        Some(mut session) => bases_beside(rt, alloc, engine, &mut session),
        None => None,
    }
}

fn bases_of<B: BoardName, R: Wait>(rt: &R, alloc: Global, blank: Blank) -> Option<(u64, u64, u64)>
    requires { (blank.seat.table_id ≡ B.table) × (blank.words.seats ≡ 4096) }
{
    let engine = Shared::<B>::new(alloc, blank);
    bases_here(rt, alloc, &engine)
}

// A unit after the base goes on with its number.
#[test]
fn a_checkpoint_stops_at_an_open_start(rt: HostRuntime) -> Result<(), Fail> {
    let blank = Blank::new(rt.alloc(), SEATS)?;
    let found = bases_of::<Brand, _>(&rt, rt.alloc(), blank);
    assert_eq!(rt; found, Some((1, 2, 3)));
    Ok(())
}

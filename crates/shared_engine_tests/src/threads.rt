//! Sessions in threads.
ghost use Rattle.std.specs.Prelude.{◌≡◌};

use crate::kinds::kinds_of;
use command::Reply;
use pin_board::{Blank, SEATS};
use session_acts::{data_of, is_replied, opened, reply_to_line};
use shared_engine::{BoardName, Pass, Session, Shared};
use std::alloc::{AllocError, Global};
use std::marker::Brand;
use std::sync::Wait;
use std::test::*;
use std::thread;
use std::thread::Threads;

// A command outside a transaction, made of a line.
fn lone<B: BoardName, R: Wait>(
    rt: &R,
    alloc: Global,
    engine: &Shared<B>,
    session: &mut Session<B>,
    line: &str,
) -> bool {
    if session.tlevel() != 0 {
        return false;
    }
    match data_of(alloc, line) {
        Some(command) => engine.lone(rt, session, command).is_ok(),
        None => false,
    }
}

// A hundred SETs. Whether each was done.
fn writes_often<B: BoardName, R: Wait>(
    rt: &R,
    alloc: Global,
    engine: &Shared<B>,
    session: &mut Session<B>,
) -> bool {
    let mut done = 0u64;
    for _ in 0..100 {
        if lone(rt, alloc, engine, session, "1 SET ^A(7)=\"x\"") {
            done = done.wrapping_add(1);
        }
    }
    done == 100
}

// A session of the job writes and ends. Its pass, where each SET was done.
fn hundred<B: BoardName, R: Wait>(
    rt: &R,
    alloc: Global,
    engine: &Shared<B>,
    number: u64,
) -> Option<Pass<B>> {
    let mut session = opened(rt, alloc, engine, number)?;
    if writes_often(rt, alloc, engine, &mut session) {
        engine.halt(rt, session).ok()
    } else {
        None
    }
}

// Puts the passes together. How many of them have a hundred receipts.
fn gather<B: BoardName>(made: Vec<Option<Pass<B>>>, passes: &mut Vec<Pass<B>>) -> usize {
    let mut whole = 0usize;
    for pass in made {
        if let Some(pass) = pass {
            whole = whole.wrapping_add((pass.numbers().len() == 100) as usize);
            let _ = passes.push(pass);
        }
    }
    whole
}

// Four threads write. How many of their passes have a hundred receipts.
fn four_write<B: BoardName + Send + Sync, R: Threads + Wait + Sync>(
    rt: &R,
    alloc: Global,
    engine: &Shared<B>,
    passes: &mut Vec<Pass<B>>,
) -> usize {
    match thread::map_indices(rt, alloc, 4, &|i| hundred(rt, alloc, engine, i as u64 + 1)) {
        Ok(made) => gather(made, passes),
        Err(_) => 0,
    }
}

// How many sessions and units there were, how many passes have a hundred receipts, and how many units are lone
// commands, transactions and ends.
fn four_jobs<B: BoardName + Send + Sync, R: Threads + Wait + Sync>(
    rt: &R,
    alloc: Global,
    blank: Blank,
) -> (u64, u64, usize, Option<(u64, u64, u64)>)
    requires { (blank.seat.table_id ≡ B.table) × (blank.words.seats ≡ 4096) }
{
    let engine = Shared::<B>::new(alloc, blank);
    let mut passes = Vec::new(alloc);
    let whole = four_write(rt, alloc, &engine, &mut passes);
    let closed = engine.finish(rt, passes);
    let kinds = kinds_of(closed.core.journal()).ok();
    (closed.sessions, closed.core.now(), whole, kinds)
}

#[test]
fn four_threads_write_and_their_passes_close_the_engine(rt: HostRuntime) -> Result<(), Fail> {
    let blank = Blank::new(rt.alloc(), SEATS)?;
    let counts = four_jobs::<Brand, _>(&rt, rt.alloc(), blank);
    assert_eq!(rt; counts, (4, 404, 4, Some((400, 0, 4))));
    Ok(())
}

// How a reader's turn went.
#[derive(Clone, Copy, PartialEq, Eq)]
enum Outcome {
    Right,
    // A horizon passed the start as it was taken.
    Again,
    Wrong,
}

// Sets a reference alone.
fn sets<B: BoardName, R: Wait>(
    rt: &R,
    alloc: Global,
    engine: &Shared<B>,
    session: &mut Session<B>,
    name: &str,
    value: u64,
) -> bool {
    match format!(in alloc; "1 SET ^{name}={value}") {
        Ok(line) => lone(rt, alloc, engine, session, line.as_str()),
        Err(AllocError) => false,
    }
}

// Whether a $GET of the reference answers the value.
fn reads<B: BoardName, R: Wait>(
    rt: &R,
    alloc: Global,
    engine: &Shared<B>,
    session: &mut Session<B>,
    name: &str,
    value: u64,
) -> bool {
    match (
        format!(in alloc; "1 $GET(^{name})"),
        format!(in alloc; "0 {value}\n"),
    ) {
        (Ok(line), Ok(want)) => {
            is_replied(rt, alloc, engine, session, line.as_str(), want.as_str())
        }
        _ => false,
    }
}

// Whether the reference that all set is answered so once more.
fn is_again<B: BoardName, R: Wait>(
    rt: &R,
    alloc: Global,
    engine: &Shared<B>,
    session: &mut Session<B>,
    first: &Reply,
) -> bool {
    match reply_to_line(rt, alloc, engine, session, "1 $GET(^R)") {
        Some(second) => second == *first,
        None => false,
    }
}

// Whether the reference that all set is answered alike twice, while the others go on.
fn is_steady<B: BoardName, R: Wait>(
    rt: &R,
    alloc: Global,
    engine: &Shared<B>,
    session: &mut Session<B>,
) -> bool {
    match reply_to_line(rt, alloc, engine, session, "1 $GET(^R)") {
        Some(first) => {
            thread::yield_now();
            is_again(rt, alloc, engine, session, &first)
        }
        None => false,
    }
}

// Whether a transaction that has begun sees what its session set alone, and the same of what all set as long as it is
// open.
fn sees<B: BoardName, R: Wait>(
    rt: &R,
    alloc: Global,
    engine: &Shared<B>,
    session: &mut Session<B>,
    own: &str,
    value: u64,
) -> bool {
    let is_own = reads(rt, alloc, engine, session, own, value);
    let is_steady = is_steady(rt, alloc, engine, session);
    is_replied(rt, alloc, engine, session, "1 TROLLBACK", "0 ok\n") && is_own && is_steady
}

// One turn of a reader: it sets a reference of its own and one that all set, and looks at both in a transaction.
fn turn<B: BoardName, R: Wait>(
    rt: &R,
    alloc: Global,
    engine: &Shared<B>,
    session: &mut Session<B>,
    own: &str,
    value: u64,
) -> Outcome {
    let are_set = sets(rt, alloc, engine, session, own, value)
        && sets(rt, alloc, engine, session, "R", value);
    if !are_set || session.tlevel() != 0 {
        return Outcome::Wrong;
    }
    if engine.tstart(session).is_err() {
        return Outcome::Again;
    }
    if sees(rt, alloc, engine, session, own, value) {
        Outcome::Right
    } else {
        Outcome::Wrong
    }
}

// Many turns. How many were wrong, and one more if no transaction ever began.
fn turns<B: BoardName, R: Wait>(
    rt: &R,
    alloc: Global,
    engine: &Shared<B>,
    session: &mut Session<B>,
    own: &str,
) -> u64 {
    let mut right = 0u64;
    let mut wrong = 0u64;
    for value in 0..10_000u64 {
        match turn(rt, alloc, engine, session, own, value) {
            Outcome::Right => right = right.wrapping_add(1),
            Outcome::Again => {}
            Outcome::Wrong => wrong = wrong.wrapping_add(1),
        }
    }
    wrong.wrapping_add((right == 0) as u64)
}

fn reader<B: BoardName, R: Wait>(
    rt: &R,
    alloc: Global,
    engine: &Shared<B>,
    number: u64,
) -> Option<u64> {
    let mut session = opened(rt, alloc, engine, number)?;
    match format!(in alloc; "R({number})") {
        Ok(own) => Some(turns(rt, alloc, engine, &mut session, own.as_str())),
        Err(AllocError) => None,
    }
}

// Turns of the collector, and a checkpoint after each hundred of them. How many were refused.
fn tidier<B: BoardName, R: Wait>(rt: &R, engine: &Shared<B>) -> Option<u64> {
    let mut failed = 0u64;
    for turn in 0..10_000u64 {
        let is_collected = engine.collect(rt, 1).is_ok();
        let is_moved = turn % 100 != 99 || engine.checkpoint(rt).is_ok();
        if !(is_collected && is_moved) {
            failed = failed.wrapping_add(1);
        }
    }
    Some(failed)
}

// Four readers, and one that collects and checkpoints. How much was wrong.
fn four_and_one<B: BoardName + Send + Sync, R: Threads + Wait + Sync>(
    rt: &R,
    alloc: Global,
    engine: &Shared<B>,
) -> Option<u64> {
    let made = thread::map_indices(
        rt,
        alloc,
        5,
        &|i| {
            if i < 4 {
                reader(rt, alloc, engine, i as u64 + 2)
            } else {
                tidier(rt, engine)
            }
        },
    )
    .ok()?;
    let mut wrong = 0u64;
    for count in made {
        wrong = wrong.wrapping_add(count?);
    }
    Some(wrong)
}

// A transaction is open while others write, a collector goes round and checkpoints are made. Whether it sees its start
// before and after, and how much was wrong.
fn sees_its_start<B: BoardName + Send + Sync, R: Threads + Wait + Sync>(
    rt: &R,
    alloc: Global,
    engine: &Shared<B>,
    session: &mut Session<B>,
) -> (bool, Option<u64>) {
    let is_set = is_replied(rt, alloc, engine, session, "1 SET ^R=1", "0 ok\n");
    let is_begun = is_replied(rt, alloc, engine, session, "1 TSTART", "0 level 1\n");
    let is_first = is_replied(rt, alloc, engine, session, "1 $GET(^R)", "0 1\n");
    let wrong = four_and_one(rt, alloc, engine);
    let is_last = is_replied(rt, alloc, engine, session, "1 $GET(^R)", "0 1\n");
    (is_set && is_begun && is_first && is_last, wrong)
}

fn one_sees<B: BoardName + Send + Sync, R: Threads + Wait + Sync>(
    rt: &R,
    alloc: Global,
    engine: &Shared<B>,
) -> (bool, Option<u64>) {
    match opened(rt, alloc, engine, 1) {
        Some(mut session) => sees_its_start(rt, alloc, engine, &mut session),
        None => (false, None),
    }
}

fn open_throughout<B: BoardName + Send + Sync, R: Threads + Wait + Sync>(
    rt: &R,
    alloc: Global,
    blank: Blank,
) -> (bool, Option<u64>)
    requires { (blank.seat.table_id ≡ B.table) × (blank.words.seats ≡ 4096) }
{
    let engine = Shared::<B>::new(alloc, blank);
    one_sees(rt, alloc, &engine)
}

#[test]
fn a_start_is_kept_while_a_collector_goes_round(rt: HostRuntime) -> Result<(), Fail> {
    let blank = Blank::new(rt.alloc(), SEATS)?;
    let counts = open_throughout::<Brand, _>(&rt, rt.alloc(), blank);
    assert_eq!(rt; counts, (true, Some(0)));
    Ok(())
}

//! Eight threads of transactions, each of which lets the collector look around now and then.
ghost use Rattle.std.specs.Prelude.{◌≡◌};

use crate::kinds::kinds_of;
use pin_board::{Blank, SEATS};
use session_acts::{is_replied, opened};
use shared_engine::{BoardName, Pass, Session, Shared};
use std::alloc::{AllocError, Global};
use std::marker::Brand;
use std::sync::Wait;
use std::test::*;
use std::thread;
use std::thread::Threads;

const THREADS: usize = 8;

const BLOCKS: u64 = 100;

// Begins a transaction. Where a horizon passed its start as it was taken it is tried again.
fn begins<B: BoardName, R: Wait>(
    rt: &R,
    alloc: Global,
    engine: &Shared<B>,
    session: &mut Session<B>,
) -> bool {
    for _ in 0..1_000 {
        if is_replied(rt, alloc, engine, session, "1 TSTART", "0 level 1\n") {
            return true;
        }
        thread::yield_now();
    }
    false
}

// A transaction that counts one up in a node which no other job sets, and sets one which all do. Each fifth is rolled
// back.
fn block<B: BoardName, R: Wait>(
    rt: &R,
    alloc: Global,
    engine: &Shared<B>,
    session: &mut Session<B>,
    own: &str,
    number: u64,
) -> Result<bool, AllocError> {
    let set = format!(in alloc; "1 SET ^B({own})={number}")?;
    let get = format!(in alloc; "1 $GET(^B({own}))")?;
    let want = format!(in alloc; "0 {number}\n")?;
    let is_done = begins(rt, alloc, engine, session)
        && is_replied(rt, alloc, engine, session, set.as_str(), "0 ok\n")
        && is_replied(rt, alloc, engine, session, "1 SET ^B=1", "0 ok\n")
        && is_replied(rt, alloc, engine, session, get.as_str(), want.as_str());
    Ok(is_done && ends(rt, alloc, engine, session, number))
}

// Ends a block: each fifth is rolled back, which takes no lock.
fn ends<B: BoardName, R: Wait>(
    rt: &R,
    alloc: Global,
    engine: &Shared<B>,
    session: &mut Session<B>,
    number: u64,
) -> bool {
    if number % 5 == 0 && session.tlevel() >= 1 && !session.took_lock() {
        engine.rollback_free(session);
        return true;
    }
    is_replied(rt, alloc, engine, session, "1 TCOMMIT", "0 committed\n")
}

// The blocks of a job, with a turn of the collector after each sixteenth. How many were done.
fn blocks<B: BoardName, R: Wait>(
    rt: &R,
    alloc: Global,
    engine: &Shared<B>,
    session: &mut Session<B>,
    own: &str,
) -> u64 {
    let mut done = 0u64;
    for number in 1..=BLOCKS {
        if block(rt, alloc, engine, session, own, number) == Ok(true) {
            done = done.wrapping_add(1);
        }
        if number % 16 == 0 && engine.collect(rt, 64).is_err() {
            return 0;
        }
    }
    done
}

// A session of the job does its blocks and ends. Its pass, where each block was done.
fn job_done<B: BoardName, R: Wait>(
    rt: &R,
    alloc: Global,
    engine: &Shared<B>,
    number: u64,
) -> Option<Pass<B>> {
    let mut session = opened(rt, alloc, engine, number)?;
    let own = format!(in alloc; "{number}").ok()?;
    if blocks(rt, alloc, engine, &mut session, own.as_str()) == BLOCKS {
        engine.halt(rt, session).ok()
    } else {
        None
    }
}

// Puts the passes together. How many of them have a receipt for each block that was committed.
fn gather<B: BoardName>(made: Vec<Option<Pass<B>>>, passes: &mut Vec<Pass<B>>) -> usize {
    let mut whole = 0usize;
    for pass in made {
        if let Some(pass) = pass {
            whole = whole.wrapping_add((pass.numbers().len() == 80) as usize);
            let _ = passes.push(pass);
        }
    }
    whole
}

fn eight_work<B: BoardName + Send + Sync, R: Threads + Wait + Sync>(
    rt: &R,
    alloc: Global,
    engine: &Shared<B>,
    passes: &mut Vec<Pass<B>>,
) -> usize {
    match thread::map_indices(
        rt,
        alloc,
        THREADS,
        &|i| job_done(rt, alloc, engine, i as u64 + 1),
    ) {
        Ok(made) => gather(made, passes),
        Err(_) => 0,
    }
}

// How many sessions and units there were, how many passes have all their receipts, and how many units are lone
// commands, transactions and ends.
fn eight_jobs<B: BoardName + Send + Sync, R: Threads + Wait + Sync>(
    rt: &R,
    alloc: Global,
    blank: Blank,
) -> (u64, u64, usize, Option<(u64, u64, u64)>)
    requires { (blank.seat.table_id ≡ B.table) × (blank.words.seats ≡ 4096) }
{
    let engine = Shared::<B>::new(alloc, blank);
    let mut passes = Vec::new(alloc);
    let whole = eight_work(rt, alloc, &engine, &mut passes);
    let closed = engine.finish(rt, passes);
    let kinds = kinds_of(closed.core.journal()).ok();
    (closed.sessions, closed.core.now(), whole, kinds)
}

#[test]
fn eight_threads_commit_and_roll_back_beside_the_collector(rt: HostRuntime) -> Result<(), Fail> {
    let blank = Blank::new(rt.alloc(), SEATS)?;
    let counts = eight_jobs::<Brand, _>(&rt, rt.alloc(), blank);
    assert_eq!(rt; counts, (8, 648, 8, Some((0, 640, 8))));
    Ok(())
}

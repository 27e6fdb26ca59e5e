//! $GETs of a hold that finds the lock taken.
ghost use Rattle.std.specs.Prelude.{◌≡◌, OnSome, []};

use crate::beside::{HELD, READY, comes, meets};
use crate::holds::{is_told, push_line};
use pin_board::{Blank, SEATS};
use session_acts::{is_replied, opened};
use shared_engine::{BoardName, Hold, Session, Shared, Turn};
use std::alloc::Global;
use std::marker::Brand;
use std::rt::Clock;
use std::sync::Wait;
use std::sync::atomic::{AtomicU64, Ordering};
use std::test::*;
use std::thread;
use std::thread::Threads;
use std::time::Duration;

// Eight $GETs: with fewer the lock isn't shared first.
fn gather(alloc: Global, hold: &mut Hold) -> Option<()>
    ensures { OnSome result (hold.new.served ≡ []) }
{
    hold.begin(alloc, 8).ok()?;
    push_line(alloc, hold, "1 $GET(^X)")?;
    push_line(alloc, hold, "1 $GET(^Y)")?;
    push_line(alloc, hold, "1 $GET(^X)")?;
    push_line(alloc, hold, "1 $GET(^Y)")?;
    push_line(alloc, hold, "1 $GET(^X)")?;
    push_line(alloc, hold, "1 $GET(^Y)")?;
    push_line(alloc, hold, "1 $GET(^X)")?;
    push_line(alloc, hold, "1 $GET(^Y)")
}

// How many were told what ^X has, and what ^Y has, which is nothing.
fn count_told(hold: &Hold) -> (u64, u64) {
    let mut served = hold.served();
    let (mut some, mut none) = (0u64, 0u64);
    for _ in 0..8 {
        let told = served.next();
        some = some.wrapping_add(is_told(told, "a value of some length") as u64);
        none = none.wrapping_add(is_told(told, "") as u64);
    }
    (some, none)
}

// Holds the shared lock until the session has waited for it a while.
fn shares_a_while<B: BoardName, R: Wait + Clock>(
    rt: &R,
    engine: &Shared<B>,
    stage: &AtomicU64,
) -> (u64, u64) {
    if !comes(rt, stage, READY) {
        return (0, 0);
    }
    let share = engine.share(rt);
    stage.store(HELD, Ordering::SeqCst);
    thread::sleep(rt, Duration::from_millis(20));
    drop(share);
    (4, 4)
}

// Begins to ask once the lock is shared, and waits for it. None where something else went wrong.
fn gets<B: BoardName, R: Wait + Clock>(
    rt: &R,
    alloc: Global,
    engine: &Shared<B>,
    session: &mut Session<B>,
    stage: &AtomicU64,
) -> Option<(u64, u64)> {
    let line = "1 SET ^X=\"a value of some length\"";
    let is_set = is_replied(rt, alloc, engine, session, line, "0 ok\n");
    let mut hold = Hold::new(alloc);
    gather(alloc, &mut hold)?;
    let is_held = meets(rt, stage);
    if session.tlevel() != 0 {
        return None;
    }
    engine.hold_lone(rt, session, &mut hold, &mut Turn::NotDue);
    if is_set && is_held {
        Some(count_told(&hold))
    } else {
        None
    }
}

// What a thread does: the first asks, the other shares the lock.
fn side<B: BoardName, R: Wait + Clock>(
    rt: &R,
    alloc: Global,
    engine: &Shared<B>,
    place: usize,
    stage: &AtomicU64,
) -> (u64, u64) {
    if place > 0 {
        return shares_a_while(rt, engine, stage);
    }
    match opened(rt, alloc, engine, 1) {
        Some(mut session) => { gets(rt, alloc, engine, &mut session, stage).unwrap_or((0, 0)) }
        None => (0, 0),
    }
}

// Both in threads. Whether all were told what is there.
fn both_sides<B: BoardName + Send + Sync, R: Threads + Wait + Clock + Sync>(
    rt: &R,
    alloc: Global,
    engine: &Shared<B>,
    stage: &AtomicU64,
) -> bool {
    match thread::map_indices(rt, alloc, 2, &|i| side(rt, alloc, engine, i, stage)) {
        Ok(made) => made.as_slice() == [(4, 4), (4, 4)].as_slice(),
        Err(_) => false,
    }
}

fn both<B: BoardName + Send + Sync, R: Threads + Wait + Clock + Sync>(
    rt: &R,
    alloc: Global,
    blank: Blank,
) -> bool
    requires { (blank.seat.table_id ≡ B.table) × (blank.words.seats ≡ 4096) }
{
    let engine = Shared::<B>::new(alloc, blank);
    both_sides(rt, alloc, &engine, &AtomicU64::new(0))
}

#[test]
fn gets_that_find_the_lock_taken_are_told_what_is_there(rt: HostRuntime) -> Result<(), Fail> {
    let blank = Blank::new(rt.alloc(), SEATS)?;
    let are_told = both::<Brand, _>(&rt, rt.alloc(), blank);
    assert!(rt; are_told);
    Ok(())
}

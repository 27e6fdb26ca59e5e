//! Calls that return while another thread holds a lock.
ghost use Rattle.std.specs.Prelude.{◌≡◌};

use pin_board::{Blank, SEATS};
use session_acts::{is_replied, opened};
use shared_engine::{BoardName, Session, Shared};
use std::alloc::Global;
use std::marker::Brand;
use std::rt::Clock;
use std::sync::Wait;
use std::sync::atomic::{AtomicU64, Ordering};
use std::test::*;
use std::thread;
use std::thread::Threads;
use std::time::Duration;

// How often a wait looks again, each time after a millisecond.
const TURNS: u64 = 20_000;

// The stages of two threads that meet: the session is ready, the lock is held, and the session has done its part.
pub(crate) const READY: u64 = 1;

pub(crate) const HELD: u64 = 2;

const DONE: u64 = 3;

// Waits for a stage, in bounded turns. Whether it came.
pub(crate) fn comes<R: Clock>(rt: &R, stage: &AtomicU64, want: u64) -> bool {
    for _ in 0..TURNS {
        if stage.load(Ordering::SeqCst) >= want {
            return true;
        }
        thread::sleep(rt, Duration::from_millis(1));
    }
    false
}

// Says that the session is ready, and waits until the lock is held.
pub(crate) fn meets<R: Clock>(rt: &R, stage: &AtomicU64) -> bool {
    stage.store(READY, Ordering::SeqCst);
    comes(rt, stage, HELD)
}

// Holds the shared lock until the session has done its part. Whether it has.
fn shares<B: BoardName, R: Wait + Clock>(rt: &R, engine: &Shared<B>, stage: &AtomicU64) -> bool {
    let share = engine.share(rt);
    stage.store(HELD, Ordering::SeqCst);
    let is_done = comes(rt, stage, DONE);
    drop(share);
    is_done
}

// The same with the exclusive lock.
fn pauses<B: BoardName, R: Wait + Clock>(rt: &R, engine: &Shared<B>, stage: &AtomicU64) -> bool {
    let pause = engine.pause(rt);
    stage.store(HELD, Ordering::SeqCst);
    let is_done = comes(rt, stage, DONE);
    drop(pause);
    is_done
}

// Holds a lock once the session is ready, the exclusive one or the shared one.
fn holds<B: BoardName, R: Wait + Clock>(
    rt: &R,
    engine: &Shared<B>,
    excludes: bool,
    stage: &AtomicU64,
) -> bool {
    if !comes(rt, stage, READY) {
        return false;
    }
    if excludes {
        pauses(rt, engine, stage)
    } else {
        shares(rt, engine, stage)
    }
}

// What the session wrote before is read in its transaction, while another thread holds the shared lock.
fn reads_beside<B: BoardName, R: Wait + Clock>(
    rt: &R,
    alloc: Global,
    engine: &Shared<B>,
    session: &mut Session<B>,
    stage: &AtomicU64,
) -> bool {
    let is_set = is_replied(rt, alloc, engine, session, "1 SET ^X=5", "0 ok\n");
    let is_begun = is_replied(rt, alloc, engine, session, "1 TSTART", "0 level 1\n");
    let is_held = meets(rt, stage);
    let is_read = is_replied(rt, alloc, engine, session, "1 $GET(^X)", "0 5\n");
    stage.store(DONE, Ordering::SeqCst);
    is_set && is_begun && is_held && is_read
}

// Begins a transaction and rolls it back. Whether it began.
fn begins<B: BoardName>(engine: &Shared<B>, session: &mut Session<B>) -> bool
    requires { session.old.state.level ≡ 0 }
{
    match engine.tstart(session) {
        Ok(()) => {
            engine.rollback_free(session);
            true
        }
        Err(_) => false,
    }
}

// The same many times. Whether each began.
fn begins_often<B: BoardName>(engine: &Shared<B>, session: &mut Session<B>) -> bool {
    for _ in 0..1_000 {
        if session.tlevel() != 0 || !begins(engine, session) {
            return false;
        }
    }
    true
}

// Transactions begin and are rolled back, while another thread holds the exclusive lock.
fn begins_beside<B: BoardName, R: Clock>(
    rt: &R,
    engine: &Shared<B>,
    session: &mut Session<B>,
    stage: &AtomicU64,
) -> bool {
    let is_held = meets(rt, stage);
    let are_begun = begins_often(engine, session);
    stage.store(DONE, Ordering::SeqCst);
    is_held && are_begun
}

// What a session does beside the lock that another thread holds.
fn goes_on<B: BoardName, R: Wait + Clock>(
    rt: &R,
    alloc: Global,
    engine: &Shared<B>,
    excludes: bool,
    stage: &AtomicU64,
) -> bool {
    match opened(rt, alloc, engine, 1) {
        Some(mut session) => {
            if excludes {
                begins_beside(rt, engine, &mut session, stage)
            } else {
                reads_beside(rt, alloc, engine, &mut session, stage)
            }
        }
        None => false,
    }
}

// A session in one thread, and a lock in another. Whether the session went on while the lock was held.
fn meet<B: BoardName + Send + Sync, R: Threads + Wait + Clock + Sync>(
    rt: &R,
    alloc: Global,
    engine: &Shared<B>,
    excludes: bool,
    stage: &AtomicU64,
) -> bool {
    let made = thread::map_indices(
        rt,
        alloc,
        2,
        &|i| {
            if i == 0 {
                goes_on(rt, alloc, engine, excludes, stage)
            } else {
                holds(rt, engine, excludes, stage)
            }
        },
    );
    match made {
        Ok(made) => made.as_slice() == [true, true].as_slice(),
        Err(_) => false,
    }
}

fn goes_on_beside<B: BoardName + Send + Sync, R: Threads + Wait + Clock + Sync>(
    rt: &R,
    alloc: Global,
    blank: Blank,
    excludes: bool,
) -> bool
    requires { (blank.seat.table_id ≡ B.table) × (blank.words.seats ≡ 4096) }
{
    let engine = Shared::<B>::new(alloc, blank);
    meet(rt, alloc, &engine, excludes, &AtomicU64::new(0))
}

#[test]
fn a_read_returns_while_another_shares(rt: HostRuntime) -> Result<(), Fail> {
    let blank = Blank::new(rt.alloc(), SEATS)?;
    let is_read = goes_on_beside::<Brand, _>(&rt, rt.alloc(), blank, false);
    assert!(rt; is_read);
    Ok(())
}

#[test]
fn transactions_begin_and_end_in_a_pause(rt: HostRuntime) -> Result<(), Fail> {
    let blank = Blank::new(rt.alloc(), SEATS)?;
    let are_begun = goes_on_beside::<Brand, _>(&rt, rt.alloc(), blank, true);
    assert!(rt; are_begun);
    Ok(())
}

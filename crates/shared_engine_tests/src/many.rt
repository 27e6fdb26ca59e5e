//! Many sessions at once, and one job's many times.
ghost use Rattle.std.specs.Prelude.{◌≡◌};

use collation::Job;
use pin_board::{Blank, SEATS};
use refusal::Refusal;
use shared_engine::{BoardName, Pass, Session, Shared};
use std::alloc::Global;
use std::marker::Brand;
use std::sync::Wait;
use std::test::*;

// Whether the job can't have another session.
fn is_refused<B: BoardName, R: Wait>(rt: &R, alloc: Global, engine: &Shared<B>, job: Job) -> bool {
    match engine.open(rt, alloc, job) {
        Ok(_) => false,
        Err(refusal) => refusal == Refusal::BadJob,
    }
}

// Opens a session of the job, and puts it behind the others. Whether the job was then refused a second one.
fn open_one<B: BoardName, R: Wait>(
    rt: &R,
    alloc: Global,
    engine: &Shared<B>,
    sessions: &mut Vec<Session<B>>,
    job: Job,
) -> bool {
    match engine.open(rt, alloc, job) {
        Ok(session) => sessions.push(session).is_ok() && is_refused(rt, alloc, engine, job),
        Err(_) => false,
    }
}

// Opens a session for each job, the last first. How many were refused a second one.
fn open_all<B: BoardName, R: Wait>(
    rt: &R,
    alloc: Global,
    engine: &Shared<B>,
    sessions: &mut Vec<Session<B>>,
) -> u64 {
    let mut refused = 0u64;
    for number in 0..4096 {
        if let Ok(job) = Job::new(4096 - number) {
            if open_one(rt, alloc, engine, sessions, job) {
                refused = refused.wrapping_add(1);
            }
        }
    }
    refused
}

fn halt_one<B: BoardName, R: Wait>(
    rt: &R,
    engine: &Shared<B>,
    session: Session<B>,
    passes: &mut Vec<Pass<B>>,
) -> bool {
    match engine.halt(rt, session) {
        Ok(pass) => passes.push(pass).is_ok(),
        Err(_) => false,
    }
}

// How many sessions ended.
fn halt_all<B: BoardName, R: Wait>(
    rt: &R,
    engine: &Shared<B>,
    sessions: Vec<Session<B>>,
    passes: &mut Vec<Pass<B>>,
) -> u64 {
    let mut halted = 0u64;
    for session in sessions {
        if halt_one(rt, engine, session, passes) {
            halted = halted.wrapping_add(1);
        }
    }
    halted
}

// How many second sessions were refused, and how many sessions ended.
fn come_and_go<B: BoardName, R: Wait>(
    rt: &R,
    alloc: Global,
    engine: &Shared<B>,
    passes: &mut Vec<Pass<B>>,
) -> (u64, u64) {
    let mut sessions = Vec::new(alloc);
    let refused = open_all(rt, alloc, engine, &mut sessions);
    (refused, halt_all(rt, engine, sessions, passes))
}

// The same, and how many sessions and units there were.
fn all_jobs<B: BoardName, R: Wait>(rt: &R, alloc: Global, blank: Blank) -> (u64, u64, u64, u64)
    requires { (blank.seat.table_id ≡ B.table) × (blank.words.seats ≡ 4096) }
{
    let engine = Shared::<B>::new(alloc, blank);
    let mut passes = Vec::new(alloc);
    let (refused, halted) = come_and_go(rt, alloc, &engine, &mut passes);
    let closed = engine.finish(rt, passes);
    (refused, halted, closed.sessions, closed.core.now())
}

#[test]
fn each_job_has_one_session_at_once(rt: HostRuntime) -> Result<(), Fail> {
    let blank = Blank::new(rt.alloc(), SEATS)?;
    let counts = all_jobs::<Brand, _>(&rt, rt.alloc(), blank);
    assert_eq!(rt; counts, (4096, 4096, 4096, 4096));
    Ok(())
}

// Begins a transaction, and halts. Whether both were done.
fn is_begun_and_halted<B: BoardName, R: Wait>(
    rt: &R,
    engine: &Shared<B>,
    mut session: Session<B>,
) -> bool
    requires { session.state.level ≡ 0 }
{
    let is_begun = engine.tstart(&mut session).is_ok();
    engine.halt(rt, session).is_ok() && is_begun
}

fn is_opened_and_halted<B: BoardName, R: Wait>(
    rt: &R,
    alloc: Global,
    engine: &Shared<B>,
    job: Job,
) -> bool {
    match engine.open(rt, alloc, job) {
        Ok(session) => is_begun_and_halted(rt, engine, session),
        Err(_) => false,
    }
}

// How often of ten thousand times.
fn often<B: BoardName, R: Wait>(rt: &R, alloc: Global, engine: &Shared<B>, job: Job) -> u64 {
    let mut good = 0u64;
    for _ in 0..10_000 {
        if is_opened_and_halted(rt, alloc, engine, job) {
            good = good.wrapping_add(1);
        }
    }
    good
}

fn one_job<B: BoardName, R: Wait>(rt: &R, alloc: Global, blank: Blank, job: Job) -> (u64, u64)
    requires { (blank.seat.table_id ≡ B.table) × (blank.words.seats ≡ 4096) }
{
    let engine = Shared::<B>::new(alloc, blank);
    let good = often(rt, alloc, &engine, job);
    let closed = engine.finish(rt, Vec::new(alloc));
    (good, closed.core.now())
}

#[test]
fn a_job_has_its_seat_again(rt: HostRuntime) -> Result<(), Fail> {
    let blank = Blank::new(rt.alloc(), SEATS)?;
    let job = Job::new(7).ok().ok_or("a job")?;
    let counts = one_job::<Brand, _>(&rt, rt.alloc(), blank, job);
    assert_eq!(rt; counts, (10_000, 10_000));
    Ok(())
}

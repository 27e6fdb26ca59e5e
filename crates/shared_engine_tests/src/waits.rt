//! LOCKs that wait: no call of their gate is made while the engine's lock is held, and they end where the gate says so.
ghost use Rattle.std.specs.Prelude.{◌≡◌};

use collation::Job;
use command::Command;
use lock_name::LockCommand;
use pin_board::{Blank, SEATS};
use refusal::Refusal;
use session_acts::{command_of, is_replied, opened};
use shared_engine::{BoardName, Gate, Mark, Session, Shared, Stop};
use std::alloc::Global;
use std::marker::Brand;
use std::sync::Wait;
use std::sync::atomic::{AtomicU64, Ordering};
use std::test::*;

// After how many calls jobs are stopped.
const MOST_CALLS: u64 = 20;

// A gate that holds the engine's lock in each call, and lets no time pass.
struct Pausing<'a, B: BoardName, R> {
    rt: &'a R,
    engine: &'a Shared<B>,
    calls: AtomicU64,
}

impl<'a, B: BoardName, R> Drop for Pausing<'a, B, R> {
    fn drop(self) {
        let Pausing {
            rt: _,
            engine: _,
            calls: _,
        } = self;
    }
}

impl<'a, B: BoardName, R: Wait> Pausing<'a, B, R> {
    // Counts a call. Nobody else has the lock meanwhile: were it held, this would never return.
    fn note(&self) -> u64 {
        let pause = self.engine.pause(self.rt);
        let calls = self.calls.fetch_add(1, Ordering::SeqCst);
        drop(pause);
        calls
    }
}

impl<'a, B: BoardName, R: Wait> Gate for Pausing<'a, B, R> {
    fn watches_lines(&self) -> bool {
        true
    }

    fn before(&self, _job: Job, _line: u64) {}

    fn after(&self, _job: Job, _line: u64) {}

    fn between_tries(&self, _job: Job) {
        self.note();
    }

    fn pause(&self, _job: Job, _millis: u64) {
        self.note();
    }

    fn now(&self) -> u64 {
        0
    }

    fn waits(&self, _job: Job, _command: &LockCommand) -> Mark {
        Mark {
            changes: self.note(),
            is_counted: false,
        }
    }

    fn tried(&self, _job: Job, mark: Mark) -> Mark {
        self.note();
        mark
    }

    fn goes_on(&self, _job: Job, _command: &LockCommand) {
        self.note();
    }

    fn job_begun(&self) {}

    fn job_failed(&self) {}

    fn stop(&self) -> Option<Stop> {
        if self.note() < MOST_CALLS {
            None
        } else {
            Some(Stop::Failed)
        }
    }

    fn job_done(&self, _done: u64, _jobs: u64, _lines: u64) {}
}

// The names that job 2 waits for.
fn names(alloc: Global) -> Option<LockCommand> {
    match command_of(alloc, "2 LOCK +^A")? {
        Command::Lock(command) => Some(command),
        other => {
            drop(other);
            None
        }
    }
}

// Whether a LOCK with a timeout of three milliseconds is blocked at its end, behind pauses of one and of two.
fn is_timed<B: BoardName, R: Wait>(
    rt: &R,
    engine: &Shared<B>,
    waiting: &mut Session<B>,
    command: &LockCommand,
) -> bool {
    let gate = Pausing {
        rt,
        engine,
        calls: AtomicU64::new(0),
    };
    let had = engine.lock_within(rt, waiting, command, 3, &gate);
    had == Ok(false) && gate.calls.load(Ordering::SeqCst) == 4
}

// Whether a LOCK without a timeout is refused once its gate stops jobs.
fn is_stopped<B: BoardName, R: Wait>(
    rt: &R,
    engine: &Shared<B>,
    waiting: &mut Session<B>,
    command: &LockCommand,
) -> bool {
    let gate = Pausing {
        rt,
        engine,
        calls: AtomicU64::new(0),
    };
    let had = engine.lock(rt, waiting, command, &gate);
    had == Err(Refusal::OutOfMemory) && gate.calls.load(Ordering::SeqCst) > MOST_CALLS
}

// Whether job 2 waits for a name that is held as it should.
fn waits_for_names<B: BoardName, R: Wait>(
    rt: &R,
    alloc: Global,
    engine: &Shared<B>,
    waiting: &mut Session<B>,
) -> bool {
    match names(alloc) {
        Some(command) => {
            let is_right = is_timed(rt, engine, waiting, &command)
                && is_stopped(rt, engine, waiting, &command);
            drop(command);
            is_right
        }
        None => false,
    }
}

// The session that waits, of job 2.
fn waits_beside<B: BoardName, R: Wait>(rt: &R, alloc: Global, engine: &Shared<B>) -> bool {
    match opened(rt, alloc, engine, 2) {
        Some(mut waiting) => waits_for_names(rt, alloc, engine, &mut waiting),
        None => false,
    }
}

// The session that holds the name, of job 1.
fn holds_and_waits<B: BoardName, R: Wait>(rt: &R, alloc: Global, engine: &Shared<B>) -> bool {
    match opened(rt, alloc, engine, 1) {
        Some(mut holding) => {
            is_replied(rt, alloc, engine, &mut holding, "1 LOCK +^A", "0 1\n")
                && waits_beside(rt, alloc, engine)
        }
        None => false,
    }
}

fn waits<B: BoardName, R: Wait>(rt: &R, alloc: Global, blank: Blank) -> bool
    requires { (blank.seat.table_id ≡ B.table) × (blank.words.seats ≡ 4096) }
{
    let engine = Shared::<B>::new(alloc, blank);
    holds_and_waits(rt, alloc, &engine)
}

#[test]
fn a_gate_is_called_without_the_lock(rt: HostRuntime) -> Result<(), Fail> {
    let blank = Blank::new(rt.alloc(), SEATS)?;
    let is_right = waits::<Brand, _>(&rt, rt.alloc(), blank);
    assert!(rt; is_right);
    Ok(())
}

//! Gates that count what they are told, and make jobs wait for each other.
use collation::Job;
use lock_name::LockCommand;
use shared_engine::{Gate, Mark, Stop};
use std::alloc::{AllocError, Global};
use std::rt::Clock;
use std::sync::atomic::{AtomicU64, Ordering};
use std::thread;
use std::time::Duration;

// How often a wait looks again, each time after a millisecond.
const TURNS: u64 = 20_000;

// The most jobs and lines of a job that are counted.
const JOBS: usize = 3;

const LINES: usize = 5;

/// A gate that lets other threads go on, and no time pass.
#[derive(Clone, Copy)]
pub struct Yielding;

impl Gate for Yielding {
    fn watches_lines(&self) -> bool {
        false
    }

    fn before(&self, _job: Job, _line: u64) {}

    fn after(&self, _job: Job, _line: u64) {}

    fn between_tries(&self, _job: Job) {
        thread::yield_now();
    }

    fn pause(&self, _job: Job, _millis: u64) {
        thread::yield_now();
    }

    fn now(&self) -> u64 {
        0
    }

    fn waits(&self, _job: Job, _command: &LockCommand) -> Mark {
        Mark {
            changes: 0,
            is_counted: false,
        }
    }

    fn tried(&self, _job: Job, mark: Mark) -> Mark {
        mark
    }

    fn goes_on(&self, _job: Job, _command: &LockCommand) {}

    fn job_begun(&self) {}

    fn job_failed(&self) {}

    fn stop(&self) -> Option<Stop> {
        None
    }

    fn job_done(&self, _done: u64, _jobs: u64, _lines: u64) {}
}

/// What a gate was told.
#[derive(Drop)]
pub struct Counts {
    before: Vec<AtomicU64>,
    after: Vec<AtomicU64>,
    tries: Vec<AtomicU64>,
    paused: AtomicU64,
    late: AtomicU64,
}

// So many counts of 0.
fn zeros(alloc: Global, count: usize) -> Result<Vec<AtomicU64>, AllocError> {
    let mut zeros = Vec::new(alloc);
    for _ in 0..count {
        zeros.push(AtomicU64::new(0))?;
    }
    Ok(zeros)
}

fn add_one(counts: &[AtomicU64], at: usize) -> u64 {
    match counts.get(at) {
        Some(count) => count.fetch_add(1, Ordering::SeqCst).wrapping_add(1),
        None => 0,
    }
}

fn count_at(counts: &[AtomicU64], at: usize) -> u64 {
    match counts.get(at) {
        Some(count) => count.load(Ordering::SeqCst),
        None => 0,
    }
}

fn place(job: u64, line: u64) -> usize {
    job.min(JOBS as u64) as usize * LINES + line.min(LINES as u64 - 1) as usize
}

impl Counts {
    pub fn new(alloc: Global) -> Result<Counts, AllocError> {
        Ok(Counts {
            before: zeros(alloc, (JOBS + 1) * LINES)?,
            after: zeros(alloc, (JOBS + 1) * LINES)?,
            tries: zeros(alloc, JOBS + 1)?,
            paused: AtomicU64::new(0),
            late: AtomicU64::new(0),
        })
    }

    /// For how many times the line was told before it was done, this one too.
    pub fn note_before(&self, job: Job, line: u64) -> u64 {
        add_one(&self.before, place(job.number() as u64, line))
    }

    pub fn note_after(&self, job: Job, line: u64) {
        add_one(&self.after, place(job.number() as u64, line));
    }

    /// How often the line was done.
    pub fn times(&self, job: u64, line: u64) -> u64 {
        count_at(&self.after, place(job, line))
    }

    pub fn note_try(&self, job: Job) {
        add_one(&self.tries, job.number() as usize);
    }

    /// How often a LOCK of the job was tried once more.
    pub fn tries(&self, job: u64) -> u64 {
        count_at(&self.tries, job.min(JOBS as u64) as usize)
    }

    pub fn note_pause(&self, millis: u64) {
        self.paused.fetch_add(millis, Ordering::SeqCst);
    }

    /// How many milliseconds passed in pauses.
    pub fn paused(&self) -> u64 {
        self.paused.load(Ordering::SeqCst)
    }

    /// How many waits were in vain.
    pub fn late(&self) -> u64 {
        self.late.load(Ordering::SeqCst)
    }

    /// Waits until the line was done so many times, in bounded turns.
    pub fn wait_for_line(&self, rt: &impl Clock, job: u64, line: u64, times: u64) {
        for _ in 0..TURNS {
            if count_at(&self.after, place(job, line)) >= times {
                return;
            }
            thread::sleep(rt, Duration::from_millis(1));
        }
        self.late.fetch_add(1, Ordering::SeqCst);
    }

    /// Waits until a LOCK of the job was tried in vain, in bounded turns.
    pub fn wait_for_try(&self, rt: &impl Clock, job: u64) {
        for _ in 0..TURNS {
            if count_at(&self.tries, job.min(JOBS as u64) as usize) > 0 {
                return;
            }
            thread::sleep(rt, Duration::from_millis(1));
        }
        self.late.fetch_add(1, Ordering::SeqCst);
    }
}

//! Circles: jobs that wait without a timeout, each for a name of another of them. None of them goes on again.
//!
//! In a copy of the lock table all others are halted, and then each that would have its names, until none would. Those
//! that are left never go on. Who of them waits for whom is seen in copies in which one of them alone holds names.
//! Memory that is refused for this is told as no circle.

use crate::live::Live;
use collation::Job;
use command::Command;
use lock_table::LockTable;
use script::{Drafts, read_line};
use std::alloc::{AllocError, Global};

// More jobs than these that never go on are told together, also such as only wait for those of a circle: to tell them
// apart takes as long as the third power of their number.
const MOST: usize = 128;

// Whether the LOCK wouldn't be had.
fn is_blocked_in(table: &LockTable, job: Job, command: &Command) -> bool {
    match command {
        Command::Lock(lock) => !table.reply(job, lock),
        _ => false,
    }
}

// Whether the LOCK for which the job waits wouldn't be had.
fn is_kept_off(alloc: Global, live: &Live, table: &LockTable, job: Job) -> bool {
    let Some(line) = live.desks.first(job) else {
        return false;
    };
    let mut drafts = Drafts::new(alloc);
    match read_line(alloc, line.text(), &mut drafts) {
        Ok((job, lock)) => is_blocked_in(table, job, &lock),
        Err(_) => false,
    }
}

/// Whether the job is one of these.
pub(crate) fn is_among(job: Job, jobs: &[Job]) -> bool {
    'jobs: for other in jobs {
        if *other == job {
            return true;
        }
    }
    false
}

// Halts each of the jobs that is none of these.
fn halt_others(table: &mut LockTable, jobs: &[Job], these: &[Job]) {
    'jobs: for job in jobs {
        if !is_among(*job, these) {
            table.end_job(*job);
        }
    }
}

// Halts each of the jobs that would have its names. Those that are left, the last first.
fn left_of(
    alloc: Global,
    live: &Live,
    table: &mut LockTable,
    jobs: &[Job],
) -> Result<Vec<Job>, AllocError> {
    let mut left = Vec::new(alloc);
    'jobs: for past in 0..jobs.len() {
        let at = jobs.len().saturating_sub(past).saturating_sub(1);
        if let Some(job) = jobs.get(at) {
            if is_kept_off(alloc, live, table, *job) {
                left.push(*job)?;
            } else {
                table.end_job(*job);
            }
        }
    }
    Ok(left)
}

// The jobs that never go on, of these, and in no order. After it the table has their names alone.
fn never_freed(
    alloc: Global,
    live: &Live,
    table: &mut LockTable,
    jobs: Vec<Job>,
) -> Result<Vec<Job>, AllocError> {
    let mut jobs = jobs;
    'rounds: for _ in 0..u64::MAX {
        let left = left_of(alloc, live, table, jobs.as_slice())?;
        if left.len() == jobs.len() {
            return Ok(left);
        }
        jobs = left;
    }
    Ok(jobs)
}

// In the order in which they wait.
fn in_order(alloc: Global, live: &Live, jobs: &[Job]) -> Result<Vec<Job>, AllocError> {
    let mut ordered = Vec::new(alloc);
    'desks: for at in 0..live.desks.count_waiting() {
        if let Some(waiting) = live.desks.waiting(at) {
            if is_among(waiting.job, jobs) {
                ordered.push(waiting.job)?;
            }
        }
    }
    Ok(ordered)
}

fn is_set(flags: &[bool], at: usize) -> bool {
    match flags.get(at) {
        Some(flag) => *flag,
        None => false,
    }
}

/// Jobs that never go on, in the order in which they wait.
#[derive(Drop)]
pub(crate) struct Stuck {
    pub(crate) jobs: Vec<Job>,
    // Whether the job at the one place waits for that at the other, or for one that does so; none where all are told
    // together.
    waits: Vec<bool>,
}

impl Stuck {
    /// Those of these, which wait. Refusals: `AllocError`.
    pub(crate) fn among(
        alloc: Global,
        live: &Live,
        patient: Vec<Job>,
    ) -> Result<Stuck, AllocError> {
        let Ok(mut table) = live.script.core.locks().copy() else {
            return Err(AllocError);
        };
        halt_others(&mut table, live.script.jobs.as_slice(), patient.as_slice());
        let left = never_freed(alloc, live, &mut table, patient)?;
        let jobs = in_order(alloc, live, left.as_slice())?;
        let mut waits = Vec::new(alloc);
        if jobs.len() <= MOST {
            note_waits(alloc, live, &table, jobs.as_slice(), &mut waits)?;
            join_waits(&mut waits, jobs.len());
        }
        Ok(Stuck { jobs, waits })
    }

    // Whether the job at this place waits for that at the other, or for one that does so.
    fn waits_for(&self, at: usize, other: usize) -> bool {
        is_set(self.waits.as_slice(), place(self.jobs.len(), other, at))
    }

    /// The jobs of the circles that go through the one at this place: none where none does.
    pub(crate) fn circle(&self, alloc: Global, at: usize) -> Result<Vec<Job>, AllocError> {
        let mut circle = Vec::new(alloc);
        'jobs: for other in 0..self.jobs.len() {
            let is_in = self.waits_for(at, other) && self.waits_for(other, at);
            if is_in || self.jobs.len() > MOST {
                if let Some(job) = self.jobs.get(other) {
                    circle.push(*job)?;
                }
            }
        }
        Ok(circle)
    }
}

// Where it stands whether one waits for another, of so many.
fn place(count: usize, holder: usize, waiter: usize) -> usize {
    holder.saturating_mul(count).saturating_add(waiter)
}

// Notes which of the jobs wait for this one, where it alone holds names.
fn note_alone(
    alloc: Global,
    live: &Live,
    alone: &LockTable,
    jobs: &[Job],
    holder: Job,
    waits: &mut Vec<bool>,
) -> Result<(), AllocError> {
    'jobs: for job in jobs {
        waits.push(*job != holder && is_kept_off(alloc, live, alone, *job))?;
    }
    Ok(())
}

// Notes which of the jobs wait for this one.
fn note_holder(
    alloc: Global,
    live: &Live,
    table: &LockTable,
    jobs: &[Job],
    holder: Job,
    waits: &mut Vec<bool>,
) -> Result<(), AllocError> {
    let Ok(mut alone) = table.copy() else {
        return Err(AllocError);
    };
    halt_others(&mut alone, jobs, &[holder]);
    note_alone(alloc, live, &alone, jobs, holder, waits)
}

// So of each of them.
fn note_waits(
    alloc: Global,
    live: &Live,
    table: &LockTable,
    jobs: &[Job],
    waits: &mut Vec<bool>,
) -> Result<(), AllocError> {
    'jobs: for holder in jobs {
        note_holder(alloc, live, table, jobs, *holder, waits)?;
    }
    Ok(())
}

// Who waits for one that waits for another waits for that too.
fn join_waits(waits: &mut Vec<bool>, count: usize) {
    'mids: for mid in 0..count {
        'holders: for holder in 0..count {
            if is_set(waits.as_slice(), place(count, holder, mid)) {
                join_behind(waits, count, holder, mid);
            }
        }
    }
}

// So those that wait for the one in the middle.
fn join_behind(waits: &mut Vec<bool>, count: usize, holder: usize, mid: usize) {
    'waiters: for waiter in 0..count {
        let at = place(count, holder, waiter);
        if is_set(waits.as_slice(), place(count, mid, waiter)) && at < waits.len() {
            waits[at] = true;
        }
    }
}

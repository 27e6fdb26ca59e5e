//! What `mjobs` does while its jobs go on.
use crate::PROGRAM;
use crate::places::Places;
use crate::waiting::Waiting;
use collation::Job;
use journal_lines::write_lock;
use lock_name::LockCommand;
use program_front::Progress;
use shared_engine::{Gate, Mark, Stop};
use std::rt::Clock;
use std::sync::atomic::{AtomicBool, Ordering};
use std::sync::{Mutex, Wait};
use std::thread;
use std::time::{Duration, Instant};

// Tells on standard error how many jobs are done, in one line that is written over, and clears it at the end.
fn tell_progress(
    rt: &(impl Clock + Eprint),
    progress: &Progress,
    done: u64,
    jobs: u64,
    lines: u64,
) {
    if done == jobs {
        progress.clear(rt);
    } else if let Some(seconds) = progress.due(rt) {
        let pace = lines.checked_div(seconds).unwrap_or(lines);
        let _ = eprint!(rt; "\r\x1b[K{PROGRAM}: {done} of {jobs} jobs, {pace} lines a second");
    }
}

// Tells on standard error for which names a job waits, where there is memory for their text.
fn tell_waiting(rt: &(impl Eprint + AllocGlobal), job: Job, command: &LockCommand) {
    let mut text = Vec::new(rt.alloc());
    if write_lock(command, &mut text).is_ok()
        && let Ok(names) = str::from_utf8(&text)
    {
        let _ = eprintln!(rt; "{PROGRAM}: job {} waits: {names}", job.number());
    } else {
        let _ = eprintln!(rt; "{PROGRAM}: job {} waits", job.number());
    }
}

/// Lets other threads go on, or time pass, between two tries of a LOCK; stops all jobs where one fails, or all wait; on
/// a terminal it tells how many jobs are done. As many jobs run at the same time as there are places: one that sleeps
/// between two tries lets another run.
pub(crate) struct Patience<'a, P> {
    rt: &'a P,
    // When it was made, where there is time.
    begun: Option<Instant>,
    progress: Option<Progress>,
    places: Places,
    waiting: Mutex<Waiting>,
    // Whether `waiting` says that jobs are stopped. It is asked for each line, without that lock.
    is_stopped: AtomicBool,
}

impl<'a, P> Drop for Patience<'a, P> {
    fn drop(self) {
        let Patience {
            rt: _,
            begun: _,
            progress: _,
            places: _,
            waiting: _,
            is_stopped: _,
        } = self;
    }
}

impl<'a, P: Clock> Patience<'a, P> {
    pub(crate) fn new(rt: &'a P, progress: Option<Progress>, places: usize) -> Patience<'a, P> {
        Patience {
            rt,
            begun: Instant::now(rt).ok(),
            progress,
            places: Places::new(places),
            waiting: Mutex::new(Waiting::new()),
            is_stopped: AtomicBool::new(false),
        }
    }

    // How many milliseconds have passed since then, where there is time.
    fn passed(&self) -> Option<u64> {
        let passed = self.begun?.elapsed(self.rt).ok()?;
        u64::try_from(passed.as_millis()).ok()
    }
}

impl<'a, P: Clock + Eprint + AllocGlobal + Wait> Gate for Patience<'a, P> {
    fn watches_lines(&self) -> bool {
        false
    }

    fn before(&self, _job: Job, _line: u64) {}

    fn after(&self, _job: Job, _line: u64) {}

    fn between_tries(&self, _job: Job) {
        thread::yield_now();
    }

    fn pause(&self, _job: Job, millis: u64) {
        self.places.give(self.rt);
        thread::sleep(self.rt, Duration::from_millis(millis));
        self.places.take(self.rt);
    }

    fn now(&self) -> u64 {
        self.passed().unwrap_or(0)
    }

    fn waits(&self, _job: Job, _command: &LockCommand) -> Mark {
        self.waiting.lock(self.rt).begin()
    }

    fn tried(&self, _job: Job, mark: Mark) -> Mark {
        let mut waiting = self.waiting.lock(self.rt);
        let mark = waiting.note_tried(mark);
        if waiting.stop().is_some() {
            self.is_stopped.store(true, Ordering::SeqCst);
        }
        mark
    }

    fn goes_on(&self, job: Job, command: &LockCommand) {
        let mut waiting = self.waiting.lock(self.rt);
        waiting.end();
        if waiting.stop() == Some(Stop::AllWait) {
            if let Some(progress) = &self.progress {
                progress.clear(self.rt);
            }
            tell_waiting(self.rt, job, command);
        }
    }

    fn job_begun(&self) {
        self.places.take(self.rt);
        self.waiting.lock(self.rt).note_begun();
    }

    fn job_failed(&self) {
        self.waiting.lock(self.rt).note_stop(Stop::Failed);
        self.is_stopped.store(true, Ordering::SeqCst);
    }

    fn stop(&self) -> Option<Stop> {
        if self.is_stopped.load(Ordering::Relaxed) {
            self.waiting.lock(self.rt).stop()
        } else {
            None
        }
    }

    fn job_done(&self, done: u64, jobs: u64, lines: u64) {
        self.places.give(self.rt);
        self.waiting.lock(self.rt).note_done(done);
        if let Some(progress) = &self.progress {
            tell_progress(self.rt, progress, done, jobs, lines);
        }
    }
}

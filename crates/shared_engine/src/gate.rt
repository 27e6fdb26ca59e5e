//! What a waiting job calls.
use collation::Job;
use lock_name::LockCommand;

/// Why jobs aren't run on.
#[derive(Clone, Copy, Debug, PartialEq, Eq)]
pub enum Stop {
    /// A job couldn't be run to its end.
    Failed,
    /// Each job that was begun and isn't over waits, in a LOCK without a timeout, for names that others of them hold.
    AllWait,
}

/// What a LOCK that waits keeps for its gate from one try to the next.
#[derive(Clone, Copy, Debug, PartialEq, Eq)]
pub struct Mark {
    /// How often jobs had begun, ended, begun to wait or gone on, when the last try began.
    pub changes: u64,
    /// Whether a try in vain since the last of these is counted.
    pub is_counted: bool,
}

/// What the steps of jobs call as they go on, so that a program can show them, yield, let time pass, or stop them. No
/// call is made while the lock is held.
///
/// Jobs are stopped where `stop` says why. A LOCK that waits is then refused, `OutOfMemory`, and `job_server` does no
/// further line, begins no job, and ends with a fault. A gate that never says so makes a LOCK wait as long as its names
/// are held: for ever, if their job failed and so was never halted, or waits itself for who waits.
pub trait Gate {
    /// Whether `before` and `after` are to be called. Where not, several lone commands of a job may be done under one
    /// hold of the lock.
    fn watches_lines(&self) -> bool;

    /// Before this line is done, at each try of its block. Lines are counted from 1 within their job, refused ones too.
    /// Lines that are done under one hold are not told.
    fn before(&self, job: Job, line: u64);

    /// After it was done, at each try.
    fn after(&self, job: Job, line: u64);

    /// Between two of the first tries of a LOCK that waits.
    fn between_tries(&self, job: Job);

    /// Lets so many milliseconds pass, between two tries of a LOCK.
    fn pause(&self, job: Job, millis: u64);

    /// How many milliseconds have passed since some moment, by a clock that doesn't go back.
    fn now(&self) -> u64;

    /// A LOCK without a timeout was tried in vain, and is tried again until it has its names or is refused.
    fn waits(&self, job: Job, command: &LockCommand) -> Mark;

    /// It was tried once more, in vain, since the gate gave this mark. Answers the mark of the next try. Where all jobs
    /// wait, and each was tried in vain since the last of them began to, none of them ever has its names.
    fn tried(&self, job: Job, mark: Mark) -> Mark;

    /// It waits no longer: it has its names, or was refused.
    fn goes_on(&self, job: Job, command: &LockCommand);

    /// Before a worker does a script, also one of lines without a job.
    fn job_begun(&self);

    /// A script can't be done to its end. A session that it has isn't halted, and keeps what it locked.
    fn job_failed(&self);

    /// Why jobs are to be stopped, if they are.
    fn stop(&self) -> Option<Stop>;

    /// After a script was done, or failed: how many of how many are, and how many lines they had.
    fn job_done(&self, done: u64, jobs: u64, lines: u64);
}

// How many tries of a LOCK without a timeout have no pause before them.
const UNPAUSED: u64 = 64;

// The longest pause before a try, in milliseconds.
const LONGEST_PAUSE: u64 = 50;

/// How a LOCK lets time pass between its tries: each pause is twice as long as the one before.
#[derive(Drop)]
pub(crate) struct Delay {
    // How many tries are to have no pause, and how long the next pause is.
    unpaused: u64,
    pause: u64,
    // When the time is over by the gate's clock, and how much of it is left by the pauses.
    end: u64,
    left: u64,
}

impl Delay {
    /// Without an end, and first without pauses.
    pub(crate) fn yielding() -> Delay {
        Delay {
            unpaused: UNPAUSED,
            pause: 1,
            end: 0,
            left: 0,
        }
    }

    /// Over after so many milliseconds.
    pub(crate) fn within<G: Gate>(gate: &G, millis: u64) -> Delay {
        Delay {
            unpaused: 0,
            pause: 1,
            end: gate.now().saturating_add(millis),
            left: millis,
        }
    }

    // How long the next pause is.
    fn next(&mut self) -> u64 {
        let pause = self.pause;
        self.pause = pause.saturating_mul(2).min(LONGEST_PAUSE);
        pause
    }

    /// Lets time pass before the next try.
    pub(crate) fn pass<G: Gate>(&mut self, gate: &G, job: Job) {
        if self.unpaused > 0 {
            self.unpaused -= 1;
            gate.between_tries(job);
        } else {
            gate.pause(job, self.next());
        }
    }

    /// The same, where some is left.
    pub(crate) fn pass_within<G: Gate>(&mut self, gate: &G, job: Job) -> bool {
        let left = self.left.min(self.end.saturating_sub(gate.now()));
        if left == 0 {
            return false;
        }
        let pause = self.next().min(left);
        self.left = left - pause;
        gate.pause(job, pause);
        true
    }
}

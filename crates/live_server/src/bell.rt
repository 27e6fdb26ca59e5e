//! The time, and what is told at a standstill.
use collation::Job;

/// Asked for the time, and told where a run can't go on. What it answers is no part of any promise: by another time a
/// LOCK only waits longer or shorter.
pub trait Bell {
    /// How many milliseconds have passed since the run began.
    fn now(&self) -> u64;

    /// Lets time pass until then.
    fn sleep(&self, until: u64);

    /// The job waits in this line for names that no job will free: those of this holder, where it is known that there
    /// is just one.
    fn waits(&self, job: Job, line: &[u8], holder: Option<Job>);

    /// Of all open jobs this was told, or of those that wait for each other in a circle. Input hasn't ended.
    fn stands_still(&self);
}

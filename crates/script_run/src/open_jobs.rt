//! The jobs whose sessions are open, in order of their first accepted lines.
ghost use Rattle.std.specs.Prelude.{◌≡◌, ◌==◌, [], ◌∷◌, IfOk};
ghost use Rattle.std.specs.List.{list_any};
ghost use Rattle.journal.specs.History.{initial, after};
ghost use Rattle.serial.specs.Machine.{run_of};
ghost use Rattle.script_run.specs.OpenJobs.{has_joined, without_job, open_after, is_open as is_open_spec};
ghost use Rattle.script_run.specs.Output.{halts_of, AreHalted};

use collation::Job;
use command::Command;
use job_core::JobCore;
use std::alloc::{AllocError, Global};
use std::marker::Model;

// One more than the greatest number of a job.
const JOB_FLAGS: usize = 4097;

/// The open jobs. Contracts see their numbers. Beside them stands a flag for each number that a job may have, so that a
/// line is noted without a look at the other jobs; a HALT that is done looks at all. There is room for all jobs.
#[derive(Drop)]
pub struct OpenJobs {
    order: Vec<Job>,
    flags: Vec<bool>,
}

impl Model for OpenJobs {
    ghost use Rattle.std.specs.Prelude.{List, ℕ, vec_capacity};
    ghost use Rattle.script_run.specs.OpenJobs.{AreFlagged};

    ghost Value = { List ℕ };

    ghost view = { λ j. j.order.items };

    ghost invariant = { λ j. AreFlagged j.order.items j.flags.items (vec_capacity j.order) };
}

impl OpenJobs {
    /// None, with room for all.
    pub fn new(alloc: Global) -> Result<OpenJobs, AllocError>
        ensures { IfOk result (λ jobs. jobs ≡ []) }
    {
        let order = Vec::with_capacity(alloc, JOB_FLAGS)?;
        let flags = Vec::from_elem(alloc, false, JOB_FLAGS)?;
        Ok(OpenJobs { order, flags })
    }

    /// The jobs in order of their first accepted lines.
    pub fn as_slice(&self) -> &[Job]
        ensures { result.now ≡ self.now }
    {
        self.order.as_slice()
    }

    fn is_open(&self, job: Job) -> bool
        ensures { result ≡ is_open_spec job self.now }
    {
        self.flags[job.number() as usize]
    }

    fn join(&mut self, job: Job)
        ensures { self.new ≡ has_joined job self.old }
    {
        if !self.is_open(job) {
            self.flags[job.number() as usize] = true;
            self.order.push_reserved(job);
        }
    }

    fn leave(&mut self, job: Job)
        ensures { self.new ≡ without_job job self.old }
    {
        if self.is_open(job) {
            self.flags[job.number() as usize] = false;
            self.order.retain(|other| *other != job);
        }
    }

    /// After an accepted line of the job: its session is open, unless it has ended with the line. A line that isn't
    /// accepted opens none.
    pub fn note_line(&mut self, job: &Option<Job>, ended: bool)
        ensures { self.new ≡ open_after job.now ended self.old }
    {
        match job {
            Some(job) => {
                if ended {
                    self.leave(*job);
                } else {
                    self.join(*job);
                }
            }
            None => {}
        }
    }
}

// The job's HALT: done, or refused by a full journal, or, only of a job that isn't at work, for want of memory. Either way
// no node changes.
fn halt(core: &mut JobCore, job: Job)
    ensures halted { AreHalted (job ∷ []) core.old.machine core.new.machine }
    ensures nodes { (after core.new.machine.units initial).map ≡ (after core.old.machine.units initial).map }
{
    drop(core.step(job, Command::Halt));
}

/// Halts these jobs in order. A job that is at work, which has an open transaction or a unit after its last HALT, is
/// halted unless the journal is full; another whose HALT finds no memory is passed over. Either way the database is as all
/// their HALTs leave it.
pub fn halt_open(core: &mut JobCore, jobs: &[Job])
    ensures halted { AreHalted jobs.now core.old.machine core.new.machine }
    ensures nodes { (after core.new.machine.units initial).map ≡ (after (run_of (halts_of jobs.now) core.old.machine).units initial).map }
{
    'jobs: for job in jobs {
        halt(core, *job);
    }
}

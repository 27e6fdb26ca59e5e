//! The end of a session for which room was kept when it began.
ghost use Rattle.std.specs.Prelude.{◌≡◌, ◌≤◌, ◌+◌, length, IfSome, IfOk, IfErr, OnOk, OnErr};
ghost use Rattle.refusal.specs.declared.Refusal.{Refusal};
ghost use Rattle.journal.specs.Kept.{HasNoNumber};
ghost use Rattle.journal.specs.declared.unit.Unit.TheVariants.{End};
ghost use Rattle.job_core.specs.Common.{HasAdded, one_end_fewer};

use crate::kernel::{Core, push_quiet};
use collation::Job;
use journal::Receipt;
use refusal::Refusal;

impl Core {
    /// Room in the journal for the end of one session more is taken, and kept whatever is done until `end_kept`.
    ///
    /// Refusals, after which nothing has changed: `OutOfMemory`.
    pub fn keep_end(&mut self) -> Result<(), Refusal>
        ensures kept { OnOk result (self.new ≡ record self.old { ends = self.old.ends + 1 }) }
        ensures refused { OnErr result (self.new ≡ self.old) }
        ensures cause { IfErr result (λ refusal. refusal ≡ Refusal.OutOfMemory) }
    {
        self.journal.keep_end()
    }

    /// HALT of a job for whose end room is kept: as `end`, but never refused for memory.
    ///
    /// Refusals, after which nothing has changed: `StampsUsedUp` where the journal is full.
    pub fn end_kept(&mut self, job: Job, oldest: Option<u64>) -> Result<Receipt, Refusal>
        requires oldest { IfSome oldest (λ stamp. stamp ≤ length self.old.units) }
        requires room { 1 ≤ self.old.ends }
        ensures added { IfOk result (λ receipt. HasAdded (End job) receipt oldest (one_end_fewer self.old) self.new) }
        ensures refused { OnErr result (self.new ≡ self.old) }
        ensures cause { IfErr result (λ refusal. HasNoNumber refusal 1 (length self.old.units)) }
    {
        match self.journal.prepare_kept_end(job) {
            Ok(()) => {
                self.locks.end_job(job);
                Ok(push_quiet(&mut self.store, &mut self.journal, oldest))
            }
            Err(refusal) => Err(refusal),
        }
    }
}

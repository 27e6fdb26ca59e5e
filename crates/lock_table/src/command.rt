//! LOCK as a command: what it replies, whether it is refused, and what it leaves.
ghost use Rattle.std.specs.Prelude.{true, false, ◌⊎◌, ◌≡◌, None, Some, OnOk, OnErr, IfErr};
ghost use Rattle.std.specs.List.{list_any};
ghost use Rattle.lock_name.specs.Locks.{locks_of, lock_reply, lock_refusal, locks_after};
ghost use Rattle.lock_table.specs.Counted.{is_over};

use crate::counts::Counts;
use crate::table::LockTable;
use collation::Job;
use lock_name::{LockCommand, LockName};
use refusal::Refusal;

/// Whether these counts bear one more of each name; where they do, they have them.
fn bear(mut want: Counts, names: &[LockName]) -> Result<(), Refusal>
    ensures allowed { OnOk result (list_any (is_over names.now want) names.now ≡ false) }
    ensures full { IfErr result (λ refusal. (refusal ≡ Refusal.OutOfMemory) ⊎ ((refusal ≡ Refusal.LockCountFull) × (list_any (is_over names.now want) names.now ≡ true))) }
{
    match want.add_all(names) {
        Ok(()) => {}
        Err(refusal) => return Err(refusal),
    }
    want.look();
    Ok(())
}

impl LockTable {
    /// Whether the job may ask for these names beside what it wants.
    fn check_more(&self, job: u16, names: &[LockName]) -> Result<(), Refusal>
        ensures allowed { OnOk result (list_any (is_over names.now (let l = locks_of job self.now in l.want)) names.now ≡ false) }
        ensures full { IfErr result (λ refusal. (refusal ≡ Refusal.OutOfMemory) ⊎ ((refusal ≡ Refusal.LockCountFull) × (list_any (is_over names.now (let l = locks_of job self.now in l.want)) names.now ≡ true))) }
    {
        match self.wanted(job, names) {
            Ok(want) => bear(want, names),
            Err(_) => Err(Refusal::OutOfMemory),
        }
    }

    /// Whether a LOCK would have what it asks for now, all or none. Takes no memory.
    pub fn reply(&self, job: Job, command: &LockCommand) -> bool
        ensures { result ≡ lock_reply job command.now self.now }
    {
        match command {
            LockCommand::Release => true,
            LockCommand::Only(names) => !self.are_blocked(job.number(), names.as_slice()),
            LockCommand::More(names) => !self.are_blocked(job.number(), names.as_slice()),
            LockCommand::Fewer(_) => true,
        }
    }

    /// Whether a LOCK would be refused by its own rule: it would leave a count above 65,535, were nothing blocked.
    /// Refusals: `LockCountFull`, that rule; `OutOfMemory`.
    pub fn check(&self, job: Job, command: &LockCommand) -> Result<(), Refusal>
        ensures allowed { OnOk result (lock_refusal job command.now self.now ≡ None) }
        ensures refused { IfErr result (λ refusal. (refusal ≡ Refusal.OutOfMemory) ⊎ (lock_refusal job command.now self.now ≡ Some refusal)) }
    {
        match command {
            LockCommand::Release => Ok(()),
            LockCommand::Only(names) => bear(self.nothing(), names.as_slice()),
            LockCommand::More(names) => self.check_more(job.number(), names.as_slice()),
            LockCommand::Fewer(_) => Ok(()),
        }
    }

    /// A LOCK of any form, which the job has or, where a name is blocked, hasn't (`reply` tells).
    /// Refusals: `LockCountFull` where a name would be had more than 65,535 times; `OutOfMemory`.
    /// After either nothing has changed.
    pub fn do_lock(&mut self, job: Job, inside: bool, command: &LockCommand) -> Result<(), Refusal>
        ensures locks { OnOk result (self.new ≡ locks_after job inside command.now self.old) }
        ensures allowed { OnOk result (lock_refusal job command.now self.old ≡ None) }
        ensures refused { IfErr result (λ refusal. (refusal ≡ Refusal.OutOfMemory) ⊎ (lock_refusal job command.now self.old ≡ Some refusal)) }
        ensures unchanged { OnErr result (self.new ≡ self.old) }
    {
        match command {
            LockCommand::Release => self.clear(job, inside),
            LockCommand::Only(names) => match self.lock_all(job, inside, names) {
                Ok(_) => Ok(()),
                Err(refusal) => Err(refusal),
            },
            LockCommand::More(names) => match self.plus(job, inside, names) {
                Ok(_) => Ok(()),
                Err(refusal) => Err(refusal),
            },
            LockCommand::Fewer(names) => self.minus(job, inside, names),
        }
    }
}

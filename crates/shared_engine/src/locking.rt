//! LOCK under the engine's lock.
ghost use Rattle.std.specs.Prelude.{◌≡◌, ◌⊎◌, ◌<◌, ◌≤◌, ◌+◌, ◌∷◌, ◌++◌, ℕ, true, false, List, [], nat_lt, length, None, Some, IfOk, IfErr, OnOk, OnErr};
ghost use Rattle.refusal.specs.declared.Refusal.{Refusal};
ghost use Rattle.lock_name.specs.Locks.{lock_refusal, lock_reply};
ghost use Rattle.journal.specs.History.{initial, after};
ghost use Rattle.job_core.specs.Common.{IsCauseOfLock};
ghost use Rattle.pin_board.specs.Slips.{IsBeginning};
ghost use Rattle.shared_engine.specs.Sessions.{knowing, noted_lock};
ghost use Rattle.shared_engine.specs.Engines.{IsLocked, lock_unit, after_try, OnOkThat, OnOkNot};

use crate::inner::InnerSession;
use crate::locked::Locked;
use collation::Job;
use job_core::{Core, JobState};
use lock_name::LockCommand;
use pin_board::{Board, Lifted};
use refusal::Refusal;

// Why a LOCK isn't done for which there is no room: its own rule, where it breaks one, else want of memory.
fn lock_rule_or_memory(core: &Core, job: Job, command: &LockCommand) -> Refusal
    ensures { (result ≡ Refusal.OutOfMemory) ⊎ (lock_refusal job command.now (after core.now.units initial).locks ≡ Some result) }
{
    match core.locks().check(job, command) {
        Ok(()) => Refusal::OutOfMemory,
        Err(refusal) => refusal,
    }
}

// Notes a LOCK in the session's state, where it was taken inside a transaction.
fn note_lock(state: &mut JobState)
    ensures { state.new ≡ noted_lock state.old }
{
    if state.level() > 0 {
        state.note_lock();
    }
}

impl Locked {
    /// One try of a LOCK. It is a unit, had or not.
    ///
    /// Refusals, after which nothing has changed but that the session has seen the whole journal: those of `Core::lock`;
    /// and `OutOfMemory` for the receipt, which hides its rule only where memory was refused while that was looked at.
    pub fn lock(
        &mut self,
        board: &Board,
        desk: &mut Lifted,
        session: &mut InnerSession,
        command: &LockCommand,
    ) -> Result<bool, Refusal>
        requires own { (desk.old.table ≡ board.now.table) × (session.old.table ≡ board.now.table) }
        requires stands { IsLocked self.old.core desk.old self.old.seats self.old.horizon self.old.opened }
        ensures table { (desk.new.table ≡ desk.old.table) × (session.new.table ≡ session.old.table) }
        ensures stands { IsLocked self.new.core desk.new self.new.seats self.new.horizon self.new.opened }
        ensures had { IfOk result (λ had. had ≡ lock_reply session.old.held.state.work.job command.now (after self.old.core.units initial).locks) }
        ensures allowed { OnOk result (lock_refusal session.old.held.state.work.job command.now (after self.old.core.units initial).locks ≡ None) }
        ensures units { IfOk result (λ had. self.new.core.units ≡ self.old.core.units ++ lock_unit session.old.held.state command.now had ∷ []) }
        ensures receipt { IfOk result (λ had. session.new.held ≡ after_try self.old.core.units command.now had session.old.held) }
        ensures goes_on { IsBeginning self.old.core.units session.old.held.seen }
        ensures refused { OnErr result ((self.new.core ≡ self.old.core) × (session.new.held ≡ knowing self.old.core.units session.old.held)) }
        ensures cause { IfErr result (λ refusal. IsCauseOfLock refusal session.old.held.state.work.job command.now self.old.core.units) }
        ensures others { (desk.new.knows.given ≡ desk.old.knows.given) × (self.new.seats ≡ self.old.seats) }
    {
        match self.write_lock(board, desk, session, command) {
            Ok(had) => Ok(had),
            Err(refusal) => {
                self.find_journal(board, desk, session);
                Err(refusal)
            }
        }
    }

    // The same, where a refusal changes nothing at all.
    fn write_lock(
        &mut self,
        board: &Board,
        desk: &mut Lifted,
        session: &mut InnerSession,
        command: &LockCommand,
    ) -> Result<bool, Refusal>
        requires own { (desk.old.table ≡ board.now.table) × (session.old.table ≡ board.now.table) }
        requires stands { IsLocked self.old.core desk.old self.old.seats self.old.horizon self.old.opened }
        ensures table { (desk.new.table ≡ desk.old.table) × (session.new.table ≡ session.old.table) }
        ensures stands { IsLocked self.new.core desk.new self.new.seats self.new.horizon self.new.opened }
        ensures had { IfOk result (λ had. had ≡ lock_reply session.old.held.state.work.job command.now (after self.old.core.units initial).locks) }
        ensures allowed { OnOk result (lock_refusal session.old.held.state.work.job command.now (after self.old.core.units initial).locks ≡ None) }
        ensures units { IfOk result (λ had. self.new.core.units ≡ self.old.core.units ++ lock_unit session.old.held.state command.now had ∷ []) }
        ensures receipt { IfOk result (λ had. session.new.held ≡ after_try self.old.core.units command.now had session.old.held) }
        ensures goes_on { OnOk result (IsBeginning self.old.core.units session.old.held.seen) }
        ensures refused { OnErr result ((self.new.core ≡ self.old.core) × (session.new.held ≡ session.old.held)) }
        ensures cause { IfErr result (λ refusal. IsCauseOfLock refusal session.old.held.state.work.job command.now self.old.core.units) }
        ensures others { (desk.new.knows.given ≡ desk.old.knows.given) × (self.new.seats ≡ self.old.seats) }
    {
        if session.numbers.reserve(1).is_err() {
            return Err(lock_rule_or_memory(&self.core, session.state.job(), command));
        }
        let inside = session.state.level() > 0;
        let (had, receipt) = self
            .core
            .lock(session.state.job(), inside, command, Some(self.horizon))?;
        board.write(desk, &mut session.pin, &receipt);
        session.numbers.push_reserved(receipt.number());
        note_lock(&mut session.state);
        Ok(had)
    }

    /// A later try of a LOCK that was blocked: it is a unit where it has its names now, and else nothing is done.
    ///
    /// Refusals: as `lock`.
    pub fn lock_again(
        &mut self,
        board: &Board,
        desk: &mut Lifted,
        session: &mut InnerSession,
        command: &LockCommand,
    ) -> Result<bool, Refusal>
        requires own { (desk.old.table ≡ board.now.table) × (session.old.table ≡ board.now.table) }
        requires stands { IsLocked self.old.core desk.old self.old.seats self.old.horizon self.old.opened }
        ensures table { (desk.new.table ≡ desk.old.table) × (session.new.table ≡ session.old.table) }
        ensures stands { IsLocked self.new.core desk.new self.new.seats self.new.horizon self.new.opened }
        ensures had { OnOkThat result (lock_reply session.old.held.state.work.job command.now (after self.old.core.units initial).locks ≡ true) }
        ensures allowed { OnOkThat result (lock_refusal session.old.held.state.work.job command.now (after self.old.core.units initial).locks ≡ None) }
        ensures units { OnOkThat result (self.new.core.units ≡ self.old.core.units ++ lock_unit session.old.held.state command.now true ∷ []) }
        ensures receipt { OnOkThat result (session.new.held ≡ after_try self.old.core.units command.now true session.old.held) }
        ensures goes_on { OnOkThat result (IsBeginning self.old.core.units session.old.held.seen) }
        ensures blocked { OnOkNot result ((lock_reply session.old.held.state.work.job command.now (after self.old.core.units initial).locks ≡ false) × ((self.new.core ≡ self.old.core) × (session.new.held ≡ session.old.held))) }
        ensures refused { OnErr result (IsBeginning self.old.core.units session.old.held.seen × ((self.new.core ≡ self.old.core) × (session.new.held ≡ knowing self.old.core.units session.old.held))) }
        ensures cause { IfErr result (λ refusal. IsCauseOfLock refusal session.old.held.state.work.job command.now self.old.core.units) }
        ensures others { (desk.new.knows.given ≡ desk.old.knows.given) × (self.new.seats ≡ self.old.seats) }
    {
        if !self.core.locks().reply(session.state.job(), command) {
            return Ok(false);
        }
        match self.lock(board, desk, session, command) {
            Ok(_) => Ok(true),
            Err(refusal) => Err(refusal),
        }
    }
}

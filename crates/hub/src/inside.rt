//! What lies in the gate, and what a call does with it, once it has it.
ghost use Rattle.std.specs.Prelude.{◌≡◌, ◌⊎◌, ◌≤◌, ◌+◌, ◌∷◌, ◌++◌, ℕ, List, [], true, false, length, take, None, Some, IfOk, IfErr, IfSome, IsSome, IsErrOf, OnOk, OnErr};
ghost use Rattle.refusal.specs.declared.Refusal.{Refusal};
ghost use Rattle.globals.specs.Answering.{early_refusal};
ghost use Rattle.journal.specs.Kept.{HasNoNumber};
ghost use Rattle.journal.specs.declared.unit.Unit.{Unit as JournalUnit};
ghost use Rattle.journal.specs.History.{initial, after};
ghost use Rattle.job_core.specs.Sessions.{idle, IsAnsweredOrRefused, IsOpenOn};
ghost use Rattle.validate_commit.specs.Verdicts.{IsCauseAtCommit};
ghost use Rattle.pin_board.specs.Slips.{IsBeginning};
ghost use Rattle.shared_engine.specs.Blocks.{IsLone, IsRolledBack, IsRestarted};
ghost use Rattle.shared_engine.specs.Sessions.{held, knowing, halted, IsJournalOf};
ghost use Rattle.shared_engine.specs.Engines.{IsLocked, GoesOnBy, HasEnded, IsCauseAtRestart};
ghost use Rattle.shared_engine.specs.Writes.{AreWrites};
ghost use Rattle.hub.specs.Holding.{IsHeldBy};

use crate::hub::Busy;
use collation::Job;
use command::{Answer, DataCommand};
use counted_slot::Fits;
use pin_board::{Board, Desk};
use refusal::Refusal;
use shared_engine::{Ended, InnerPass, InnerSession, Locked};
use std::alloc::Global;
use std::hint::spin_loop;
use std::sync::Arc;

// How often a call that writes looks whether others still read.
const TRIES: u32 = 4096;

/// What all jobs share, and the desk, at rest.
#[derive(Drop)]
pub(crate) struct Inside {
    pub(crate) locked: Locked,
    pub(crate) desk: Desk,
    pub(crate) ghost stands: { IsLocked locked.core desk locked.seats locked.horizon locked.opened },
}

// What lies in a hub's gate is of its board.
impl Fits for Inside {
    type Tag = Board;

    ghost fits = { λ board inside. inside.desk.table ≡ board.table };
}

// Whether nobody else has it. What is read meanwhile is soon read.
pub(crate) fn is_alone(inside: &Arc<Inside, Global>) -> bool {
    for _ in 0..TRIES {
        if Arc::strong_count(inside) == 1 {
            return true;
        }
        spin_loop();
    }
    false
}

impl Inside {
    /// No unit, and no session. Takes no memory.
    pub(crate) fn new(alloc: Global, desk: Desk) -> Inside
        requires new { (desk.knows.log ≡ []) × ((desk.knows.given ≡ 0) × ((desk.knows.dealt ≡ 0) × (desk.knows.seats ≡ 4096))) }
        ensures desk { result.desk ≡ desk }
    {
        Inside {
            locked: Locked::new(alloc),
            desk,
        }
    }

    /// As `Locked::meet`, with the desk lifted for as long as that takes: others read meanwhile.
    pub(crate) fn meet(&self, board: &Board, session: &mut InnerSession) -> Result<(), Busy>
        requires own { (self.now.desk.table ≡ board.now.table) × (session.old.table ≡ board.now.table) }
        requires level { 1 ≤ session.old.held.state.level }
        ensures table { session.new.table ≡ session.old.table }
        ensures same { OnOk result (session.new.held ≡ knowing self.now.locked.core.units session.old.held) }
        ensures start { OnOk result (IfSome session.old.held.start (λ base. base ≡ take (length base) self.now.locked.core.units)) }
        ensures kept { OnOk result (IsOpenOn self.now.locked.core session.old.held.state) }
        ensures journal { OnOk result (IsJournalOf self.now.locked.core.units session.old.held) }
        ensures busy { OnErr result (session.new ≡ session.old) }
    {
        let Some(mut desk) = self.desk.try_lift() else {
            return Err(Busy);
        };
        self.locked.meet(board, &mut desk, session);
        self.desk.give_back(desk);
        Ok(())
    }

    /// As `Locked::look`, in the same way.
    pub(crate) fn look(&self, board: &Board, session: &mut InnerSession) -> Result<u64, Busy>
        requires own { (self.now.desk.table ≡ board.now.table) × (session.old.table ≡ board.now.table) }
        ensures table { session.new.table ≡ session.old.table }
        ensures same { OnOk result (session.new.held ≡ knowing self.now.locked.core.units session.old.held) }
        ensures journal { OnOk result (IsJournalOf self.now.locked.core.units session.old.held) }
        ensures count { IfOk result (λ count. count ≡ length self.now.locked.core.units) }
        ensures busy { OnErr result (session.new ≡ session.old) }
    {
        let Some(mut desk) = self.desk.try_lift() else {
            return Err(Busy);
        };
        let count = self.locked.look(board, &mut desk, session);
        self.desk.give_back(desk);
        Ok(count)
    }

    /// As `meet` where a transaction is open, else as `look`: what a session may hold then.
    pub(crate) fn hold(&self, board: &Board, session: &mut InnerSession) -> Result<(), Busy>
        requires own { (self.now.desk.table ≡ board.now.table) × (session.old.table ≡ board.now.table) }
        ensures table { session.new.table ≡ session.old.table }
        ensures held { OnOk result (IsHeldBy self.now.locked.core session.new.held) }
        ensures same { OnOk result (session.new.held ≡ knowing session.new.held.seen session.old.held) }
        ensures journal { OnOk result (IsJournalOf session.new.held.seen session.old.held) }
        ensures busy { OnErr result (session.new ≡ session.old) }
    {
        if session.tlevel() > 0 {
            return self.meet(board, session);
        }
        match self.look(board, session) {
            Ok(_) => Ok(()),
            Err(Busy) => Err(Busy),
        }
    }

    /// As `Locked::read_met`, for a session that holds this.
    pub(crate) fn read(
        &self,
        session: &mut InnerSession,
        command: DataCommand,
    ) -> Result<Answer, Refusal>
        requires level { 1 ≤ session.old.held.state.level }
        requires held { IsHeldBy self.now.locked.core session.old.held }
        ensures table { session.new.table ≡ session.old.table }
        ensures held { IsHeldBy self.now.locked.core session.new.held }
        ensures answered { IfSome session.old.held.start (λ base. IsAnsweredOrRefused command result (after base initial).map session.old.held.state session.new.held.state) }
        ensures open { IsSome session.old.held.start }
        ensures journal { IsJournalOf session.new.held.seen session.old.held }
        ensures same { (session.new.held.start ≡ session.old.held.start) × (session.new.held.receipts ≡ session.old.held.receipts) }
        ensures others { session.new.held.others ≡ session.old.held.others }
    {
        self.locked.read_met(session, command)
    }
}

/// As `Locked::open`.
pub(crate) fn opened(
    board: &Board,
    inside: &mut Arc<Inside, Global>,
    alloc: Global,
    job: Job,
) -> Result<InnerSession, Option<Refusal>>
    requires own { inside.old.value.desk.table ≡ board.now.table }
    ensures own { inside.new.value.desk.table ≡ inside.old.value.desk.table }
    ensures table { IfOk result (λ session. session.table ≡ board.now.table) }
    ensures session { IfOk result (λ session. (units : List JournalUnit) × (session.held ≡ held (idle job) None [] [] units)) }
    ensures cause { IfErr result (λ why. IfSome why (λ refusal. (refusal ≡ Refusal.BadJob) ⊎ (refusal ≡ Refusal.OutOfMemory))) }
{
    let Some(alone) = Arc::get_mut(inside) else {
        return Err(None);
    };
    let Some(mut desk) = alone.desk.try_lift() else {
        return Err(None);
    };
    let done = alone.locked.open(board, &mut desk, alloc, job);
    alone.desk.set_down(desk);
    done
}

/// As `Locked::lone`, or the command is given back.
pub(crate) fn lone(
    board: &Board,
    inside: &mut Arc<Inside, Global>,
    session: &mut InnerSession,
    command: DataCommand,
) -> Result<Result<Answer, Refusal>, DataCommand>
    requires own { (inside.old.value.desk.table ≡ board.now.table) × (session.old.table ≡ board.now.table) }
    requires level { session.old.held.state.level ≡ 0 }
    ensures own { inside.new.value.desk.table ≡ inside.old.value.desk.table }
    ensures table { session.new.table ≡ session.old.table }
    ensures done { IfOk result (λ done. (units : List JournalUnit) × IsBeginning units session.old.held.seen × IsLone command done units session.new.held.seen session.old.held session.new.held) }
    ensures early { IfOk result (λ done. (refusal : Refusal) → early_refusal command ≡ Some refusal → IsErrOf done refusal) }
    ensures busy { IfErr result (λ back. (back ≡ command) × (session.new ≡ session.old)) }
{
    let Some(alone) = Arc::get_mut(inside) else {
        return Err(command);
    };
    let Some(mut desk) = alone.desk.try_lift() else {
        return Err(command);
    };
    let done = alone.locked.lone(board, &mut desk, session, command);
    alone.desk.set_down(desk);
    Ok(done)
}

/// As `Locked::tcommit`.
pub(crate) fn committed(
    board: &Board,
    inside: &mut Arc<Inside, Global>,
    session: &mut InnerSession,
) -> Result<Result<Ended, Refusal>, Busy>
    requires own { (inside.old.value.desk.table ≡ board.now.table) × (session.old.table ≡ board.now.table) }
    requires level { session.old.held.state.level ≡ 1 }
    ensures own { inside.new.value.desk.table ≡ inside.old.value.desk.table }
    ensures table { session.new.table ≡ session.old.table }
    ensures ended { IfOk result (λ done. IfOk done (λ end. (units : List JournalUnit) × IsJournalOf units session.old.held × HasEnded end units session.new.held.seen session.old.held session.new.held)) }
    ensures writes { AreWrites session.old.held.state.work.exchanges → IfOk result (λ done. IfOk done (λ end. end ≡ Ended.Committed)) }
    ensures refused { IfOk result (λ done. OnErr done (IsJournalOf session.new.held.seen session.old.held × (session.new.held ≡ knowing session.new.held.seen session.old.held))) }
    ensures cause { IfOk result (λ done. IfErr done (λ refusal. IsCauseAtCommit refusal session.old.held.state.work session.new.held.seen ⊎ IsCauseAtRestart refusal session.old.held.state session.new.held.seen)) }
    ensures busy { OnErr result (session.new ≡ session.old) }
{
    let Some(alone) = Arc::get_mut(inside) else {
        return Err(Busy);
    };
    let Some(mut desk) = alone.desk.try_lift() else {
        return Err(Busy);
    };
    let done = alone.locked.tcommit(board, &mut desk, session);
    alone.desk.set_down(desk);
    Ok(done)
}

/// As `Locked::trollback`.
pub(crate) fn rolled_back(
    board: &Board,
    inside: &mut Arc<Inside, Global>,
    session: &mut InnerSession,
) -> Result<Result<(), Refusal>, Busy>
    requires own { (inside.old.value.desk.table ≡ board.now.table) × (session.old.table ≡ board.now.table) }
    requires level { 1 ≤ session.old.held.state.level }
    requires took { session.old.held.state.took_lock ≡ true }
    ensures own { inside.new.value.desk.table ≡ inside.old.value.desk.table }
    ensures table { session.new.table ≡ session.old.table }
    ensures done { IfOk result (λ done. (units : List JournalUnit) × IsBeginning units session.old.held.seen × IsRolledBack done units session.new.held.seen session.old.held session.new.held) }
    ensures busy { OnErr result (session.new ≡ session.old) }
{
    let Some(alone) = Arc::get_mut(inside) else {
        return Err(Busy);
    };
    let Some(mut desk) = alone.desk.try_lift() else {
        return Err(Busy);
    };
    let done = alone.locked.trollback(board, &mut desk, session);
    alone.desk.set_down(desk);
    Ok(done)
}

/// As `Locked::trestart`.
pub(crate) fn restarted(
    board: &Board,
    inside: &mut Arc<Inside, Global>,
    session: &mut InnerSession,
) -> Result<Result<u64, Refusal>, Busy>
    requires own { (inside.old.value.desk.table ≡ board.now.table) × (session.old.table ≡ board.now.table) }
    requires level { 1 ≤ session.old.held.state.level }
    ensures own { inside.new.value.desk.table ≡ inside.old.value.desk.table }
    ensures table { session.new.table ≡ session.old.table }
    ensures done { IfOk result (λ done. (units : List JournalUnit) × IsBeginning units session.old.held.seen × IsRestarted done units session.new.held.seen session.old.held session.new.held) }
    ensures journal { IfOk result (λ done. OnOk done (IsJournalOf session.new.held.seen session.old.held)) }
    ensures busy { OnErr result (session.new ≡ session.old) }
{
    let Some(alone) = Arc::get_mut(inside) else {
        return Err(Busy);
    };
    let Some(mut desk) = alone.desk.try_lift() else {
        return Err(Busy);
    };
    let done = alone.locked.trestart(board, &mut desk, session);
    alone.desk.set_down(desk);
    Ok(done)
}

/// As `Locked::halt`.
pub(crate) fn over(
    board: &Board,
    inside: &mut Arc<Inside, Global>,
    session: InnerSession,
) -> Result<InnerPass, (InnerSession, Option<Refusal>)>
    requires own { (inside.old.value.desk.table ≡ board.now.table) × (session.table ≡ board.now.table) }
    ensures own { inside.new.value.desk.table ≡ inside.old.value.desk.table }
    ensures table { IfOk result (λ pass. pass.table ≡ board.now.table) }
    ensures pass { IfOk result (λ pass. (units : List JournalUnit) × IsBeginning units session.held.seen × (pass.book ≡ halted units session.held)) }
    ensures refused_table { IfErr result (λ r. r.0.table ≡ session.table) }
    ensures refused { IfErr result (λ r. GoesOnBy r.1 r.0.held.seen session.held r.0.held) }
    ensures cause { IfErr result (λ r. IfSome r.1 (λ refusal. HasNoNumber refusal 1 (length r.0.held.seen))) }
{
    let Some(alone) = Arc::get_mut(inside) else {
        return Err((session, None));
    };
    let Some(mut desk) = alone.desk.try_lift() else {
        return Err((session, None));
    };
    let done = alone.locked.halt(board, &mut desk, session);
    alone.desk.set_down(desk);
    done
}

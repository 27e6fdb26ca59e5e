//! What lies under the lock, but for the desk. Each step of a session is a method, whose contract says exactly what it
//! does. It is given the desk lifted, and never waits.
ghost use Rattle.std.specs.Prelude.{◌≡◌, ◌⊎◌, ◌<◌, ◌≤◌, ◌+◌, ◌-◌, ◌^◌, ◌∷◌, ◌++◌, ℕ, true, false, List, [], min, max, nat_lt, length, vec_len, take, None, Some, IfOk, IfErr, IsErrOf, IfNone, IfSome, IsSome, OnOk, OnErr};
ghost use Rattle.refusal.specs.declared.Refusal.{Refusal};
ghost use Rattle.command.specs.Data.{data_refusal, data_reply};
ghost use Rattle.globals.specs.Answering.{early_refusal, IsRuleOrMemory};
ghost use Rattle.journal.specs.History.{initial, after, IsLegal};
ghost use Rattle.journal.specs.Kept.{Claim, HasNoNumber, HasNoRoom};
ghost use Rattle.journal.specs.declared.unit.Unit.TheVariants.{Lone, End};
ghost use Rattle.validate_commit.specs.Verdicts.{has_been_overtaken, IsCauseAtCommit};
ghost use Rattle.job_core.specs.Causes.{IsCauseOf};
ghost use Rattle.job_core.specs.Common.{HasTurned};
ghost use Rattle.job_core.specs.Sessions.{idle, IsAnsweredOrRefused, IsOpenOn};
ghost use Rattle.pin_board.specs.Slips.{IsBeginning};
ghost use Rattle.shared_engine.specs.Sessions.{held, knowing, and_receipt, went_back, begun_anew, rolled_back, halted, noted_lock, IsJournalOf};
ghost use Rattle.shared_engine.specs.Engines.{has_session, SessionIs, SameSessions, gone_back, lock_unit, IsLocked, HasEnded, IsCauseAtRestart};

use crate::inner::InnerSession;
use crate::seats::Seats;
use crate::sweep::{Sweep, looks};
use collation::Job;
use collector::Progress;
use command::{Answer, DataCommand};
use globals::answer;
use job_core::{Core, JobState};
use pin_board::{Board, Lifted};
use refusal::Refusal;
use std::alloc::{AllocError, Global};
use validate_commit::Verdict;

/// How an outermost TCOMMIT ended.
#[derive(Clone, Copy, Debug, PartialEq, Eq)]
pub enum Ended {
    /// The transaction is a unit of the journal.
    Committed,
    /// Another unit touched what it had read: it has begun anew, for so many times.
    Restarted(u64),
}

/// What all jobs share, the seats of the jobs that have no session, the horizon that was drawn last, how many sessions
/// were opened, and how far the collector has gone round. Each method asks that all of it goes with the desk
/// (`IsLocked`), and leaves it so.
#[derive(Drop)]
pub struct Locked {
    pub(crate) seats: Seats,
    pub(crate) horizon: u64,
    pub(crate) opened: u64,
    pub(crate) sweep: Sweep,
    pub(crate) core: Core,
}

// The unit of a rollback or restart, where the transaction took a LOCK.
fn go_back(
    board: &Board,
    core: &mut Core,
    desk: &mut Lifted,
    session: &mut InnerSession,
    horizon: u64,
) -> Result<(), Refusal>
    requires own { (desk.old.table ≡ board.now.table) × (session.old.table ≡ board.now.table) }
    requires log { desk.old.knows.log ≡ core.old.units }
    requires cut { core.old.store.cut ≤ desk.old.knows.high }
    requires high { horizon ≤ desk.old.knows.high }
    requires now { horizon ≤ length core.old.units }
    ensures table { (desk.new.table ≡ desk.old.table) × (session.new.table ≡ session.old.table) }
    ensures units { OnOk result (core.new.units ≡ gone_back session.old.held.state core.old.units) }
    ensures base { core.new.base ≡ core.old.base }
    ensures ends { core.new.ends ≡ core.old.ends }
    ensures cut { core.new.store.cut ≤ desk.new.knows.high }
    ensures desk { desk.new.knows ≡ record desk.old.knows { log = core.new.units } }
    ensures session { OnOk result (session.new.held ≡ went_back core.new.units session.old.held) }
    ensures goes_on { OnOk result (session.old.held.state.took_lock ≡ true → IsBeginning core.old.units session.old.held.seen) }
    ensures refused { OnErr result ((core.new ≡ core.old) × (session.new.held ≡ session.old.held)) }
    ensures cause { IfErr result (λ refusal. HasNoRoom refusal 1 (length core.old.units) × (session.old.held.state.took_lock ≡ true)) }
{
    if !session.state.took_lock() {
        return Ok(());
    }
    let receipt = core.back(session.state.job(), Some(horizon))?;
    board.write(desk, &mut session.pin, &receipt);
    Ok(())
}

// Why a data command isn't done for which there is no room: its own rule, where it breaks one, else want of memory.
fn rule_or_memory(alloc: Global, core: &Core, command: DataCommand) -> Refusal
    ensures early { (refusal : Refusal) → early_refusal command ≡ Some refusal → result ≡ refusal }
    ensures cause { IsRuleOrMemory result (data_refusal command (after core.now.units initial).map) }
{
    match answer(alloc, &core.content(), &command) {
        Ok(answered) => {
            drop(answered);
            Refusal::OutOfMemory
        }
        Err(refusal) => refusal,
    }
}

// The state of a session that begins, once room is kept for its end. Where memory is refused all is as it was.
fn begin(core: &mut Core, alloc: Global, job: Job) -> Result<JobState, AllocError>
    ensures state { IfOk result (λ state. state ≡ idle job) }
    ensures kept { OnOk result (core.new ≡ record core.old { ends = core.old.ends + 1 }) }
    ensures refused { OnErr result (core.new ≡ core.old) }
{
    let state = JobState::new(alloc, job)?;
    match core.keep_end() {
        Ok(()) => Ok(state),
        Err(_) => {
            drop(state);
            Err(AllocError)
        }
    }
}

impl Locked {
    /// No unit, and no session. Takes no memory.
    pub fn new(alloc: Global) -> Locked
        ensures core { (result.core.units ≡ []) × ((result.core.store.cut ≡ 0) × ((result.core.base ≡ 0) × (result.core.ends ≡ 0))) }
        ensures rest { (result.seats ≡ []) × ((result.horizon ≡ 0) × (result.opened ≡ 0)) }
    {
        Locked {
            core: Core::new(alloc),
            seats: Seats::new(alloc),
            horizon: 0,
            opened: 0,
            sweep: Sweep::new(),
        }
    }

    /// Begins a session of a job that has none, once room is kept for its end. None where somebody has the job's seat,
    /// though it has no session.
    ///
    /// Refusals, after which the same jobs have sessions: `BadJob` where the job has one; else `OutOfMemory`.
    pub fn open(
        &mut self,
        board: &Board,
        desk: &mut Lifted,
        alloc: Global,
        job: Job,
    ) -> Result<InnerSession, Option<Refusal>>
        requires own { desk.old.table ≡ board.now.table }
        requires stands { IsLocked self.old.core desk.old self.old.seats self.old.horizon self.old.opened }
        ensures table { desk.new.table ≡ desk.old.table }
        ensures stands { IsLocked self.new.core desk.new self.new.seats self.new.horizon self.new.opened }
        ensures session_table { IfOk result (λ session. session.table ≡ board.now.table) }
        ensures session { IfOk result (λ session. session.held ≡ held (idle job) None [] [] self.old.core.units) }
        ensures free { OnOk result (has_session self.old.seats job ≡ false) }
        ensures opened { OnOk result ((desk.new.knows.given ≡ desk.old.knows.given + 1) × SessionIs true job self.old.seats self.new.seats) }
        ensures common { OnOk result (self.new.core ≡ record self.old.core { ends = self.old.core.ends + 1 }) }
        ensures refused { OnErr result ((self.new.core ≡ self.old.core) × ((desk.new.knows.given ≡ desk.old.knows.given) × SameSessions self.old.seats self.new.seats)) }
        ensures cause { IfErr result (λ why. IfSome why (λ refusal. ((refusal ≡ Refusal.BadJob) × (has_session self.old.seats job ≡ true)) ⊎ ((refusal ≡ Refusal.OutOfMemory) × (has_session self.old.seats job ≡ false)))) }
        ensures taken { IfErr result (λ why. IfNone why (has_session self.old.seats job ≡ false)) }
    {
        let mut pin = self.seats.lend(board, desk, job)?;
        let state = match begin(&mut self.core, alloc, job) {
            Ok(state) => state,
            Err(_) => {
                self.seats.take_back(board, pin);
                return Err(Some(Refusal::OutOfMemory));
            }
        };
        board.give_slip(desk, &mut pin);
        self.opened = self.opened.saturating_add(1);
        Ok(InnerSession {
            state,
            pin,
            numbers: Vec::new(alloc),
        })
    }

    /// A data command outside a transaction: a unit of its own.
    ///
    /// Refusals, after which nothing has changed but that the session has seen the whole journal: those of `Core::lone`;
    /// and `OutOfMemory` for the receipt, which hides no rule that is looked at before memory is asked for.
    pub fn lone(
        &mut self,
        board: &Board,
        desk: &mut Lifted,
        session: &mut InnerSession,
        command: DataCommand,
    ) -> Result<Answer, Refusal>
        requires own { (desk.old.table ≡ board.now.table) × (session.old.table ≡ board.now.table) }
        requires stands { IsLocked self.old.core desk.old self.old.seats self.old.horizon self.old.opened }
        requires level { session.old.held.state.level ≡ 0 }
        ensures table { (desk.new.table ≡ desk.old.table) × (session.new.table ≡ session.old.table) }
        ensures stands { IsLocked self.new.core desk.new self.new.seats self.new.horizon self.new.opened }
        ensures answer { IfOk result (λ answer. answer ≡ data_reply command (after self.old.core.units initial).map) }
        ensures accepted { OnOk result (data_refusal command (after self.old.core.units initial).map ≡ None) }
        ensures units { IfOk result (λ answer. self.new.core.units ≡ self.old.core.units ++ Lone session.old.held.state.work.job command answer ∷ []) }
        ensures receipt { IfOk result (λ answer. session.new.held ≡ and_receipt self.old.core.units (Lone session.old.held.state.work.job command answer) session.old.held) }
        ensures goes_on { IsBeginning self.old.core.units session.old.held.seen }
        ensures refused { OnErr result ((self.new.core.units ≡ self.old.core.units) × (session.new.held ≡ knowing self.old.core.units session.old.held)) }
        ensures early { (refusal : Refusal) → early_refusal command ≡ Some refusal → IsErrOf result refusal }
        ensures cause { IfErr result (λ refusal. IsCauseOf refusal command (after self.old.core.units initial).map (length self.old.core.units)) }
        ensures others { (desk.new.knows.given ≡ desk.old.knows.given) × (self.new.seats ≡ self.old.seats) }
    {
        match self.write_lone(board, desk, session, command) {
            Ok(answer) => Ok(answer),
            Err(refusal) => {
                self.find_journal(board, desk, session);
                Err(refusal)
            }
        }
    }

    // The same, where a refusal changes nothing at all.
    fn write_lone(
        &mut self,
        board: &Board,
        desk: &mut Lifted,
        session: &mut InnerSession,
        command: DataCommand,
    ) -> Result<Answer, Refusal>
        requires own { (desk.old.table ≡ board.now.table) × (session.old.table ≡ board.now.table) }
        requires stands { IsLocked self.old.core desk.old self.old.seats self.old.horizon self.old.opened }
        requires level { session.old.held.state.level ≡ 0 }
        ensures table { (desk.new.table ≡ desk.old.table) × (session.new.table ≡ session.old.table) }
        ensures stands { IsLocked self.new.core desk.new self.new.seats self.new.horizon self.new.opened }
        ensures answer { IfOk result (λ answer. answer ≡ data_reply command (after self.old.core.units initial).map) }
        ensures accepted { OnOk result (data_refusal command (after self.old.core.units initial).map ≡ None) }
        ensures units { IfOk result (λ answer. self.new.core.units ≡ self.old.core.units ++ Lone session.old.held.state.work.job command answer ∷ []) }
        ensures receipt { IfOk result (λ answer. session.new.held ≡ and_receipt self.old.core.units (Lone session.old.held.state.work.job command answer) session.old.held) }
        ensures goes_on { OnOk result (IsBeginning self.old.core.units session.old.held.seen) }
        ensures refused { OnErr result ((self.new.core.units ≡ self.old.core.units) × (session.new.held ≡ session.old.held)) }
        ensures early { (refusal : Refusal) → early_refusal command ≡ Some refusal → IsErrOf result refusal }
        ensures cause { IfErr result (λ refusal. IsCauseOf refusal command (after self.old.core.units initial).map (length self.old.core.units)) }
        ensures others { (desk.new.knows.given ≡ desk.old.knows.given) × (self.new.seats ≡ self.old.seats) }
    {
        if session.numbers.reserve(1).is_err() {
            let alloc = *session.numbers.allocator();
            return Err(rule_or_memory(alloc, &self.core, command));
        }
        let looks = looks(&command);
        let (answer, receipt) = self
            .core
            .lone(session.state.job(), command, Some(self.horizon))?;
        board.write(desk, &mut session.pin, &receipt);
        self.sweep.note_unit(receipt.number(), looks);
        session.numbers.push_reserved(receipt.number());
        Ok(answer)
    }

    /// A data command of an open transaction, on the map of its start followed by its own commands. The lock may be
    /// shared.
    ///
    /// Refusals, after which nothing has changed: those of `Core::read`.
    pub(crate) fn read(
        &self,
        board: &Board,
        desk: &mut Lifted,
        session: &mut InnerSession,
        command: DataCommand,
    ) -> Result<Answer, Refusal>
        requires own { (desk.old.table ≡ board.now.table) × (session.old.table ≡ board.now.table) }
        requires stands { IsLocked self.now.core desk.old self.now.seats self.now.horizon self.now.opened }
        requires level { 1 ≤ session.old.held.state.level }
        ensures desk { desk.new ≡ desk.old }
        ensures table { session.new.table ≡ session.old.table }
        ensures journal { IsJournalOf self.now.core.units session.old.held }
        ensures answered { IfSome session.old.held.start (λ base. IsAnsweredOrRefused command result (after base initial).map session.old.held.state session.new.held.state) }
        ensures open { IsSome session.old.held.start }
        ensures same { (session.new.held.start ≡ session.old.held.start) × (session.new.held.receipts ≡ session.old.held.receipts) }
        ensures others { session.new.held.others ≡ session.old.held.others }
        ensures seen { session.new.held.seen ≡ self.now.core.units }
    {
        self.meet(board, desk, session);
        self.read_met(session, command)
    }

    /// Shows that the content of an open transaction's start is there, that the journal's base hasn't passed that start,
    /// and that this stays so while the lock is held. The session has then seen the whole journal.
    ///
    /// Others may have written meanwhile, and a collector may have drawn a horizon: the board says that none is above
    /// this session's start.
    pub fn meet(&self, board: &Board, desk: &mut Lifted, session: &mut InnerSession)
        requires own { (desk.old.table ≡ board.now.table) × (session.old.table ≡ board.now.table) }
        requires stands { IsLocked self.now.core desk.old self.now.seats self.now.horizon self.now.opened }
        requires level { 1 ≤ session.old.held.state.level }
        ensures desk { desk.new ≡ desk.old }
        ensures table { session.new.table ≡ session.old.table }
        ensures same { session.new.held ≡ knowing self.now.core.units session.old.held }
        ensures start { IfSome session.old.held.start (λ base. base ≡ take (length base) self.now.core.units) }
        ensures kept { IsOpenOn self.now.core session.old.held.state }
        ensures behind { self.now.core.base ≤ session.old.held.state.work.start }
        ensures journal { IsJournalOf self.now.core.units session.old.held }
    {
        board.meet(desk, &mut session.pin);
        // The core shows that its journal is legal.
        let _ = self.core.journal();
    }

    /// Shows that the journal goes on from all that the session has seen, and has the units of its receipts. The session
    /// has then seen the whole of it.
    pub(crate) fn find_journal(&self, board: &Board, desk: &mut Lifted, session: &mut InnerSession)
        requires own { (desk.old.table ≡ board.now.table) × (session.old.table ≡ board.now.table) }
        requires stands { IsLocked self.now.core desk.old self.now.seats self.now.horizon self.now.opened }
        ensures desk { desk.new ≡ desk.old }
        ensures table { session.new.table ≡ session.old.table }
        ensures same { session.new.held ≡ knowing self.now.core.units session.old.held }
        ensures journal { IsJournalOf self.now.core.units session.old.held }
    {
        board.meet(desk, &mut session.pin);
        // The core shows that its journal is legal.
        let _ = self.core.journal();
    }

    /// How many units the journal has, which goes on from all that the session had seen.
    pub fn look(&self, board: &Board, desk: &mut Lifted, session: &mut InnerSession) -> u64
        requires own { (desk.old.table ≡ board.now.table) × (session.old.table ≡ board.now.table) }
        requires stands { IsLocked self.now.core desk.old self.now.seats self.now.horizon self.now.opened }
        ensures desk { desk.new ≡ desk.old }
        ensures table { session.new.table ≡ session.old.table }
        ensures same { session.new.held ≡ knowing self.now.core.units session.old.held }
        ensures journal { IsJournalOf self.now.core.units session.old.held }
        ensures count { result ≡ length self.now.core.units }
    {
        self.find_journal(board, desk, session);
        self.core.now()
    }

    /// A data command of an open transaction whose start's content is there.
    pub fn read_met(
        &self,
        session: &mut InnerSession,
        command: DataCommand,
    ) -> Result<Answer, Refusal>
        requires level { 1 ≤ session.old.held.state.level }
        requires start { IfSome session.old.held.start (λ base. base ≡ take (length base) self.now.core.units) }
        requires kept { IsOpenOn self.now.core session.old.held.state }
        ensures table { session.new.table ≡ session.old.table }
        ensures answered { IfSome session.old.held.start (λ base. IsAnsweredOrRefused command result (after base initial).map session.old.held.state session.new.held.state) }
        ensures open { IsSome session.old.held.start }
        ensures same { (session.new.held.start ≡ session.old.held.start) × (session.new.held.receipts ≡ session.old.held.receipts) }
        ensures others { (session.new.held.others ≡ session.old.held.others) × (session.new.held.seen ≡ session.old.held.seen) }
        ensures level { session.new.held.state.level ≡ session.old.held.state.level }
        ensures kept { IsOpenOn self.now.core session.new.held.state }
    {
        self.core.read(&mut session.state, command)
    }

    /// TROLLBACK: nothing of the transaction is left.
    ///
    /// Refusals, after which nothing has changed but that the session has seen the whole journal, and only where it
    /// took a LOCK: `StampsUsedUp`, `OutOfMemory`.
    pub fn trollback(
        &mut self,
        board: &Board,
        desk: &mut Lifted,
        session: &mut InnerSession,
    ) -> Result<(), Refusal>
        requires own { (desk.old.table ≡ board.now.table) × (session.old.table ≡ board.now.table) }
        requires stands { IsLocked self.old.core desk.old self.old.seats self.old.horizon self.old.opened }
        requires level { 1 ≤ session.old.held.state.level }
        ensures table { (desk.new.table ≡ desk.old.table) × (session.new.table ≡ session.old.table) }
        ensures stands { IsLocked self.new.core desk.new self.new.seats self.new.horizon self.new.opened }
        ensures units { OnOk result (self.new.core.units ≡ gone_back session.old.held.state self.old.core.units) }
        ensures session { OnOk result (session.new.held ≡ rolled_back self.new.core.units session.old.held) }
        ensures goes_on { session.old.held.state.took_lock ≡ true → IsBeginning self.old.core.units session.old.held.seen }
        ensures refused { OnErr result ((self.new.core ≡ self.old.core) × (session.new.held ≡ knowing self.old.core.units session.old.held)) }
        ensures cause { IfErr result (λ refusal. HasNoRoom refusal 1 (length self.old.core.units) × (session.old.held.state.took_lock ≡ true)) }
        ensures others { (desk.new.knows.given ≡ desk.old.knows.given) × (self.new.seats ≡ self.old.seats) }
    {
        match go_back(board, &mut self.core, desk, session, self.horizon) {
            Ok(()) => {
                board.leave(&mut session.pin);
                session.state.end();
                Ok(())
            }
            Err(refusal) => {
                self.find_journal(board, desk, session);
                Err(refusal)
            }
        }
    }

    /// TRESTART: nothing of the transaction is left, and it begins anew at level 1, at the present moment. Answers how
    /// often it has.
    ///
    /// Refusals, after which nothing has changed but that the session has seen the whole journal, and only where it
    /// took a LOCK: `StampsUsedUp`, `OutOfMemory`.
    pub fn trestart(
        &mut self,
        board: &Board,
        desk: &mut Lifted,
        session: &mut InnerSession,
    ) -> Result<u64, Refusal>
        requires own { (desk.old.table ≡ board.now.table) × (session.old.table ≡ board.now.table) }
        requires stands { IsLocked self.old.core desk.old self.old.seats self.old.horizon self.old.opened }
        requires level { 1 ≤ session.old.held.state.level }
        ensures table { (desk.new.table ≡ desk.old.table) × (session.new.table ≡ session.old.table) }
        ensures stands { IsLocked self.new.core desk.new self.new.seats self.new.horizon self.new.opened }
        ensures units { OnOk result (self.new.core.units ≡ gone_back session.old.held.state self.old.core.units) }
        ensures session { IfOk result (λ restarts. (session.new.held ≡ begun_anew self.new.core.units session.old.held) × (restarts ≡ session.new.held.state.restarts)) }
        ensures journal { OnOk result (IsJournalOf self.new.core.units session.old.held) }
        ensures goes_on { IsBeginning self.old.core.units session.old.held.seen }
        ensures refused { OnErr result ((self.new.core ≡ self.old.core) × (session.new.held ≡ knowing self.old.core.units session.old.held)) }
        ensures cause { IfErr result (λ refusal. HasNoRoom refusal 1 (length self.old.core.units) × (session.old.held.state.took_lock ≡ true)) }
        ensures others { (desk.new.knows.given ≡ desk.old.knows.given) × (self.new.seats ≡ self.old.seats) }
    {
        match go_back(board, &mut self.core, desk, session, self.horizon) {
            Ok(()) => {
                let now = board.restart(desk, &mut session.pin);
                // The core shows that its journal is legal.
                let _ = self.core.journal();
                session.state.begin_anew(now);
                Ok(session.state.restarts())
            }
            Err(refusal) => {
                self.find_journal(board, desk, session);
                Err(refusal)
            }
        }
    }

    /// The outermost TCOMMIT: the transaction is a unit; or it begins anew, exactly where another unit touched what it
    /// had read.
    ///
    /// Refusals, after which nothing has changed but that the session has seen the whole journal: those of
    /// `Core::commit`; those of TRESTART where it was overtaken and took a LOCK; and `OutOfMemory` for the receipt.
    pub fn tcommit(
        &mut self,
        board: &Board,
        desk: &mut Lifted,
        session: &mut InnerSession,
    ) -> Result<Ended, Refusal>
        requires own { (desk.old.table ≡ board.now.table) × (session.old.table ≡ board.now.table) }
        requires stands { IsLocked self.old.core desk.old self.old.seats self.old.horizon self.old.opened }
        requires level { session.old.held.state.level ≡ 1 }
        ensures table { (desk.new.table ≡ desk.old.table) × (session.new.table ≡ session.old.table) }
        ensures stands { IsLocked self.new.core desk.new self.new.seats self.new.horizon self.new.opened }
        ensures ended { IfOk result (λ end. HasEnded end self.old.core.units self.new.core.units session.old.held session.new.held) }
        ensures journal { IsJournalOf self.old.core.units session.old.held }
        ensures refused { OnErr result ((self.new.core.units ≡ self.old.core.units) × (session.new.held ≡ knowing self.old.core.units session.old.held)) }
        ensures cause { IfErr result (λ refusal. IsCauseAtCommit refusal session.old.held.state.work self.old.core.units ⊎ IsCauseAtRestart refusal session.old.held.state self.old.core.units) }
        ensures others { (desk.new.knows.given ≡ desk.old.knows.given) × (self.new.seats ≡ self.old.seats) }
    {
        board.meet(desk, &mut session.pin);
        // The core shows that its journal is legal.
        let _ = self.core.journal();
        session.numbers.reserve(1)?;
        match self.core.commit(&session.state, Some(self.horizon))? {
            Verdict::Committed(receipt) => {
                board.write(desk, &mut session.pin, &receipt);
                let looks = !session.state.has_written();
                self.sweep.note_unit(receipt.number(), looks);
                session.numbers.push_reserved(receipt.number());
                board.leave(&mut session.pin);
                session.state.end();
                Ok(Ended::Committed)
            }
            Verdict::Restart => {
                let restarts = self.trestart(board, desk, session)?;
                Ok(Ended::Restarted(restarts))
            }
        }
    }

    /// Draws a horizon: what is written from here on drops what nobody sees from there on.
    pub(crate) fn draw(&mut self, board: &Board, desk: &mut Lifted)
        requires own { desk.old.table ≡ board.now.table }
        requires stands { IsLocked self.old.core desk.old self.old.seats self.old.horizon self.old.opened }
        ensures table { desk.new.table ≡ desk.old.table }
        ensures stands { IsLocked self.new.core desk.new self.new.seats self.new.horizon self.new.opened }
        ensures core { self.new.core ≡ self.old.core }
        ensures others { (desk.new.knows.given ≡ desk.old.knows.given) × (self.new.seats ≡ self.old.seats) }
    {
        self.horizon = board.draw(desk);
        self.sweep.note_horizon();
    }

    /// Draws a horizon, and lets the collector visit so many keys: what nobody sees from that horizon on is dropped.
    ///
    /// Refusals, after which what all jobs share is as it was: `OutOfMemory`.
    pub fn collect(
        &mut self,
        board: &Board,
        desk: &mut Lifted,
        limit: usize,
    ) -> Result<Progress, Refusal>
        requires own { desk.old.table ≡ board.now.table }
        requires stands { IsLocked self.old.core desk.old self.old.seats self.old.horizon self.old.opened }
        ensures table { desk.new.table ≡ desk.old.table }
        ensures stands { IsLocked self.new.core desk.new self.new.seats self.new.horizon self.new.opened }
        ensures units { self.new.core.units ≡ self.old.core.units }
        ensures few { IfOk result (λ progress. progress.visited ≤ limit) }
        ensures turn { IfOk result (λ progress. (horizon : ℕ) × HasTurned horizon limit progress self.old.core.store self.new.core.store) }
        ensures refused { OnErr result (self.new.core ≡ self.old.core) }
        ensures cause { IfErr result (λ refusal. refusal ≡ Refusal.OutOfMemory) }
        ensures others { (desk.new.knows.given ≡ desk.old.knows.given) × (self.new.seats ≡ self.old.seats) }
    {
        self.horizon = board.draw(desk);
        let turn = self.core.collect(self.horizon, limit)?;
        self.sweep.note_turn(self.horizon, turn, &self.core);
        Ok(turn)
    }

    /// Draws a horizon, and moves the journal's base on to it; answers where the base is then. Where the horizon is
    /// before the base, or before the store's cut, the base stays. It never passes the start of an open transaction:
    /// whenever the lock is free it isn't above the greatest horizon (`IsLocked`), and no horizon is above such a start.
    ///
    /// Refusals, after which what all jobs share is as it was: `OutOfMemory`.
    pub fn checkpoint(&mut self, board: &Board, desk: &mut Lifted) -> Result<u64, Refusal>
        requires own { desk.old.table ≡ board.now.table }
        requires stands { IsLocked self.old.core desk.old self.old.seats self.old.horizon self.old.opened }
        ensures table { desk.new.table ≡ desk.old.table }
        ensures stands { IsLocked self.new.core desk.new self.new.seats self.new.horizon self.new.opened }
        ensures units { self.new.core.units ≡ self.old.core.units }
        ensures store { self.new.core.store ≡ self.old.core.store }
        ensures base { IfOk result (λ number. self.new.core.base ≡ number) }
        ensures on { self.old.core.base ≤ self.new.core.base }
        ensures refused { OnErr result (self.new.core ≡ self.old.core) }
        ensures cause { IfErr result (λ refusal. refusal ≡ Refusal.OutOfMemory) }
        ensures others { (desk.new.knows.given ≡ desk.old.knows.given) × (self.new.seats ≡ self.old.seats) }
    {
        self.horizon = board.draw(desk);
        if self.horizon < self.core.cut() {
            return Ok(self.core.base().number());
        }
        self.core.checkpoint(Some(self.horizon))
    }

    /// What all jobs share.
    pub fn core(&self) -> &Core
        ensures { result.now ≡ self.now.core }
    {
        &self.core
    }

    /// Whether the collector has visited all keys since the last write: it would find nothing.
    pub fn is_swept(&self) -> bool {
        self.sweep.is_done()
    }
}

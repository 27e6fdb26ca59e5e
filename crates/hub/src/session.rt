//! What one job holds: its session, and an owner of the hub.
ghost use Rattle.std.specs.Prelude.{◌≡◌, ◌⊎◌, ◌<◌, ◌≤◌, ◌+◌, ◌-◌, List, [], true, false, map, is_some, length, None, Some, IfOk, IfErr, IfSome, IsSome, IsErrOf, OnOk, OnErr};
ghost use Rattle.refusal.specs.declared.Refusal.{Refusal};
ghost use Rattle.collation.specs.Limits.{most_levels};
ghost use Rattle.collation.specs.Database.{Database};
ghost use Rattle.command.specs.declared.access.DataCommand.TheVariants.{Set as set_command, Kill as kill_command, Look as look_command};
ghost use Rattle.command.specs.declared.access.Look.TheVariants.{Get as get_command};
ghost use Rattle.command.specs.Data.{data_reply};
ghost use Rattle.globals.specs.Answering.{early_refusal};
ghost use Rattle.workspace.specs.Layers.{decides};
ghost use Rattle.journal.specs.History.{initial, after};
ghost use Rattle.journal.specs.Kept.{HasNoNumber};
ghost use Rattle.journal.specs.declared.unit.Unit.{Unit as JournalUnit};
ghost use Rattle.validate_commit.specs.Verdicts.{IsCauseAtCommit};
ghost use Rattle.validate_commit.specs.Working.{IsCauseAlone, IsWorkOn, seen};
ghost use Rattle.job_core.specs.Sessions.{at_level, HasWritten, IsAnsweredOrRefused};
ghost use Rattle.pin_board.specs.Slips.{IsBeginning};
ghost use Rattle.shared_engine.specs.Blocks.{IsLone, IsRolledBack, IsRestarted};
ghost use Rattle.shared_engine.specs.Receipts.{number_of, RisesFrom};
ghost use Rattle.shared_engine.specs.Sessions.{held, knowing, ended, halted, HasBegun, IsAt, IsJournalOf, GoesOnFromStart};
ghost use Rattle.shared_engine.specs.Engines.{HasEnded, IsCauseAtRestart};
ghost use Rattle.shared_engine.specs.Writes.{AreWrites};

use crate::hub::{Busy, Hub};
use crate::inside::{Inside, committed, lone, over, restarted, rolled_back};
use collation::{Job, Text};
use command::{Answer, DataCommand, Extent};
use key_codec::Key;
use refusal::Refusal;
use shared_engine::{Ended, InnerPass, InnerSession};
use std::alloc::Global;
use std::marker::Model;
use std::sync::Arc;

/// A job at work, which owns its hub together with others. It is given to one call at a time, and may go to another
/// thread between two. Contracts see it as the table of its hub's board, and what it holds.
///
/// It may hold what all share for several reads (`hold`): then these need nothing that threads change.
///
/// It ends by `halt`. One that is dropped instead keeps its job, its seat and its locks for good, and where its
/// transaction is open no content from that start on is collected. It keeps nobody busy, and its hub can be closed.
#[derive(Drop)]
pub struct HubSession {
    pub(crate) hub: Arc<Hub, Global>,
    pub(crate) inner: InnerSession,
    // What all share, while it is held for reading.
    pub(crate) kept: Option<Arc<Inside, Global>>,
}

impl Model for HubSession {
    ghost use Rattle.std.specs.Prelude.{◌≡◌, IfSome};
    ghost use Rattle.shared_engine.specs.Codes.{session_at_code};
    ghost use Rattle.shared_engine.specs.Named.{SessionAt};
    ghost use Rattle.hub.specs.Holding.{IsHeldBy};

    ghost Value = { SessionAt };

    ghost coded = { session_at_code };

    ghost view = { λ s. s.inner };

    ghost invariant = { λ s. (s.inner.table ≡ s.hub.value.board.table) × IfSome s.kept (λ a. IsHeldBy a.value.locked.core s.inner.held) };
}

impl HubSession {
    /// The job that has the session.
    pub fn job(&self) -> Job
        ensures { result ≡ self.now.held.state.work.job }
    {
        self.inner.job()
    }

    /// The numbers of the session's units so far, but those of rollbacks, in order. The first unit of a journal is 1.
    pub fn numbers(&self) -> &[u64]
        ensures all { map number_of self.now.held.receipts ≡ result.now }
        ensures rising { RisesFrom 0 self.now.held.receipts }
    {
        self.inner.numbers()
    }

    /// $TLEVEL: how deep transactions are nested, 0 outside.
    pub fn tlevel(&self) -> u64
        ensures { result ≡ self.now.held.state.level }
    {
        self.inner.tlevel()
    }

    /// $TRESTART: how often the open transaction began anew, 0 outside.
    pub fn trestarts(&self) -> u64
        ensures { result ≡ self.now.held.state.restarts }
    {
        self.inner.trestarts()
    }

    /// Whether the transaction took a LOCK since its start or last restart.
    pub fn took_lock(&self) -> bool
        ensures { result ≡ self.now.held.state.took_lock }
    {
        self.inner.took_lock()
    }

    /// The outermost TSTART: a transaction begins on a journal in which the session's own units are. Never busy, and
    /// takes no memory.
    ///
    /// Refusals, after which nothing has changed: `Again` where a horizon passed the start as it was taken.
    pub fn tstart(&mut self) -> Result<(), Refusal>
        requires { self.old.held.state.level ≡ 0 }
        ensures table { self.new.table ≡ self.old.table }
        ensures begun { OnOk result ((base : List JournalUnit) × HasBegun base self.old.held self.new.held) }
        ensures refused { IfErr result (λ refusal. (refusal ≡ Refusal.Again) × (self.new.held ≡ self.old.held)) }
    {
        self.kept = None;
        self.inner.tstart(&self.hub.board)
    }

    /// TSTART within a transaction: its level is one higher. Never busy, and takes no memory.
    ///
    /// Refusals: `LevelTooDeep` at level 127, after which nothing has changed.
    pub fn tstart_inner(&mut self) -> Result<u64, Refusal>
        requires { 1 ≤ self.old.held.state.level }
        ensures table { self.new.table ≡ self.old.table }
        ensures deeper { IfOk result (λ level. (level ≡ self.old.held.state.level + 1) × ((self.old.held.state.level < most_levels) × (self.new.held ≡ held (at_level level self.old.held.state) self.old.held.start self.old.held.receipts self.old.held.others self.old.held.seen))) }
        ensures refused { IfErr result (λ refusal. (refusal ≡ Refusal.LevelTooDeep) × ((most_levels ≤ self.old.held.state.level) × (self.new.held ≡ self.old.held))) }
        ensures start { GoesOnFromStart self.old.held.start self.old.held.seen }
    {
        self.inner.tstart_inner()
    }

    /// TCOMMIT of an inner level: it is one lower. Never busy, and takes no memory.
    pub fn tcommit_inner(&mut self) -> u64
        requires { 1 < self.old.held.state.level }
        ensures table { self.new.table ≡ self.old.table }
        ensures level { result ≡ self.old.held.state.level - 1 }
        ensures session { self.new.held ≡ held (at_level (self.old.held.state.level - 1) self.old.held.state) self.old.held.start self.old.held.receipts self.old.held.others self.old.held.seen }
        ensures start { GoesOnFromStart self.old.held.start self.old.held.seen }
    {
        self.inner.tcommit_inner()
    }

    /// SET in a transaction, which is open, and right where it began. Never busy.
    ///
    /// Refusals, after which nothing has changed: `TransactionTooLong` where the transaction holds 65,535 data
    /// commands, else `OutOfMemory`.
    pub fn set(&mut self, key: Key, value: Text) -> Result<(), Refusal>
        requires { 1 ≤ self.old.held.state.level }
        ensures table { self.new.table ≡ self.old.table }
        ensures written { OnOk result (HasWritten (set_command key value) self.old.held.state self.new.held.state) }
        ensures same { (self.new.held.start ≡ self.old.held.start) × (self.new.held.receipts ≡ self.old.held.receipts) }
        ensures others { (self.new.held.others ≡ self.old.held.others) × (self.new.held.seen ≡ self.old.held.seen) }
        ensures refused { OnErr result (self.new.held ≡ self.old.held) }
        ensures cause { IfErr result (λ refusal. IsCauseAlone refusal self.old.held.state.work) }
        ensures start { GoesOnFromStart self.old.held.start self.old.held.seen }
        ensures begun { IsAt self.old.held.start self.old.held.state }
    {
        self.inner.set(key, value)
    }

    /// KILL, KVALUE or KSUBSCRIPTS in a transaction: as `set`.
    pub fn kill(&mut self, key: Key, extent: Extent) -> Result<(), Refusal>
        requires { 1 ≤ self.old.held.state.level }
        ensures table { self.new.table ≡ self.old.table }
        ensures written { OnOk result (HasWritten (kill_command key extent) self.old.held.state self.new.held.state) }
        ensures same { (self.new.held.start ≡ self.old.held.start) × (self.new.held.receipts ≡ self.old.held.receipts) }
        ensures others { (self.new.held.others ≡ self.old.held.others) × (self.new.held.seen ≡ self.old.held.seen) }
        ensures refused { OnErr result (self.new.held ≡ self.old.held) }
        ensures cause { IfErr result (λ refusal. IsCauseAlone refusal self.old.held.state.work) }
        ensures start { GoesOnFromStart self.old.held.start self.old.held.seen }
        ensures begun { IsAt self.old.held.start self.old.held.state }
    {
        self.inner.kill(key, extent)
    }

    /// What a $GET answers where the transaction's own writes decide it: some exactly there, and then what it answers
    /// whatever database the transaction began with. It is no step of the machine, which keeps each $GET: nothing is kept
    /// of it. Never busy.
    ///
    /// Refusals: `OutOfMemory`.
    pub fn own_get(&self, key: &Key, default: &Option<Text>) -> Result<Option<Answer>, Refusal>
        ensures decided { IfOk result (λ found. is_some found ≡ decides self.now.held.state.work.layer key.now) }
        ensures answer { IfOk result (λ found. IfSome found (λ answer. (m : Database) → IsWorkOn self.now.held.state.work m → answer ≡ data_reply (look_command (get_command key.now default.now)) (seen self.now.held.state.work m))) }
        ensures memory { OnErr result (IsErrOf result Refusal.OutOfMemory) }
    {
        self.inner.own_get(key, default)
    }

    /// A data command of a session without a transaction: a unit of its own, with a receipt. Where others are at what all
    /// share the command comes back, and nothing has changed.
    ///
    /// The clause is that of one step on a journal that goes on from all that the session had seen.
    ///
    /// Refusals, after which nothing has changed but what the session has seen: those of `Core::lone`; and
    /// `OutOfMemory` for the receipt, which hides no rule that is looked at before memory is asked for.
    pub fn lone(&mut self, command: DataCommand) -> Result<Result<Answer, Refusal>, DataCommand>
        requires { self.old.held.state.level ≡ 0 }
        ensures table { self.new.table ≡ self.old.table }
        ensures done { IfOk result (λ done. (units : List JournalUnit) × IsBeginning units self.old.held.seen × IsLone command done units self.new.held.seen self.old.held self.new.held) }
        ensures early { IfOk result (λ done. (refusal : Refusal) → early_refusal command ≡ Some refusal → IsErrOf done refusal) }
        ensures busy { IfErr result (λ back. (back ≡ command) × (self.new ≡ self.old)) }
    {
        self.kept = None;
        let Some(mut inside) = self.hub.take() else {
            return Err(command);
        };
        let done = lone(&self.hub.board, &mut inside, &mut self.inner, command);
        self.hub.put(inside);
        done
    }

    /// A data command of an open transaction, on the map of its start followed by its own commands. The present journal
    /// goes on from all that the session had seen, that start among it, and has the units of its receipts; the session
    /// has seen it then. Others read meanwhile. Where somebody writes the command comes back, and nothing has changed.
    ///
    /// Refusals, after which nothing else has changed: those of `Core::read`. A start that is no longer kept is none of
    /// them.
    pub fn read(&mut self, command: DataCommand) -> Result<Result<Answer, Refusal>, DataCommand>
        requires { 1 ≤ self.old.held.state.level }
        ensures table { self.new.table ≡ self.old.table }
        ensures answered { IfOk result (λ done. IfSome self.old.held.start (λ base. IsAnsweredOrRefused command done (after base initial).map self.old.held.state self.new.held.state)) }
        ensures open { OnOk result (IsSome self.old.held.start) }
        ensures journal { OnOk result (IsJournalOf self.new.held.seen self.old.held) }
        ensures same { OnOk result ((self.new.held.start ≡ self.old.held.start) × (self.new.held.receipts ≡ self.old.held.receipts)) }
        ensures others { OnOk result (self.new.held.others ≡ self.old.held.others) }
        ensures busy { IfErr result (λ back. (back ≡ command) × (self.new ≡ self.old)) }
    {
        if let Some(inside) = &self.kept {
            return Ok(inside.read(&mut self.inner, command));
        }
        let Some(inside) = self.hub.gate.share() else {
            return Err(command);
        };
        match inside.meet(&self.hub.board, &mut self.inner) {
            Ok(()) => Ok(inside.locked.read_met(&mut self.inner, command)),
            Err(Busy) => Err(command),
        }
    }

    /// The outermost TCOMMIT: the transaction is a unit with a receipt, or, where another unit touched what it had read,
    /// it begins anew. One that did SETs and KILLs alone never does. The clause speaks of a journal that goes on from all
    /// that the session had seen and has the units of its receipts.
    ///
    /// Refusals, after which nothing has changed but what the session has seen: `StampsUsedUp`, `OutOfMemory`.
    pub fn tcommit(&mut self) -> Result<Result<Ended, Refusal>, Busy>
        requires { self.old.held.state.level ≡ 1 }
        ensures table { self.new.table ≡ self.old.table }
        ensures ended { IfOk result (λ done. IfOk done (λ end. (units : List JournalUnit) × IsJournalOf units self.old.held × HasEnded end units self.new.held.seen self.old.held self.new.held)) }
        ensures writes { AreWrites self.old.held.state.work.exchanges → IfOk result (λ done. IfOk done (λ end. end ≡ Ended.Committed)) }
        ensures refused { IfOk result (λ done. OnErr done (IsJournalOf self.new.held.seen self.old.held × (self.new.held ≡ knowing self.new.held.seen self.old.held))) }
        ensures cause { IfOk result (λ done. IfErr done (λ refusal. IsCauseAtCommit refusal self.old.held.state.work self.new.held.seen ⊎ IsCauseAtRestart refusal self.old.held.state self.new.held.seen)) }
        ensures busy { OnErr result (self.new ≡ self.old) }
    {
        self.kept = None;
        let Some(mut inside) = self.hub.take() else {
            return Err(Busy);
        };
        let done = committed(&self.hub.board, &mut inside, &mut self.inner);
        self.hub.put(inside);
        done
    }

    /// TROLLBACK of a transaction that took no LOCK: nothing of it is left. Never busy, and takes no memory.
    pub fn rollback_free(&mut self)
        requires level { 1 ≤ self.old.held.state.level }
        requires free { self.old.held.state.took_lock ≡ false }
        ensures table { self.new.table ≡ self.old.table }
        ensures ended { self.new.held ≡ ended self.old.held }
    {
        self.kept = None;
        self.inner.rollback_free(&self.hub.board);
    }

    /// TROLLBACK: nothing of the transaction is left. Where it took a LOCK a unit says so, one of the session's others;
    /// else it is never busy.
    ///
    /// Refusals, after which nothing has changed but what the session has seen, and only where it took a LOCK:
    /// `StampsUsedUp`, `OutOfMemory`.
    pub fn trollback(&mut self) -> Result<Result<(), Refusal>, Busy>
        requires { 1 ≤ self.old.held.state.level }
        ensures table { self.new.table ≡ self.old.table }
        ensures done { IfOk result (λ done. (units : List JournalUnit) × IsBeginning units self.old.held.seen × IsRolledBack done units self.new.held.seen self.old.held self.new.held) }
        ensures busy { OnErr result (self.new ≡ self.old) }
        ensures took { OnErr result (self.old.held.state.took_lock ≡ true) }
    {
        if self.took_lock() {
            self.kept = None;
            let Some(mut inside) = self.hub.take() else {
                return Err(Busy);
            };
            let done = rolled_back(&self.hub.board, &mut inside, &mut self.inner);
            self.hub.put(inside);
            return done;
        }
        self.rollback_free();
        Ok(Ok(()))
    }

    /// TRESTART: nothing of the transaction is left but its LOCKs' units, and it begins anew at level 1, at the present
    /// moment, on a journal that goes on from all that the session had seen and has the units of its receipts. Where it
    /// took a LOCK the last unit of that says so, one of the session's others. Answers how often it has.
    ///
    /// Refusals, after which nothing has changed but what the session has seen, and only where it took a LOCK:
    /// `StampsUsedUp`, `OutOfMemory`.
    pub fn trestart(&mut self) -> Result<Result<u64, Refusal>, Busy>
        requires { 1 ≤ self.old.held.state.level }
        ensures table { self.new.table ≡ self.old.table }
        ensures done { IfOk result (λ done. (units : List JournalUnit) × IsBeginning units self.old.held.seen × IsRestarted done units self.new.held.seen self.old.held self.new.held) }
        ensures journal { IfOk result (λ done. OnOk done (IsJournalOf self.new.held.seen self.old.held)) }
        ensures busy { OnErr result (self.new ≡ self.old) }
    {
        self.kept = None;
        let Some(mut inside) = self.hub.take() else {
            return Err(Busy);
        };
        let done = restarted(&self.hub.board, &mut inside, &mut self.inner);
        self.hub.put(inside);
        done
    }

    /// HALT: the session is over, its locks are released and its transaction is gone; its job may have another. Gives its
    /// pass, whose last unit is that end, or the session back with the refusal. Where others are at what all share the
    /// session comes back as it was.
    ///
    /// It takes no memory: room for its unit was kept when the session began.
    ///
    /// Refusals, after which the session goes on as it was, but for what it has seen: `StampsUsedUp` where the journal is
    /// full.
    pub fn halt(self) -> Result<Result<InnerPass, (HubSession, Refusal)>, HubSession>
        ensures table { IfOk result (λ done. IfOk done (λ pass. pass.table ≡ self.table)) }
        ensures pass { IfOk result (λ done. IfOk done (λ pass. (units : List JournalUnit) × IsBeginning units self.held.seen × (pass.book ≡ halted units self.held))) }
        ensures refused { IfOk result (λ done. IfErr done (λ r. (r.0.table ≡ self.table) × (IsBeginning r.0.held.seen self.held.seen × (r.0.held ≡ knowing r.0.held.seen self.held)))) }
        ensures cause { IfOk result (λ done. IfErr done (λ r. HasNoNumber r.1 1 (length r.0.held.seen))) }
        ensures busy { IfErr result (λ back. back ≡ self) }
    {
        let HubSession { hub, inner, kept } = self;
        drop(kept);
        let Some(mut inside) = hub.take() else {
            return Err(HubSession {
                hub,
                inner,
                kept: None,
            });
        };
        let done = over(&hub.board, &mut inside, inner);
        hub.put(inside);
        match done {
            Ok(pass) => Ok(Ok(pass)),
            Err((inner, why)) => {
                let back = HubSession {
                    hub,
                    inner,
                    kept: None,
                };
                match why {
                    Some(refusal) => Ok(Err((back, refusal))),
                    None => Err(back),
                }
            }
        }
    }
}

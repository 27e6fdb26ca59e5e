//! The engine as threads see it.
ghost use Rattle.std.specs.Prelude.{◌≡◌, ◌≢◌, ◌⊎◌, ◌<◌, ◌≤◌, ◌+◌, ◌-◌, ◌^◌, ◌∷◌, ◌++◌, ℕ, List, [], true, false, length, vec_len, None, Some, Ok, Err, IfOk, IfErr, IsErrOf, IfSome, IsSome, OnOk, OnErr};
ghost use Rattle.std.specs.List.{All};
ghost use Rattle.refusal.specs.declared.Refusal.{Refusal};
ghost use Rattle.globals.specs.Answering.{early_refusal};
ghost use Rattle.journal.specs.History.{initial, after};
ghost use Rattle.journal.specs.Kept.{Claim, HasNoRoom};
ghost use Rattle.journal.specs.declared.unit.Unit.{Unit as JournalUnit};
ghost use Rattle.journal.specs.declared.unit.Unit.TheVariants.{Lone};
ghost use Rattle.validate_commit.specs.Verdicts.{IsCauseAtCommit};
ghost use Rattle.job_core.specs.Sessions.{IsAnsweredOrRefused};
ghost use Rattle.pin_board.specs.Slips.{AreInJournal, IsBeginning};
ghost use Rattle.command.specs.declared.access.DataCommand.{DataCommand};
ghost use Rattle.command.specs.declared.request.Command.{Command};
ghost use Rattle.shared_engine.specs.Blocks.{IsLone, WasTried, HasItsNames, WasBlocked, WasRefused, IsRolledBack, IsRestarted, HasCome, NoneBeganAnew};
ghost use Rattle.shared_engine.specs.Receipts.{Book, IsOwn, RisesFrom};
ghost use Rattle.shared_engine.specs.Sessions.{held, knowing, begun_anew, ended, HasBegun, IsJournalOf};
ghost use Rattle.shared_engine.specs.Engines.{HasEnded, gone_back, IsCauseAtRestart, MayBeTaken, OnOkThat, OnOkNot, AreAllReceipts, AreAllUnits, HasSeenOf};
ghost use Rattle.shared_engine.specs.Writes.{AreWrites};

use crate::adaptive::{AdaptiveLock, Patience};
use crate::finishing::Closed;
use crate::gate::{Delay, Gate, Mark};
use crate::locked::Ended;
use crate::name::BoardName;
use crate::serial_run::SerialRun;
use crate::session::{Pass, Session};
use crate::turn::Turn;
use crate::under::Under;
use collector::Progress;
use command::{Answer, Command, DataCommand};
use lock_name::LockCommand;
use pin_board::{Blank, Board};
use refusal::Refusal;
use std::alloc::Global;
use std::marker::PhantomData;
use std::sync::Wait;

/// An engine for many threads: what all jobs share under a lock, and the board beside it, on which transactions begin
/// and end without the lock.
#[derive(Drop)]
pub struct Shared<B: BoardName> {
    pub(crate) board: Board,
    pub(crate) lock: AdaptiveLock<Under<B>>,
    ghost own: { board.table ≡ B.table },
}

impl<B: BoardName> Shared<B> {
    /// No unit, and no session. The board is blank, with 4,096 seats. Takes no memory.
    pub fn new(alloc: Global, blank: Blank) -> Shared<B>
        requires { (blank.seat.table_id ≡ B.table) × (blank.words.seats ≡ 4096) }
    {
        let (board, desk) = blank.open();
        Shared {
            board,
            lock: AdaptiveLock::new(Under::new(alloc, desk)),
        }
    }

    /// A data command of a session without a transaction: a unit of its own, with a receipt. Takes the exclusive lock.
    ///
    /// The clause is that of one step on a journal that goes on from all that the session had seen.
    ///
    /// Refusals, after which nothing has changed but what the session has seen: those of `Core::lone`; and
    /// `OutOfMemory` for the receipt, which hides no rule that is looked at before memory is asked for.
    pub fn lone<R: Wait>(
        &self,
        rt: &R,
        session: &mut Session<B>,
        command: DataCommand,
    ) -> Result<Answer, Refusal>
        requires { session.old.state.level ≡ 0 }
        ensures done { (units : List JournalUnit) × IsBeginning units session.old.seen × IsLone command result units session.new.seen session.old session.new }
        ensures early { (refusal : Refusal) → early_refusal command ≡ Some refusal → IsErrOf result refusal }
    {
        let mut guard = self.lock.write(rt, Patience::Long);
        let under = &mut *guard;
        let mut desk = under.desk.lift(rt);
        let done = under
            .locked
            .lone(&self.board, &mut desk, &mut session.inner, command);
        under.desk.set_down(desk);
        done
    }

    // The first try of a LOCK. The lock is given back before the caller goes on.
    fn lock_first<R: Wait>(
        &self,
        rt: &R,
        session: &mut Session<B>,
        command: &LockCommand,
    ) -> Result<bool, Refusal>
        ensures tried { IfOk result (λ had. WasTried command.now (Ok had) session.old session.new) }
        ensures refused { IfErr result (λ refusal. WasTried command.now (Err refusal) session.old session.new) }
    {
        let mut guard = self.lock.write(rt, Patience::Short);
        let under = &mut *guard;
        let mut desk = under.desk.lift(rt);
        let done = under
            .locked
            .lock(&self.board, &mut desk, &mut session.inner, command);
        under.desk.set_down(desk);
        done
    }

    // A later try of a LOCK.
    fn lock_again<R: Wait>(
        &self,
        rt: &R,
        session: &mut Session<B>,
        command: &LockCommand,
    ) -> Result<bool, Refusal>
        ensures had { OnOkThat result (WasTried command.now (Ok true) session.old session.new) }
        ensures blocked { OnOkNot result (session.new ≡ session.old) }
        ensures refused { IfErr result (λ refusal. WasTried command.now (Err refusal) session.old session.new) }
    {
        let mut guard = self.lock.write(rt, Patience::Short);
        let under = &mut *guard;
        let mut desk = under.desk.lift(rt);
        let done = under
            .locked
            .lock_again(&self.board, &mut desk, &mut session.inner, command);
        under.desk.set_down(desk);
        done
    }

    // Later tries, until one has the names or the gate stops them.
    fn lock_later<R: Wait, G: Gate>(
        &self,
        rt: &R,
        session: &mut Session<B>,
        command: &LockCommand,
        gate: &G,
        mut mark: Mark,
    ) -> Result<(), Refusal>
        ensures had { OnOk result (WasTried command.now (Ok true) session.old session.new) }
        ensures refused { IfErr result (λ refusal. WasTried command.now (Err refusal) session.old session.new) }
    {
        let mut delay = Delay::yielding();
        'tries: for _ in rt.forever() {
            delay.pass(gate, session.job());
            if gate.stop().is_some() {
                return Err(Refusal::OutOfMemory);
            }
            match self.lock_again(rt, session, command) {
                Ok(true) => return Ok(()),
                Ok(false) => mark = gate.tried(session.job(), mark),
                Err(refusal) => return Err(refusal),
            }
        }
        unreachable!()
    }

    // Later tries, until so many milliseconds have passed by the gate's clock, or in its pauses.
    fn lock_within_later<R: Wait, G: Gate>(
        &self,
        rt: &R,
        session: &mut Session<B>,
        command: &LockCommand,
        millis: u64,
        gate: &G,
    ) -> Result<bool, Refusal>
        ensures had { OnOkThat result (WasTried command.now (Ok true) session.old session.new) }
        ensures blocked { OnOkNot result (session.new ≡ session.old) }
        ensures refused { IfErr result (λ refusal. WasTried command.now (Err refusal) session.old session.new) }
    {
        let mut delay = Delay::within(gate, millis);
        'tries: for _ in 0..millis {
            if !delay.pass_within(gate, session.job()) {
                return Ok(false);
            }
            if gate.stop().is_some() {
                return Err(Refusal::OutOfMemory);
            }
            match self.lock_again(rt, session, command) {
                Ok(true) => return Ok(true),
                Ok(false) => {}
                Err(refusal) => return Err(refusal),
            }
        }
        Ok(false)
    }

    /// LOCK without a timeout: where its names are blocked it is a unit that says so, and is tried again until it has
    /// them, which is another unit. Tries between write nothing. Before each of the first tries stands a
    /// `Gate::between_tries`, before the others a `Gate::pause`, of 1, 2, 4 and so on up to 50 milliseconds. Takes the
    /// exclusive lock for each try. The gate is told when it begins to wait, of each further try in vain, and when it
    /// goes on. Each try that says something is a step on a journal that goes on from all that the session had seen.
    ///
    /// Refusals: those of `Core::lock`, and `OutOfMemory` for the receipt, or where `Gate::stop` says so while it
    /// waits. Nothing has changed then but what the session has seen, and for the unit of a first try in vain and its
    /// receipt.
    pub fn lock<R: Wait, G: Gate>(
        &self,
        rt: &R,
        session: &mut Session<B>,
        command: &LockCommand,
        gate: &G,
    ) -> Result<(), Refusal>
        ensures had { OnOk result (HasItsNames command.now session.old session.new) }
        ensures refused { IfErr result (λ refusal. WasRefused command.now refusal session.old session.new) }
    {
        if self.lock_first(rt, session, command)? {
            return Ok(());
        }
        let mark = gate.waits(session.job(), command);
        let done = self.lock_later(rt, session, command, gate, mark);
        gate.goes_on(session.job(), command);
        done
    }

    /// LOCK with a timeout of so many milliseconds: it is tried again after pauses of 1, 2, 4 and so on up to 50 of
    /// them, until they are over by `Gate::now`, or come to so many. Whether it has its names at the end. The first try
    /// is a unit, and a later one that has the names.
    ///
    /// Refusals: as `lock`.
    pub fn lock_within<R: Wait, G: Gate>(
        &self,
        rt: &R,
        session: &mut Session<B>,
        command: &LockCommand,
        millis: u64,
        gate: &G,
    ) -> Result<bool, Refusal>
        ensures had { OnOkThat result (HasItsNames command.now session.old session.new) }
        ensures blocked { OnOkNot result (WasBlocked command.now session.old session.new) }
        ensures refused { IfErr result (λ refusal. WasRefused command.now refusal session.old session.new) }
    {
        if self.lock_first(rt, session, command)? {
            return Ok(true);
        }
        self.lock_within_later(rt, session, command, millis, gate)
    }

    /// The outermost TSTART: a transaction begins on a journal in which the session's own units are. Takes no lock and
    /// no memory, and waits for nobody.
    ///
    /// Refusals, after which nothing has changed: `Again` where a horizon passed the start as it was taken.
    pub fn tstart(&self, session: &mut Session<B>) -> Result<(), Refusal>
        requires { session.old.state.level ≡ 0 }
        ensures begun { OnOk result ((base : List JournalUnit) × HasBegun base session.old session.new) }
        ensures refused { IfErr result (λ refusal. (refusal ≡ Refusal.Again) × (session.new ≡ session.old)) }
    {
        session.inner.tstart(&self.board)
    }

    /// A data command of an open transaction, on the map of its start followed by its own commands. The present journal
    /// goes on from all that the session had seen, that start among it, and has the units of its receipts; the session
    /// has seen it then. Takes the shared lock.
    ///
    /// Refusals, after which nothing else has changed: those of `Core::read`. A start that is no longer kept is none of
    /// them.
    pub fn read<R: Wait>(
        &self,
        rt: &R,
        session: &mut Session<B>,
        command: DataCommand,
    ) -> Result<Answer, Refusal>
        requires { 1 ≤ session.old.state.level }
        ensures answered { IfSome session.old.start (λ base. IsAnsweredOrRefused command result (after base initial).map session.old.state session.new.state) }
        ensures open { IsSome session.old.start }
        ensures journal { IsJournalOf session.new.seen session.old }
        ensures same { (session.new.start ≡ session.old.start) × (session.new.receipts ≡ session.old.receipts) }
        ensures others { session.new.others ≡ session.old.others }
    {
        let guard = self.lock.read(rt);
        let under = &*guard;
        under.meet(rt, &self.board, &mut session.inner);
        under.locked.read_met(&mut session.inner, command)
    }

    /// The outermost TCOMMIT: the transaction is a unit with a receipt, or, where another unit touched what it had read,
    /// it begins anew. One that did SETs and KILLs alone never does. The clause speaks of a journal that goes on from all
    /// that the session had seen and has the units of its receipts. Takes the exclusive lock. A turn that is due is taken
    /// under the same hold, behind the commit, where it pays.
    ///
    /// Refusals, after which nothing has changed but that turn and what the session has seen: `StampsUsedUp`,
    /// `OutOfMemory`.
    pub fn tcommit<R: Wait>(
        &self,
        rt: &R,
        session: &mut Session<B>,
        turn: &mut Turn,
    ) -> Result<Ended, Refusal>
        requires { session.old.state.level ≡ 1 }
        ensures ended { IfOk result (λ end. (units : List JournalUnit) × IsJournalOf units session.old × HasEnded end units session.new.seen session.old session.new) }
        ensures writes { AreWrites session.old.state.work.exchanges → IfOk result (λ end. end ≡ Ended.Committed) }
        ensures refused { OnErr result (IsJournalOf session.new.seen session.old × (session.new ≡ knowing session.new.seen session.old)) }
        ensures cause { IfErr result (λ refusal. IsCauseAtCommit refusal session.old.state.work session.new.seen ⊎ IsCauseAtRestart refusal session.old.state session.new.seen) }
        ensures turn { MayBeTaken turn.old turn.new }
    {
        let mut guard = self.lock.write(rt, Patience::Short);
        let under = &mut *guard;
        let mut desk = under.desk.lift(rt);
        let ended = under
            .locked
            .tcommit(&self.board, &mut desk, &mut session.inner);
        under.locked.take_turn(&self.board, &mut desk, turn);
        under.desk.set_down(desk);
        ended
    }

    /// TROLLBACK of a transaction that took no LOCK: nothing of it is left. Takes no lock and no memory, and waits for
    /// nobody.
    pub fn rollback_free(&self, session: &mut Session<B>)
        requires level { 1 ≤ session.old.state.level }
        requires free { session.old.state.took_lock ≡ false }
        ensures { session.new ≡ ended session.old }
    {
        session.inner.rollback_free(&self.board);
    }

    /// TROLLBACK: nothing of the transaction is left. Where it took a LOCK a unit says so, one of the session's others,
    /// and the exclusive lock is taken; else neither.
    ///
    /// Refusals, after which nothing has changed but what the session has seen, and only where it took a LOCK:
    /// `StampsUsedUp`, `OutOfMemory`.
    pub fn trollback<R: Wait>(&self, rt: &R, session: &mut Session<B>) -> Result<(), Refusal>
        requires { 1 ≤ session.old.state.level }
        ensures done { (units : List JournalUnit) × IsBeginning units session.old.seen × IsRolledBack result units session.new.seen session.old session.new }
    {
        if session.took_lock() {
            let mut guard = self.lock.write(rt, Patience::Short);
            let under = &mut *guard;
            let mut desk = under.desk.lift(rt);
            let done = under
                .locked
                .trollback(&self.board, &mut desk, &mut session.inner);
            under.desk.set_down(desk);
            return done;
        }
        self.rollback_free(session);
        Ok(())
    }

    /// TRESTART: nothing of the transaction is left but its LOCKs' units, and it begins anew at level 1, at the present
    /// moment, on a journal that goes on from all that the session had seen and has the units of its receipts. Where it
    /// took a LOCK the last unit of that says so, one of the session's others. Answers how often it has. Takes the
    /// exclusive lock.
    ///
    /// Refusals, after which nothing has changed but what the session has seen, and only where it took a LOCK:
    /// `StampsUsedUp`, `OutOfMemory`.
    pub fn trestart<R: Wait>(&self, rt: &R, session: &mut Session<B>) -> Result<u64, Refusal>
        requires { 1 ≤ session.old.state.level }
        ensures done { (units : List JournalUnit) × IsBeginning units session.old.seen × IsRestarted result units session.new.seen session.old session.new }
        ensures journal { OnOk result (IsJournalOf session.new.seen session.old) }
    {
        let mut guard = self.lock.write(rt, Patience::Short);
        let under = &mut *guard;
        let mut desk = under.desk.lift(rt);
        let done = under
            .locked
            .trestart(&self.board, &mut desk, &mut session.inner);
        under.desk.set_down(desk);
        done
    }

    /// TRESTART, as `trestart`, and then the commands of a block behind it, under one hold of the exclusive lock: nobody
    /// does anything from where the transaction begins anew, so no TCOMMIT in the block begins it anew. Each LOCK is one
    /// try. Answers the reply to each command, a refusal too: after one nothing has changed, and the block goes on. A
    /// transaction that the block leaves open stays so. A turn that is due is taken under the same hold, behind the
    /// block, where it pays. The clause is that of all steps on a journal that goes on from all that the session had seen.
    ///
    /// `musts` says of each command whether, if it is a LOCK, it has to have its names; behind the last of them none
    /// has to. Where such a LOCK is blocked its place is answered, and what stands behind it isn't done: to wait for
    /// the names, and to begin anew, is left to the caller.
    ///
    /// Refusals, after which nothing has changed but that turn and what the session has seen: those of `trestart`, and
    /// `OutOfMemory` for the replies.
    pub fn trestart_serially<R: Wait>(
        &self,
        rt: &R,
        alloc: Global,
        session: &mut Session<B>,
        block: Vec<Command>,
        musts: &[bool],
        turn: &mut Turn,
    ) -> Result<SerialRun, Refusal>
        requires level { 1 ≤ session.old.state.level }
        requires goes_on { All (λ (c : Command). c ≢ Command.Halt) block.items }
        ensures come { IfOk result (λ run. (units : List JournalUnit) × IsBeginning units session.old.seen × IsJournalOf (gone_back session.old.state units) session.old × HasCome musts.now block.items run (gone_back session.old.state units) session.new.seen (begun_anew (gone_back session.old.state units) session.old) session.new) }
        ensures commits { IfOk result (λ run. NoneBeganAnew block.items run) }
        ensures refused { OnErr result (IsBeginning session.new.seen session.old.seen × (session.new ≡ knowing session.new.seen session.old)) }
        ensures cause { IfErr result (λ refusal. HasNoRoom refusal 1 (length session.new.seen)) }
        ensures turn { MayBeTaken turn.old turn.new }
    {
        let mut guard = self.lock.write(rt, Patience::Short);
        let under = &mut *guard;
        let mut desk = under.desk.lift(rt);
        let inner = &mut session.inner;
        let done = under
            .locked
            .trestart_serially(&self.board, &mut desk, alloc, inner, block, musts);
        under.locked.take_turn(&self.board, &mut desk, turn);
        under.desk.set_down(desk);
        done
    }

    /// How many units the journal has, which goes on from all that the session had seen; it has seen them then. So a
    /// session knows whether it begins behind the end of another (`Pass::end`). Takes the shared lock.
    pub fn look<R: Wait>(&self, rt: &R, session: &mut Session<B>) -> u64
        ensures journal { IsJournalOf session.new.seen session.old }
        ensures same { session.new ≡ knowing session.new.seen session.old }
        ensures count { result ≡ length session.new.seen }
    {
        let guard = self.lock.read(rt);
        let under = &*guard;
        let mut desk = under.desk.lift(rt);
        let count = under
            .locked
            .look(&self.board, &mut desk, &mut session.inner);
        under.desk.give_back(desk);
        count
    }

    /// A turn of the collector over so many keys, at a horizon that is above no open transaction's start. Where all
    /// keys were visited since the last write, and nothing is left that could go, it visits none. Takes the exclusive
    /// lock.
    ///
    /// Refusals, after which no content is gone: `OutOfMemory`.
    pub fn collect<R: Wait>(&self, rt: &R, limit: usize) -> Result<Progress, Refusal>
        ensures few { IfOk result (λ progress. progress.visited ≤ limit) }
        ensures cause { IfErr result (λ refusal. refusal ≡ Refusal.OutOfMemory) }
    {
        let mut guard = self.lock.write(rt, Patience::Short);
        let under = &mut *guard;
        if under.locked.is_swept() {
            return Ok(Progress {
                visited: 0,
                dropped: 0,
                removed: 0,
                left: 0,
            });
        }
        let mut desk = under.desk.lift(rt);
        let done = under.locked.collect(&self.board, &mut desk, limit);
        under.desk.set_down(desk);
        done
    }

    /// Moves the journal's base on to a horizon that is above no open transaction's start: what the units up to it
    /// leave is kept in their place, and their bytes leave the journal. Answers where the base is then, which is where
    /// it was if no horizon after it can be had. Takes the exclusive lock, for as long as it takes to read these units
    /// back and to merge what they changed.
    ///
    /// Refusals, after which the base is where it was: `OutOfMemory`.
    pub fn checkpoint<R: Wait>(&self, rt: &R) -> Result<u64, Refusal>
        ensures cause { IfErr result (λ refusal. refusal ≡ Refusal.OutOfMemory) }
    {
        let mut guard = self.lock.write(rt, Patience::Short);
        let under = &mut *guard;
        let mut desk = under.desk.lift(rt);
        let done = under.locked.checkpoint(&self.board, &mut desk);
        under.desk.set_down(desk);
        done
    }

    /// Closes the engine. Each unit of a pass is in its journal at its number, and is its job's, and what a session had
    /// seen begins it. Where as many passes are in as there were sessions, fewer than 2^64 - 1, their units are all
    /// units, each at its number once, and their receipts those of all but rollbacks and ends; more can't be in. Takes
    /// no memory.
    pub fn finish<R: Wait>(self, rt: &R, passes: Vec<Pass<B>>) -> Closed
        ensures in_journal { All (λ (p : Book). AreInJournal result.core.units p.receipts) passes.items }
        ensures others { All (λ (p : Book). AreInJournal result.core.units p.others) passes.items }
        ensures rising { All (λ (p : Book). RisesFrom 0 p.receipts) passes.items }
        ensures own { All IsOwn passes.items }
        ensures all { vec_len passes ≡ result.sessions → result.sessions < 2 ^ 64 - 1 → AreAllReceipts result.core.units passes.items }
        ensures all_units { vec_len passes ≡ result.sessions → result.sessions < 2 ^ 64 - 1 → AreAllUnits result.core.units passes.items }
        ensures few { vec_len passes ≤ result.sessions }
        ensures seen { All (HasSeenOf result.core.units) passes.items }
    {
        let Shared { board, lock } = self;
        let Under {
            _apart: _,
            locked,
            desk,
            of: _,
        } = lock.into_inner();
        let desk = desk.lift(rt);
        locked.finish(&board, desk, passes)
    }
}

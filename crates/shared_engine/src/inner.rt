//! What one job holds. Which board it is of is a value of what it is seen as.
ghost use Rattle.std.specs.Prelude.{◌≡◌, ◌<◌, ◌≤◌, ◌+◌, ◌-◌, List, false, map, is_some, length, IfOk, IfErr, IfSome, IsSome, OnOk, OnErr, IsErrOf};
ghost use Rattle.refusal.specs.declared.Refusal.{Refusal};
ghost use Rattle.collation.specs.Limits.{most_levels};
ghost use Rattle.collation.specs.Database.{Database};
ghost use Rattle.command.specs.declared.access.DataCommand.TheVariants.{Set as set_command, Kill as kill_command, Look as look_command};
ghost use Rattle.command.specs.declared.access.Look.TheVariants.{Get as get_command};
ghost use Rattle.command.specs.Data.{data_reply};
ghost use Rattle.workspace.specs.Layers.{decides};
ghost use Rattle.validate_commit.specs.Working.{IsCauseAlone, IsWorkOn, seen};
ghost use Rattle.journal.specs.History.{initial, after};
ghost use Rattle.job_core.specs.Lent.{done_answer};
ghost use Rattle.job_core.specs.Sessions.{at_level, HasWritten, IsAnsweredOrRefused};
ghost use Rattle.shared_engine.specs.Receipts.{number_of, RisesFrom};
ghost use Rattle.shared_engine.specs.Sessions.{held, ended, IsAt, GoesOnFromStart, HasBegun};
ghost use Rattle.journal.specs.declared.unit.Unit.{Unit as JournalUnit};

use collation::{Job, Text};
use command::{Answer, Extent};
use job_core::JobState;
use key_codec::Key;
use pin_board::{Board, FloorAbove, Pin, Slip};
use refusal::Refusal;
use std::marker::Model;

/// A job at work: its state, its seat on the board, and the numbers of its receipts. It is seen as the table of its board,
/// and what it holds: the unit of each receipt, too, and the other units that it wrote, which its seat knows, the journal
/// at the start of its transaction, and the longest beginning of the journal that it has seen.
#[derive(Drop)]
pub struct InnerSession {
    pub(crate) state: JobState,
    pub(crate) pin: Pin,
    pub(crate) numbers: Vec<u64>,
}

impl Model for InnerSession {
    ghost use Rattle.shared_engine.specs.Codes.{session_at_code};
    ghost use Rattle.shared_engine.specs.Receipts.{receipts_in, others_in};
    ghost use Rattle.shared_engine.specs.Sessions.{held, start_in, IsSession};
    ghost use Rattle.shared_engine.specs.Named.{SessionAt, session_at};

    ghost Value = { SessionAt };

    ghost coded = { session_at_code };

    ghost view = { λ s. session_at s.pin.table (held s.state (start_in s.pin.knows) (receipts_in s.pin.knows.mine) (others_in s.pin.knows.mine) s.pin.knows.seen) };

    ghost invariant = { λ s. IsSession s.state s.pin.knows s.numbers.items };
}

/// A job's receipts in order, once its session has ended. It is seen as the table of its board, and its book.
#[derive(Drop)]
pub struct InnerPass {
    pub(crate) job: Job,
    pub(crate) slip: Slip,
    pub(crate) numbers: Vec<u64>,
    pub(crate) end: u64,
}

impl Model for InnerPass {
    ghost use Rattle.shared_engine.specs.Codes.{pass_at_code};
    ghost use Rattle.shared_engine.specs.Receipts.{book, receipts_in, others_in, seen_in, IsPass};
    ghost use Rattle.shared_engine.specs.Named.{PassAt, pass_at};

    ghost Value = { PassAt };

    ghost coded = { pass_at_code };

    ghost view = { λ p. pass_at p.slip.table (book p.job (receipts_in p.slip.knows.mine) (others_in p.slip.knows.mine) (seen_in p.slip.knows.known)) };

    ghost invariant = { λ p. IsPass p.job p.numbers.items p.slip.knows.mine p.end (seen_in p.slip.knows.known) };
}

impl InnerPass {
    /// The job that had the session.
    pub fn job(&self) -> Job
        ensures { result ≡ self.now.book.job }
    {
        self.job
    }

    /// The numbers of its receipts, in order.
    pub fn numbers(&self) -> &[u64]
        ensures all { map number_of self.now.book.receipts ≡ result.now }
        ensures rising { RisesFrom 0 self.now.book.receipts }
    {
        self.numbers.as_slice()
    }

    /// The number of the session's end.
    pub fn end(&self) -> u64
        ensures { result ≡ length self.now.book.seen }
    {
        self.end
    }
}

impl InnerSession {
    /// The job that has the session.
    pub fn job(&self) -> Job
        ensures { result ≡ self.now.held.state.work.job }
    {
        self.state.job()
    }

    /// The numbers of its receipts so far, in order.
    pub fn numbers(&self) -> &[u64]
        ensures all { map number_of self.now.held.receipts ≡ result.now }
        ensures rising { RisesFrom 0 self.now.held.receipts }
    {
        self.numbers.as_slice()
    }

    /// How deep transactions are nested.
    pub fn tlevel(&self) -> u64
        ensures { result ≡ self.now.held.state.level }
    {
        self.state.level()
    }

    /// How often the open transaction began anew.
    pub fn trestarts(&self) -> u64
        ensures { result ≡ self.now.held.state.restarts }
    {
        self.state.restarts()
    }

    /// Whether the transaction took a LOCK since its start or last restart.
    pub fn took_lock(&self) -> bool
        ensures { result ≡ self.now.held.state.took_lock }
    {
        self.state.took_lock()
    }

    /// The stamp at which the open transaction reads, 0 outside.
    pub fn start(&self) -> u64
        ensures stamp { result ≡ self.now.held.state.work.start }
        ensures base { IfSome self.now.held.start (λ base. result ≡ length base) }
        ensures open { 1 ≤ self.now.held.state.level → IsSome self.now.held.start }
    {
        self.state.start()
    }

    /// TSTART within a transaction.
    pub fn tstart_inner(&mut self) -> Result<u64, Refusal>
        requires { 1 ≤ self.old.held.state.level }
        ensures table { self.new.table ≡ self.old.table }
        ensures deeper { IfOk result (λ level. (level ≡ self.old.held.state.level + 1) × ((self.old.held.state.level < most_levels) × (self.new.held ≡ held (at_level level self.old.held.state) self.old.held.start self.old.held.receipts self.old.held.others self.old.held.seen))) }
        ensures refused { IfErr result (λ refusal. (refusal ≡ Refusal.LevelTooDeep) × ((most_levels ≤ self.old.held.state.level) × (self.new.held ≡ self.old.held))) }
        ensures start { GoesOnFromStart self.old.held.start self.old.held.seen }
    {
        self.state.start_inner()
    }

    /// TCOMMIT of an inner level.
    pub fn tcommit_inner(&mut self) -> u64
        requires { 1 < self.old.held.state.level }
        ensures table { self.new.table ≡ self.old.table }
        ensures level { result ≡ self.old.held.state.level - 1 }
        ensures session { self.new.held ≡ held (at_level (self.old.held.state.level - 1) self.old.held.state) self.old.held.start self.old.held.receipts self.old.held.others self.old.held.seen }
        ensures start { GoesOnFromStart self.old.held.start self.old.held.seen }
    {
        self.state.commit_inner()
    }

    /// SET in a transaction.
    pub fn set(&mut self, key: Key, value: Text) -> Result<(), Refusal>
        requires { 1 ≤ self.old.held.state.level }
        ensures table { self.new.table ≡ self.old.table }
        ensures written { OnOk result (HasWritten (set_command key value) self.old.held.state self.new.held.state) }
        ensures same { (self.new.held.start ≡ self.old.held.start) × (self.new.held.receipts ≡ self.old.held.receipts) }
        ensures others { (self.new.held.others ≡ self.old.held.others) × (self.new.held.seen ≡ self.old.held.seen) }
        ensures refused { OnErr result (self.new.held ≡ self.old.held) }
        ensures cause { IfErr result (λ refusal. IsCauseAlone refusal self.old.held.state.work) }
        ensures start { GoesOnFromStart self.old.held.start self.old.held.seen }
        ensures begun { IsAt self.old.held.start self.old.held.state }
    {
        self.state.set(key, value)
    }

    /// SET in a transaction, of which key and value are lent. The value is taken out of where it lies.
    pub(crate) fn set_lent(&mut self, key: &Key, value: &mut Text) -> Result<(), Refusal>
        requires { 1 ≤ self.old.held.state.level }
        ensures table { self.new.table ≡ self.old.table }
        ensures answered { IfSome self.old.held.start (λ base. IsAnsweredOrRefused (set_command key.now value.old) (done_answer result) (after base initial).map self.old.held.state self.new.held.state) }
        ensures begun { IsSome self.old.held.start }
        ensures same { (self.new.held.start ≡ self.old.held.start) × (self.new.held.receipts ≡ self.old.held.receipts) }
        ensures others { (self.new.held.others ≡ self.old.held.others) × (self.new.held.seen ≡ self.old.held.seen) }
        ensures level { self.new.held.state.level ≡ self.old.held.state.level }
    {
        self.state.set_lent(key, value)
    }

    /// KILL, KVALUE or KSUBSCRIPTS in a transaction.
    pub fn kill(&mut self, key: Key, extent: Extent) -> Result<(), Refusal>
        requires { 1 ≤ self.old.held.state.level }
        ensures table { self.new.table ≡ self.old.table }
        ensures written { OnOk result (HasWritten (kill_command key extent) self.old.held.state self.new.held.state) }
        ensures same { (self.new.held.start ≡ self.old.held.start) × (self.new.held.receipts ≡ self.old.held.receipts) }
        ensures others { (self.new.held.others ≡ self.old.held.others) × (self.new.held.seen ≡ self.old.held.seen) }
        ensures refused { OnErr result (self.new.held ≡ self.old.held) }
        ensures cause { IfErr result (λ refusal. IsCauseAlone refusal self.old.held.state.work) }
        ensures start { GoesOnFromStart self.old.held.start self.old.held.seen }
        ensures begun { IsAt self.old.held.start self.old.held.state }
    {
        self.state.kill(key, extent)
    }

    /// What a $GET answers where the transaction's own writes decide it.
    pub fn own_get(&self, key: &Key, default: &Option<Text>) -> Result<Option<Answer>, Refusal>
        ensures decided { IfOk result (λ found. is_some found ≡ decides self.now.held.state.work.layer key.now) }
        ensures answer { IfOk result (λ found. IfSome found (λ answer. (m : Database) → IsWorkOn self.now.held.state.work m → answer ≡ data_reply (look_command (get_command key.now default.now)) (seen self.now.held.state.work m))) }
        ensures memory { OnErr result (IsErrOf result Refusal.OutOfMemory) }
    {
        self.state.own_get(key, default)
    }

    /// The outermost TSTART: a transaction begins on a journal in which the session's own units are.
    ///
    /// Refusals, after which nothing has changed: `Again` where a horizon passed the start as it was taken.
    pub fn tstart(&mut self, board: &Board) -> Result<(), Refusal>
        requires own { self.old.table ≡ board.now.table }
        requires level { self.old.held.state.level ≡ 0 }
        ensures table { self.new.table ≡ self.old.table }
        ensures begun { OnOk result ((base : List JournalUnit) × HasBegun base self.old.held self.new.held) }
        ensures refused { IfErr result (λ refusal. (refusal ≡ Refusal.Again) × (self.new.held ≡ self.old.held)) }
    {
        match board.settle(&mut self.pin) {
            Ok(start) => {
                self.state.begin(start);
                Ok(())
            }
            Err(FloorAbove) => Err(Refusal::Again),
        }
    }

    /// TROLLBACK of a transaction that took no LOCK: nothing of it is left.
    pub fn rollback_free(&mut self, board: &Board)
        requires own { self.old.table ≡ board.now.table }
        requires level { 1 ≤ self.old.held.state.level }
        requires free { self.old.held.state.took_lock ≡ false }
        ensures table { self.new.table ≡ self.old.table }
        ensures held { self.new.held ≡ ended self.old.held }
    {
        board.leave(&mut self.pin);
        self.state.end();
    }
}

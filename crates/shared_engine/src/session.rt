//! What one job holds, under the name of its board.
ghost use Rattle.std.specs.Prelude.{◌≡◌, ◌<◌, ◌≤◌, ◌+◌, ◌-◌, map, is_some, length, IfOk, IfErr, IfSome, OnOk, OnErr, IsErrOf};
ghost use Rattle.refusal.specs.declared.Refusal.{Refusal};
ghost use Rattle.collation.specs.Limits.{most_levels};
ghost use Rattle.collation.specs.Database.{Database};
ghost use Rattle.command.specs.declared.access.DataCommand.TheVariants.{Set as set_command, Kill as kill_command, Look as look_command};
ghost use Rattle.command.specs.declared.access.Look.TheVariants.{Get as get_command};
ghost use Rattle.command.specs.Data.{data_reply};
ghost use Rattle.workspace.specs.Layers.{decides};
ghost use Rattle.validate_commit.specs.Working.{IsCauseAlone, IsWorkOn, seen};
ghost use Rattle.job_core.specs.Sessions.{at_level, HasWritten};
ghost use Rattle.shared_engine.specs.Receipts.{number_of, RisesFrom};
ghost use Rattle.shared_engine.specs.Sessions.{held, IsAt, GoesOnFromStart};

use crate::inner::{InnerPass, InnerSession};
use crate::name::BoardName;
use collation::{Job, Text};
use command::{Answer, Extent};
use key_codec::Key;
use refusal::Refusal;
use std::marker::{Model, PhantomData};

/// A job at work: its state, its seat on the board, and the numbers of its receipts. Contracts see the unit of each
/// receipt too, and the other units that it wrote, which its seat knows, the journal at the start of its transaction,
/// and the longest beginning of the journal that it has seen.
///
/// It ends by `Shared::halt`. One that is dropped instead keeps its job and its seat for good, and where its
/// transaction is open no content from that start on is collected; `Closed` tells how many sessions there were.
#[derive(Drop)]
pub struct Session<B: BoardName> {
    pub(crate) inner: InnerSession,
    pub(crate) of: PhantomData<B>,
}

impl<B: BoardName> Model for Session<B> {
    ghost use Rattle.std.specs.Prelude.{◌≡◌};
    ghost use Rattle.shared_engine.specs.Codes.{held_code};
    ghost use Rattle.shared_engine.specs.Sessions.{Held};

    ghost Value = { Held };

    ghost coded = { held_code };

    ghost view = { λ s. s.inner.held };

    ghost invariant = { λ s. s.inner.table ≡ B.table };
}

/// A job's receipts in order, once its session has ended.
#[derive(Drop)]
pub struct Pass<B: BoardName> {
    pub(crate) inner: InnerPass,
    pub(crate) of: PhantomData<B>,
}

impl<B: BoardName> Model for Pass<B> {
    ghost use Rattle.std.specs.Prelude.{◌≡◌};
    ghost use Rattle.shared_engine.specs.Codes.{book_code};
    ghost use Rattle.shared_engine.specs.Receipts.{Book};

    ghost Value = { Book };

    ghost coded = { book_code };

    ghost view = { λ p. p.inner.book };

    ghost invariant = { λ p. p.inner.table ≡ B.table };
}

impl<B: BoardName> Pass<B> {
    /// The job that had the session.
    pub fn job(&self) -> Job
        ensures { result ≡ self.now.job }
    {
        self.inner.job()
    }

    /// The numbers of the session's units, but those of rollbacks and of its end, in order. The first unit of a journal
    /// is 1.
    pub fn numbers(&self) -> &[u64]
        ensures all { map number_of self.now.receipts ≡ result.now }
        ensures rising { RisesFrom 0 self.now.receipts }
    {
        self.inner.numbers()
    }

    /// How many units the journal had at the session's end, which is the last of them.
    pub fn end(&self) -> u64
        ensures { result ≡ length self.now.seen }
    {
        self.inner.end()
    }
}

impl<B: BoardName> Session<B> {
    /// The job that has the session.
    pub fn job(&self) -> Job
        ensures { result ≡ self.now.state.work.job }
    {
        self.inner.job()
    }

    /// The numbers of the session's units so far, but those of rollbacks, in order. The first unit of a journal is 1.
    pub fn numbers(&self) -> &[u64]
        ensures all { map number_of self.now.receipts ≡ result.now }
        ensures rising { RisesFrom 0 self.now.receipts }
    {
        self.inner.numbers()
    }

    /// $TLEVEL: how deep transactions are nested, 0 outside.
    pub fn tlevel(&self) -> u64
        ensures { result ≡ self.now.state.level }
    {
        self.inner.tlevel()
    }

    /// $TRESTART: how often the open transaction began anew, 0 outside.
    pub fn trestarts(&self) -> u64
        ensures { result ≡ self.now.state.restarts }
    {
        self.inner.trestarts()
    }

    /// Whether the transaction took a LOCK since its start or last restart.
    pub fn took_lock(&self) -> bool
        ensures { result ≡ self.now.state.took_lock }
    {
        self.inner.took_lock()
    }

    /// TSTART within a transaction: its level is one higher. Takes neither lock nor memory.
    ///
    /// Refusals: `LevelTooDeep` at level 127, after which nothing has changed.
    pub fn tstart_inner(&mut self) -> Result<u64, Refusal>
        requires { 1 ≤ self.old.state.level }
        ensures deeper { IfOk result (λ level. (level ≡ self.old.state.level + 1) × ((self.old.state.level < most_levels) × (self.new ≡ held (at_level level self.old.state) self.old.start self.old.receipts self.old.others self.old.seen))) }
        ensures refused { IfErr result (λ refusal. (refusal ≡ Refusal.LevelTooDeep) × ((most_levels ≤ self.old.state.level) × (self.new ≡ self.old))) }
        ensures start { GoesOnFromStart self.old.start self.old.seen }
    {
        self.inner.tstart_inner()
    }

    /// TCOMMIT of an inner level: it is one lower. Takes neither lock nor memory.
    pub fn tcommit_inner(&mut self) -> u64
        requires { 1 < self.old.state.level }
        ensures level { result ≡ self.old.state.level - 1 }
        ensures session { self.new ≡ held (at_level (self.old.state.level - 1) self.old.state) self.old.start self.old.receipts self.old.others self.old.seen }
        ensures start { GoesOnFromStart self.old.start self.old.seen }
    {
        self.inner.tcommit_inner()
    }

    /// SET in a transaction, which is open, and right where it began. The session has seen its start. Takes no lock, and
    /// waits for nobody.
    ///
    /// Refusals, after which nothing has changed: `TransactionTooLong` where the transaction holds 65,535 data
    /// commands, else `OutOfMemory`.
    pub fn set(&mut self, key: Key, value: Text) -> Result<(), Refusal>
        requires { 1 ≤ self.old.state.level }
        ensures written { OnOk result (HasWritten (set_command key value) self.old.state self.new.state) }
        ensures same { (self.new.start ≡ self.old.start) × (self.new.receipts ≡ self.old.receipts) }
        ensures others { (self.new.others ≡ self.old.others) × (self.new.seen ≡ self.old.seen) }
        ensures refused { OnErr result (self.new ≡ self.old) }
        ensures cause { IfErr result (λ refusal. IsCauseAlone refusal self.old.state.work) }
        ensures start { GoesOnFromStart self.old.start self.old.seen }
        ensures begun { IsAt self.old.start self.old.state }
    {
        self.inner.set(key, value)
    }

    /// KILL, KVALUE or KSUBSCRIPTS in a transaction: as `set`.
    pub fn kill(&mut self, key: Key, extent: Extent) -> Result<(), Refusal>
        requires { 1 ≤ self.old.state.level }
        ensures written { OnOk result (HasWritten (kill_command key extent) self.old.state self.new.state) }
        ensures same { (self.new.start ≡ self.old.start) × (self.new.receipts ≡ self.old.receipts) }
        ensures others { (self.new.others ≡ self.old.others) × (self.new.seen ≡ self.old.seen) }
        ensures refused { OnErr result (self.new ≡ self.old) }
        ensures cause { IfErr result (λ refusal. IsCauseAlone refusal self.old.state.work) }
        ensures start { GoesOnFromStart self.old.start self.old.seen }
        ensures begun { IsAt self.old.start self.old.state }
    {
        self.inner.kill(key, extent)
    }

    /// What a $GET answers where the transaction's own writes decide it: some exactly there, and then what it answers
    /// whatever database the transaction began with. It is no step of the machine, which keeps each $GET: nothing is kept
    /// of it. Takes no lock, and waits for nobody.
    ///
    /// Refusals: `OutOfMemory`.
    pub fn own_get(&self, key: &Key, default: &Option<Text>) -> Result<Option<Answer>, Refusal>
        ensures decided { IfOk result (λ found. is_some found ≡ decides self.now.state.work.layer key.now) }
        ensures answer { IfOk result (λ found. IfSome found (λ answer. (m : Database) → IsWorkOn self.now.state.work m → answer ≡ data_reply (look_command (get_command key.now default.now)) (seen self.now.state.work m))) }
        ensures memory { OnErr result (IsErrOf result Refusal.OutOfMemory) }
    {
        self.inner.own_get(key, default)
    }
}

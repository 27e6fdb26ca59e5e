//! The log and the units that it has dropped, as one list.
ghost use Rattle.std.specs.Prelude.{◌≡◌, None, ◌≤◌, ◌-◌, ◌+◌, ◌<◌, ◌^◌, ◌++◌, [], ◌∷◌, List, ℕ, take, drop, length, IfSome, IfOk, IfErr, OnOk, OnErr, true};
ghost use Rattle.std.specs.List.{flat_map};
ghost use Rattle.refusal.specs.declared.Refusal.TheVariants.{StampsUsedUp};
ghost use Rattle.journal.specs.declared.unit.Unit.{Unit as JournalUnit};
ghost use Rattle.journal.specs.declared.unit.Unit.TheVariants.{Lone, Whole, Lock, Back, End};
ghost use Rattle.std.specs.FinMap as finmap;
ghost use Rattle.std.specs.FinMap.{is_sorted};
ghost use Rattle.collation.specs.Changes.{changed};
ghost use Rattle.collation.specs.Order.{ref_cmp};
ghost use Rattle.journal.specs.Adopted.{adopted_units};
ghost use Rattle.journal.specs.Based.{IsBaseOf, database_of};
ghost use Rattle.journal.specs.Counting.{AreTallies};
ghost use Rattle.journal.specs.Format.{unit_bytes};
ghost use Rattle.journal.specs.History.{initial, after};
ghost use Rattle.journal.specs.Kept.{HasNoRoom};
ghost use Rattle.journal.specs.Log.{unit_in, IsUnitOf};
ghost use Rattle.command.specs.declared.access.DataCommand.TheVariants.{Set, Kill, Look};
ghost use Rattle.command.specs.declared.access.Look.TheVariants.{Get, Order};
ghost use Rattle.command.specs.declared.access.Answer.TheVariants.{Done, Value};
ghost use Rattle.journal.specs.Stored.{Each, FitsUnit};

use crate::Units;
use crate::base::Base;
use crate::exchanges::ExchangeLog;
use crate::gets::Gets;
use crate::log::Log;
use crate::past::Past;
use crate::tallies::Tallies;
use collation::{Direction, Job, Text};
use command::{Answer, DataCommand, Extent};
use key_codec::{Key, Place};
use lock_name::LockCommand;
use lock_table::LockTable;
use refusal::Refusal;
use std::alloc::{AllocError, Global};
use std::marker::Model;

/// Seen as all units, those that were dropped among them, and the bytes behind them.
#[derive(Drop)]
pub(crate) struct Chronicle {
    base: Base,
    past: Past,
    log: Log,
}

impl Model for Chronicle {
    ghost use Rattle.std.specs.Prelude.{◌++◌};
    ghost use Rattle.journal.specs.Dropped.{joined};
    ghost use Rattle.journal.specs.Log.{Recorded, KeepsBase};

    ghost Value = { Recorded };

    ghost view = { λ c. record { units = joined c.past ++ c.log.units; base = c.base.number; behind = c.log.behind; ends = c.log.ends } };

    ghost invariant = { λ c. KeepsBase c.base (joined c.past) c.log.units };
}

impl Chronicle {
    pub(crate) fn new(alloc: Global) -> Chronicle
        ensures units { result.units ≡ [] }
        ensures base { result.base ≡ 0 }
        ensures ends { result.ends ≡ 0 }
        ensures behind { result.behind ≡ [] }
    {
        Chronicle {
            base: Base::new(alloc),
            past: Past::new(),
            log: Log::new(alloc),
        }
    }

    /// So many units that leave these references with their values; all are dropped.
    pub(crate) fn adopt(alloc: Global, number: u64, nodes: Vec<(Key, Text)>) -> Chronicle
        requires sorted { nodes.items ≡ finmap.entries (database_of nodes.items) }
        requires nothing { number ≡ 0 → nodes.items ≡ [] }
        ensures units { result.units ≡ adopted_units number nodes.items }
        ensures base { result.base ≡ number }
        ensures ends { result.ends ≡ 0 }
        ensures behind { result.behind ≡ [] }
    {
        let past = Past::adopt(number, &nodes);
        Chronicle {
            base: Base::adopt(alloc, number, nodes),
            past,
            log: Log::new(alloc),
        }
    }

    pub(crate) fn len(&self) -> u64
        ensures { result ≡ length self.now.units }
    {
        self.base.number() + self.log.len()
    }

    pub(crate) fn as_slice(&self) -> &[u8]
        ensures bytes { result.now ≡ flat_map unit_bytes (drop self.now.base self.now.units) }
        ensures fit { Each FitsUnit (drop self.now.base self.now.units) }
    {
        self.log.as_slice()
    }

    pub(crate) fn units(&self) -> Units<'_>
        ensures { result ≡ drop self.now.base self.now.units }
    {
        self.log.units()
    }

    /// Takes away what stands behind the units. Refused where a unit more would have no number.
    pub(crate) fn begin(&mut self) -> Result<(), Refusal>
        ensures units { self.new.units ≡ self.old.units }
        ensures base { self.new.base ≡ self.old.base }
        ensures ends { self.new.ends ≡ self.old.ends }
        ensures behind { self.new.behind ≡ [] }
        ensures ok { OnOk result (length self.old.units + 1 < 2 ^ 64) }
        ensures err { IfErr result (λ refusal. (refusal ≡ StampsUsedUp) × (2 ^ 64 - 1 < length self.old.units + 1)) }
    {
        let count = self.len();
        self.log.begin();
        if count == u64::MAX {
            return Err(Refusal::StampsUsedUp);
        }
        Ok(())
    }

    /// Takes away what stands behind the units.
    pub(crate) fn clear_behind(&mut self)
        ensures units { self.new.units ≡ self.old.units }
        ensures base { self.new.base ≡ self.old.base }
        ensures ends { self.new.ends ≡ self.old.ends }
        ensures behind { self.new.behind ≡ [] }
    {
        self.log.begin();
    }

    /// Adds these units at once behind the others. Refused where they have no numbers, or for want of memory: then all is
    /// as it was.
    pub(crate) fn append(&mut self, gets: &Gets) -> Result<(), Refusal>
        requires { self.old.behind ≡ [] }
        ensures ok { OnOk result (self.new.units ≡ self.old.units ++ gets.now.units) }
        ensures fit { OnOk result (length self.old.units + length gets.now.units < 2 ^ 64) }
        ensures err { OnErr result (self.new.units ≡ self.old.units) }
        ensures base { self.new.base ≡ self.old.base }
        ensures ends { self.new.ends ≡ self.old.ends }
        ensures behind { self.new.behind ≡ [] }
        ensures cause { IfErr result (λ refusal. HasNoRoom refusal (length gets.now.units) (length self.old.units)) }
    {
        if self.len().checked_add(gets.len()).is_none() {
            return Err(Refusal::StampsUsedUp);
        }
        self.log.append(gets)?;
        Ok(())
    }

    /// Writes a data command outside a transaction behind the units. Where memory is refused nothing stands there.
    pub(crate) fn write_lone(
        &mut self,
        job: Job,
        command: &DataCommand,
        answer: &Answer,
    ) -> Result<(), AllocError>
        requires { self.old.behind ≡ [] }
        ensures units { self.new.units ≡ self.old.units }
        ensures base { self.new.base ≡ self.old.base }
        ensures ends { self.new.ends ≡ self.old.ends }
        ensures ok { OnOk result (IsUnitOf self.new.behind job (Lone job command.now answer.now)) }
        ensures err { OnErr result (self.new.behind ≡ []) }
    {
        self.log.write_lone(job, command, answer)
    }

    /// Writes a SET outside a transaction, from its key and its value; refused as `write_lone`.
    pub(crate) fn write_set(&mut self, job: Job, key: &Key, value: &[u8]) -> Result<(), AllocError>
        requires { self.old.behind ≡ [] }
        ensures units { self.new.units ≡ self.old.units }
        ensures base { self.new.base ≡ self.old.base }
        ensures ends { self.new.ends ≡ self.old.ends }
        ensures ok { OnOk result (IsUnitOf self.new.behind job (Lone job (Set key.now value.now) Done)) }
        ensures err { OnErr result (self.new.behind ≡ []) }
    {
        self.log.write_set(job, key, value)
    }

    /// Writes a $GET without a default outside a transaction, from its key and what it was answered; refused as `write_lone`.
    pub(crate) fn write_get(&mut self, job: Job, key: &Key, value: &[u8]) -> Result<(), AllocError>
        requires { self.old.behind ≡ [] }
        ensures units { self.new.units ≡ self.old.units }
        ensures base { self.new.base ≡ self.old.base }
        ensures ends { self.new.ends ≡ self.old.ends }
        ensures ok { OnOk result (IsUnitOf self.new.behind job (Lone job (Look (Get key.now None)) (Value value.now))) }
        ensures err { OnErr result (self.new.behind ≡ []) }
    {
        self.log.write_get(job, key, value)
    }

    /// Writes a $ORDER outside a transaction, from its place and what it was answered; refused as `write_lone`.
    pub(crate) fn write_order(
        &mut self,
        job: Job,
        place: &Place,
        direction: Direction,
        value: &[u8],
    ) -> Result<(), AllocError>
        requires { self.old.behind ≡ [] }
        ensures units { self.new.units ≡ self.old.units }
        ensures base { self.new.base ≡ self.old.base }
        ensures ends { self.new.ends ≡ self.old.ends }
        ensures ok { OnOk result (IsUnitOf self.new.behind job (Lone job (Look (Order place.now direction)) (Value value.now))) }
        ensures err { OnErr result (self.new.behind ≡ []) }
    {
        self.log.write_order(job, place, direction, value)
    }

    /// Writes a KILL, KVALUE or KSUBSCRIPTS outside a transaction, from its key; refused as `write_lone`.
    pub(crate) fn write_kill(
        &mut self,
        job: Job,
        key: &Key,
        extent: Extent,
    ) -> Result<(), AllocError>
        requires { self.old.behind ≡ [] }
        ensures units { self.new.units ≡ self.old.units }
        ensures base { self.new.base ≡ self.old.base }
        ensures ends { self.new.ends ≡ self.old.ends }
        ensures ok { OnOk result (IsUnitOf self.new.behind job (Lone job (Kill key.now extent) Done)) }
        ensures err { OnErr result (self.new.behind ≡ []) }
    {
        self.log.write_kill(job, key, extent)
    }

    /// Writes a transaction; refused as `write_lone`.
    pub(crate) fn write_whole(
        &mut self,
        job: Job,
        exchanges: &ExchangeLog,
    ) -> Result<(), AllocError>
        requires { self.old.behind ≡ [] }
        ensures units { self.new.units ≡ self.old.units }
        ensures base { self.new.base ≡ self.old.base }
        ensures ends { self.new.ends ≡ self.old.ends }
        ensures ok { OnOk result (IsUnitOf self.new.behind job (Whole job exchanges.now)) }
        ensures err { OnErr result (self.new.behind ≡ []) }
    {
        self.log.write_whole(job, exchanges)
    }

    /// Writes a LOCK; refused as `write_lone`.
    pub(crate) fn write_lock(
        &mut self,
        job: Job,
        inside: bool,
        command: &LockCommand,
        had: bool,
    ) -> Result<(), AllocError>
        requires { self.old.behind ≡ [] }
        ensures units { self.new.units ≡ self.old.units }
        ensures base { self.new.base ≡ self.old.base }
        ensures ends { self.new.ends ≡ self.old.ends }
        ensures ok { OnOk result (IsUnitOf self.new.behind job (Lock job inside command.now had)) }
        ensures err { OnErr result (self.new.behind ≡ []) }
    {
        self.log.write_lock(job, inside, command, had)
    }

    /// Writes a rollback or restart; refused as `write_lone`.
    pub(crate) fn write_back(&mut self, job: Job) -> Result<(), AllocError>
        requires { self.old.behind ≡ [] }
        ensures units { self.new.units ≡ self.old.units }
        ensures base { self.new.base ≡ self.old.base }
        ensures ends { self.new.ends ≡ self.old.ends }
        ensures ok { OnOk result (IsUnitOf self.new.behind job (Back job)) }
        ensures err { OnErr result (self.new.behind ≡ []) }
    {
        self.log.write_back(job)
    }

    /// Writes the end of a session; refused as `write_lone`.
    pub(crate) fn write_end(&mut self, job: Job) -> Result<(), AllocError>
        requires { self.old.behind ≡ [] }
        ensures units { self.new.units ≡ self.old.units }
        ensures base { self.new.base ≡ self.old.base }
        ensures ends { self.new.ends ≡ self.old.ends }
        ensures ok { OnOk result (IsUnitOf self.new.behind job (End job)) }
        ensures err { OnErr result (self.new.behind ≡ []) }
    {
        self.log.write_end(job)
    }

    /// Keeps room for the end of one session more. Where memory is refused all is as it was.
    pub(crate) fn keep_end(&mut self) -> Result<(), AllocError>
        ensures ok { OnOk result (self.new ≡ record self.old { ends = self.old.ends + 1 }) }
        ensures err { OnErr result (self.new ≡ self.old) }
    {
        self.log.keep_end()
    }

    /// Writes the end of a session for which room is kept, into that room. Takes no memory.
    pub(crate) fn write_kept_end(&mut self, job: Job)
        requires behind { self.old.behind ≡ [] }
        requires room { 1 ≤ self.old.ends }
        ensures units { self.new.units ≡ self.old.units }
        ensures base { self.new.base ≡ self.old.base }
        ensures ends { self.new.ends ≡ self.old.ends - 1 }
        ensures written { IsUnitOf self.new.behind job (End job) }
    {
        self.log.write_kept_end(job);
    }

    /// Makes the unit behind the units the last of them. Nothing is copied.
    pub(crate) fn push(&mut self)
        requires some { (job : ℕ) × (unit : JournalUnit) × IsUnitOf self.old.behind job unit }
        requires number { length self.old.units + 1 < 2 ^ 64 }
        ensures units { IfSome (unit_in self.old.behind) (λ unit. self.new.units ≡ self.old.units ++ unit ∷ []) }
        ensures base { self.new.base ≡ self.old.base }
        ensures ends { self.new.ends ≡ self.old.ends }
        ensures behind { self.new.behind ≡ [] }
    {
        self.log.push();
    }

    /// What the dropped units leave.
    pub(crate) fn base(&self) -> &Base
        ensures { IsBaseOf result.now (take self.now.base self.now.units) }
    {
        &self.base
    }

    /// The base is moved on to this number, to which these changes lead from its database, and whose references rise; the
    /// units up to it are dropped. Refused for want of memory, which is all taken first: then the units and the base are as
    /// they were.
    pub(crate) fn checkpoint(
        &mut self,
        number: u64,
        changes: Vec<(Key, Option<Text>)>,
    ) -> Result<(), AllocError>
        requires from { self.old.base ≤ number }
        requires to { number ≤ length self.old.units }
        requires rising { is_sorted ref_cmp changes.items ≡ true }
        requires changes { changed changes.items (after (take self.old.base self.old.units) initial).map ≡ (after (take number self.old.units) initial).map }
        ensures units { self.new.units ≡ self.old.units }
        ensures base { OnOk result (self.new.base ≡ number) }
        ensures refused { OnErr result (self.new.base ≡ self.old.base) }
        ensures ends { self.new.ends ≡ self.old.ends }
        ensures behind { self.new.behind ≡ [] }
    {
        self.log.begin();
        let count = number - self.base.number();
        let alloc = self.log.allocator();
        let rest = self.base.move_on(alloc, &self.log, count, changes)?;
        let past = self.past.with(&self.log, count);
        self.log.keep_rest(rest.bytes, rest.left);
        self.past = past;
        Ok(())
    }

    /// The base is moved on behind all units, which leave these nodes and these locks, and count so; all units are dropped.
    /// Takes no memory.
    pub(crate) fn checkpoint_all(
        &mut self,
        nodes: Vec<(Key, Text)>,
        locks: LockTable,
        tallies: Tallies,
    )
        requires nodes { nodes.items ≡ finmap.entries (after self.old.units initial).map }
        requires locks { locks ≡ (after self.old.units initial).locks }
        requires tallies { AreTallies tallies self.old.units }
        ensures units { self.new.units ≡ self.old.units }
        ensures ends { self.new.ends ≡ self.old.ends }
        ensures base { self.new.base ≡ length self.old.units }
        ensures behind { self.new.behind ≡ [] }
    {
        let number = self.len();
        let past = self.past.with(&self.log, self.log.len());
        self.log.clear();
        self.past = past;
        self.base = Base::of_all(number, nodes, locks, tallies);
    }
}

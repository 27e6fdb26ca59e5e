//! The journal, and the receipts for its units.
ghost use Rattle.std.specs.Prelude.{◌≡◌, List, ◌+◌, ◌<◌, ◌≤◌, ◌^◌, ◌-◌, [], ◌∷◌, ◌++◌, take, length, None, Some, IsSome, IfSome, OnOk, OnErr, IfOk, IfErr, IsErrOf, true};
ghost use Rattle.std.specs.List.{flat_map};
ghost use Rattle.journal.specs.declared.unit.Unit.{Unit as JournalUnit};
ghost use Rattle.journal.specs.declared.unit.Unit.TheVariants.{Lone, Whole, Lock, Back, End};
ghost use Rattle.std.specs.FinMap as finmap;
ghost use Rattle.std.specs.FinMap.{is_sorted};
ghost use Rattle.collation.specs.Changes.{changed};
ghost use Rattle.collation.specs.Order.{ref_cmp};
ghost use Rattle.journal.specs.Adopted.{adopted_units};
ghost use Rattle.journal.specs.Based.{IsBaseOf, database_of};
ghost use Rattle.journal.specs.Format.{unit_bytes};
ghost use Rattle.journal.specs.History.{initial, after};
ghost use Rattle.journal.specs.Kept.{claims_of, job_of, since, HasNoNumber, HasNoRoom};
ghost use Rattle.command.specs.declared.access.DataCommand.TheVariants.{Set, Kill, Look};
ghost use Rattle.command.specs.declared.access.Look.TheVariants.{Get, Order};
ghost use Rattle.command.specs.declared.access.Answer.TheVariants.{Done, Value};
ghost use Rattle.journal.specs.Stored.{Each, FitsUnit};

use crate::Units;
use crate::base::Base;
use crate::before::Before;
use crate::chronicle::Chronicle;
use crate::exchanges::ExchangeLog;
use crate::gets::Gets;
use crate::receipts::{Receipts, Source};
use crate::tallies::Tallies;
use collation::{Direction, Job, Text};
use command::{Answer, DataCommand, Extent};
use key_codec::{Key, Place};
use lock_name::LockCommand;
use lock_table::LockTable;
use refusal::Refusal;
use std::alloc::{AllocError, Global};
use std::marker::Model;

// Whose unit is prepared, and whether it counts in the job's tally.
#[derive(Clone, Copy, Drop)]
pub(crate) struct Prepared {
    pub(crate) job: Job,
    pub(crate) is_tallied: bool,
}

/// The units after the base, as bytes, and behind them one that is prepared or none. Room is kept for the ends of as many
/// sessions as asked for it, whatever is written meanwhile.
#[derive(Drop)]
pub struct Journal {
    log: Chronicle,
    prepared: Option<Prepared>,
    // Of all units, those that are dropped among them.
    tallies: Tallies,
}

impl Model for Journal {
    ghost use Rattle.std.specs.Prelude.{length};
    ghost use Rattle.std.specs.Option.{option_map};
    ghost use Rattle.journal.specs.Counting.{AreTallies};
    ghost use Rattle.journal.specs.Kept.{Kept};
    ghost use Rattle.journal.specs.Log.{prepared_in, HoldsPrepared};

    ghost Value = { Kept };

    ghost view = { λ j. record { units = j.log.units; base = j.log.base; prepared = prepared_in (option_map (λ p. p.job) j.prepared) j.log; ends = j.log.ends } };

    ghost invariant = { λ j. HoldsPrepared j.prepared j.log (length j.tallies) × AreTallies j.tallies j.log.units };
}

/// Says that a unit stands in the journal. It can't be copied.
#[derive(Drop)]
pub struct Receipt {
    pub(crate) job: Job,
    pub(crate) number: u64,
    pub(crate) source: Source,
}

impl Model for Receipt {
    ghost use Rattle.journal.specs.Claims.{unit_from};
    ghost use Rattle.journal.specs.Kept.{Claim};

    ghost Value = { Claim };

    ghost view = { λ r. record { job = r.job; number = r.number; unit = unit_from r.source r.job } };
}

impl Receipt {
    /// The job whose unit it is.
    pub fn job(&self) -> Job
        ensures { result ≡ self.now.job }
    {
        self.job
    }

    /// The unit's number in the journal, from 1 on.
    pub fn number(&self) -> u64
        ensures { result ≡ self.now.number }
    {
        self.number
    }
}

impl Journal {
    /// A journal without units. Takes no memory.
    pub fn new(alloc: Global) -> Journal
        ensures units { result.units ≡ [] }
        ensures base { result.base ≡ 0 }
        ensures ends { result.ends ≡ 0 }
        ensures prepared { result.prepared ≡ None }
    {
        Journal {
            log: Chronicle::new(alloc),
            prepared: None,
            tallies: Tallies::new(alloc),
        }
    }

    /// A journal that takes a database over: it begins with a base at this number, at which these are the references
    /// with a value, nothing is locked, and no job has a tally. The next unit has the number after it. For contracts the
    /// units up to it are a history that leaves just this (`adopted_units`); no bytes keep it. Takes no memory.
    pub fn adopt(alloc: Global, number: u64, nodes: Vec<(Key, Text)>) -> Journal
        requires sorted { nodes.items ≡ finmap.entries (database_of nodes.items) }
        requires nothing { number ≡ 0 → nodes.items ≡ [] }
        ensures units { result.units ≡ adopted_units number nodes.items }
        ensures base { result.base ≡ number }
        ensures ends { result.ends ≡ 0 }
        ensures prepared { result.prepared ≡ None }
    {
        Journal {
            log: Chronicle::adopt(alloc, number, nodes),
            prepared: None,
            tallies: Tallies::new(alloc),
        }
    }

    /// How many units there are: the number of the newest.
    pub fn len(&self) -> u64
        ensures { result ≡ length self.now.units }
    {
        self.log.len()
    }

    /// How many bytes the units after the base take.
    pub fn size(&self) -> usize
        ensures { result ≡ length (flat_map unit_bytes (since self.now)) }
    {
        self.log.as_slice().len()
    }

    /// The bytes of the units after the base, one after the other, in the format of docs/FORMATS.md, "Units".
    pub fn as_slice(&self) -> &[u8]
        ensures bytes { result.now ≡ flat_map unit_bytes (since self.now) }
        ensures fit { Each FitsUnit (since self.now) }
    {
        self.log.as_slice()
    }

    /// The units after the base, read back one by one: the first has the number after the base's.
    pub fn units(&self) -> Units<'_>
        ensures { result ≡ since self.now }
    {
        self.log.units()
    }

    /// Writes the unit of a data command outside a transaction, behind the units.
    ///
    /// Refusals: `StampsUsedUp` exactly where the journal would pass 2^64 - 1 units, else `OutOfMemory`. After either
    /// the units are as they were, and none is prepared. What was prepared and not pushed before is gone.
    pub fn prepare_lone(
        &mut self,
        job: Job,
        command: &DataCommand,
        answer: &Answer,
    ) -> Result<(), Refusal>
        ensures units { self.new.units ≡ self.old.units }
        ensures base { self.new.base ≡ self.old.base }
        ensures ends { self.new.ends ≡ self.old.ends }
        ensures prepared { OnOk result (self.new.prepared ≡ Some (Lone job command.now answer.now)) }
        ensures refused { OnErr result (self.new.prepared ≡ None) }
        ensures used_up { 2 ^ 64 - 1 < length self.old.units + 1 → IsErrOf result Refusal.StampsUsedUp }
        ensures cause { IfErr result (λ refusal. HasNoRoom refusal 1 (length self.old.units)) }
    {
        self.prepared = None;
        self.log.begin()?;
        self.tallies.make_room(job)?;
        self.log.write_lone(job, command, answer)?;
        self.prepared = Some(Prepared {
            job,
            is_tallied: true,
        });
        Ok(())
    }

    /// Writes the unit of a SET outside a transaction, from its key and its value, with one look for room; refused as `prepare_lone`.
    pub fn prepare_set(&mut self, job: Job, key: &Key, value: &[u8]) -> Result<(), Refusal>
        ensures units { self.new.units ≡ self.old.units }
        ensures base { self.new.base ≡ self.old.base }
        ensures ends { self.new.ends ≡ self.old.ends }
        ensures prepared { OnOk result (self.new.prepared ≡ Some (Lone job (Set key.now value.now) Done)) }
        ensures refused { OnErr result (self.new.prepared ≡ None) }
        ensures used_up { 2 ^ 64 - 1 < length self.old.units + 1 → IsErrOf result Refusal.StampsUsedUp }
        ensures cause { IfErr result (λ refusal. HasNoRoom refusal 1 (length self.old.units)) }
    {
        self.prepared = None;
        self.log.begin()?;
        self.tallies.make_room(job)?;
        self.log.write_set(job, key, value)?;
        self.prepared = Some(Prepared {
            job,
            is_tallied: true,
        });
        Ok(())
    }

    /// Writes the unit of a $GET without a default outside a transaction, from its key and what it was answered; refused as `prepare_lone`.
    pub fn prepare_get(&mut self, job: Job, key: &Key, value: &[u8]) -> Result<(), Refusal>
        ensures units { self.new.units ≡ self.old.units }
        ensures base { self.new.base ≡ self.old.base }
        ensures ends { self.new.ends ≡ self.old.ends }
        ensures prepared { OnOk result (self.new.prepared ≡ Some (Lone job (Look (Get key.now None)) (Value value.now))) }
        ensures refused { OnErr result (self.new.prepared ≡ None) }
        ensures used_up { 2 ^ 64 - 1 < length self.old.units + 1 → IsErrOf result Refusal.StampsUsedUp }
        ensures cause { IfErr result (λ refusal. HasNoRoom refusal 1 (length self.old.units)) }
    {
        self.prepared = None;
        self.log.begin()?;
        self.tallies.make_room(job)?;
        self.log.write_get(job, key, value)?;
        self.prepared = Some(Prepared {
            job,
            is_tallied: true,
        });
        Ok(())
    }

    /// Writes the unit of a $ORDER outside a transaction, from its place and what it was answered; refused as
    /// `prepare_lone`.
    pub fn prepare_order(
        &mut self,
        job: Job,
        place: &Place,
        direction: Direction,
        value: &[u8],
    ) -> Result<(), Refusal>
        ensures units { self.new.units ≡ self.old.units }
        ensures base { self.new.base ≡ self.old.base }
        ensures ends { self.new.ends ≡ self.old.ends }
        ensures prepared { OnOk result (self.new.prepared ≡ Some (Lone job (Look (Order place.now direction)) (Value value.now))) }
        ensures refused { OnErr result (self.new.prepared ≡ None) }
        ensures used_up { 2 ^ 64 - 1 < length self.old.units + 1 → IsErrOf result Refusal.StampsUsedUp }
        ensures cause { IfErr result (λ refusal. HasNoRoom refusal 1 (length self.old.units)) }
    {
        self.prepared = None;
        self.log.begin()?;
        self.tallies.make_room(job)?;
        self.log.write_order(job, place, direction, value)?;
        self.prepared = Some(Prepared {
            job,
            is_tallied: true,
        });
        Ok(())
    }

    /// Writes the unit of a KILL, KVALUE or KSUBSCRIPTS outside a transaction, from its key; refused as `prepare_lone`.
    pub fn prepare_kill(&mut self, job: Job, key: &Key, extent: Extent) -> Result<(), Refusal>
        ensures units { self.new.units ≡ self.old.units }
        ensures base { self.new.base ≡ self.old.base }
        ensures ends { self.new.ends ≡ self.old.ends }
        ensures prepared { OnOk result (self.new.prepared ≡ Some (Lone job (Kill key.now extent) Done)) }
        ensures refused { OnErr result (self.new.prepared ≡ None) }
        ensures used_up { 2 ^ 64 - 1 < length self.old.units + 1 → IsErrOf result Refusal.StampsUsedUp }
        ensures cause { IfErr result (λ refusal. HasNoRoom refusal 1 (length self.old.units)) }
    {
        self.prepared = None;
        self.log.begin()?;
        self.tallies.make_room(job)?;
        self.log.write_kill(job, key, extent)?;
        self.prepared = Some(Prepared {
            job,
            is_tallied: true,
        });
        Ok(())
    }

    /// Writes the unit of a transaction with these exchanges; refused as `prepare_lone`.
    pub fn prepare_whole(&mut self, job: Job, exchanges: &ExchangeLog) -> Result<(), Refusal>
        ensures units { self.new.units ≡ self.old.units }
        ensures base { self.new.base ≡ self.old.base }
        ensures ends { self.new.ends ≡ self.old.ends }
        ensures prepared { OnOk result (self.new.prepared ≡ Some (Whole job exchanges.now)) }
        ensures refused { OnErr result (self.new.prepared ≡ None) }
        ensures used_up { 2 ^ 64 - 1 < length self.old.units + 1 → IsErrOf result Refusal.StampsUsedUp }
        ensures cause { IfErr result (λ refusal. HasNoRoom refusal 1 (length self.old.units)) }
    {
        self.prepared = None;
        self.log.begin()?;
        self.tallies.make_room(job)?;
        self.log.write_whole(job, exchanges)?;
        self.prepared = Some(Prepared {
            job,
            is_tallied: true,
        });
        Ok(())
    }

    /// Writes the unit of a LOCK; refused as `prepare_lone`.
    pub fn prepare_lock(
        &mut self,
        job: Job,
        inside: bool,
        command: &LockCommand,
        had: bool,
    ) -> Result<(), Refusal>
        ensures units { self.new.units ≡ self.old.units }
        ensures base { self.new.base ≡ self.old.base }
        ensures ends { self.new.ends ≡ self.old.ends }
        ensures prepared { OnOk result (self.new.prepared ≡ Some (Lock job inside command.now had)) }
        ensures refused { OnErr result (self.new.prepared ≡ None) }
        ensures used_up { 2 ^ 64 - 1 < length self.old.units + 1 → IsErrOf result Refusal.StampsUsedUp }
        ensures cause { IfErr result (λ refusal. HasNoRoom refusal 1 (length self.old.units)) }
    {
        self.prepared = None;
        self.log.begin()?;
        self.tallies.make_room(job)?;
        self.log.write_lock(job, inside, command, had)?;
        self.prepared = Some(Prepared {
            job,
            is_tallied: true,
        });
        Ok(())
    }

    /// Writes the unit of a rollback or restart; refused as `prepare_lone`.
    pub fn prepare_back(&mut self, job: Job) -> Result<(), Refusal>
        ensures units { self.new.units ≡ self.old.units }
        ensures base { self.new.base ≡ self.old.base }
        ensures ends { self.new.ends ≡ self.old.ends }
        ensures prepared { OnOk result (self.new.prepared ≡ Some (Back job)) }
        ensures refused { OnErr result (self.new.prepared ≡ None) }
        ensures used_up { 2 ^ 64 - 1 < length self.old.units + 1 → IsErrOf result Refusal.StampsUsedUp }
        ensures cause { IfErr result (λ refusal. HasNoRoom refusal 1 (length self.old.units)) }
    {
        self.prepared = None;
        self.log.begin()?;
        self.log.write_back(job)?;
        self.prepared = Some(Prepared {
            job,
            is_tallied: false,
        });
        Ok(())
    }

    /// Writes the unit of a session's end; refused as `prepare_lone`.
    pub fn prepare_end(&mut self, job: Job) -> Result<(), Refusal>
        ensures units { self.new.units ≡ self.old.units }
        ensures base { self.new.base ≡ self.old.base }
        ensures ends { self.new.ends ≡ self.old.ends }
        ensures prepared { OnOk result (self.new.prepared ≡ Some (End job)) }
        ensures refused { OnErr result (self.new.prepared ≡ None) }
        ensures used_up { 2 ^ 64 - 1 < length self.old.units + 1 → IsErrOf result Refusal.StampsUsedUp }
        ensures cause { IfErr result (λ refusal. HasNoRoom refusal 1 (length self.old.units)) }
    {
        self.prepared = None;
        self.log.begin()?;
        self.log.write_end(job)?;
        self.prepared = Some(Prepared {
            job,
            is_tallied: false,
        });
        Ok(())
    }

    /// Keeps room for the end of one session more.
    ///
    /// Refusals, after which nothing has changed: `OutOfMemory`.
    pub fn keep_end(&mut self) -> Result<(), Refusal>
        ensures kept { OnOk result (self.new ≡ record self.old { ends = self.old.ends + 1 }) }
        ensures refused { OnErr result (self.new ≡ self.old) }
        ensures cause { IfErr result (λ refusal. refusal ≡ Refusal.OutOfMemory) }
    {
        match self.log.keep_end() {
            Ok(()) => Ok(()),
            Err(_) => Err(Refusal::OutOfMemory),
        }
    }

    /// Writes the unit of the end of a session for which room is kept, into that room. Takes no memory.
    ///
    /// Refusals: `StampsUsedUp` where the journal would pass 2^64 - 1 units. After it the units are as they were, and none
    /// is prepared.
    pub fn prepare_kept_end(&mut self, job: Job) -> Result<(), Refusal>
        requires { 1 ≤ self.old.ends }
        ensures units { self.new.units ≡ self.old.units }
        ensures base { self.new.base ≡ self.old.base }
        ensures ends { OnOk result (self.new.ends ≡ self.old.ends - 1) }
        ensures prepared { OnOk result (self.new.prepared ≡ Some (End job)) }
        ensures refused { OnErr result (self.new.prepared ≡ None) }
        ensures same_ends { OnErr result (self.new.ends ≡ self.old.ends) }
        ensures used_up { 2 ^ 64 - 1 < length self.old.units + 1 → IsErrOf result Refusal.StampsUsedUp }
        ensures cause { IfErr result (λ refusal. HasNoNumber refusal 1 (length self.old.units)) }
    {
        self.prepared = None;
        self.log.begin()?;
        self.log.write_kept_end(job);
        self.prepared = Some(Prepared {
            job,
            is_tallied: false,
        });
        Ok(())
    }

    /// Adds the prepared unit with the next number. Copies nothing and takes no memory.
    pub fn push_prepared(&mut self) -> Receipt
        requires { IsSome self.old.prepared }
        ensures units { IfSome self.old.prepared (λ unit. self.new.units ≡ self.old.units ++ unit ∷ []) }
        ensures base { self.new.base ≡ self.old.base }
        ensures ends { self.new.ends ≡ self.old.ends }
        ensures none_left { self.new.prepared ≡ None }
        ensures receipt { IfSome self.old.prepared (λ unit. result ≡ record { job = job_of unit; number = length self.new.units; unit = unit }) }
    {
        let Some(prepared) = self.prepared else {
            unreachable!()
        };
        let source = Source::Prepared(Before::of(&*self));
        self.log.push();
        if prepared.is_tallied {
            self.tallies.add(prepared.job);
        }
        self.prepared = None;
        Receipt {
            job: prepared.job,
            number: self.log.len(),
            source,
        }
    }

    /// Adds these $GETs as units, with the next numbers in their order: all of them, or none. Their bytes are copied as
    /// they are. A unit that was prepared is gone.
    ///
    /// Refusals, after which the units are as they were: `StampsUsedUp` where the journal has no number for each of them;
    /// `OutOfMemory`.
    pub fn push_gets(&mut self, gets: &Gets) -> Result<Receipts, Refusal>
        ensures units { OnOk result (self.new.units ≡ self.old.units ++ gets.now.units) }
        ensures base { self.new.base ≡ self.old.base }
        ensures ends { self.new.ends ≡ self.old.ends }
        ensures none_left { self.new.prepared ≡ None }
        ensures receipts { IfOk result (λ receipts. receipts ≡ claims_of (length self.old.units + 1) gets.now.units) }
        ensures counted { OnOk result (length self.old.units + length gets.now.units < 2 ^ 64) }
        ensures refused { OnErr result (self.new.units ≡ self.old.units) }
        ensures cause { IfErr result (λ refusal. HasNoRoom refusal (length gets.now.units) (length self.old.units)) }
    {
        self.prepared = None;
        self.log.clear_behind();
        let number = self.log.len();
        self.tallies.make_room(gets.job())?;
        self.log.append(gets)?;
        self.tallies.add_all(gets.job(), gets.len());
        Ok(Receipts::of(gets, number))
    }

    /// What the dropped units leave: their number, the database, the locks, and a tally for each job.
    pub fn base(&self) -> &Base
        ensures { IsBaseOf result.now (take self.now.base self.now.units) }
    {
        self.log.base()
    }

    /// Moves the base on to this number, to which these changes lead from the base's database; their references rise. They
    /// are merged into the base's list where it stands: before the first that takes a node out or puts one in nothing moves,
    /// and after it each node at most once. Memory is taken for the changes, for copies of locks and tallies, and for the
    /// bytes of the units after this number.
    ///
    /// Refusals: `OutOfMemory`, after which units and base are as they were. A unit that was prepared is gone.
    pub fn checkpoint(
        &mut self,
        number: u64,
        changes: Vec<(Key, Option<Text>)>,
    ) -> Result<(), Refusal>
        requires from { self.old.base ≤ number }
        requires to { number ≤ length self.old.units }
        requires rising { is_sorted ref_cmp changes.items ≡ true }
        requires changes { changed changes.items (after (take self.old.base self.old.units) initial).map ≡ (after (take number self.old.units) initial).map }
        ensures units { self.new.units ≡ self.old.units }
        ensures base { OnOk result (self.new.base ≡ number) }
        ensures refused { OnErr result (self.new.base ≡ self.old.base) }
        ensures ends { self.new.ends ≡ self.old.ends }
        ensures prepared { self.new.prepared ≡ None }
        ensures cause { IfErr result (λ refusal. refusal ≡ Refusal.OutOfMemory) }
    {
        self.prepared = None;
        match self.log.checkpoint(number, changes) {
            Ok(()) => Ok(()),
            Err(_) => Err(Refusal::OutOfMemory),
        }
    }

    /// Moves the base on behind all units, which leave these nodes and these locks: no bytes are left. Reads nothing back;
    /// memory is taken for a copy of the tallies. A unit that was prepared is gone.
    ///
    /// Refusals: `OutOfMemory`, after which nothing has changed.
    pub fn checkpoint_all(
        &mut self,
        nodes: Vec<(Key, Text)>,
        locks: LockTable,
    ) -> Result<(), Refusal>
        requires nodes { nodes.items ≡ finmap.entries (after self.old.units initial).map }
        requires locks { locks ≡ (after self.old.units initial).locks }
        ensures units { self.new.units ≡ self.old.units }
        ensures ends { self.new.ends ≡ self.old.ends }
        ensures base { OnOk result (self.new.base ≡ length self.old.units) }
        ensures prepared { OnOk result (self.new.prepared ≡ None) }
        ensures refused { OnErr result (self.new ≡ self.old) }
        ensures cause { IfErr result (λ refusal. refusal ≡ Refusal.OutOfMemory) }
    {
        match self.tallies.copy() {
            Ok(tallies) => {
                self.prepared = None;
                self.log.checkpoint_all(nodes, locks, tallies);
                Ok(())
            }
            Err(_) => Err(Refusal::OutOfMemory),
        }
    }
}

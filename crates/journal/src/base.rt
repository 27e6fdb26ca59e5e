//! What the units leave that are dropped, and how it is moved on.
ghost use Rattle.std.specs.Prelude.{◌≡◌, ◌≤◌, ◌<◌, ◌^◌, ◌+◌, [], true, OnOk, OnErr, IfOk, take, drop, length, vec_len, vec_capacity};
ghost use Rattle.std.specs.FinMap as finmap;
ghost use Rattle.std.specs.FinMap.{is_sorted};
ghost use Rattle.collation.specs.Changes.{changed};
ghost use Rattle.collation.specs.Order.{ref_cmp};
ghost use Rattle.journal.specs.Based.{database_of, locks_of_unit, locks_on, map_in, locks_in, HasPassed};
ghost use Rattle.journal.specs.Counting.{tally_in, counted_unit, counted_on};
ghost use Rattle.journal.specs.History.{initial};
ghost use Rattle.journal.specs.Log.{Stands, KeepsRoom};

use crate::log::Log;
use crate::merging::{make_room, merged};
use crate::tallies::Tallies;
use crate::{Unit, Units};
use collation::{Job, Text};
use key_codec::Key;
use lock_table::LockTable;
use std::alloc::{AllocError, Global};
use std::marker::Model;
use std::mem;

/// What the units up to a number leave: each reference with a value, in their order, and the locks; and how many of
/// these units each job has, rollbacks, restarts and ends of sessions aside.
#[derive(Drop)]
pub struct Base {
    number: u64,
    nodes: Vec<(Key, Text)>,
    locks: LockTable,
    tallies: Tallies,
}

impl Model for Base {
    ghost use Rattle.std.specs.Prelude.{◌≡◌};
    ghost use Rattle.std.specs.FinMap as finmap;
    ghost use Rattle.collation.specs.Database.{Database};
    ghost use Rattle.journal.specs.Based.{Based, based_code, database_of};

    ghost Value = { Based };

    ghost coded = { based_code };

    ghost view = { λ b. record { number = b.number; state = record { map = database_of b.nodes.items; locks = b.locks }; tallies = b.tallies } };

    ghost invariant = { λ b. b.nodes.items ≡ finmap.entries (database_of b.nodes.items) };
}

impl Base {
    /// No unit is dropped.
    pub(crate) fn new(alloc: Global) -> Base
        ensures number { result.number ≡ 0 }
        ensures state { result.state ≡ initial }
        ensures tallies { result.tallies ≡ [] }
    {
        Base {
            number: 0,
            nodes: Vec::new(alloc),
            locks: LockTable::new(alloc),
            tallies: Tallies::new(alloc),
        }
    }

    /// So many units are dropped; they leave these references with their values, and no locks.
    pub(crate) fn adopt(alloc: Global, number: u64, nodes: Vec<(Key, Text)>) -> Base
        requires { nodes.items ≡ finmap.entries (database_of nodes.items) }
        ensures number { result.number ≡ number }
        ensures state { result.state ≡ record { map = database_of nodes.items; locks = finmap.empty } }
        ensures tallies { result.tallies ≡ [] }
    {
        Base {
            number,
            nodes,
            locks: LockTable::new(alloc),
            tallies: Tallies::new(alloc),
        }
    }

    /// How many units are dropped: the number of the last of them.
    pub fn number(&self) -> u64
        ensures { result ≡ self.now.number }
    {
        self.number
    }

    /// The references with a value, in their order, with their values.
    pub fn nodes(&self) -> &[(Key, Text)]
        ensures { result.now ≡ finmap.entries (map_in self.now) }
    {
        &self.nodes
    }

    /// The locks of all jobs.
    pub fn locks(&self) -> &LockTable
        ensures { result.now ≡ locks_in self.now }
    {
        &self.locks
    }

    /// How many of the dropped units are the job's, rollbacks, restarts and ends of sessions aside.
    pub fn tally(&self, job: Job) -> u64
        ensures { result ≡ tally_in self.now.tallies job }
    {
        self.tallies.count(job)
    }

    // A copy of locks and tallies, to be moved on.
    fn as_moving(&self) -> Result<Moving, AllocError>
        ensures locks { IfOk result (λ m. m.locks ≡ locks_in self.now) }
        ensures tallies { IfOk result (λ m. m.tallies ≡ self.now.tallies) }
    {
        let tallies = self.tallies.copy()?;
        match self.locks.copy() {
            Ok(locks) => Ok(Moving { locks, tallies }),
            Err(_) => Err(AllocError),
        }
    }

    // Locks and tallies moved on by so many units of the log, and what is left of it.
    fn passed(&self, alloc: Global, log: &Log, count: u64) -> Result<Passed, AllocError>
        requires { count ≤ length log.now.units }
        ensures locks { IfOk result (λ p. p.moving.locks ≡ locks_on (take count log.now.units) (locks_in self.now)) }
        ensures tallies { IfOk result (λ p. p.moving.tallies ≡ counted_on (take count log.now.units) self.now.tallies) }
        ensures rest { IfOk result (λ p. Stands p.rest.bytes.items p.rest.left (drop count log.now.units)) }
        ensures room { IfOk result (λ p. KeepsRoom (vec_len p.rest.bytes) log.now.ends (vec_capacity p.rest.bytes)) }
    {
        let mut moving = self.as_moving()?;
        let mut units = log.units();
        moving.pass_over(&mut units, count)?;
        let (bytes, left) = units.rest();
        let bytes = log.copy(alloc, bytes)?;
        let rest = Rest { bytes, left };
        Ok(Passed { moving, rest })
    }

    /// The base of all units: so many, which leave this.
    pub(crate) fn of_all(
        number: u64,
        nodes: Vec<(Key, Text)>,
        locks: LockTable,
        tallies: Tallies,
    ) -> Base
        requires { nodes.items ≡ finmap.entries (database_of nodes.items) }
        ensures number { result.number ≡ number }
        ensures state { result.state ≡ record { map = database_of nodes.items; locks = locks } }
        ensures tallies { result.tallies ≡ tallies }
    {
        Base {
            number,
            nodes,
            locks,
            tallies,
        }
    }

    /// The base is moved on by so many units of the log, which leave the database with these changes. Answers what
    /// is left of the log. All memory is taken first; where it is refused nothing has changed.
    pub(crate) fn move_on(
        &mut self,
        alloc: Global,
        log: &Log,
        count: u64,
        changes: Vec<(Key, Option<Text>)>,
    ) -> Result<Rest, AllocError>
        requires count { count ≤ length log.now.units }
        requires number { self.old.number + count < 2 ^ 64 }
        requires rising { is_sorted ref_cmp changes.items ≡ true }
        ensures number { OnOk result (self.new.number ≡ self.old.number + count) }
        ensures state { OnOk result (self.new.state ≡ (record { map = changed changes.items (map_in self.old); locks = locks_on (take count log.now.units) (locks_in self.old) })) }
        ensures tallies { OnOk result (self.new.tallies ≡ counted_on (take count log.now.units) self.old.tallies) }
        ensures rest { IfOk result (λ r. Stands r.bytes.items r.left (drop count log.now.units)) }
        ensures room { IfOk result (λ r. KeepsRoom (vec_len r.bytes) log.now.ends (vec_capacity r.bytes)) }
        ensures refused { OnErr result (self.new ≡ self.old) }
    {
        let passed = self.passed(alloc, log, count)?;
        let waiting = make_room(&mut self.nodes, changes.len())?;
        let nodes = mem::replace(&mut self.nodes, Vec::new(alloc));
        *self = Base {
            number: self.number + count,
            nodes: merged(nodes, waiting, changes),
            locks: passed.moving.locks,
            tallies: passed.moving.tallies,
        };
        Ok(passed.rest)
    }
}

// Locks and tallies on their way from one base to the next.
#[derive(Drop)]
struct Moving {
    locks: LockTable,
    tallies: Tallies,
}

impl Moving {
    // One unit further.
    fn pass(&mut self, unit: &Unit) -> Result<(), AllocError>
        ensures locks { OnOk result (self.new.locks ≡ locks_of_unit unit.now self.old.locks) }
        ensures tallies { OnOk result (self.new.tallies ≡ counted_unit unit.now self.old.tallies) }
    {
        match unit {
            Unit::Lone(job, _, _) => self.tallies.count_one(*job),
            Unit::Whole(job, _) => {
                self.locks.commit_job(*job);
                self.tallies.count_one(*job)
            }
            Unit::Lock(job, inside, command, _) => {
                match self.locks.do_lock(*job, *inside, command) {
                    Ok(()) => self.tallies.count_one(*job),
                    Err(_) => Err(AllocError),
                }
            }
            Unit::Back(job) => {
                self.locks.back_job(*job);
                Ok(())
            }
            Unit::End(job) => {
                self.locks.end_job(*job);
                Ok(())
            }
        }
    }

    // The next unit, read back.
    fn pass_next(&mut self, units: &mut Units<'_>) -> Result<(), AllocError>
        requires { 0 < length units.old }
        ensures { OnOk result (HasPassed self.old.locks self.new.locks self.old.tallies self.new.tallies units.old units.new) }
    {
        match units.next() {
            Some(Ok(unit)) => {
                let passed = self.pass(&unit);
                drop(unit);
                passed
            }
            Some(Err(refused)) => Err(refused),
            None => unreachable!(),
        }
    }

    // So many units further.
    fn pass_over(&mut self, units: &mut Units<'_>, count: u64) -> Result<(), AllocError>
        requires { count ≤ length units.old }
        ensures left { OnOk result (units.new ≡ drop count units.old) }
        ensures locks { OnOk result (self.new.locks ≡ locks_on (take count units.old) self.old.locks) }
        ensures tallies { OnOk result (self.new.tallies ≡ counted_on (take count units.old) self.old.tallies) }
    {
        for _ in 0..count {
            self.pass_next(units)?;
        }
        Ok(())
    }
}

/// The bytes of the units that are left of a log, and how many these are.
#[derive(Drop)]
pub(crate) struct Rest {
    pub(crate) bytes: Vec<u8>,
    pub(crate) left: u64,
}

// Locks and tallies after some units, and what is left after these.
#[derive(Drop)]
struct Passed {
    moving: Moving,
    rest: Rest,
}

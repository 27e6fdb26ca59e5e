//! The log: the bytes of unit after unit, and behind them those of a unit that is not yet one of them.
ghost use Rattle.std.specs.Prelude.{◌≡◌, None, ◌≤◌, ◌-◌, ◌+◌, ◌*◌, ◌<◌, ◌^◌, ◌++◌, [], ◌∷◌, List, ℕ, take, drop, length, IfSome, IfOk, IsOk, OnOk, OnErr, vec_len, vec_capacity};
ghost use Rattle.std.specs.List.{flat_map};
ghost use Rattle.journal.specs.declared.unit.Unit.{Unit as JournalUnit};
ghost use Rattle.journal.specs.declared.unit.Unit.TheVariants.{Lone, Whole, Lock, Back, End};
ghost use Rattle.journal.specs.Format.{unit_bytes};
ghost use Rattle.journal.specs.Log.{unit_in, Stands, IsUnitOf, KeepsRoom};
ghost use Rattle.command.specs.declared.access.DataCommand.TheVariants.{Set, Kill, Look};
ghost use Rattle.command.specs.declared.access.Look.TheVariants.{Get, Order};
ghost use Rattle.command.specs.declared.access.Answer.TheVariants.{Done, Value};
ghost use Rattle.journal.specs.Stored.{Each, FitsUnit};

use crate::Units;
use crate::buffer::make_room;
use crate::exchanges::ExchangeLog;
use crate::gets::Gets;
use crate::write::{
    push_back, push_end, push_get, push_kill, push_lock, push_lone, push_order, push_set,
    push_whole, write_end,
};
use collation::{Direction, Job};
use command::{Answer, DataCommand, Extent};
use key_codec::{Key, Place};
use lock_name::LockCommand;
use std::alloc::{AllocError, Global};
use std::marker::Model;

// How many bytes of room a log without units keeps at most, what is kept for ends aside.
const MOST_EMPTY: usize = 65536;

/// Units as bytes, up to `end`, and room for the ends of so many sessions behind all that stands there. It is seen as
/// the units, the bytes behind them, and how many ends have room.
#[derive(Debug, Drop)]
pub(crate) struct Log {
    bytes: Vec<u8>,
    end: usize,
    count: u64,
    ends: usize,
}

impl Model for Log {
    ghost use Rattle.std.specs.Prelude.{take, drop, vec_len, vec_capacity};
    ghost use Rattle.journal.specs.Log.{Logged, units_in, KeepsUnits, KeepsRoom};

    ghost Value = { Logged };

    ghost view = { λ l. record { units = units_in l.count (take l.end l.bytes.items); behind = drop l.end l.bytes.items; ends = l.ends } };

    ghost invariant = { λ l. KeepsUnits l.bytes.items l.end l.count × KeepsRoom (vec_len l.bytes) l.ends (vec_capacity l.bytes) };
}

// What stands before the end.
fn front(bytes: &[u8], end: usize) -> &[u8]
    requires { end ≤ length bytes.now }
    ensures { result.now ≡ take end bytes.now }
{
    &bytes[..end]
}

// What was written behind the end stays where there is room behind it for so many ends; it is taken away where memory was
// refused for either.
fn settle(
    bytes: &mut Vec<u8>,
    end: usize,
    ends: usize,
    written: Result<(), AllocError>,
) -> Result<(), AllocError>
    requires { KeepsRoom end ends (vec_capacity bytes.old) }
    ensures ok { OnOk result (IsOk written × (bytes.new.items ≡ bytes.old.items)) }
    ensures err { OnErr result (bytes.new.items ≡ take end bytes.old.items) }
    ensures room { KeepsRoom (vec_len bytes.new) ends (vec_capacity bytes.new) }
{
    if written.is_ok() && make_room(bytes, ends * 10).is_ok() {
        return Ok(());
    }
    bytes.truncate(end);
    Err(AllocError)
}

impl Log {
    pub(crate) fn new(alloc: Global) -> Log
        ensures units { result.units ≡ [] }
        ensures behind { result.behind ≡ [] }
        ensures ends { result.ends ≡ 0 }
    {
        Log {
            bytes: Vec::new(alloc),
            end: 0,
            count: 0,
            ends: 0,
        }
    }

    pub(crate) fn len(&self) -> u64
        ensures { result ≡ length self.now.units }
    {
        self.count
    }

    pub(crate) fn allocator(&self) -> Global {
        *self.bytes.allocator()
    }

    pub(crate) fn as_slice(&self) -> &[u8]
        ensures bytes { result.now ≡ flat_map unit_bytes self.now.units }
        ensures fit { Each FitsUnit self.now.units }
    {
        &self.bytes[..self.end]
    }

    pub(crate) fn units(&self) -> Units<'_>
        ensures { result ≡ self.now.units }
    {
        Units::new(
            *self.bytes.allocator(),
            front(&self.bytes, self.end),
            self.count,
        )
    }

    /// Takes away what stands behind the units.
    pub(crate) fn begin(&mut self)
        ensures units { self.new.units ≡ self.old.units }
        ensures ends { self.new.ends ≡ self.old.ends }
        ensures behind { self.new.behind ≡ [] }
    {
        self.bytes.truncate(self.end);
    }

    /// Writes a data command outside a transaction behind the units. Where memory is refused nothing stands there.
    pub(crate) fn write_lone(
        &mut self,
        job: Job,
        command: &DataCommand,
        answer: &Answer,
    ) -> Result<(), AllocError>
        requires { self.old.behind ≡ [] }
        ensures units { self.new.units ≡ self.old.units }
        ensures ends { self.new.ends ≡ self.old.ends }
        ensures ok { OnOk result (IsUnitOf self.new.behind job (Lone job command.now answer.now)) }
        ensures err { OnErr result (self.new.behind ≡ []) }
    {
        let written = push_lone(&mut self.bytes, job, command, answer);
        settle(&mut self.bytes, self.end, self.ends, written)
    }

    /// Writes a SET outside a transaction, from its key and its value; refused as `write_lone`.
    pub(crate) fn write_set(&mut self, job: Job, key: &Key, value: &[u8]) -> Result<(), AllocError>
        requires { self.old.behind ≡ [] }
        ensures units { self.new.units ≡ self.old.units }
        ensures ends { self.new.ends ≡ self.old.ends }
        ensures ok { OnOk result (IsUnitOf self.new.behind job (Lone job (Set key.now value.now) Done)) }
        ensures err { OnErr result (self.new.behind ≡ []) }
    {
        let written = push_set(&mut self.bytes, job, key, value);
        settle(&mut self.bytes, self.end, self.ends, written)
    }

    /// Writes a $GET without a default outside a transaction, from its key and what it was answered; refused as `write_lone`.
    pub(crate) fn write_get(&mut self, job: Job, key: &Key, value: &[u8]) -> Result<(), AllocError>
        requires { self.old.behind ≡ [] }
        ensures units { self.new.units ≡ self.old.units }
        ensures ends { self.new.ends ≡ self.old.ends }
        ensures ok { OnOk result (IsUnitOf self.new.behind job (Lone job (Look (Get key.now None)) (Value value.now))) }
        ensures err { OnErr result (self.new.behind ≡ []) }
    {
        let written = push_get(&mut self.bytes, job, key, value);
        settle(&mut self.bytes, self.end, self.ends, written)
    }

    /// Writes a $ORDER outside a transaction, from its place and what it was answered; refused as `write_lone`.
    pub(crate) fn write_order(
        &mut self,
        job: Job,
        place: &Place,
        direction: Direction,
        value: &[u8],
    ) -> Result<(), AllocError>
        requires { self.old.behind ≡ [] }
        ensures units { self.new.units ≡ self.old.units }
        ensures ends { self.new.ends ≡ self.old.ends }
        ensures ok { OnOk result (IsUnitOf self.new.behind job (Lone job (Look (Order place.now direction)) (Value value.now))) }
        ensures err { OnErr result (self.new.behind ≡ []) }
    {
        let written = push_order(&mut self.bytes, job, place, direction, value);
        settle(&mut self.bytes, self.end, self.ends, written)
    }

    /// Writes a KILL, KVALUE or KSUBSCRIPTS outside a transaction, from its key; refused as `write_lone`.
    pub(crate) fn write_kill(
        &mut self,
        job: Job,
        key: &Key,
        extent: Extent,
    ) -> Result<(), AllocError>
        requires { self.old.behind ≡ [] }
        ensures units { self.new.units ≡ self.old.units }
        ensures ends { self.new.ends ≡ self.old.ends }
        ensures ok { OnOk result (IsUnitOf self.new.behind job (Lone job (Kill key.now extent) Done)) }
        ensures err { OnErr result (self.new.behind ≡ []) }
    {
        let written = push_kill(&mut self.bytes, job, key, extent);
        settle(&mut self.bytes, self.end, self.ends, written)
    }

    /// Writes a transaction; refused as `write_lone`.
    pub(crate) fn write_whole(
        &mut self,
        job: Job,
        exchanges: &ExchangeLog,
    ) -> Result<(), AllocError>
        requires { self.old.behind ≡ [] }
        ensures units { self.new.units ≡ self.old.units }
        ensures ends { self.new.ends ≡ self.old.ends }
        ensures ok { OnOk result (IsUnitOf self.new.behind job (Whole job exchanges.now)) }
        ensures err { OnErr result (self.new.behind ≡ []) }
    {
        let written = push_whole(&mut self.bytes, job, exchanges);
        settle(&mut self.bytes, self.end, self.ends, written)
    }

    /// Writes a LOCK; refused as `write_lone`.
    pub(crate) fn write_lock(
        &mut self,
        job: Job,
        inside: bool,
        command: &LockCommand,
        had: bool,
    ) -> Result<(), AllocError>
        requires { self.old.behind ≡ [] }
        ensures units { self.new.units ≡ self.old.units }
        ensures ends { self.new.ends ≡ self.old.ends }
        ensures ok { OnOk result (IsUnitOf self.new.behind job (Lock job inside command.now had)) }
        ensures err { OnErr result (self.new.behind ≡ []) }
    {
        let written = push_lock(&mut self.bytes, job, inside, command, had);
        settle(&mut self.bytes, self.end, self.ends, written)
    }

    /// Writes a rollback or restart; refused as `write_lone`.
    pub(crate) fn write_back(&mut self, job: Job) -> Result<(), AllocError>
        requires { self.old.behind ≡ [] }
        ensures units { self.new.units ≡ self.old.units }
        ensures ends { self.new.ends ≡ self.old.ends }
        ensures ok { OnOk result (IsUnitOf self.new.behind job (Back job)) }
        ensures err { OnErr result (self.new.behind ≡ []) }
    {
        let written = push_back(&mut self.bytes, job);
        settle(&mut self.bytes, self.end, self.ends, written)
    }

    /// Writes the end of a session; refused as `write_lone`.
    pub(crate) fn write_end(&mut self, job: Job) -> Result<(), AllocError>
        requires { self.old.behind ≡ [] }
        ensures units { self.new.units ≡ self.old.units }
        ensures ends { self.new.ends ≡ self.old.ends }
        ensures ok { OnOk result (IsUnitOf self.new.behind job (End job)) }
        ensures err { OnErr result (self.new.behind ≡ []) }
    {
        let written = push_end(&mut self.bytes, job);
        settle(&mut self.bytes, self.end, self.ends, written)
    }

    /// Keeps room for the end of one session more. Where memory is refused all is as it was.
    pub(crate) fn keep_end(&mut self) -> Result<(), AllocError>
        ensures ok { OnOk result (self.new ≡ record self.old { ends = self.old.ends + 1 }) }
        ensures err { OnErr result (self.new ≡ self.old) }
    {
        let Some(more) = (self.ends * 10).checked_add(10) else {
            return Err(AllocError);
        };
        make_room(&mut self.bytes, more)?;
        self.ends += 1;
        Ok(())
    }

    /// Writes the end of a session for which room is kept, into that room. Takes no memory.
    pub(crate) fn write_kept_end(&mut self, job: Job)
        requires behind { self.old.behind ≡ [] }
        requires room { 1 ≤ self.old.ends }
        ensures units { self.new.units ≡ self.old.units }
        ensures ends { self.new.ends ≡ self.old.ends - 1 }
        ensures written { IsUnitOf self.new.behind job (End job) }
    {
        write_end(&mut self.bytes, job);
        self.ends -= 1;
    }

    /// A copy of these bytes, with room for as many ends behind them.
    pub(crate) fn copy(&self, alloc: Global, rest: &[u8]) -> Result<Vec<u8>, AllocError>
        ensures items { IfOk result (λ copy. copy.items ≡ rest.now) }
        ensures room { IfOk result (λ copy. KeepsRoom (vec_len copy) self.now.ends (vec_capacity copy)) }
    {
        let Some(capacity) = rest.len().checked_add(self.ends * 10) else {
            return Err(AllocError);
        };
        let mut copy = Vec::with_capacity(alloc, capacity)?;
        copy.extend_from_slice(rest)?;
        Ok(copy)
    }

    /// Makes the unit behind the units the last of them. Nothing is copied.
    pub(crate) fn push(&mut self)
        requires some { (job : ℕ) × (unit : JournalUnit) × IsUnitOf self.old.behind job unit }
        requires number { length self.old.units + 1 < 2 ^ 64 }
        ensures units { IfSome (unit_in self.old.behind) (λ unit. self.new.units ≡ self.old.units ++ unit ∷ []) }
        ensures ends { self.new.ends ≡ self.old.ends }
        ensures behind { self.new.behind ≡ [] }
    {
        self.end = self.bytes.len();
        self.count += 1;
    }

    /// Adds these units at once behind the others. Where memory is refused all is as it was.
    pub(crate) fn append(&mut self, gets: &Gets) -> Result<(), AllocError>
        requires behind { self.old.behind ≡ [] }
        requires number { length self.old.units + length gets.now.units < 2 ^ 64 }
        ensures ok { OnOk result (self.new.units ≡ self.old.units ++ gets.now.units) }
        ensures err { OnErr result (self.new.units ≡ self.old.units) }
        ensures ends { self.new.ends ≡ self.old.ends }
        ensures behind { self.new.behind ≡ [] }
    {
        let copied = self.bytes.extend_from_slice(gets.as_slice());
        settle(&mut self.bytes, self.end, self.ends, copied)?;
        let all = self.bytes.len();
        self.end = all;
        self.count += gets.len();
        Ok(())
    }

    /// The first units are dropped: of those that are left these are the bytes, and the bytes before are given back.
    pub(crate) fn keep_rest(&mut self, rest: Vec<u8>, left: u64)
        requires rest { (dropped later : List JournalUnit) × ((self.old.units ≡ dropped ++ later) × Stands rest.items left later) }
        requires room { KeepsRoom (vec_len rest) self.old.ends (vec_capacity rest) }
        ensures units { self.new.units ≡ drop (length self.old.units - left) self.old.units }
        ensures ends { self.new.ends ≡ self.old.ends }
        ensures behind { self.new.behind ≡ [] }
    {
        self.end = rest.len();
        self.count = left;
        self.bytes = rest;
    }

    /// All units go, and what stands behind them. Of a large room little stays, and what is kept for ends.
    pub(crate) fn clear(&mut self)
        ensures units { self.new.units ≡ [] }
        ensures ends { self.new.ends ≡ self.old.ends }
        ensures behind { self.new.behind ≡ [] }
    {
        self.bytes.truncate(0);
        self.bytes.shrink_to(MOST_EMPTY.max(self.ends * 10));
        self.end = 0;
        self.count = 0;
    }
}

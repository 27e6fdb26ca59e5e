//! Chains by id, in one pool.
ghost use Rattle.std.specs.Prelude.{◌≡◌, ℕ, suc, ◌+◌, ◌-◌, ◌^◌, ◌<◌, ◌≤◌, [], ◌∷◌, Some, None, IsTrue, ◌↔◌, max, min, length, option_copied, slice_set, IfOk, OnErr};
ghost use Rattle.version_chain.specs.Slots.{slot_at, lent};
ghost use Rattle.version_chain.specs.Links.{line_versions};
ghost use Rattle.version_chain.specs.Tidy.{since_at as since_at_spec};

use crate::chain::{LentLine, Line, at, count, end, is_alone, newest, push};
use crate::cut::{cut_since, push_and_cut};
use crate::slots::Slots;
use crate::version::Version;
use cell_pool::{Cell, Pool};
use std::alloc::{AllocError, Global};
use std::marker::Model;

/// Names a chain from `open` to `close`. A chain that is opened later may get the same id.
#[derive(Clone, Copy, Debug, PartialEq, Eq)]
pub struct ChainId {
    number: u32,
}

impl Model for ChainId {
    ghost use Rattle.std.specs.Prelude.{ℕ};

    ghost Value = { ℕ };

    ghost view = { λ id. id.number };

    ghost inverse = { λ n. record { number = n } };
}

/// Chains by id, and the pool that their cells are of. Its drop gives all cells back and ends the pool.
pub struct Chains<V: Drop> {
    pool: Pool<Version<V>>,
    lines: Slots<V, Cell<Version<V>>>,
    // What is known of the chains, so that a write need not look at older versions that it can't drop: where the newest
    // version of a chain is after `since`, a cut at the horizon drops none of it. No version is after `latest`.
    horizon: u64,
    since: u64,
    latest: u64,
}

impl<V: Drop> Model for Chains<V> {
    ghost use Rattle.std.specs.Prelude.{◌≤◌};
    ghost use Rattle.version_chain.specs.Chains.{ChainsState, IsChains, lists_seen};
    ghost use Rattle.version_chain.specs.Tidy.{AreTidy};

    ghost Value = { ChainsState V };

    ghost view = { λ a. record { chains = lists_seen a.lines; spare = a.pool.spare } };

    ghost invariant = { λ a. IsChains a.pool.pages a.pool.out a.lines × AreTidy a.horizon a.since a.latest (record { chains = lists_seen a.lines; spare = a.pool.spare }) × (a.horizon ≤ a.since) };
}

// Puts a line back where it was taken out.
fn put<V>(lines: &mut Slots<V, Cell<Version<V>>>, number: usize, line: Line<V>)
    requires { slot_at lines.old number ≡ Some None }
    ensures { lines.new ≡ slice_set lines.old number (Some line) }
{
    match lines.replace(number, line) {
        None => {}
        Some(_newest) => unreachable!(),
    }
}

// The stamp since which chains are known to be tidy, once writes cut at the horizon `now`: where it is another than before,
// no chain is.
fn since_at(now: u64, horizon: u64, since: u64, latest: u64) -> u64
    ensures value { result ≡ since_at_spec now horizon since latest }
    ensures low { horizon ≤ since → now ≤ result }
{
    if now == horizon {
        since
    } else {
        latest.max(now)
    }
}

impl<V: Drop> Chains<V> {
    ghost use Rattle.version_chain.specs.Versions.{newest_of, at_of, is_one_value, IsAbove, IsFalling};
    ghost use Rattle.version_chain.specs.Cut.{left_after};
    ghost use Rattle.version_chain.specs.Chains.{chain_at, versions_at, cells_at, IsOpen, HasCell, Updates, open_count, number_count};

    /// No chains. Takes no memory.
    pub fn new(alloc: Global) -> Chains<V>
        ensures { result ≡ record { chains = []; spare = 0 } }
    {
        Chains {
            pool: Pool::new(alloc),
            lines: Slots::new(alloc),
            horizon: 0,
            since: 0,
            latest: 0,
        }
    }

    /// A stamp that no version is after. It may be later than that of every version that is left.
    pub fn latest(&self) -> u64
        ensures { (id : ℕ) → IsAbove (suc result) (versions_at self.now id) }
    {
        self.latest
    }

    /// How many cells are reserved.
    pub fn spare(&self) -> usize
        ensures { result ≡ self.now.spare }
    {
        self.pool.spare()
    }

    /// Reserves cells, so that there are at least `cells`, in pages of 64 and no page more than that takes, and keeps those
    /// there are.
    ///
    /// Refusals: `AllocError` where fewer were reserved and memory is wanting. No chain changes.
    pub fn reserve(&mut self, cells: usize) -> Result<(), AllocError>
        ensures chains { self.new.chains ≡ self.old.chains }
        ensures spare { self.old.spare ≤ self.new.spare }
        ensures room { IfOk result (λ _. cells ≤ self.new.spare) }
        ensures most { self.new.spare ≤ max self.old.spare (cells + 63) }
        ensures full { OnErr result (self.old.spare < cells) }
    {
        self.pool.reserve(cells)
    }

    /// Opens a chain without versions. Ids that were closed are used again before there is a new one.
    ///
    /// Refusals: `AllocError` where no closed id is left, and memory is wanting or 2^32 chains are open. After it nothing
    /// has changed.
    pub fn open(&mut self) -> Result<ChainId, AllocError>
        ensures vacant { IfOk result (λ id. chain_at self.old id ≡ None) }
        ensures chains { IfOk result (λ id. Updates self.old self.new id (Some [])) }
        ensures reused { IfOk result (λ id. open_count self.old < number_count self.old → id < number_count self.old) }
        ensures small { IfOk result (λ id. id ≤ number_count self.old) }
        ensures spare { self.new.spare ≡ self.old.spare }
        ensures full { OnErr result (open_count self.old ≡ number_count self.old) }
        ensures err { OnErr result (self.new ≡ self.old) }
    {
        match self.lines.insert() {
            Ok(number) => Ok(ChainId { number }),
            Err(error) => Err(error),
        }
    }

    /// Whether the id is open.
    pub fn is_open(&self, id: ChainId) -> bool
        ensures { IsTrue result ↔ IsOpen self.now id }
    {
        self.lines.contains(id.number as usize)
    }

    // The newest version of an open chain.
    fn line(&self, id: ChainId) -> LentLine<'_, V>
        requires { IsOpen self.now id }
        ensures there { chain_at self.now id ≡ Some (line_versions (lent result)) }
        ensures falls { IsFalling (line_versions (lent result)) }
    {
        self.lines.get(id.number as usize)
    }

    /// The stamp of the newest version, or none where there is no version.
    pub fn newest(&self, id: ChainId) -> Option<u64>
        requires { IsOpen self.now id }
        ensures newest { result ≡ newest_of (versions_at self.now id) }
        ensures falls { IsFalling (versions_at self.now id) }
    {
        newest(self.line(id))
    }

    /// How many versions lie below newer ones. A number for whoever decides how much upkeep pays: no contract rests on it.
    pub fn older(&self) -> usize {
        self.pool.out()
    }

    /// Whether an open chain has one version, which is a value: no cut drops anything of it.
    pub fn is_alone(&self, id: ChainId) -> bool
        requires { IsOpen self.now id }
        ensures { result ≡ is_one_value (versions_at self.now id) }
    {
        is_alone(self.line(id))
    }

    /// How many versions an open chain has, up to 2^64 - 1. Goes through all of them.
    pub fn count(&self, id: ChainId) -> u64
        requires { IsOpen self.now id }
        ensures { result ≡ min (length (versions_at self.now id)) (2 ^ 64 - 1) }
    {
        count(self.line(id))
    }

    /// The value of the newest version that isn't after the stamp; none where there is no such version, or it is an absence.
    pub fn at(&self, id: ChainId, stamp: u64) -> Option<&V>
        requires { IsOpen self.now id }
        ensures { option_copied result ≡ at_of stamp (versions_at self.now id) }
    {
        at(self.line(id), stamp)
    }

    /// Adds the newest version of a chain; `None` is absence. What is seen before the stamp stays. Takes no memory: a first
    /// version takes no cell, each further one a cell that was reserved.
    pub fn push_reserved(&mut self, id: ChainId, stamp: u64, value: Option<V>)
        requires open { IsOpen self.old id }
        requires reserved { HasCell self.old id }
        requires newest { IsAbove stamp (versions_at self.old id) }
        ensures chains { Updates self.old self.new id (Some ((stamp, value) ∷ versions_at self.old id)) }
        ensures content { (before : ℕ) → before < stamp → at_of before (versions_at self.new id) ≡ at_of before (versions_at self.old id) }
        ensures spare { self.new.spare + cells_at self.new id ≡ self.old.spare + cells_at self.old id }
        ensures least { self.old.spare ≤ self.new.spare + 1 }
    {
        let line = self.lines.replace(id.number as usize, None);
        let line = push(&mut self.pool, line, stamp, value);
        put(&mut self.lines, id.number as usize, line);
        self.since = self.since.max(stamp);
        self.latest = self.latest.max(stamp);
    }

    /// Adds the newest version of a chain, as `push_reserved` does, and drops what `cut` drops. Takes no memory. Of older versions
    /// that are known to stay it looks at one: so many writes of one chain under one horizon cost what so many chains would.
    pub fn push_and_cut(&mut self, id: ChainId, stamp: u64, value: Option<V>, horizon: u64)
        requires open { IsOpen self.old id }
        requires reserved { HasCell self.old id }
        requires newest { IsAbove stamp (versions_at self.old id) }
        ensures chains { Updates self.old self.new id (Some (left_after horizon ((stamp, value) ∷ versions_at self.old id))) }
        ensures spare { self.new.spare + cells_at self.new id ≡ self.old.spare + cells_at self.old id }
        ensures least { self.old.spare ≤ self.new.spare + 1 }
    {
        let since = since_at(horizon, self.horizon, self.since, self.latest);
        let line = self.lines.replace(id.number as usize, None);
        let line = push_and_cut(&mut self.pool, line, since, stamp, value, horizon);
        put(&mut self.lines, id.number as usize, line);
        self.horizon = horizon;
        self.since = since;
        self.latest = self.latest.max(stamp);
    }

    /// Drops each version that a newer one not after the horizon hides, and an absence not after the horizon where it is the
    /// oldest left. Answers how many it dropped. Takes no memory, and what is seen from the horizon on stays. Where it is known
    /// that none has to go, as of a chain that was written under this horizon, it looks at none but the newest.
    pub fn cut(&mut self, id: ChainId, horizon: u64) -> usize
        requires { IsOpen self.old id }
        ensures chains { Updates self.old self.new id (Some (left_after horizon (versions_at self.old id))) }
        ensures count { result + length (versions_at self.new id) ≡ length (versions_at self.old id) }
        ensures content { (stamp : ℕ) → horizon ≤ stamp → at_of stamp (versions_at self.new id) ≡ at_of stamp (versions_at self.old id) }
        ensures spare { self.new.spare + cells_at self.new id ≡ self.old.spare + cells_at self.old id }
        ensures least { self.old.spare ≤ self.new.spare }
    {
        let tidy_since = since_at(horizon, self.horizon, self.since, self.latest);
        let line = self.lines.replace(id.number as usize, None);
        let (line, count) = cut_since(&mut self.pool, line, tidy_since, horizon);
        put(&mut self.lines, id.number as usize, line);
        count
    }

    /// Ends a chain. Its cells are reserved from here on, and its id may be opened again. Takes no memory.
    pub fn close(&mut self, id: ChainId)
        requires { IsOpen self.old id }
        ensures chains { Updates self.old self.new id None }
        ensures spare { self.new.spare ≡ self.old.spare + cells_at self.old id }
    {
        let line = self.lines.remove(id.number as usize);
        end(&mut self.pool, line);
    }
}

impl<V: Drop> Drop for Chains<V> {
    fn drop(self) {
        let Chains {
            pool,
            lines,
            horizon: _,
            since: _,
            latest: _,
        } = self;
        let mut pool = pool;
        let mut entries = lines.into_entries();
        while let Some(entry) = entries.pop() {
            match entry.value() {
                Some(line) => {
                    end(&mut pool, line);
                }
                None => {}
            }
        }
        entries.destroy_empty();
        pool.end();
    }
}

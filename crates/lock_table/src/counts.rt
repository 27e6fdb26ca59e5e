//! Counts by lock name.
ghost use Rattle.std.specs.Prelude.{true, length, ◌⊎◌, if◌then◌else◌, ◌≡◌, ◌≤◌, ◌<◌, ◌+◌, ◌-◌, max, min, OnOk, OnErr, IfErr, IfOk};
ghost use Rattle.std.specs.List.{list_any};
ghost use Rattle.std.specs.FinMap as finmap;
ghost use Rattle.collation.specs.Limits.{most_locks};
ghost use Rattle.collation.specs.Reference.{Resource};
ghost use Rattle.std.specs.Ordering.{eq_by_cmp};
ghost use Rattle.lock_name.specs.Locks.{resource_cmp, count_of, one_fewer, more_of, fewer_of};
ghost use Rattle.lock_trie.specs.Held.{held_count};
ghost use Rattle.lock_table.specs.Counted.{AreCounts, AreRaised, AreLowered, have_below, less, is_over, is_listed};
ghost use Rattle.lock_table.specs.Rows.{IsHeldIn, AreOthersSame};

use crate::moves::lower;
use btree::Trail;
use lock_name::LockName;
use lock_trie::{LockTrie, NameMap, is_at_or_under};
use refusal::Refusal;
use std::alloc::{AllocError, Global};
use std::marker::Model;

/// The highest count of a name.
pub const MOST: u32 = 65_535;

/// How many times each lock name is had. A name that is had no time has no entry.
#[derive(Drop)]
pub struct Counts {
    map: NameMap<u32>,
    alloc: Global,
}

impl Model for Counts {
    ghost use Rattle.lock_table.specs.Codes.{counts_code};
    ghost use Rattle.lock_table.specs.Counted.{AreCounts};
    ghost use Rattle.lock_name.specs.Locks as locks;

    ghost Value = { locks.Counts };

    ghost coded = { counts_code };

    ghost view = { λ c. c.map };

    ghost invariant = { λ c. AreCounts c.map };
}

impl Counts {
    /// No name is had.
    pub fn new(alloc: Global) -> Counts
        ensures { result ≡ finmap.empty }
    {
        Counts {
            map: NameMap::new(alloc),
            alloc,
        }
    }

    /// No count is above the highest, and none that has an entry is 0.
    pub fn look(&self)
        ensures { AreCounts self.now }
    {
        let _ = &self.map;
    }

    /// How many times this name is had, and where its look-up went.
    fn look_up(&self, name: &LockName) -> (u32, Trail)
        ensures count { result.0 ≡ count_of self.now name.now }
        ensures small { result.0 ≤ most_locks }
    {
        let (found, trail) = self.map.look_up(name);
        match found {
            Some(count) => (*count, trail),
            None => (0, trail),
        }
    }

    /// How many times this name is had.
    pub fn count(&self, name: &LockName) -> u32
        ensures count { result ≡ count_of self.now name.now }
        ensures small { result ≤ most_locks }
    {
        self.look_up(name).0
    }

    /// A copy of the counts.
    pub fn copy(&self) -> Result<Counts, AllocError>
        ensures { IfOk result (λ counts. counts ≡ self.now) }
    {
        let map = self.map.copy(self.alloc)?;
        Ok(Counts {
            map,
            alloc: self.alloc,
        })
    }

    /// This name is had n times. The trail is that of its look-up. A refusal leaves the counts as they were.
    fn put(&mut self, name: &LockName, n: u32, trail: &Trail) -> Result<(), AllocError>
        requires small { n ≤ most_locks }
        requires some { 0 < n }
        ensures ok { OnOk result (self.new ≡ finmap.insert self.old name.now n) }
        ensures err { OnErr result (self.new ≡ self.old) }
    {
        let key = name.clone()?;
        self.map.insert_by(self.alloc, key, n, trail)
    }

    /// This name is had no time.
    fn remove(&mut self, name: &LockName)
        ensures { self.new ≡ finmap.remove self.old name.now }
    {
        drop(self.map.remove(name));
    }

    /// This name, which is had, is had n times. Takes no memory.
    fn change(&mut self, name: &LockName, n: u32)
        requires small { n ≤ most_locks }
        requires some { 0 < n }
        requires had { 0 < count_of self.old name.now }
        ensures { self.new ≡ finmap.insert self.old name.now n }
    {
        drop(self.map.replace(name, n));
    }

    /// This name, which is had count times, is had n times: only a name that wasn't had takes memory. The trail is that of its
    /// look-up.
    fn set(&mut self, name: &LockName, count: u32, n: u32, trail: &Trail) -> Result<(), AllocError>
        requires small { n ≤ most_locks }
        requires some { 0 < n }
        requires is { count ≡ count_of self.old name.now }
        ensures ok { OnOk result (self.new ≡ finmap.insert self.old name.now n) }
        ensures err { OnErr result (self.new ≡ self.old) }
    {
        if count == 0 {
            self.put(name, n, trail)
        } else {
            self.change(name, n);
            Ok(())
        }
    }

    /// One more of this name.
    fn add_one(&mut self, name: &LockName) -> Result<(), Refusal>
        ensures ok { OnOk result (self.new ≡ finmap.insert self.old name.now (count_of self.old name.now + 1)) }
        ensures err { OnErr result (self.new ≡ self.old) }
        ensures full { IfErr result (λ refusal. (refusal ≡ Refusal.OutOfMemory) ⊎ ((refusal ≡ Refusal.LockCountFull) × (most_locks ≤ count_of self.old name.now))) }
    {
        let (count, trail) = self.look_up(name);
        if count >= MOST {
            return Err(Refusal::LockCountFull);
        }
        match self.set(name, count, count + 1, &trail) {
            Ok(()) => Ok(()),
            Err(_) => Err(Refusal::OutOfMemory),
        }
    }

    /// One fewer of this name. Takes no memory.
    pub fn take_one(&mut self, name: &LockName)
        ensures { self.new ≡ one_fewer self.old name.now }
    {
        let count = self.count(name);
        if count <= 1 {
            self.remove(name);
        } else {
            self.change(name, count - 1);
        }
    }

    /// Whether each of these names could be had as many times more as there are names in the list. Takes no memory.
    pub fn have_room(&self, names: &[LockName]) -> bool
        ensures { result ≡ true → (x : Resource) → is_listed x names.now ≡ true → count_of self.now x + length names.now ≤ most_locks }
    {
        for name in names {
            if names.len() > (MOST - self.count(name)) as usize {
                return false;
            }
        }
        true
    }

    /// One more of each name. Refusals: `LockCountFull` where that leaves a count above the highest;
    /// `OutOfMemory`. After either the counts are as they were.
    pub fn add_all(&mut self, names: &[LockName]) -> Result<(), Refusal>
        ensures ok { OnOk result (self.new ≡ more_of names.now self.old) }
        ensures err { OnErr result (self.new ≡ self.old) }
        ensures full { IfErr result (λ refusal. (refusal ≡ Refusal.OutOfMemory) ⊎ ((refusal ≡ Refusal.LockCountFull) × (list_any (is_over names.now self.old) names.now ≡ true))) }
    {
        self.look();
        for i in 0..names.len() {
            match self.add_one(&names[i]) {
                Ok(()) => {}
                Err(refusal) => {
                    self.look();
                    self.take_all(&names[..i]);
                    return Err(refusal);
                }
            }
        }
        Ok(())
    }

    /// One fewer of each name. Takes no memory.
    pub fn take_all(&mut self, names: &[LockName])
        ensures { self.new ≡ fewer_of names.now self.old }
    {
        for name in names {
            self.take_one(name);
        }
    }

    /// This name is had at least as many times as in the others.
    fn raise(&mut self, name: &LockName, n: u32) -> Result<(), AllocError>
        requires { n ≤ most_locks }
        ensures ok { OnOk result ((x : Resource) → count_of self.new x ≡ (if eq_by_cmp resource_cmp x name.now then max (count_of self.old name.now) n else count_of self.old x)) }
        ensures err { OnErr result (self.new ≡ self.old) }
    {
        let (count, trail) = self.look_up(name);
        if n > count {
            self.set(name, count, n, &trail)
        } else {
            Ok(())
        }
    }

    /// Of each of these names at least as many as in the others. Where memory is refused some may be raised.
    pub fn raise_names(&mut self, names: &[LockName], others: &Counts) -> Result<(), AllocError>
        ensures raised { AreRaised (count_of self.old) (count_of self.new) (count_of others.now) }
        ensures ok { OnOk result ((x : Resource) → is_listed x names.now ≡ true → count_of others.now x ≤ count_of self.new x) }
    {
        for name in names {
            self.raise(name, others.count(name))?;
        }
        Ok(())
    }

    /// Of these names as many as here, and of no other.
    pub fn among(&self, names: &[LockName]) -> Result<Counts, AllocError>
        ensures { IfOk result (λ some. (x : Resource) → is_listed x names.now ≡ true → count_of some x ≡ count_of self.now x) }
    {
        let mut some = Counts::new(self.alloc);
        some.raise_names(names, self)?;
        Ok(some)
    }

    /// How many times more this name is had than in the others.
    fn surplus(&self, others: &Counts, name: &LockName) -> u32
        ensures count { result ≡ count_of (less self.now others.now) name.now }
        ensures small { result ≤ most_locks }
    {
        self.count(name).saturating_sub(others.count(name))
    }

    /// Of each of these names at least as many as the counts have more than the others. Where memory is refused some
    /// may be raised.
    fn raise_surplus(
        &mut self,
        names: &[LockName],
        counts: &Counts,
        others: &Counts,
    ) -> Result<(), AllocError>
        ensures raised { AreRaised (count_of self.old) (count_of self.new) (count_of (less counts.now others.now)) }
        ensures ok { OnOk result ((x : Resource) → is_listed x names.now ≡ true → count_of (less counts.now others.now) x ≤ count_of self.new x) }
    {
        for name in names {
            self.raise(name, counts.surplus(others, name))?;
        }
        Ok(())
    }

    /// Of these names as many as are had more than in the others, and of no other name.
    pub fn surplus_among(&self, others: &Counts, names: &[LockName]) -> Result<Counts, AllocError>
        ensures { IfOk result (λ some. (x : Resource) → is_listed x names.now ≡ true → count_of some x ≡ count_of (less self.now others.now) x) }
    {
        let mut some = Counts::new(self.alloc);
        some.raise_surplus(names, self, others)?;
        Ok(some)
    }

    /// This name is had at most n times. Takes no memory.
    fn lower(&mut self, name: &LockName, n: u32)
        ensures { (x : Resource) → count_of self.new x ≡ (if eq_by_cmp resource_cmp x name.now then min (count_of self.old name.now) n else count_of self.old x) }
    {
        let count = self.count(name);
        if count <= n {
            return;
        }
        if n == 0 {
            self.remove(name);
            return;
        }
        self.change(name, n);
    }

    /// Of what the job holds, which these counts say, as many fewer as the others have. Takes no memory.
    pub fn give(&mut self, trie: &LockTrie, job: u16, others: &Counts)
        requires { IsHeldIn trie.now job self.old }
        ensures { (x : Resource) → count_of self.new x ≡ count_of self.old x - count_of others.now x }
    {
        for (name, count) in others.map.iter() {
            self.lower(name, trie.count(job, name).saturating_sub(*count));
        }
    }

    /// Whether no name is had.
    pub fn is_empty(&self) -> bool
        ensures { result ≡ true → (x : Resource) → count_of self.now x ≡ 0 }
    {
        self.map.len() == 0
    }

    /// Whether this name is had, or a descendant of it: a look at the first that doesn't stand before it.
    pub fn have_below(&self, name: &LockName) -> bool
        ensures { result ≡ have_below name.now self.now }
    {
        match self.map.first_from(name) {
            Some((had, _)) => is_at_or_under(had, name),
            None => false,
        }
    }

    /// The job holds each name that is had here at most as many times as it is to hold it. Takes no memory.
    pub fn lower_in(&self, trie: &mut LockTrie, job: u16, held: &Counts)
        ensures others { AreOthersSame trie.old trie.new job }
        ensures lowered { AreLowered (held_count trie.old job) (held_count trie.new job) (count_of held.now) }
        ensures reached { (x : Resource) → 0 < count_of self.now x → held_count trie.new job x ≤ count_of held.now x }
    {
        for (name, _) in self.map.iter() {
            lower(trie, job, name, held.count(name));
        }
    }
}

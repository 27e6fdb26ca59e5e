//! Each job's held counts.
ghost use Rattle.std.specs.Prelude.{length, true, false, ◌≡◌, ◌≤◌, ◌+◌, ◌-◌, ℕ, Some, IsSome, IfOk, OnOk, OnErr};
ghost use Rattle.std.specs.FinMap as finmap;
ghost use Rattle.collation.specs.Limits.{most_locks};
ghost use Rattle.collation.specs.Reference.{Resource};
ghost use Rattle.lock_trie.specs.Held.{held_count, AreHeld, IsEntryPut, IsHeldBelow, IsHeldByAnother, IsHeldWhere, IsRecounted, IsSame};
ghost use Rattle.lock_trie.specs.Holders.{entry_of, IsEntry};
ghost use Rattle.lock_trie.specs.Names.{is_above, is_at_or_under as is_at_or_under_spec};

use crate::holders::Holders;
use crate::map::NameMap;
use crate::names::{Beginning, depth, is_at_or_under};
use btree::Trail;
use lock_name::LockName;
use std::alloc::{AllocError, Global};
use std::marker::Model;

/// The held counts of all jobs.
#[derive(Drop)]
pub struct LockTrie {
    map: NameMap<Holders>,
    /// No held name has fewer subscripts, so no shorter beginning is looked up.
    least: usize,
    alloc: Global,
}

impl Model for LockTrie {
    ghost use Rattle.lock_trie.specs.Held.{Held, held_code, AreHeld, HasNoShorter};

    ghost Value = { Held };

    ghost coded = { held_code };

    ghost view = { λ t. t.map };

    ghost invariant = { λ t. AreHeld t.map × HasNoShorter t.map t.least };
}

impl LockTrie {
    /// Nothing is held.
    pub fn new(alloc: Global) -> LockTrie
        ensures { (job : ℕ) → (n : Resource) → held_count result job n ≡ 0 }
    {
        LockTrie {
            map: NameMap::new(alloc),
            least: usize::MAX,
            alloc,
        }
    }

    /// How many names are held: they are those that have an entry, and each of these has a holder.
    pub fn len(&self) -> usize
        ensures count { result ≡ length (finmap.entries self.now) }
        ensures held { AreHeld self.now }
    {
        self.map.len()
    }

    /// How many times the job holds this one. Takes no memory.
    pub fn count(&self, job: u16, name: &LockName) -> u32
        ensures count { result ≡ held_count self.now job name.now }
        ensures small { result ≤ most_locks }
    {
        match self.map.get(name) {
            Some(holders) => holders.count(job),
            None => 0,
        }
    }

    // These hold this one, which nobody held. The trail is that of its look-up.
    fn put(&mut self, name: &LockName, holders: Holders, trail: &Trail) -> Result<(), AllocError>
        requires { IsEntry holders }
        ensures ok { OnOk result (self.new ≡ finmap.insert self.old name.now holders) }
        ensures err { OnErr result (self.new ≡ self.old) }
    {
        let key = name.clone()?;
        self.map.insert_by(self.alloc, key, holders, trail)?;
        self.least = self.least.min(depth(name));
        Ok(())
    }

    // These hold this one, which somebody held. Takes no memory.
    fn change(&mut self, name: &LockName, holders: Holders)
        requires there { IsSome (finmap.get self.old name.now) }
        requires held { IsEntry holders }
        ensures { self.new ≡ finmap.insert self.old name.now holders }
    {
        drop(self.map.replace(name, holders));
    }

    /// The job holds this one n times more. Where memory is refused nothing has changed.
    pub fn add(&mut self, job: u16, name: &LockName, n: u32) -> Result<(), AllocError>
        requires { held_count self.old job name.now + n ≤ most_locks }
        ensures ok { OnOk result (IsRecounted self.old self.new job name.now (held_count self.old job name.now + n)) }
        ensures err { OnErr result (IsSame self.old self.new) }
        ensures none { n ≡ 0 → self.new ≡ self.old }
    {
        if n == 0 {
            return Ok(());
        }
        let (found, trail) = self.map.look_up(name);
        match found {
            Some(holders) => {
                let more = holders.more(self.alloc, job, n)?;
                self.change(name, more);
                Ok(())
            }
            None => {
                let holders = Holders::of_one(job, n);
                self.put(name, holders, &trail)
            }
        }
    }

    /// The job holds this one n times fewer. Takes no memory.
    pub fn take_away(&mut self, job: u16, name: &LockName, n: u32)
        ensures { IsRecounted self.old self.new job name.now (held_count self.old job name.now - n) }
    {
        match self.map.replace(name, Holders::none()) {
            Ok(mut holders) => {
                holders.take(job, n);
                settle(&mut self.map, name, holders);
            }
            Err(none) => drop(none),
        }
    }

    /// Whether another job holds this one or a descendant: a look at the names from this one on, while they are under it.
    /// Nothing is told where that many of them, or more, are the job's alone. Takes no memory.
    pub fn blocked_below(&self, job: u16, name: &LockName, most: usize) -> Option<bool>
        ensures some { result ≡ Some true → IsHeldBelow self.now job name.now }
        ensures none { result ≡ Some false → IsHeldBelow self.now job name.now → ⊥ }
    {
        let mut left = most;
        for (held, holders) in self.map.walk_from(name) {
            if !is_at_or_under(held, name) {
                return Some(false);
            }
            if holders.has_other(job) {
                return Some(true);
            }
            if left == 0 {
                return None;
            }
            left -= 1;
        }
        Some(false)
    }

    // Whether another job holds an ancestor of this one. Where no held name is shorter than this one nothing is looked up.
    fn is_blocked_above(&self, job: u16, name: &LockName) -> bool
        ensures some { result ≡ true → IsHeldWhere (λ x. is_at_or_under_spec x name.now) self.now job }
        ensures none { result ≡ false → IsHeldWhere (is_above name.now) self.now job → ⊥ }
    {
        let len = depth(name);
        if self.least >= len {
            return false;
        }
        let Some(before) = self.map.last_before(name) else {
            return false;
        };
        for i in self.least..len {
            let beginning = Beginning::of(name, i);
            if !beginning.begins(before) {
                return false;
            }
            if let Some(holders) = self.map.at_beginning(&beginning)
                && holders.has_other(job)
            {
                return true;
            }
        }
        false
    }

    /// Whether another job holds an ancestor of this one; where none holds it or a descendant, whether it is blocked. Takes
    /// no memory.
    pub fn blocked_above(&self, job: u16, name: &LockName) -> bool
        ensures some { result ≡ true → IsHeldByAnother self.now job name.now }
        ensures none { result ≡ false → (IsHeldBelow self.now job name.now → ⊥) → IsHeldByAnother self.now job name.now → ⊥ }
    {
        let _map = &self.map;
        self.is_blocked_above(job, name)
    }

    /// A copy: each job holds in it what it holds. Fails only for want of memory.
    pub fn copy(&self) -> Result<LockTrie, AllocError>
        ensures { IfOk result (λ copy. IsSame self.now copy) }
    {
        let mut map = NameMap::new(self.alloc);
        for (name, holders) in self.map.iter() {
            push_copy(&mut map, self.alloc, name, holders)?;
        }
        Ok(LockTrie {
            map,
            least: self.least,
            alloc: self.alloc,
        })
    }
}

// The holders of a name that has an entry are these now; where they are none its entry goes. Takes no memory.
fn settle(map: &mut NameMap<Holders>, name: &LockName, holders: Holders)
    requires { IsSome (finmap.get map.old name.now) }
    ensures { IsEntryPut map.old map.new name.now (entry_of holders) }
{
    if holders.is_empty() {
        drop(holders);
        drop(map.remove(name));
    } else {
        drop(map.replace(name, holders));
    }
}

// A copy of a name and of those that hold it goes into the map.
fn push_copy(
    map: &mut NameMap<Holders>,
    alloc: Global,
    name: &LockName,
    holders: &Holders,
) -> Result<(), AllocError>
    ensures { OnOk result (map.new ≡ finmap.insert map.old name.now holders.now) }
{
    let key = name.clone()?;
    let copy = holders.copy(alloc)?;
    let (_, trail) = map.look_up(name);
    map.insert_by(alloc, key, copy, &trail)
}

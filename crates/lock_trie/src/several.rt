//! Several jobs with their counts.
ghost use Rattle.std.specs.Prelude.{◌≡◌, ◌<◌, ◌≤◌, ◌+◌, ◌-◌, ◌==◌, [], length, None, OnOk, OnErr, IfOk, IfSome};
ghost use Rattle.std.specs.Ordering.{nat_cmp};
ghost use Rattle.std.specs.FinMap.Entries.{find};
ghost use Rattle.collation.specs.Limits.{most_locks};
ghost use Rattle.lock_trie.specs.Holders.{counted, has_other, AreHolders, IsEntry, IsCounted, IsFirstAt};

use smallvec::SmallVec;
use std::alloc::{AllocError, Global};
use std::marker::Model;

/// Jobs, each once with its count. Two lie in the value itself.
#[derive(Drop)]
pub struct Several {
    list: SmallVec<(u16, u32), 2>,
}

impl Model for Several {
    ghost use Rattle.std.specs.Prelude.{List, ℕ};
    ghost use Rattle.lock_trie.specs.Holders.{AreHolders};

    ghost Value = { List (ℕ × ℕ) };

    ghost view = { λ h. h.list.items };

    ghost invariant = { λ h. AreHolders h.list.items };
}

// Where a job stands in a list.
fn place(list: &[(u16, u32)], job: u16) -> Option<usize>
    ensures some { IfSome result (IsFirstAt list.now job) }
    ensures none { result ≡ None → find nat_cmp job list.now ≡ None }
{
    for i in 0..list.len() {
        if list[i].0 == job {
            return Some(i);
        }
    }
    None
}

impl Several {
    /// No job. Takes no memory.
    pub fn none(alloc: Global) -> Several
        ensures { result ≡ [] }
    {
        Several {
            list: SmallVec::new(alloc),
        }
    }

    /// How many times the job holds it.
    pub fn count(&self, job: u16) -> u32
        ensures count { result ≡ counted self.now job }
        ensures small { result ≤ most_locks }
    {
        match place(&self.list, job) {
            Some(i) => self.list[i].1,
            None => 0,
        }
    }

    /// Whether a job other than this one holds it: two are looked at at most, since each is there once.
    pub fn has_other(&self, job: u16) -> bool
        ensures { result ≡ has_other self.now job }
    {
        for holder in self.list.as_slice() {
            if holder.0 != job {
                return true;
            }
        }
        false
    }

    /// Whether no job holds it.
    pub fn is_empty(&self) -> bool
        ensures { result ≡ (length self.now == 0) }
    {
        self.list.is_empty()
    }

    /// The job holds it n times more. Where memory is refused nothing has changed.
    pub fn add(&mut self, job: u16, n: u32) -> Result<(), AllocError>
        requires some { 0 < n }
        requires small { counted self.old job + n ≤ most_locks }
        ensures ok { OnOk result (IsCounted self.old self.new job (counted self.old job + n)) }
        ensures held { OnOk result (IsEntry self.new) }
        ensures err { OnErr result (self.new ≡ self.old) }
    {
        match place(&self.list, job) {
            Some(i) => {
                self.list[i].1 += n;
                Ok(())
            }
            None => {
                self.list.push((job, n))?;
                Ok(())
            }
        }
    }

    /// A copy. Refused where there is no memory, which more than two jobs want.
    pub fn copy(&self) -> Result<Several, AllocError>
        ensures { IfOk result (λ copy. copy ≡ self.now) }
    {
        let list = SmallVec::from_slice(*self.list.allocator(), self.list.as_slice())?;
        Ok(Several { list })
    }

    /// These, and the job holds it n times more. Refused where there is no memory, which more than two jobs want.
    pub fn more(&self, job: u16, n: u32) -> Result<Several, AllocError>
        requires some { 0 < n }
        requires small { counted self.now job + n ≤ most_locks }
        ensures count { IfOk result (λ more. IsCounted self.now more job (counted self.now job + n)) }
        ensures held { IfOk result IsEntry }
    {
        let mut more = self.copy()?;
        more.add(job, n)?;
        Ok(more)
    }

    /// The job holds it n times fewer. Takes no memory.
    pub fn take(&mut self, job: u16, n: u32)
        ensures count { IsCounted self.old self.new job (counted self.old job - n) }
        ensures held { AreHolders self.new }
    {
        if let Some(i) = place(&self.list, job) {
            if self.list[i].1 > n {
                self.list[i].1 -= n;
            } else {
                self.list.remove(i);
            }
        }
    }
}

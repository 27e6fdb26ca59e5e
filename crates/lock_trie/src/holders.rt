//! Who holds one name, and how many times.
ghost use Rattle.std.specs.Prelude.{◌≡◌, ◌<◌, ◌≤◌, ◌+◌, ◌-◌, ◌==◌, [], length, IfOk};
ghost use Rattle.collation.specs.Limits.{most_locks};
ghost use Rattle.lock_trie.specs.Holders.{counted, has_other, one_of, AreHolders, IsEntry, IsCounted};

use crate::several::Several;
use std::alloc::{AllocError, Global};
use std::marker::Model;

/// How they are kept: one job lies in the value itself, several do not.
#[derive(Drop)]
pub enum Kept {
    /// This job, so many times; no job where that is none.
    One(u16, u32),
    /// These.
    Many(Box<Several>),
}

/// The jobs that hold a name, each once with its count.
#[derive(Drop)]
pub struct Holders {
    kept: Kept,
}

impl Model for Holders {
    ghost use Rattle.std.specs.Prelude.{List, ℕ};
    ghost use Rattle.lock_trie.specs.Holders.{AreHolders};
    ghost use Rattle.lock_trie.specs.Kept.{held_by};

    ghost Value = { List (ℕ × ℕ) };

    ghost view = { λ h. held_by h.kept };

    ghost invariant = { λ h. AreHolders (held_by h.kept) };
}

// These, out of the value. Refused where there is no memory.
fn boxed(alloc: Global, several: Several) -> Result<Holders, AllocError>
    requires { AreHolders several }
    ensures { IfOk result (λ holders. holders ≡ several) }
{
    match Box::new(alloc, several) {
        Ok(several) => Ok(Holders {
            kept: Kept::Many(several),
        }),
        Err(refused) => {
            drop(refused);
            Err(AllocError)
        }
    }
}

// This job, so many times, and another n times. Refused where there is no memory.
fn two(alloc: Global, held: u16, count: u32, job: u16, n: u32) -> Result<Holders, AllocError>
    requires held { 0 < count }
    requires most { count ≤ most_locks }
    requires some { 0 < n }
    requires small { counted (one_of held count) job + n ≤ most_locks }
    ensures count { IfOk result (λ two. IsCounted (one_of held count) two job (counted (one_of held count) job + n)) }
    ensures held { IfOk result IsEntry }
{
    let mut several = Several::none(alloc);
    several.add(held, count)?;
    several.add(job, n)?;
    boxed(alloc, several)
}

// One job, so many times, and this one n times more. Refused where there is no memory, which only two jobs want.
fn more_than_one(
    alloc: Global,
    held: u16,
    count: u32,
    job: u16,
    n: u32,
) -> Result<Holders, AllocError>
    requires most { count ≤ most_locks }
    requires some { 0 < n }
    requires small { counted (one_of held count) job + n ≤ most_locks }
    ensures count { IfOk result (λ more. IsCounted (one_of held count) more job (counted (one_of held count) job + n)) }
    ensures held { IfOk result IsEntry }
{
    if count == 0 {
        return Ok(Holders::of_one(job, n));
    }
    if held == job {
        return Ok(Holders::of_one(job, count + n));
    }
    two(alloc, held, count, job, n)
}

impl Holders {
    /// No job.
    pub fn none() -> Holders
        ensures { result ≡ [] }
    {
        Holders {
            kept: Kept::One(0, 0),
        }
    }

    /// The job alone, n times.
    pub fn of_one(job: u16, n: u32) -> Holders
        requires some { 0 < n }
        requires small { n ≤ most_locks }
        ensures one { result ≡ one_of job n }
        ensures count { IsCounted [] result job n }
        ensures held { IsEntry result }
    {
        Holders {
            kept: Kept::One(job, n),
        }
    }

    /// How many times the job holds it.
    pub fn count(&self, job: u16) -> u32
        ensures count { result ≡ counted self.now job }
        ensures small { result ≤ most_locks }
    {
        match &self.kept {
            Kept::One(held, count) => { if *held == job { *count } else { 0 } }
            Kept::Many(several) => several.count(job),
        }
    }

    /// Whether a job other than this one holds it: two are looked at at most, since each is there once.
    pub fn has_other(&self, job: u16) -> bool
        ensures { result ≡ has_other self.now job }
    {
        match &self.kept {
            Kept::One(held, count) => *count > 0 && *held != job,
            Kept::Many(several) => several.has_other(job),
        }
    }

    /// Whether no job holds it.
    pub fn is_empty(&self) -> bool
        ensures { result ≡ (length self.now == 0) }
    {
        match &self.kept {
            Kept::One(_, count) => *count == 0,
            Kept::Many(several) => several.is_empty(),
        }
    }

    /// A copy. Refused where there is no memory, which several jobs want.
    pub fn copy(&self, alloc: Global) -> Result<Holders, AllocError>
        ensures { IfOk result (λ copy. copy ≡ self.now) }
    {
        match &self.kept {
            Kept::One(job, count) => Ok(Holders {
                kept: Kept::One(*job, *count),
            }),
            Kept::Many(several) => {
                let copy = several.copy()?;
                boxed(alloc, copy)
            }
        }
    }

    /// These, and the job holds it n times more. Refused where there is no memory, which several jobs want.
    pub fn more(&self, alloc: Global, job: u16, n: u32) -> Result<Holders, AllocError>
        requires some { 0 < n }
        requires small { counted self.now job + n ≤ most_locks }
        ensures count { IfOk result (λ more. IsCounted self.now more job (counted self.now job + n)) }
        ensures held { IfOk result IsEntry }
    {
        match &self.kept {
            Kept::One(held, count) => more_than_one(alloc, *held, *count, job, n),
            Kept::Many(several) => {
                let more = several.more(job, n)?;
                boxed(alloc, more)
            }
        }
    }

    /// The job holds it n times fewer. Takes no memory.
    pub fn take(&mut self, job: u16, n: u32)
        ensures count { IsCounted self.old self.new job (counted self.old job - n) }
        ensures held { AreHolders self.new }
    {
        match &mut self.kept {
            Kept::One(held, count) => {
                if *held == job {
                    *count = count.saturating_sub(n);
                }
            }
            Kept::Many(several) => several.take(job, n),
        }
    }
}

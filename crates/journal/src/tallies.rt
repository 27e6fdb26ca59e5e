//! How many units each job has.
ghost use Rattle.std.specs.Prelude.{◌≡◌, ◌<◌, ◌+◌, ◌-◌, ◌^◌, ℕ, [], min, OnOk, IfOk, length};
ghost use Rattle.journal.specs.Counting.{tally_in, one_more};

use collation::Job;
use std::alloc::{AllocError, Global};
use std::marker::Model;

/// A number for each job that has units, at the job's own number.
#[derive(Drop)]
pub(crate) struct Tallies {
    counts: Vec<u64>,
}

impl Model for Tallies {
    ghost use Rattle.std.specs.Coded.{coded_ℕ, coded_list};
    ghost use Rattle.journal.specs.Counting as counting;

    ghost Value = { counting.Tallies };

    ghost coded = { coded_list coded_ℕ };

    ghost view = { λ t. t.counts.items };
}

impl Tallies {
    /// No job has a unit. Takes no memory.
    pub(crate) fn new(alloc: Global) -> Tallies
        ensures { result ≡ [] }
    {
        Tallies {
            counts: Vec::new(alloc),
        }
    }

    /// How many units the job has.
    pub(crate) fn count(&self, job: Job) -> u64
        ensures { result ≡ tally_in self.now job }
    {
        match self.counts.get(job.number() as usize) {
            Some(count) => *count,
            None => 0,
        }
    }

    /// Room for the job's number.
    pub(crate) fn make_room(&mut self, job: Job) -> Result<(), AllocError>
        ensures same { (q : ℕ) → tally_in self.new q ≡ tally_in self.old q }
        ensures one { one_more job self.new ≡ one_more job self.old }
        ensures room { OnOk result (job < length self.new) }
    {
        let number = job.number() as usize;
        while self.counts.len() <= number {
            self.counts.push(0)?;
        }
        Ok(())
    }

    /// One more of the job, whose number has room. Takes no memory.
    pub(crate) fn add(&mut self, job: Job)
        requires { job < length self.old }
        ensures { self.new ≡ one_more job self.old }
    {
        let number = job.number() as usize;
        let count = self.counts[number].saturating_add(1);
        self.counts[number] = count;
    }

    /// So many more of the job, whose number has room. Takes no memory.
    pub(crate) fn add_all(&mut self, job: Job, more: u64)
        requires { job < length self.old }
        ensures this { tally_in self.new job ≡ min (tally_in self.old job + more) (2 ^ 64 - 1) }
        ensures others { (q : ℕ) → (job ≡ q → ⊥) → tally_in self.new q ≡ tally_in self.old q }
    {
        let number = job.number() as usize;
        let count = self.counts[number].saturating_add(more);
        self.counts[number] = count;
    }

    /// One more of the job.
    pub(crate) fn count_one(&mut self, job: Job) -> Result<(), AllocError>
        ensures { OnOk result (self.new ≡ one_more job self.old) }
    {
        self.make_room(job)?;
        self.add(job);
        Ok(())
    }

    /// A copy.
    pub(crate) fn copy(&self) -> Result<Tallies, AllocError>
        ensures { IfOk result (λ copy. copy ≡ self.now) }
    {
        let counts = self.counts.clone()?;
        Ok(Tallies { counts })
    }
}

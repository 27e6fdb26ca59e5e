//! The start stamps of open transactions.
ghost use Rattle.std.specs.Prelude.{◌≡◌, ◌<◌, ◌≤◌, ◌+◌, max, [], ℕ, None, Some, MatchOption, OnOk, IsSome, length, slice_index_or};
ghost use Rattle.slab.specs.Slab.{get, HasRoomFor};
ghost use Rattle.job_core.specs.Starts.{place_of, lesser_of, HasBegun, HasChanged, IsBare, IsLeastIn, IsSameButRoom};

use collation::Job;
use slab::Slab;
use std::alloc::{AllocError, Global};
use std::marker::Model;

// The lesser of a stamp, if there is one, and another.
fn lesser(stamp: Option<u64>, other: u64) -> u64
    ensures { result ≡ lesser_of stamp other }
{
    match stamp {
        Some(stamp) => stamp.min(other),
        None => other,
    }
}

// Adds places, until there is one at this number, and none above it.
fn reach(places: &mut Vec<usize>, number: usize) -> Result<(), AllocError>
    ensures same { (job : ℕ) → slice_index_or places.new.items job 0 ≡ slice_index_or places.old.items job 0 }
    ensures reached { OnOk result (number < length places.new.items) }
    ensures few { length places.new.items ≤ max (length places.old.items) (number + 1) }
{
    while places.len() <= number {
        places.push(0)?;
    }
    Ok(())
}

/// The start stamp of each open transaction.
#[derive(Drop)]
pub(crate) struct Starts {
    stamps: Slab<u64>,
    // Where a job's stamp is, while its transaction is open.
    places: Vec<usize>,
}

impl Model for Starts {
    ghost use Rattle.job_core.specs.Starts.{Starts as StartStamps, starts_code};

    ghost Value = { StartStamps };

    ghost coded = { starts_code };

    ghost view = { λ s. record { stamps = s.stamps; places = s.places.items } };
}

impl Starts {
    /// No transaction is open. Takes no memory.
    pub(crate) fn new(alloc: Global) -> Starts
        ensures { IsBare result }
    {
        Starts {
            stamps: Slab::new(alloc),
            places: Vec::new(alloc),
        }
    }

    // Where the job's stamp is, if its transaction is open.
    fn place(&self, job: Job) -> usize
        ensures { result ≡ place_of self.now job }
    {
        let number = job.number() as usize;
        if number < self.places.len() {
            self.places[number]
        } else {
            0
        }
    }

    /// Room for a stamp of the job.
    ///
    /// Refusals: `AllocError`, after which there may be more room.
    pub(crate) fn reserve(&mut self, job: Job) -> Result<(), AllocError>
        ensures same { IsSameButRoom self.old self.new }
        ensures room { OnOk result (HasRoomFor self.new.stamps 1) }
        ensures place { OnOk result (job < length self.new.places) }
        ensures few { length self.new.places ≤ max (length self.old.places) (job + 1) }
    {
        reach(&mut self.places, job.number() as usize)?;
        self.stamps.reserve(1)
    }

    /// The start of a job that has none, where there is room. Takes no memory.
    pub(crate) fn begin(&mut self, job: Job, stamp: u64)
        requires room { HasRoomFor self.old.stamps 1 }
        requires place { job < length self.old.places }
        ensures { HasBegun job stamp self.old self.new }
    {
        let place = self.stamps.insert_reserved(stamp);
        self.places[job.number() as usize] = place;
    }

    /// Another start of a job that has one. Takes no memory.
    pub(crate) fn renew(&mut self, job: Job, stamp: u64)
        requires { IsSome (get self.old.stamps (place_of self.old job)) }
        ensures { HasChanged job (Some stamp) self.old self.new }
    {
        let place = self.place(job);
        self.stamps[place] = stamp;
    }

    /// The job's transaction is over. Takes no memory.
    pub(crate) fn end(&mut self, job: Job)
        ensures { HasChanged job None self.old self.new }
    {
        let place = self.place(job);
        let _stamp = self.stamps.try_remove(place);
    }

    /// The least, where there is one.
    pub(crate) fn least(&self) -> Option<u64>
        ensures { MatchOption result (IsBare self.now) (λ stamp. IsLeastIn stamp self.now) }
    {
        let mut least = None;
        'stamps: for (_, stamp) in self.stamps.iter() {
            least = Some(lesser(least, *stamp));
        }
        least
    }
}

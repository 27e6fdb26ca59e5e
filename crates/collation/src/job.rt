//! Jobs.
ghost use Rattle.std.specs.Prelude.{◌≡◌, ◌≤◌, MatchResult};
ghost use Rattle.collation.specs.Limits.{most_jobs};

use crate::MOST_JOBS;
use refusal::Refusal;
use std::marker::Model;

/// A job, by its number from 1 to 4,096.
#[derive(Clone, Copy, Debug, PartialEq, Eq, Hash)]
pub struct Job {
    number: u16,
}

impl Model for Job {
    ghost use Rattle.std.specs.Prelude.{ℕ, ◌≤◌};
    ghost use Rattle.collation.specs.Limits.{most_jobs};

    ghost Value = { ℕ };

    ghost view = { λ j. j.number };

    ghost invariant = { λ j. (1 ≤ j.number) × (j.number ≤ most_jobs) };

    ghost inverse = { λ n. record { number = n } };
}

impl Job {
    /// The job of this number. Refused, `BadJob`, where that isn't 1 to 4,096.
    pub fn new(number: u64) -> Result<Job, Refusal>
        ensures { MatchResult result (λ job. (job ≡ number) × (1 ≤ number) × (number ≤ most_jobs))
            (λ refusal. (1 ≤ number → number ≤ most_jobs → ⊥) × (refusal ≡ Refusal.BadJob)) }
    {
        if number >= 1 && number <= MOST_JOBS {
            Ok(Job {
                number: number as u16,
            })
        } else {
            Err(Refusal::BadJob)
        }
    }

    /// Its number, from 1 to 4,096.
    pub fn number(self) -> u16
        ensures value { result ≡ self }
        ensures low { 1 ≤ result }
        ensures high { result ≤ most_jobs }
    {
        self.number
    }
}

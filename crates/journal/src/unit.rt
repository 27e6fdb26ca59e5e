//! The units of a journal.
ghost use Rattle.std.specs.Prelude.{◌≡◌};
ghost use Rattle.journal.specs.Kept.{job_of};

use collation::Job;
use command::{Answer, DataCommand};
use lock_name::LockCommand;
use std::marker::Model;

/// A data command that was accepted, and its answer.
#[derive(Debug, Drop)]
pub struct Exchange {
    pub command: DataCommand,
    pub answer: Answer,
}

/// The accepted data commands of a transaction, in their order.
#[derive(Debug, Drop)]
pub struct Exchanges {
    list: Vec<Exchange>,
}

impl Model for Exchanges {
    ghost use Rattle.std.specs.Prelude.{List};
    ghost use Rattle.journal.specs.declared.unit.Exchange.{Exchange};

    ghost Value = { List Exchange };

    ghost view = { λ e. e.list.items };
}

impl Exchanges {
    /// These exchanges. Takes no memory.
    pub fn new(list: Vec<Exchange>) -> Exchanges
        ensures { result ≡ list.items }
    {
        Exchanges { list }
    }

    /// The exchanges, in their order.
    pub fn as_slice(&self) -> &[Exchange]
        ensures { result.now ≡ self.now }
    {
        &self.list
    }
}

/// What was done in one step.
#[derive(Debug, Drop)]
pub enum Unit {
    /// A data command outside a transaction, with its answer.
    Lone(Job, DataCommand, Answer),
    /// A transaction at its commit.
    Whole(Job, Exchanges),
    /// A LOCK, whether inside a transaction, and whether its names were had.
    Lock(Job, bool, LockCommand, bool),
    /// A rollback or restart of a transaction that took a LOCK.
    Back(Job),
    /// The end of a job's session.
    End(Job),
}

impl Unit {
    /// The job that did it.
    pub fn job(&self) -> Job
        ensures { result ≡ job_of self.now }
    {
        match self {
            Unit::Lone(job, _, _) => *job,
            Unit::Whole(job, _) => *job,
            Unit::Lock(job, _, _, _) => *job,
            Unit::Back(job) => *job,
            Unit::End(job) => *job,
        }
    }
}

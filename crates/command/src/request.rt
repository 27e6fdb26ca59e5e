//! What a job asks, and what it is answered.
use crate::{Answer, DataCommand};
use lock_name::LockCommand;
use refusal::Refusal;

/// What a job asks.
#[derive(Debug, Drop, PartialEq, Eq)]
pub enum Command {
    /// A data command, in a transaction or not.
    Access(DataCommand),
    /// LOCK.
    Lock(LockCommand),
    /// TSTART.
    Start,
    /// TCOMMIT.
    Commit,
    /// TROLLBACK.
    Rollback,
    /// TRESTART.
    Restart,
    /// $TLEVEL.
    Level,
    /// $TRESTART.
    Restarts,
    /// HALT.
    Halt,
}

/// What a job is answered.
#[derive(Clone, Debug, Drop, PartialEq, Eq)]
pub enum Reply {
    /// The answer of a data command.
    Answered(Answer),
    /// It is done: LOCK without names, TROLLBACK, HALT.
    Finished,
    /// Whether the names of a LOCK were had.
    Had(bool),
    /// What $TLEVEL and $TRESTART answer.
    Count(u64),
    /// The level that TSTART or an inner TCOMMIT leaves.
    AtLevel(u64),
    /// The transaction was committed.
    Committed,
    /// The transaction begins anew, for the time of this number.
    Restarted(u64),
    /// It was refused, and nothing has changed.
    Refused(Refusal),
}

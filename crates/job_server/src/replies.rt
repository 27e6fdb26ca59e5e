//! What calls of the engine are replied.
ghost use Rattle.std.specs.Prelude.{◌≡◌, true, false, IfOk};
ghost use Rattle.command.specs.declared.request.Reply.TheVariants.{Answered, Finished as finished_reply, AtLevel, Restarted as restarted_reply};
ghost use Rattle.serial.specs.Machine.{told_had};
ghost use Rattle.shared_engine.specs.Blocks.{said, is_blocked};
ghost use Rattle.job_server.specs.Replying.{written_as, ended_as};

use command::{Answer, Reply};
use lock_name::LockCommand;
use refusal::Refusal;
use shared_engine::Ended;

/// A data command's reply.
pub(crate) fn answered(done: Result<Answer, Refusal>) -> Reply
    ensures told { result ≡ said Answered done }
    ensures other { is_blocked true result ≡ false }
{
    match done {
        Ok(answer) => Reply::Answered(answer),
        Err(refusal) => Reply::Refused(refusal),
    }
}

/// What SET and KILL in a transaction answer.
pub(crate) fn written(done: Result<(), Refusal>) -> Result<Answer, Refusal>
    ensures { result ≡ written_as done }
{
    match done {
        Ok(()) => Ok(Answer::Done),
        Err(refusal) => Err(refusal),
    }
}

/// The reply to a LOCK.
pub(crate) fn locked(command: &LockCommand, done: Result<bool, Refusal>) -> Reply
    ensures told { result ≡ said (told_had command.now) done }
    ensures had { IfOk done (λ had. had ≡ true) → is_blocked true result ≡ false }
{
    match (command, done) {
        (_, Err(refusal)) => Reply::Refused(refusal),
        (LockCommand::Release, Ok(_)) => Reply::Finished,
        (_, Ok(had)) => Reply::Had(had),
    }
}

/// The reply to TSTART.
pub(crate) fn at_level(done: Result<u64, Refusal>) -> Reply
    ensures told { result ≡ said AtLevel done }
    ensures other { is_blocked true result ≡ false }
{
    match done {
        Ok(level) => Reply::AtLevel(level),
        Err(refusal) => Reply::Refused(refusal),
    }
}

/// The reply to the outermost TCOMMIT.
pub(crate) fn ended(done: Result<Ended, Refusal>) -> Reply
    ensures told { result ≡ ended_as done }
    ensures other { is_blocked true result ≡ false }
{
    match done {
        Ok(Ended::Committed) => Reply::Committed,
        Ok(Ended::Restarted(restarts)) => Reply::Restarted(restarts),
        Err(refusal) => Reply::Refused(refusal),
    }
}

/// The reply to TROLLBACK.
pub(crate) fn finished(done: Result<(), Refusal>) -> Reply
    ensures told { result ≡ said (λ d. finished_reply) done }
    ensures other { is_blocked true result ≡ false }
{
    match done {
        Ok(()) => Reply::Finished,
        Err(refusal) => Reply::Refused(refusal),
    }
}

/// The reply to TRESTART.
pub(crate) fn restarted(done: Result<u64, Refusal>) -> Reply
    ensures told { result ≡ said restarted_reply done }
    ensures other { is_blocked true result ≡ false }
{
    match done {
        Ok(restarts) => Reply::Restarted(restarts),
        Err(refusal) => Reply::Refused(refusal),
    }
}

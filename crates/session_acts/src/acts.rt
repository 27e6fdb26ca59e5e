//! Commands by the calls of a session.
ghost use Rattle.std.specs.Prelude.{◌≤◌};

use collation::Job;
use command::{Answer, Command, DataCommand, Look, Reply};
use key_codec::Key;
use lock_name::LockCommand;
use refusal::Refusal;
use script::{Drafts, read_line};
use shared_engine::{BoardName, Ended, Gate, Mark, Session, Shared, Stop, Turn};
use std::alloc::Global;
use std::sync::Wait;

/// A gate that lets no time pass.
pub struct NoTime;

impl Gate for NoTime {
    fn watches_lines(&self) -> bool {
        true
    }

    fn before(&self, _job: Job, _line: u64) {}

    fn after(&self, _job: Job, _line: u64) {}

    fn between_tries(&self, _job: Job) {}

    fn pause(&self, _job: Job, _millis: u64) {}

    fn now(&self) -> u64 {
        0
    }

    fn waits(&self, _job: Job, _command: &LockCommand) -> Mark {
        Mark {
            changes: 0,
            is_counted: false,
        }
    }

    fn tried(&self, _job: Job, mark: Mark) -> Mark {
        mark
    }

    fn goes_on(&self, _job: Job, _command: &LockCommand) {}

    fn job_begun(&self) {}

    fn job_failed(&self) {}

    fn stop(&self) -> Option<Stop> {
        None
    }

    fn job_done(&self, _done: u64, _jobs: u64, _lines: u64) {}
}

/// A session of the job of this number, or none.
pub fn opened<B: BoardName, R: Wait>(
    rt: &R,
    alloc: Global,
    engine: &Shared<B>,
    number: u64,
) -> Option<Session<B>> {
    match Job::new(number) {
        Ok(job) => engine.open(rt, alloc, job).ok(),
        Err(_) => None,
    }
}

/// The command of a line, or none where memory is refused.
pub fn command_of(alloc: Global, line: &str) -> Option<Command> {
    let mut drafts = Drafts::new(alloc);
    match read_line(alloc, line.as_bytes(), &mut drafts) {
        Ok((_, command)) => Some(command),
        Err(_) => None,
    }
}

/// The data command of a line.
pub fn data_of(alloc: Global, line: &str) -> Option<DataCommand> {
    match command_of(alloc, line)? {
        Command::Access(command) => Some(command),
        other => {
            drop(other);
            None
        }
    }
}

fn written(done: Result<(), Refusal>) -> Result<Answer, Refusal> {
    match done {
        Ok(()) => Ok(Answer::Done),
        Err(refusal) => Err(refusal),
    }
}

// A $GET in a transaction. Where its own writes decide the answer nothing is read.
fn get<B: BoardName, R: Wait>(
    rt: &R,
    engine: &Shared<B>,
    session: &mut Session<B>,
    look: Look,
) -> Result<Answer, Refusal>
    requires { 1 ≤ session.old.state.level }
{
    let own = match &look {
        Look::Get(key, default) => session.own_get(key, default),
        _ => Ok(None),
    };
    match own {
        Ok(None) => engine.read(rt, session, DataCommand::Look(look)),
        Ok(Some(answer)) => {
            drop(look);
            Ok(answer)
        }
        Err(refusal) => {
            drop(look);
            Err(refusal)
        }
    }
}

// A data command in a transaction.
fn access_inside<B: BoardName, R: Wait>(
    rt: &R,
    engine: &Shared<B>,
    session: &mut Session<B>,
    command: DataCommand,
) -> Result<Answer, Refusal>
    requires { 1 ≤ session.old.state.level }
{
    match command {
        DataCommand::Set(key, value) => written(session.set(key, value)),
        DataCommand::Kill(key, extent) => written(session.kill(key, extent)),
        DataCommand::Merge(to, from) => engine.read(rt, session, DataCommand::Merge(to, from)),
        DataCommand::Increment(key, number) => {
            engine.read(rt, session, DataCommand::Increment(key, number))
        }
        DataCommand::Look(look) => get(rt, engine, session, look),
    }
}

fn access<B: BoardName, R: Wait>(
    rt: &R,
    engine: &Shared<B>,
    session: &mut Session<B>,
    command: DataCommand,
) -> Result<Answer, Refusal> {
    if session.tlevel() == 0 {
        return engine.lone(rt, session, command);
    }
    access_inside(rt, engine, session, command)
}

// One try of a LOCK.
fn lock<B: BoardName, R: Wait>(
    rt: &R,
    engine: &Shared<B>,
    session: &mut Session<B>,
    command: &LockCommand,
) -> Result<Reply, Refusal> {
    let had = engine.lock_within(rt, session, command, 0, &NoTime)?;
    match command {
        LockCommand::Release => Ok(Reply::Finished),
        _ => Ok(Reply::Had(had)),
    }
}

fn start<B: BoardName>(engine: &Shared<B>, session: &mut Session<B>) -> Result<u64, Refusal> {
    if session.tlevel() == 0 {
        engine.tstart(session)?;
        return Ok(1);
    }
    session.tstart_inner()
}

fn commit<B: BoardName, R: Wait>(
    rt: &R,
    engine: &Shared<B>,
    session: &mut Session<B>,
) -> Result<Reply, Refusal> {
    match session.tlevel() {
        0 => Err(Refusal::NoTransaction),
        1 => match engine.tcommit(rt, session, &mut Turn::NotDue)? {
            Ended::Committed => Ok(Reply::Committed),
            Ended::Restarted(restarts) => Ok(Reply::Restarted(restarts)),
        },
        _ => Ok(Reply::AtLevel(session.tcommit_inner())),
    }
}

fn rollback<B: BoardName, R: Wait>(
    rt: &R,
    engine: &Shared<B>,
    session: &mut Session<B>,
) -> Result<(), Refusal> {
    if session.tlevel() == 0 {
        return Err(Refusal::NoTransaction);
    }
    engine.trollback(rt, session)
}

fn restart<B: BoardName, R: Wait>(
    rt: &R,
    engine: &Shared<B>,
    session: &mut Session<B>,
) -> Result<u64, Refusal> {
    if session.tlevel() == 0 {
        return Err(Refusal::NoTransaction);
    }
    engine.trestart(rt, session)
}

// Does a command; HALT does nothing.
fn done<B: BoardName, R: Wait>(
    rt: &R,
    engine: &Shared<B>,
    session: &mut Session<B>,
    command: Command,
) -> Result<Reply, Refusal> {
    match command {
        Command::Access(command) => Ok(Reply::Answered(access(rt, engine, session, command)?)),
        Command::Lock(command) => {
            let reply = lock(rt, engine, session, &command);
            drop(command);
            reply
        }
        Command::Start => Ok(Reply::AtLevel(start(engine, session)?)),
        Command::Commit => commit(rt, engine, session),
        Command::Rollback => {
            rollback(rt, engine, session)?;
            Ok(Reply::Finished)
        }
        Command::Restart => Ok(Reply::Restarted(restart(rt, engine, session)?)),
        Command::Level => Ok(Reply::Count(session.tlevel())),
        Command::Restarts => Ok(Reply::Count(session.trestarts())),
        Command::Halt => Ok(Reply::Finished),
    }
}

/// The reply to a command; HALT does nothing.
pub fn reply_to<B: BoardName, R: Wait>(
    rt: &R,
    engine: &Shared<B>,
    session: &mut Session<B>,
    command: Command,
) -> Reply {
    match done(rt, engine, session, command) {
        Ok(reply) => reply,
        Err(refusal) => Reply::Refused(refusal),
    }
}

/// The reply to the command of a line, or none where memory is refused.
pub fn reply_to_line<B: BoardName, R: Wait>(
    rt: &R,
    alloc: Global,
    engine: &Shared<B>,
    session: &mut Session<B>,
    line: &str,
) -> Option<Reply> {
    let command = command_of(alloc, line)?;
    Some(reply_to(rt, engine, session, command))
}

/// Whether the command of a line is replied to as this text says, without the job.
pub fn is_replied<B: BoardName, R: Wait>(
    rt: &R,
    alloc: Global,
    engine: &Shared<B>,
    session: &mut Session<B>,
    line: &str,
    want: &str,
) -> bool {
    match reply_to_line(rt, alloc, engine, session, line) {
        Some(reply) => is_written(alloc, &reply, want),
        None => false,
    }
}

/// Whether a reply is written so. `0 ` stands before it.
pub fn is_written(alloc: Global, reply: &Reply, want: &str) -> bool {
    let mut text = Vec::new(alloc);
    let is_ok = script::write_reply(None, reply, &mut text).is_ok();
    is_ok && text.as_slice() == want.as_bytes()
}

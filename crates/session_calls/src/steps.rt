//! The step of one command of a session.
ghost use Rattle.std.specs.Prelude.{◌≡◌, ◌≤◌, IfOk, OnErr};
ghost use Rattle.command.specs.declared.request.Command.{Command};
ghost use Rattle.command.specs.declared.request.Reply.TheVariants.{Answered};
ghost use Rattle.serial.specs.Machine.{told_had};
ghost use Rattle.shared_engine.specs.Blocks.{said};
ghost use Rattle.session_calls.specs.Steps.{HasStepped, NeedsTurn};

use command::{Answer, Command, DataCommand, Reply};
use hub::{Busy, HubSession};
use lock_name::LockCommand;
use refusal::Refusal;
use shared_engine::Ended;

// The reply of a data command that was done.
fn reply_of(done: Result<Answer, Refusal>) -> Reply
    ensures { result ≡ said Answered done }
{
    match done {
        Ok(answer) => Reply::Answered(answer),
        Err(refusal) => Reply::Refused(refusal),
    }
}

// A data command outside a transaction.
fn alone(session: &mut HubSession, command: DataCommand) -> Result<Reply, Busy>
    requires { session.old.held.state.level ≡ 0 }
    ensures table { session.new.table ≡ session.old.table }
    ensures done { IfOk result (λ reply. HasStepped (Command.Access command) reply session.old.held session.new.held) }
    ensures busy { OnErr result (session.new ≡ session.old) }
    ensures turn { OnErr result (NeedsTurn (Command.Access command) session.old.held) }
{
    match session.lone(command) {
        Ok(done) => Ok(reply_of(done)),
        Err(command) => {
            drop(command);
            Err(Busy)
        }
    }
}

// A data command in a transaction.
fn within(session: &mut HubSession, command: DataCommand) -> Result<Reply, Busy>
    requires { 1 ≤ session.old.held.state.level }
    ensures table { session.new.table ≡ session.old.table }
    ensures done { IfOk result (λ reply. HasStepped (Command.Access command) reply session.old.held session.new.held) }
    ensures busy { OnErr result (session.new ≡ session.old) }
    ensures turn { OnErr result (NeedsTurn (Command.Access command) session.old.held) }
{
    match session.read(command) {
        Ok(done) => Ok(reply_of(done)),
        Err(command) => {
            drop(command);
            Err(Busy)
        }
    }
}

// A data command, outside a transaction or in one.
fn access(session: &mut HubSession, command: DataCommand) -> Result<Reply, Busy>
    ensures table { session.new.table ≡ session.old.table }
    ensures done { IfOk result (λ reply. HasStepped (Command.Access command) reply session.old.held session.new.held) }
    ensures busy { OnErr result (session.new ≡ session.old) }
    ensures turn { OnErr result (NeedsTurn (Command.Access command) session.old.held) }
{
    if session.tlevel() == 0 {
        alone(session, command)
    } else {
        within(session, command)
    }
}

// The reply of a LOCK that was tried.
fn reply_of_lock(command: &LockCommand, had: bool) -> Reply
    ensures { result ≡ told_had command.now had }
{
    match command {
        LockCommand::Release => Reply::Finished,
        _ => Reply::Had(had),
    }
}

// The first try of a LOCK.
fn lock(session: &mut HubSession, command: &LockCommand) -> Result<Reply, Busy>
    ensures table { session.new.table ≡ session.old.table }
    ensures done { IfOk result (λ reply. HasStepped (Command.Lock command.now) reply session.old.held session.new.held) }
    ensures busy { OnErr result (session.new ≡ session.old) }
    ensures turn { OnErr result (NeedsTurn (Command.Lock command.now) session.old.held) }
{
    match session.lock(command) {
        Ok(Ok(had)) => Ok(reply_of_lock(command, had)),
        Ok(Err(refusal)) => Ok(Reply::Refused(refusal)),
        Err(Busy) => Err(Busy),
    }
}

// The outermost TSTART. One whose start was passed by a horizon as it was taken is made again.
fn begin(session: &mut HubSession) -> Result<Reply, Busy>
    requires { session.old.held.state.level ≡ 0 }
    ensures table { session.new.table ≡ session.old.table }
    ensures done { IfOk result (λ reply. HasStepped Command.Start reply session.old.held session.new.held) }
    ensures busy { OnErr result (session.new ≡ session.old) }
    ensures turn { OnErr result (NeedsTurn Command.Start session.old.held) }
{
    match session.tstart() {
        Ok(()) => Ok(Reply::AtLevel(1)),
        Err(_) => Err(Busy),
    }
}

// TSTART within a transaction.
fn deeper(session: &mut HubSession) -> Reply
    requires { 1 ≤ session.old.held.state.level }
    ensures table { session.new.table ≡ session.old.table }
    ensures done { HasStepped Command.Start result session.old.held session.new.held }
{
    match session.tstart_inner() {
        Ok(level) => Reply::AtLevel(level),
        Err(refusal) => Reply::Refused(refusal),
    }
}

// TSTART.
fn start(session: &mut HubSession) -> Result<Reply, Busy>
    ensures table { session.new.table ≡ session.old.table }
    ensures done { IfOk result (λ reply. HasStepped Command.Start reply session.old.held session.new.held) }
    ensures busy { OnErr result (session.new ≡ session.old) }
    ensures turn { OnErr result (NeedsTurn Command.Start session.old.held) }
{
    if session.tlevel() == 0 {
        begin(session)
    } else {
        Ok(deeper(session))
    }
}

// The outermost TCOMMIT.
fn close(session: &mut HubSession) -> Result<Reply, Busy>
    requires { session.old.held.state.level ≡ 1 }
    ensures table { session.new.table ≡ session.old.table }
    ensures done { IfOk result (λ reply. HasStepped Command.Commit reply session.old.held session.new.held) }
    ensures busy { OnErr result (session.new ≡ session.old) }
    ensures turn { OnErr result (NeedsTurn Command.Commit session.old.held) }
{
    match session.tcommit() {
        Ok(Ok(Ended::Committed)) => Ok(Reply::Committed),
        Ok(Ok(Ended::Restarted(restarts))) => Ok(Reply::Restarted(restarts)),
        Ok(Err(refusal)) => Ok(Reply::Refused(refusal)),
        Err(Busy) => Err(Busy),
    }
}

// TCOMMIT.
fn commit(session: &mut HubSession) -> Result<Reply, Busy>
    ensures table { session.new.table ≡ session.old.table }
    ensures done { IfOk result (λ reply. HasStepped Command.Commit reply session.old.held session.new.held) }
    ensures busy { OnErr result (session.new ≡ session.old) }
    ensures turn { OnErr result (NeedsTurn Command.Commit session.old.held) }
{
    match session.tlevel() {
        0 => Ok(Reply::Refused(Refusal::NoTransaction)),
        1 => close(session),
        _ => Ok(Reply::AtLevel(session.tcommit_inner())),
    }
}

// TROLLBACK of a transaction.
fn gone_back(session: &mut HubSession) -> Result<Reply, Busy>
    requires { 1 ≤ session.old.held.state.level }
    ensures table { session.new.table ≡ session.old.table }
    ensures done { IfOk result (λ reply. HasStepped Command.Rollback reply session.old.held session.new.held) }
    ensures busy { OnErr result (session.new ≡ session.old) }
    ensures turn { OnErr result (NeedsTurn Command.Rollback session.old.held) }
{
    match session.trollback() {
        Ok(Ok(())) => Ok(Reply::Finished),
        Ok(Err(refusal)) => Ok(Reply::Refused(refusal)),
        Err(Busy) => Err(Busy),
    }
}

// TROLLBACK.
fn roll_back(session: &mut HubSession) -> Result<Reply, Busy>
    ensures table { session.new.table ≡ session.old.table }
    ensures done { IfOk result (λ reply. HasStepped Command.Rollback reply session.old.held session.new.held) }
    ensures busy { OnErr result (session.new ≡ session.old) }
    ensures turn { OnErr result (NeedsTurn Command.Rollback session.old.held) }
{
    if session.tlevel() == 0 {
        Ok(Reply::Refused(Refusal::NoTransaction))
    } else {
        gone_back(session)
    }
}

// TRESTART of a transaction.
fn anew(session: &mut HubSession) -> Result<Reply, Busy>
    requires { 1 ≤ session.old.held.state.level }
    ensures table { session.new.table ≡ session.old.table }
    ensures done { IfOk result (λ reply. HasStepped Command.Restart reply session.old.held session.new.held) }
    ensures busy { OnErr result (session.new ≡ session.old) }
    ensures turn { OnErr result (NeedsTurn Command.Restart session.old.held) }
{
    match session.trestart() {
        Ok(Ok(restarts)) => Ok(Reply::Restarted(restarts)),
        Ok(Err(refusal)) => Ok(Reply::Refused(refusal)),
        Err(Busy) => Err(Busy),
    }
}

// TRESTART.
fn restart(session: &mut HubSession) -> Result<Reply, Busy>
    ensures table { session.new.table ≡ session.old.table }
    ensures done { IfOk result (λ reply. HasStepped Command.Restart reply session.old.held session.new.held) }
    ensures busy { OnErr result (session.new ≡ session.old) }
    ensures turn { OnErr result (NeedsTurn Command.Restart session.old.held) }
{
    if session.tlevel() == 0 {
        Ok(Reply::Refused(Refusal::NoTransaction))
    } else {
        anew(session)
    }
}

// The step of a command.
pub(crate) fn step(session: &mut HubSession, command: Command) -> Result<Reply, Busy>
    ensures table { session.new.table ≡ session.old.table }
    ensures done { IfOk result (λ reply. HasStepped command reply session.old.held session.new.held) }
    ensures busy { OnErr result (session.new ≡ session.old) }
    ensures turn { OnErr result (NeedsTurn command session.old.held) }
{
    match command {
        Command::Access(data) => access(session, data),
        Command::Lock(names) => {
            let done = lock(session, &names);
            drop(names);
            done
        }
        Command::Start => start(session),
        Command::Commit => commit(session),
        Command::Rollback => roll_back(session),
        Command::Restart => restart(session),
        Command::Level => Ok(Reply::Count(session.tlevel())),
        Command::Restarts => Ok(Reply::Count(session.trestarts())),
        Command::Halt => Ok(Reply::Refused(Refusal::BadLine)),
    }
}

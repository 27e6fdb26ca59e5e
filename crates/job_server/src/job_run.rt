//! A command of a job, by the calls of its session.
ghost use Rattle.std.specs.Prelude.{◌≡◌, ◌≢◌, ◌≤◌, true, false, None, IfOk};
ghost use Rattle.command.specs.declared.request.Command.{Command};
ghost use Rattle.command.specs.declared.request.Reply.{Reply};
ghost use Rattle.shared_engine.specs.Blocks.{said, is_blocked};
ghost use Rattle.job_server.specs.Steps.{WasDoneBy};
ghost use Rattle.job_server.specs.Telling.{HasLocked};

use crate::replies::{answered, at_level, ended, finished, locked, restarted, written};
use collation::Job;
use command::{Answer, Command, DataCommand, Look, Reply};
use lock_name::LockCommand;
use refusal::Refusal;
use shared_engine::{BoardName, Gate, Session, Shared, Turn};
use std::sync::Wait;

/// The engine, the leave to wait, and what is called meanwhile.
pub(crate) struct Calls<'a, B: BoardName, R, G> {
    pub(crate) rt: &'a R,
    pub(crate) engine: &'a Shared<B>,
    pub(crate) gate: &'a G,
    /// How many units there were before the first job.
    pub(crate) since: u64,
}

impl<'a, B: BoardName, R, G> Drop for Calls<'a, B, R, G> {
    fn drop(self) {
        let Calls {
            rt: _,
            engine: _,
            gate: _,
            since: _,
        } = self;
    }
}

impl<'a, B: BoardName, R: Wait, G: Gate> Calls<'a, B, R, G> {
    /// The reply to a command of a session, but for HALT. `millis` is a LOCK's timeout; without one it isn't replied
    /// that it was blocked. An outermost TCOMMIT takes a turn that is due, where it pays. Each try is a step of the
    /// session.
    pub(crate) fn reply_to(
        &self,
        session: &mut Session<B>,
        command: Command,
        millis: Option<u64>,
        turn: &mut Turn,
    ) -> Reply
        requires { command ≢ Command.Halt }
        ensures done { WasDoneBy command result session.old session.new }
        ensures had { millis ≡ None → is_blocked true result ≡ false }
    {
        match command {
            Command::Access(command) => answered(self.access(session, command)),
            Command::Lock(command) => self.lock(session, command, millis),
            Command::Start => at_level(self.start(session)),
            Command::Commit => self.commit(session, turn),
            Command::Rollback => self.rollback(session),
            Command::Restart => self.restart(session),
            Command::Level => Reply::Count(session.tlevel()),
            Command::Restarts => Reply::Count(session.trestarts()),
            Command::Halt => unreachable!(),
        }
    }

    #[tactic(auto, using(crate::proofs::Stepped::lone_stepped))]
    fn access(&self, session: &mut Session<B>, command: DataCommand) -> Result<Answer, Refusal>
        ensures { WasDoneBy (Command.Access command) (said Reply.Answered result) session.old session.new }
    {
        if session.tlevel() == 0 {
            return self.engine.lone(self.rt, session, command);
        }
        self.access_inside(session, command)
    }

    // A data command in a transaction. SET and the kills take no lock.
    #[tactic(auto, using(crate::proofs::Stepped::written_stepped, crate::proofs::Stepped::read_stepped))]
    fn access_inside(
        &self,
        session: &mut Session<B>,
        command: DataCommand,
    ) -> Result<Answer, Refusal>
        requires { 1 ≤ session.old.state.level }
        ensures { WasDoneBy (Command.Access command) (said Reply.Answered result) session.old session.new }
    {
        match command {
            DataCommand::Set(key, value) => written(session.set(key, value)),
            DataCommand::Kill(key, extent) => written(session.kill(key, extent)),
            DataCommand::Merge(to, from) => {
                self.engine
                    .read(self.rt, session, DataCommand::Merge(to, from))
            }
            DataCommand::Increment(key, number) => {
                self.engine
                    .read(self.rt, session, DataCommand::Increment(key, number))
            }
            DataCommand::Look(look) => self.engine.read(self.rt, session, DataCommand::Look(look)),
        }
    }

    fn lock(&self, session: &mut Session<B>, command: LockCommand, millis: Option<u64>) -> Reply
        ensures done { WasDoneBy (Command.Lock command) result session.old session.new }
        ensures had { millis ≡ None → is_blocked true result ≡ false }
    {
        let done = match millis {
            Some(millis) if has_names(&command) => self.lock_timed(session, &command, millis),
            _ => self.lock_untimed(session, &command),
        };
        locked(&command, done)
    }

    #[tactic(auto, using(crate::proofs::Answering::within_locked))]
    fn lock_timed(
        &self,
        session: &mut Session<B>,
        command: &LockCommand,
        millis: u64,
    ) -> Result<bool, Refusal>
        ensures { HasLocked command.now result session.old session.new }
    {
        self.engine
            .lock_within(self.rt, session, command, millis, self.gate)
    }

    /// LOCK without a timeout: it waits until it has its names, or is refused.
    pub(crate) fn lock_untimed(
        &self,
        session: &mut Session<B>,
        command: &LockCommand,
    ) -> Result<bool, Refusal>
        ensures locked { HasLocked command.now result session.old session.new }
        ensures had { IfOk result (λ had. had ≡ true) }
    {
        match self.engine.lock(self.rt, session, command, self.gate) {
            Ok(()) => Ok(true),
            Err(refusal) => Err(refusal),
        }
    }

    // TSTART. The outermost one is tried again where a horizon passed its start as it was taken.
    #[tactic(auto, using(crate::proofs::Stepped::inner_stepped, crate::proofs::Stepped::outer_stepped))]
    fn start(&self, session: &mut Session<B>) -> Result<u64, Refusal>
        ensures { WasDoneBy Command.Start (said Reply.AtLevel result) session.old session.new }
    {
        if session.tlevel() > 0 {
            return session.tstart_inner();
        }
        'tries: for _ in self.rt.forever() {
            if self.engine.tstart(session).is_ok() {
                return Ok(1);
            }
            self.gate.between_tries(session.job());
        }
        unreachable!()
    }

    #[tactic(auto, using(crate::proofs::Stepped::done_as, crate::proofs::Stepped::commit_stepped, crate::proofs::Stepped::lower_stepped, crate::proofs::Stepped::no_commit_stepped))]
    fn commit(&self, session: &mut Session<B>, turn: &mut Turn) -> Reply
        ensures done { WasDoneBy Command.Commit result session.old session.new }
        ensures other { is_blocked true result ≡ false }
    {
        match session.tlevel() {
            0 => Reply::Refused(Refusal::NoTransaction),
            1 => ended(self.engine.tcommit(self.rt, session, turn)),
            _ => Reply::AtLevel(session.tcommit_inner()),
        }
    }

    #[tactic(auto, using(crate::proofs::Stepped::done_as, crate::proofs::Stepped::rollback_stepped, crate::proofs::Stepped::no_rollback_stepped))]
    fn rollback(&self, session: &mut Session<B>) -> Reply
        ensures done { WasDoneBy Command.Rollback result session.old session.new }
        ensures other { is_blocked true result ≡ false }
    {
        if session.tlevel() == 0 {
            return Reply::Refused(Refusal::NoTransaction);
        }
        finished(self.engine.trollback(self.rt, session))
    }

    #[tactic(auto, using(crate::proofs::Stepped::done_as, crate::proofs::Stepped::restart_stepped, crate::proofs::Stepped::no_restart_stepped))]
    fn restart(&self, session: &mut Session<B>) -> Reply
        ensures done { WasDoneBy Command.Restart result session.old session.new }
        ensures other { is_blocked true result ≡ false }
    {
        if session.tlevel() == 0 {
            return Reply::Refused(Refusal::NoTransaction);
        }
        restarted(self.engine.trestart(self.rt, session))
    }
}

// Whether a LOCK has names.
fn has_names(command: &LockCommand) -> bool {
    match command {
        LockCommand::Release => false,
        LockCommand::Only(_) | LockCommand::More(_) | LockCommand::Fewer(_) => true,
    }
}

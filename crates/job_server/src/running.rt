//! A job as it is run, and one line of it.
ghost use Rattle.std.specs.Prelude.{◌≡◌, ◌≢◌, ◌<◌, ◌++◌, ◌∷◌, [], ℕ, None, true, false, length, vec_capacity, IfOk, IfSome, OnOk};
ghost use Rattle.command.specs.declared.request.Command.{Command};
ghost use Rattle.command.specs.declared.request.Reply.{Reply};
ghost use Rattle.job_scripts.specs.Lines.{IsReadFor};
ghost use Rattle.job_scripts.specs.Timeouts.{timeout_in};
ghost use Rattle.job_scripts.specs.Reports.{GoesOnFrom};
ghost use Rattle.shared_engine.specs.Blocks.{is_blocked};
ghost use Rattle.job_server.specs.Steps.{Past, past, sessions_so_far, IsBegunBehind, HasDoneSteps, IsNoStep, IsReplied};
ghost use Rattle.job_server.specs.Telling.{IsUnblocked, IsDoneAs, HasStopped, IsNoCommit, EndsNone, Advances, AdvancesWithin, not_begun};

use crate::ServerFault;
use crate::cursor::{Cursor, Line};
use crate::in_turn::are_before;
use crate::worker::{Worker, writes_of};
use collation::Job;
use command::{Command, Reply};
use job_scripts::{Replies, RepliesMark, timeout_of};
use refusal::Refusal;
use script::Drafts;
use shared_engine::{BoardName, Gate, Pass, Session};
use std::alloc::{AllocError, Global};
use std::marker::Model;
use std::sync::Wait;

/// A job's open session, and the passes of those that ended, which began when there were so many units or more.
#[derive(Drop)]
pub(crate) struct Sessions<B: BoardName> {
    pub(crate) open: Option<Session<B>>,
    pub(crate) passes: Vec<Pass<B>>,
    pub(crate) since: u64,
}

impl<B: BoardName> Model for Sessions<B> {
    ghost use Rattle.job_server.specs.Steps.{past, SessionsSoFar, sessions_so_far};
    ghost use Rattle.job_server.specs.Codes.{sessions_code};

    ghost Value = { SessionsSoFar };

    ghost coded = { sessions_code };

    ghost view = { λ s. sessions_so_far (past s.since s.passes.items) s.open };
}

impl<B: BoardName> Sessions<B> {
    // Room for the pass of a session that is to begin, so that its HALT takes no memory.
    fn make_room(&mut self) -> Result<(), AllocError>
        ensures { self.new ≡ self.old }
    {
        if self.open.is_none() {
            self.passes.reserve(1)?;
        }
        Ok(())
    }
}

/// A job as it is run: its sessions, and the replies so far.
#[derive(Drop)]
pub(crate) struct JobRun<B: BoardName> {
    pub(crate) sessions: Sessions<B>,
    pub(crate) replies: Replies,
    pub(crate) drafts: Drafts,
}

impl<B: BoardName> Model for JobRun<B> {
    ghost use Rattle.job_server.specs.Telling.{Running, running};
    ghost use Rattle.job_server.specs.Codes.{running_code};

    ghost Value = { Running };

    ghost coded = { running_code };

    ghost view = { λ r. running r.replies.replies r.sessions };
}

impl<B: BoardName> JobRun<B> {
    /// Before the first line, where there are so many units.
    pub(crate) fn new(alloc: Global, job: Job, since: u64) -> Result<JobRun<B>, AllocError>
        ensures { IfOk result (λ run. run ≡ not_begun since) }
    {
        let replies = Replies::new(alloc, Some(job))?;
        Ok(JobRun {
            sessions: Sessions {
                open: None,
                passes: Vec::new(alloc),
                since,
            },
            replies,
            drafts: Drafts::new(alloc),
        })
    }

    /// Whether a transaction is open.
    pub(crate) fn is_open(&self) -> bool {
        match &self.sessions.open {
            Some(session) => session.tlevel() > 0,
            None => false,
        }
    }

    /// How far the replies go now.
    pub(crate) fn mark(&self) -> RepliesMark
        ensures { result.replies ≡ self.now.replies }
    {
        self.replies.mark()
    }

    /// Goes back to the replies of the mark. Answers whether the mark is of replies to the same job: where it isn't they
    /// stay.
    pub(crate) fn back_to(&mut self, mark: RepliesMark) -> bool
        requires { GoesOnFrom mark.replies self.old.replies }
        ensures back { result ≡ true → self.new.replies ≡ mark.replies }
        ensures sessions { self.new.sessions ≡ self.old.sessions }
    {
        self.replies.back_to(mark)
    }
}

/// Takes a reply in. Refused as `Replies::push`.
pub(crate) fn note_reply(replies: &mut Replies, reply: Reply) -> Result<(), AllocError>
    ensures { OnOk result (replies.new.replies ≡ replies.old.replies ++ reply ∷ []) }
{
    let pushed = replies.push(&reply);
    drop(reply);
    pushed
}

// A LOCK's timeout; none of another command, of which no line has one.
fn millis_of(command: &Command, line: &[u8]) -> Option<u64>
    ensures { timeout_in line.now ≡ None → result ≡ None }
{
    match command {
        Command::Lock(_) => timeout_of(line),
        _ => None,
    }
}

fn is_halt(command: &Command) -> bool
    ensures halts { result ≡ true → command.now ≡ Command.Halt }
    ensures goes_on { result ≡ false → command.now ≢ Command.Halt }
{
    matches!(command, Command::Halt)
}

// Whether the HALT at the end was done.
fn is_finished(reply: Reply) -> bool
    ensures { result ≡ true → reply ≡ Reply.Finished }
{
    matches!(reply, Reply::Finished)
}

/// Whether a command that is replied so has begun its transaction anew.
pub(crate) fn is_restarted(reply: &Reply) -> bool
    ensures anew { result ≡ true → (restarts : ℕ) × (reply.now ≡ Reply.Restarted restarts) }
    ensures kept { result ≡ false → (restarts : ℕ) → reply.now ≢ Reply.Restarted restarts }
{
    matches!(reply, Reply::Restarted(_))
}

impl<'a, B: BoardName, R: Wait, G: Gate> Worker<'a, B, R, G> {
    /// Begins a session of the job, where it has none, once there is room for its pass.
    pub(crate) fn begin(&self, job: Job, sessions: &mut Sessions<B>) -> Result<(), ServerFault>
        ensures { OnOk result (HasDoneSteps IsNoStep job sessions.old sessions.new) }
    {
        match sessions.make_room() {
            Ok(()) => self.open(job, sessions.since, &sessions.passes, &mut sessions.open),
            Err(_) => Err(ServerFault::Memory),
        }
    }

    // A new session of the job, which begins behind these, where there are so many units or more.
    fn begin_behind(
        &self,
        job: Job,
        since: u64,
        passes: &Vec<Pass<B>>,
    ) -> Result<Session<B>, ServerFault>
        ensures { IfOk result (λ begun. IsBegunBehind job (past since passes.now.items) begun) }
    {
        let mut begun = match self.calls.engine.open(self.calls.rt, self.alloc, job) {
            Ok(begun) => begun,
            Err(_) => return Err(ServerFault::Memory),
        };
        let count = self.calls.engine.look(self.calls.rt, &mut begun);
        if count < since {
            drop(begun);
            return Err(ServerFault::Missing);
        }
        if !are_before(passes.as_slice(), count) {
            drop(begun);
            return Err(ServerFault::Missing);
        }
        Ok(begun)
    }

    // A session of the job, where it has none, behind those that it had, and with room for its pass.
    fn open(
        &self,
        job: Job,
        since: u64,
        passes: &Vec<Pass<B>>,
        session: &mut Option<Session<B>>,
    ) -> Result<(), ServerFault>
        ensures { OnOk result (HasDoneSteps IsNoStep job (sessions_so_far (past since passes.now.items) session.old) (sessions_so_far (past since passes.now.items) session.new)) }
    {
        if session.is_some() {
            return Ok(());
        }
        match self.begin_behind(job, since, passes) {
            Ok(begun) => {
                *session = Some(begun);
                Ok(())
            }
            Err(fault) => Err(fault),
        }
    }

    // HALT of the session that is there. Where it is refused, in a full journal, the session goes on. Room for its unit
    // and its pass was taken when the session began.
    fn halt(&self, sessions: &mut Sessions<B>) -> Result<Reply, ServerFault>
        ensures told { IfOk result (λ reply. (job : ℕ) → HasDoneSteps (IsReplied Command.Halt reply) job sessions.old sessions.new) }
        ensures other { IfOk result (λ reply. is_blocked true reply ≡ false) }
        ensures over { IfOk result (λ reply. reply ≡ Reply.Finished → sessions.new.session ≡ None) }
    {
        sessions.passes.reserve(1)?;
        self.halt_reserved(&mut sessions.open, &mut sessions.passes)
    }

    /// The HALT at the end of a job's lines, where a session is there.
    pub(crate) fn stop(&self, sessions: &mut Sessions<B>) -> Result<(), ServerFault>
        ensures { OnOk result ((job : ℕ) → HasStopped job sessions.old sessions.new) }
    {
        if sessions.open.is_none() {
            return Ok(());
        }
        let reply = self.halt(sessions)?;
        if is_finished(reply) {
            return Ok(());
        }
        Err(ServerFault::Memory)
    }

    // The same, with room for the pass.
    fn halt_reserved(
        &self,
        session: &mut Option<Session<B>>,
        passes: &mut Vec<Pass<B>>,
    ) -> Result<Reply, ServerFault>
        requires { length passes.old.items < vec_capacity passes.old }
        ensures told { IfOk result (λ reply. (job since : ℕ) → HasDoneSteps (IsReplied Command.Halt reply) job (sessions_so_far (past since passes.old.items) session.old) (sessions_so_far (past since passes.new.items) session.new)) }
        ensures other { IfOk result (λ reply. is_blocked true reply ≡ false) }
        ensures over { IfOk result (λ reply. reply ≡ Reply.Finished → session.new ≡ None) }
    {
        let Some(begun) = session.take() else {
            return Err(ServerFault::Missing);
        };
        match self.calls.engine.halt(self.calls.rt, begun) {
            Ok(pass) => {
                passes.push_reserved(pass);
                Ok(Reply::Finished)
            }
            Err((begun, refusal)) => {
                *session = Some(begun);
                Ok(Reply::Refused(refusal))
            }
        }
    }

    // The reply to a command of a session that is there, but for HALT.
    fn reply_in(
        &mut self,
        session: &mut Option<Session<B>>,
        command: Command,
        line: &[u8],
    ) -> Result<Reply, ServerFault>
        requires { command ≢ Command.Halt }
        ensures told { IfOk result (λ reply. (job : ℕ) (p : Past) → HasDoneSteps (IsReplied command reply) job (sessions_so_far p session.old) (sessions_so_far p session.new)) }
        ensures had { IfOk result (λ reply. IsUnblocked line.now reply) }
    {
        match session {
            Some(session) => {
                let millis = millis_of(&command, line);
                let turn = &mut self.turns.next;
                Ok(self.calls.reply_to(session, command, millis, turn))
            }
            None => {
                drop(command);
                Err(ServerFault::Missing)
            }
        }
    }

    // The reply to a command, where a session is there.
    fn reply_opened(
        &mut self,
        sessions: &mut Sessions<B>,
        command: Command,
        line: &[u8],
    ) -> Result<Reply, ServerFault>
        ensures told { IfOk result (λ reply. (job : ℕ) → HasDoneSteps (IsReplied command reply) job sessions.old sessions.new) }
        ensures had { IfOk result (λ reply. IsUnblocked line.now reply) }
    {
        if is_halt(&command) {
            drop(command);
            return self.halt(sessions);
        }
        self.reply_in(&mut sessions.open, command, line)
    }

    // The reply to a command.
    fn reply_to(
        &mut self,
        sessions: &mut Sessions<B>,
        job: Job,
        command: Command,
        line: &[u8],
    ) -> Result<Reply, ServerFault>
        ensures told { IfOk result (λ reply. HasDoneSteps (IsReplied command reply) job sessions.old sessions.new) }
        ensures had { IfOk result (λ reply. IsUnblocked line.now reply) }
    {
        match self.begin(job, sessions) {
            Ok(()) => self.reply_opened(sessions, command, line),
            Err(fault) => {
                drop(command);
                Err(fault)
            }
        }
    }

    // The reply to a line.
    fn reply_asked(
        &mut self,
        sessions: &mut Sessions<B>,
        job: Job,
        line: &[u8],
        asked: Result<Command, Refusal>,
    ) -> Result<Reply, ServerFault>
        ensures { IfOk result (λ reply. HasDoneSteps (IsDoneAs line.now asked reply) job sessions.old sessions.new) }
    {
        match asked {
            Ok(command) => self.reply_to(sessions, job, command, line),
            Err(refusal) => Ok(Reply::Refused(refusal)),
        }
    }

    /// Does a line, in the sight of the gate.
    pub(crate) fn do_line<'b>(
        &mut self,
        sessions: &mut Sessions<B>,
        job: Job,
        line: Line<'b>,
        asked: Result<Command, Refusal>,
    ) -> Result<Reply, ServerFault>
        ensures { IfOk result (λ reply. HasDoneSteps (IsDoneAs line.entry.text.now asked reply) job sessions.old sessions.new) }
    {
        self.turns.note_writes(writes_of(&asked));
        self.calls.gate.before(job, line.number);
        match self.reply_asked(sessions, job, line.text, asked) {
            Ok(reply) => {
                self.calls.gate.after(job, line.number);
                if self.calls.gate.watches_lines() {
                    self.take_turn();
                }
                Ok(reply)
            }
            Err(fault) => Err(fault),
        }
    }

    /// Does a line that is no TCOMMIT, and takes its reply in. Answers the place behind the line.
    #[tactic(auto, using(crate::proofs::GoingOn::passed, crate::proofs::GoingOn::passed_within))]
    pub(crate) fn pass_line<'b>(
        &mut self,
        run: &mut JobRun<B>,
        job: Job,
        line: Line<'b>,
        asked: Result<Command, Refusal>,
    ) -> Result<Cursor<'b>, ServerFault>
        requires asks { IsReadFor job line.text.now asked }
        requires other { IsNoCommit asked }
        ensures served { IfOk result (λ behind. Advances job line.entry behind run.old run.new) }
        ensures within { EndsNone asked → IfOk result (λ behind. AdvancesWithin job line.entry behind run.old run.new) }
    {
        let reply = self.do_line(&mut run.sessions, job, line, asked)?;
        note_reply(&mut run.replies, reply)?;
        Ok(line.next)
    }
}

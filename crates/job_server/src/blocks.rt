//! Blocks: a TSTART, and the lines behind it as often as they are overtaken.
ghost use Rattle.std.specs.Prelude.{◌≡◌, ◌≢◌, ◌⊎◌, true, false, IfOk, IfSome, IfNone, OnOk};
ghost use Rattle.command.specs.declared.request.Command.{Command};
ghost use Rattle.command.specs.declared.request.Reply.{Reply};
ghost use Rattle.job_scripts.specs.Lines.{Asks};
ghost use Rattle.job_scripts.specs.Reports.{GoesOnFrom};
ghost use Rattle.shared_engine.specs.Engines.{OnOkThat, OnOkNot};
ghost use Rattle.job_server.specs.Holding.{IsAskedAt};
ghost use Rattle.job_server.specs.Telling.{Advances, Begins, BeginsNone, Reaches, HasTried, IsBack, IsBackAt};

use crate::ServerFault;
use crate::cursor::{Cursor, Line};
use crate::gathering::Asked;
use crate::running::{JobRun, is_restarted, note_reply};
use crate::worker::Worker;
use collation::Job;
use command::{Command, Reply};
use shared_engine::{BoardName, Gate};
use std::sync::Wait;

// How often a block is begun anew before it is done alone, with nobody between its lines.
const MOST_RESTARTS: usize = 3;

/// What came of a line of a block that was tried, and perhaps of some behind it.
pub(crate) enum Tried<'b> {
    /// The transaction goes on behind them, at this place.
    Within(Cursor<'b>),
    /// They were done up to this place, and the transaction is over.
    Over(Cursor<'b>),
    /// The transaction was overtaken, and has begun anew.
    Back,
}

// Whether a command that is replied so has begun a transaction.
fn is_begun(reply: &Reply) -> bool
    ensures begun { result ≡ true → reply.now ≡ Reply.AtLevel 1 }
    ensures not { result ≡ false → reply.now ≢ Reply.AtLevel 1 }
{
    matches!(reply, Reply::AtLevel(1))
}

// Whether a TCOMMIT or TROLLBACK that is replied so has ended its transaction.
fn is_over(reply: &Reply) -> bool
    ensures goes_on { result ≡ false → (reply.now ≢ Reply.Committed) × (reply.now ≢ Reply.Finished) }
    ensures over { result ≡ true → (reply.now ≡ Reply.Committed) ⊎ (reply.now ≡ Reply.Finished) }
{
    matches!(reply, Reply::Committed | Reply::Finished)
}

// Whether a line asks for HALT, before which a block ends.
fn is_halt(asked: &Asked<'_>) -> bool {
    matches!(asked, Asked::One(Ok(Command::Halt)))
}

impl<'a, B: BoardName, R: Wait, G: Gate> Worker<'a, B, R, G> {
    // Does a TSTART. Answers whether it has begun a transaction.
    fn begin_block<'b>(
        &mut self,
        run: &mut JobRun<B>,
        job: Job,
        line: Line<'b>,
    ) -> Result<bool, ServerFault>
        requires { Asks job line.text.now Command.Start }
        ensures passed { OnOk result (Advances job line.entry line.entry.next run.old run.new) }
        ensures begun { OnOkThat result (Begins job line.entry run.old run.new) }
        ensures unbegun { OnOkNot result (BeginsNone run.old run.new) }
    {
        let reply = self.do_line(&mut run.sessions, job, line, Ok(Command::Start))?;
        let begun = is_begun(&reply);
        note_reply(&mut run.replies, reply)?;
        Ok(begun)
    }

    /// Does a command that may end its transaction.
    pub(crate) fn try_end<'b>(
        &mut self,
        run: &mut JobRun<B>,
        job: Job,
        line: Line<'b>,
        command: Command,
    ) -> Result<Tried<'b>, ServerFault>
        requires { Asks job line.text.now command }
        ensures { IfOk result (λ ended. HasTried job line.entry ended run.old run.new) }
    {
        let reply = self.do_line(&mut run.sessions, job, line, Ok(command))?;
        if is_restarted(&reply) {
            drop(reply);
            return Ok(Tried::Back);
        }
        let over = is_over(&reply);
        note_reply(&mut run.replies, reply)?;
        if over {
            return Ok(Tried::Over(line.next));
        }
        Ok(Tried::Within(line.next))
    }

    // Does a command of a block's line.
    fn try_command<'b>(
        &mut self,
        run: &mut JobRun<B>,
        job: Job,
        line: Line<'b>,
        command: Command,
    ) -> Result<Tried<'b>, ServerFault>
        requires { Asks job line.text.now command }
        ensures { IfOk result (λ ended. HasTried job line.entry ended run.old run.new) }
    {
        match command {
            Command::Commit => self.try_end(run, job, line, Command::Commit),
            Command::Rollback => self.try_end(run, job, line, Command::Rollback),
            Command::Halt => self.try_end(run, job, line, Command::Halt),
            command => {
                let behind = self.pass_line(run, job, line, Ok(command))?;
                Ok(Tried::Within(behind))
            }
        }
    }

    // Does a line of a block, or those in the hold.
    fn try_line<'b>(
        &mut self,
        run: &mut JobRun<B>,
        job: Job,
        line: Line<'b>,
        asked: Asked<'b>,
    ) -> Result<Tried<'b>, ServerFault>
        requires { IsAskedAt job line asked self.old.hold }
        ensures { IfOk result (λ ended. HasTried job line.entry ended run.old run.new) }
    {
        match asked {
            Asked::Many(front) => {
                let behind = self.serve_hold(run, job, line, front)?;
                Ok(Tried::Within(behind))
            }
            Asked::One(Ok(command)) => self.try_command(run, job, line, command),
            Asked::One(Err(refusal)) => {
                let behind = self.pass_line(run, job, line, Err(refusal))?;
                Ok(Tried::Within(behind))
            }
        }
    }

    // Tries the lines of a block behind its TSTART. Answers the place behind it, or none where its TCOMMIT found that
    // the transaction was overtaken, and has begun it anew.
    #[tactic(auto, using(crate::proofs::GoingOn::within_none, crate::proofs::GoingOn::tried_replies))]
    fn try_block<'b>(
        &mut self,
        run: &mut JobRun<B>,
        job: Job,
        begin: Cursor<'b>,
    ) -> Result<Option<Cursor<'b>>, ServerFault>
        ensures over { IfOk result (λ ended. IfSome ended (λ behind. Reaches job begin.entry.lines.now behind run.old run.new)) }
        ensures again { IfOk result (λ ended. IfNone ended (IsBack job begin.entry.lines.now run.old run.new)) }
        ensures replies { IfOk result (λ ended. IfNone ended (GoesOnFrom run.old.replies run.new.replies)) }
    {
        let mut place = begin;
        'lines: while let Some(line) = place.next() {
            self.check_stop()?;
            let asked = self.read(run, job, line)?;
            if is_halt(&asked) {
                drop(asked);
                return Ok(Some(place));
            }
            match self.try_line(run, job, line, asked)? {
                Tried::Within(behind) => place = behind,
                Tried::Over(behind) => return Ok(Some(behind)),
                Tried::Back => return Ok(None),
            }
        }
        Ok(Some(place))
    }

    // The same, where no reply is kept of lines that were overtaken.
    fn try_once<'b>(
        &mut self,
        run: &mut JobRun<B>,
        job: Job,
        begin: Cursor<'b>,
    ) -> Result<Option<Cursor<'b>>, ServerFault>
        ensures over { IfOk result (λ ended. IfSome ended (λ behind. Reaches job begin.entry.lines.now behind run.old run.new)) }
        ensures again { IfOk result (λ ended. IfNone ended (IsBackAt job begin.entry.lines.now run.old run.new)) }
    {
        let mark = run.mark();
        match self.try_block(run, job, begin)? {
            Some(behind) => Ok(Some(behind)),
            None => {
                if run.back_to(mark) {
                    return Ok(None);
                }
                Err(ServerFault::Missing)
            }
        }
    }

    /// Does a block. Answers the place behind it.
    pub(crate) fn serve_block<'b>(
        &mut self,
        run: &mut JobRun<B>,
        job: Job,
        line: Line<'b>,
    ) -> Result<Cursor<'b>, ServerFault>
        requires { Asks job line.text.now Command.Start }
        ensures { IfOk result (λ behind. Advances job line.entry behind run.old run.new) }
    {
        if !self.begin_block(run, job, line)? {
            return Ok(line.next);
        }
        'tries: for _ in 0..MOST_RESTARTS {
            if let Some(place) = self.try_once(run, job, line.next)? {
                return Ok(place);
            }
        }
        'alone: for _ in self.calls.rt.forever() {
            self.check_stop()?;
            if let Some(place) = self.try_serially(run, job, line.next)? {
                return Ok(place);
            }
        }
        unreachable!()
    }
}

//! The lines of one job, and of one job after the other.
ghost use Rattle.std.specs.Prelude.{◌≡◌, ◌∷◌, ℕ, List, [], None, Some, slice_get, IfOk, OnOk};
ghost use Rattle.command.specs.declared.request.Command.{Command};
ghost use Rattle.command.specs.declared.request.Reply.{Reply};
ghost use Rattle.job_scripts.specs.Lines.{lent_lines, Asks, IsRefusedAs};
ghost use Rattle.std.proofs.Props.{props};
ghost use Rattle.job_scripts.specs.Groups.{shown};
ghost use Rattle.job_server.specs.Served.{IsReport, HasRunAs, IsReportAt};
ghost use Rattle.job_server.specs.Steps.{HasRunScript};
ghost use Rattle.script.specs.Line.{IsReading};
ghost use Rattle.job_server.specs.Telling.{Refuses, Serves, Advances, not_begun};

use crate::ServerFault;
use crate::blocks::Tried;
use crate::cursor::{Cursor, Line};
use crate::gathering::Asked;
use crate::job_run::Calls;
use crate::running::{JobRun, Sessions};
use crate::turns::Turns;
use collation::Job;
use command::{Command, DataCommand, Reply};
use crossbeam_channel::{Receiver, Sender};
use job_scripts::{Replies, Report, Script};
use refusal::Refusal;
use script::{Drafts, LineFault, read_line};
use shared_engine::{BoardName, Gate, Hold, Pass, Stop, Turn};
use std::alloc::{AllocError, Global};
use std::marker::{Brand, PhantomData};
use std::sync::Wait;

/// Which scripts are served. Each call of `serve` picks its own.
pub(crate) trait Batch {
    ghost use Rattle.std.specs.Prelude.{List};
    ghost use Rattle.job_scripts.specs.Groups.{Group};

    ghost scripts: { List Group };
}

impl Batch for Brand {
    ghost use Rattle.std.specs.Prelude.{[]};

    ghost scripts = { [] };
}

/// A job that waits to be run: the script at a place among the others.
#[derive(Drop)]
pub(crate) struct Task<'t, B: Batch> {
    pub(crate) place: usize,
    pub(crate) script: Script<'t>,
    pub(crate) of: PhantomData<B>,
    pub(crate) ghost from: { slice_get B.scripts place ≡ Some (shown script) },
}

/// A job that was run to its end, with the passes of its sessions.
#[derive(Drop)]
pub(crate) struct Ran<B: BoardName> {
    pub(crate) report: Report,
    pub(crate) passes: Vec<Pass<B>>,
}

/// What came of a task, by its place: a report of its script, which shows the steps of the sessions that had these
/// passes, and began when there were so many units or more.
#[derive(Drop)]
pub(crate) struct Done<B: BoardName + Batch> {
    pub(crate) place: usize,
    pub(crate) since: u64,
    pub(crate) outcome: Result<Ran<B>, ServerFault>,
    pub(crate) ghost told: { IfOk outcome (λ ran. ∥ IsReportAt B.scripts place since ran.report ran.passes.items ∥₁) } by { Prim.hlevel props },
}

// The fault of a report that isn't whole.
fn missing<B: BoardName>(replies: Replies, passes: Vec<Pass<B>>) -> ServerFault {
    drop(replies);
    drop(passes);
    ServerFault::Missing
}

// What a script's replies and passes make, where they are its job's, and there is a reply for each line.
fn ran_of<B: BoardName>(
    script: &Script<'_>,
    replies: Replies,
    passes: Vec<Pass<B>>,
) -> Result<Ran<B>, ServerFault>
    ensures report { IfOk result (λ ran. IsReport (shown script.now) ran.report) }
    ensures run { IfOk result (λ ran. (since : ℕ) → HasRunScript since script.now.job (lent_lines script.now.lines.items) replies.replies passes.items → HasRunAs since (shown script.now) ran.report ran.passes.items) }
{
    if replies.job() != script.job || replies.count() != script.lines.len() {
        return Err(missing(replies, passes));
    }
    Ok(Ran {
        report: Report::new(replies),
        passes,
    })
}

// What a job that was run makes.
fn ran_to_end<B: BoardName>(script: &Script<'_>, run: JobRun<B>) -> Result<Ran<B>, ServerFault>
    ensures report { IfOk result (λ ran. IsReport (shown script.now) ran.report) }
    ensures run { IfOk result (λ ran. (since : ℕ) → HasRunScript since script.now.job (lent_lines script.now.lines.items) run.replies run.sessions.past.books → HasRunAs since (shown script.now) ran.report ran.passes.items) }
{
    let JobRun {
        sessions,
        replies,
        drafts,
    } = run;
    let Sessions {
        open,
        passes,
        since: _,
    } = sessions;
    drop(open);
    drop(drafts);
    ran_of(script, replies, passes)
}

// The refusal of a line in a script without a job: its own, or `BadJob` where it can be read.
#[tactic(auto, using(crate::proofs::Refusing::none_read))]
fn refusal_of(read: Result<(Job, Command), LineFault>) -> Refusal
    ensures { (line : List ℕ) → IsReading line read → IsRefusedAs 0 line result }
{
    match read {
        Ok((_, command)) => {
            drop(command);
            Refusal::BadJob
        }
        Err(fault) => fault.refusal,
    }
}

// Refuses a line.
fn refuse_line(
    alloc: Global,
    line: &[u8],
    drafts: &mut Drafts,
    replies: &mut Replies,
) -> Result<(), AllocError>
    ensures { OnOk result ((rest : List (List ℕ)) → Refuses (line.now ∷ rest) rest replies.old.replies replies.new.replies) }
{
    let refusal = refusal_of(read_line(alloc, line, drafts));
    replies.push_refused(refusal)
}

// Refuses each line.
#[tactic(auto, using(crate::proofs::Refusing::refuses_none, crate::proofs::Refusing::refuses_then))]
fn refuse_lines(
    alloc: Global,
    lines: &[&[u8]],
    drafts: &mut Drafts,
    replies: &mut Replies,
) -> Result<(), AllocError>
    ensures { OnOk result (Refuses (lent_lines lines.now) [] replies.old.replies replies.new.replies) }
{
    let mut place = Cursor::new(lines);
    'lines: while let Some(line) = place.next() {
        refuse_line(alloc, line.text, drafts, replies)?;
        place = line.next;
    }
    Ok(())
}

// Whether a command writes: SET, a kill, MERGE or $INCREMENT.
fn writes(command: &Command) -> bool {
    matches!(
        command,
        Command::Access(
            DataCommand::Set(..)
                | DataCommand::Kill(..)
                | DataCommand::Merge(..)
                | DataCommand::Increment(..)
        )
    )
}

/// How many of these commands write.
pub(crate) fn writes_in(commands: &[Command]) -> u64 {
    commands.iter().filter(|command| writes(command)).count() as u64
}

/// The same of what a line asks for.
pub(crate) fn writes_of(asked: &Result<Command, Refusal>) -> u64 {
    match asked {
        Ok(command) => u64::from(writes(command)),
        Err(_) => 0,
    }
}

// The fault of a run whose jobs were stopped.
fn fault_of_stop(stop: Stop) -> ServerFault {
    match stop {
        Stop::Failed => ServerFault::Memory,
        Stop::AllWait => ServerFault::AllWait,
    }
}

/// A worker: the engine's calls, and its turns of the collector.
pub(crate) struct Worker<'a, B: BoardName, R, G> {
    pub(crate) alloc: Global,
    pub(crate) calls: Calls<'a, B, R, G>,
    pub(crate) turns: Turns,
    /// The lines that are done next, and what they were told.
    pub(crate) hold: Hold,
}

impl<'a, B: BoardName, R, G> Drop for Worker<'a, B, R, G> {
    fn drop(self) {
        let Worker {
            alloc: _,
            calls: _,
            turns: _,
            hold,
        } = self;
        drop(hold);
    }
}

impl<'a, B: BoardName, R: Wait, G: Gate> Worker<'a, B, R, G> {
    /// Takes a turn that is due in a hold of its own. Where lines are watched none of them shares a hold.
    pub(crate) fn take_turn(&mut self) {
        if let Turn::Due(keys) = self.turns.next
            && let Ok(progress) = self.calls.engine.collect(self.calls.rt, keys)
        {
            self.turns.next = Turn::Taken(progress);
        }
    }

    // Does a TSTART, and its block where it is an outermost one.
    fn serve_start<'b>(
        &mut self,
        run: &mut JobRun<B>,
        job: Job,
        line: Line<'b>,
    ) -> Result<Cursor<'b>, ServerFault>
        requires { Asks job line.text.now Command.Start }
        ensures { IfOk result (λ behind. Advances job line.entry behind run.old run.new) }
    {
        if run.is_open() {
            return self.pass_line(run, job, line, Ok(Command::Start));
        }
        self.serve_block(run, job, line)
    }

    // Does a TCOMMIT outside a block: of no transaction, or of one that stayed open behind its block, since a HALT or
    // the end of the block was refused. Where that was overtaken its lines can't be done again.
    fn serve_commit<'b>(
        &mut self,
        run: &mut JobRun<B>,
        job: Job,
        line: Line<'b>,
    ) -> Result<Cursor<'b>, ServerFault>
        requires { Asks job line.text.now Command.Commit }
        ensures { IfOk result (λ behind. Advances job line.entry behind run.old run.new) }
    {
        match self.try_end(run, job, line, Command::Commit)? {
            Tried::Within(behind) => Ok(behind),
            Tried::Over(behind) => Ok(behind),
            Tried::Back => Err(ServerFault::Memory),
        }
    }

    // Does a command of a line, and perhaps those behind it.
    fn serve_command<'b>(
        &mut self,
        run: &mut JobRun<B>,
        job: Job,
        line: Line<'b>,
        command: Command,
    ) -> Result<Cursor<'b>, ServerFault>
        requires { Asks job line.text.now command }
        ensures { IfOk result (λ behind. Advances job line.entry behind run.old run.new) }
    {
        match command {
            Command::Start => self.serve_start(run, job, line),
            Command::Commit => self.serve_commit(run, job, line),
            command => self.pass_line(run, job, line, Ok(command)),
        }
    }

    // Does a line, and perhaps those behind it. Answers the place behind them.
    fn serve_line<'b>(
        &mut self,
        run: &mut JobRun<B>,
        job: Job,
        line: Line<'b>,
    ) -> Result<Cursor<'b>, ServerFault>
        ensures { IfOk result (λ behind. Advances job line.entry behind run.old run.new) }
    {
        match self.read(run, job, line)? {
            Asked::Many(front) => self.serve_hold(run, job, line, front),
            Asked::One(Ok(command)) => self.serve_command(run, job, line, command),
            Asked::One(Err(refusal)) => self.pass_line(run, job, line, Err(refusal)),
        }
    }

    /// The fault with which jobs end, where the gate stops them.
    pub(crate) fn check_stop(&self) -> Result<(), ServerFault> {
        match self.calls.gate.stop() {
            Some(stop) => Err(fault_of_stop(stop)),
            None => Ok(()),
        }
    }

    // Does a job's lines.
    #[tactic(auto, using(crate::proofs::GoingOn::reaches_none, crate::proofs::GoingOn::reaches_on, crate::proofs::GoingOn::reaches_end))]
    fn serve_lines(
        &mut self,
        run: &mut JobRun<B>,
        job: Job,
        lines: &[&[u8]],
    ) -> Result<(), ServerFault>
        ensures { OnOk result (Serves job (lent_lines lines.now) [] run.old run.new) }
    {
        let mut place = Cursor::new(lines);
        'lines: while let Some(line) = place.next() {
            self.check_stop()?;
            place = self.serve_line(run, job, line)?;
        }
        self.check_stop()?;
        Ok(())
    }

    // Does a job's lines, and ends its session.
    fn serve_all(
        &mut self,
        run: &mut JobRun<B>,
        job: Job,
        lines: &[&[u8]],
    ) -> Result<(), ServerFault>
        ensures { OnOk result ((since : ℕ) → run.old ≡ not_begun since → HasRunScript since (Some job) (lent_lines lines.now) run.new.replies run.new.sessions.past.books) }
    {
        self.serve_lines(run, job, lines)?;
        self.stop(&mut run.sessions)
    }

    // Runs the lines of a job, whose sessions begin when there are so many units or more.
    fn run_job(&mut self, job: Job, since: u64, script: &Script<'_>) -> Result<Ran<B>, ServerFault>
        requires { script.now.job ≡ Some job }
        ensures report { IfOk result (λ ran. IsReport (shown script.now) ran.report) }
        ensures run { IfOk result (λ ran. HasRunAs since (shown script.now) ran.report ran.passes.items) }
    {
        let mut run = JobRun::new(self.alloc, job, since)?;
        match self.serve_all(&mut run, job, &script.lines) {
            Ok(()) => ran_to_end(script, run),
            Err(fault) => {
                drop(run);
                Err(fault)
            }
        }
    }

    // The lines without a job: each is refused.
    #[tactic(auto, using(crate::proofs::Refusing::none_run))]
    fn run_none(&self, script: &Script<'_>) -> Result<Ran<B>, ServerFault>
        requires { script.now.job ≡ None }
        ensures report { IfOk result (λ ran. IsReport (shown script.now) ran.report) }
        ensures run { IfOk result (λ ran. (since : ℕ) → HasRunAs since (shown script.now) ran.report ran.passes.items) }
    {
        let mut drafts = Drafts::new(self.alloc);
        let mut replies = match Replies::new(self.alloc, None) {
            Ok(replies) => replies,
            Err(_) => {
                drop(drafts);
                return Err(ServerFault::Memory);
            }
        };
        let refused = refuse_lines(self.alloc, &script.lines, &mut drafts, &mut replies);
        drop(drafts);
        match refused {
            Ok(()) => ran_of(script, replies, Vec::new(self.alloc)),
            Err(_) => {
                drop(replies);
                Err(ServerFault::Memory)
            }
        }
    }

    // Runs a script to its end.
    fn run_script(&mut self, since: u64, script: &Script<'_>) -> Result<Ran<B>, ServerFault>
        ensures report { IfOk result (λ ran. IsReport (shown script.now) ran.report) }
        ensures run { IfOk result (λ ran. HasRunAs since (shown script.now) ran.report ran.passes.items) }
    {
        match script.job {
            Some(job) => self.run_job(job, since, script),
            None => self.run_none(script),
        }
    }
}

impl<'a, B: BoardName + Batch, R: Wait, G: Gate> Worker<'a, B, R, G> {
    // Runs a task.
    #[tactic(auto, using(crate::proofs::GoingOn::both_ok, crate::proofs::GoingOn::at_place))]
    fn run_task(&mut self, task: Task<'_, B>) -> Done<B> {
        let Task {
            place,
            script,
            of: _,
        } = task;
        self.calls.gate.job_begun();
        let since = self.calls.since;
        let outcome = self.run_script(since, &script);
        if outcome.is_err() {
            self.calls.gate.job_failed();
        }
        Done {
            place,
            since,
            outcome,
        }
    }

    /// Runs one job after the other, until none waits any more or nobody takes a report.
    pub(crate) fn work(
        &mut self,
        tasks: Receiver<Task<'_, B>, Global>,
        reports: Sender<Done<B>, Global>,
    ) {
        for _ in self.calls.rt.forever() {
            let Ok(task) = tasks.recv(self.calls.rt) else {
                return;
            };
            let done = self.run_task(task);
            if reports.send(self.calls.rt, done).is_err() {
                return;
            }
        }
    }
}

//! A line is done, and its reply gathered; or it waits.
ghost use Rattle.std.specs.Prelude.{◌≡◌, ℕ, List, [], ◌∷◌, Some, Ok, Err, true, false, IsSome, IfOk, MatchOption, OnOk, OnErr, Option};
ghost use Rattle.std.specs.FinMap as finmap;
ghost use Rattle.command.specs.declared.request.Command.TheVariants.{Lock};
ghost use Rattle.command.specs.declared.request.Reply.TheVariants.{Had};
ghost use Rattle.lock_name.specs.declared.lock.LockCommand.{LockCommand};
ghost use Rattle.journal.specs.History.{initial, IsLegal};
ghost use Rattle.serial.specs.Machine.{IsReply};
ghost use Rattle.script.specs.Asked.{IsAsked};
ghost use Rattle.script.specs.Line.{IsReading, job_of_line};
ghost use Rattle.job_scripts.specs.Timeouts.{timeout_in};
ghost use Rattle.live_server.specs.Runs.{Ran, Lacked, IsNew, AsksLock, IsLock, IsIdle, HasCome, HasTried, IsLostFairly};

use crate::Bell;
use crate::desks::{Desks, Waiting};
use collation::Job;
use command::{Command, Reply};
use job_core::JobCore;
use job_scripts::timeout_of;
use lock_name::LockCommand;
use refusal::Refusal;
use script::{DataSentence, LineFault, Sentence, finish_request, read_line, read_request};
use script_run::{
    RunLog, Script, Upkeep, answer_command, gather_asked, gather_reply, gather_unread,
};
use std::alloc::{AllocError, Global};

/// A live run.
//
// The script, the lines that wait, how many lines came, empty ones too, and whether names may have been freed since
// those that wait were last tried. The number of lines saturates.
#[derive(Drop)]
pub struct Live {
    pub(crate) script: Script,
    pub(crate) desks: Desks,
    pub(crate) lines: u64,
    pub(crate) freed: bool,
}

impl Live {
    /// A run that begins on what a core holds, in which no transaction is open. Refusals: `AllocError`; then the core
    /// is given up.
    pub fn new(alloc: Global, core: JobCore, upkeep: Upkeep) -> Result<Live, AllocError>
        requires legal { IsLegal core.machine.units initial }
        requires closed { core.machine.transactions ≡ finmap.empty }
        ensures new { IfOk result IsNew }
        ensures core { IfOk result (λ live. live.script.core ≡ core) }
    {
        match Desks::new(alloc) {
            Ok(desks) => match Script::new(alloc, core, upkeep) {
                Ok(script) => Ok(Live {
                    script,
                    desks,
                    lines: 0,
                    freed: false,
                }),
                Err(AllocError) => {
                    drop(desks);
                    Err(AllocError)
                }
            },
            Err(AllocError) => {
                drop(core);
                Err(AllocError)
            }
        }
    }

    /// What the run holds.
    pub fn core(&self) -> &JobCore
        ensures { result.now ≡ self.now.script.core }
    {
        &self.script.core
    }
}

// Whether a LOCK in this line waits for its names.
fn is_patient(line: &[u8]) -> bool
    ensures { result ≡ false → IsSome (timeout_in line.now) }
{
    timeout_of(line) != Some(0)
}

// The command may free names where fewer than these are held after it: always, if it is a LOCK that may take others.
fn names_before(core: &JobCore, command: &Command) -> usize {
    match command {
        Command::Lock(LockCommand::Only(_)) => usize::MAX,
        _ => core.locks().names_held(),
    }
}

/// Whether the command is a LOCK that wouldn't have its names now.
pub(crate) fn is_blocked(core: &JobCore, job: Job, command: &Command) -> bool
    ensures had { result ≡ false → IsReply job command.now (Had false) core.now.machine → ⊥ }
    ensures lock { result ≡ true → IsLock command.now }
{
    match command {
        Command::Lock(lock) => !core.locks().reply(job, lock),
        _ => false,
    }
}

// Gathers a refusal of a line, of whose job none waits.
fn gather_refusal(
    live: &mut Live,
    fault: LineFault,
    line: &[u8],
    log: &mut impl RunLog,
) -> Result<(), AllocError>
    requires fault { IsReading line.now (Err fault) }
    requires idle { IsIdle fault.job live.old.desks }
    ensures ran { OnOk result ((text : Option (List ℕ)) → Ran (line.now ∷ []) live.old live.new text text) }
    ensures err { OnErr result (Lacked (line.now ∷ []) live.old live.new) }
{
    gather_unread(&mut live.script, fault, line, log)?;
    Ok(())
}

// A LOCK for which there is no memory to wait.
fn gather_wanting(
    live: &mut Live,
    job: Job,
    line: &[u8],
    log: &mut impl RunLog,
) -> Result<(), AllocError>
    requires asks { AsksLock line.now job }
    requires idle { IsIdle (Some job) live.old.desks }
    ensures ran { OnOk result ((text : Option (List ℕ)) → Ran (line.now ∷ []) live.old live.new text text) }
    ensures err { OnErr result (Lacked (line.now ∷ []) live.old live.new) }
{
    let reply = Reply::Refused(Refusal::OutOfMemory);
    gather_reply(&mut live.script, Some(job), None, false, &reply, line, log)?;
    Ok(())
}

// Does a command, and gathers its reply.
fn gather_command(
    live: &mut Live,
    job: Job,
    command: Command,
    line: &[u8],
    log: &mut impl RunLog,
) -> Result<(), AllocError>
    requires asked { IsReading line.now (Ok (job, command)) }
    requires had { IsReply job command (Had false) live.old.script.core.machine → IsSome (timeout_in line.now) }
    requires idle { IsIdle (Some job) live.old.desks }
    ensures ran { OnOk result ((text : Option (List ℕ)) → Ran (line.now ∷ []) live.old live.new text text) }
    ensures err { OnErr result (Lacked (line.now ∷ []) live.old live.new) }
{
    let names = names_before(&live.script.core, &command);
    let (accepted, ended, reply) = answer_command(&mut live.script.core, job, command);
    live.freed |= live.script.core.locks().names_held() < names;
    gather_reply(
        &mut live.script,
        Some(job),
        accepted,
        ended,
        &reply,
        line,
        log,
    )?;
    Ok(())
}

// Whether the command is a LOCK that has to wait for its names.
fn must_wait(core: &JobCore, job: Job, command: &Command, line: &[u8]) -> bool
    ensures waits { result ≡ true → IsLock command.now }
    ensures told { result ≡ false → IsReply job command.now (Had false) core.now.machine → IsSome (timeout_in line.now) }
{
    if is_blocked(core, job, command) {
        is_patient(line)
    } else {
        false
    }
}

// A LOCK that isn't had at once, of a job of which no line waits: it is tried once and waits.
fn take_lock(
    alloc: Global,
    live: &mut Live,
    job: Job,
    line: &[u8],
    bell: &impl Bell,
    log: &mut impl RunLog,
) -> Result<(), AllocError>
    requires asks { AsksLock line.now job }
    requires idle { IsIdle (Some job) live.old.desks }
    ensures ran { OnOk result ((text : Option (List ℕ)) → Ran (line.now ∷ []) live.old live.new text text) }
    ensures err { OnErr result (Lacked (line.now ∷ []) live.old live.new) }
{
    match live.desks.push(alloc, job, line, live.lines) {
        Ok(()) => {
            do_first(alloc, live, job, bell, log)?;
            Ok(())
        }
        Err(AllocError) => gather_wanting(live, job, line, log),
    }
}

// A command of a job of which no line waits. A LOCK that has to wait is tried once.
fn take_command(
    alloc: Global,
    live: &mut Live,
    job: Job,
    command: Command,
    line: &[u8],
    bell: &impl Bell,
    log: &mut impl RunLog,
) -> Result<(), AllocError>
    requires asked { IsReading line.now (Ok (job, command)) }
    requires idle { IsIdle (Some job) live.old.desks }
    ensures ran { OnOk result ((text : Option (List ℕ)) → Ran (line.now ∷ []) live.old live.new text text) }
    ensures err { OnErr result (Lacked (line.now ∷ []) live.old live.new) }
{
    if !must_wait(&live.script.core, job, &command, line) {
        return gather_command(live, job, command, line, log);
    }
    drop(command);
    take_lock(alloc, live, job, line, bell, log)
}

// A line that is read as far as its sentence: it waits behind others of its job, or is done.
fn take_asked(
    alloc: Global,
    live: &mut Live,
    job: Job,
    sentence: Sentence,
    line: &[u8],
    bell: &impl Bell,
    log: &mut impl RunLog,
) -> Result<(), AllocError>
    requires asked { IsAsked line.now live.old.script.drafts job sentence }
    ensures ran { OnOk result ((text : Option (List ℕ)) → Ran (line.now ∷ []) live.old live.new text text) }
    ensures err { OnErr result (Lacked (line.now ∷ []) live.old live.new) }
{
    if live.desks.has_lines(job) {
        live.desks.push(alloc, job, line, live.lines)?;
        return Ok(());
    }
    match sentence {
        Sentence::Access(access) => take_data(alloc, live, job, access, line, log),
        sentence => take_other(alloc, live, job, sentence, line, bell, log),
    }
}

// So a data line, of whose job none waits.
fn take_data(
    alloc: Global,
    live: &mut Live,
    job: Job,
    access: DataSentence,
    line: &[u8],
    log: &mut impl RunLog,
) -> Result<(), AllocError>
    requires asked { IsAsked line.now live.old.script.drafts job (Sentence.Access access) }
    requires idle { IsIdle (Some job) live.old.desks }
    ensures ran { OnOk result ((text : Option (List ℕ)) → Ran (line.now ∷ []) live.old live.new text text) }
    ensures err { OnErr result (Lacked (line.now ∷ []) live.old live.new) }
{
    gather_asked(
        alloc,
        &mut live.script,
        job,
        Sentence::Access(access),
        line,
        log,
    )?;
    Ok(())
}

// So another.
fn take_other(
    alloc: Global,
    live: &mut Live,
    job: Job,
    sentence: Sentence,
    line: &[u8],
    bell: &impl Bell,
    log: &mut impl RunLog,
) -> Result<(), AllocError>
    requires asked { IsAsked line.now live.old.script.drafts job sentence }
    requires idle { IsIdle (Some job) live.old.desks }
    ensures ran { OnOk result ((text : Option (List ℕ)) → Ran (line.now ∷ []) live.old live.new text text) }
    ensures err { OnErr result (Lacked (line.now ∷ []) live.old live.new) }
{
    match finish_request(alloc, job, sentence, &mut live.script.drafts) {
        Ok(command) => take_command(alloc, live, job, command, line, bell, log),
        Err(fault) => gather_refusal(live, fault, line, log),
    }
}

// The job, if lines of it wait.
fn waiting_job(desks: &Desks, job: Option<Job>) -> Option<Job>
    ensures { MatchOption result (IsIdle job desks.now) (λ waiting. job ≡ Some waiting) }
{
    match job {
        Some(job) => {
            if desks.has_lines(job) {
                Some(job)
            } else {
                None
            }
        }
        None => None,
    }
}

// A line that can't be read.
fn take_unread(
    alloc: Global,
    live: &mut Live,
    fault: LineFault,
    line: &[u8],
    log: &mut impl RunLog,
) -> Result<(), AllocError>
    requires { IsReading line.now (Err fault) }
    ensures ran { OnOk result ((text : Option (List ℕ)) → Ran (line.now ∷ []) live.old live.new text text) }
    ensures err { OnErr result (Lacked (line.now ∷ []) live.old live.new) }
{
    match waiting_job(&live.desks, fault.job) {
        Some(job) => {
            live.desks.push(alloc, job, line, live.lines)?;
            Ok(())
        }
        None => gather_refusal(live, fault, line, log),
    }
}

/// A line that isn't empty comes: it waits behind others of its job, or is done and its reply gathered.
pub(crate) fn take_line(
    alloc: Global,
    live: &mut Live,
    line: &[u8],
    bell: &impl Bell,
    log: &mut impl RunLog,
) -> Result<(), AllocError>
    ensures ran { OnOk result ((text : Option (List ℕ)) → Ran (line.now ∷ []) live.old live.new text text) }
    ensures err { OnErr result (Lacked (line.now ∷ []) live.old live.new) }
{
    live.lines = live.lines.saturating_add(1);
    live.script.lines = live.lines;
    match read_request(alloc, line, &mut live.script.drafts) {
        Ok(asked) => take_asked(alloc, live, asked.0, asked.1, line, bell, log),
        Err(fault) => take_unread(alloc, live, fault, line, log),
    }
}

// When a LOCK in this line, which is tried now, is due.
fn due_of(line: &[u8], now: u64) -> Option<u64> {
    let millis = timeout_of(line)?;
    Some(now.saturating_add(millis))
}

// Whether the reply says that the names weren't had, to a LOCK in this line that waits for them.
fn is_kept_off(reply: &Reply, line: &[u8]) -> bool
    ensures kept { result ≡ true → reply.now ≡ Had false }
    ensures told { result ≡ false → reply.now ≡ Had false → IsSome (timeout_in line.now) }
{
    match reply {
        Reply::Had(false) => is_patient(line),
        _ => false,
    }
}

// The command of the job's first line is done, and the reply gathered, or it is a LOCK that is kept off.
fn do_command(
    script: &mut Script,
    job: Job,
    command: Command,
    line: &[u8],
    log: &mut impl RunLog,
) -> Result<bool, AllocError>
    requires asked { IsReading line.now (Ok (job, command)) }
    ensures done { IfOk result (λ is_done. HasCome is_done line.now script.old.core.machine script.old.out.items script.old.outcome script.old.jobs script.new) }
    ensures err { OnErr result (IsLostFairly line.now script.old.core.machine script.old.out.items script.new) }
{
    let (accepted, ended, reply) = answer_command(&mut script.core, job, command);
    if is_kept_off(&reply, line) {
        script.jobs.note_line(&accepted, ended);
        return Ok(false);
    }
    gather_reply(script, Some(job), accepted, ended, &reply, line, log)?;
    Ok(true)
}

// A refusal of the job's first line is gathered.
fn do_refusal(
    script: &mut Script,
    fault: LineFault,
    line: &[u8],
    log: &mut impl RunLog,
) -> Result<bool, AllocError>
    requires fault { IsReading line.now (Err fault) }
    ensures done { IfOk result (λ is_done. HasCome is_done line.now script.old.core.machine script.old.out.items script.old.outcome script.old.jobs script.new) }
    ensures err { OnErr result (IsLostFairly line.now script.old.core.machine script.old.out.items script.new) }
{
    gather_unread(script, fault, line, log)?;
    Ok(true)
}

// The job's first line is done, and its reply gathered, or it is a LOCK that is kept off.
fn do_line(
    alloc: Global,
    script: &mut Script,
    freed: &mut bool,
    line: &[u8],
    log: &mut impl RunLog,
) -> Result<bool, AllocError>
    ensures done { IfOk result (λ is_done. HasCome is_done line.now script.old.core.machine script.old.out.items script.old.outcome script.old.jobs script.new) }
    ensures err { OnErr result (IsLostFairly line.now script.old.core.machine script.old.out.items script.new) }
{
    match read_line(alloc, line, &mut script.drafts) {
        Ok((job, command)) => {
            let names = names_before(&script.core, &command);
            let is_done = do_command(script, job, command, line, log);
            *freed |= script.core.locks().names_held() < names;
            is_done
        }
        Err(fault) => do_refusal(script, fault, line, log),
    }
}

/// The first of the job's lines that wait is done and its reply gathered, or it is a LOCK that is tried and waits.
/// Answers whether it was done; where none waits it wasn't.
pub(crate) fn do_first(
    alloc: Global,
    live: &mut Live,
    job: Job,
    bell: &impl Bell,
    log: &mut impl RunLog,
) -> Result<bool, AllocError>
    ensures ran { OnOk result ((text : Option (List ℕ)) → Ran [] live.old live.new text text) }
    ensures err { OnErr result (Lacked [] live.old live.new) }
{
    let Some(line) = live.desks.untried(job) else {
        return Ok(false);
    };
    live.script.lines = line.number();
    let text = line.text();
    let is_done = do_line(alloc, &mut live.script, &mut live.freed, text, log)?;
    if is_done {
        live.desks.pass(job);
        return Ok(true);
    }
    let now = bell.now();
    let until = due_of(text, now);
    live.desks.wait(job, now, until)?;
    Ok(false)
}

// Whether the time of a LOCK in this line, which has one, is over.
fn is_over(line: &[u8], until: Option<u64>, bell: &impl Bell) -> bool
    ensures { result ≡ true → IsSome (timeout_in line.now) }
{
    match until {
        Some(until) => until <= bell.now() && timeout_of(line).is_some(),
        None => false,
    }
}

// Whether a LOCK that waited, of which this is known, waits on.
fn still_waits(core: &JobCore, job: Job, command: &Command, is_due: bool) -> bool
    ensures { result ≡ false → IsReply job command.now (Had false) core.now.machine → is_due ≡ true }
{
    if is_due {
        false
    } else {
        is_blocked(core, job, command)
    }
}

// A command that waited is done, and its reply gathered, if it isn't blocked, or its time is over.
fn try_command(
    script: &mut Script,
    job: Job,
    command: Command,
    line: &[u8],
    is_due: bool,
    log: &mut impl RunLog,
) -> Result<bool, AllocError>
    requires asked { IsReading line.now (Ok (job, command)) }
    requires due { is_due ≡ true → IsSome (timeout_in line.now) }
    ensures done { IfOk result (λ is_done. HasTried is_done line.now script.old.core.machine script.old.out.items script.old.outcome script.old.jobs script.new) }
    ensures err { OnErr result (IsLostFairly line.now script.old.core.machine script.old.out.items script.new) }
{
    if still_waits(&script.core, job, &command, is_due) {
        drop(command);
        return Ok(false);
    }
    let (accepted, ended, reply) = answer_command(&mut script.core, job, command);
    gather_reply(script, Some(job), accepted, ended, &reply, line, log)?;
    Ok(true)
}

// So the line of a LOCK that waited.
fn try_line(
    alloc: Global,
    script: &mut Script,
    line: &[u8],
    is_due: bool,
    log: &mut impl RunLog,
) -> Result<bool, AllocError>
    requires due { is_due ≡ true → IsSome (timeout_in line.now) }
    ensures done { IfOk result (λ is_done. HasTried is_done line.now script.old.core.machine script.old.out.items script.old.outcome script.old.jobs script.new) }
    ensures err { OnErr result (IsLostFairly line.now script.old.core.machine script.old.out.items script.new) }
{
    match read_line(alloc, line, &mut script.drafts) {
        Ok((job, command)) => try_command(script, job, command, line, is_due, log),
        Err(fault) => {
            gather_unread(script, fault, line, log)?;
            Ok(true)
        }
    }
}

/// A LOCK that waits is done if it would have its names, or its time is over. Answers whether it was; also where none
/// of the job's lines waits.
pub(crate) fn try_again(
    alloc: Global,
    live: &mut Live,
    waiting: &Waiting,
    bell: &impl Bell,
    log: &mut impl RunLog,
) -> Result<bool, AllocError>
    ensures ran { OnOk result ((text : Option (List ℕ)) → Ran [] live.old live.new text text) }
    ensures err { OnErr result (Lacked [] live.old live.new) }
{
    let Some(line) = live.desks.first(waiting.job) else {
        return Ok(true);
    };
    live.script.lines = line.number();
    let text = line.text();
    let is_due = is_over(text, waiting.until, bell);
    let is_done = try_line(alloc, &mut live.script, text, is_due, log)?;
    if is_done {
        live.desks.pass(waiting.job);
        return Ok(true);
    }
    Ok(false)
}

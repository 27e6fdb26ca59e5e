//! A line is done, and its reply gathered.
ghost use Rattle.std.specs.Prelude.{◌≡◌, List, ℕ, None, Some, Ok, Err, false, OnOk, OnErr, ◌&&◌, not, if◌then◌else◌};
ghost use Rattle.command.specs.declared.request.Command.TheVariants.{Access};
ghost use Rattle.command.specs.declared.request.Reply.TheVariants.{Refused};
ghost use Rattle.command.specs.declared.access.DataCommand.TheVariants.{Set, Kill, Look as look};
ghost use Rattle.command.specs.declared.access.Extent.TheVariants.{All};
ghost use Rattle.command.specs.declared.access.Look.TheVariants.{Get, Order};
ghost use Rattle.journal.specs.Story.{Machine, transaction_of};
ghost use Rattle.serial.specs.Machine.{IsReply};
ghost use Rattle.serial.specs.Memory.{is_out_of_memory};
ghost use Rattle.script.specs.Asked.{IsAsked};
ghost use Rattle.script.specs.Line.{IsReading, job_of_line};
ghost use Rattle.script.specs.Sentence.{SpellsSome, value_in};
ghost use Rattle.script_run.specs.Output.{is_halt as is_halt_command};
ghost use Rattle.script_run.specs.Replies.{IsAnswered, IsGathered, IsGatheredAs, IsLost, IsLostAs};

use crate::RunLog;
use crate::answers::Script;
use crate::outcome::{is_refusal, is_wanting};
use collation::{Direction, Job};
use command::{Command, Extent, Reply};
use job_core::JobCore;
use key_codec::{Key, Place};
use refusal::Refusal;
use script::{
    DataSentence, Drafts, LineFault, Sentence, finish_request, key_of_get, key_of_kill, key_of_set,
    place_of_order, read_request, write_done, write_got, write_reply,
};
use std::alloc::{AllocError, Global};

fn is_halt(command: &Command) -> bool
    ensures { result ≡ is_halt_command command.now }
{
    matches!(command, Command::Halt)
}

fn is_done(halts: bool, refused: bool) -> bool
    ensures { result ≡ (halts && not refused) }
{
    halts && !refused
}

// The job, where its command wasn't refused memory.
fn accepted(job: Job, reply: &Reply) -> Option<Job>
    ensures { result ≡ (if is_out_of_memory reply.now then None else Some job) }
{
    if is_wanting(reply) { None } else { Some(job) }
}

// Tells the log of a refusal.
#[inline(always)]
fn log_reply(log: &mut impl RunLog, number: u64, line: &[u8], reply: &Reply) {
    if let Reply::Refused(refusal) = reply {
        log.refused(number, line, *refusal);
    }
}

/// Notes a line's job, where the line is accepted, and how the script goes, tells the log, and gathers the reply.
/// Where memory is refused for its text the line is done, and its reply lost.
#[inline(always)]
pub fn gather_reply(
    script: &mut Script,
    job: Option<Job>,
    accepted: Option<Job>,
    ended: bool,
    reply: &Reply,
    line: &[u8],
    log: &mut impl RunLog,
) -> Result<(), AllocError>
    requires { job ≡ job_of_line line.now }
    ensures gathered { OnOk result ((start : Machine) → IsAnswered line.now start script.old.core.machine accepted ended reply.now → IsGathered line.now start script.old.out.items script.old.outcome script.old.jobs script.new) }
    ensures lost { OnErr result ((start : Machine) → IsAnswered line.now start script.old.core.machine accepted ended reply.now → IsLost line.now start script.old.out.items script.new) }
    ensures gathered_as { OnOk result ((start : Machine) → IsAnswered line.now start script.old.core.machine accepted ended reply.now → IsGatheredAs reply.now line.now start script.old.out.items script.old.outcome script.old.jobs script.new) }
    ensures lost_as { OnErr result ((start : Machine) → IsAnswered line.now start script.old.core.machine accepted ended reply.now → IsLostAs reply.now line.now start script.old.out.items script.new) }
{
    script.jobs.note_line(&accepted, ended);
    log_reply(log, script.lines, line, reply);
    script.outcome = script.outcome.with(reply);
    write_reply(job, reply, &mut script.out)
}

// Gathers a refusal.
#[inline(never)]
fn gather_refusal(
    script: &mut Script,
    job: Option<Job>,
    accepted: Option<Job>,
    refusal: Refusal,
    line: &[u8],
    log: &mut impl RunLog,
) -> Result<(), AllocError>
    requires { job ≡ job_of_line line.now }
    ensures gathered { OnOk result ((start : Machine) → IsAnswered line.now start script.old.core.machine accepted false (Refused refusal) → IsGathered line.now start script.old.out.items script.old.outcome script.old.jobs script.new) }
    ensures lost { OnErr result ((start : Machine) → IsAnswered line.now start script.old.core.machine accepted false (Refused refusal) → IsLost line.now start script.old.out.items script.new) }
    ensures gathered_as { OnOk result ((start : Machine) → IsAnswered line.now start script.old.core.machine accepted false (Refused refusal) → IsGatheredAs (Refused refusal) line.now start script.old.out.items script.old.outcome script.old.jobs script.new) }
    ensures lost_as { OnErr result ((start : Machine) → IsAnswered line.now start script.old.core.machine accepted false (Refused refusal) → IsLostAs (Refused refusal) line.now start script.old.out.items script.new) }
{
    let reply = Reply::Refused(refusal);
    gather_reply(script, job, accepted, false, &reply, line, log)
}

/// A line that is refused as it is read. Where memory is refused for the reply's text, that is lost.
pub fn gather_unread(
    script: &mut Script,
    fault: LineFault,
    line: &[u8],
    log: &mut impl RunLog,
) -> Result<(), AllocError>
    requires { IsReading line.now (Err fault) }
    ensures gathered { OnOk result (IsGathered line.now script.old.core.machine script.old.out.items script.old.outcome script.old.jobs script.new) }
    ensures lost { OnErr result (IsLost line.now script.old.core.machine script.old.out.items script.new) }
    ensures gathered_as { OnOk result (IsGatheredAs (Refused fault.refusal) line.now script.old.core.machine script.old.out.items script.old.outcome script.old.jobs script.new) }
    ensures lost_as { OnErr result (IsLostAs (Refused fault.refusal) line.now script.old.core.machine script.old.out.items script.new) }
{
    gather_refusal(script, fault.job, None, fault.refusal, line, log)
}

/// Does a job's command. Answers the job if the line that asks for it is accepted, whether the job's session ended, and
/// the reply.
#[inline(always)]
#[tactic(auto, using(crate::proofs::Replies::of_step))]
pub fn answer_command(core: &mut JobCore, job: Job, command: Command) -> (Option<Job>, bool, Reply)
    ensures answered { (line : List ℕ) → IsReading line (Ok (job, command)) → IsAnswered line core.old.machine core.new.machine result.0 result.1 result.2 }
    ensures exact { IsReply job command result.2 core.old.machine }
{
    let halts = is_halt(&command);
    let reply = core.step(job, command);
    let ended = is_done(halts, is_refusal(&reply));
    (accepted(job, &reply), ended, reply)
}

// Does what a line asks, which is read as far as its sentence. Answers as `answer_command`.
#[tactic(auto, using(crate::proofs::Replies::of_fault))]
fn answer_line(
    alloc: Global,
    core: &mut JobCore,
    drafts: &mut Drafts,
    job: Job,
    sentence: Sentence,
) -> (Option<Job>, bool, Reply)
    requires { SpellsSome drafts.old sentence }
    ensures { (line : List ℕ) → IsAsked line drafts.old job sentence → IsAnswered line core.old.machine core.new.machine result.0 result.1 result.2 }
{
    match finish_request(alloc, job, sentence, drafts) {
        Ok(command) => answer_command(core, job, command),
        Err(fault) => (None, false, Reply::Refused(fault.refusal)),
    }
}

// A line whose command is made, and done by `step`.
#[inline(always)]
fn gather_answer(
    alloc: Global,
    script: &mut Script,
    job: Job,
    sentence: Sentence,
    line: &[u8],
    log: &mut impl RunLog,
) -> Result<(), AllocError>
    requires { IsAsked line.now script.old.drafts job sentence }
    ensures gathered { OnOk result (IsGathered line.now script.old.core.machine script.old.out.items script.old.outcome script.old.jobs script.new) }
    ensures lost { OnErr result (IsLost line.now script.old.core.machine script.old.out.items script.new) }
{
    let (accepted, ended, reply) = answer_line(
        alloc,
        &mut script.core,
        &mut script.drafts,
        job,
        sentence,
    );
    gather_reply(script, Some(job), accepted, ended, &reply, line, log)
}

// A $GET. The reply is written from the value where the journal, or the job's transaction, keeps it.
fn gather_got(
    script: &mut Script,
    job: Job,
    key: &Key,
    line: &[u8],
    log: &mut impl RunLog,
) -> Result<(), AllocError>
    requires asked { IsReading line.now (Ok (job, Access (look (Get key.now None)))) }
    ensures gathered { OnOk result (IsGathered line.now script.old.core.machine script.old.out.items script.old.outcome script.old.jobs script.new) }
    ensures lost { OnErr result (IsLost line.now script.old.core.machine script.old.out.items script.new) }
{
    match script.core.get(job, key) {
        Ok(size) => {
            script.jobs.note_line(&Some(job), false);
            write_got(job, script.core.value_got(job, size), &mut script.out)
        }
        Err(refusal) => {
            let accepted = accepted(job, &Reply::Refused(refusal));
            gather_refusal(script, Some(job), accepted, refusal, line, log)
        }
    }
}

// A SET, whose value lies in the drafts.
fn gather_done(
    alloc: Global,
    script: &mut Script,
    job: Job,
    key: &Key,
    line: &[u8],
    log: &mut impl RunLog,
) -> Result<(), AllocError>
    requires asked { IsReading line.now (Ok (job, Access (Set key.now (value_in script.old.drafts)))) }
    ensures gathered { OnOk result (IsGathered line.now script.old.core.machine script.old.out.items script.old.outcome script.old.jobs script.new) }
    ensures lost { OnErr result (IsLost line.now script.old.core.machine script.old.out.items script.new) }
{
    match script.core.set(job, key, script.drafts.value_mut()) {
        Ok(()) => {
            script.jobs.note_line(&Some(job), false);
            write_done(job, &mut script.out)
        }
        Err(refusal) => {
            script.drafts.drop_value(alloc);
            let accepted = accepted(job, &Reply::Refused(refusal));
            gather_refusal(script, Some(job), accepted, refusal, line, log)
        }
    }
}

// A $GET without a default, whose line is read as far as its sentence.
fn gather_get(
    alloc: Global,
    script: &mut Script,
    job: Job,
    line: &[u8],
    log: &mut impl RunLog,
) -> Result<(), AllocError>
    requires asked { IsAsked line.now script.old.drafts job (Sentence.Access DataSentence.Get) }
    ensures gathered { OnOk result (IsGathered line.now script.old.core.machine script.old.out.items script.old.outcome script.old.jobs script.new) }
    ensures lost { OnErr result (IsLost line.now script.old.core.machine script.old.out.items script.new) }
{
    match key_of_get(alloc, job, &mut script.drafts) {
        Ok(key) => gather_got(script, job, &key, line, log),
        Err(fault) => gather_unread(script, fault, line, log),
    }
}

// So a SET.
fn gather_set(
    alloc: Global,
    script: &mut Script,
    job: Job,
    line: &[u8],
    log: &mut impl RunLog,
) -> Result<(), AllocError>
    requires asked { IsAsked line.now script.old.drafts job (Sentence.Access DataSentence.Set) }
    ensures gathered { OnOk result (IsGathered line.now script.old.core.machine script.old.out.items script.old.outcome script.old.jobs script.new) }
    ensures lost { OnErr result (IsLost line.now script.old.core.machine script.old.out.items script.new) }
{
    match key_of_set(alloc, job, &mut script.drafts) {
        Ok(key) => gather_done(alloc, script, job, &key, line, log),
        Err(fault) => gather_unread(script, fault, line, log),
    }
}

// A KILL of a job without an open transaction.
fn gather_killed(
    script: &mut Script,
    job: Job,
    key: &Key,
    line: &[u8],
    log: &mut impl RunLog,
) -> Result<(), AllocError>
    requires asked { IsReading line.now (Ok (job, Access (Kill key.now All))) }
    requires outside { transaction_of job script.old.core.machine ≡ None }
    ensures gathered { OnOk result (IsGathered line.now script.old.core.machine script.old.out.items script.old.outcome script.old.jobs script.new) }
    ensures lost { OnErr result (IsLost line.now script.old.core.machine script.old.out.items script.new) }
{
    match script.core.kill_lone(job, key) {
        Ok(()) => {
            script.jobs.note_line(&Some(job), false);
            write_done(job, &mut script.out)
        }
        Err(refusal) => {
            let accepted = accepted(job, &Reply::Refused(refusal));
            gather_refusal(script, Some(job), accepted, refusal, line, log)
        }
    }
}

// A $ORDER of a job without an open transaction. The reply is written from the answer where the journal keeps it.
fn gather_ordered(
    script: &mut Script,
    job: Job,
    place: &Place,
    direction: Direction,
    line: &[u8],
    log: &mut impl RunLog,
) -> Result<(), AllocError>
    requires asked { IsReading line.now (Ok (job, Access (look (Order place.now direction)))) }
    requires outside { transaction_of job script.old.core.machine ≡ None }
    ensures gathered { OnOk result (IsGathered line.now script.old.core.machine script.old.out.items script.old.outcome script.old.jobs script.new) }
    ensures lost { OnErr result (IsLost line.now script.old.core.machine script.old.out.items script.new) }
{
    match script.core.order_lone(job, place, direction) {
        Ok(size) => {
            script.jobs.note_line(&Some(job), false);
            let answer = script.core.value_got(job, size);
            write_got(job, answer, &mut script.out)
        }
        Err(refusal) => {
            let accepted = accepted(job, &Reply::Refused(refusal));
            gather_refusal(script, Some(job), accepted, refusal, line, log)
        }
    }
}

// A KILL of a job without an open transaction, whose line is read as far as its sentence.
fn gather_kill(
    alloc: Global,
    script: &mut Script,
    job: Job,
    line: &[u8],
    log: &mut impl RunLog,
) -> Result<(), AllocError>
    requires asked { IsAsked line.now script.old.drafts job (Sentence.Access (DataSentence.Kill All)) }
    requires outside { transaction_of job script.old.core.machine ≡ None }
    ensures gathered { OnOk result (IsGathered line.now script.old.core.machine script.old.out.items script.old.outcome script.old.jobs script.new) }
    ensures lost { OnErr result (IsLost line.now script.old.core.machine script.old.out.items script.new) }
{
    match key_of_kill(alloc, job, Extent::All, &mut script.drafts) {
        Ok(key) => gather_killed(script, job, &key, line, log),
        Err(fault) => gather_unread(script, fault, line, log),
    }
}

// So a $ORDER.
fn gather_order(
    alloc: Global,
    script: &mut Script,
    job: Job,
    direction: Direction,
    line: &[u8],
    log: &mut impl RunLog,
) -> Result<(), AllocError>
    requires asked { IsAsked line.now script.old.drafts job (Sentence.Access (DataSentence.Order direction)) }
    requires outside { transaction_of job script.old.core.machine ≡ None }
    ensures gathered { OnOk result (IsGathered line.now script.old.core.machine script.old.out.items script.old.outcome script.old.jobs script.new) }
    ensures lost { OnErr result (IsLost line.now script.old.core.machine script.old.out.items script.new) }
{
    match place_of_order(alloc, job, direction, &mut script.drafts) {
        Ok(place) => gather_ordered(script, job, &place, direction, line, log),
        Err(fault) => gather_unread(script, fault, line, log),
    }
}

// A line that asks something else than a SET or a $GET without a default. A KILL and a $ORDER of a job without an open
// transaction take the short way.
#[inline(always)]
fn gather_other(
    alloc: Global,
    script: &mut Script,
    job: Job,
    sentence: Sentence,
    line: &[u8],
    log: &mut impl RunLog,
) -> Result<(), AllocError>
    requires { IsAsked line.now script.old.drafts job sentence }
    ensures gathered { OnOk result (IsGathered line.now script.old.core.machine script.old.out.items script.old.outcome script.old.jobs script.new) }
    ensures lost { OnErr result (IsLost line.now script.old.core.machine script.old.out.items script.new) }
{
    let is_inside = script.core.is_inside(job);
    match (sentence, is_inside) {
        (Sentence::Access(DataSentence::Kill(Extent::All)), false) => {
            gather_kill(alloc, script, job, line, log)
        }
        (Sentence::Access(DataSentence::Order(direction)), false) => {
            gather_order(alloc, script, job, direction, line, log)
        }
        (sentence, _) => gather_answer(alloc, script, job, sentence, line, log),
    }
}

/// A line that is read as far as its sentence is done and its reply gathered. A SET and a $GET without a default take
/// the short way. Where memory is refused for the reply's text the line may have been done.
pub fn gather_asked(
    alloc: Global,
    script: &mut Script,
    job: Job,
    sentence: Sentence,
    line: &[u8],
    log: &mut impl RunLog,
) -> Result<(), AllocError>
    requires { IsAsked line.now script.old.drafts job sentence }
    ensures gathered { OnOk result (IsGathered line.now script.old.core.machine script.old.out.items script.old.outcome script.old.jobs script.new) }
    ensures lost { OnErr result (IsLost line.now script.old.core.machine script.old.out.items script.new) }
{
    match sentence {
        Sentence::Access(DataSentence::Set) => gather_set(alloc, script, job, line, log),
        Sentence::Access(DataSentence::Get) => gather_get(alloc, script, job, line, log),
        sentence => gather_other(alloc, script, job, sentence, line, log),
    }
}

// A line is done and its reply gathered. Where memory is refused for the reply's text the line may have been done.
pub(crate) fn gather_line(
    alloc: Global,
    script: &mut Script,
    line: &[u8],
    log: &mut impl RunLog,
) -> Result<(), AllocError>
    ensures gathered { OnOk result (IsGathered line.now script.old.core.machine script.old.out.items script.old.outcome script.old.jobs script.new) }
    ensures lost { OnErr result (IsLost line.now script.old.core.machine script.old.out.items script.new) }
{
    match read_request(alloc, line, &mut script.drafts) {
        Ok(asked) => gather_asked(alloc, script, asked.0, asked.1, line, log),
        Err(fault) => gather_unread(script, fault, line, log),
    }
}

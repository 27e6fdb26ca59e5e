//! A step of a command, and what its reply tells.
ghost use Rattle.std.specs.Prelude.{◌≡◌, Some};
ghost use Rattle.job_core.specs.Lent.{done_reply};
ghost use Rattle.typed_calls.specs.Commands.{set_command};
ghost use Rattle.typed_calls.specs.Typed as typed;
ghost use Rattle.typed_calls.specs.Typed.{IsFoundCall, IsFoundTaken, IsJobCause, IsKeyOf, IsMemory, IsNameCall, IsNameCopied, IsNumberCall, IsStep, IsTypedCall, IsValueCall, IsValueCopied, last_outcome};

use collation::{Job, Text};
use command::{Answer, Command, Reply};
use embedded::{Answered, Embedded, Outcome, copied_as};
use key_codec::Key;
use refusal::Refusal;
use std::alloc::Global;

// Keeps a job's reply in the place of the last one, and answers its outcome.
fn keep_reply(engine: &mut Embedded, job: Job, reply: Reply) -> Outcome
    ensures last { engine.new.last ≡ Some (record { job = Some job; reply = reply }) }
    ensures core { engine.new.core ≡ engine.old.core }
    ensures listed { engine.new.listed ≡ engine.old.listed }
    ensures journal_place { engine.new.journal_place ≡ engine.old.journal_place }
    ensures outcome { result ≡ last_outcome engine.new.last }
{
    let outcome = Outcome::of(&reply);
    engine.last = Some(Answered {
        job: Some(job),
        reply,
    });
    outcome
}

// Does a command of a job, and keeps its reply in the place of the last one.
pub(crate) fn run_step(engine: &mut Embedded, job: Job, command: Command) -> Outcome
    ensures step { IsStep job command engine.old engine.new }
    ensures outcome { result ≡ last_outcome engine.new.last }
{
    let reply = engine.core.step(job, command);
    keep_reply(engine, job, reply)
}

// The reply of a SET by reference.
fn reply_of_set(done: Result<(), Refusal>) -> Reply
    ensures { result ≡ done_reply done }
{
    match done {
        Ok(()) => Reply::Answered(Answer::Done),
        Err(refusal) => Reply::Refused(refusal),
    }
}

// Does a SET of a value that isn't too long by reference, without making the command, and keeps its reply.
//
// Outcomes: the reply's own; before the step `OutOfMemory`.
pub(crate) fn set_lent(
    engine: &mut Embedded,
    alloc: Global,
    job: Job,
    key: &Key,
    value: &[u8],
) -> Outcome
    ensures { IsTypedCall (λ refusal. IsMemory refusal) job (set_command key.now value.now) engine.old engine.new result }
{
    let mut text = match Text::from_slice(alloc, value) {
        Ok(text) => text,
        Err(_) => return Outcome::Refused(Refusal::OutOfMemory),
    };
    let done = engine.core.set(job, key, &mut text);
    keep_reply(engine, job, reply_of_set(done))
}

/// Does a command of a job, and keeps its reply in the place of the last one.
///
/// Outcomes: the reply's own, of `JobCore::step`; `BadJob` where the job isn't 1 to 4,096, and then nothing has
/// changed.
pub fn run_command(engine: &mut Embedded, job: u64, command: Command) -> Outcome
    ensures { IsTypedCall (λ refusal. IsJobCause job refusal) job command engine.old engine.new result }
{
    match Job::new(job) {
        Ok(job) => run_step(engine, job, command),
        Err(refusal) => {
            drop(command);
            Outcome::Refused(refusal)
        }
    }
}

// The number that a reply tells.
pub(crate) fn number_of(reply: &Reply) -> u64
    ensures { result ≡ typed.number_of reply.now }
{
    match reply {
        Reply::Answered(Answer::Number(number)) => *number,
        Reply::Had(true) => 1,
        Reply::Count(number) => *number,
        Reply::AtLevel(number) => *number,
        Reply::Restarted(number) => *number,
        _ => 0,
    }
}

/// The number that the last reply tells, and 0 where it has none.
pub fn last_number(last: &Option<Answered>) -> u64
    ensures { result ≡ typed.last_number last.now }
{
    match last {
        Some(answered) => number_of(&answered.reply),
        None => 0,
    }
}

/// Does a command of a job as `run_command`, and tells the number that its reply has: what $DATA answers, 1 where the
/// names of a LOCK were had, the level that TSTART or an inner TCOMMIT leaves, how often a transaction was restarted.
///
/// 0 is told where the reply has none, and where there was no step.
pub fn run_numbered(engine: &mut Embedded, job: u64, command: Command, number: &mut u64) -> Outcome
    ensures { IsNumberCall (λ refusal. IsJobCause job refusal) job command engine.old engine.new result number.new }
{
    match Job::new(job) {
        Ok(job) => {
            let outcome = run_step(engine, job, command);
            *number = last_number(&engine.last);
            outcome
        }
        Err(refusal) => {
            drop(command);
            *number = 0;
            Outcome::Refused(refusal)
        }
    }
}

/// Copies the bytes of the value that the last reply has, and tells how many they are.
///
/// Where it has none, its refusal, or `NoReply`; `BufferTooShort`: then nothing is copied.
pub fn copy_value(last: &Option<Answered>, buffer: &mut [u8], wanted: &mut usize) -> Outcome
    ensures { IsValueCopied last.now result buffer.old buffer.new wanted.new }
{
    *wanted = 0;
    let Some(answered) = last else {
        return Outcome::NoReply;
    };
    match &answered.reply {
        Reply::Answered(Answer::Value(value)) => {
            copied_as(Outcome::Done, value.as_slice(), buffer, wanted)
        }
        Reply::Refused(refusal) => Outcome::Refused(*refusal),
        _ => Outcome::NoReply,
    }
}

// Does a command of a job, and copies the value that its reply has.
pub(crate) fn run_valued(
    engine: &mut Embedded,
    job: u64,
    command: Command,
    buffer: &mut [u8],
    wanted: &mut usize,
) -> Outcome
    ensures { IsValueCall (λ refusal. IsJobCause job refusal) job command engine.old engine.new result buffer.old buffer.new wanted.new }
{
    match Job::new(job) {
        Ok(job) => {
            run_step(engine, job, command);
            copy_value(&engine.last, buffer, wanted)
        }
        Err(refusal) => {
            drop(command);
            *wanted = 0;
            Outcome::Refused(refusal)
        }
    }
}

// A copy of this key in the place of the other.
fn put_copy(found: &Key, key: &mut Key) -> Outcome
    ensures { IsKeyOf found.now key.old key.new result }
{
    match found.clone() {
        Ok(found) => {
            *key = found;
            Outcome::Done
        }
        Err(_) => Outcome::ReplyKept,
    }
}

/// Puts the reference that the last reply has in the key's place.
///
/// Where it has none, its refusal, or `AtEnd`; `ReplyKept` where memory is refused for a key of over 38 bytes. Then the
/// key is as it was.
pub fn take_found(last: &Option<Answered>, key: &mut Key) -> Outcome
    ensures { IsFoundTaken last.now key.old key.new result }
{
    let Some(answered) = last else {
        return Outcome::AtEnd;
    };
    match &answered.reply {
        Reply::Answered(Answer::Found(found)) => put_copy(found, key),
        Reply::Refused(refusal) => Outcome::Refused(*refusal),
        _ => Outcome::AtEnd,
    }
}

// Does a command of a job, and puts the reference that its reply has in the key's place.
pub(crate) fn run_found(engine: &mut Embedded, job: u64, command: Command, key: &mut Key) -> Outcome
    ensures { IsFoundCall (λ refusal. IsJobCause job refusal) job command engine.old engine.new key.old key.new result }
{
    match Job::new(job) {
        Ok(job) => {
            run_step(engine, job, command);
            take_found(&engine.last, key)
        }
        Err(refusal) => {
            drop(command);
            Outcome::Refused(refusal)
        }
    }
}

/// Copies the name of the reference that the last reply has, and tells how long it is.
///
/// Where it has none, its refusal, or `AtEnd`; `BufferTooShort`: then nothing is copied.
pub fn copy_name(last: &Option<Answered>, buffer: &mut [u8], wanted: &mut usize) -> Outcome
    ensures { IsNameCopied last.now result buffer.old buffer.new wanted.new }
{
    *wanted = 0;
    let Some(answered) = last else {
        return Outcome::AtEnd;
    };
    match &answered.reply {
        Reply::Answered(Answer::Found(found)) => {
            copied_as(Outcome::Done, found.name(), buffer, wanted)
        }
        Reply::Refused(refusal) => Outcome::Refused(*refusal),
        _ => Outcome::AtEnd,
    }
}

// Does a command of a job, and copies the name of the reference that its reply has.
pub(crate) fn run_named(
    engine: &mut Embedded,
    job: u64,
    command: Command,
    buffer: &mut [u8],
    wanted: &mut usize,
) -> Outcome
    ensures { IsNameCall (λ refusal. IsJobCause job refusal) job command engine.old engine.new result buffer.old buffer.new wanted.new }
{
    match Job::new(job) {
        Ok(job) => {
            run_step(engine, job, command);
            copy_name(&engine.last, buffer, wanted)
        }
        Err(refusal) => {
            drop(command);
            *wanted = 0;
            Outcome::Refused(refusal)
        }
    }
}

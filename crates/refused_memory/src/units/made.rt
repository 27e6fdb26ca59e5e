//! The units that are pushed.
ghost use Rattle.std.specs.Prelude.{OnOk, IsSome};

use crate::units::lines::{push_access, push_lock, push_reference};
use collation::{Job, Text};
use command::{Answer, Command, DataCommand};
use journal::{ExchangeLog, Journal};
use key_codec::{Key, KeyDraft};
use lock_name::LockCommand;
use m_text::read_reference;
use refusal::Refusal;
use script::{Drafts, read_line};
use std::alloc::{AllocError, Global};

// Numbers of each length that the format has.
const NUMBERS: [u64; 6] = [0, 253, 254, 65535, 65536, u64::MAX];

/// The nth job: below 254, which takes one byte, and above.
pub fn job_of(n: u64) -> Result<Job, Refusal> {
    Job::new(n.wrapping_mul(7) % 4096 + 1)
}

// What the line asks; each is of the grammar.
fn read(alloc: Global, line: &[u8]) -> Result<Command, Refusal> {
    let mut drafts = Drafts::new(alloc);
    match read_line(alloc, line, &mut drafts) {
        Ok((_, command)) => Ok(command),
        Err(fault) => Err(fault.refusal),
    }
}

/// The nth data command.
pub fn access_of(alloc: Global, n: u64) -> Result<DataCommand, Refusal> {
    let mut line = Vec::new(alloc);
    push_access(&mut line, n)?;
    match read(alloc, &line) {
        Ok(Command::Access(command)) => Ok(command),
        Ok(other) => {
            drop(other);
            Err(Refusal::BadLine)
        }
        Err(refusal) => Err(refusal),
    }
}

/// The nth LOCK.
pub fn lock_of(alloc: Global, n: u64) -> Result<LockCommand, Refusal> {
    let mut line = Vec::new(alloc);
    push_lock(&mut line, n)?;
    match read(alloc, &line) {
        Ok(Command::Lock(command)) => Ok(command),
        Ok(other) => {
            drop(other);
            Err(Refusal::BadLine)
        }
        Err(refusal) => Err(refusal),
    }
}

/// The nth key.
pub fn found_of(alloc: Global, n: u64) -> Result<Key, Refusal> {
    let mut line = Vec::new(alloc);
    push_reference(&mut line, n)?;
    let mut draft = KeyDraft::new(alloc);
    match read_reference(alloc, &line, &mut draft) {
        Ok((key, _)) => Ok(key),
        Err(refusal) => Err(refusal),
    }
}

// A text of 0 to 39 bytes.
fn text_of(alloc: Global, n: u64) -> Result<Text, AllocError> {
    let mut text = Text::new(alloc);
    for _ in 0..n % 40 {
        text.extend_from_slice(b"y")?;
    }
    Ok(text)
}

/// The answer of the nth data command, of the kind that it has.
pub fn answer_of(alloc: Global, n: u64) -> Result<Answer, Refusal> {
    match n % 9 {
        0 | 1 | 2 => Ok(Answer::Done),
        3 => Ok(Answer::Number(NUMBERS[(n / 9 % 6) as usize])),
        4 | 5 | 6 => Ok(Answer::Value(text_of(alloc, n)?)),
        _ if n % 2 == 0 => Ok(Answer::Value(Text::new(alloc))),
        _ => Ok(Answer::Found(found_of(alloc, n)?)),
    }
}

fn prepare_lone(alloc: Global, journal: &mut Journal, n: u64) -> Result<(), Refusal>
    ensures { OnOk result (IsSome journal.new.prepared) }
{
    let command = access_of(alloc, n)?;
    prepare_answered(alloc, journal, &command, n)
}

fn prepare_answered(
    alloc: Global,
    journal: &mut Journal,
    command: &DataCommand,
    n: u64,
) -> Result<(), Refusal>
    ensures { OnOk result (IsSome journal.new.prepared) }
{
    let answer = answer_of(alloc, n)?;
    let prepared = journal.prepare_lone(job_of(n)?, command, &answer);
    drop(answer);
    prepared
}

fn push_answered(
    alloc: Global,
    log: &mut ExchangeLog,
    command: &DataCommand,
    n: u64,
) -> Result<(), Refusal> {
    let answer = answer_of(alloc, n)?;
    let pushed = log.push(command, &answer);
    drop(answer);
    pushed?;
    Ok(())
}

fn push_exchange(alloc: Global, log: &mut ExchangeLog, n: u64) -> Result<(), Refusal> {
    let command = access_of(alloc, n)?;
    let pushed = push_answered(alloc, log, &command, n);
    drop(command);
    pushed
}

// Of 0 to 4 commands.
fn prepare_whole(alloc: Global, journal: &mut Journal, n: u64) -> Result<(), Refusal>
    ensures { OnOk result (IsSome journal.new.prepared) }
{
    let mut log = ExchangeLog::new(alloc);
    for more in 0..n / 5 % 5 {
        push_exchange(alloc, &mut log, n.wrapping_add(more))?;
    }
    journal.prepare_whole(job_of(n)?, &log)
}

fn prepare_lock(alloc: Global, journal: &mut Journal, n: u64) -> Result<(), Refusal>
    ensures { OnOk result (IsSome journal.new.prepared) }
{
    let command = lock_of(alloc, n)?;
    let prepared = journal.prepare_lock(job_of(n)?, n % 2 == 0, &command, n % 3 == 0);
    drop(command);
    prepared
}

// The end of a session, in room that was kept for it before.
fn prepare_kept_end(journal: &mut Journal, job: Job) -> Result<(), Refusal>
    ensures { OnOk result (IsSome journal.new.prepared) }
{
    journal.keep_end()?;
    journal.prepare_kept_end(job)
}

fn prepare(alloc: Global, journal: &mut Journal, n: u64) -> Result<(), Refusal>
    ensures { OnOk result (IsSome journal.new.prepared) }
{
    match n % 5 {
        0 => prepare_lone(alloc, journal, n),
        1 => prepare_whole(alloc, journal, n),
        2 => prepare_lock(alloc, journal, n),
        3 => journal.prepare_back(job_of(n)?),
        _ if n % 2 == 0 => journal.prepare_end(job_of(n)?),
        _ => prepare_kept_end(journal, job_of(n)?),
    }
}

/// Pushes the nth unit. Where it is refused the journal is as it was.
pub fn push_unit_to(alloc: Global, journal: &mut Journal, n: u64) -> Result<(), Refusal> {
    prepare(alloc, journal, n)?;
    drop(journal.push_prepared());
    Ok(())
}

//! Random scripts of jobs that run at the same time, each on a worker. It prints `alike` for a seed where a plain map
//! and a plain lock table that replay the closed journal give every answer in it and the listing, and no lock is left;
//! where the journal's lines, run one after the other, leave the same listing; and where jobs whose globals and lock
//! names are their own are answered as each of them is alone.
//!
//! The words are the first seed, how many there are, how many jobs from 1 to 16, and how many lines a job has: 1 8 4
//! 150 where none are said.
#![tactic(auto)]

use job_scripts::{Report, Script, scripts_of};
use job_server::{Served, serve};
use journal_lines::{JournalFault, write_journal};
use lines::{Names, Size, push_script};
use listing::{Counted, ListingFault, write_listing};
use loading::NoLog;
use lock_name::LockCommand;
use plain::Plain;
use script_run::{Fault, Upkeep, run_script};
use shared_engine::{Gate, Mark, Stop};
use std::alloc::{AllocError, Global};
use std::io::ErrorKind;
use std::rt::Env;
use std::sync::Wait;
use std::thread::Threads;
use std::{env, io, thread};

mod beyond;
mod lines;
mod plain;
mod plain_locks;

// What is run where no word says it: the first seed, how many, jobs, lines of each.
const USUAL: [u64; 4] = [1, 8, 4, 150];

// A job has a worker, of which there are at most so many.
const MOST_JOBS: u64 = 16;

// Lets other threads go on before each line, where lines are watched, and between tries, and no time pass.
#[derive(Clone, Copy)]
struct Yielding {
    watches: bool,
}

impl Gate for Yielding {
    fn watches_lines(&self) -> bool {
        self.watches
    }

    fn before(&self, _job: collation::Job, _line: u64) {
        thread::yield_now();
    }

    fn after(&self, _job: collation::Job, _line: u64) {}

    fn between_tries(&self, _job: collation::Job) {
        thread::yield_now();
    }

    fn pause(&self, _job: collation::Job, _millis: u64) {
        thread::yield_now();
    }

    fn now(&self) -> u64 {
        0
    }

    fn waits(&self, _job: collation::Job, _command: &LockCommand) -> Mark {
        Mark {
            changes: 0,
            is_counted: false,
        }
    }

    fn tried(&self, _job: collation::Job, mark: Mark) -> Mark {
        mark
    }

    fn goes_on(&self, _job: collation::Job, _command: &LockCommand) {}

    fn job_begun(&self) {}

    fn job_failed(&self) {}

    fn stop(&self) -> Option<Stop> {
        None
    }

    fn job_done(&self, _done: u64, _jobs: u64, _lines: u64) {}
}

// What a seed comes to.
#[derive(Clone, Copy, Debug, PartialEq, Eq)]
enum Outcome {
    Alike,
    AnotherAnswer,
    AnotherListing,
    AnotherLock,
    AnotherReply,
    AnotherRun,
    LocksAreLeft,
    NoMemory,
}

impl Outcome {
    fn text(self) -> &'static str {
        match self {
            Outcome::Alike => "alike",
            Outcome::AnotherAnswer => "an answer isn't the plain map's",
            Outcome::AnotherListing => "the listing isn't the plain map's",
            Outcome::AnotherLock => "a LOCK isn't the plain table's",
            Outcome::AnotherReply => "a job is answered otherwise than alone",
            Outcome::AnotherRun => "the journal's lines leave another listing",
            Outcome::LocksAreLeft => "the plain table's locks are left at the end",
            Outcome::NoMemory => "no memory",
        }
    }
}

impl From<AllocError> for Outcome {
    fn from(_: AllocError) -> Outcome {
        Outcome::NoMemory
    }
}

impl From<ListingFault> for Outcome {
    fn from(_: ListingFault) -> Outcome {
        Outcome::NoMemory
    }
}

impl From<JournalFault> for Outcome {
    fn from(_: JournalFault) -> Outcome {
        Outcome::NoMemory
    }
}

impl From<Fault> for Outcome {
    fn from(_: Fault) -> Outcome {
        Outcome::NoMemory
    }
}

// The jobs of a script, served.
fn served<R: Threads + Wait + Sync>(
    rt: &R,
    alloc: Global,
    text: &[u8],
    size: Size,
    watches: bool,
) -> Result<Served, Outcome> {
    let scripts = scripts_of(alloc, text)?;
    let workers = size.jobs as usize;
    let gate = Yielding { watches };
    match serve(rt, alloc, b"", &mut NoLog, scripts, workers, &gate) {
        Ok(served) => Ok(served),
        Err(_) => Err(Outcome::NoMemory),
    }
}

// Where the replies end in what a script wrote.
fn end_of_replies(text: &[u8]) -> usize {
    match text
        .windows(4)
        .position(|bytes| bytes == b"\n--\n".as_slice())
    {
        Some(end) => end.saturating_add(1).min(text.len()),
        None => text.len(),
    }
}

// What these lines are answered, and `--` with the listing.
fn written_of(alloc: Global, lines: &[u8]) -> Result<Vec<u8>, Outcome> {
    let mut reader = Counted::new(lines);
    let mut writer = Counted::new(Vec::new(alloc));
    run_script(alloc, Upkeep::none(), &mut reader, &mut writer)?;
    Ok(Vec::from_slice(alloc, writer.inner())?)
}

// Whether the journal's lines leave this listing.
fn runs_again(alloc: Global, served: &Served, listing: &[u8]) -> Result<bool, Outcome> {
    let mut lines = Counted::new(Vec::new(alloc));
    write_journal(alloc, served.journal(), &mut lines)?;
    let written = written_of(alloc, lines.inner())?;
    match written.get(end_of_replies(&written)..) {
        Some(ending) => Ok(ending.strip_prefix(b"--\n".as_slice()) == Some(listing)),
        None => Ok(false),
    }
}

// The listing of the database that jobs left.
fn listing_of(alloc: Global, served: &Served) -> Result<Vec<u8>, Outcome> {
    let mut writer = Counted::new(Vec::new(alloc));
    write_listing(alloc, &served.closed.core.content(), &mut writer)?;
    Ok(Vec::from_slice(alloc, writer.inner())?)
}

// Whether the listing is the plain map's, which did the journal, and the journal's lines give it too.
fn compared(alloc: Global, served: &Served, want: &[u8]) -> Result<Outcome, Outcome> {
    if listing_of(alloc, served)?.as_slice() != want {
        return Ok(Outcome::AnotherListing);
    }
    if !runs_again(alloc, served, want)? {
        return Ok(Outcome::AnotherRun);
    }
    Ok(Outcome::Alike)
}

// The listing of a plain map that does the journal, if every answer in it is the map's or the plain lock table's.
fn plain_listing(alloc: Global, served: &Served) -> Result<Vec<u8>, Outcome> {
    let mut plain = Plain::new(alloc);
    match plain.replays(alloc, served.journal())? {
        Outcome::Alike => Ok(plain.listing(alloc)?),
        outcome => Err(outcome),
    }
}

// What a replay of the journal comes to.
fn replayed(alloc: Global, served: &Served) -> Result<Outcome, Outcome> {
    let want = plain_listing(alloc, served)?;
    compared(alloc, served, &want)
}

// What a job's lines alone are answered, without the listing.
fn answered_alone(alloc: Global, lines: &[u8]) -> Result<Vec<u8>, Outcome> {
    let mut written = written_of(alloc, lines)?;
    written.truncate(end_of_replies(&written));
    Ok(written)
}

// The lines of a script as text.
fn text_of(alloc: Global, script: &Script<'_>) -> Result<Vec<u8>, AllocError> {
    let mut text = Vec::new(alloc);
    for line in &script.lines {
        text.extend_from_slice(line)?;
        text.push(b'\n')?;
    }
    Ok(text)
}

// Whether a job is answered as it is alone.
fn is_as_alone(alloc: Global, script: &Script<'_>, report: &Report) -> Result<bool, Outcome> {
    let text = text_of(alloc, script)?;
    let alone = answered_alone(alloc, &text)?;
    Ok(alone.as_slice() == report.text())
}

// Whether all jobs are.
fn are_as_alone(
    alloc: Global,
    scripts: &[Script<'_>],
    reports: &[Report],
) -> Result<bool, Outcome> {
    for (script, report) in scripts.iter().zip(reports.iter()) {
        if !is_as_alone(alloc, script, report)? {
            return Ok(false);
        }
    }
    Ok(true)
}

// Whether jobs that were served are answered as each of them is alone, and then what a replay comes to.
fn outcome_alone(alloc: Global, text: &[u8], served: &Served) -> Result<Outcome, Outcome> {
    let scripts = scripts_of(alloc, text)?;
    if !are_as_alone(alloc, &scripts, &served.reports)? {
        return Ok(Outcome::AnotherReply);
    }
    replayed(alloc, served)
}

// The outcome of a seed's jobs that have globals of their own.
fn outcome_apart<R: Threads + Wait + Sync>(
    rt: &R,
    alloc: Global,
    seed: u64,
    size: Size,
) -> Result<Outcome, Outcome> {
    let mut text = Vec::new(alloc);
    push_script(alloc, seed, Names::Own, size, &mut text)?;
    let served = served(rt, alloc, &text, size, false)?;
    outcome_alone(alloc, &text, &served)
}

// The outcome of a seed's jobs that meet.
fn outcome_shared<R: Threads + Wait + Sync>(
    rt: &R,
    alloc: Global,
    seed: u64,
    size: Size,
) -> Result<Outcome, Outcome> {
    let mut text = Vec::new(alloc);
    push_script(alloc, seed, Names::Shared, size, &mut text)?;
    let served = served(rt, alloc, &text, size, seed % 2 == 0)?;
    replayed(alloc, &served)
}

// Both kinds of scripts of a seed.
fn outcome_of<R: Threads + Wait + Sync>(
    rt: &R,
    alloc: Global,
    seed: u64,
    size: Size,
) -> Result<Outcome, Outcome> {
    match outcome_shared(rt, alloc, seed, size)? {
        Outcome::Alike => outcome_apart(rt, alloc, seed, size),
        shared => Ok(shared),
    }
}

// The number of the word at this place, or the usual one.
fn number_at(rt: &(impl Env + AllocGlobal), place: usize) -> io::Result<u64> {
    match env::args(rt)?.nth(place.saturating_add(1)) {
        Some(word) => match word.parse::<u64>() {
            Ok(number) => Ok(number),
            Err(_) => Err(io::Error::from(ErrorKind::InvalidInput)),
        },
        None => Ok(USUAL[place % 4]),
    }
}

fn main(rt: HostRuntime) -> io::Result<()> {
    let (first, seeds) = (number_at(&rt, 0)?, number_at(&rt, 1)?);
    let size = Size {
        jobs: number_at(&rt, 2)?.clamp(1, MOST_JOBS),
        lines: number_at(&rt, 3)?,
    };
    for seed in first..first.saturating_add(seeds) {
        let outcome = match outcome_of(&rt, rt.alloc(), seed, size) {
            Ok(outcome) => outcome,
            Err(outcome) => outcome,
        };
        let text = outcome.text();
        println!(rt; "seed {seed}: {text}")?;
    }
    Ok(())
}

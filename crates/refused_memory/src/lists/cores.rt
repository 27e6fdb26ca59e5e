//! Two cores that do the same lines, the second those alone that the first didn't refuse for memory, and without the
//! first's passes and checkpoints.
use collation::Job;
use command::Command;
use job_core::JobCore;
use listing::{Counted, ListingFault, write_listing};
use refusal::Refusal;
use script::{Drafts, LineFault, read_line, write_reply};
use std::alloc::{AllocError, Global};

// More bytes than any reply to these lines has, so that none is refused memory for its text.
const MOST_REPLY_BYTES: usize = 4096;

/// When the first core takes checkpoints.
#[derive(Clone, Copy)]
pub enum Checkpoints {
    Never,
    AfterEachLine,
}

/// The texts of a line's replies by the first core and by the second.
#[derive(Drop)]
pub struct Replies {
    first: Vec<u8>,
    second: Vec<u8>,
}

impl Replies {
    /// No replies yet, and room for the longest.
    pub fn new(alloc: Global) -> Result<Replies, AllocError> {
        Ok(Replies {
            first: Vec::with_capacity(alloc, MOST_REPLY_BYTES)?,
            second: Vec::with_capacity(alloc, MOST_REPLY_BYTES)?,
        })
    }
}

fn push_step(
    core: &mut JobCore,
    job: Job,
    command: Command,
    out: &mut Vec<u8>,
) -> Result<(), AllocError> {
    let reply = core.step(job, command);
    let written = write_reply(Some(job), &reply, out);
    drop(reply);
    written
}

// A refusal by its name, since the line's job doesn't matter here.
fn push_fault(fault: &LineFault, out: &mut Vec<u8>) -> Result<(), AllocError> {
    out.extend_from_slice(fault.refusal.name().as_bytes())?;
    out.push(b'\n')?;
    Ok(())
}

// The line's reply, alone in `out`.
fn answer(
    alloc: Global,
    core: &mut JobCore,
    line: &str,
    out: &mut Vec<u8>,
) -> Result<(), AllocError> {
    out.clear();
    let mut drafts = Drafts::new(alloc);
    match read_line(alloc, line.as_bytes(), &mut drafts) {
        Ok((job, command)) => push_step(core, job, command, out),
        Err(fault) => push_fault(&fault, out),
    }
}

// Whether the line was done by the core: not where memory was refused for it.
fn is_done(
    alloc: Global,
    core: &mut JobCore,
    line: &str,
    out: &mut Vec<u8>,
) -> Result<bool, AllocError> {
    answer(alloc, core, line, out)?;
    Ok(!out.ends_with(b"OutOfMemory\n"))
}

fn listed(alloc: Global, core: &JobCore) -> Result<Vec<u8>, ListingFault> {
    let mut writer = Counted::new(Vec::new(alloc));
    write_listing(alloc, &core.content(), &mut writer)?;
    Ok(Vec::from_slice(alloc, writer.inner())?)
}

// Whether the listing is this text.
fn is_listed_as(alloc: Global, core: &JobCore, text: &[u8]) -> Result<bool, ListingFault> {
    let listing = listed(alloc, core)?;
    Ok(listing.as_slice() == text)
}

fn are_listed_alike(
    alloc: Global,
    first: &JobCore,
    second: &JobCore,
) -> Result<bool, ListingFault> {
    let listing = listed(alloc, first)?;
    is_listed_as(alloc, second, &listing)
}

// Whether both have the same content and as many units, and the second's journal ends with the first's, byte by byte.
fn stand_alike(alloc: Global, first: &JobCore, second: &JobCore) -> Result<bool, Refusal> {
    let (kept, all) = (first.journal(), second.journal());
    let are_units_alike = kept.len() == all.len() && all.as_slice().ends_with(kept.as_slice());
    match are_listed_alike(alloc, first, second) {
        Ok(is_same) => Ok(is_same && are_units_alike),
        Err(_) => Err(Refusal::OutOfMemory),
    }
}

// Does a line on the first core, and on the second where memory wasn't refused. Whether the replies are the same; where
// the line was refused, whether the cores stand alike.
fn answers_alike(
    alloc: Global,
    cores: (&mut JobCore, &mut JobCore),
    line: &str,
    replies: &mut Replies,
    refused: &mut u64,
) -> Result<bool, Refusal> {
    let (first, second) = cores;
    if !is_done(alloc, first, line, &mut replies.first)? {
        *refused = refused.saturating_add(1);
        return stand_alike(alloc, first, second);
    }
    if !is_done(alloc, second, line, &mut replies.second)? {
        return Err(Refusal::OutOfMemory);
    }
    Ok(replies.first.as_slice() == replies.second.as_slice())
}

// The pass of the first core's collector. Where it was refused, whether the cores stand alike.
fn collects_alike(
    alloc: Global,
    first: &mut JobCore,
    second: &JobCore,
    refused: &mut u64,
) -> Result<bool, Refusal> {
    if first.collect(usize::MAX).is_ok() {
        return Ok(true);
    }
    *refused = refused.saturating_add(1);
    stand_alike(alloc, first, second)
}

// A checkpoint of the first core. Where it was refused, whether the base is where it was, and the cores stand alike.
fn checkpoints_alike(
    alloc: Global,
    first: &mut JobCore,
    second: &JobCore,
    refused: &mut u64,
) -> Result<bool, Refusal> {
    let before = first.base().number();
    if first.checkpoint().is_ok() {
        return Ok(true);
    }
    *refused = refused.saturating_add(1);
    Ok(first.base().number() == before && stand_alike(alloc, first, second)?)
}

// The collector's pass after a line, and the checkpoint.
fn tidies_alike(
    alloc: Global,
    cores: (&mut JobCore, &JobCore),
    checkpoints: Checkpoints,
    refused: &mut u64,
) -> Result<bool, Refusal> {
    let (first, second) = cores;
    let is_alike = collects_alike(alloc, first, second, refused)?;
    match checkpoints {
        Checkpoints::Never => Ok(is_alike),
        Checkpoints::AfterEachLine => {
            Ok(is_alike && checkpoints_alike(alloc, first, second, refused)?)
        }
    }
}

// Whether the base that many checkpoints made is the one that the second core's first makes.
fn have_bases_alike(first: &mut JobCore, second: &mut JobCore) -> Result<bool, Refusal> {
    let (number, other) = (first.checkpoint()?, second.checkpoint()?);
    Ok(number == other && first.base().nodes() == second.base().nodes())
}

fn run_alike(
    alloc: Global,
    cores: (&mut JobCore, &mut JobCore),
    script: &str,
    checkpoints: Checkpoints,
    replies: &mut Replies,
    refused: &mut u64,
) -> Result<bool, Refusal> {
    let (first, second) = cores;
    for line in script.lines() {
        if !answers_alike(alloc, (&mut *first, &mut *second), line, replies, refused)? {
            return Ok(false);
        }
        if !tidies_alike(alloc, (&mut *first, &*second), checkpoints, refused)? {
            return Ok(false);
        }
    }
    Ok(stand_alike(alloc, first, second)? && have_bases_alike(first, second)?)
}

/// Whether two new cores do the lines of the script alike; and how many steps more were refused.
pub fn is_alike(
    alloc: Global,
    script: &str,
    checkpoints: Checkpoints,
    replies: &mut Replies,
    refused: &mut u64,
) -> Result<bool, Refusal> {
    let mut first = JobCore::new(alloc);
    let mut second = JobCore::new(alloc);
    let cores = (&mut first, &mut second);
    run_alike(alloc, cores, script, checkpoints, replies, refused)
}

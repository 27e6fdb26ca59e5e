//! The lines of one job.
ghost use Rattle.std.specs.Prelude.{◌≡◌, ◌≢◌, ◌<◌, ◌∷◌, [], ℕ, List, length, IfSome, IfNone};
ghost use Rattle.script.specs.Asked.{IsAsked};
ghost use Rattle.script.specs.Sentence.{SpellsSome};
ghost use Rattle.job_scripts.specs.Lines.{lent_lines, IsReadFor, IsRefusedAs, IsRequestFor};

use collation::Job;
use command::Command;
use refusal::Refusal;
use script::{Drafts, Sentence, finish_request, read_line, read_request};
use std::alloc::Global;

/// The lines of a job, or of none, in order.
#[derive(Debug, Drop)]
pub struct Script<'t> {
    /// The job, or none where the lines have no job that can be read.
    pub job: Option<Job>,
    /// The lines, without their ends, where they lie in the text. None is empty.
    pub lines: Vec<&'t [u8]>,
}

/// The first of some lines, and what follows it; none where nothing is left.
#[inline(always)]
pub fn next_line<'a>(lines: &'a [&'a [u8]]) -> Option<(&'a [u8], &'a [&'a [u8]])>
    ensures first { IfSome result (λ r. lent_lines lines.now ≡ r.0.now ∷ lent_lines r.1.now) }
    ensures shorter { IfSome result (λ r. length r.1.now < length lines.now) }
    ensures none { IfNone result (lines.now ≡ []) }
{
    match lines {
        [line, rest @ ..] => Some((*line, rest)),
        [] => None,
    }
}

/// What one of a job's lines asks for, read into these drafts, or its refusal: as of `script::read_line`, or `BadJob`
/// where it is another job's.
#[tactic(auto, using(crate::proofs::Asked::own_refusal, crate::proofs::Asked::other_job))]
pub fn read_for(
    alloc: Global,
    job: Job,
    line: &[u8],
    drafts: &mut Drafts,
) -> Result<Command, Refusal>
    ensures { IsReadFor job line.now result }
{
    match read_line(alloc, line, drafts) {
        Ok((named, command)) => {
            if named == job {
                return Ok(command);
            }
            drop(command);
            Err(Refusal::BadJob)
        }
        Err(fault) => Err(fault.refusal),
    }
}

// The refusal of another job's line: its own, or `BadJob`.
#[inline(never)]
fn refusal_of_other(alloc: Global, named: Job, sentence: Sentence, drafts: &mut Drafts) -> Refusal
    requires { SpellsSome drafts.old sentence }
    ensures { (job : ℕ) (line : List ℕ) → IsAsked line drafts.old named sentence → named ≢ job → IsRefusedAs job line result }
{
    match finish_request(alloc, named, sentence, drafts) {
        Ok(command) => {
            drop(command);
            Refusal::BadJob
        }
        Err(fault) => fault.refusal,
    }
}

/// What one of a job's lines asks for, as far as its sentence; what that speaks of stands in the drafts. Refusals: as of
/// `script::read_request`, or `BadJob` where it is another job's, or that line's own.
#[inline(always)]
pub fn request_for(
    alloc: Global,
    job: Job,
    line: &[u8],
    drafts: &mut Drafts,
) -> Result<Sentence, Refusal>
    ensures { IsRequestFor job line.now drafts.new result }
{
    match read_request(alloc, line, drafts) {
        Ok(asked) => {
            if asked.0 == job {
                return Ok(asked.1);
            }
            Err(refusal_of_other(alloc, asked.0, asked.1, drafts))
        }
        Err(fault) => Err(fault.refusal),
    }
}

/// The command of one of a job's lines that was read as far as its sentence, or the line's refusal. Lock names and a value
/// are taken out of the drafts. Refusals: as of `script::finish_request`.
#[tactic(auto, using(crate::proofs::Asked::own_refusal))]
pub fn command_for(
    alloc: Global,
    job: Job,
    sentence: Sentence,
    drafts: &mut Drafts,
) -> Result<Command, Refusal>
    requires { SpellsSome drafts.old sentence }
    ensures { (line : List ℕ) → IsAsked line drafts.old job sentence → IsReadFor job line result }
{
    match finish_request(alloc, job, sentence, drafts) {
        Ok(command) => Ok(command),
        Err(fault) => Err(fault.refusal),
    }
}

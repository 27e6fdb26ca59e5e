//! The engine.
ghost use Rattle.std.specs.Prelude.{◌≡◌, Some, None, OnOk};
ghost use Rattle.journal.specs.Story.{nothing_done};
ghost use Rattle.script.specs.Line.{reading_of, job_of_line};
ghost use Rattle.script.specs.Text.{reply_text};
ghost use Rattle.embedded.specs.Calls.{IsAnswer, IsReplyCopied, IsLineCall, IsReplyCall};
ghost use Rattle.journal_lines.specs.Places.{placed_at};
ghost use Rattle.serial.specs.Answers.{told_by};

use crate::Outcome;
use crate::copied::copied_as;
use collation::Job;
use command::Reply;
use job_core::JobCore;
use journal_lines::JournalPlace;
use key_codec::Key;
use script::{Drafts, read_line, write_reply};
use std::alloc::{AllocError, Global};

/// A reply, and the job that it is printed with.
#[derive(Debug, Drop)]
pub struct Answered {
    /// The line's job, where one could be read.
    pub job: Option<Job>,
    /// What it was answered.
    pub reply: Reply,
}

/// A core, the reply of its last line, what was listed last, and up to where the journal's lines were copied.
#[derive(Drop)]
pub struct Embedded {
    /// The machine of all jobs.
    pub core: JobCore,
    /// The reply of the last line or step, from the first on.
    pub last: Option<Answered>,
    /// The reference that was listed last; none where the next is the first.
    pub listed: Option<Key>,
    /// Up to where the journal's lines were copied.
    pub journal_place: JournalPlace,
    drafts: Drafts,
    // A reply or a node as text, made anew by each call that copies one.
    pub(crate) text: Vec<u8>,
}

// Reads a line and does it: the job that its reply is printed with, and the reply.
#[tactic(auto, using(crate::proofs::Refused::refused_answer))]
fn answer_line(
    alloc: Global,
    core: &mut JobCore,
    drafts: &mut Drafts,
    line: &[u8],
) -> (Option<Job>, Reply)
    ensures job { result.0 ≡ job_of_line line.now }
    ensures answer { IsAnswer core.old.machine line.now result.1 }
    ensures machine { core.new.machine ≡ told_by (reading_of line.now) result.1 core.old.machine }
{
    match read_line(alloc, line, drafts) {
        Ok((job, command)) => (Some(job), core.step(job, command)),
        Err(fault) => (fault.job, Reply::Refused(fault.refusal)),
    }
}

// A reply's line in the place of what stands in the buffer.
fn write_anew(answered: &Answered, text: &mut Vec<u8>) -> Result<(), AllocError>
    ensures { OnOk result (text.new.items ≡ reply_text answered.now.job answered.now.reply) }
{
    text.clear();
    write_reply(answered.job, &answered.reply, text)
}

// Copies a reply's line, where memory is had for it.
fn copy_answered(
    answered: &Answered,
    text: &mut Vec<u8>,
    buffer: &mut [u8],
    wanted: &mut usize,
) -> Outcome
    ensures { IsReplyCopied (Some answered.now) result buffer.old buffer.new wanted.new }
{
    *wanted = 0;
    match write_anew(answered, text) {
        Ok(()) => copied_as(Outcome::of(&answered.reply), text, buffer, wanted),
        Err(_) => Outcome::ReplyKept,
    }
}

impl Embedded {
    /// An engine without units and open transactions, whose database is empty. Takes no memory.
    pub fn new(alloc: Global) -> Embedded
        ensures core { result.core.machine ≡ nothing_done }
        ensures last { result.last ≡ None }
        ensures listed { result.listed ≡ None }
        ensures journal_place { result.journal_place ≡ placed_at 0 }
    {
        Embedded::of(alloc, JobCore::new(alloc))
    }

    // An engine of a core, without a reply; the next node to list is the first.
    pub(crate) fn of(alloc: Global, core: JobCore) -> Embedded
        ensures core { result.core ≡ core }
        ensures last { result.last ≡ None }
        ensures listed { result.listed ≡ None }
        ensures journal_place { result.journal_place ≡ placed_at 0 }
    {
        Embedded {
            core,
            last: None,
            listed: None,
            journal_place: JournalPlace::new(alloc, 0),
            drafts: Drafts::new(alloc),
            text: Vec::new(alloc),
        }
    }

    /// Runs a line, which comes without its end, keeps its reply in the place of the last one, and copies that
    /// reply's line as `copy_reply` does. The line is run whether or not the reply fits.
    ///
    /// A refusal is a reply: one of `read_line` where the line can't be read, else one of `JobCore::step`. After it
    /// the machine is as it was.
    pub fn line(
        &mut self,
        alloc: Global,
        line: &[u8],
        buffer: &mut [u8],
        wanted: &mut usize,
    ) -> Outcome
        ensures { IsLineCall line.now self.old self.new result buffer.old buffer.new wanted.new }
    {
        let (job, reply) = answer_line(alloc, &mut self.core, &mut self.drafts, line);
        let answered = Answered { job, reply };
        let outcome = copy_answered(&answered, &mut self.text, buffer, wanted);
        self.last = Some(answered);
        outcome
    }

    /// Copies the last reply's line, with a byte 10 at its end, to the front of a buffer, and tells its length. It
    /// stays kept, so it can be copied as often as one likes.
    ///
    /// Answers the reply's own outcome: `Done`, `Restarted`, or its refusal. `BufferTooShort` where the buffer is
    /// shorter than the line, `ReplyKept` where memory was refused for its text, `NoReply` before the first line or
    /// step: then nothing is copied.
    pub fn copy_reply(&mut self, buffer: &mut [u8], wanted: &mut usize) -> Outcome
        ensures { IsReplyCall self.old self.new result buffer.old buffer.new wanted.new }
    {
        match &self.last {
            Some(answered) => copy_answered(answered, &mut self.text, buffer, wanted),
            None => {
                *wanted = 0;
                Outcome::NoReply
            }
        }
    }
}

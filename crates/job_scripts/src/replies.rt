//! The replies of one job so far, as their text.
ghost use Rattle.std.specs.Prelude.{◌≡◌, ◌∷◌, [], true, false, length, IfOk, OnOk, OnErr};
ghost use Rattle.command.specs.declared.access.Answer.{Answer};
ghost use Rattle.command.specs.declared.request.Reply.{Reply};
ghost use Rattle.command.specs.Replies.{is_refused as refused_of};
ghost use Rattle.script.specs.Text.{reply_text};
ghost use Rattle.job_scripts.specs.Reports.{answers, and_replies, report_text, some_refused, GoesOnFrom};

use crate::seen::Seen;
use collation::Job;
use command::{Answer, Reply};
use refusal::Refusal;
use script::{write_answered, write_got, write_reply};
use std::alloc::{AllocError, Global};
use std::marker::Model;
use std::snapshot::Snapshot;

/// The replies to the lines of a job, or of none, so far, in order, as their text. The replies themselves clauses alone
/// see.
#[derive(Drop)]
pub struct Replies {
    alloc: Global,
    job: Option<Job>,
    told: Vec<Seen>,
    done: Vec<u8>,
    text: Vec<u8>,
    value: Vec<u8>,
    refused: bool,
}

impl Model for Replies {
    ghost use Rattle.std.specs.Prelude.{◌≡◌};
    ghost use Rattle.command.specs.declared.access.Answer.{Answer};
    ghost use Rattle.command.specs.declared.request.Reply.{Reply};
    ghost use Rattle.script.specs.Text.{reply_text};
    ghost use Rattle.job_scripts.specs.Reports.{Answers, answers, report_text, some_refused};

    ghost Value = { Answers };

    ghost view = { λ r. answers r.job r.told.items };

    ghost invariant = { λ r. (r.text.items ≡ report_text (answers r.job r.told.items))
        × ((r.refused ≡ some_refused (answers r.job r.told.items)) × (r.done.items ≡ reply_text r.job (Reply.Answered Answer.Done))) };
}

/// The replies as they were at some time, by which they can go back there.
#[derive(Drop)]
pub struct RepliesMark {
    at: Snapshot<Replies>,
    job: Option<Job>,
    len: usize,
    count: usize,
    refused: bool,
}

impl Model for RepliesMark {
    ghost use Rattle.std.specs.Prelude.{◌≡◌, length};
    ghost use Rattle.job_scripts.specs.Reports.{Answers, report_text, some_refused};

    ghost Value = { Answers };

    ghost view = { λ m. m.at.value };

    ghost invariant = { λ m. (m.job ≡ m.at.value.job) × ((m.len ≡ length (report_text m.at.value))
        × ((m.count ≡ length m.at.value.replies) × (m.refused ≡ some_refused m.at.value))) };
}

fn is_refused(reply: &Reply) -> bool
    ensures { result ≡ refused_of reply.now }
{
    matches!(reply, Reply::Refused(_))
}

// The line of a reply that says no more than that the command is done.
fn done_line(alloc: Global, job: &Option<Job>) -> Result<Vec<u8>, AllocError>
    ensures { IfOk result (λ line. line.items ≡ reply_text job.now (Reply.Answered Answer.Done)) }
{
    let mut line = Vec::new(alloc);
    write_answered(*job, &Answer::Done, &mut line)?;
    Ok(line)
}

impl Replies {
    /// None yet.
    ///
    /// `AllocError` where memory is refused for the line that most replies have.
    pub fn new(alloc: Global, job: Option<Job>) -> Result<Replies, AllocError>
        ensures { IfOk result (λ replies. replies ≡ answers job []) }
    {
        let done = done_line(alloc, &job)?;
        Ok(Replies {
            alloc,
            job,
            told: Vec::new(alloc),
            done,
            text: Vec::new(alloc),
            value: Vec::new(alloc),
            refused: false,
        })
    }

    /// The job, or none.
    pub fn job(&self) -> Option<Job>
        ensures { result ≡ self.now.job }
    {
        self.job
    }

    /// How many there are.
    pub fn count(&self) -> usize
        ensures { result ≡ length self.now.replies }
    {
        self.told.len()
    }

    /// How far they go now.
    pub fn mark(&self) -> RepliesMark
        ensures { result ≡ self.now }
    {
        RepliesMark {
            at: Snapshot::of(self),
            job: self.job,
            len: self.text.len(),
            count: self.told.len(),
            refused: self.refused,
        }
    }

    /// Goes back to the mark, behind which they went on. Answers whether the mark is of replies to the same job: where it
    /// isn't they stay.
    pub fn back_to(&mut self, mark: RepliesMark) -> bool
        requires { GoesOnFrom mark.replies self.old.replies }
        ensures mine { mark.job ≡ self.old.job → result ≡ true }
        ensures back { result ≡ true → self.new ≡ mark }
        ensures stay { result ≡ false → self.new ≡ self.old }
    {
        if mark.job != self.job {
            return false;
        }
        self.text.truncate(mark.len);
        self.told.truncate(mark.count);
        self.refused = mark.refused;
        true
    }

    /// One more.
    ///
    /// `AllocError` where memory is refused, and they are as they were.
    pub fn push(&mut self, reply: &Reply) -> Result<(), AllocError>
        ensures ok { OnOk result (self.new ≡ and_replies self.old (reply.now ∷ [])) }
        ensures err { OnErr result (self.new ≡ self.old) }
    {
        self.told.push(Seen::reply(self.alloc, reply))?;
        match write_reply(self.job, reply, &mut self.text) {
            Ok(()) => {
                self.refused = self.refused || is_refused(reply);
                Ok(())
            }
            Err(error) => {
                self.told.pop();
                Err(error)
            }
        }
    }

    /// One more: a SET or a KILL is done. Refused as `push`.
    #[inline(always)]
    pub fn push_done(&mut self) -> Result<(), AllocError>
        ensures ok { OnOk result (self.new ≡ and_replies self.old (Reply.Answered Answer.Done ∷ [])) }
        ensures err { OnErr result (self.new ≡ self.old) }
    {
        self.told.push(Seen::answer(self.alloc, &Answer::Done))?;
        match self.text.extend_from_slice(&self.done) {
            Ok(()) => Ok(()),
            Err(error) => {
                self.told.pop();
                Err(error)
            }
        }
    }

    /// One more: a value is answered. Refused as `push`, and where the replies are of no job.
    #[inline(always)]
    pub fn push_got(&mut self, value: &[u8]) -> Result<(), AllocError>
        ensures ok { OnOk result (self.new ≡ and_replies self.old (Reply.Answered (Answer.Value value.now) ∷ [])) }
        ensures err { OnErr result (self.new ≡ self.old) }
    {
        let Some(job) = self.job else {
            return Err(AllocError);
        };
        self.value.clear();
        self.value.extend_from_slice(value)?;
        self.told.push(Seen::value(&self.value))?;
        match write_got(job, value, &mut self.text) {
            Ok(()) => Ok(()),
            Err(error) => {
                self.told.pop();
                Err(error)
            }
        }
    }

    /// One more: an answer. Refused as `push`.
    #[inline(never)]
    pub fn push_answer(&mut self, answer: &Answer) -> Result<(), AllocError>
        ensures ok { OnOk result (self.new ≡ and_replies self.old (Reply.Answered answer.now ∷ [])) }
        ensures err { OnErr result (self.new ≡ self.old) }
    {
        self.told.push(Seen::answer(self.alloc, answer))?;
        match write_answered(self.job, answer, &mut self.text) {
            Ok(()) => Ok(()),
            Err(error) => {
                self.told.pop();
                Err(error)
            }
        }
    }

    /// One more: a refusal. Refused as `push`.
    #[inline(never)]
    pub fn push_refused(&mut self, refusal: Refusal) -> Result<(), AllocError>
        ensures ok { OnOk result (self.new ≡ and_replies self.old (Reply.Refused refusal ∷ [])) }
        ensures err { OnErr result (self.new ≡ self.old) }
    {
        self.push(&Reply::Refused(refusal))
    }

    // Their job, their text, and whether one is a refusal.
    pub(crate) fn into_parts(self) -> (Option<Job>, Vec<u8>, bool)
        ensures { (result.0 ≡ self.job) × ((result.1.items ≡ report_text self) × (result.2 ≡ some_refused self)) }
    {
        let Replies {
            alloc: _,
            job,
            told,
            done,
            text,
            value,
            refused,
        } = self;
        drop(told);
        drop(done);
        drop(value);
        (job, text, refused)
    }
}

//! Replies.
ghost use Rattle.std.specs.Prelude.{◌≡◌, ◌++◌, ◌∷◌, [], Some, IfSome, OnOk, OnErr, decimal, unwrap_or};
ghost use Rattle.collation.specs.Bytes as byte;
ghost use Rattle.key_codec.specs.Grown.{GoesOnFrom};
ghost use Rattle.script.specs.Text as text;

use collation::Job;
use command::{Answer, Reply};
use itoa::Buffer;
use m_text::{write_key, write_literal};
use refusal::Refusal;
use std::alloc::AllocError;

// The digit of a number that has one alone.
fn digit_of(n: u64) -> Option<u8>
    ensures { IfSome result (λ digit. decimal n ≡ digit ∷ []) }
{
    match n {
        0 => Some(b'0'),
        1 => Some(b'1'),
        2 => Some(b'2'),
        3 => Some(b'3'),
        4 => Some(b'4'),
        5 => Some(b'5'),
        6 => Some(b'6'),
        7 => Some(b'7'),
        8 => Some(b'8'),
        9 => Some(b'9'),
        _ => None,
    }
}

#[inline(always)]
fn write_number(n: u64, out: &mut Vec<u8>) -> Result<(), AllocError>
    ensures ok { OnOk result (out.new.items ≡ out.old.items ++ decimal n) }
    ensures kept { GoesOnFrom out.old.items out.new.items }
{
    if let Some(digit) = digit_of(n) {
        out.push(digit)?;
        return Ok(());
    }
    let mut buffer = Buffer::new();
    out.extend_from_slice(buffer.format(n).as_bytes())
}

fn write_refusal(refusal: Refusal, out: &mut Vec<u8>) -> Result<(), AllocError>
    ensures ok { OnOk result (out.new.items ≡ out.old.items ++ text.reply_words (Reply.Refused refusal)) }
    ensures kept { GoesOnFrom out.old.items out.new.items }
{
    out.extend_from_slice(b"error ")?;
    write_number(refusal.number() as u64, out)?;
    out.push(b' ')?;
    out.extend_from_slice(refusal.name().as_bytes())
}

// A word, a space and a number.
fn write_counted(word: &[u8], n: u64, out: &mut Vec<u8>) -> Result<(), AllocError>
    ensures ok { OnOk result (out.new.items ≡ out.old.items ++ (word.now ++ byte.blank ∷ decimal n)) }
    ensures kept { GoesOnFrom out.old.items out.new.items }
{
    out.extend_from_slice(word)?;
    out.push(b' ')?;
    write_number(n, out)
}

// The value of a node.
fn write_value(value: &[u8], out: &mut Vec<u8>) -> Result<(), AllocError>
    ensures ok { OnOk result (out.new.items ≡ out.old.items ++ text.answer_words (Answer.Value value.now)) }
    ensures kept { GoesOnFrom out.old.items out.new.items }
{
    write_literal(value, out)
}

fn write_answer(answer: &Answer, out: &mut Vec<u8>) -> Result<(), AllocError>
    ensures ok { OnOk result (out.new.items ≡ out.old.items ++ text.answer_words answer.now) }
    ensures kept { GoesOnFrom out.old.items out.new.items }
{
    match answer {
        Answer::Done => out.extend_from_slice(b"ok"),
        Answer::Value(value) => write_value(value.as_slice(), out),
        Answer::Number(n) => write_number(*n, out),
        Answer::Found(key) => write_key(key, out),
    }
}

fn write_words(reply: &Reply, out: &mut Vec<u8>) -> Result<(), AllocError>
    ensures ok { OnOk result (out.new.items ≡ out.old.items ++ text.reply_words reply.now) }
    ensures kept { GoesOnFrom out.old.items out.new.items }
{
    match reply {
        Reply::Answered(answer) => write_answer(answer, out),
        Reply::Finished => out.extend_from_slice(b"ok"),
        Reply::Had(true) => out.extend_from_slice(b"1"),
        Reply::Had(false) => out.extend_from_slice(b"0"),
        Reply::Count(n) => write_number(*n, out),
        Reply::AtLevel(n) => write_counted(b"level", *n, out),
        Reply::Committed => out.extend_from_slice(b"committed"),
        Reply::Restarted(n) => write_counted(b"restart", *n, out),
        Reply::Refused(refusal) => write_refusal(*refusal, out),
    }
}

fn job_number(job: Option<Job>) -> u64
    ensures { result ≡ unwrap_or job 0 }
{
    match job {
        Some(job) => job.number() as u64,
        None => 0,
    }
}

fn push_reply(job: Option<Job>, reply: &Reply, out: &mut Vec<u8>) -> Result<(), AllocError>
    ensures ok { OnOk result (out.new.items ≡ out.old.items ++ text.reply_text job reply.now) }
    ensures kept { GoesOnFrom out.old.items out.new.items }
{
    write_number(job_number(job), out)?;
    out.push(b' ')?;
    write_words(reply, out)?;
    out.push(b'\n')?;
    Ok(())
}

/// Writes a reply's line at the end of `out`: the job, or 0 where there is none, a space, the reply, and a
/// byte 10.
///
/// Where memory is refused `out` is as it was.
#[tactic(auto, using(key_codec::specs::laws::Grown::back_to))]
pub fn write_reply(job: Option<Job>, reply: &Reply, out: &mut Vec<u8>) -> Result<(), AllocError>
    ensures ok { OnOk result (out.new.items ≡ out.old.items ++ text.reply_text job reply.now) }
    ensures err { OnErr result (out.new.items ≡ out.old.items) }
{
    let before = out.len();
    match push_reply(job, reply, out) {
        Ok(()) => Ok(()),
        Err(error) => {
            out.truncate(before);
            Err(error)
        }
    }
}

fn push_answered(job: Option<Job>, answer: &Answer, out: &mut Vec<u8>) -> Result<(), AllocError>
    ensures ok { OnOk result (out.new.items ≡ out.old.items ++ text.reply_text job (Reply.Answered answer.now)) }
    ensures kept { GoesOnFrom out.old.items out.new.items }
{
    write_number(job_number(job), out)?;
    out.push(b' ')?;
    write_answer(answer, out)?;
    out.push(b'\n')?;
    Ok(())
}

/// Writes the reply that is this answer; refused as `write_reply`.
#[tactic(auto, using(key_codec::specs::laws::Grown::back_to))]
pub fn write_answered(
    job: Option<Job>,
    answer: &Answer,
    out: &mut Vec<u8>,
) -> Result<(), AllocError>
    ensures ok { OnOk result (out.new.items ≡ out.old.items ++ text.reply_text job (Reply.Answered answer.now)) }
    ensures err { OnErr result (out.new.items ≡ out.old.items) }
{
    let before = out.len();
    match push_answered(job, answer, out) {
        Ok(()) => Ok(()),
        Err(error) => {
            out.truncate(before);
            Err(error)
        }
    }
}

#[inline(always)]
fn push_got(job: Job, value: &[u8], out: &mut Vec<u8>) -> Result<(), AllocError>
    ensures ok { OnOk result (out.new.items ≡ out.old.items ++ text.reply_text (Some job) (Reply.Answered (Answer.Value value.now))) }
    ensures kept { GoesOnFrom out.old.items out.new.items }
{
    write_number(job.number() as u64, out)?;
    out.push(b' ')?;
    write_value(value, out)?;
    out.push(b'\n')?;
    Ok(())
}

/// Writes the reply to a $GET or a $ORDER, from the value that is answered; refused as `write_reply`.
#[inline(always)]
#[tactic(auto, using(key_codec::specs::laws::Grown::back_to))]
pub fn write_got(job: Job, value: &[u8], out: &mut Vec<u8>) -> Result<(), AllocError>
    ensures ok { OnOk result (out.new.items ≡ out.old.items ++ text.reply_text (Some job) (Reply.Answered (Answer.Value value.now))) }
    ensures err { OnErr result (out.new.items ≡ out.old.items) }
{
    let before = out.len();
    match push_got(job, value, out) {
        Ok(()) => Ok(()),
        Err(error) => {
            out.truncate(before);
            Err(error)
        }
    }
}

#[inline(always)]
fn push_done(job: Job, out: &mut Vec<u8>) -> Result<(), AllocError>
    ensures ok { OnOk result (out.new.items ≡ out.old.items ++ text.reply_text (Some job) (Reply.Answered Answer.Done)) }
    ensures kept { GoesOnFrom out.old.items out.new.items }
{
    write_number(job.number() as u64, out)?;
    out.extend_from_slice(b" ok\n")
}

/// Writes the reply to a SET or a KILL; refused as `write_reply`.
#[inline(always)]
#[tactic(auto, using(key_codec::specs::laws::Grown::back_to))]
pub fn write_done(job: Job, out: &mut Vec<u8>) -> Result<(), AllocError>
    ensures ok { OnOk result (out.new.items ≡ out.old.items ++ text.reply_text (Some job) (Reply.Answered Answer.Done)) }
    ensures err { OnErr result (out.new.items ≡ out.old.items) }
{
    let before = out.len();
    match push_done(job, out) {
        Ok(()) => Ok(()),
        Err(error) => {
            out.truncate(before);
            Err(error)
        }
    }
}

//! Lines.
ghost use Rattle.std.specs.Prelude.{◌≡◌, ℕ, List, Some, None, false, true, IfOk, OnOk, OnErr, if◌then◌else◌};
ghost use Rattle.m_text.specs.Literal.{front_digits, past_digits, number_from};
ghost use Rattle.script.specs.Sentence.{FindsAll, HasNoNames, HasNoValue, ReadsOperands, SpellsSome, leaves_names, leaves_value, value_in};
ghost use Rattle.script.specs.Asked.{IsAsked, IsFinished, IsKeyOfGet, IsKeyOfKill, IsKeyOfSet, IsPlaceOfOrder, IsRequest};
ghost use Rattle.script.specs.Line.{HasOperands, IsReading, IsRefusalOf, is_job, ends_digits as ends_digits_spec, spelled_by, reading_of, job_of_line as job_of_line_spec};

use crate::blank::{begins_blank, past_blank, skip_blank};
use crate::finish::{finish, get_key, kill_key, order_place, set_key};
use crate::names::Names;
use crate::sentence::{DataSentence, Drafts, Sentence, read_sentence};
use collation::{Direction, Job, MOST_JOBS, Text};
use command::{Command, Extent};
use key_codec::{Key, Place};
use m_text::{number_up_to, split_digits};
use refusal::Refusal;
use std::alloc::Global;

/// Why a line was refused, and the job that stands in it, where one could be read.
#[derive(Clone, Copy, Debug)]
pub struct LineFault {
    pub refusal: Refusal,
    pub job: Option<Job>,
}

// The job of a number.
fn job_at(digits: &[u8]) -> Option<Job>
    ensures { result ≡ (if is_job (number_from 0 digits.now) then Some (number_from 0 digits.now) else None) }
{
    let number = number_up_to(MOST_JOBS as u16, digits)?;
    match Job::new(number as u64) {
        Ok(job) => Some(job),
        Err(_) => None,
    }
}

fn ends_digits(rest: &[u8]) -> bool
    ensures { result ≡ ends_digits_spec rest.now }
{
    rest.is_empty() || begins_blank(rest)
}

// The job that is printed before a refusal, of a line that begins with these digits.
#[tactic(auto, unfolding(crate::specs::Line::job_of_line))]
fn printed_job(digits: &[u8], rest: &[u8]) -> Option<Job>
    ensures { (line : List ℕ) → front_digits line ≡ digits.now → past_digits line ≡ rest.now → result ≡ job_of_line_spec line }
{
    if ends_digits(rest) {
        job_at(digits)
    } else {
        None
    }
}

/// The job with which a line begins, as it is printed before a refusal: none where the line doesn't begin with digits that a
/// blank or its end follows, or their number isn't 1 to 4,096. Takes no memory.
pub fn job_of_line(line: &[u8]) -> Option<Job>
    ensures { result ≡ job_of_line_spec line.now }
{
    let (digits, rest) = split_digits(line);
    printed_job(digits, rest)
}

// The sentence of a line that begins with these digits.
#[tactic(auto, using(crate::proofs::Operands::of_lines), unfolding(crate::specs::Line::spelled_by))]
fn read_spelled(
    alloc: Global,
    digits: &[u8],
    rest: &[u8],
    drafts: &mut Drafts,
) -> Result<Sentence, Refusal>
    ensures reading { (line : List ℕ) → front_digits line ≡ digits.now → past_digits line ≡ rest.now → FindsAll drafts.new result (spelled_by line) }
    ensures operands { (line : List ℕ) → front_digits line ≡ digits.now → past_digits line ≡ rest.now → ReadsOperands (HasOperands line) result }
    ensures value { IfOk result (λ sentence. leaves_value sentence ≡ false → drafts.new.value ≡ drafts.old.value) }
    ensures names { IfOk result (λ sentence. leaves_names sentence ≡ false → drafts.new.names ≡ drafts.old.names) }
{
    if digits.is_empty() {
        return Err(Refusal::BadLine);
    }
    let rest = skip_blank(rest)?;
    let (sentence, rest) = read_sentence(alloc, rest, drafts)?;
    if past_blank(rest).is_empty() {
        Ok(sentence)
    } else {
        Err(Refusal::BadLine)
    }
}

// The fault of a line, which leaves no value and no lock names in the drafts: they may be long.
fn refuse(alloc: Global, drafts: &mut Drafts, refusal: Refusal, job: Option<Job>) -> LineFault
    ensures fault { result ≡ record { refusal = refusal; job = job } }
    ensures value { HasNoValue drafts.new }
    ensures names { HasNoNames drafts.new }
{
    drafts.value = Text::new(alloc);
    drafts.names = Names::new(alloc);
    LineFault { refusal, job }
}

/// The job of a line, which comes without its end, and what it asks as a sentence; the references, lock names and the
/// value that it speaks of stand in the drafts. Refusals: those of `read_line` up to `BadJob`, and `OutOfMemory`.
#[tactic(auto, using(crate::proofs::Judging::of_lines))]
pub fn read_request(
    alloc: Global,
    line: &[u8],
    drafts: &mut Drafts,
) -> Result<(Job, Sentence), LineFault>
    ensures request { IsRequest line.now drafts.new result }
    ensures value { OnErr result (HasNoValue drafts.new) }
    ensures names { OnErr result (HasNoNames drafts.new) }
    ensures value_kept { IfOk result (λ asked. leaves_value asked.1 ≡ false → drafts.new.value ≡ drafts.old.value) }
    ensures names_kept { IfOk result (λ asked. leaves_names asked.1 ≡ false → drafts.new.names ≡ drafts.old.names) }
{
    let (digits, rest) = split_digits(line);
    let job = printed_job(digits, rest);
    let sentence = match read_spelled(alloc, digits, rest, drafts) {
        Ok(sentence) => sentence,
        Err(refusal) => return Err(refuse(alloc, drafts, refusal, job)),
    };
    let Some(number) = job else {
        return Err(refuse(alloc, drafts, Refusal::BadJob, job));
    };
    Ok((number, sentence))
}

/// The command of a sentence and its drafts, out of which lock names and a value are taken. Refusals: the first fault of
/// its references, lock names and values, and `OutOfMemory`.
pub fn finish_request(
    alloc: Global,
    job: Job,
    sentence: Sentence,
    drafts: &mut Drafts,
) -> Result<Command, LineFault>
    requires { SpellsSome drafts.old sentence }
    ensures command { (line : List ℕ) → IsAsked line drafts.old job sentence → IsFinished line job result }
    ensures value { OnErr result (HasNoValue drafts.new) }
    ensures names { OnErr result (HasNoNames drafts.new) }
    ensures value_taken { OnOk result (leaves_value sentence ≡ true → HasNoValue drafts.new) }
    ensures value_kept { OnOk result (leaves_value sentence ≡ false → drafts.new.value ≡ drafts.old.value) }
    ensures names_taken { OnOk result (leaves_names sentence ≡ true → HasNoNames drafts.new) }
    ensures names_kept { OnOk result (leaves_names sentence ≡ false → drafts.new.names ≡ drafts.old.names) }
{
    match finish(alloc, sentence, drafts) {
        Ok(command) => Ok(command),
        Err(refusal) => Err(refuse(alloc, drafts, refusal, Some(job))),
    }
}

/// The key of a $GET without a default, which is all that is left of its line. Refusals: those of `finish_request`.
#[inline(always)]
pub fn key_of_get(alloc: Global, job: Job, drafts: &mut Drafts) -> Result<Key, LineFault>
    requires { SpellsSome drafts.old (Sentence.Access DataSentence.Get) }
    ensures key { (line : List ℕ) → IsAsked line drafts.old job (Sentence.Access DataSentence.Get) → IsKeyOfGet line job result }
    ensures value { OnErr result (HasNoValue drafts.new) }
    ensures kept { OnOk result (drafts.new ≡ drafts.old) }
    ensures names { OnErr result (HasNoNames drafts.new) }
{
    match get_key(alloc, &drafts.first) {
        Ok(key) => Ok(key),
        Err(refusal) => Err(refuse(alloc, drafts, refusal, Some(job))),
    }
}

/// The key of a SET; its value stays in the drafts (`Drafts::value_mut`). Refusals: those of `finish_request`.
#[inline(always)]
pub fn key_of_set(alloc: Global, job: Job, drafts: &mut Drafts) -> Result<Key, LineFault>
    requires { SpellsSome drafts.old (Sentence.Access DataSentence.Set) }
    ensures key { (line : List ℕ) → IsAsked line drafts.old job (Sentence.Access DataSentence.Set) → IsKeyOfSet line job (value_in drafts.old) result }
    ensures value { OnErr result (HasNoValue drafts.new) }
    ensures kept { OnOk result (drafts.new ≡ drafts.old) }
    ensures names { OnErr result (HasNoNames drafts.new) }
{
    match set_key(alloc, &drafts.first, &drafts.value) {
        Ok(key) => Ok(key),
        Err(refusal) => Err(refuse(alloc, drafts, refusal, Some(job))),
    }
}

/// The key of a KILL, KVALUE or KSUBSCRIPTS, which is all that is left of its line. Refusals: those of `finish_request`.
pub fn key_of_kill(
    alloc: Global,
    job: Job,
    extent: Extent,
    drafts: &mut Drafts,
) -> Result<Key, LineFault>
    requires { SpellsSome drafts.old (Sentence.Access (DataSentence.Kill extent)) }
    ensures key { (line : List ℕ) → IsAsked line drafts.old job (Sentence.Access (DataSentence.Kill extent)) → IsKeyOfKill line job extent result }
    ensures value { OnErr result (HasNoValue drafts.new) }
    ensures kept { OnOk result (drafts.new ≡ drafts.old) }
    ensures names { OnErr result (HasNoNames drafts.new) }
{
    match kill_key(alloc, &drafts.first) {
        Ok(key) => Ok(key),
        Err(refusal) => Err(refuse(alloc, drafts, refusal, Some(job))),
    }
}

/// The place of a $ORDER, which is all that is left of its line. Refusals: those of `finish_request`.
pub fn place_of_order(
    alloc: Global,
    job: Job,
    direction: Direction,
    drafts: &mut Drafts,
) -> Result<Place, LineFault>
    requires { SpellsSome drafts.old (Sentence.Access (DataSentence.Order direction)) }
    ensures place { (line : List ℕ) → IsAsked line drafts.old job (Sentence.Access (DataSentence.Order direction)) → IsPlaceOfOrder line job direction result }
    ensures value { OnErr result (HasNoValue drafts.new) }
    ensures kept { OnOk result (drafts.new ≡ drafts.old) }
    ensures names { OnErr result (HasNoNames drafts.new) }
{
    match order_place(alloc, &drafts.first, direction) {
        Ok(place) => Ok(place),
        Err(refusal) => Err(refuse(alloc, drafts, refusal, Some(job))),
    }
}

/// The job and the command of a line, which comes without its end.
///
/// The drafts may be those of other lines: what a line leaves in them serves none. A refused line leaves neither a value nor
/// lock names, and in drafts that had none an accepted one leaves none. A LOCK's timeout isn't returned.
/// Refusals, in this order: `BadLine` where the line isn't of the grammar; `BadJob` where its job isn't 1 to 4,096; then
/// the first fault of the command's references, lock names and values from left to right: `BadName`,
/// `TooManySubscripts`, `EmptySubscript`, `SubscriptTooLong`, `ValueTooLong`. And `OutOfMemory`, which may hide another,
/// only of a line that is read as far as its operands (`HasOperands`): nothing else takes memory.
/// The job that is printed stands in the fault.
pub fn read_line(
    alloc: Global,
    line: &[u8],
    drafts: &mut Drafts,
) -> Result<(Job, Command), LineFault>
    ensures reading { IsReading line.now result }
    ensures value { OnErr result (HasNoValue drafts.new) }
    ensures names { OnErr result (HasNoNames drafts.new) }
    ensures value_taken { HasNoValue drafts.old → HasNoValue drafts.new }
    ensures names_taken { HasNoNames drafts.old → HasNoNames drafts.new }
{
    match read_request(alloc, line, drafts) {
        Ok(asked) => match finish_request(alloc, asked.0, asked.1, drafts) {
            Ok(command) => Ok((asked.0, command)),
            Err(fault) => Err(fault),
        },
        Err(fault) => Err(fault),
    }
}

//! The data commands at the front of a job's lines, gathered for one hold of the engine's lock.
ghost use Rattle.std.specs.Prelude.{◌≡◌, ◌≤◌, ◌+◌, ◌∷◌, ℕ, List, [], Option, true, length, IfOk, OnOk};
ghost use Rattle.std.specs.List.{All};
ghost use Rattle.refusal.specs.declared.Refusal.{Refusal};
ghost use Rattle.script.specs.Asked.{IsAsked};
ghost use Rattle.script.specs.Sentence.{SpellsSome};
ghost use Rattle.shared_engine.specs.Holds.{IsSet};
ghost use Rattle.job_server.specs.Holding.{HasOneMore, IsAskedAt};

use crate::ServerFault;
use crate::cursor::Line;
use collation::{Job, Text};
use command::Command;
use job_scripts::{command_for, next_line, request_for};
use refusal::Refusal;
use script::{DataSentence, Drafts, Sentence, key_of_get, key_of_set};
use shared_engine::Hold;
use std::alloc::Global;
use std::mem;

// How many lines are done under one hold of the engine's lock, at most: alone, and shared with other readers.
const WRITES_PER_HOLD: usize = 256;

const READS_PER_HOLD: usize = 16;

/// How the lines of a hold are done.
#[derive(Clone, Copy, Debug, PartialEq)]
pub(crate) enum Way {
    /// Outside a transaction: nobody else does anything meanwhile.
    Lone,
    /// In a transaction, beside other readers.
    Read,
    /// SETs of a transaction, which take no lock.
    Sets,
}

/// Lines that stand in a hold: how they are done, how many of them ask to write, and the lines that follow.
#[derive(Clone, Copy, Debug)]
pub(crate) struct Front<'b> {
    pub(crate) way: Way,
    pub(crate) writes: u64,
    pub(crate) rest: &'b [&'b [u8]],
}

/// What a job's lines ask for: those in a hold, or the first of them alone, where it isn't refused.
#[derive(Drop)]
pub(crate) enum Asked<'b> {
    Many(Front<'b>),
    One(Result<Command, Refusal>),
}

impl Way {
    /// How a job's lines are done whose first asks for this, where a transaction is open or isn't.
    pub(crate) fn of(is_open: bool, first: DataSentence) -> Way
        ensures { result ≡ Way.Sets → first ≡ DataSentence.Set }
    {
        match first {
            _ if !is_open => Way::Lone,
            DataSentence::Set => Way::Sets,
            _ => Way::Read,
        }
    }

    // How many lines are done so, at most.
    fn most(self) -> usize
        ensures some { 1 ≤ result }
        ensures few { result ≤ WRITES_PER_HOLD }
    {
        match self {
            Way::Lone => WRITES_PER_HOLD,
            Way::Read | Way::Sets => READS_PER_HOLD,
        }
    }

    // Whether a line may be done so with others.
    #[inline(always)]
    fn takes(self, sentence: DataSentence) -> bool
        ensures { result ≡ true → self ≡ Way.Sets → sentence ≡ DataSentence.Set }
    {
        match sentence {
            DataSentence::Set => true,
            _ => !matches!(self, Way::Sets),
        }
    }
}

// How many writes a sentence asks for.
#[inline(always)]
fn writes_of(sentence: DataSentence) -> u64 {
    match sentence {
        DataSentence::Set | DataSentence::Kill(_) | DataSentence::Merge | DataSentence::Increment =>
            1,
        _ => 0,
    }
}

// A SET more, whose value is taken out of the drafts.
#[inline(always)]
fn push_set(alloc: Global, job: Job, drafts: &mut Drafts, hold: &mut Hold)
    requires spelled { SpellsSome drafts.old (Sentence.Access DataSentence.Set) }
    requires room { 1 ≤ hold.old.room }
    ensures counted { length hold.new.places + hold.new.room ≡ length hold.old.places + hold.old.room }
    ensures none { hold.new.served ≡ hold.old.served }
    ensures one { (line : List ℕ) → IsAsked line drafts.old job (Sentence.Access DataSentence.Set) → HasOneMore job line hold.old hold.new }
    ensures sets { All IsSet hold.old.commands → All IsSet hold.new.commands }
{
    match key_of_set(alloc, job, drafts) {
        Ok(key) => {
            let value = mem::replace(drafts.value_mut(), Text::new(alloc));
            hold.push_set(key, value);
        }
        Err(fault) => hold.push_refused(fault.refusal),
    }
}

// A $GET without a default more.
#[inline(always)]
fn push_get(alloc: Global, job: Job, drafts: &mut Drafts, hold: &mut Hold)
    requires spelled { SpellsSome drafts.old (Sentence.Access DataSentence.Get) }
    requires room { 1 ≤ hold.old.room }
    ensures counted { length hold.new.places + hold.new.room ≡ length hold.old.places + hold.old.room }
    ensures none { hold.new.served ≡ hold.old.served }
    ensures one { (line : List ℕ) → IsAsked line drafts.old job (Sentence.Access DataSentence.Get) → HasOneMore job line hold.old hold.new }
{
    match key_of_get(alloc, job, drafts) {
        Ok(key) => hold.push_get(key),
        Err(fault) => hold.push_refused(fault.refusal),
    }
}

// Another data command more.
#[inline(never)]
fn push_other(
    alloc: Global,
    job: Job,
    sentence: DataSentence,
    drafts: &mut Drafts,
    hold: &mut Hold,
) -> Result<(), ServerFault>
    requires spelled { SpellsSome drafts.old (Sentence.Access sentence) }
    requires room { 1 ≤ hold.old.room }
    ensures counted { OnOk result (length hold.new.places + hold.new.room ≡ length hold.old.places + hold.old.room) }
    ensures none { OnOk result (hold.new.served ≡ hold.old.served) }
    ensures one { OnOk result ((line : List ℕ) → IsAsked line drafts.old job (Sentence.Access sentence) → HasOneMore job line hold.old hold.new) }
{
    match command_for(alloc, job, Sentence::Access(sentence), drafts) {
        Ok(Command::Access(command)) => Ok(hold.push_other(command)?),
        Ok(command) => {
            drop(command);
            Err(ServerFault::Missing)
        }
        Err(refusal) => {
            hold.push_refused(refusal);
            Ok(())
        }
    }
}

// One line more, which is read as far as its sentence.
#[inline(always)]
fn push_asked(
    alloc: Global,
    job: Job,
    sentence: DataSentence,
    drafts: &mut Drafts,
    hold: &mut Hold,
) -> Result<(), ServerFault>
    requires spelled { SpellsSome drafts.old (Sentence.Access sentence) }
    requires room { 1 ≤ hold.old.room }
    ensures counted { OnOk result (length hold.new.places + hold.new.room ≡ length hold.old.places + hold.old.room) }
    ensures none { OnOk result (hold.new.served ≡ hold.old.served) }
    ensures one { OnOk result ((line : List ℕ) → IsAsked line drafts.old job (Sentence.Access sentence) → HasOneMore job line hold.old hold.new) }
    ensures sets { OnOk result (sentence ≡ DataSentence.Set → All IsSet hold.old.commands → All IsSet hold.new.commands) }
{
    match sentence {
        DataSentence::Set => {
            push_set(alloc, job, drafts, hold);
            Ok(())
        }
        DataSentence::Get => {
            push_get(alloc, job, drafts, hold);
            Ok(())
        }
        sentence => push_other(alloc, job, sentence, drafts, hold),
    }
}

// The refusal of the first line of a hold.
fn first_refusal(hold: &Hold) -> Option<Refusal>
    ensures { (first : Option Refusal) → hold.now.places ≡ first ∷ [] → result ≡ first }
{
    match hold.places().get(0) {
        Some(place) => *place,
        None => None,
    }
}

/// Begins a hold with a job's line, which is read as far as its sentence, and takes in those behind it: up to the line
/// that asks for something else than a data command, or that isn't done in this way, or to so many in all. Where the
/// first line is refused for its key or value, that is answered of it alone: no session begins for it.
///
/// `ServerFault::Memory` where memory for the hold is refused. A line behind the first that can't be read, also for want
/// of memory, or that is another job's, has its refusal in its place.
pub(crate) fn gather<'b>(
    alloc: Global,
    job: Job,
    line: Line<'b>,
    first: DataSentence,
    way: Way,
    drafts: &mut Drafts,
    hold: &mut Hold,
) -> Result<Asked<'b>, ServerFault>
    requires asked { IsAsked line.text.now drafts.old job (Sentence.Access first) }
    requires sets { way ≡ Way.Sets → first ≡ DataSentence.Set }
    ensures asked { IfOk result (λ asked. IsAskedAt job line.entry asked hold.new) }
    ensures few { OnOk result (length hold.new.places ≤ WRITES_PER_HOLD) }
{
    let most = way.most();
    hold.begin(alloc, most)?;
    push_asked(alloc, job, first, drafts, hold)?;
    if let Some(refusal) = first_refusal(hold) {
        return Ok(Asked::One(Err(refusal)));
    }
    let mut front = Front {
        way,
        writes: writes_of(first),
        rest: line.next.lines,
    };
    'lines: while hold.len() < most {
        let Some((text, rest)) = next_line(front.rest) else {
            break;
        };
        match request_for(alloc, job, text, drafts) {
            Ok(Sentence::Access(sentence)) if way.takes(sentence) => {
                push_asked(alloc, job, sentence, drafts, hold)?;
                front.writes = front.writes.saturating_add(writes_of(sentence));
            }
            Ok(_) => break,
            Err(refusal) => hold.push_refused(refusal),
        }
        front.rest = rest;
    }
    Ok(Asked::Many(front))
}

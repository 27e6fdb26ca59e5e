//! The jobs that are at work, for whose ends room is kept.
//!
//! A job is at work from its first command that leaves something, a unit or an open transaction, to its HALT
//! (`is_at_work` of `specs/AtWork.antt`). Room for its end is kept with its first command, whichever that is; where none
//! is had a command that would leave something is refused.
ghost use Rattle.std.specs.Prelude.{◌≡◌, ◌≢◌, ◌≤◌, ◌<◌, ℕ, true, false, None, Some, get_or, length, IfErr, OnOk, OnErr};
ghost use Rattle.std.specs.FinMap as finmap;
ghost use Rattle.refusal.specs.declared.Refusal.{Refusal};
ghost use Rattle.command.specs.Data.{data_refusal, look_refusal};
ghost use Rattle.command.specs.declared.access.Look.TheVariants.{Order};
ghost use Rattle.command.specs.declared.request.Command.TheVariants.{Halt};
ghost use Rattle.globals.specs.Answering.{IsRuleOrMemory, early_refusal};
ghost use Rattle.journal.specs.History.{initial, after};
ghost use Rattle.journal.specs.Story.{Machine};
ghost use Rattle.serial.specs.Machine.{reply_of};
ghost use Rattle.job_core.specs.AtWork.{tally, AreKept};
ghost use Rattle.job_core.specs.Joined.{IsWhole, IsStep, machine_shown};

use crate::changes::work_out;
use crate::engine::Engine;
use crate::kernel::Core;
use collation::{Direction, Job};
use command::{Command, DataCommand, Reply};
use key_codec::Place;
use refusal::Refusal;
use std::alloc::{AllocError, Global};

// Whether room is kept for the job's end.
#[inline(always)]
pub(crate) fn is_kept(ends: &Vec<bool>, job: Job) -> bool
    ensures kept { result ≡ get_or ends.now.items job false }
    ensures low { 1 ≤ job }
{
    match ends.get(job.number() as usize) {
        Some(kept) => *kept,
        None => false,
    }
}

// Adds flags that aren't set, until there is one at this number.
fn reach(ends: &mut Vec<bool>, number: usize) -> Result<(), AllocError>
    ensures count { tally ends.new.items ≡ tally ends.old.items }
    ensures same { (n : ℕ) → get_or ends.new.items n false ≡ get_or ends.old.items n false }
    ensures reached { OnOk result (number < length ends.new.items) }
{
    while ends.len() <= number {
        ends.push(false)?;
    }
    Ok(())
}

// Keeps room for the end of a job for which none is kept. Refused `OutOfMemory`; then none is.
#[inline(never)]
fn keep(ends: &mut Vec<bool>, core: &mut Core, job: Job) -> Result<(), Refusal>
    requires { get_or ends.old.items job false ≡ false }
    ensures kept { OnOk result (get_or ends.new.items job false ≡ true) }
    ensures none { OnErr result (get_or ends.new.items job false ≡ false) }
    ensures room { (s : Machine) → AreKept ends.old.items core.old.ends s → AreKept ends.new.items core.new.ends s }
    ensures core { core.new ≡ record core.old { ends = core.new.ends } }
    ensures low { 1 ≤ job }
    ensures cause { IfErr result (λ refusal. refusal ≡ Refusal.OutOfMemory) }
{
    let number = job.number() as usize;
    match reach(ends, number) {
        Ok(()) => {}
        Err(_) => return Err(Refusal::OutOfMemory),
    }
    match core.keep_end() {
        Ok(()) => {
            ends[number] = true;
            Ok(())
        }
        Err(refusal) => Err(refusal),
    }
}

/// Room for the job's end is kept from here on, if it isn't yet.
///
/// Refusals: `OutOfMemory`, where there was none; then there is none.
#[inline(always)]
pub(crate) fn begin(ends: &mut Vec<bool>, core: &mut Core, job: Job) -> Result<(), Refusal>
    ensures kept { OnOk result (get_or ends.new.items job false ≡ true) }
    ensures none { OnErr result (get_or ends.new.items job false ≡ false) }
    ensures room { (s : Machine) → AreKept ends.old.items core.old.ends s → AreKept ends.new.items core.new.ends s }
    ensures core { core.new ≡ record core.old { ends = core.new.ends } }
    ensures low { 1 ≤ job }
    ensures cause { IfErr result (λ refusal. refusal ≡ Refusal.OutOfMemory) }
{
    if is_kept(ends, job) {
        return Ok(());
    }
    keep(ends, core, job)
}

fn is_halt(command: &Command) -> bool
    ensures halts { result ≡ true → command.now ≡ Command.Halt }
    ensures goes_on { result ≡ false → command.now ≢ Command.Halt }
{
    matches!(command, Command::Halt)
}

// The HALT of a job for whose end room is kept.
fn halt(engine: &mut Engine, ends: &mut Vec<bool>, job: Job) -> Reply
    requires whole { IsWhole engine.old }
    requires kept { AreKept ends.old.items engine.old.core.ends (machine_shown engine.old) }
    requires room { get_or ends.old.items job false ≡ true }
    ensures step { IsStep job Halt result engine.old engine.new }
    ensures base { engine.new.core.base ≡ engine.old.core.base }
    ensures kept { AreKept ends.new.items engine.new.core.ends (machine_shown engine.new) }
    ensures sure { result ≡ reply_of job Halt (machine_shown engine.old) }
{
    match engine.halt_kept(job) {
        Ok(()) => {
            ends[job.number() as usize] = false;
            Reply::Finished
        }
        Err(refusal) => Reply::Refused(refusal),
    }
}

/// A step of a job for whose end room is kept.
#[inline(always)]
pub(crate) fn step_kept(
    engine: &mut Engine,
    ends: &mut Vec<bool>,
    job: Job,
    command: Command,
) -> Reply
    requires whole { IsWhole engine.old }
    requires kept { AreKept ends.old.items engine.old.core.ends (machine_shown engine.old) }
    requires room { get_or ends.old.items job false ≡ true }
    ensures step { IsStep job command result engine.old engine.new }
    ensures base { engine.new.core.base ≡ engine.old.core.base }
    ensures kept { AreKept ends.new.items engine.new.core.ends (machine_shown engine.new) }
    ensures sure { command ≡ Halt → result ≡ reply_of job Halt (machine_shown engine.old) }
{
    if is_halt(&command) {
        drop(command);
        return halt(engine, ends, job);
    }
    engine.step(job, command)
}

// Why a data command of a job outside a transaction is refused that has no room for its end.
fn refusal_of(alloc: Global, core: &Core, command: &DataCommand) -> Refusal
    ensures early { (refusal : Refusal) → early_refusal command.now ≡ Some refusal → result ≡ refusal }
    ensures cause { IsRuleOrMemory result (data_refusal command.now (after core.now.units initial).map) }
{
    match work_out(alloc, &core.content(), command) {
        Ok(told) => {
            drop(told);
            Refusal::OutOfMemory
        }
        Err(refusal) => refusal,
    }
}

/// The same of a $ORDER, of which the place is lent.
pub(crate) fn order_refusal(
    alloc: Global,
    core: &Core,
    place: &Place,
    direction: Direction,
) -> Refusal
    ensures early { (refusal : Refusal) → look_refusal (Order place.now direction) ≡ Some refusal → result ≡ refusal }
    ensures cause { IsRuleOrMemory result (look_refusal (Order place.now direction)) }
{
    match globals::order(alloc, &core.content(), place, direction) {
        Ok(told) => {
            drop(told);
            Refusal::OutOfMemory
        }
        Err(refusal) => refusal,
    }
}

// What a step of a job is replied that has no room for its end. Nothing changes.
fn reply_without(engine: &Engine, job: Job, command: &Command) -> Reply
    requires whole { IsWhole engine.now }
    requires none { finmap.get engine.now.sessions job ≡ None }
    ensures { IsStep job command.now result engine.now engine.now }
{
    match command {
        Command::Access(command) => {
            Reply::Refused(refusal_of(engine.alloc, &engine.core, command))
        }
        Command::Lock(_) => Reply::Refused(Refusal::OutOfMemory),
        Command::Start => Reply::Refused(Refusal::OutOfMemory),
        Command::Commit => Reply::Refused(Refusal::NoTransaction),
        Command::Rollback => Reply::Refused(Refusal::NoTransaction),
        Command::Restart => Reply::Refused(Refusal::NoTransaction),
        Command::Level => engine.level(job),
        Command::Restarts => engine.restarts(job),
        Command::Halt => Reply::Refused(Refusal::OutOfMemory),
    }
}

/// A step of a job for whose end no room is kept: it is, unless the step is a HALT.
#[inline(never)]
pub(crate) fn step_first(
    engine: &mut Engine,
    ends: &mut Vec<bool>,
    job: Job,
    command: Command,
) -> Reply
    requires whole { IsWhole engine.old }
    requires kept { AreKept ends.old.items engine.old.core.ends (machine_shown engine.old) }
    requires none { get_or ends.old.items job false ≡ false }
    ensures step { IsStep job command result engine.old engine.new }
    ensures base { engine.new.core.base ≡ engine.old.core.base }
    ensures kept { AreKept ends.new.items engine.new.core.ends (machine_shown engine.new) }
{
    if is_halt(&command) {
        return engine.step(job, command);
    }
    match keep(ends, &mut engine.core, job) {
        Ok(()) => engine.step(job, command),
        Err(_) => {
            let reply = reply_without(engine, job, &command);
            drop(command);
            reply
        }
    }
}

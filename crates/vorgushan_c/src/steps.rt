//! What C calls on an engine alone: LOCK without names, the commands of transactions, and a job's level and restarts. Each of them is declared in
//! `include/vorgushan.h`, with its meaning for a C programmer.
ghost use Rattle.std.specs.Prelude.{◌≡◌};
ghost use Rattle.typed_calls.specs.Looks.{IsNumberLook};
ghost use Rattle.typed_calls.specs.Typed.{IsJobCause, IsNumberCall};
ghost use Rattle.vorgushan_c.specs.Exports.{IsCalled};

use crate::handle::VgEngine;
use command::Command;
use embedded::Outcome;
use lock_name::LockCommand;
use std::alloc::Global;
use typed_calls::{level, restarts, run_numbered};

// Does a command of a job, and tells its reply's number.
fn step(alloc: Global, engine: &mut VgEngine, job: u64, command: Command, number: &mut u64) -> u32
    ensures { IsCalled engine.old.inside engine.new.inside result (number.new ≡ number.old) (λ before after outcome.
        IsNumberCall (λ refusal. IsJobCause job refusal) job command before after outcome number.new) }
{
    let Some(mut there) = engine.take(alloc) else {
        drop(command);
        return Outcome::NoEngine.number();
    };
    let outcome = run_numbered(&mut there, job, command, number);
    engine.put(there);
    outcome.number()
}

/// LOCK without names: all names of a job are released. Tells 0.
///
/// Outcomes: as of `typed_calls::run_numbered`; `NoEngine`, and nothing has changed.
#[unsafe(no_mangle)]
pub extern "C" fn vorgushan_unlock(
    alloc: Global,
    engine: &mut VgEngine,
    job: u64,
    number: &mut u64,
) -> u32
    ensures { IsCalled engine.old.inside engine.new.inside result (number.new ≡ number.old) (λ before after outcome.
        IsNumberCall (λ refusal. IsJobCause job refusal) job (Command.Lock LockCommand.Release) before after outcome number.new) }
{
    step(
        alloc,
        engine,
        job,
        Command::Lock(LockCommand::Release),
        number,
    )
}

/// TSTART: opens a transaction of a job, or raises its level, and tells the level.
///
/// Outcomes: as of `typed_calls::run_numbered`; `NoEngine`, and nothing has changed.
#[unsafe(no_mangle)]
pub extern "C" fn vorgushan_tstart(
    alloc: Global,
    engine: &mut VgEngine,
    job: u64,
    number: &mut u64,
) -> u32
    ensures { IsCalled engine.old.inside engine.new.inside result (number.new ≡ number.old) (λ before after outcome.
        IsNumberCall (λ refusal. IsJobCause job refusal) job Command.Start before after outcome number.new) }
{
    step(alloc, engine, job, Command::Start, number)
}

/// TCOMMIT: commits, and tells 0; above level 1 it lowers the level, and tells that; or `Restarted`, where another job
/// was quicker, and tells how often the transaction was restarted.
///
/// Outcomes: as of `typed_calls::run_numbered`; `NoEngine`, and nothing has changed.
#[unsafe(no_mangle)]
pub extern "C" fn vorgushan_tcommit(
    alloc: Global,
    engine: &mut VgEngine,
    job: u64,
    number: &mut u64,
) -> u32
    ensures { IsCalled engine.old.inside engine.new.inside result (number.new ≡ number.old) (λ before after outcome.
        IsNumberCall (λ refusal. IsJobCause job refusal) job Command.Commit before after outcome number.new) }
{
    step(alloc, engine, job, Command::Commit, number)
}

/// TROLLBACK: drops what was done since the start, and ends the transaction. Tells 0.
///
/// Outcomes: as of `typed_calls::run_numbered`; `NoEngine`, and nothing has changed.
#[unsafe(no_mangle)]
pub extern "C" fn vorgushan_trollback(
    alloc: Global,
    engine: &mut VgEngine,
    job: u64,
    number: &mut u64,
) -> u32
    ensures { IsCalled engine.old.inside engine.new.inside result (number.new ≡ number.old) (λ before after outcome.
        IsNumberCall (λ refusal. IsJobCause job refusal) job Command.Rollback before after outcome number.new) }
{
    step(alloc, engine, job, Command::Rollback, number)
}

/// TRESTART: drops what was done since the start, and begins anew: `Restarted`, and how often that was.
///
/// Outcomes: as of `typed_calls::run_numbered`; `NoEngine`, and nothing has changed.
#[unsafe(no_mangle)]
pub extern "C" fn vorgushan_trestart(
    alloc: Global,
    engine: &mut VgEngine,
    job: u64,
    number: &mut u64,
) -> u32
    ensures { IsCalled engine.old.inside engine.new.inside result (number.new ≡ number.old) (λ before after outcome.
        IsNumberCall (λ refusal. IsJobCause job refusal) job Command.Restart before after outcome number.new) }
{
    step(alloc, engine, job, Command::Restart, number)
}

/// HALT: ends a job; its transaction is dropped, and its names are released. Tells 0.
///
/// Outcomes: as of `typed_calls::run_numbered`; `NoEngine`, and nothing has changed.
#[unsafe(no_mangle)]
pub extern "C" fn vorgushan_halt(
    alloc: Global,
    engine: &mut VgEngine,
    job: u64,
    number: &mut u64,
) -> u32
    ensures { IsCalled engine.old.inside engine.new.inside result (number.new ≡ number.old) (λ before after outcome.
        IsNumberCall (λ refusal. IsJobCause job refusal) job Command.Halt before after outcome number.new) }
{
    step(alloc, engine, job, Command::Halt, number)
}

/// $TLEVEL: tells how deep a job's transaction is, 0 where it has none; it is no command.
///
/// Outcomes: as of `typed_calls::level`; `NoEngine`.
#[unsafe(no_mangle)]
pub extern "C" fn vorgushan_tlevel(
    alloc: Global,
    engine: &mut VgEngine,
    job: u64,
    number: &mut u64,
) -> u32
    ensures { IsCalled engine.old.inside engine.new.inside result (number.new ≡ number.old) (λ before after outcome.
        IsNumberLook job Command.Level before after outcome number.new) }
{
    let Some(mut there) = engine.take(alloc) else {
        return Outcome::NoEngine.number();
    };
    let outcome = level(&mut there, job, number);
    engine.put(there);
    outcome.number()
}

/// $TRESTART: tells how often a job's transaction was restarted, 0 where it has none; it is no command.
///
/// Outcomes: as of `typed_calls::restarts`; `NoEngine`.
#[unsafe(no_mangle)]
pub extern "C" fn vorgushan_trestarts(
    alloc: Global,
    engine: &mut VgEngine,
    job: u64,
    number: &mut u64,
) -> u32
    ensures { IsCalled engine.old.inside engine.new.inside result (number.new ≡ number.old) (λ before after outcome.
        IsNumberLook job Command.Restarts before after outcome number.new) }
{
    let Some(mut there) = engine.take(alloc) else {
        return Outcome::NoEngine.number();
    };
    let outcome = restarts(&mut there, job, number);
    engine.put(there);
    outcome.number()
}

//! The LOCKs of open transactions, which are done once more at the commit.
ghost use Rattle.std.specs.Prelude.{◌≡◌, ◌++◌, ◌∷◌, [], OnErr, OnOk};
ghost use Rattle.std.specs.List.{flat_map};
ghost use Rattle.journal_lines.specs.Journals as lines;

use crate::step::{push_lock, push_word};
use collation::Job;
use lock_name::LockCommand;
use std::alloc::AllocError;
use std::marker::Model;

// A LOCK inside a transaction that is open: its job, and what of it is done once more at the commit.
#[derive(Drop)]
pub(crate) struct Pending {
    job: Job,
    kept: Option<LockCommand>,
}

impl Model for Pending {
    ghost use Rattle.std.specs.Prelude.{ℕ, Option};
    ghost use Rattle.lock_name.specs.declared.lock.LockCommand.{LockCommand};

    ghost Value = { ℕ × Option LockCommand };

    ghost view = { λ p. (p.job, p.kept) };
}

// What a LOCK has changed of what its job wants.
fn kept_of(had: bool, command: LockCommand) -> Option<LockCommand>
    ensures { result ≡ lines.kept_of had command }
{
    if had {
        return Some(command);
    }
    match command {
        LockCommand::Release => Some(LockCommand::Release),
        LockCommand::Only(_) => Some(LockCommand::Release),
        LockCommand::More(_) => None,
        LockCommand::Fewer(names) => Some(LockCommand::Fewer(names)),
    }
}

// One LOCK more is pending.
pub(crate) fn push_pending(
    job: Job,
    had: bool,
    command: LockCommand,
    pending: &mut Vec<Pending>,
) -> Result<(), AllocError>
    ensures pushed { OnOk result (pending.new.items ≡ pending.old.items ++ (job, lines.kept_of had command) ∷ []) }
    ensures kept { OnErr result (pending.new.items ≡ pending.old.items) }
{
    let kept = kept_of(had, command);
    pending.push(Pending { job, kept })?;
    Ok(())
}

// The job's transaction has ended.
pub(crate) fn drop_pending(job: Job, pending: &mut Vec<Pending>)
    ensures { pending.new.items ≡ lines.pending_of_others job pending.old.items }
{
    pending.retain(|lock| lock.job != job);
}

fn has_pending(job: Job, pending: &[Pending]) -> bool
    ensures { result ≡ lines.has_pending job pending.now }
{
    pending.iter().any(|lock| lock.job == job)
}

// The line of a LOCK once more, where it is the job's.
fn push_one_again(job: Job, lock: &Pending, out: &mut Vec<u8>) -> Result<(), AllocError>
    ensures { OnOk result (out.new.items ≡ out.old.items ++ lines.lines_of (lines.again_steps job lock.now)) }
{
    match &lock.kept {
        Some(command) => {
            if lock.job == job {
                push_lock(job, command, out)
            } else {
                Ok(())
            }
        }
        None => Ok(()),
    }
}

fn push_again(job: Job, pending: &[Pending], out: &mut Vec<u8>) -> Result<(), AllocError>
    ensures { OnOk result (out.new.items ≡ out.old.items ++ lines.lines_of (flat_map (lines.again_steps job) pending.now)) }
{
    'locks: for lock in pending {
        push_one_again(job, lock, out)?;
    }
    Ok(())
}

// The lines before a LOCK inside a transaction.
pub(crate) fn push_opening(
    job: Job,
    pending: &[Pending],
    out: &mut Vec<u8>,
) -> Result<(), AllocError>
    ensures { OnOk result (out.new.items ≡ out.old.items ++ lines.lines_of (lines.opening_steps job pending.now)) }
{
    if !has_pending(job, pending) {
        return push_word(job, b"TSTART", out);
    }
    Ok(())
}

// The lines with which a transaction begins at its commit.
pub(crate) fn push_beginning(
    job: Job,
    pending: &[Pending],
    out: &mut Vec<u8>,
) -> Result<(), AllocError>
    ensures { OnOk result (out.new.items ≡ out.old.items ++ lines.lines_of (lines.beginning_steps job pending.now)) }
{
    if has_pending(job, pending) {
        push_word(job, b"TRESTART", out)?;
        push_again(job, pending, out)
    } else {
        push_word(job, b"TSTART", out)
    }
}

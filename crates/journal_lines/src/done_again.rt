//! The lines of one unit.
ghost use Rattle.std.specs.Prelude.{◌≡◌, ◌++◌, ◌∷◌, [], OnErr, OnOk, map};
ghost use Rattle.command.specs.declared.request.Command.TheVariants.{Access, Lock as lock_command};
ghost use Rattle.journal.specs.declared.unit.Unit.TheVariants.{Whole, Lock};
ghost use Rattle.journal_lines.specs.Journals as lines;

use crate::pending::{Pending, drop_pending, push_beginning, push_opening, push_pending};
use crate::step::{push_access, push_lock, push_word};
use collation::Job;
use journal::{Exchange, Unit};
use lock_name::LockCommand;
use std::alloc::AllocError;

fn push_exchanges(job: Job, exchanges: &[Exchange], out: &mut Vec<u8>) -> Result<(), AllocError>
    ensures { OnOk result (out.new.items ≡ out.old.items ++ lines.lines_of (map (λ e. (job, Access e.command)) exchanges.now)) }
{
    'exchanges: for exchange in exchanges {
        push_access(job, &exchange.command, out)?;
    }
    Ok(())
}

fn push_whole(
    job: Job,
    exchanges: &[Exchange],
    pending: &[Pending],
    out: &mut Vec<u8>,
) -> Result<(), AllocError>
    ensures { OnOk result (out.new.items ≡ out.old.items ++ lines.lines_of (lines.unit_steps (Whole job exchanges.now) pending.now)) }
{
    push_beginning(job, pending, out)?;
    push_exchanges(job, exchanges, out)?;
    push_word(job, b"TCOMMIT", out)
}

fn push_inside(
    job: Job,
    command: &LockCommand,
    pending: &[Pending],
    out: &mut Vec<u8>,
) -> Result<(), AllocError>
    ensures { OnOk result (out.new.items ≡ out.old.items ++ lines.lines_of (lines.opening_steps job pending.now ++ (job, lock_command command.now) ∷ [])) }
{
    push_opening(job, pending, out)?;
    push_lock(job, command, out)
}

// The lines of a unit, where these LOCKs are pending.
pub(crate) fn push_unit(
    unit: &Unit,
    pending: &[Pending],
    out: &mut Vec<u8>,
) -> Result<(), AllocError>
    ensures { OnOk result (out.new.items ≡ out.old.items ++ lines.lines_of (lines.unit_steps unit.now pending.now)) }
{
    match unit {
        Unit::Lone(job, command, _) => push_access(*job, command, out),
        Unit::Whole(job, exchanges) => push_whole(*job, exchanges.as_slice(), pending, out),
        Unit::Lock(job, true, command, _) => push_inside(*job, command, pending, out),
        Unit::Lock(job, false, command, _) => push_lock(*job, command, out),
        Unit::Back(job) => push_word(*job, b"TROLLBACK", out),
        Unit::End(job) => push_word(*job, b"HALT", out),
    }
}

// Notes a LOCK that was done.
fn note_lock(
    job: Job,
    inside: bool,
    command: LockCommand,
    had: bool,
    pending: &mut Vec<Pending>,
) -> Result<(), AllocError>
    ensures noted { OnOk result (pending.new.items ≡ lines.still_pending (Lock job inside command had) pending.old.items) }
    ensures kept { OnErr result (pending.new.items ≡ pending.old.items) }
{
    if inside {
        push_pending(job, had, command, pending)
    } else {
        drop(command);
        Ok(())
    }
}

// Notes which LOCKs are pending after a unit.
pub(crate) fn note_unit(unit: Unit, pending: &mut Vec<Pending>) -> Result<(), AllocError>
    ensures noted { OnOk result (pending.new.items ≡ lines.still_pending unit pending.old.items) }
    ensures kept { OnErr result (pending.new.items ≡ pending.old.items) }
{
    match unit {
        Unit::Lone(_job, command, answer) => {
            drop(command);
            drop(answer);
            Ok(())
        }
        Unit::Whole(job, exchanges) => {
            drop(exchanges);
            drop_pending(job, pending);
            Ok(())
        }
        Unit::Lock(job, inside, command, had) => note_lock(job, inside, command, had, pending),
        Unit::Back(job) => {
            drop_pending(job, pending);
            Ok(())
        }
        Unit::End(job) => {
            drop_pending(job, pending);
            Ok(())
        }
    }
}

/// Writes the lines of a unit that was read back, and notes which LOCKs are pending after it.
pub(crate) fn do_again(
    read: Result<Unit, AllocError>,
    pending: &mut Vec<Pending>,
    out: &mut Vec<u8>,
) -> Result<(), AllocError>
    ensures { OnOk result (lines.HasLines read pending.old.items pending.new.items out.old.items out.new.items) }
{
    match read {
        Ok(unit) => {
            let pushed = push_unit(&unit, pending, out);
            match pushed {
                Ok(()) => note_unit(unit, pending),
                Err(refused) => {
                    drop(unit);
                    Err(refused)
                }
            }
        }
        Err(refused) => Err(refused),
    }
}

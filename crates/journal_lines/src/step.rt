//! Steps as text, and as lines.
ghost use Rattle.std.specs.Prelude.{◌≡◌, ◌++◌, ◌∷◌, [], decimal, OnOk, OnErr};
ghost use Rattle.collation.specs.Bytes as byte;
ghost use Rattle.command.specs.declared.request.Command.TheVariants.{Access, Lock};
ghost use Rattle.key_codec.specs.Grown.{GoesOnFrom};
ghost use Rattle.journal_lines.specs.Steps as steps;
ghost use Rattle.journal_lines.specs.Journals.{step_line};

use crate::access::write_access;
use crate::locking::write_lock;
use collation::Job;
use command::{Command, DataCommand};
use itoa::Buffer;
use lock_name::LockCommand;
use std::alloc::AllocError;

// The job and a blank.
fn write_job(job: Job, out: &mut Vec<u8>) -> Result<(), AllocError>
    ensures ok { OnOk result (out.new.items ≡ out.old.items ++ (decimal job ++ byte.blank ∷ [])) }
    ensures kept { GoesOnFrom out.old.items out.new.items }
{
    let mut buffer = Buffer::new();
    out.extend_from_slice(buffer.format(job.number()).as_bytes())?;
    out.push(b' ')?;
    Ok(())
}

fn write_command(command: &Command, out: &mut Vec<u8>) -> Result<(), AllocError>
    ensures ok { OnOk result (out.new.items ≡ out.old.items ++ steps.command_text command.now) }
    ensures kept { GoesOnFrom out.old.items out.new.items }
{
    match command {
        Command::Access(command) => write_access(command, out),
        Command::Lock(command) => write_lock(command, out),
        Command::Start => out.extend_from_slice(b"TSTART"),
        Command::Commit => out.extend_from_slice(b"TCOMMIT"),
        Command::Rollback => out.extend_from_slice(b"TROLLBACK"),
        Command::Restart => out.extend_from_slice(b"TRESTART"),
        Command::Level => out.extend_from_slice(b"$TLEVEL"),
        Command::Restarts => out.extend_from_slice(b"$TRESTART"),
        Command::Halt => out.extend_from_slice(b"HALT"),
    }
}

fn push_step(job: Job, command: &Command, out: &mut Vec<u8>) -> Result<(), AllocError>
    ensures ok { OnOk result (out.new.items ≡ out.old.items ++ steps.step_text job command.now) }
    ensures kept { GoesOnFrom out.old.items out.new.items }
{
    write_job(job, out)?;
    write_command(command, out)
}

/// Writes a step at the end of `out` as a line of a script, without its end: the job, a blank, and the command in
/// capitals, in the one way in which it is written. A script reads it as just this step, where the command has no
/// fault: `steps_are_read_again`.
///
/// A LOCK with no names in its list, which no line asks for, is written without any, and is not read again. Where
/// memory is refused `out` is as it was.
#[tactic(auto, using(key_codec::specs::laws::Grown::back_to))]
pub fn write_step(job: Job, command: &Command, out: &mut Vec<u8>) -> Result<(), AllocError>
    ensures ok { OnOk result (out.new.items ≡ out.old.items ++ steps.step_text job command.now) }
    ensures err { OnErr result (out.new.items ≡ out.old.items) }
{
    let before = out.len();
    match push_step(job, command, out) {
        Ok(()) => Ok(()),
        Err(error) => {
            out.truncate(before);
            Err(error)
        }
    }
}

// The line of a data command.
pub(crate) fn push_access(
    job: Job,
    command: &DataCommand,
    out: &mut Vec<u8>,
) -> Result<(), AllocError>
    ensures { OnOk result (out.new.items ≡ out.old.items ++ step_line (job, Access command.now)) }
{
    write_job(job, out)?;
    write_access(command, out)?;
    out.push(b'\n')?;
    Ok(())
}

// The line of a LOCK.
pub(crate) fn push_lock(
    job: Job,
    command: &LockCommand,
    out: &mut Vec<u8>,
) -> Result<(), AllocError>
    ensures { OnOk result (out.new.items ≡ out.old.items ++ step_line (job, Lock command.now)) }
{
    write_job(job, out)?;
    write_lock(command, out)?;
    out.push(b'\n')?;
    Ok(())
}

// The line of a command that is its word alone.
pub(crate) fn push_word(job: Job, word: &[u8], out: &mut Vec<u8>) -> Result<(), AllocError>
    ensures { OnOk result (out.new.items ≡ out.old.items ++ ((decimal job ++ byte.blank ∷ word.now) ++ byte.line_feed ∷ [])) }
{
    write_job(job, out)?;
    out.extend_from_slice(word)?;
    out.push(b'\n')?;
    Ok(())
}

//! LOCK as text.
ghost use Rattle.std.specs.Prelude.{◌≡◌, ◌++◌, ◌∷◌, [], OnOk};
ghost use Rattle.std.specs.List.{flat_map};
ghost use Rattle.collation.specs.Bytes as byte;
ghost use Rattle.key_codec.specs.Grown.{GoesOnFrom};
ghost use Rattle.m_text.specs.Written.{parted};
ghost use Rattle.journal_lines.specs.Steps as steps;

use lock_name::{LockCommand, LockName, LockNames};
use m_text::{write_key, write_named};
use std::alloc::AllocError;

fn write_name(name: &LockName, out: &mut Vec<u8>) -> Result<(), AllocError>
    ensures ok { OnOk result (out.new.items ≡ out.old.items ++ steps.name_text name.now) }
    ensures kept { GoesOnFrom out.old.items out.new.items }
{
    if name.has_caret() {
        write_key(name.key(), out)
    } else {
        write_named(name.key(), out)
    }
}

fn write_more_names(names: &[LockName], out: &mut Vec<u8>) -> Result<(), AllocError>
    ensures ok { OnOk result (out.new.items ≡ out.old.items ++ flat_map (λ n. byte.comma ∷ steps.name_text n) names.now) }
    ensures kept { GoesOnFrom out.old.items out.new.items }
{
    'names: for name in names {
        out.push(b',')?;
        write_name(name, out)?;
    }
    Ok(())
}

// Names in parentheses.
fn write_listed(first: &LockName, rest: &[LockName], out: &mut Vec<u8>) -> Result<(), AllocError>
    ensures ok { OnOk result (out.new.items ≡ out.old.items ++ (byte.opening ∷ (parted byte.comma steps.name_text (first.now ∷ rest.now) ++ byte.closing ∷ []))) }
    ensures kept { GoesOnFrom out.old.items out.new.items }
{
    out.push(b'(')?;
    write_name(first, out)?;
    write_more_names(rest, out)?;
    out.push(b')')?;
    Ok(())
}

fn write_names(names: &[LockName], out: &mut Vec<u8>) -> Result<(), AllocError>
    ensures ok { OnOk result (out.new.items ≡ out.old.items ++ steps.names_text names.now) }
    ensures kept { GoesOnFrom out.old.items out.new.items }
{
    match names {
        [] => Ok(()),
        [first, rest @ ..] => {
            if rest.is_empty() {
                write_name(first, out)
            } else {
                write_listed(first, rest, out)
            }
        }
    }
}

// The word, a blank and a sign, and the names.
fn write_signed(front: &[u8], names: &LockNames, out: &mut Vec<u8>) -> Result<(), AllocError>
    ensures ok { OnOk result (out.new.items ≡ out.old.items ++ (front.now ++ steps.names_text names.now)) }
    ensures kept { GoesOnFrom out.old.items out.new.items }
{
    out.extend_from_slice(front)?;
    write_names(names.as_slice(), out)
}

/// Writes a LOCK at the end of `out`, as `lock_text`: without a job in front, and without a timeout.
///
/// `AllocError` where memory is refused: what stood there stands there still, and a part of the LOCK may behind it.
pub fn write_lock(command: &LockCommand, out: &mut Vec<u8>) -> Result<(), AllocError>
    ensures ok { OnOk result (out.new.items ≡ out.old.items ++ steps.lock_text command.now) }
    ensures kept { GoesOnFrom out.old.items out.new.items }
{
    match command {
        LockCommand::Release => out.extend_from_slice(b"LOCK"),
        LockCommand::Only(names) => write_signed(b"LOCK ", names, out),
        LockCommand::More(names) => write_signed(b"LOCK +", names, out),
        LockCommand::Fewer(names) => write_signed(b"LOCK -", names, out),
    }
}

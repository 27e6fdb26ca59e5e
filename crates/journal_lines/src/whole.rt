//! A whole journal as a script.
ghost use Rattle.std.specs.Prelude.{◌≡◌, ◌<◌, ◌++◌, [], length, OnOk, OnErr, IsErrOf};
ghost use Rattle.std.specs.Io.KnownBytes.{Appends};
ghost use Rattle.listing.specs.Bytes.{WritesBeginning, WritesFront, IsOneMore};
ghost use Rattle.journal_lines.specs.Journals.{dropped, steps_from, lines_of, journal_text};

use crate::done_again::do_again;
use crate::pending::Pending;
use journal::{Journal, Units};
use listing::{Counted, WriteFault};
use std::alloc::{AllocError, Global};
use std::io::Write;
use thiserror::Error;

/// Why a journal wasn't written whole. What was written is a beginning of its text.
#[derive(Clone, Copy, Debug, PartialEq, Eq, Error)]
pub enum JournalFault {
    /// A call of the writer failed, or took no byte.
    #[error("a write failed")]
    Write,
    /// Memory was refused.
    #[error("out of memory")]
    Memory,
    /// Its first units were let go by a checkpoint, or a database was taken over in their place. Nothing was written.
    #[error("its beginning was let go")]
    LetGo,
}

// The lines of units, where these LOCKs are pending; what is left of them stands in `out`.
fn write_units<W: Write>(
    units: Units<'_>,
    pending: &mut Vec<Pending>,
    out: &mut Vec<u8>,
    writer: &mut Counted<W>,
) -> Result<(), JournalFault>
    ensures ok { OnOk result (WritesFront (W.contents writer.old.inner) (W.contents writer.new.inner) (out.old.items ++ lines_of (steps_from pending.old.items units.entry)) out.new.items) }
    ensures err { OnErr result (WritesBeginning (W.contents writer.old.inner) (W.contents writer.new.inner) (out.old.items ++ lines_of (steps_from pending.old.items units.entry))) }
    ensures counted { IsErrOf result JournalFault.Write → IsOneMore writer.old.failures writer.new.failures }
    ensures kept { OnOk result (writer.new.failures ≡ writer.old.failures) }
    ensures memory { IsErrOf result JournalFault.Memory → writer.new.failures ≡ writer.old.failures }
    ensures told { IsErrOf result JournalFault.LetGo → ⊥ }
{
    'units: for read in units {
        do_again(read, pending, out)?;
        writer.write_full(out)?;
    }
    Ok(())
}

/// Writes a journal as a script that does all its units again, a line a step: `journal_text` of its units.
///
/// After a fault a beginning of it was written: `LetGo` just where the journal doesn't keep its first units, and then
/// nothing was written; `Write` only where a call of the writer failed; else `Memory`, where memory was refused.
pub fn write_journal<W: Write>(
    alloc: Global,
    journal: &Journal,
    writer: &mut Counted<W>,
) -> Result<(), JournalFault>
    ensures ok { OnOk result (Appends (W.contents writer.old.inner) (W.contents writer.new.inner) (journal_text journal.now.units)) }
    ensures err { OnErr result (WritesBeginning (W.contents writer.old.inner) (W.contents writer.new.inner) (journal_text journal.now.units)) }
    ensures whole { 0 < length (dropped journal.now) → IsErrOf result JournalFault.LetGo }
    ensures let_go { IsErrOf result JournalFault.LetGo → (0 < length (dropped journal.now)) × (writer.new.inner ≡ writer.old.inner) }
    ensures counted { IsErrOf result JournalFault.Write → IsOneMore writer.old.failures writer.new.failures }
    ensures kept { OnOk result (writer.new.failures ≡ writer.old.failures) }
    ensures memory { IsErrOf result JournalFault.Memory → writer.new.failures ≡ writer.old.failures }
{
    if journal.base().number() > 0 {
        return Err(JournalFault::LetGo);
    }
    let mut pending = Vec::new(alloc);
    let mut out = Vec::new(alloc);
    write_units(journal.units(), &mut pending, &mut out, writer)?;
    writer.write_gathered(&mut out)?;
    Ok(())
}

impl From<AllocError> for JournalFault {
    ghost use Rattle.std.specs.Prelude.{◌≡◌};
    ghost use Rattle.journal_lines.specs.declared.whole.JournalFault.{JournalFault};

    ghost from_gives = { λ _ fault. fault ≡ JournalFault.Memory };

    fn from(_: AllocError) -> JournalFault {
        JournalFault::Memory
    }
}

impl From<WriteFault> for JournalFault {
    ghost use Rattle.std.specs.Prelude.{◌≡◌};
    ghost use Rattle.journal_lines.specs.declared.whole.JournalFault.{JournalFault};

    ghost from_gives = { λ _ fault. fault ≡ JournalFault.Write };

    fn from(_: WriteFault) -> JournalFault {
        JournalFault::Write
    }
}

//! A line, its reply's text, and what is due after it.
ghost use Rattle.std.specs.Prelude.{◌≡◌, ◌⊎◌, ◌<◌, ◌∷◌, [], length, OnOk, OnErr, IsErrOf};
ghost use Rattle.listing.specs.declared.counted.TheConstants.{GATHERED_BYTES};
ghost use Rattle.listing.specs.Bytes.{IsOneMore, WritesBeginning};
ghost use Rattle.script_run.specs.Lines.{nonempty_line};
ghost use Rattle.script_run.specs.Runs.{Ran, Broke, Stopped};

use crate::gathering::gather_line;
use crate::open_jobs::OpenJobs;
use crate::upkeep::{Due, keep_up};
use crate::{Outcome, RunLog};
use job_core::JobCore;
use listing::{Counted, ListingFault, WriteFault};
use script::Drafts;
use std::alloc::Global;
use std::io::Write;

/// A script that runs.
#[derive(Drop)]
pub struct Script {
    /// The machine.
    pub core: JobCore,
    /// The jobs whose sessions are open.
    pub jobs: OpenJobs,
    /// The references of the line that is read.
    pub drafts: Drafts,
    /// The text that is gathered and not yet written.
    pub out: Vec<u8>,
    /// How it went so far.
    pub outcome: Outcome,
    /// How many lines came, empty ones too, up to 2^64 - 1: the number of the line that is done, for the log.
    pub lines: u64,
    /// When the collector passes and a checkpoint is taken next.
    pub due: Due,
}

// The reply is gathered, and what is gathered written once it is enough. Then come the collector's pass and a
// checkpoint, where they are due.
fn run_line<W: Write>(
    alloc: Global,
    script: &mut Script,
    line: &[u8],
    writer: &mut Counted<W>,
    log: &mut impl RunLog,
) -> Result<(), ListingFault>
    ensures ran { OnOk result (Ran (line.now ∷ []) script.old script.new (W.contents writer.old.inner) (W.contents writer.new.inner)) }
    ensures few { OnOk result (length script.new.out.items < GATHERED_BYTES) }
    ensures err { OnErr result (Broke (line.now ∷ []) script.old (W.contents writer.old.inner) (W.contents writer.new.inner)) }
    ensures kept { OnOk result (writer.new.failures ≡ writer.old.failures) }
    ensures counted { IsErrOf result ListingFault.Write → IsOneMore writer.old.failures writer.new.failures }
    ensures memory { IsErrOf result ListingFault.Memory → writer.new.failures ≡ writer.old.failures }
    ensures stopped { IsErrOf result ListingFault.Memory → Stopped (line.now ∷ []) script.old script.new (W.contents writer.old.inner) (W.contents writer.new.inner) }
{
    gather_line(alloc, script, line, log)?;
    writer.write_full(&mut script.out)?;
    keep_up(&mut script.due, &mut script.core);
    Ok(())
}

// A line without its end. An empty one is counted and passed over. No more stays gathered than is few enough.
pub(crate) fn run_counted<W: Write>(
    alloc: Global,
    script: &mut Script,
    line: &[u8],
    writer: &mut Counted<W>,
    log: &mut impl RunLog,
) -> Result<(), ListingFault>
    ensures ran { OnOk result (Ran (nonempty_line line.now) script.old script.new (W.contents writer.old.inner) (W.contents writer.new.inner)) }
    ensures few { length script.old.out.items < GATHERED_BYTES → OnOk result (length script.new.out.items < GATHERED_BYTES) }
    ensures err { OnErr result (Broke (nonempty_line line.now) script.old (W.contents writer.old.inner) (W.contents writer.new.inner)) }
    ensures counts { OnOk result (writer.new.failures ≡ writer.old.failures) }
    ensures counted { IsErrOf result ListingFault.Write → IsOneMore writer.old.failures writer.new.failures }
    ensures memory { IsErrOf result ListingFault.Memory → writer.new.failures ≡ writer.old.failures }
    ensures stopped { IsErrOf result ListingFault.Memory → Stopped (nonempty_line line.now) script.old script.new (W.contents writer.old.inner) (W.contents writer.new.inner) }
{
    script.lines = script.lines.saturating_add(1);
    match line {
        [] => Ok(()),
        [_, ..] => run_line(alloc, script, line, writer, log),
    }
}

// All that is gathered is written, and the log is shown the core.
fn show<W: Write>(
    script: &mut Script,
    writer: &mut Counted<W>,
    log: &mut impl RunLog,
) -> Result<(), WriteFault>
    ensures ran { OnOk result (Ran [] script.old script.new (W.contents writer.old.inner) (W.contents writer.new.inner)) }
    ensures empty { OnOk result (script.new.out.items ≡ []) }
    ensures err { OnErr result (WritesBeginning (W.contents writer.old.inner) (W.contents writer.new.inner) script.old.out.items) }
    ensures kept { OnOk result (writer.new.failures ≡ writer.old.failures) }
    ensures counted { OnErr result (IsOneMore writer.old.failures writer.new.failures) }
{
    writer.write_gathered(&mut script.out)?;
    log.shown(&script.core);
    Ok(())
}

// Tells the log that a line is done, and shows it the core where it asks for that.
fn tell_done<W: Write>(
    script: &mut Script,
    line: &[u8],
    writer: &mut Counted<W>,
    log: &mut impl RunLog,
) -> Result<(), WriteFault>
    ensures ran { OnOk result (Ran [] script.old script.new (W.contents writer.old.inner) (W.contents writer.new.inner)) }
    ensures left { OnOk result ((script.new.out.items ≡ []) ⊎ (script.new.out.items ≡ script.old.out.items)) }
    ensures err { OnErr result (WritesBeginning (W.contents writer.old.inner) (W.contents writer.new.inner) script.old.out.items) }
    ensures kept { OnOk result (writer.new.failures ≡ writer.old.failures) }
    ensures counted { OnErr result (IsOneMore writer.old.failures writer.new.failures) }
{
    if log.done(script.lines, line) {
        show(script, writer, log)
    } else {
        Ok(())
    }
}

// A line that has ended, without its end. The log is told that it is done.
pub(crate) fn run_kept<W: Write>(
    alloc: Global,
    script: &mut Script,
    line: &[u8],
    writer: &mut Counted<W>,
    log: &mut impl RunLog,
) -> Result<(), ListingFault>
    ensures ran { OnOk result (Ran (nonempty_line line.now) script.old script.new (W.contents writer.old.inner) (W.contents writer.new.inner)) }
    ensures few { length script.old.out.items < GATHERED_BYTES → OnOk result (length script.new.out.items < GATHERED_BYTES) }
    ensures err { OnErr result (Broke (nonempty_line line.now) script.old (W.contents writer.old.inner) (W.contents writer.new.inner)) }
    ensures counts { OnOk result (writer.new.failures ≡ writer.old.failures) }
    ensures counted { IsErrOf result ListingFault.Write → IsOneMore writer.old.failures writer.new.failures }
    ensures memory { IsErrOf result ListingFault.Memory → writer.new.failures ≡ writer.old.failures }
    ensures stopped { IsErrOf result ListingFault.Memory → Stopped (nonempty_line line.now) script.old script.new (W.contents writer.old.inner) (W.contents writer.new.inner) }
{
    run_counted(alloc, script, line, writer, log)?;
    tell_done(script, line, writer, log)?;
    Ok(())
}

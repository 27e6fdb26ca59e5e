//! Bytes in, bytes out.
ghost use Rattle.std.specs.Prelude.{◌≡◌, ◌⊎◌, ◌++◌, [], true, ℕ, List, IfOk, IfErr, IfSome, OnOk, OnErr, IsErrOf};
ghost use Rattle.std.specs.Io.KnownBytes.{Appends, IsAtEnd, Keeps, Consumes};
ghost use Rattle.journal.specs.History.{initial, after, IsLegal};
ghost use Rattle.listing.specs.Bytes.{WritesBeginning, IsOneMore};
ghost use Rattle.std.specs.List.{list_any};
ghost use Rattle.job_scripts.specs.Reports.{reports_text, some_refused};
ghost use Rattle.job_server.specs.Faults.{IsJobsFault, IsOfWriting};
ghost use Rattle.job_server.specs.Output.{ending, IsJobsOutput, Wrote, IsBegun, HasReplied, AreReplied};
ghost use Rattle.job_server.specs.Texts.{IsServed};

use crate::sorting::{LEAST_BYTES, halvings_for, scripts_by_halves};
use crate::{JobsFault, Served, serve};
use job_core::Core;
use job_scripts::{Report, write_reports};
use journal::Journal;
use listing::{Counted, read_all, write_listing_after};
use loading::{LoadLog, NoLog};
use shared_engine::Gate;
use std::alloc::Global;
use std::io::{Read, Write};
use std::sync::Wait;
use std::thread::Threads;

// The buffer of the listing.
const OUT_BYTES: usize = 65536;

// Writes `--` and the listing of a core's content, where it is asked for.
fn write_ending<W: Write>(
    alloc: Global,
    listed: bool,
    core: &Core,
    writer: &mut Counted<W>,
) -> Result<(), JobsFault>
    ensures ok { OnOk result (Appends (W.contents writer.old.inner) (W.contents writer.new.inner) (ending listed (after core.now.units initial).map)) }
    ensures err { OnErr result (WritesBeginning (W.contents writer.old.inner) (W.contents writer.new.inner) (ending listed (after core.now.units initial).map)) }
    ensures counted { IsErrOf result JobsFault.Write → IsOneMore writer.old.failures writer.new.failures }
    ensures memory { IsErrOf result JobsFault.Memory → writer.new.failures ≡ writer.old.failures }
    ensures kind { IfErr result IsOfWriting }
{
    if !listed {
        return Ok(());
    }
    let mut out = Vec::with_capacity(alloc, OUT_BYTES)?;
    out.extend_from_slice(b"--\n")?;
    let content = core.content();
    write_listing_after(&content, &mut out, writer)?;
    Ok(())
}

// Whether a reply in these reports is a refusal.
fn any_refused(reports: &[Report]) -> bool
    ensures { result ≡ list_any some_refused reports.now }
{
    reports.iter().any(|report| report.refused())
}

impl Served {
    /// What was done: the journal of all units, which is legal.
    pub fn journal(&self) -> &Journal
        ensures units { result.now.units ≡ self.now.closed.core.units }
        ensures base { result.now.base ≡ self.now.closed.core.base }
        ensures legal { IsLegal self.now.closed.core.units initial }
    {
        self.closed.core.journal()
    }

    /// Whether a reply is a refusal.
    pub fn refused(&self) -> bool
        ensures { result ≡ list_any some_refused self.now.reports.items }
    {
        any_refused(self.reports.as_slice())
    }
}

/// Loads a listing, runs the jobs of a text at the same time, and answers their reports, in order of the jobs' first
/// lines, with the closed engine. Its journal is legal, begins with the SETs of the listing, and is the story of a run
/// that the reports show, as `serve` says: no two scripts of a text are of one job. An empty listing sets nothing.
///
/// Nothing is written, so `write_served` and whoever reads `Served::journal` see one journal. Faults: `Load`, `Memory`
/// and `Missing`, as of `serve`, and never `Read` or `Write`.
pub fn serve_text<R: Threads + Wait + Sync, L: LoadLog, G: Gate + Sync>(
    rt: &R,
    alloc: Global,
    listing: &[u8],
    log: &mut L,
    text: Vec<u8>,
    workers: usize,
    gate: &G,
) -> Result<Served, JobsFault>
    ensures served { IfOk result (λ served. IsServed listing.now text.items served.reports.items served.closed.core.units) }
    ensures unwritten { IsErrOf result JobsFault.Write → ⊥ }
    ensures unread { IsErrOf result JobsFault.Read → ⊥ }
    ensures unloaded { IfErr result (IsJobsFault listing.now) }
{
    let scripts = scripts_by_halves(rt, alloc, &text, halvings_for(workers), LEAST_BYTES)?;
    let served = serve(rt, alloc, listing, log, scripts, workers, gate)?;
    let _journal = served.journal();
    Ok(served)
}

/// Writes the replies of jobs that were served, then, where it is asked for, `--` and the listing of what their journal
/// leaves.
///
/// After a fault a beginning of that was written: `Write` only where a call of the writer failed, else `Memory`, where
/// memory for the listing was refused and all replies are written.
pub fn write_served<W: Write>(
    alloc: Global,
    listed: bool,
    served: &Served,
    writer: &mut Counted<W>,
) -> Result<(), JobsFault>
    ensures ok { OnOk result (Appends (W.contents writer.old.inner) (W.contents writer.new.inner) (reports_text served.now.reports.items ++ ending listed (after served.now.closed.core.units initial).map)) }
    ensures err { OnErr result (WritesBeginning (W.contents writer.old.inner) (W.contents writer.new.inner) (reports_text served.now.reports.items ++ ending listed (after served.now.closed.core.units initial).map)) }
    ensures counted { IsErrOf result JobsFault.Write → IsOneMore writer.old.failures writer.new.failures }
    ensures memory { IsErrOf result JobsFault.Memory → writer.new.failures ≡ writer.old.failures }
    ensures replies { IsErrOf result JobsFault.Memory → HasReplied served.now.reports.items (W.contents writer.old.inner) (W.contents writer.new.inner) }
    ensures kind { IfErr result IsOfWriting }
{
    write_reports(served.reports.as_slice(), writer)?;
    write_ending(alloc, listed, &served.closed.core, writer)
}

/// Loads a listing, runs the jobs of a text at the same time, and writes their replies, by job in order of the jobs'
/// first lines, then, where it is asked for, `--` and the listing of the database that they leave: `serve_text`, then
/// `write_served`. Answers whether a reply is a refusal.
///
/// The replies show one run of the exact machine, as `serve` says; the listing is of the map that it leaves.
///
/// After a fault a beginning of that was written: nothing but after `Write` and `Memory`, so nothing where the listing
/// isn't loaded or jobs weren't served to their end, and after `Memory` nothing or all replies; `Write` only where a call
/// of the writer failed, `Memory` only where none did, and never `Read`.
pub fn run_text<R: Threads + Wait + Sync, W: Write, G: Gate + Sync>(
    rt: &R,
    alloc: Global,
    listing: &[u8],
    listed: bool,
    text: Vec<u8>,
    writer: &mut Counted<W>,
    workers: usize,
    gate: &G,
) -> Result<bool, JobsFault>
    ensures output { IfOk result (λ refused. Wrote listing.now listed text.items refused (W.contents writer.old.inner) (W.contents writer.new.inner)) }
    ensures begun { OnErr result (IsBegun listing.now listed text.items (W.contents writer.old.inner) (W.contents writer.new.inner)) }
    ensures unloaded { IfErr result (IsJobsFault listing.now) }
    ensures nothing { IfErr result (λ fault. IsOfWriting fault ⊎ (W.contents writer.old.inner ≡ W.contents writer.new.inner)) }
    ensures counted { IsErrOf result JobsFault.Write → IsOneMore writer.old.failures writer.new.failures }
    ensures memory { IsErrOf result JobsFault.Memory → writer.new.failures ≡ writer.old.failures }
    ensures replies { IsErrOf result JobsFault.Memory → AreReplied listing.now text.items (W.contents writer.old.inner) (W.contents writer.new.inner) }
    ensures unread { IsErrOf result JobsFault.Read → ⊥ }
{
    let served = serve_text(rt, alloc, listing, &mut NoLog, text, workers, gate)?;
    write_served(alloc, listed, &served, writer)?;
    Ok(served.refused())
}

/// Reads all input, and runs its jobs as `run_text` does, with the listing.
///
/// After `Read`, which comes only where a call of the reader failed, nothing was done or written. `Write` comes only
/// where a call of the writer failed, `Memory` only where no call did.
pub fn run_jobs<R: Threads + Wait + Sync, I: Read, W: Write, G: Gate + Sync>(
    rt: &R,
    alloc: Global,
    listing: &[u8],
    reader: &mut Counted<I>,
    writer: &mut Counted<W>,
    workers: usize,
    gate: &G,
) -> Result<bool, JobsFault>
    ensures output { IfOk result (λ refused. IfSome (I.remaining reader.old.inner)
        (λ bytes. Wrote listing.now true bytes refused (W.contents writer.old.inner) (W.contents writer.new.inner))) }
    ensures at_end { OnOk result (IsAtEnd (I.remaining reader.new.inner)) }
    ensures begun { OnErr result (IfSome (I.remaining reader.old.inner)
        (λ bytes. IsBegun listing.now true bytes (W.contents writer.old.inner) (W.contents writer.new.inner))) }
    ensures unloaded { IfErr result (IsJobsFault listing.now) }
    ensures nothing { IfErr result (λ fault. IsOfWriting fault ⊎ (W.contents writer.old.inner ≡ W.contents writer.new.inner)) }
    ensures counted { IsErrOf result JobsFault.Write → IsOneMore writer.old.failures writer.new.failures }
    ensures memory { IsErrOf result JobsFault.Memory → writer.new.failures ≡ writer.old.failures }
    ensures input { IsErrOf result JobsFault.Memory → reader.new.failures ≡ reader.old.failures }
    ensures replies { IsErrOf result JobsFault.Memory → IfSome (I.remaining reader.old.inner)
        (λ bytes. AreReplied listing.now bytes (W.contents writer.old.inner) (W.contents writer.new.inner)) }
    ensures read { IsErrOf result JobsFault.Read → IsOneMore reader.old.failures reader.new.failures }
{
    let text = read_all(alloc, reader)?;
    run_text(rt, alloc, listing, true, text, writer, workers, gate)
}

//! A script: lines in, replies and the listing out.
ghost use Rattle.std.specs.Prelude.{◌≡◌, ◌++◌, ◌<◌, [], true, false, length, OnOk, OnErr, IfOk, IfSome, IsErrOf};
ghost use Rattle.std.specs.Io.KnownBytes.{Appends, IsAtEnd, Keeps};
ghost use Rattle.std.specs.FinMap as finmap;
ghost use Rattle.journal.specs.History.{initial, after, IsLegal};
ghost use Rattle.journal.specs.Story.{nothing_done};
ghost use Rattle.serial.specs.Soundness.{IsGood};
ghost use Rattle.listing.specs.Bytes.{IsOneMore, WritesBeginning};
ghost use Rattle.script_run.specs.Lines.{has_no_end};
ghost use Rattle.script_run.specs.Output.{ending, outcome_of, Wrote, IsBegun, HasAnsweredLines, HasKept};
ghost use Rattle.script_run.specs.Runs.{RanFront, BrokeFront, RanEnd, BrokeEnd, HasRead, StoppedFront, EndedFront, StoppedEnd, HasGathered, HasLeft};

use crate::answers::{Script, run_counted};
use crate::lines::run_piece;
use crate::open_jobs::{OpenJobs, halt_open};
use crate::upkeep::Due;
use crate::{Fault, NoLog, Outcome, RunLog, Upkeep};
use job_core::JobCore;
use listing::{Counted, ListingFault, ReadFault, write_listing_after};
use script::Drafts;
use std::alloc::{AllocError, Global};
use std::io::{Read, Write};

/// How many bytes are asked for at a time.
pub const PIECE_BYTES: usize = 65536;

// The buffer of replies and of the listing. Text is written once 16,384 bytes are gathered, and the longest line comes
// to some 265,000: a value of 32,767 bytes and 31 subscripts of 255, at six and a half bytes for each.
const OUT_BYTES: usize = 294912;

/// Reads once. Nothing came only where nothing is left.
pub fn read_piece<'a, R: Read>(
    reader: &mut Counted<R>,
    buffer: &'a mut [u8],
) -> Result<&'a [u8], ReadFault>
    requires { 0 < length buffer.old }
    ensures read { IfOk result (λ piece. HasRead (R.remaining reader.old.inner) (R.remaining reader.new.inner) piece.now) }
    ensures err { OnErr result (Keeps (R.remaining reader.old.inner) (R.remaining reader.new.inner)) }
    ensures kept { OnOk result (reader.new.failures ≡ reader.old.failures) }
    ensures counted { OnErr result (IsOneMore reader.old.failures reader.new.failures) }
{
    let n = reader.read_some(buffer)?;
    Ok(&buffer[..n])
}

// Room for all open jobs, and the buffer.
fn new_room(alloc: Global) -> Result<(OpenJobs, Vec<u8>), AllocError>
    ensures jobs { IfOk result (λ room. room.0 ≡ []) }
    ensures out { IfOk result (λ room. room.1.items ≡ []) }
{
    let jobs = OpenJobs::new(alloc)?;
    let out = Vec::with_capacity(alloc, OUT_BYTES)?;
    Ok((jobs, out))
}

// The lines that end in a piece, and all that is gathered written.
fn take_piece<W: Write>(
    alloc: Global,
    script: &mut Script,
    begun: &mut Vec<u8>,
    piece: &[u8],
    writer: &mut Counted<W>,
    log: &mut impl RunLog,
) -> Result<(), ListingFault>
    requires { has_no_end begun.old.items ≡ true }
    ensures ran { OnOk result (RanFront (begun.old.items ++ piece.now) begun.new.items script.old script.new (W.contents writer.old.inner) (W.contents writer.new.inner)) }
    ensures begun { OnOk result (has_no_end begun.new.items ≡ true) }
    ensures empty { OnOk result (script.new.out.items ≡ []) }
    ensures err { OnErr result (BrokeFront (begun.old.items ++ piece.now) script.old (W.contents writer.old.inner) (W.contents writer.new.inner)) }
    ensures counts { OnOk result (writer.new.failures ≡ writer.old.failures) }
    ensures counted { IsErrOf result ListingFault.Write → IsOneMore writer.old.failures writer.new.failures }
    ensures memory { IsErrOf result ListingFault.Memory → writer.new.failures ≡ writer.old.failures }
    ensures stopped { IsErrOf result ListingFault.Memory → StoppedFront (begun.old.items ++ piece.now) script.old script.new (W.contents writer.old.inner) (W.contents writer.new.inner) }
{
    run_piece(alloc, script, begun, piece, writer, log)?;
    writer.write_gathered(&mut script.out)?;
    Ok(())
}

/// Writes what is gathered, and the line before the listing with the listing, where it is asked for. The core stays.
pub fn write_ending<W: Write>(
    alloc: Global,
    listed: bool,
    script: &mut Script,
    writer: &mut Counted<W>,
) -> Result<(), ListingFault>
    ensures ok { OnOk result (Appends (W.contents writer.old.inner) (W.contents writer.new.inner) (script.old.out.items ++ ending listed (after script.old.core.machine.units initial).map)) }
    ensures err { OnErr result (WritesBeginning (W.contents writer.old.inner) (W.contents writer.new.inner) (script.old.out.items ++ ending listed (after script.old.core.machine.units initial).map)) }
    ensures outcome { script.new.outcome ≡ script.old.outcome }
    ensures core { script.new.core ≡ script.old.core }
    ensures counts { OnOk result (writer.new.failures ≡ writer.old.failures) }
    ensures counted { IsErrOf result ListingFault.Write → IsOneMore writer.old.failures writer.new.failures }
    ensures memory { IsErrOf result ListingFault.Memory → writer.new.failures ≡ writer.old.failures }
    ensures stopped { IsErrOf result ListingFault.Memory → EndedFront listed (after script.old.core.machine.units initial).map script.old.out.items script.new.out.items (W.contents writer.old.inner) (W.contents writer.new.inner) }
{
    if listed {
        script.out.extend_from_slice(b"--\n")?;
        let content = script.core.content();
        write_listing_after(&content, &mut script.out, writer)?;
    } else {
        writer.write_gathered(&mut script.out)?;
    }
    Ok(())
}

// The last line, which has no end, then the open jobs' HALT, and the ending.
fn finish<W: Write>(
    alloc: Global,
    listed: bool,
    script: &mut Script,
    begun: &[u8],
    writer: &mut Counted<W>,
    log: &mut impl RunLog,
) -> Result<(), ListingFault>
    ensures ran { OnOk result (RanEnd listed begun.now script.old script.new (W.contents writer.old.inner) (W.contents writer.new.inner)) }
    ensures err { OnErr result (BrokeEnd listed begun.now script.old (W.contents writer.old.inner) (W.contents writer.new.inner)) }
    ensures counts { OnOk result (writer.new.failures ≡ writer.old.failures) }
    ensures counted { IsErrOf result ListingFault.Write → IsOneMore writer.old.failures writer.new.failures }
    ensures memory { IsErrOf result ListingFault.Memory → writer.new.failures ≡ writer.old.failures }
    ensures stopped { IsErrOf result ListingFault.Memory → StoppedEnd listed begun.now script.old script.new (W.contents writer.old.inner) (W.contents writer.new.inner) }
{
    run_counted(alloc, script, begun, writer, log)?;
    halt_open(&mut script.core, script.jobs.as_slice());
    write_ending(alloc, listed, script, writer)?;
    Ok(())
}

// The lines to the end of input and the ending, in a script that is new.
fn run_pieces<R: Read, W: Write>(
    alloc: Global,
    listed: bool,
    script: &mut Script,
    reader: &mut Counted<R>,
    writer: &mut Counted<W>,
    log: &mut impl RunLog,
) -> Result<(), Fault>
    requires good { IsGood script.old.core.machine }
    requires jobs { script.old.jobs ≡ [] }
    requires out { script.old.out.items ≡ [] }
    requires outcome { script.old.outcome ≡ outcome_of [] }
    ensures output { OnOk result (IfSome (R.remaining reader.old.inner)
        (λ bytes. Wrote script.old.core.machine listed bytes script.new.outcome (W.contents writer.old.inner) (W.contents writer.new.inner))) }
    ensures left { OnOk result (IfSome (R.remaining reader.old.inner)
        (λ bytes. HasLeft script.old.core.machine listed bytes script.new.core.machine (W.contents writer.old.inner) (W.contents writer.new.inner))) }
    ensures at_end { OnOk result (IsAtEnd (R.remaining reader.new.inner)) }
    ensures begun { OnErr result (IfSome (R.remaining reader.old.inner)
        (λ bytes. IsBegun script.old.core.machine listed bytes (W.contents writer.old.inner) (W.contents writer.new.inner))) }
    ensures answered { IsErrOf result Fault.Read → IfSome (R.remaining reader.old.inner) (λ bytes. IfSome (R.remaining reader.new.inner)
        (λ more. HasAnsweredLines script.old.core.machine bytes more (W.contents writer.old.inner) (W.contents writer.new.inner))) }
    ensures read { IsErrOf result Fault.Read → IsOneMore reader.old.failures reader.new.failures × (writer.new.failures ≡ writer.old.failures) }
    ensures write { IsErrOf result Fault.Write → IsOneMore writer.old.failures writer.new.failures × (reader.new.failures ≡ reader.old.failures) }
    ensures kept { OnOk result ((reader.new.failures ≡ reader.old.failures) × (writer.new.failures ≡ writer.old.failures)) }
    ensures memory { IsErrOf result Fault.Memory → (reader.new.failures ≡ reader.old.failures) × (writer.new.failures ≡ writer.old.failures) }
    ensures gathered { IsErrOf result Fault.Memory → IfSome (R.remaining reader.old.inner)
        (λ bytes. HasGathered script.old.core.machine listed bytes script.new (W.contents writer.old.inner) (W.contents writer.new.inner)) }
{
    let mut begun = Vec::new(alloc);
    let mut buffer = [0; PIECE_BYTES];
    'pieces: for _ in 0..u64::MAX {
        let piece = read_piece(reader, &mut buffer)?;
        if piece.is_empty() {
            finish(alloc, listed, script, &begun, writer, log)?;
            return Ok(());
        }
        take_piece(alloc, script, &mut begun, piece, writer, log)?;
    }
    Err(Fault::Memory)
}

// Shows the log what the core holds, and gives all back.
fn end(script: Script, log: &mut impl RunLog, is_whole: bool) {
    log.ended(&script.core, is_whole);
    drop(script);
}

impl Script {
    /// A script that begins on what a core holds. Refusals: `AllocError`, memory for the list of open jobs or the buffer
    /// of replies; then the core is given up.
    pub fn new(alloc: Global, core: JobCore, upkeep: Upkeep) -> Result<Script, AllocError>
        ensures core { IfOk result (λ script. script.core ≡ core) }
        ensures jobs { IfOk result (λ script. script.jobs ≡ []) }
        ensures out { IfOk result (λ script. script.out.items ≡ []) }
        ensures outcome { IfOk result (λ script. script.outcome ≡ outcome_of []) }
    {
        match new_room(alloc) {
            Ok((jobs, out)) => Ok(Script {
                core,
                jobs,
                drafts: Drafts::new(alloc),
                out,
                outcome: Outcome::new(),
                lines: 0,
                due: Due::new(upkeep),
            }),
            Err(AllocError) => {
                drop(core);
                Err(AllocError)
            }
        }
    }
}

// A script that is new, to its end.
fn run_whole<R: Read, W: Write>(
    alloc: Global,
    listed: bool,
    mut script: Script,
    reader: &mut Counted<R>,
    writer: &mut Counted<W>,
    log: &mut impl RunLog,
) -> Result<Outcome, Fault>
    requires good { IsGood script.core.machine }
    requires jobs { script.jobs ≡ [] }
    requires out { script.out.items ≡ [] }
    requires outcome { script.outcome ≡ outcome_of [] }
    ensures output { IfOk result (λ outcome. IfSome (R.remaining reader.old.inner)
        (λ bytes. Wrote script.core.machine listed bytes outcome (W.contents writer.old.inner) (W.contents writer.new.inner))) }
    ensures at_end { OnOk result (IsAtEnd (R.remaining reader.new.inner)) }
    ensures begun { OnErr result (IfSome (R.remaining reader.old.inner)
        (λ bytes. IsBegun script.core.machine listed bytes (W.contents writer.old.inner) (W.contents writer.new.inner))) }
    ensures answered { IsErrOf result Fault.Read → IfSome (R.remaining reader.old.inner) (λ bytes. IfSome (R.remaining reader.new.inner)
        (λ more. HasAnsweredLines script.core.machine bytes more (W.contents writer.old.inner) (W.contents writer.new.inner))) }
    ensures read { IsErrOf result Fault.Read → IsOneMore reader.old.failures reader.new.failures × (writer.new.failures ≡ writer.old.failures) }
    ensures write { IsErrOf result Fault.Write → IsOneMore writer.old.failures writer.new.failures × (reader.new.failures ≡ reader.old.failures) }
    ensures kept { OnOk result ((reader.new.failures ≡ reader.old.failures) × (writer.new.failures ≡ writer.old.failures)) }
    ensures memory { IsErrOf result Fault.Memory → (reader.new.failures ≡ reader.old.failures) × (writer.new.failures ≡ writer.old.failures) }
    ensures unlost { IsErrOf result Fault.Memory → IfSome (R.remaining reader.old.inner)
        (λ bytes. HasKept script.core.machine listed bytes (W.contents writer.old.inner) (W.contents writer.new.inner)) }
{
    match run_pieces(alloc, listed, &mut script, reader, writer, log) {
        Ok(()) => {
            let outcome = script.outcome;
            end(script, log, true);
            Ok(outcome)
        }
        Err(Fault::Memory) => {
            let written = writer.write_gathered(&mut script.out);
            end(script, log, false);
            match written {
                Ok(()) => Err(Fault::Memory),
                Err(_) => Err(Fault::Write),
            }
        }
        Err(fault) => {
            end(script, log, false);
            Err(fault)
        }
    }
}

/// Runs a script as `run_with` does, from what a core holds, in which no transaction is open: its database and its
/// journal go on. What is promised of `run_with` is the case of a core that has done nothing.
pub fn run_with_core<R: Read, W: Write>(
    alloc: Global,
    core: JobCore,
    listed: bool,
    upkeep: Upkeep,
    reader: &mut Counted<R>,
    writer: &mut Counted<W>,
    log: &mut impl RunLog,
) -> Result<Outcome, Fault>
    requires legal { IsLegal core.machine.units initial }
    requires closed { core.machine.transactions ≡ finmap.empty }
    ensures output { IfOk result (λ outcome. IfSome (R.remaining reader.old.inner)
        (λ bytes. Wrote core.machine listed bytes outcome (W.contents writer.old.inner) (W.contents writer.new.inner))) }
    ensures at_end { OnOk result (IsAtEnd (R.remaining reader.new.inner)) }
    ensures begun { OnErr result (IfSome (R.remaining reader.old.inner)
        (λ bytes. IsBegun core.machine listed bytes (W.contents writer.old.inner) (W.contents writer.new.inner))) }
    ensures answered { IsErrOf result Fault.Read → IfSome (R.remaining reader.old.inner) (λ bytes. IfSome (R.remaining reader.new.inner)
        (λ more. HasAnsweredLines core.machine bytes more (W.contents writer.old.inner) (W.contents writer.new.inner))) }
    ensures read { IsErrOf result Fault.Read → IsOneMore reader.old.failures reader.new.failures × (writer.new.failures ≡ writer.old.failures) }
    ensures write { IsErrOf result Fault.Write → IsOneMore writer.old.failures writer.new.failures × (reader.new.failures ≡ reader.old.failures) }
    ensures kept { OnOk result ((reader.new.failures ≡ reader.old.failures) × (writer.new.failures ≡ writer.old.failures)) }
    ensures memory { IsErrOf result Fault.Memory → (reader.new.failures ≡ reader.old.failures) × (writer.new.failures ≡ writer.old.failures) }
    ensures unlost { IsErrOf result Fault.Memory → IfSome (R.remaining reader.old.inner)
        (λ bytes. HasKept core.machine listed bytes (W.contents writer.old.inner) (W.contents writer.new.inner)) }
{
    match Script::new(alloc, core, upkeep) {
        Ok(script) => run_whole(alloc, listed, script, reader, writer, log),
        Err(AllocError) => Err(Fault::Memory),
    }
}

/// Runs a script as `run_script` does. Without `listed` neither `--` nor the listing is written. `log` is told of each
/// refused line and of each line that is done, after which it may ask to be shown the core; then all replies are
/// written first. It is told once of what the core holds when the run is over, and whether its output is whole, but not
/// where memory was refused for the run's buffer.
///
/// The clauses name no `upkeep`: what is written is promised alike for each.
pub fn run_with<R: Read, W: Write>(
    alloc: Global,
    listed: bool,
    upkeep: Upkeep,
    reader: &mut Counted<R>,
    writer: &mut Counted<W>,
    log: &mut impl RunLog,
) -> Result<Outcome, Fault>
    ensures output { IfOk result (λ outcome. IfSome (R.remaining reader.old.inner)
        (λ bytes. Wrote nothing_done listed bytes outcome (W.contents writer.old.inner) (W.contents writer.new.inner))) }
    ensures at_end { OnOk result (IsAtEnd (R.remaining reader.new.inner)) }
    ensures begun { OnErr result (IfSome (R.remaining reader.old.inner)
        (λ bytes. IsBegun nothing_done listed bytes (W.contents writer.old.inner) (W.contents writer.new.inner))) }
    ensures answered { IsErrOf result Fault.Read → IfSome (R.remaining reader.old.inner) (λ bytes. IfSome (R.remaining reader.new.inner)
        (λ more. HasAnsweredLines nothing_done bytes more (W.contents writer.old.inner) (W.contents writer.new.inner))) }
    ensures read { IsErrOf result Fault.Read → IsOneMore reader.old.failures reader.new.failures × (writer.new.failures ≡ writer.old.failures) }
    ensures write { IsErrOf result Fault.Write → IsOneMore writer.old.failures writer.new.failures × (reader.new.failures ≡ reader.old.failures) }
    ensures kept { OnOk result ((reader.new.failures ≡ reader.old.failures) × (writer.new.failures ≡ writer.old.failures)) }
    ensures memory { IsErrOf result Fault.Memory → (reader.new.failures ≡ reader.old.failures) × (writer.new.failures ≡ writer.old.failures) }
    ensures unlost { IsErrOf result Fault.Memory → IfSome (R.remaining reader.old.inner)
        (λ bytes. HasKept nothing_done listed bytes (W.contents writer.old.inner) (W.contents writer.new.inner)) }
{
    run_with_core(
        alloc,
        JobCore::new(alloc),
        listed,
        upkeep,
        reader,
        writer,
        log,
    )
}

/// Runs a script: reads lines to the end of input, does each in its turn and writes a reply to each. Then it halts the
/// open jobs, in order of their first accepted lines, and writes the listing. A job is open from its first accepted
/// line, which is read as a command and not refused memory, until a HALT that is done. A HALT at the end changes no node,
/// and one that is refused is passed over: by a full journal (`StampsUsedUp`), or for want of memory, which may refuse
/// only that of a job without an open transaction and without a unit since its last HALT (`halt_open`). Replies are
/// written before the next read, and earlier where 16,384 bytes of them are gathered.
///
/// After as many replies as `upkeep` says, or where it costs little, the collector passes over keys, and a checkpoint
/// drops the journal's beginning. No reply and no listing depends on them, but for what fits into memory; one that
/// finds none is left out.
///
/// On `Ok` the text is whole and all input was read; where the outcome isn't `wanting`, the text is a function of the
/// bytes read (`output_of`). After a fault it is a beginning of a whole text, and has of the listing something only if
/// the fault came while that was written. After `Read` it has just the replies of the lines that had ended. After
/// `Memory` it has the whole replies of the lines before one of them, or of all lines and then `--` and whole lines of
/// the listing; at most one line more was done, whose reply found no memory. No reply that was gathered is lost, unless
/// its write fails, which is `Write`. `Read` and `Write` come only where a call of the reader or the writer failed,
/// `Memory` only where none did and no reply could say that memory was refused: for the buffer and the list of open
/// jobs, a line that goes on in the next piece, a reply, a line of the listing; or after 2^64 - 1 reads.
pub fn run_script<R: Read, W: Write>(
    alloc: Global,
    upkeep: Upkeep,
    reader: &mut Counted<R>,
    writer: &mut Counted<W>,
) -> Result<Outcome, Fault>
    ensures output { IfOk result (λ outcome. IfSome (R.remaining reader.old.inner)
        (λ bytes. Wrote nothing_done true bytes outcome (W.contents writer.old.inner) (W.contents writer.new.inner))) }
    ensures at_end { OnOk result (IsAtEnd (R.remaining reader.new.inner)) }
    ensures begun { OnErr result (IfSome (R.remaining reader.old.inner)
        (λ bytes. IsBegun nothing_done true bytes (W.contents writer.old.inner) (W.contents writer.new.inner))) }
    ensures answered { IsErrOf result Fault.Read → IfSome (R.remaining reader.old.inner) (λ bytes. IfSome (R.remaining reader.new.inner)
        (λ more. HasAnsweredLines nothing_done bytes more (W.contents writer.old.inner) (W.contents writer.new.inner))) }
    ensures read { IsErrOf result Fault.Read → IsOneMore reader.old.failures reader.new.failures × (writer.new.failures ≡ writer.old.failures) }
    ensures write { IsErrOf result Fault.Write → IsOneMore writer.old.failures writer.new.failures × (reader.new.failures ≡ reader.old.failures) }
    ensures kept { OnOk result ((reader.new.failures ≡ reader.old.failures) × (writer.new.failures ≡ writer.old.failures)) }
    ensures memory { IsErrOf result Fault.Memory → (reader.new.failures ≡ reader.old.failures) × (writer.new.failures ≡ writer.old.failures) }
    ensures unlost { IsErrOf result Fault.Memory → IfSome (R.remaining reader.old.inner)
        (λ bytes. HasKept nothing_done true bytes (W.contents writer.old.inner) (W.contents writer.new.inner)) }
{
    run_with(alloc, true, upkeep, reader, writer, &mut NoLog)
}

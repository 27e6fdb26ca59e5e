//! A live run: lines in as they come, replies out as they are known, and the listing at the end.
ghost use Rattle.std.specs.Prelude.{◌≡◌, ◌<◌, ◌∷◌, ◌++◌, ℕ, List, Option, [], length, true, false, OnOk, OnErr, IfOk, IfSome, IsErrOf};
ghost use Rattle.std.specs.Io.BufRead.{strip_last};
ghost use Rattle.collation.specs.Bytes as byte;
ghost use Rattle.command.specs.declared.request.Command.TheVariants.{Halt};
ghost use Rattle.command.specs.declared.request.Reply.TheVariants.{Finished};
ghost use Rattle.journal.specs.Story.{Machine, told};
ghost use Rattle.listing.specs.Bytes.{WritesBeginning};
ghost use Rattle.script_run.specs.Lines.{nonempty_line, has_no_end};
ghost use Rattle.script_run.specs.OpenJobs.{is_open};
ghost use Rattle.live_server.specs.Desks.{desk_of};
ghost use Rattle.script_run.specs.Lines.{lines_of};
ghost use Rattle.live_server.specs.Live.{Wrote, IsBegun, HasAnswered, HasRead};
ghost use Rattle.live_server.specs.Runs.{Ran, Broke, Settled, Unsettled, RanFront, BrokeFront, RanEnd, BrokeEnd, IsNew, HasTaken, HasBrokenOff, HasStood, HasSettled};

use crate::desks::{Desks, Waiting};
use crate::live::{Live, do_first, take_line, try_again};
use crate::standstill::{Standstill, tell_waiting};
use crate::{Arrivals, Bell, LiveFault};
use collation::Job;
use command::{Command, Reply};
use listing::{Counted, ListingFault, WriteFault};
use script_run::{
    Outcome, RunLog, end_begun, extend_line, halt_open, keep_up, line_end, strip_return,
    write_ending,
};
use std::alloc::{AllocError, Global};
use std::io::Write;

// How many bytes are taken at once, at most. They lie on the stack, which a limit of address space counts too.
const TAKEN_BYTES: usize = 16384;

// After a reply was gathered: what is gathered is written once it is enough, and upkeep is done where it is due.
fn note_done<W: Write>(live: &mut Live, writer: &mut Counted<W>) -> Result<(), ListingFault>
    ensures ran { OnOk result (Ran [] live.old live.new (W.contents writer.old.inner) (W.contents writer.new.inner)) }
    ensures err { OnErr result (Broke [] live.old (W.contents writer.old.inner) (W.contents writer.new.inner)) }
{
    writer.write_full(&mut live.script.out)?;
    keep_up(&mut live.script.due, &mut live.script.core);
    Ok(())
}

// Memory was refused: what is gathered is written before the run ends.
fn write_before_end<W: Write>(live: &mut Live, writer: &mut Counted<W>) -> ListingFault
    ensures { WritesBeginning (W.contents writer.old.inner) (W.contents writer.new.inner) live.old.script.out.items }
{
    match writer.write_gathered(&mut live.script.out) {
        Ok(()) => ListingFault::Memory,
        Err(WriteFault) => ListingFault::Write,
    }
}

// As `do_first`, but where memory is refused what was gathered is written.
fn do_or_end<W: Write>(
    alloc: Global,
    live: &mut Live,
    job: Job,
    writer: &mut Counted<W>,
    bell: &impl Bell,
    log: &mut impl RunLog,
) -> Result<bool, ListingFault>
    ensures ran { OnOk result (Ran [] live.old live.new (W.contents writer.old.inner) (W.contents writer.new.inner)) }
    ensures err { OnErr result (Broke [] live.old (W.contents writer.old.inner) (W.contents writer.new.inner)) }
{
    match do_first(alloc, live, job, bell, log) {
        Ok(is_done) => Ok(is_done),
        Err(AllocError) => Err(write_before_end(live, writer)),
    }
}

// The lines of a job that wait are done, up to one that waits on.
fn do_lines<W: Write>(
    alloc: Global,
    live: &mut Live,
    job: Job,
    writer: &mut Counted<W>,
    bell: &impl Bell,
    log: &mut impl RunLog,
) -> Result<(), ListingFault>
    ensures ran { OnOk result (Ran [] live.old live.new (W.contents writer.old.inner) (W.contents writer.new.inner)) }
    ensures err { OnErr result (Broke [] live.old (W.contents writer.old.inner) (W.contents writer.new.inner)) }
{
    'lines: for _ in 0..u64::MAX {
        if !live.desks.has_lines(job) {
            return Ok(());
        }
        let is_done = do_or_end(alloc, live, job, writer, bell, log)?;
        if !is_done {
            return Ok(());
        }
        note_done(live, writer)?;
    }
    Err(ListingFault::Memory)
}

// As `try_again`, but where memory is refused what was gathered is written.
fn try_or_end<W: Write>(
    alloc: Global,
    live: &mut Live,
    waiting: &Waiting,
    writer: &mut Counted<W>,
    bell: &impl Bell,
    log: &mut impl RunLog,
) -> Result<bool, ListingFault>
    ensures ran { OnOk result (Ran [] live.old live.new (W.contents writer.old.inner) (W.contents writer.new.inner)) }
    ensures err { OnErr result (Broke [] live.old (W.contents writer.old.inner) (W.contents writer.new.inner)) }
{
    match try_again(alloc, live, waiting, bell, log) {
        Ok(is_done) => Ok(is_done),
        Err(AllocError) => Err(write_before_end(live, writer)),
    }
}

// The LOCK at this place among those that wait is tried; where it is done its job goes on. Answers whether it was.
fn try_at<W: Write>(
    alloc: Global,
    live: &mut Live,
    at: usize,
    waiting: &Waiting,
    writer: &mut Counted<W>,
    bell: &impl Bell,
    log: &mut impl RunLog,
) -> Result<bool, ListingFault>
    ensures ran { OnOk result (Ran [] live.old live.new (W.contents writer.old.inner) (W.contents writer.new.inner)) }
    ensures err { OnErr result (Broke [] live.old (W.contents writer.old.inner) (W.contents writer.new.inner)) }
{
    let is_done = try_or_end(alloc, live, waiting, writer, bell, log)?;
    if !is_done {
        return Ok(false);
    }
    live.desks.forget(at);
    note_done(live, writer)?;
    do_lines(alloc, live, waiting.job, writer, bell, log)?;
    Ok(true)
}

// The place that is tried after this one: the first, where names may have been freed, else the next, which is this one
// where its LOCK was done.
fn place_after(live: &mut Live, at: usize, was_done: bool) -> usize
    ensures script { live.new.script ≡ live.old.script }
    ensures desks { live.new.desks ≡ live.old.desks }
{
    if live.freed {
        live.freed = false;
        0
    } else if was_done {
        at
    } else {
        at.saturating_add(1)
    }
}

// The LOCKs that wait are tried in their order, and where one is done its job goes on. Where that may have freed names
// they are tried from the first on again.
fn try_all<W: Write>(
    alloc: Global,
    live: &mut Live,
    writer: &mut Counted<W>,
    bell: &impl Bell,
    log: &mut impl RunLog,
) -> Result<(), ListingFault>
    ensures ran { OnOk result (Ran [] live.old live.new (W.contents writer.old.inner) (W.contents writer.new.inner)) }
    ensures err { OnErr result (Broke [] live.old (W.contents writer.old.inner) (W.contents writer.new.inner)) }
{
    live.freed = false;
    let mut at = 0;
    'tries: for _ in 0..u64::MAX {
        let Some(waiting) = live.desks.waiting(at) else {
            return Ok(());
        };
        let was_done = try_at(alloc, live, at, &waiting, writer, bell, log)?;
        at = place_after(live, at, was_done);
    }
    Err(ListingFault::Memory)
}

// As `take_line`, but where memory is refused what was gathered is written.
fn take_or_end<W: Write>(
    alloc: Global,
    live: &mut Live,
    line: &[u8],
    writer: &mut Counted<W>,
    bell: &impl Bell,
    log: &mut impl RunLog,
) -> Result<(), ListingFault>
    ensures ran { OnOk result (Ran (line.now ∷ []) live.old live.new (W.contents writer.old.inner) (W.contents writer.new.inner)) }
    ensures err { OnErr result (Broke (line.now ∷ []) live.old (W.contents writer.old.inner) (W.contents writer.new.inner)) }
{
    match take_line(alloc, live, line, bell, log) {
        Ok(()) => Ok(()),
        Err(AllocError) => Err(write_before_end(live, writer)),
    }
}

// A line that isn't empty comes. Where it may have freed names those that wait are tried.
fn take_some<W: Write>(
    alloc: Global,
    live: &mut Live,
    line: &[u8],
    writer: &mut Counted<W>,
    bell: &impl Bell,
    log: &mut impl RunLog,
) -> Result<(), ListingFault>
    ensures ran { OnOk result (Ran (line.now ∷ []) live.old live.new (W.contents writer.old.inner) (W.contents writer.new.inner)) }
    ensures err { OnErr result (Broke (line.now ∷ []) live.old (W.contents writer.old.inner) (W.contents writer.new.inner)) }
{
    take_or_end(alloc, live, line, writer, bell, log)?;
    note_done(live, writer)?;
    if live.freed {
        try_all(alloc, live, writer, bell, log)?;
        return Ok(());
    }
    Ok(())
}

// A line without its end. An empty one is counted and passed over.
fn take_counted<W: Write>(
    alloc: Global,
    live: &mut Live,
    line: &[u8],
    writer: &mut Counted<W>,
    bell: &impl Bell,
    log: &mut impl RunLog,
) -> Result<(), ListingFault>
    ensures ran { OnOk result (Ran (nonempty_line line.now) live.old live.new (W.contents writer.old.inner) (W.contents writer.new.inner)) }
    ensures err { OnErr result (Broke (nonempty_line line.now) live.old (W.contents writer.old.inner) (W.contents writer.new.inner)) }
{
    match line {
        [] => {
            live.lines = live.lines.saturating_add(1);
            Ok(())
        }
        [_, ..] => take_some(alloc, live, line, writer, bell, log),
    }
}

// The line that had begun has ended.
fn take_begun<W: Write>(
    alloc: Global,
    live: &mut Live,
    begun: &mut Vec<u8>,
    writer: &mut Counted<W>,
    bell: &impl Bell,
    log: &mut impl RunLog,
) -> Result<(), ListingFault>
    ensures begun { OnOk result (begun.new.items ≡ []) }
    ensures ran { OnOk result (Ran (nonempty_line (strip_last byte.carriage_return begun.old.items)) live.old live.new (W.contents writer.old.inner) (W.contents writer.new.inner)) }
    ensures err { OnErr result (Broke (nonempty_line (strip_last byte.carriage_return begun.old.items)) live.old (W.contents writer.old.inner) (W.contents writer.new.inner)) }
{
    take_counted(alloc, live, strip_return(begun), writer, bell, log)?;
    end_begun(alloc, begun);
    Ok(())
}

// The line that had begun ends here: its rest is `front`.
fn end_line<W: Write>(
    alloc: Global,
    live: &mut Live,
    begun: &mut Vec<u8>,
    front: &[u8],
    writer: &mut Counted<W>,
    bell: &impl Bell,
    log: &mut impl RunLog,
) -> Result<(), ListingFault>
    ensures begun { OnOk result (begun.new.items ≡ []) }
    ensures ran { OnOk result (Ran (nonempty_line (strip_last byte.carriage_return (begun.old.items ++ front.now))) live.old live.new (W.contents writer.old.inner) (W.contents writer.new.inner)) }
    ensures err { OnErr result (Broke (nonempty_line (strip_last byte.carriage_return (begun.old.items ++ front.now))) live.old (W.contents writer.old.inner) (W.contents writer.new.inner)) }
{
    if begun.is_empty() {
        return take_counted(alloc, live, strip_return(front), writer, bell, log);
    }
    match extend_line(begun, front) {
        Ok(()) => take_begun(alloc, live, begun, writer, bell, log),
        Err(AllocError) => Err(write_before_end(live, writer)),
    }
}

// The lines that end in the piece come, and the one that has begun is kept.
fn take_piece<W: Write>(
    alloc: Global,
    live: &mut Live,
    begun: &mut Vec<u8>,
    piece: &[u8],
    writer: &mut Counted<W>,
    bell: &impl Bell,
    log: &mut impl RunLog,
) -> Result<(), ListingFault>
    requires { has_no_end begun.old.items ≡ true }
    ensures begun { OnOk result (has_no_end begun.new.items ≡ true) }
    ensures ran { OnOk result (RanFront (begun.old.items ++ piece.now) begun.new.items live.old live.new (W.contents writer.old.inner) (W.contents writer.new.inner)) }
    ensures err { OnErr result (BrokeFront (begun.old.items ++ piece.now) live.old (W.contents writer.old.inner) (W.contents writer.new.inner)) }
{
    let mut at = 0;
    'lines: while let Some(end) = line_end(&piece[at..]) {
        let rest = &piece[at..];
        let (front, _) = rest.split_at(end);
        end_line(alloc, live, begun, front, writer, bell, log)?;
        at += end + 1;
    }
    match extend_line(begun, &piece[at..]) {
        Ok(()) => Ok(()),
        Err(AllocError) => Err(write_before_end(live, writer)),
    }
}

// The first of these jobs without lines that wait.
fn idle_in(desks: &Desks, jobs: &[Job]) -> Option<Job>
    ensures among { IfSome result (λ job. is_open job jobs.now ≡ true) }
    ensures idle { IfSome result (λ job. (desk_of desks.now job).lines ≡ []) }
{
    'jobs: for job in jobs {
        if !desks.has_lines(*job) {
            return Some(*job);
        }
    }
    None
}

// Whether a HALT with this reply was done. One that wasn't has left all as it was.
fn is_finished(reply: &Reply) -> bool
    ensures finished { result ≡ true → reply.now ≡ Finished }
    ensures kept { result ≡ false → (job : ℕ) (s : Machine) → told job Halt reply.now s ≡ s }
{
    match reply {
        Reply::Finished => true,
        Reply::Answered(_) => false,
        Reply::Had(_) => false,
        Reply::Count(_) => false,
        Reply::AtLevel(_) => false,
        Reply::Committed => false,
        Reply::Restarted(_) => false,
        Reply::Refused(_) => false,
    }
}

// Halts an open job without lines that wait. Answers whether there was one whose HALT was done.
fn halt_one(live: &mut Live) -> bool
    ensures { (text : Option (List ℕ)) → Settled live.old live.new text text }
{
    let Some(job) = idle_in(&live.desks, live.script.jobs.as_slice()) else {
        return false;
    };
    let reply = live.script.core.step(job, Command::Halt);
    if !is_finished(&reply) {
        return false;
    }
    live.script.jobs.note_line(&Some(job), true);
    true
}

// So each, up to one whose HALT is refused. Answers whether one was done.
fn halt_idle(live: &mut Live) -> bool
    ensures { (text : Option (List ℕ)) → Settled live.old live.new text text }
{
    let mut some = false;
    'jobs: for _ in 0..u64::MAX {
        if !halt_one(live) {
            return some;
        }
        some = true;
    }
    some
}

// All lines have come, and some wait: open jobs without such are halted, or time passes until the next is due.
fn go_on<W: Write>(
    alloc: Global,
    live: &mut Live,
    writer: &mut Counted<W>,
    bell: &impl Bell,
) -> Result<(), LiveFault>
    ensures ran { OnOk result (Settled live.old live.new (W.contents writer.old.inner) (W.contents writer.new.inner)) }
    ensures err { OnErr result (Unsettled live.old (W.contents writer.old.inner) (W.contents writer.new.inner)) }
    ensures stuck { IsErrOf result LiveFault.Stuck → HasSettled [] live.old live.new (W.contents writer.old.inner) (W.contents writer.new.inner) }
    ensures unread { IsErrOf result LiveFault.Read → ⊥ }
{
    if halt_idle(live) {
        return Ok(());
    }
    writer.write_gathered(&mut live.script.out)?;
    match live.desks.first_due() {
        Some(until) => {
            bell.sleep(until);
            Ok(())
        }
        None => {
            tell_waiting(alloc, live, bell);
            Err(LiveFault::Stuck)
        }
    }
}

// All lines have come: jobs without lines that wait are halted while others wait, until no line does. Then all replies
// are written.
fn settle<W: Write>(
    alloc: Global,
    live: &mut Live,
    writer: &mut Counted<W>,
    bell: &impl Bell,
    log: &mut impl RunLog,
) -> Result<(), LiveFault>
    ensures empty { OnOk result ((job : ℕ) → (desk_of live.new.desks job).lines ≡ []) }
    ensures ran { OnOk result (Settled live.old live.new (W.contents writer.old.inner) (W.contents writer.new.inner)) }
    ensures err { OnErr result (Unsettled live.old (W.contents writer.old.inner) (W.contents writer.new.inner)) }
    ensures stuck { IsErrOf result LiveFault.Stuck → HasSettled [] live.old live.new (W.contents writer.old.inner) (W.contents writer.new.inner) }
    ensures unread { IsErrOf result LiveFault.Read → ⊥ }
{
    'rounds: for _ in 0..u64::MAX {
        if live.desks.are_empty() {
            writer.write_gathered(&mut live.script.out)?;
            return Ok(());
        }
        go_on(alloc, live, writer, bell)?;
        try_all(alloc, live, writer, bell, log)?;
    }
    Err(LiveFault::Memory)
}

// The last line, which has no end, then what waits, the open jobs' HALTs, and the ending.
fn finish<W: Write>(
    alloc: Global,
    listed: bool,
    live: &mut Live,
    begun: &[u8],
    writer: &mut Counted<W>,
    bell: &impl Bell,
    log: &mut impl RunLog,
) -> Result<(), LiveFault>
    ensures ran { OnOk result (RanEnd listed (nonempty_line begun.now) live.old live.new (W.contents writer.old.inner) (W.contents writer.new.inner)) }
    ensures err { OnErr result (BrokeEnd listed (nonempty_line begun.now) live.old (W.contents writer.old.inner) (W.contents writer.new.inner)) }
    ensures stuck { IsErrOf result LiveFault.Stuck → HasSettled (nonempty_line begun.now) live.old live.new (W.contents writer.old.inner) (W.contents writer.new.inner) }
    ensures unread { IsErrOf result LiveFault.Read → ⊥ }
{
    take_counted(alloc, live, begun, writer, bell, log)?;
    settle(alloc, live, writer, bell, log)?;
    halt_open(&mut live.script.core, live.script.jobs.as_slice());
    write_ending(alloc, listed, &mut live.script, writer)?;
    Ok(())
}

// What comes next: a piece, or a time that is over. All replies to it are written. Answers whether input has ended.
fn come<A: Arrivals, W: Write>(
    alloc: Global,
    live: &mut Live,
    arrivals: &mut A,
    begun: &mut Vec<u8>,
    buffer: &mut [u8],
    standstill: &mut Standstill,
    writer: &mut Counted<W>,
    bell: &impl Bell,
    log: &mut impl RunLog,
) -> Result<bool, LiveFault>
    requires whole { has_no_end begun.old.items ≡ true }
    requires room { 0 < length buffer.old }
    requires gathered { live.old.script.out.items ≡ [] }
    ensures ran { OnOk result (HasTaken (A.taken arrivals.old) (A.taken arrivals.new) begun.old.items begun.new.items live.old live.new (W.contents writer.old.inner) (W.contents writer.new.inner)) }
    ensures err { OnErr result (HasBrokenOff (A.taken arrivals.old) (A.taken arrivals.new) begun.old.items live.old (W.contents writer.old.inner) (W.contents writer.new.inner)) }
    ensures empty { OnOk result (live.new.script.out.items ≡ []) }
    ensures read { IsErrOf result LiveFault.Read → HasStood (A.taken arrivals.old) (A.taken arrivals.new) begun.old.items begun.new.items live.old live.new (W.contents writer.old.inner) (W.contents writer.new.inner) }
    ensures stuck { IsErrOf result LiveFault.Stuck → ⊥ }
    ensures origin { A.origin arrivals.new ≡ A.origin arrivals.old }
{
    if !arrivals.wait(standstill.next_time(live, bell)) {
        standstill.tell(alloc, live, bell);
        try_all(alloc, live, writer, bell, log)?;
        writer.write_gathered(&mut live.script.out)?;
        return Ok(false);
    }
    let count = arrivals.take(buffer)?;
    if count == 0 {
        return Ok(true);
    }
    take_piece(alloc, live, begun, &buffer[..count], writer, bell, log)?;
    writer.write_gathered(&mut live.script.out)?;
    Ok(false)
}

// What comes, to the end of input, and the ending.
fn run_pieces<A: Arrivals, W: Write>(
    alloc: Global,
    listed: bool,
    live: &mut Live,
    arrivals: &mut A,
    writer: &mut Counted<W>,
    bell: &impl Bell,
    log: &mut impl RunLog,
) -> Result<(), LiveFault>
    requires new { IsNew live.old }
    requires none { A.taken arrivals.old ≡ [] }
    ensures output { OnOk result (Wrote live.old.script.core.machine listed (A.taken arrivals.new) live.new.script.outcome (W.contents writer.old.inner) (W.contents writer.new.inner)) }
    ensures begun { OnErr result (IsBegun live.old.script.core.machine listed (A.taken arrivals.new) (W.contents writer.old.inner) (W.contents writer.new.inner)) }
    ensures read { IsErrOf result LiveFault.Read → HasRead live.old.script.core.machine live.new.script.core.machine live.new.desks (A.taken arrivals.new) (W.contents writer.old.inner) (W.contents writer.new.inner) }
    ensures stuck { IsErrOf result LiveFault.Stuck → HasAnswered live.old.script.core.machine live.new.script.core.machine live.new.desks (lines_of (A.taken arrivals.new)) (W.contents writer.old.inner) (W.contents writer.new.inner) }
    ensures origin { A.origin arrivals.new ≡ A.origin arrivals.old }
{
    let mut begun = Vec::new(alloc);
    let mut buffer = [0; TAKEN_BYTES];
    let mut standstill = Standstill::new(alloc);
    'pieces: for _ in 0..u64::MAX {
        let is_over = come(
            alloc,
            live,
            arrivals,
            &mut begun,
            &mut buffer,
            &mut standstill,
            writer,
            bell,
            log,
        )?;
        if is_over {
            finish(alloc, listed, live, &begun, writer, bell, log)?;
            return Ok(());
        }
    }
    Err(LiveFault::Memory)
}

/// Runs live: lines are done as they come, and each reply is written as soon as it is known and before more input is
/// waited for.
///
/// After `Read` each whole line that came was answered or waits, the machine is as the acts leave it, and what was
/// written is their whole replies; after `Stuck` so of all lines. After `Write` and `Memory` it is a beginning of replies.
pub fn run_live<A: Arrivals, W: Write>(
    alloc: Global,
    listed: bool,
    live: &mut Live,
    arrivals: &mut A,
    writer: &mut Counted<W>,
    bell: &impl Bell,
    log: &mut impl RunLog,
) -> Result<Outcome, LiveFault>
    requires new { IsNew live.old }
    requires none { A.taken arrivals.old ≡ [] }
    ensures output { IfOk result (λ outcome. Wrote live.old.script.core.machine listed (A.taken arrivals.new) outcome (W.contents writer.old.inner) (W.contents writer.new.inner)) }
    ensures begun { OnErr result (IsBegun live.old.script.core.machine listed (A.taken arrivals.new) (W.contents writer.old.inner) (W.contents writer.new.inner)) }
    ensures read { IsErrOf result LiveFault.Read → HasRead live.old.script.core.machine live.new.script.core.machine live.new.desks (A.taken arrivals.new) (W.contents writer.old.inner) (W.contents writer.new.inner) }
    ensures stuck { IsErrOf result LiveFault.Stuck → HasAnswered live.old.script.core.machine live.new.script.core.machine live.new.desks (lines_of (A.taken arrivals.new)) (W.contents writer.old.inner) (W.contents writer.new.inner) }
    ensures origin { A.origin arrivals.new ≡ A.origin arrivals.old }
{
    match run_pieces(alloc, listed, live, arrivals, writer, bell, log) {
        Ok(()) => Ok(live.script.outcome),
        Err(fault) => Err(fault),
    }
}

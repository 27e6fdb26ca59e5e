//! Jobs that live: lines are done as they come.
ghost use Rattle.std.specs.Prelude.{◌≡◌, ◌≢◌, true, IfOk, OnErr};
ghost use Rattle.std.specs.FinMap as finmap;
ghost use Rattle.journal.specs.History.{initial, IsLegal};
ghost use Rattle.loading.specs.Loaded.{IsLoaded};

use crate::PROGRAM;
use collation::Job;
use job_core::JobCore;
use listing::Counted;
use live_server::{Live, LiveFault, Lived, relay_live, status_of};
use loading::load_with;
use program_front::{
    Keeping, ListingFile, MjobsArgs, Piped, Statistics, Ticker, keeping_of, print_fault,
    print_load_fault, print_refused, print_statistics, print_unwritten,
};
use refusal::Refusal;
use script_run::RunLog;
use std::alloc::{AllocError, Global};
use std::io;
use std::io::{Read, Write};
use std::rt::{Clock, Files};
use std::sync::Wait;
use std::sync::atomic::{AtomicBool, Ordering};
use std::thread::Threads;

// Tells on standard error of refused lines, where that is asked for.
struct Told<'a, P> {
    rt: &'a P,
    errors: bool,
}

impl<'a, P> Drop for Told<'a, P> {
    fn drop(self) {
        let Told { rt: _, errors: _ } = self;
    }
}

impl<'a, P: Eprint + AllocGlobal> RunLog for Told<'a, P> {
    fn refused(&mut self, number: u64, line: &[u8], refusal: Refusal) {
        if self.errors {
            print_refused(self.rt, PROGRAM, number, line, refusal);
        }
    }

    fn done(&mut self, _number: u64, _line: &[u8]) -> bool {
        false
    }

    fn shown(&mut self, _core: &JobCore) {}

    fn ended(&mut self, _core: &JobCore, _is_whole: bool) {}
}

// Tells on standard error of jobs that wait for ever, and of memory that is refused where no reply says so, once.
struct Teller<'a, P> {
    rt: &'a P,
    is_refused: AtomicBool,
}

impl<'a, P> Drop for Teller<'a, P> {
    fn drop(self) {
        let Teller { rt: _, is_refused } = self;
        drop(is_refused);
    }
}

// Whether the byte is a control character, or begins one of two bytes: U+0000 to U+001F, U+007F to U+009F.
fn is_control(byte: u8, next: Option<&u8>) -> bool {
    match (byte, next) {
        (0..=0x1f, _) => true,
        (0x7f, _) => true,
        (0xc2, Some(0x80..=0x9f)) => true,
        _ => false,
    }
}

// The text with `?` for each control character: a terminal would do what they say. It takes no more memory than the
// text. Refusals: `AllocError`.
fn without_controls(alloc: Global, text: &[u8]) -> Result<Vec<u8>, AllocError> {
    let mut shown = Vec::with_capacity(alloc, text.len())?;
    let mut at = 0;
    'bytes: for _ in 0..text.len() {
        let Some(byte) = text.get(at) else {
            break;
        };
        let next = text.get(at.saturating_add(1));
        if is_control(*byte, next) {
            shown.push(b'?')?;
            at = at.saturating_add(if *byte == 0xc2 { 2 } else { 1 });
        } else {
            shown.push(*byte)?;
            at = at.saturating_add(1);
        }
    }
    Ok(shown)
}

// Prints for whom the job waits, and in which line.
fn print_wait(rt: &(impl Eprint + AllocGlobal), job: Job, line: &[u8], holder: Option<Job>) {
    let text = str::from_utf8(line).unwrap_or("LOCK");
    let _ = match holder {
        Some(holder) => {
            eprintln!(rt;
                "{PROGRAM}: job {} waits for job {}: {text}",
                job.number(),
                holder.number()
            )
        }
        None => eprintln!(rt; "{PROGRAM}: job {} waits for others: {text}", job.number()),
    };
}

impl<'a, P: Eprint + AllocGlobal> live_server::Teller for Teller<'a, P> {
    fn tell_waits(&self, job: Job, line: &[u8], holder: Option<Job>) {
        match without_controls(self.rt.alloc(), line) {
            Ok(shown) => print_wait(self.rt, job, &shown, holder),
            Err(AllocError) => print_wait(self.rt, job, b"LOCK", holder),
        }
    }

    fn tell_standstill(&self) {
        let _ = eprintln!(self.rt;
            "{PROGRAM}: these jobs wait for each other, so none of them goes on; lines of other jobs are still done"
        );
    }

    fn tell_memory(&self) {
        self.is_refused.store(true, Ordering::SeqCst);
        let _status = print_fault(self.rt, PROGRAM, LiveFault::Memory.text());
    }
}

// The core of the listing, or the exit status where there is none.
fn first_core(
    rt: &(impl Eprint + AllocGlobal + Clock),
    file: &ListingFile<'_>,
    tells: bool,
) -> Result<JobCore, u8>
    ensures loaded { IfOk result (λ core. IsLoaded file.now.text.items core.machine) }
    ensures legal { IfOk result (λ core. IsLegal core.machine.units initial) }
    ensures closed { IfOk result (λ core. core.machine.transactions ≡ finmap.empty) }
{
    let mut ticker = Ticker::new(rt, PROGRAM, file.name, tells);
    let loaded = load_with(rt.alloc(), &file.text, &mut ticker);
    ticker.clear();
    match loaded {
        Ok(core) => Ok(core),
        Err(fault) => Err(print_load_fault(rt, PROGRAM, file, fault)),
    }
}

// Prints a fault, but for memory if that was told.
fn tell_fault<W>(
    rt: &impl Eprint,
    args: MjobsArgs,
    fault: LiveFault,
    is_refused: bool,
    output: &Piped<W>,
) {
    match fault {
        LiveFault::Write => print_unwritten(rt, PROGRAM, fault.text(), args.names(), output),
        LiveFault::Memory if is_refused => {}
        _ => {
            let _status = print_fault(rt, PROGRAM, fault.text());
        }
    }
}

// Prints why a run ended early, and what is held if that is asked for, keeps what is to be kept if the run has gone
// well, and answers the exit status.
fn end_live<P: Files + Eprint + AllocGlobal, W: Write + Drop, F: Write + Drop>(
    rt: &P,
    args: MjobsArgs,
    lived: Lived<Piped<W>>,
    is_refused: bool,
    keeping: Keeping<'_, F>,
) -> u8
    ensures fault { OnErr lived.outcome (result ≡ 2) }
    ensures refused { IfOk lived.outcome (λ outcome. outcome.refused ≡ true → result ≢ 0) }
{
    if let Err(fault) = &lived.outcome {
        tell_fault(rt, args, *fault, is_refused, lived.writer.inner());
    }
    let core = lived.live.core();
    if args.statistics {
        let held = Statistics::of(
            &core.content(),
            core.versions(),
            core.journal(),
            core.base().number(),
        );
        print_statistics(rt, PROGRAM, &held);
    }
    let status = status_of(&lived.outcome);
    match &lived.outcome {
        Ok(_) => keeping.keep(rt, PROGRAM, core.journal(), &core.content(), status),
        Err(_) => {
            drop(keeping);
            status
        }
    }
}

// Runs live from a core, and answers the exit status.
fn run_live_from<
    P: Files + Print + Eprint + AllocGlobal + Clock + Threads + Wait + Sync,
    R: Read + Send + Drop,
    F: Write + Drop,
>(rt: &P, args: MjobsArgs, core: JobCore, input: R, keeping: Keeping<'_, F>) -> u8
    requires legal { IsLegal core.machine.units initial }
    requires closed { core.machine.transactions ≡ finmap.empty }
{
    match Live::new(rt.alloc(), core, args.upkeep) {
        Ok(live) => {
            let writer = Counted::new(Piped::new(io::writer(rt)));
            let teller = Teller {
                rt,
                is_refused: AtomicBool::new(false),
            };
            let log = Told {
                rt,
                errors: args.errors,
            };
            let lived = relay_live(
                rt,
                rt.alloc(),
                args.listed,
                live,
                input,
                writer,
                &teller,
                log,
            );
            let is_refused = teller.is_refused.load(Ordering::SeqCst);
            end_live(rt, args, lived, is_refused, keeping)
        }
        Err(AllocError) => print_fault(rt, PROGRAM, LiveFault::Memory.text()),
    }
}

/// Runs live on the listing, once it is known that what is to be kept can be written, and answers the exit status. The
/// input is read by another thread.
pub(crate) fn run_live_on<
    P: Files + Print + Eprint + AllocGlobal + Clock + Threads + Wait + Sync,
    R: Read + Send + Drop,
>(
    rt: &P,
    arguments: &[Vec<u8>],
    args: MjobsArgs,
    file: &ListingFile<'_>,
    told: bool,
    input: R,
) -> u8 {
    let keeping = match keeping_of(rt, PROGRAM, arguments, args.names()) {
        Ok(keeping) => keeping,
        Err(status) => return status,
    };
    match first_core(rt, file, told) {
        Ok(core) => run_live_from(rt, args, core, input, keeping),
        Err(status) => status,
    }
}

//! `mjobs`: runs the jobs of a script at the same time, from a file or standard input.
//!
//! It reads a listing, where one is asked for, and all input, and prints the replies by job, in order of the jobs'
//! first lines, then `--` and the listing of the database. What is served is what `job_server::serve_text` promises,
//! what is printed of it what `write_served` does, and what is kept of it in files what `program_front::Keeping` does:
//! so one journal is listed and kept. The exit status is
//! `job_server::status_of` of the outcome and the text of a fault is `job_server::JobsFault::text`; what its words ask
//! for is `program_front::mjobs_args_with`. This program only opens files, lets time pass for LOCKs that wait
//! (`patience.rt`), stops jobs that can't go on (`waiting.rt`), and prints what went wrong. With `--live` (`live.rt`),
//! or where lines are typed, they are done as they come, and what is written is what `live_server::relay_live` promises.
//!
//! Exit status: 0, all replies are accepted; 1, a reply is an `error`; 2, a fault, or wrong arguments; standard error
//! says which.
#![tactic(auto)]

ghost use Rattle.std.specs.Prelude.{◌≡◌, ◌≢◌, true, IfOk, IfSome};
ghost use Rattle.std.specs.List.{list_any};
ghost use Rattle.job_scripts.specs.Reports.{some_refused};
ghost use Rattle.job_server.specs.Texts.{IsServed};

use crate::live::run_live_on;
use crate::patience::Patience;
use bstr::ByteSlice;
use job_server::{JobsFault, Served, serve_text, status_of, write_served};
use listing::{Counted, read_all};
use program_front::{
    Keeping, ListingFile, MjobsArgs, Piped, Progress, Statistics, Ticker, arguments_of, keeping_of,
    look_at_input, mjobs_args_with, open_input, path_of, print_bad_name, print_fault,
    print_help_or_error, print_jobs_greeting, print_load_fault, print_no_transaction,
    print_refused, print_statistics, print_unwritten, read_listing,
};
use script::{Drafts, read_line};
use std::alloc::AllocError;
use std::io::{IsTerminal, Read, Write};
use std::process::ExitCode;
use std::rt::{Clock, Files};
use std::sync::Wait;
use std::thread::Threads;
use std::{io, thread};

mod live;
mod patience;
mod places;
mod waiting;

// The program's name, before what it prints on standard error.
const PROGRAM: &str = "mjobs";

// What is told on a terminal beside what is asked for.
#[derive(Clone, Copy, Debug, PartialEq, Eq)]
struct Terminals {
    // Standard input is one: its lines are typed.
    typed: bool,
    // Standard error is one: it is told how lines are typed, and how far a load and the jobs are.
    told: bool,
}

// Tells each line that can't be read on standard error. Lines are counted from 1, empty ones too.
fn print_all_refused(rt: &(impl Eprint + AllocGlobal), text: &[u8]) {
    let mut drafts = Drafts::new(rt.alloc());
    let mut number = 0u64;
    for line in text.lines() {
        number = number.saturating_add(1);
        if line.is_empty() {
            continue;
        }
        if let Err(fault) = read_line(rt.alloc(), line, &mut drafts) {
            print_refused(rt, PROGRAM, number, line, fault.refusal);
        }
    }
}

// How many processors there are, where that is known.
fn count_processors(rt: &impl Threads) -> Option<usize> {
    match thread::available_parallelism(rt) {
        Ok(processors) => Some(processors.get()),
        Err(_) => None,
    }
}

// Reads all input, and serves its jobs on the listing.
fn serve_from<P: Eprint + AllocGlobal + Clock + Threads + Wait + Sync, R: Read + Drop>(
    rt: &P,
    args: MjobsArgs,
    file: &ListingFile<'_>,
    tells: bool,
    input: R,
) -> Result<Served, JobsFault>
    ensures served { IfOk result (λ served. IfSome (R.remaining input)
        (λ bytes. IsServed file.now.text.items bytes served.reports.items served.closed.core.units)) }
{
    let text = read_all(rt.alloc(), &mut Counted::new(input))?;
    if args.errors {
        print_all_refused(rt, &text);
    }
    let mut ticker = Ticker::new(rt, PROGRAM, file.name, tells);
    let progress = if tells { Progress::new(rt) } else { None };
    let processors = count_processors(rt);
    let workers = args.workers.count(processors);
    let served = serve_text(
        rt,
        rt.alloc(),
        &file.text,
        &mut ticker,
        text,
        workers,
        &Patience::new(rt, progress, processors.unwrap_or(workers)),
    );
    ticker.clear();
    served
}

// Prints why jobs weren't served, and answers the exit status.
fn print_unserved(rt: &impl Eprint, file: &ListingFile<'_>, fault: JobsFault) -> u8 {
    match fault {
        JobsFault::Load(fault) => print_load_fault(rt, PROGRAM, file, fault),
        _ => print_fault(rt, PROGRAM, fault.text()),
    }
}

// Prints a fault.
fn tell_fault<W>(rt: &impl Eprint, args: MjobsArgs, fault: JobsFault, output: &Piped<W>) {
    match fault {
        JobsFault::Write => print_unwritten(rt, PROGRAM, fault.text(), args.names(), output),
        _ => {
            let _status = print_fault(rt, PROGRAM, fault.text());
        }
    }
}

// The reply of a line that ends a transaction where none is open.
const NO_TRANSACTION: &[u8] = b" error 9 NoTransaction";

// Tells, where refused lines are told, that a script may be one for the other program.
fn tell_no_transaction(rt: &impl Eprint, served: &Served) {
    for report in &served.reports {
        if report.refused() && report.text().contains_str(NO_TRANSACTION) {
            print_no_transaction(rt, PROGRAM);
            return;
        }
    }
}

// Writes what was served, and prints a fault. Answers whether a reply is a refusal.
fn write_told<P: Print + Eprint + AllocGlobal>(
    rt: &P,
    args: MjobsArgs,
    served: &Served,
) -> Result<bool, JobsFault>
    ensures { IfOk result (λ refused. refused ≡ list_any some_refused served.now.reports.items) }
{
    let mut writer = Counted::new(Piped::new(io::writer(rt)));
    match write_served(rt.alloc(), args.listed, served, &mut writer) {
        Ok(()) => Ok(served.refused()),
        Err(fault) => {
            tell_fault(rt, args, fault, writer.inner());
            Err(fault)
        }
    }
}

// Writes what was served, prints a fault, keeps what is to be kept if all was written, and answers the exit status.
fn write_and_tell<P: Files + Print + Eprint + AllocGlobal, F: Write + Drop>(
    rt: &P,
    args: MjobsArgs,
    served: &Served,
    keeping: Keeping<'_, F>,
) -> u8
    ensures refused { list_any some_refused served.now.reports.items ≡ true → result ≢ 0 }
{
    let outcome = write_told(rt, args, served);
    let core = &served.closed.core;
    if args.statistics {
        let held = Statistics::of(
            &core.content(),
            core.versions(),
            core.journal(),
            core.base().number(),
        );
        print_statistics(rt, PROGRAM, &held);
    }
    let status = status_of(&outcome);
    match outcome {
        Ok(_) => keeping.keep(rt, PROGRAM, served.journal(), &core.content(), status),
        Err(_) => {
            drop(keeping);
            status
        }
    }
}

// Runs the script, once it is known that what is to be kept can be written, and answers the exit status. Its frame has the
// room that all input is read by, which a live run does without.
#[inline(never)]
fn run_and_tell<
    P: Files + Print + Eprint + AllocGlobal + Clock + Threads + Wait + Sync,
    R: Read + Drop,
>(
    rt: &P,
    arguments: &[Vec<u8>],
    args: MjobsArgs,
    file: &ListingFile<'_>,
    told: bool,
    input: R,
) -> u8 {
    let keeping = match keeping_of(rt, PROGRAM, arguments, args.names()) {
        Ok(keeping) => keeping,
        Err(status) => return status,
    };
    match serve_from(rt, args, file, told, input) {
        Ok(served) => {
            if args.errors || told {
                tell_no_transaction(rt, &served);
            }
            write_and_tell(rt, args, &served, keeping)
        }
        Err(fault) => print_unserved(rt, file, fault),
    }
}

// Runs the script that standard input is. Where it is typed, it is told how, and which lines are refused.
fn run_input<P: Files + Print + Eprint + Input + AllocGlobal + Clock + Threads + Wait + Sync>(
    rt: &P,
    arguments: &[Vec<u8>],
    args: MjobsArgs,
    file: &ListingFile<'_>,
    terminals: Terminals,
) -> u8
where
    P::Reader: Send,
{
    if let Err(status) = look_at_input(rt, PROGRAM) {
        return status;
    }
    if !args.live {
        return run_and_tell(rt, arguments, args, file, terminals.told, rt.reader());
    }
    let mut args = args;
    if terminals.typed && terminals.told {
        print_jobs_greeting(rt, PROGRAM, args.listed);
        args.errors = true;
    }
    run_live_on(rt, arguments, args, file, terminals.told, rt.reader())
}

// Runs the script on the listing.
fn run_on<P: Files + Print + Eprint + Input + AllocGlobal + Clock + Threads + Wait + Sync>(
    rt: &P,
    arguments: &[Vec<u8>],
    args: MjobsArgs,
    file: &ListingFile<'_>,
    terminals: Terminals,
) -> u8
where
    P::Reader: Send,
    P::File: Send,
{
    let Some(name) = args.file.and_then(|place| arguments.get(place)) else {
        return run_input(rt, arguments, args, file, terminals);
    };
    let Some(path) = path_of(name) else {
        return print_bad_name(rt, PROGRAM);
    };
    match open_input(rt, PROGRAM, path) {
        Ok(script) if args.live => {
            run_live_on(rt, arguments, args, file, terminals.told, script)
        }
        Ok(script) => run_and_tell(rt, arguments, args, file, terminals.told, script),
        Err(status) => status,
    }
}

fn run_with_arguments<
    P: Files + Print + Eprint + Input + AllocGlobal + Clock + Threads + Wait + Sync,
>(rt: &P, arguments: &[Vec<u8>], terminals: Terminals) -> u8
where
    P::Reader: Send,
    P::File: Send,
{
    let args = match mjobs_args_with(rt, arguments, terminals.typed) {
        Ok(args) => args,
        Err(error) => return print_help_or_error(rt, PROGRAM, error),
    };
    match read_listing(rt, PROGRAM, arguments, args.load) {
        Ok(file) => run_on(rt, arguments, args, &file, terminals),
        Err(status) => status,
    }
}

fn main(rt: HostRuntime) -> ExitCode {
    let told = rt.stderr().is_terminal();
    let terminals = Terminals {
        typed: rt.stdin().is_terminal(),
        told,
    };
    match arguments_of(&rt) {
        Ok(arguments) => ExitCode::from(run_with_arguments(&rt, &arguments, terminals)),
        Err(AllocError) => ExitCode::from(print_fault(&rt, PROGRAM, JobsFault::Memory.text())),
    }
}

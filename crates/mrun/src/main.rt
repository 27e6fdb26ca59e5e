//! `mrun`: runs a script of numbered jobs' commands, from a file or standard input.
//!
//! It prints a line `job reply` for each line that isn't empty, then `--` and the listing of the database.
//! `script_run::run_with_core` promises what is printed, `script_run::status_of` the exit status, and
//! `script_run::Fault::text` the text of a fault. `program_front::mrun_args_with` reads the options,
//! `loading::load_with` a listing that is loaded first, and `program_front::Keeping` writes the journal and the listing
//! that are kept. This program only opens files, shows on terminals what is done, and prints what went wrong.
//!
//! Exit status: 0, all replies are accepted; 1, a reply is an `error`; 2, a fault or wrong options; standard error says
//! which.
#![tactic(auto)]

ghost use Rattle.std.specs.Prelude.{◌≡◌, ◌⊎◌, true, IfNone, IfOk, IfSome, OnErr, OnOk};
ghost use Rattle.std.specs.FinMap as finmap;
ghost use Rattle.journal.specs.History.{initial, IsLegal};
ghost use Rattle.loading.specs.Loaded.{IsLoaded};

use job_core::JobCore;
use listing::Counted;
use loading::load_with;
use program_front::{
    Drafts, FAULT_STATUS, Keeping, ListingFile, MrunArgs, Piped, Ticker, arguments_of, keeping_of,
    look_at_input, mrun_args_with, open_input, path_of, print_bad_name, print_fault,
    print_help_or_error, print_load_fault, print_unwritten, print_wanting, read_listing,
};
use script_run::{Fault, Outcome, run_with_core, status_of};
use side_log::{SideLog, Source, Telling};
use std::alloc::AllocError;
use std::io;
use std::io::{IsTerminal, Read, Write};
use std::process::ExitCode;
use std::rt::{Clock, Files};

mod look;
mod side_log;

// The program's name, before what it prints on standard error.
const PROGRAM: &str = "mrun";

// What is told on a terminal beside what is asked for: how lines are typed and what stands there, or how far a load and
// a script from a file are. Progress isn't told where replies are seen on a terminal.
#[derive(Clone, Copy, Debug, PartialEq, Eq)]
struct Terminals {
    // Standard input and standard error are terminals: lines of standard input are typed.
    typed: bool,
    // Standard error is one.
    loads: bool,
    // And standard output isn't.
    scripts: bool,
}

// The core of the listing that is asked for, a new one where none is; or the exit status where there is none.
fn first_core(
    rt: &(impl Eprint + AllocGlobal + Clock),
    file: &ListingFile<'_>,
    tells: bool,
) -> Result<JobCore, u8>
    ensures loaded { IfOk result (λ core. IsLoaded file.now.text.items core.machine) }
    ensures legal { IfOk result (λ core. IsLegal core.machine.units initial) }
    ensures closed { IfOk result (λ core. core.machine.transactions ≡ finmap.empty) }
{
    let mut ticker = Ticker::new(rt, PROGRAM, file.name, tells);
    let loaded = load_with(rt.alloc(), &file.text, &mut ticker);
    ticker.clear();
    match loaded {
        Ok(core) => Ok(core),
        Err(fault) => Err(print_load_fault(rt, PROGRAM, file, fault)),
    }
}

// Tells of a want of memory where refused lines are told, and of a fault.
fn tell_outcome<W>(
    rt: &impl Eprint,
    args: MrunArgs,
    telling: Telling,
    outcome: Result<Outcome, Fault>,
    output: &Piped<W>,
) {
    match outcome {
        Ok(outcome) => {
            if outcome.wanting && telling != Telling::Nothing {
                print_wanting(rt, PROGRAM);
            }
        }
        Err(Fault::Write) => {
            print_unwritten(rt, PROGRAM, Fault::Write.text(), args.names(), output);
        }
        Err(fault) => {
            let _status = print_fault(rt, PROGRAM, fault.text());
        }
    }
}

// The exit status of a run that ended so and kept this, if it came to that.
fn status_after(
    rt: &(impl Files + Eprint),
    outcome: &Result<Outcome, Fault>,
    kept: Option<Result<Drafts<'_>, u8>>,
) -> u8
    ensures fault { IfNone kept.entry (OnErr outcome.now (result ≡ FAULT_STATUS)) }
    ensures refused { IfNone kept.entry (IfOk outcome.now (λ o. o.refused ≡ true → result ≡ 1)) }
    ensures kept_fault { IfSome kept.entry (λ drafts. OnOk drafts (OnErr outcome.now (result ≡ FAULT_STATUS))) }
    ensures kept_refused { IfSome kept.entry (λ drafts. OnOk drafts (IfOk outcome.now (λ o. o.refused ≡ true → (result ≡ 1) ⊎ (result ≡ FAULT_STATUS)))) }
{
    match kept {
        Some(Ok(drafts)) => drafts.end(rt, PROGRAM, status_of(outcome)),
        Some(Err(status)) => status,
        None => status_of(outcome),
    }
}

fn run_from<R: Read + Drop, F: Write + Drop>(
    rt: &(impl Files + Print + Eprint + AllocGlobal + Clock),
    args: MrunArgs,
    source: Source<'_>,
    core: JobCore,
    input: R,
    keeping: Keeping<'_, F>,
) -> u8
    requires legal { IsLegal core.machine.units initial }
    requires closed { core.machine.transactions ≡ finmap.empty }
{
    let mut reader = Counted::new(input);
    let mut writer = Counted::new(Piped::new(io::writer(rt)));
    let mut log = SideLog::new(rt, args, source, keeping);
    let outcome = run_with_core(
        rt.alloc(),
        core,
        args.listed,
        args.upkeep,
        &mut reader,
        &mut writer,
        &mut log,
    );
    tell_outcome(rt, args, log.telling(), outcome, writer.inner());
    status_after(rt, &outcome, log.take_kept())
}

// Runs the script from its input, once it is known that what is to be kept can be written.
fn run_into<R: Read + Drop>(
    rt: &(impl Files + Print + Eprint + AllocGlobal + Clock),
    arguments: &[Vec<u8>],
    args: MrunArgs,
    source: Source<'_>,
    core: JobCore,
    input: R,
) -> u8
    requires legal { IsLegal core.machine.units initial }
    requires closed { core.machine.transactions ≡ finmap.empty }
{
    match keeping_of(rt, PROGRAM, arguments, args.names()) {
        Ok(keeping) => run_from(rt, args, source, core, input, keeping),
        Err(status) => {
            drop(core);
            status
        }
    }
}

// Runs the script that standard input is.
fn run_input(
    rt: &(impl Files + Print + Eprint + Input + AllocGlobal + Clock),
    arguments: &[Vec<u8>],
    args: MrunArgs,
    terminals: Terminals,
    core: JobCore,
) -> u8
    requires legal { IsLegal core.machine.units initial }
    requires closed { core.machine.transactions ≡ finmap.empty }
{
    let source = Source {
        typed: terminals.typed,
        name: "standard input",
        tells: false,
    };
    match look_at_input(rt, PROGRAM) {
        Ok(()) => run_into(rt, arguments, args, source, core, rt.reader()),
        Err(status) => {
            drop(core);
            status
        }
    }
}

// Runs the script from a core that is new or loaded.
fn run_on(
    rt: &(impl Files + Print + Eprint + Input + AllocGlobal + Clock),
    arguments: &[Vec<u8>],
    args: MrunArgs,
    terminals: Terminals,
    core: JobCore,
) -> u8
    requires legal { IsLegal core.machine.units initial }
    requires closed { core.machine.transactions ≡ finmap.empty }
{
    let Some(name) = args.file.and_then(|place| arguments.get(place)) else {
        return run_input(rt, arguments, args, terminals, core);
    };
    let Some(path) = path_of(name) else {
        drop(core);
        return print_bad_name(rt, PROGRAM);
    };
    match open_input(rt, PROGRAM, path) {
        Ok(file) => {
            let source = Source {
                typed: false,
                name: path,
                tells: terminals.scripts,
            };
            run_into(rt, arguments, args, source, core, file)
        }
        Err(status) => {
            drop(core);
            status
        }
    }
}

fn run_with_arguments(
    rt: &(impl Files + Print + Eprint + Input + AllocGlobal + Clock),
    arguments: &[Vec<u8>],
    terminals: Terminals,
) -> u8 {
    let args = match mrun_args_with(rt, arguments) {
        Ok(args) => args,
        Err(error) => return print_help_or_error(rt, PROGRAM, error),
    };
    let file = match read_listing(rt, PROGRAM, arguments, args.load) {
        Ok(file) => file,
        Err(status) => return status,
    };
    let first = first_core(rt, &file, terminals.loads);
    drop(file);
    match first {
        Ok(core) => run_on(rt, arguments, args, terminals, core),
        Err(status) => status,
    }
}

fn main(rt: HostRuntime) -> ExitCode {
    let told = rt.stderr().is_terminal();
    let terminals = Terminals {
        typed: told && rt.stdin().is_terminal(),
        loads: told,
        scripts: told && !rt.stdout().is_terminal(),
    };
    match arguments_of(&rt) {
        Ok(arguments) => ExitCode::from(run_with_arguments(&rt, &arguments, terminals)),
        Err(AllocError) => ExitCode::from(print_fault(&rt, PROGRAM, Fault::Memory.text())),
    }
}

//! The arguments of the process, and what is printed of the program's own.
ghost use Rattle.std.specs.Prelude.{◌≡◌, ◌≢◌, ◌⊎◌};
ghost use Rattle.clap.specs.Words.{kind_of};

use crate::hints::{hint_of, listing_hint};
use crate::listing_file::ListingFile;
use crate::piped::Piped;
use crate::words::FileNames;
use clap::error::ErrorKind;
use loading::{FaultyLine, LoadFault};
use refusal::Refusal;
use script::{Expected, locate_fault};
use std::alloc::{AllocError, Global};
use std::env::FillError;
use std::io;
use std::rt::Env;

/// The exit status after a fault, or where the words are wrong.
pub const FAULT_STATUS: u8 = 2;

/// What is printed where memory ran out.
pub(crate) const NO_MEMORY: &str = "out of memory";

// Argument `i` of the command line, or none after the last.
fn argument_at(rt: &(impl Env + AllocGlobal), i: usize) -> Result<Option<Vec<u8>>, AllocError> {
    let mut size = 256usize;
    for _ in 0..usize::BITS {
        let mut argument = Vec::from_elem(rt.alloc(), 0u8, size)?;
        match rt.arg(i, argument.as_mut_slice()) {
            Ok(n) => {
                argument.truncate(n);
                return Ok(Some(argument));
            }
            Err(FillError::NotPresent) => return Ok(None),
            Err(FillError::TooLong) => size = size.saturating_mul(2),
        }
    }
    Err(AllocError)
}

/// The arguments of the process as bytes. The first is the program's name.
pub fn arguments_of(rt: &(impl Env + AllocGlobal)) -> Result<Vec<Vec<u8>>, AllocError> {
    let mut arguments = Vec::new(rt.alloc());
    for i in 0..usize::MAX {
        match argument_at(rt, i)? {
            Some(argument) => arguments.push(argument)?,
            None => break,
        }
    }
    Ok(arguments)
}

/// The file's name as std's paths want it, or none where it isn't UTF-8.
pub fn path_of(name: &[u8]) -> Option<&str> {
    match std::str::from_utf8(name) {
        Ok(path) => Some(path),
        Err(_) => None,
    }
}

/// Prints a fault's line on standard error, and answers its exit status. What can't be printed there is left out, here
/// and below.
pub fn print_fault(rt: &impl Eprint, program: &str, fault: &str) -> u8
    ensures { result ≡ FAULT_STATUS }
{
    let _ = eprintln!(rt; "{program}: {fault}");
    FAULT_STATUS
}

/// Prints a refused line's number, the column of its fault, the refusal and what was expected there, on standard error.
pub fn print_refused(
    rt: &(impl Eprint + AllocGlobal),
    program: &str,
    number: u64,
    line: &[u8],
    refusal: Refusal,
) {
    let found = locate_fault(rt.alloc(), line, refusal);
    let column = found.column;
    let expected = found.expected.text();
    let hint = hint_of(line, found);
    let _ = eprintln!(rt;
        "{program}: line {number}, column {column}: error {refusal}: expected {expected}{hint}"
    );
}

/// What takes as much room on a terminal as the bytes of a line before a column: a tab for a tab, a blank for each
/// other character.
pub fn room_before(alloc: Global, line: &[u8], column: usize) -> Result<String, AllocError> {
    let mut room = String::new(alloc);
    for byte in line.iter().take(column.saturating_sub(1)) {
        match *byte {
            b'\t' => room.push('\t')?,
            0x80..=0xbf => {}
            _ => room.push(' ')?,
        }
    }
    Ok(room)
}

// What is said to be expected in a line that is typed: of its beginning, how typing ends.
fn typed_text(expected: Expected) -> &'static str {
    match expected {
        Expected::Job => "a job, 1 to 4096, as in 1 SET ^A=5; Ctrl-D ends the input",
        _ => expected.text(),
    }
}

/// Prints a mark under the fault of a refused line that has just been typed, and what was expected there, on standard
/// error.
pub fn print_mark(rt: &(impl Eprint + AllocGlobal), line: &[u8], refusal: Refusal) {
    let found = locate_fault(rt.alloc(), line, refusal);
    let expected = typed_text(found.expected);
    let hint = hint_of(line, found);
    if let Ok(room) = room_before(rt.alloc(), line, found.column) {
        let _ = eprintln!(rt; "{room}^ expected {expected}{hint}");
    }
}

/// Prints how lines are typed, on standard error, and whether the listing is printed at their end.
pub fn print_greeting(rt: &impl Eprint, program: &str, listed: bool) {
    let listing = if listed {
        " and brings the listing"
    } else {
        ""
    };
    let _ = eprintln!(rt;
        "{program}: type lines such as 1 SET ^A(1)=5 and 1 $GET(^A(1)); Enter alone shows the nodes there and below, Ctrl-D ends the input{listing}"
    );
}

/// Prints how the lines of jobs are typed, on standard error, and whether the listing is printed at their end.
pub fn print_jobs_greeting(rt: &impl Eprint, program: &str, listed: bool) {
    let listing = if listed {
        " and brings the listing"
    } else {
        ""
    };
    let _ = eprintln!(rt;
        "{program}: type lines such as 1 SET ^A(1)=5 and 2 $GET(^A(1)); a LOCK waits for its names, Ctrl-D ends the input{listing}"
    );
}

/// Prints why a TCOMMIT, TROLLBACK or TRESTART of a job may have found no transaction.
pub fn print_no_transaction(rt: &impl Eprint, program: &str) {
    let _ = eprintln!(rt;
        "{program}: NoTransaction: a transaction that has a conflict is done again by itself here; a script that sends its commands again is for mrun"
    );
}

/// Prints that memory was refused where lines got `error 14 OutOfMemory`, so that another run may print something else.
pub fn print_wanting(rt: &impl Eprint, program: &str) {
    let _ = eprintln!(rt;
        "{program}: memory was refused: with more of it, the lines that got OutOfMemory would have other replies"
    );
}

// Prints, where something was to be kept, that nothing is, since nobody reads the output any more.
fn print_unread(rt: &impl Eprint, program: &str, names: FileNames) {
    if names.keep_something() {
        let _ = eprintln!(rt; "{program}: nobody reads the output any more, so nothing is kept");
    }
}

/// Prints that output can't be written, and why; where nobody reads it any more, only that nothing is kept, if something
/// was to be.
pub fn print_unwritten<W>(
    rt: &impl Eprint,
    program: &str,
    fault: &str,
    names: FileNames,
    output: &Piped<W>,
) {
    if output.is_closed() {
        print_unread(rt, program, names);
        return;
    }
    let _ = match output.failure() {
        Some(why) => eprintln!(rt; "{program}: {fault}: {why}"),
        None => eprintln!(rt; "{program}: {fault}"),
    };
}

/// Prints that a file can't be opened, and why, and answers the exit status.
pub fn print_unopened(rt: &impl Eprint, program: &str, name: &str, why: io::Error) -> u8
    ensures { result ≡ FAULT_STATUS }
{
    let _ = eprintln!(rt; "{program}: cannot read {name}: {why}");
    FAULT_STATUS
}

/// Prints why something can't be kept, and answers the exit status.
pub(crate) fn print_unkept(rt: &impl Eprint, program: &str, fault: &str, why: &str) -> u8
    ensures { result ≡ FAULT_STATUS }
{
    let _ = eprintln!(rt; "{program}: {fault}: {why}");
    FAULT_STATUS
}

/// Prints why something can't be kept in a file, and answers the exit status.
pub(crate) fn print_unput(
    rt: &impl Eprint,
    program: &str,
    fault: &str,
    name: &str,
    why: io::Error,
) -> u8
    ensures { result ≡ FAULT_STATUS }
{
    let _ = eprintln!(rt; "{program}: {fault}: {name}: {why}");
    FAULT_STATUS
}

/// Prints why a new file can't take its place, and that it stays, and answers the exit status.
pub(crate) fn print_left(
    rt: &impl Eprint,
    program: &str,
    fault: &str,
    name: &str,
    new: &str,
    why: io::Error,
) -> u8
    ensures { result ≡ FAULT_STATUS }
{
    let _ = eprintln!(rt; "{program}: {fault}: {name}: {why}; it is whole in {new}");
    FAULT_STATUS
}

/// Prints why a listing can't be read, and answers the exit status.
pub fn print_unloaded(rt: &impl Eprint, program: &str, name: &str, fault: &str) -> u8
    ensures { result ≡ FAULT_STATUS }
{
    let _ = eprintln!(rt; "{program}: {name}: {fault}");
    FAULT_STATUS
}

// Prints the number of a listing's line that sets nothing, the column of its fault, the refusal and what was expected
// there, and answers the exit status.
fn print_faulty_line(
    rt: &impl Eprint,
    program: &str,
    file: &ListingFile<'_>,
    line: FaultyLine,
) -> u8
    ensures { result ≡ FAULT_STATUS }
{
    let hint = listing_hint(&file.text, line);
    let name = file.name;
    let FaultyLine {
        number,
        column,
        refusal,
        expected,
    } = line;
    let expected = expected.text();
    let _ = eprintln!(rt;
        "{program}: {name}: line {number}, column {column}: error {refusal}: expected {expected}{hint}"
    );
    FAULT_STATUS
}

/// Prints why a listing isn't loaded, and answers the exit status.
pub fn print_load_fault(
    rt: &impl Eprint,
    program: &str,
    file: &ListingFile<'_>,
    fault: LoadFault,
) -> u8
    ensures { result ≡ FAULT_STATUS }
{
    match fault {
        LoadFault::Line(line) => print_faulty_line(rt, program, file, line),
        LoadFault::Memory => print_unloaded(rt, program, file.name, NO_MEMORY),
    }
}

/// Prints that a file's name isn't UTF-8, which std's paths are, and answers the exit status.
pub fn print_bad_name(rt: &impl Eprint, program: &str) -> u8
    ensures { result ≡ FAULT_STATUS }
{
    let _ = eprintln!(rt; "{program}: cannot read input: the name of the file isn't UTF-8");
    FAULT_STATUS
}

// What is told in place of a tip where the other program has a word.
fn other_tip(program: &str, first: &str) -> Option<&'static str> {
    match program {
        "mrun" if first.contains("'--workers") || first.contains("'--live") => {
            Some("  tip: mjobs has it")
        }
        _ => None,
    }
}

// Prints what is wrong with the words, line by line, without the parser's tip to pass a word as a value: no value of
// these programs is one.
fn print_without_tip(rt: &impl Eprint, program: &str, text: &str) {
    let tip = other_tip(program, text);
    let mut was_empty = false;
    for line in text.lines() {
        if line.starts_with("  tip: to pass ") {
            if let Some(tip) = tip {
                let _ = eprintln!(rt; "{tip}");
                was_empty = false;
            }
        } else if !(line.is_empty() && was_empty) {
            let _ = eprintln!(rt; "{line}");
            was_empty = line.is_empty();
        }
    }
}

// Prints what is wrong with the words, and answers the exit status.
fn print_wrong_words(rt: &(impl Eprint + AllocGlobal), program: &str, error: clap::Error) -> u8
    ensures { result ≡ FAULT_STATUS }
{
    match format!(in rt.alloc(); "{error}") {
        Ok(text) => print_without_tip(rt, program, text.as_str()),
        Err(AllocError) => {
            let _status = print_fault(rt, program, NO_MEMORY);
        }
    }
    FAULT_STATUS
}

/// Prints help, the version or what is wrong with the words, and answers the exit status: 0 only of help and the version.
/// Where nobody reads it, no line says so.
pub fn print_help_or_error(
    rt: &(impl Print + Eprint + AllocGlobal),
    program: &str,
    error: clap::Error,
) -> u8
    ensures given { (result ≡ 0) ⊎ (result ≡ FAULT_STATUS) }
    ensures wrong { kind_of error ≢ ErrorKind.DisplayHelp → kind_of error ≢ ErrorKind.DisplayVersion → result ≡ FAULT_STATUS }
{
    if error.kind() == ErrorKind::OutOfMemory {
        return print_fault(rt, program, NO_MEMORY);
    }
    if error.use_stderr() {
        return print_wrong_words(rt, program, error);
    }
    match error.print(rt) {
        Ok(()) => 0,
        Err(why) if why.kind() == io::ErrorKind::BrokenPipe => FAULT_STATUS,
        Err(_) => print_fault(rt, program, "cannot write output"),
    }
}

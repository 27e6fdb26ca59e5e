//! Listings that are loaded before the first job. Expected from docs/FORMATS.md, never from the program.
use crate::gates::Yielding;
use job_scripts::scripts_of;
use job_server::{JobsFault, Served, run_jobs, serve};
use journal_lines::write_journal;
use listing::Counted;
use loading::{LoadFault, LoadLog, NoLog};
use refusal::Refusal;
use std::alloc::Global;
use std::sync::Wait;
use std::test::Fail;
use std::thread::Threads;
use worked_rows::{ANSWERED, COMMITS, LEVELS, Row};

const LISTING: &[u8] = b"Globals\n26-NOV-2026  04:00:00 ZWR\n^A=1\n\n^B(1)=\"x\"\n^A=2\n";

const SCRIPT: &[u8] = b"2 $GET(^B(1))\n1 $GET(^A)\n2 SET ^B(2)=3\n1 KILL ^A\n";

const OUTPUT: &[u8] = b"2 \"x\"\n2 ok\n1 2\n1 ok\n--\n^B(1)=\"x\"\n^B(2)=3\n";

// The lines of the journal's first units: each line of the listing that sets something, in order, and the end of their
// session.
const FIRST_LINES: &[u8] = b"1 SET ^A=1\n1 SET ^B(1)=\"x\"\n1 SET ^A=2\n1 HALT\n";

// How a run went, and what was written.
#[derive(Drop)]
struct Went {
    outcome: Result<bool, JobsFault>,
    text: Vec<u8>,
}

fn run<R: Threads + Wait + Sync>(
    rt: &R,
    alloc: Global,
    listing: &[u8],
    script: &[u8],
) -> Result<Went, Fail> {
    let mut reader = Counted::new(script);
    let mut writer = Counted::new(Vec::new(alloc));
    let outcome = run_jobs(rt, alloc, listing, &mut reader, &mut writer, 2, &Yielding);
    Ok(Went {
        outcome,
        text: Vec::from_slice(alloc, writer.inner())?,
    })
}

// Whether a script over a listing writes this, and no reply is a refusal.
fn writes<R: Threads + Wait + Sync>(
    rt: &R,
    alloc: Global,
    listing: &[u8],
    script: &[u8],
    want: &[u8],
) -> Result<bool, Fail> {
    let went = run(rt, alloc, listing, script)?;
    Ok(went.outcome == Ok(false) && went.text.as_slice() == want)
}

#[test]
fn jobs_find_what_was_loaded(rt: HostRuntime) -> Result<(), Fail> {
    assert!(rt; writes(&rt, rt.alloc(), LISTING, SCRIPT, OUTPUT)?);
    Ok(())
}

#[test]
fn a_listing_without_lines_that_set_something_is_as_none(rt: HostRuntime) -> Result<(), Fail> {
    let script = b"1 SET ^A=1\n";
    let want = b"1 ok\n--\n^A=1\n";
    assert!(rt; writes(&rt, rt.alloc(), b"", script, want)?);
    assert!(rt; writes(&rt, rt.alloc(), b"Globals\nZWR\n", script, want)?);
    assert!(rt; writes(&rt, rt.alloc(), b"\n\r\n\n", script, want)?);
    Ok(())
}

// The numbers of the lines that a load was told of, in a sum that weighs their places.
#[derive(Drop)]
struct Told {
    sum: u64,
}

impl LoadLog for Told {
    fn loaded(&mut self, number: u64) {
        self.sum = self.sum.wrapping_mul(100).wrapping_add(number);
    }
}

fn served<R: Threads + Wait + Sync, L: LoadLog>(
    rt: &R,
    alloc: Global,
    listing: &[u8],
    script: &[u8],
    log: &mut L,
) -> Result<Served, Fail> {
    let scripts = scripts_of(alloc, script)?;
    match serve(rt, alloc, listing, log, scripts, 2, &Yielding) {
        Ok(served) => Ok(served),
        Err(_) => Err(Fail::from(JobsFault::Missing)),
    }
}

// Whether the lines of a journal begin with these.
fn begins_with(alloc: Global, served: &Served, lines: &[u8]) -> Result<bool, Fail> {
    let mut writer = Counted::new(Vec::new(alloc));
    write_journal(alloc, served.journal(), &mut writer)?;
    Ok(writer.inner().starts_with(lines))
}

#[test]
fn a_journal_begins_with_what_was_loaded(rt: HostRuntime) -> Result<(), Fail> {
    let served = served(&rt, rt.alloc(), LISTING, SCRIPT, &mut NoLog)?;
    let begins = begins_with(rt.alloc(), &served, FIRST_LINES);
    let sessions = served.closed.sessions;
    drop(served);
    assert!(rt; begins?);
    assert_eq!(rt; sessions, 3);
    Ok(())
}

#[test]
fn a_journal_over_no_listing_begins_with_the_jobs(rt: HostRuntime) -> Result<(), Fail> {
    let served = served(&rt, rt.alloc(), b"", SCRIPT, &mut NoLog)?;
    let begins = begins_with(rt.alloc(), &served, b"1 SET");
    let sessions = served.closed.sessions;
    drop(served);
    assert!(rt; !begins?);
    assert_eq!(rt; sessions, 2);
    Ok(())
}

// Lines of job 1 that are refused for their keys; one of job 2 that is accepted behind such a one.
const REFUSED: &[u8] =
    b"1 SET ^A(\"\")=1\n1 $GET(^A(\"\"))\n1 KILL ^A(\"\")\n2 SET ^A(\"\")=1\n2 $GET(^A)\n";

#[test]
fn a_session_begins_with_an_accepted_line(rt: HostRuntime) -> Result<(), Fail> {
    let served = served(&rt, rt.alloc(), b"", REFUSED, &mut NoLog)?;
    let begins = begins_with(rt.alloc(), &served, b"2 $GET(^A)");
    let sessions = served.closed.sessions;
    drop(served);
    assert!(rt; begins?);
    assert_eq!(rt; sessions, 1);
    Ok(())
}

#[test]
fn a_log_is_told_of_the_lines_that_set_something(rt: HostRuntime) -> Result<(), Fail> {
    let mut told = Told { sum: 0 };
    let served = served(&rt, rt.alloc(), LISTING, SCRIPT, &mut told)?;
    drop(served);
    assert_eq!(rt; told.sum, 30506);
    Ok(())
}

// Listings that aren't loaded: the line that is at fault, its column and the refusal.
const REFUSED_LISTINGS: [(&str, u64, usize, Refusal); 6] = [
    ("A=1", 1, 1, Refusal::BadLine),
    ("^A=1\n\nA=1\n^B=2\n", 3, 1, Refusal::BadLine),
    ("^A(1)=5\n^A(1=5\n", 2, 5, Refusal::BadLine),
    ("Globals\nZWR\n^A=x\n", 3, 4, Refusal::BadLine),
    ("^A=1\n^1A(\"\")=1\n", 2, 1, Refusal::BadName),
    ("^A(\"\")=1", 1, 1, Refusal::EmptySubscript),
];

// Whether a listing isn't loaded for this line, and nothing is written.
fn is_refused<R: Threads + Wait + Sync>(
    rt: &R,
    alloc: Global,
    listing: &[u8],
    number: u64,
    column: usize,
    refusal: Refusal,
) -> Result<bool, Fail> {
    let went = run(rt, alloc, listing, SCRIPT)?;
    Ok(match went.outcome {
        Err(JobsFault::Load(LoadFault::Line(line))) => {
            line.number == number
                && line.column == column
                && line.refusal == refusal
                && went.text.is_empty()
        }
        _ => false,
    })
}

// The first listing that is loaded, or refused for something else; or none.
fn first_other_fault<R: Threads + Wait + Sync>(
    rt: &R,
    alloc: Global,
) -> Result<Option<usize>, Fail> {
    for (i, (listing, number, column, refusal)) in REFUSED_LISTINGS.iter().enumerate() {
        if !is_refused(rt, alloc, listing.as_bytes(), *number, *column, *refusal)? {
            return Ok(Some(i));
        }
    }
    Ok(None)
}

#[test]
fn a_line_that_sets_nothing_ends_the_load(rt: HostRuntime) -> Result<(), Fail> {
    assert_eq!(rt; first_other_fault(&rt, rt.alloc())?, None);
    Ok(())
}

// What stands behind `--` in an output.
fn listing_in(output: &str) -> &str {
    match output.split_once("--\n") {
        Some((_, listing)) => listing,
        None => "",
    }
}

// Whether what is listed in an output is loaded, and listed again.
fn lists_back<R: Threads + Wait + Sync>(rt: &R, alloc: Global, output: &str) -> Result<bool, Fail> {
    let listing = listing_in(output).as_bytes();
    let went = run(rt, alloc, listing, b"")?;
    Ok(went.outcome == Ok(false) && went.text.strip_prefix(b"--\n".as_slice()) == Some(listing))
}

// The first row whose listing isn't listed back; or none.
fn first_other<R: Threads + Wait + Sync>(
    rt: &R,
    alloc: Global,
    rows: &[Row],
) -> Result<Option<usize>, Fail> {
    for (i, (_, output)) in rows.iter().enumerate() {
        if !lists_back(rt, alloc, output)? {
            return Ok(Some(i));
        }
    }
    Ok(None)
}

#[test]
fn listings_are_listed_back(rt: HostRuntime) -> Result<(), Fail> {
    assert_eq!(rt; first_other(&rt, rt.alloc(), &ANSWERED)?, None);
    assert_eq!(rt; first_other(&rt, rt.alloc(), &COMMITS)?, None);
    assert_eq!(rt; first_other(&rt, rt.alloc(), &LEVELS)?, None);
    Ok(())
}

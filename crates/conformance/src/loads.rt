//! Listings that are loaded, and scripts that start from one. Expected from docs/FORMATS.md, never from the program.
use crate::scripts::output_of;
use job_core::JobCore;
use listing::{Counted, write_listing};
use loading::{LoadFault, load};
use refusal::Refusal;
use script_run::{NoLog, Upkeep, run_with_core};
use std::alloc::Global;
use std::test::Fail;
use worked_rows::{ANSWERED, COMMITS, INSIDE, LEVELS, OUTSIDE, REFUSED, Row};

// Texts, and what is listed of the databases that they leave.
const LOADED: [Row; 12] = [
    ("", ""),
    ("^A=1", "^A=1\n"),
    ("^A(1)=5\n^A(2)=\"x\"\n", "^A(1)=5\n^A(2)=\"x\"\n"),
    ("^B=2\n^A(01.50)=007\n", "^A(1.5)=7\n^B=2\n"),
    ("^A(1)=5\n\n^A(2)=6\n\n^A(1)=7\n", "^A(1)=7\n^A(2)=6\n"),
    ("^A(1)=5\r\n\r\n^A(2)=6\r\n", "^A(1)=5\n^A(2)=6\n"),
    ("  ^A=1\t\n", "^A=1\n"),
    ("^A=$c(65,66)_\"c\"\n", "^A=\"ABc\"\n"),
    (
        "^A(\"x\",\"\"\"\")=$C(0,10,13)_\"y\"\n",
        "^A(\"x\",\"\"\"\")=$C(0,10,13)_\"y\"\n",
    ),
    (
        "Globals of a test\n26-NOV-2026  04:00:00 ZWR\n^A(1)=\"x\"_$C(10)\n",
        "^A(1)=\"x\"_$C(10)\n",
    ),
    ("Globals\r\nZWR\r\n^A=1", "^A=1\n"),
    ("Globals\nZWR", ""),
];

// Texts that aren't loaded: the line that is at fault, its column and the refusal.
const REFUSED_TEXTS: [(&str, u64, usize, Refusal); 19] = [
    ("A=1", 1, 1, Refusal::BadLine),
    ("1 SET ^A=1", 1, 1, Refusal::BadLine),
    ("^A=1\n\nA=1\n^B=2\n", 3, 1, Refusal::BadLine),
    ("^A(1=5\n", 1, 5, Refusal::BadLine),
    ("^A=1.\n", 1, 4, Refusal::BadLine),
    ("^A=1x", 1, 5, Refusal::BadLine),
    (" ^A = 1", 1, 4, Refusal::BadLine),
    ("^A=1\r", 1, 5, Refusal::BadLine),
    ("^A", 1, 3, Refusal::BadLine),
    ("^A=1\n ", 2, 2, Refusal::BadLine),
    ("^A=$ZCHAR(65)", 1, 4, Refusal::BadLine),
    ("^A=1\n^1A(\"\")=1\n", 2, 1, Refusal::BadName),
    ("^A(\"\")=1", 1, 1, Refusal::EmptySubscript),
    (
        "^A(1,2,3,4,5,6,7,8,9,10,11,12,13,14,15,16,17,18,19,20,21,22,23,24,25,26,27,28,29,30,31,32)=1",
        1,
        1,
        Refusal::TooManySubscripts,
    ),
    ("Globals\nZWR\n^A=x\n", 3, 4, Refusal::BadLine),
    ("Globals\n^A=ZWR\n", 1, 1, Refusal::BadLine),
    ("^A=1\nGLO ZWR\n", 2, 1, Refusal::BadLine),
    ("ZWR\n", 1, 1, Refusal::BadLine),
    ("Globals\nzwr\n", 1, 1, Refusal::BadLine),
];

// Whether this is listed of the core.
fn lists(alloc: Global, core: &JobCore, listing: &[u8]) -> Result<bool, Fail> {
    let mut writer = Counted::new(Vec::new(alloc));
    write_listing(alloc, &core.content(), &mut writer)?;
    Ok(writer.inner().as_slice() == listing)
}

// Whether the text is loaded, and this is listed of what it leaves.
fn is_listed(alloc: Global, text: &[u8], listing: &[u8]) -> Result<bool, Fail> {
    match load(alloc, text) {
        Ok(core) => {
            let is_listed = lists(alloc, &core, listing);
            drop(core);
            is_listed
        }
        Err(_) => Ok(false),
    }
}

// Whether the text isn't loaded for this line.
fn is_refused(alloc: Global, text: &[u8], number: u64, column: usize, refusal: Refusal) -> bool {
    match load(alloc, text) {
        Ok(core) => {
            drop(core);
            false
        }
        Err(LoadFault::Line(line)) => {
            line.number == number && line.column == column && line.refusal == refusal
        }
        Err(LoadFault::Memory) => false,
    }
}

// The first text of which something else is listed; or none.
fn first_other_text(alloc: Global) -> Result<Option<usize>, Fail> {
    for (i, (text, listing)) in LOADED.iter().enumerate() {
        if !is_listed(alloc, text.as_bytes(), listing.as_bytes())? {
            return Ok(Some(i));
        }
    }
    Ok(None)
}

#[test]
fn texts_are_loaded(rt: HostRuntime) -> Result<(), Fail> {
    assert_eq!(rt; first_other_text(rt.alloc())?, None);
    Ok(())
}

// The first text that is loaded, or refused for something else; or none.
fn first_other_fault(alloc: Global) -> Option<usize> {
    for (i, (text, number, column, refusal)) in REFUSED_TEXTS.iter().enumerate() {
        if !is_refused(alloc, text.as_bytes(), *number, *column, *refusal) {
            return Some(i);
        }
    }
    None
}

#[test]
fn lines_that_set_nothing_end_a_load(rt: HostRuntime) -> Result<(), Fail> {
    assert_eq!(rt; first_other_fault(rt.alloc()), None);
    Ok(())
}

// A line of a value so long.
fn long_line(alloc: Global, length: usize) -> Result<Vec<u8>, Fail> {
    let mut line = Vec::from_slice(alloc, b"^A=\"")?;
    for _ in 0..length {
        line.push(b'x')?;
    }
    line.extend_from_slice(b"\"\n")?;
    Ok(line)
}

// Whether a value so long is loaded.
fn is_loaded(alloc: Global, length: usize) -> Result<bool, Fail> {
    let line = long_line(alloc, length)?;
    is_listed(alloc, &line, &line)
}

fn is_too_long(alloc: Global, length: usize) -> Result<bool, Fail> {
    let line = long_line(alloc, length)?;
    Ok(is_refused(alloc, &line, 1, 4, Refusal::ValueTooLong))
}

#[test]
fn values_are_loaded_up_to_their_limit(rt: HostRuntime) -> Result<(), Fail> {
    assert!(rt; is_loaded(rt.alloc(), 32767)?);
    assert!(rt; is_too_long(rt.alloc(), 32768)?);
    Ok(())
}

// What follows the line `--`.
fn listing_in(output: &[u8]) -> &[u8] {
    for i in 0..output.len() {
        if let Some(listing) = output[i..].strip_prefix(b"\n--\n") {
            return listing;
        }
    }
    &[]
}

// Whether the listing at the end of a script's output is loaded as the same database.
fn loads_back(alloc: Global, row: &Row) -> Result<bool, Fail> {
    let (script, _) = *row;
    let (output, _) = output_of(alloc, script.as_bytes())?;
    let listing = listing_in(&output);
    is_listed(alloc, listing, listing)
}

// The first script whose listing isn't; or none.
fn first_not_loaded(alloc: Global, rows: &[Row]) -> Result<Option<usize>, Fail> {
    for (i, row) in rows.iter().enumerate() {
        if !loads_back(alloc, row)? {
            return Ok(Some(i));
        }
    }
    Ok(None)
}

#[test]
fn listings_load_back(rt: HostRuntime) -> Result<(), Fail> {
    assert_eq!(rt; first_not_loaded(rt.alloc(), &ANSWERED)?, None);
    assert_eq!(rt; first_not_loaded(rt.alloc(), &REFUSED)?, None);
    assert_eq!(rt; first_not_loaded(rt.alloc(), &COMMITS)?, None);
    assert_eq!(rt; first_not_loaded(rt.alloc(), &LEVELS)?, None);
    assert_eq!(rt; first_not_loaded(rt.alloc(), &INSIDE)?, None);
    assert_eq!(rt; first_not_loaded(rt.alloc(), &OUTSIDE)?, None);
    Ok(())
}

// Whether a script that starts from a text writes this.
fn writes_from(alloc: Global, text: &str, script: &str, output: &str) -> bool {
    let mut reader = Counted::new(script.as_bytes());
    let mut writer = Counted::new(Vec::new(alloc));
    let outcome = match load(alloc, text.as_bytes()) {
        Ok(core) => run_with_core(
            alloc,
            core,
            true,
            Upkeep::none(),
            &mut reader,
            &mut writer,
            &mut NoLog,
        ),
        Err(_) => return false,
    };
    outcome.is_ok() && writer.inner().as_slice() == output.as_bytes()
}

// A text, a script that starts from it, and what that writes.
const STARTS: [(&str, &str, &str); 2] = [
    (
        "^A(1)=5\n^A(2)=6\n",
        "1 $GET(^A(1))\n1 SET ^A(2)=7\n2 $ORDER(^A(1))\n",
        "1 5\n1 ok\n2 2\n--\n^A(1)=5\n^A(2)=7\n",
    ),
    (
        "^A=1\n",
        "2 TSTART\n2 LOCK ^A\n2 KILL ^A\n2 TCOMMIT\n",
        "2 level 1\n2 1\n2 ok\n2 committed\n--\n",
    ),
];

#[test]
fn scripts_start_from_what_was_loaded(rt: HostRuntime) -> Result<(), Fail> {
    for (text, script, output) in &STARTS {
        assert!(rt; writes_from(rt.alloc(), text, script, output), "{text}");
    }
    Ok(())
}

//! Listings and the journal's lines: docs/FORMATS.md, "Loaded listings" and "A journal as a script".
use crate::copies::holds;
use crate::lines::is_answered;
use embedded::{Embedded, Outcome};
use refusal::Refusal;
use std::alloc::Global;
use std::test::*;

// Whether the journal's next lines are these, in a buffer of 40 bytes.
fn gives(engine: &mut Embedded, lines: &[u8]) -> bool {
    let mut buffer = [0; 40];
    let mut wanted = 99;
    let told = engine.copy_journal_lines(&mut buffer, &mut wanted);
    told == Outcome::Done && holds(&buffer, wanted, lines)
}

// Whether there is this outcome in place of the journal's next lines.
fn gives_none(engine: &mut Embedded, outcome: Outcome) -> bool {
    let mut wanted = 99;
    engine.copy_journal_lines(&mut [], &mut wanted) == outcome && wanted == 0
}

fn is_loaded(alloc: Global) -> bool {
    let text = b"^B=\"x\"\n\n^A(1)=5\n";
    let (mut line, mut column, mut wanted) = (9, 9, 9);
    match Embedded::load(alloc, text, &mut line, &mut column, &mut [], &mut wanted) {
        Ok(mut engine) => {
            let went = gives(&mut engine, b"1 SET ^B=\"x\"\n1 SET ^A(1)=5\n");
            drop(engine);
            went && line == 0 && column == 0 && wanted == 0
        }
        Err(_) => false,
    }
}

#[test]
fn a_listing_is_loaded(rt: HostRuntime) -> Result<(), Fail> {
    let went = is_loaded(rt.alloc());
    assert!(rt; went);
    Ok(())
}

fn is_refused(alloc: Global) -> bool {
    let (mut line, mut column, mut wanted) = (9, 9, 9);
    let mut expected = [0; 16];
    match Embedded::load(
        alloc,
        b"^A=1\n\n^B(1=2\n^C",
        &mut line,
        &mut column,
        &mut expected,
        &mut wanted,
    ) {
        Ok(engine) => {
            drop(engine);
            false
        }
        Err(refusal) => {
            let is_there = line == 3 && column == 5;
            refusal == Refusal::BadLine && is_there && holds(&expected, wanted, b"a comma or )")
        }
    }
}

#[test]
fn a_line_at_fault_is_told(rt: HostRuntime) -> Result<(), Fail> {
    let went = is_refused(rt.alloc());
    assert!(rt; went);
    Ok(())
}

// The lines of a SET, of a transaction, and of what came while it was open.
fn are_given(alloc: Global, engine: &mut Embedded) -> bool {
    is_answered(alloc, engine, b"1 SET ^A=1", Outcome::Done, b"1 ok\n")
        && is_answered(alloc, engine, b"2 TSTART", Outcome::Done, b"2 level 1\n")
        && is_answered(alloc, engine, b"2 SET ^B=2", Outcome::Done, b"2 ok\n")
        && is_answered(alloc, engine, b"1 KILL ^A", Outcome::Done, b"1 ok\n")
        && is_answered(alloc, engine, b"2 TCOMMIT", Outcome::Done, b"2 committed\n")
        && gives(engine, b"1 SET ^A=1\n1 KILL ^A\n")
        && gives(engine, b"2 TSTART\n2 SET ^B=2\n2 TCOMMIT\n")
        && gives_none(engine, Outcome::AtEnd)
}

#[test]
fn the_journals_lines_are_given(rt: HostRuntime) -> Result<(), Fail> {
    let mut engine = Embedded::new(rt.alloc());
    let went = are_given(rt.alloc(), &mut engine);
    drop(engine);
    assert!(rt; went);
    Ok(())
}

// A place in the journal, and lines that a checkpoint has dropped.
fn are_dropped(alloc: Global, engine: &mut Embedded) -> bool {
    let is_set = is_answered(alloc, engine, b"1 SET ^A=1", Outcome::Done, b"1 ok\n")
        && is_answered(alloc, engine, b"1 SET ^B=1", Outcome::Done, b"1 ok\n");
    engine.journal_from(alloc, 1);
    let is_second = gives(engine, b"1 SET ^B=1\n");
    engine.journal_from(alloc, 1);
    let is_checked = engine.checkpoint() == Outcome::Done;
    let is_gone = gives_none(engine, Outcome::Refused(Refusal::Gone));
    engine.journal_from(alloc, 2);
    is_set && is_second && is_checked && is_gone && gives_none(engine, Outcome::AtEnd)
}

#[test]
fn dropped_lines_are_gone(rt: HostRuntime) -> Result<(), Fail> {
    let mut engine = Embedded::new(rt.alloc());
    let went = are_dropped(rt.alloc(), &mut engine);
    drop(engine);
    assert!(rt; went);
    Ok(())
}

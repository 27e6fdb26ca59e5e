//! Commands of transactions by typed calls: docs/RULES.md, "Transactions".
use crate::copies::{is_at, put};
use command::Command;
use embedded::{Embedded, Outcome};
use refusal::Refusal;
use std::alloc::Global;
use std::test::*;
use typed_calls::{level, restarts, run_command, run_numbered};

// What a command of job 1 tells.
fn told(engine: &mut Embedded, command: Command) -> (Outcome, u64) {
    let mut number = 99;
    let outcome = run_numbered(engine, 1, command, &mut number);
    (outcome, number)
}

#[test]
fn levels_are_told(rt: HostRuntime) -> Result<(), Fail> {
    let mut engine = Embedded::new(rt.alloc());
    let one = told(&mut engine, Command::Start);
    let two = told(&mut engine, Command::Start);
    let inner = told(&mut engine, Command::Commit);
    let level = told(&mut engine, Command::Level);
    drop(engine);
    assert_eq!(rt; (one, two), ((Outcome::Done, 1), (Outcome::Done, 2)));
    assert_eq!(rt; (inner, level), ((Outcome::Done, 1), (Outcome::Done, 1)));
    Ok(())
}

#[test]
fn a_transaction_begins_anew(rt: HostRuntime) -> Result<(), Fail> {
    let mut engine = Embedded::new(rt.alloc());
    let start = told(&mut engine, Command::Start);
    let anew = told(&mut engine, Command::Restart);
    let count = told(&mut engine, Command::Restarts);
    drop(engine);
    assert_eq!(rt; start, (Outcome::Done, 1));
    assert_eq!(rt;
        (anew, count),
        ((Outcome::Restarted, 1), (Outcome::Done, 1))
    );
    Ok(())
}

// What is told of a job's level and restarts without a command.
fn looked(engine: &mut Embedded, job: u64) -> ((Outcome, u64), (Outcome, u64)) {
    let mut deep = 99;
    let mut often = 99;
    let of_level = level(engine, job, &mut deep);
    let of_restarts = restarts(engine, job, &mut often);
    ((of_level, deep), (of_restarts, often))
}

#[test]
fn levels_and_restarts_are_looked_at(rt: HostRuntime) -> Result<(), Fail> {
    let mut engine = Embedded::new(rt.alloc());
    let start = told(&mut engine, Command::Start);
    let anew = told(&mut engine, Command::Restart);
    let inner = told(&mut engine, Command::Start);
    let inside = looked(&mut engine, 1);
    let outside = looked(&mut engine, 2);
    let none = looked(&mut engine, 0);
    drop(engine);
    assert_eq!(rt;
        (start, anew, inner),
        (
            (Outcome::Done, 1),
            (Outcome::Restarted, 1),
            (Outcome::Done, 2)
        )
    );
    assert_eq!(rt; inside, ((Outcome::Done, 2), (Outcome::Done, 1)));
    assert_eq!(rt; outside, ((Outcome::Done, 0), (Outcome::Done, 0)));
    assert_eq!(rt;
        none,
        (
            (Outcome::Refused(Refusal::BadJob), 0),
            (Outcome::Refused(Refusal::BadJob), 0)
        )
    );
    Ok(())
}

const NONE_OPEN: Outcome = Outcome::Refused(Refusal::NoTransaction);

#[test]
fn no_transaction_is_open(rt: HostRuntime) -> Result<(), Fail> {
    let mut engine = Embedded::new(rt.alloc());
    let commit = run_command(&mut engine, 1, Command::Commit);
    let rollback = run_command(&mut engine, 1, Command::Rollback);
    let restart = run_command(&mut engine, 1, Command::Restart);
    let halt = run_command(&mut engine, 1, Command::Halt);
    drop(engine);
    assert_eq!(rt; (commit, rollback), (NONE_OPEN, NONE_OPEN));
    assert_eq!(rt; (restart, halt), (NONE_OPEN, Outcome::Done));
    Ok(())
}

// What TSTART of job 4,097 tells.
fn told_beyond(engine: &mut Embedded) -> (Outcome, u64) {
    let mut number = 99;
    let outcome = run_numbered(engine, 4097, Command::Start, &mut number);
    (outcome, number)
}

#[test]
fn jobs_are_1_to_4096(rt: HostRuntime) -> Result<(), Fail> {
    let mut engine = Embedded::new(rt.alloc());
    let none = run_command(&mut engine, 0, Command::Halt);
    let last = run_command(&mut engine, 4096, Command::Halt);
    let beyond = told_beyond(&mut engine);
    drop(engine);
    assert_eq!(rt;
        (none, last),
        (Outcome::Refused(Refusal::BadJob), Outcome::Done)
    );
    assert_eq!(rt; beyond, (Outcome::Refused(Refusal::BadJob), 0));
    Ok(())
}

// Job 1 sets ^A(7) in a transaction, and job 2 reads the value before.
fn set_inside(alloc: Global, engine: &mut Embedded) -> Result<bool, Refusal> {
    let start = run_command(engine, 1, Command::Start);
    let is_set = put(alloc, engine, 1, b"A", b"7", b"new")?;
    let is_hidden = is_at(alloc, engine, 2, b"A", b"7", b"")?;
    Ok(start == Outcome::Done && is_set && is_hidden)
}

#[test]
fn a_transaction_is_committed(rt: HostRuntime) -> Result<(), Fail> {
    let mut engine = Embedded::new(rt.alloc());
    let went = set_inside(rt.alloc(), &mut engine);
    let outcome = run_command(&mut engine, 1, Command::Commit);
    let is_there = is_at(rt.alloc(), &mut engine, 2, b"A", b"7", b"new");
    drop(engine);
    assert_eq!(rt; outcome, Outcome::Done);
    assert_eq!(rt; (went, is_there), (Ok(true), Ok(true)));
    Ok(())
}

#[test]
fn a_transaction_is_rolled_back(rt: HostRuntime) -> Result<(), Fail> {
    let mut engine = Embedded::new(rt.alloc());
    let went = set_inside(rt.alloc(), &mut engine);
    let outcome = run_command(&mut engine, 1, Command::Rollback);
    let is_gone = is_at(rt.alloc(), &mut engine, 1, b"A", b"7", b"");
    drop(engine);
    assert_eq!(rt; outcome, Outcome::Done);
    assert_eq!(rt; (went, is_gone), (Ok(true), Ok(true)));
    Ok(())
}

// Job 1 reads ^A(7) in a transaction, job 2 sets it, and job 1 writes.
fn overtaken(alloc: Global, engine: &mut Embedded) -> Result<bool, Refusal> {
    let start = run_command(engine, 1, Command::Start);
    let is_empty = is_at(alloc, engine, 1, b"A", b"7", b"")?;
    let is_changed = put(alloc, engine, 2, b"A", b"7", b"2")?;
    let is_set = put(alloc, engine, 1, b"A", b"10", b"1")?;
    Ok(start == Outcome::Done && is_empty && is_changed && is_set)
}

#[test]
fn an_overtaken_transaction_begins_anew(rt: HostRuntime) -> Result<(), Fail> {
    let mut engine = Embedded::new(rt.alloc());
    let went = overtaken(rt.alloc(), &mut engine);
    let outcome = run_command(&mut engine, 1, Command::Commit);
    let again = run_command(&mut engine, 1, Command::Commit);
    drop(engine);
    assert_eq!(rt; went, Ok(true));
    assert_eq!(rt; (outcome, again), (Outcome::Restarted, Outcome::Done));
    Ok(())
}

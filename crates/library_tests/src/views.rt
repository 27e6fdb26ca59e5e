//! Views, and what looks answer at a moment: include/vorgushan.h, "Views" and "Looks".
use crate::copies::{holds, put};
use crate::keys::child;
use collation::Direction;
use command::Command;
use embedded::{Embedded, Outcome};
use key_codec::Key;
use refusal::Refusal;
use std::alloc::Global;
use std::test::*;
use typed_calls::{begin_view, key_of_name, look_order, look_query, run_command};

// The number by which the view goes.
const VIEW: u64 = 9;

// ^A(7)="old", of which a view is begun; then ^A(7)="new" and ^A(8)="b".
fn put_beside_a_view(alloc: Global, engine: &mut Embedded) -> Result<bool, Refusal> {
    let old = put(alloc, engine, 1, b"A", b"7", b"old")?;
    let begun = begin_view(engine, VIEW) == Outcome::Done;
    let new = put(alloc, engine, 1, b"A", b"7", b"new")?;
    let more = put(alloc, engine, 1, b"A", b"8", b"b")?;
    let upkeep = engine.collect(100) == Outcome::Done && engine.checkpoint() == Outcome::Done;
    Ok(old && begun && new && more && upkeep)
}

// What a look at ^A(7) tells at a moment.
fn looked(
    alloc: Global,
    engine: &Embedded,
    moment: u64,
    room: &mut [u8],
) -> Result<(Outcome, usize), Refusal> {
    let key = child(alloc, b"A", b"7")?;
    let mut wanted = 99;
    let outcome = engine.look(moment, &key, room, &mut wanted);
    Ok((outcome, wanted))
}

#[test]
fn a_view_stays(rt: HostRuntime) -> Result<(), Fail> {
    let mut engine = Embedded::new(rt.alloc());
    let are_set = put_beside_a_view(rt.alloc(), &mut engine);
    let mut then = [0; 3];
    let mut now = [0; 3];
    let at_view = looked(rt.alloc(), &engine, VIEW, &mut then);
    let at_present = looked(rt.alloc(), &engine, 0, &mut now);
    drop(engine);
    assert_eq!(rt; are_set, Ok(true));
    assert_eq!(rt;
        (at_view, at_present),
        (Ok((Outcome::Done, 3)), Ok((Outcome::Done, 3)))
    );
    assert_eq!(rt; (then, now), (*b"old", *b"new"));
    Ok(())
}

// A view that is there, one that was ended, and numbers of no job.
fn told_of_views(engine: &mut Embedded) -> (Outcome, Outcome, Outcome, Outcome) {
    let again = begin_view(engine, VIEW);
    let none = begin_view(engine, 4097);
    let ended = run_command(engine, VIEW, Command::Rollback);
    let twice = run_command(engine, VIEW, Command::Rollback);
    (again, none, ended, twice)
}

#[test]
fn a_view_is_ended_once(rt: HostRuntime) -> Result<(), Fail> {
    let mut engine = Embedded::new(rt.alloc());
    let are_set = put_beside_a_view(rt.alloc(), &mut engine);
    let told = told_of_views(&mut engine);
    let over = looked(rt.alloc(), &engine, VIEW, &mut []);
    let nobody = looked(rt.alloc(), &engine, 4097, &mut []);
    drop(engine);
    let no_transaction = Outcome::Refused(Refusal::NoTransaction);
    let bad_job = Outcome::Refused(Refusal::BadJob);
    assert_eq!(rt; are_set, Ok(true));
    assert_eq!(rt;
        told,
        (
            Outcome::TransactionOpen,
            bad_job,
            Outcome::Done,
            no_transaction
        )
    );
    assert_eq!(rt; (over, nobody), (Ok((no_transaction, 0)), Ok((bad_job, 0))));
    Ok(())
}

// What $DATA of ^A(8) tells at a moment.
fn data_at(alloc: Global, engine: &Embedded, moment: u64) -> Result<(Outcome, u64), Refusal> {
    let key = child(alloc, b"A", b"8")?;
    let mut number = 99;
    let outcome = engine.look_data(moment, &key, &mut number);
    Ok((outcome, number))
}

#[test]
fn data_is_looked_at(rt: HostRuntime) -> Result<(), Fail> {
    let mut engine = Embedded::new(rt.alloc());
    let are_set = put_beside_a_view(rt.alloc(), &mut engine);
    let then = data_at(rt.alloc(), &engine, VIEW);
    let now = data_at(rt.alloc(), &engine, 0);
    drop(engine);
    assert_eq!(rt; are_set, Ok(true));
    assert_eq!(rt;
        (then, now),
        (Ok((Outcome::Done, 0)), Ok((Outcome::Done, 1)))
    );
    Ok(())
}

// Whether the subscript below ^A next to this one is that, at a moment.
fn is_next(
    alloc: Global,
    engine: &Embedded,
    moment: u64,
    start: &[u8],
    direction: Direction,
    want: &[u8],
) -> Result<bool, Refusal> {
    let level = key_of_name(alloc, b"A")?;
    let mut buffer = [0; 8];
    let mut wanted = 99;
    let outcome = look_order(
        engine,
        alloc,
        moment,
        &level,
        start,
        direction,
        &mut buffer,
        &mut wanted,
    );
    Ok(outcome == Outcome::Done && holds(&buffer, wanted, want))
}

fn are_in_order(alloc: Global, engine: &Embedded) -> Result<bool, Refusal> {
    let first = is_next(alloc, engine, VIEW, b"", Direction::Forward, b"7")?;
    let none = is_next(alloc, engine, VIEW, b"7", Direction::Forward, b"")?;
    let second = is_next(alloc, engine, 0, b"7", Direction::Forward, b"8")?;
    let last = is_next(alloc, engine, 0, b"", Direction::Backward, b"8")?;
    Ok(first && none && second && last)
}

#[test]
fn order_is_looked_at(rt: HostRuntime) -> Result<(), Fail> {
    let mut engine = Embedded::new(rt.alloc());
    let are_set = put_beside_a_view(rt.alloc(), &mut engine);
    let went = are_in_order(rt.alloc(), &engine);
    drop(engine);
    assert_eq!(rt; (are_set, went), (Ok(true), Ok(true)));
    Ok(())
}

// Whether the key moves on to the one with these bytes, at a moment.
fn moves(engine: &Embedded, moment: u64, key: &mut Key, bytes: &[u8]) -> bool {
    let outcome = look_query(engine, moment, key, false, Direction::Forward);
    outcome == Outcome::Done && key.as_slice() == bytes
}

fn are_found(alloc: Global, engine: &Embedded) -> Result<bool, Refusal> {
    let mut key = key_of_name(alloc, b"A")?;
    let first = moves(engine, VIEW, &mut key, b"A\0\x04\x01\x01\x08\x00");
    let end = look_query(engine, VIEW, &mut key, false, Direction::Forward);
    let second = moves(engine, 0, &mut key, b"A\0\x04\x01\x01\x09\x00");
    Ok(first && end == Outcome::AtEnd && second)
}

#[test]
fn query_is_looked_at(rt: HostRuntime) -> Result<(), Fail> {
    let mut engine = Embedded::new(rt.alloc());
    let are_set = put_beside_a_view(rt.alloc(), &mut engine);
    let went = are_found(rt.alloc(), &engine);
    drop(engine);
    assert_eq!(rt; (are_set, went), (Ok(true), Ok(true)));
    Ok(())
}

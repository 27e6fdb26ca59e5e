//! Sums, the kills that take a part, and names: docs/RULES.md, the table of commands.
use crate::copies::{holds, is_at, put};
use crate::keys::child;
use collation::Direction;
use embedded::{Embedded, Outcome};
use refusal::Refusal;
use std::alloc::Global;
use std::test::*;
use typed_calls::{increment, key_of_name, kill_subscripts, kill_value, next_name, set};

// Whether ^A(7) and this number are so much, and that is copied.
fn adds_up(
    alloc: Global,
    engine: &mut Embedded,
    number: &[u8],
    sum: &[u8],
) -> Result<bool, Refusal> {
    let key = child(alloc, b"A", b"7")?;
    let mut buffer = [0; 8];
    let mut wanted = 99;
    let outcome = increment(engine, alloc, 1, &key, number, &mut buffer, &mut wanted);
    Ok(outcome == Outcome::Done && holds(&buffer, wanted, sum))
}

fn are_summed(alloc: Global, engine: &mut Embedded) -> Result<bool, Refusal> {
    let of_none = adds_up(alloc, engine, b"1", b"1")?;
    let of_one = adds_up(alloc, engine, b"-1.5", b"-.5")?;
    Ok(of_none && of_one && is_at(alloc, engine, 1, b"A", b"7", b"-.5")?)
}

#[test]
fn sums_are_answered_and_kept(rt: HostRuntime) -> Result<(), Fail> {
    let mut engine = Embedded::new(rt.alloc());
    let went = are_summed(rt.alloc(), &mut engine);
    drop(engine);
    assert_eq!(rt; went, Ok(true));
    Ok(())
}

// What an increment of ^A(7) by this answers.
fn incremented(alloc: Global, engine: &mut Embedded, number: &[u8]) -> Result<Outcome, Refusal> {
    let key = child(alloc, b"A", b"7")?;
    let mut wanted = 99;
    Ok(increment(engine, alloc, 1, &key, number, &mut [], &mut wanted))
}

#[test]
fn a_number_that_is_not_canonic_is_refused(rt: HostRuntime) -> Result<(), Fail> {
    let mut engine = Embedded::new(rt.alloc());
    let outcome = incremented(rt.alloc(), &mut engine, b"01");
    let of_none = incremented(rt.alloc(), &mut engine, b"");
    drop(engine);
    assert_eq!(rt; outcome, Ok(Outcome::Refused(Refusal::BadLine)));
    assert_eq!(rt; of_none, Ok(Outcome::Refused(Refusal::BadLine)));
    Ok(())
}

// ^A and ^A(7) have values.
fn put_both(alloc: Global, engine: &mut Embedded) -> Result<bool, Refusal> {
    let key = key_of_name(alloc, b"A")?;
    let is_set = set(engine, alloc, 1, &key, b"top") == Outcome::Done;
    Ok(put(alloc, engine, 1, b"A", b"7", b"low")? && is_set)
}

// KVALUE of ^A leaves ^A(7).
fn kept_below(alloc: Global, engine: &mut Embedded) -> Result<bool, Refusal> {
    let are_put = put_both(alloc, engine)?;
    let key = key_of_name(alloc, b"A")?;
    let is_killed = kill_value(engine, 1, &key) == Outcome::Done;
    Ok(are_put && is_killed && is_at(alloc, engine, 1, b"A", b"7", b"low")?)
}

#[test]
fn a_value_is_killed_alone(rt: HostRuntime) -> Result<(), Fail> {
    let mut engine = Embedded::new(rt.alloc());
    let went = kept_below(rt.alloc(), &mut engine);
    drop(engine);
    assert_eq!(rt; went, Ok(true));
    Ok(())
}

// KSUBSCRIPTS of ^A takes ^A(7).
fn taken_below(alloc: Global, engine: &mut Embedded) -> Result<bool, Refusal> {
    let are_put = put_both(alloc, engine)?;
    let key = key_of_name(alloc, b"A")?;
    let is_killed = kill_subscripts(engine, 1, &key) == Outcome::Done;
    Ok(are_put && is_killed && is_at(alloc, engine, 1, b"A", b"7", b"")?)
}

#[test]
fn subscripts_are_killed(rt: HostRuntime) -> Result<(), Fail> {
    let mut engine = Embedded::new(rt.alloc());
    let went = taken_below(rt.alloc(), &mut engine);
    drop(engine);
    assert_eq!(rt; went, Ok(true));
    Ok(())
}

// Whether this is the next name, or none where it is empty.
fn is_next(
    alloc: Global,
    engine: &mut Embedded,
    start: &[u8],
    direction: Direction,
    name: &[u8],
) -> bool {
    let mut buffer = [0; 31];
    let mut wanted = 99;
    let outcome = next_name(engine, alloc, 1, start, direction, &mut buffer, &mut wanted);
    let is_end = name.is_empty();
    let expected = if is_end {
        Outcome::AtEnd
    } else {
        Outcome::Done
    };
    outcome == expected && holds(&buffer, wanted, name)
}

#[test]
fn names_are_walked(rt: HostRuntime) -> Result<(), Fail> {
    let mut engine = Embedded::new(rt.alloc());
    let are_put = put_both(rt.alloc(), &mut engine);
    let first = is_next(rt.alloc(), &mut engine, b"", Direction::Forward, b"A");
    let none = is_next(rt.alloc(), &mut engine, b"A", Direction::Forward, b"");
    let last = is_next(rt.alloc(), &mut engine, b"B", Direction::Backward, b"A");
    drop(engine);
    assert_eq!(rt; are_put, Ok(true));
    assert_eq!(rt; (first, none, last), (true, true, true));
    Ok(())
}

#[test]
fn a_start_that_is_no_name_is_refused(rt: HostRuntime) -> Result<(), Fail> {
    let mut engine = Embedded::new(rt.alloc());
    let mut wanted = 99;
    let outcome = next_name(
        &mut engine,
        rt.alloc(),
        1,
        b"^A",
        Direction::Forward,
        &mut [],
        &mut wanted,
    );
    drop(engine);
    assert_eq!(rt; outcome, Outcome::Refused(Refusal::BadName));
    assert_eq!(rt; wanted, 0);
    Ok(())
}

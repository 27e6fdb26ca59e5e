//! Typed calls on keys: docs/RULES.md, the table of commands.
use crate::copies::{holds, is_at, is_read, put};
use crate::keys::{child, deepest};
use collation::Direction;
use embedded::{Embedded, Outcome};
use key_codec::Key;
use refusal::Refusal;
use std::alloc::Global;
use std::test::*;
use typed_calls::{copy_value, data, get, key_of_name, kill, look_query, merge, order, query, set};

// A value with a byte 0 is set, read and killed.
fn set_and_killed(alloc: Global, engine: &mut Embedded) -> Result<bool, Refusal> {
    let key = child(alloc, b"A", b"7")?;
    let is_set = set(engine, alloc, 1, &key, b"x\0y") == Outcome::Done;
    let is_there = is_read(engine, 2, &key, b"x\0y");
    let is_killed = kill(engine, 1, &key) == Outcome::Done;
    Ok(is_set && is_there && is_killed && is_read(engine, 2, &key, b""))
}

#[test]
fn a_value_is_set_read_and_killed(rt: HostRuntime) -> Result<(), Fail> {
    let mut engine = Embedded::new(rt.alloc());
    let went = set_and_killed(rt.alloc(), &mut engine);
    drop(engine);
    assert_eq!(rt; went, Ok(true));
    Ok(())
}

const TOO_LONG: &[u8] = &[b'v'; 32768];

fn too_long(alloc: Global, engine: &mut Embedded) -> Result<Outcome, Refusal> {
    let key = child(alloc, b"A", b"7")?;
    Ok(set(engine, alloc, 1, &key, TOO_LONG))
}

#[test]
fn a_value_of_32768_bytes_is_refused(rt: HostRuntime) -> Result<(), Fail> {
    let mut engine = Embedded::new(rt.alloc());
    let outcome = too_long(rt.alloc(), &mut engine);
    drop(engine);
    assert_eq!(rt; outcome, Ok(Outcome::Refused(Refusal::ValueTooLong)));
    Ok(())
}

// A buffer too short gets nothing, and the value is copied into a longer one.
fn kept_for_longer(alloc: Global, engine: &mut Embedded) -> Result<bool, Refusal> {
    let key = child(alloc, b"A", b"7")?;
    let mut short = [0; 2];
    let mut wanted = 0;
    let is_short = get(engine, 1, &key, &mut short, &mut wanted) == Outcome::BufferTooShort;
    let mut longer = [0; 3];
    let is_copied = copy_value(&engine.last, &mut longer, &mut wanted) == Outcome::Done;
    Ok(is_short && short == [0; 2] && is_copied && holds(&longer, wanted, b"abc"))
}

#[test]
fn a_value_is_kept_for_a_longer_buffer(rt: HostRuntime) -> Result<(), Fail> {
    let mut engine = Embedded::new(rt.alloc());
    let is_set = put(rt.alloc(), &mut engine, 1, b"A", b"7", b"abc");
    let went = kept_for_longer(rt.alloc(), &mut engine);
    drop(engine);
    assert_eq!(rt; is_set, Ok(true));
    assert_eq!(rt; went, Ok(true));
    Ok(())
}

#[test]
fn there_is_no_value_before_the_first_call(rt: HostRuntime) -> Result<(), Fail> {
    let mut wanted = 99;
    assert_eq!(rt; copy_value(&None, &mut [], &mut wanted), Outcome::NoReply);
    assert_eq!(rt; wanted, 0);
    Ok(())
}

// ^A(7) and ^A(10).
fn put_two(alloc: Global, engine: &mut Embedded) -> Result<bool, Refusal> {
    let first = put(alloc, engine, 1, b"A", b"7", b"a")?;
    let second = put(alloc, engine, 1, b"A", b"10", b"b")?;
    Ok(first && second)
}

// What $DATA of a name tells.
fn data_of(alloc: Global, engine: &mut Embedded, name: &[u8]) -> Result<u64, Refusal> {
    let key = key_of_name(alloc, name)?;
    let mut number = 99;
    match data(engine, 1, &key, &mut number) {
        Outcome::Done => Ok(number),
        _ => Ok(77),
    }
}

#[test]
fn data_tells_of_values_below(rt: HostRuntime) -> Result<(), Fail> {
    let mut engine = Embedded::new(rt.alloc());
    let are_set = put_two(rt.alloc(), &mut engine);
    let of_a = data_of(rt.alloc(), &mut engine, b"A");
    let of_b = data_of(rt.alloc(), &mut engine, b"B");
    drop(engine);
    assert_eq!(rt; are_set, Ok(true));
    assert_eq!(rt; (of_a, of_b), (Ok(10), Ok(0)));
    Ok(())
}

// ^B gets what ^A has.
fn merged(alloc: Global, engine: &mut Embedded) -> Result<bool, Refusal> {
    let from = key_of_name(alloc, b"A")?;
    let to = key_of_name(alloc, b"B")?;
    Ok(merge(engine, 1, &to, &from) == Outcome::Done)
}

#[test]
fn a_subtree_is_merged(rt: HostRuntime) -> Result<(), Fail> {
    let mut engine = Embedded::new(rt.alloc());
    let are_set = put_two(rt.alloc(), &mut engine);
    let is_merged = merged(rt.alloc(), &mut engine);
    let is_there = is_at(rt.alloc(), &mut engine, 1, b"B", b"10", b"b");
    drop(engine);
    assert_eq!(rt;
        (are_set, is_merged, is_there),
        (Ok(true), Ok(true), Ok(true))
    );
    Ok(())
}

// Whether the subscript next to this one below ^A is that.
fn is_next(
    alloc: Global,
    engine: &mut Embedded,
    start: &[u8],
    direction: Direction,
    want: &[u8],
) -> Result<bool, Refusal> {
    let level = key_of_name(alloc, b"A")?;
    let mut buffer = [0; 8];
    let mut wanted = 99;
    let outcome = order(
        engine,
        alloc,
        1,
        &level,
        start,
        direction,
        &mut buffer,
        &mut wanted,
    );
    Ok(outcome == Outcome::Done && holds(&buffer, wanted, want))
}

fn are_in_order(alloc: Global, engine: &mut Embedded) -> Result<bool, Refusal> {
    let are_set = put_two(alloc, engine)?;
    let first = is_next(alloc, engine, b"", Direction::Forward, b"7")?;
    let second = is_next(alloc, engine, b"7", Direction::Forward, b"10")?;
    let none = is_next(alloc, engine, b"10", Direction::Forward, b"")?;
    let last = is_next(alloc, engine, b"", Direction::Backward, b"10")?;
    Ok(are_set && first && second && none && last)
}

#[test]
fn order_walks_a_level(rt: HostRuntime) -> Result<(), Fail> {
    let mut engine = Embedded::new(rt.alloc());
    let went = are_in_order(rt.alloc(), &mut engine);
    drop(engine);
    assert_eq!(rt; went, Ok(true));
    Ok(())
}

// Whether the key moves on to the one with these bytes.
fn moves(engine: &mut Embedded, key: &mut Key, bytes: &[u8]) -> bool {
    query(engine, 1, key, false, Direction::Forward) == Outcome::Done && key.as_slice() == bytes
}

fn are_found(alloc: Global, engine: &mut Embedded) -> Result<bool, Refusal> {
    let mut key = key_of_name(alloc, b"A")?;
    let first = moves(engine, &mut key, b"A\0\x04\x01\x01\x08\x00");
    let second = moves(engine, &mut key, b"A\0\x04\x01\x02\x02\x00");
    let outcome = query(engine, 1, &mut key, false, Direction::Forward);
    Ok(first && second && outcome == Outcome::AtEnd)
}

#[test]
fn query_walks_all_nodes(rt: HostRuntime) -> Result<(), Fail> {
    let mut engine = Embedded::new(rt.alloc());
    let are_set = put_two(rt.alloc(), &mut engine);
    let went = are_found(rt.alloc(), &mut engine);
    drop(engine);
    assert_eq!(rt; (are_set, went), (Ok(true), Ok(true)));
    Ok(())
}

// Whether a key of 31 subscripts stays, which no empty one may follow.
fn stays(alloc: Global, engine: &mut Embedded) -> Result<bool, Refusal> {
    let mut key = deepest(alloc)?;
    let refused = Outcome::Refused(Refusal::TooManySubscripts);
    let asked = query(engine, 1, &mut key, true, Direction::Backward);
    let looked = look_query(engine, 0, &mut key, true, Direction::Backward);
    let at_it = query(engine, 1, &mut key, false, Direction::Backward);
    Ok(asked == refused && looked == refused && at_it == Outcome::AtEnd)
}

#[test]
fn no_query_starts_below_31_subscripts(rt: HostRuntime) -> Result<(), Fail> {
    let mut engine = Embedded::new(rt.alloc());
    let went = stays(rt.alloc(), &mut engine);
    drop(engine);
    assert_eq!(rt; went, Ok(true));
    Ok(())
}

// A key serves for any engine.
fn on_both(alloc: Global, one: &mut Embedded, other: &mut Embedded) -> Result<bool, Refusal> {
    let key = child(alloc, b"A", b"7")?;
    let first = set(one, alloc, 1, &key, b"one") == Outcome::Done;
    let second = set(other, alloc, 1, &key, b"other") == Outcome::Done;
    Ok(first && second && is_read(one, 1, &key, b"one") && is_read(other, 1, &key, b"other"))
}

#[test]
fn a_key_is_used_on_two_engines(rt: HostRuntime) -> Result<(), Fail> {
    let mut one = Embedded::new(rt.alloc());
    let mut other = Embedded::new(rt.alloc());
    let went = on_both(rt.alloc(), &mut one, &mut other);
    drop(one);
    drop(other);
    assert_eq!(rt; went, Ok(true));
    Ok(())
}

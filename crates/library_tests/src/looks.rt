//! Looks, listings and figures, which are no commands: include/vorgushan.h.
use crate::copies::{holds, put};
use crate::keys::child;
use collation::Direction;
use embedded::{Embedded, Outcome, Statistics};
use key_codec::Key;
use refusal::Refusal;
use std::alloc::Global;
use std::test::*;
use typed_calls::{key_of_name, look_children};

// Whether the next line of the listing is this.
fn is_listed(engine: &mut Embedded, line: &[u8]) -> bool {
    let mut buffer = [0; 16];
    let mut wanted = 99;
    let outcome = engine.copy_next_node(0, &mut buffer, &mut wanted);
    outcome == Outcome::Done && holds(&buffer, wanted, line)
}

fn are_listed(engine: &mut Embedded) -> bool {
    let both = is_listed(engine, b"^A(7)=5\n") && is_listed(engine, b"^A(10)=\"x\"\n");
    let mut wanted = 99;
    let end = engine.copy_next_node(0, &mut [], &mut wanted);
    engine.list_from_start();
    both && end == Outcome::AtEnd && wanted == 0 && is_listed(engine, b"^A(7)=5\n")
}

fn put_two(alloc: Global, engine: &mut Embedded) -> Result<bool, Refusal> {
    let first = put(alloc, engine, 1, b"A", b"7", b"5")?;
    let second = put(alloc, engine, 1, b"A", b"10", b"x")?;
    Ok(first && second)
}

#[test]
fn nodes_are_listed_line_by_line(rt: HostRuntime) -> Result<(), Fail> {
    let mut engine = Embedded::new(rt.alloc());
    let are_set = put_two(rt.alloc(), &mut engine);
    let went = are_listed(&mut engine);
    drop(engine);
    assert_eq!(rt; are_set, Ok(true));
    assert!(rt; went);
    Ok(())
}

// What a look at ^A with a subscript tells, with so much room.
fn looked(
    alloc: Global,
    engine: &Embedded,
    subscript: &[u8],
    room: &mut [u8],
) -> Result<(Outcome, usize), Refusal> {
    let key = child(alloc, b"A", subscript)?;
    let mut wanted = 99;
    let outcome = engine.look(0, &key, room, &mut wanted);
    Ok((outcome, wanted))
}

#[test]
fn a_value_is_looked_at(rt: HostRuntime) -> Result<(), Fail> {
    let mut engine = Embedded::new(rt.alloc());
    let are_set = put_two(rt.alloc(), &mut engine);
    let mut buffer = [0; 1];
    let there = looked(rt.alloc(), &engine, b"10", &mut buffer);
    drop(engine);
    assert_eq!(rt; (are_set, buffer), (Ok(true), *b"x"));
    assert_eq!(rt; there, Ok((Outcome::Done, 1)));
    Ok(())
}

#[test]
fn a_look_finds_no_room_or_no_value(rt: HostRuntime) -> Result<(), Fail> {
    let mut engine = Embedded::new(rt.alloc());
    let are_set = put_two(rt.alloc(), &mut engine);
    let short = looked(rt.alloc(), &engine, b"10", &mut []);
    let none = looked(rt.alloc(), &engine, b"8", &mut []);
    drop(engine);
    assert_eq!(rt;
        (are_set, short),
        (Ok(true), Ok((Outcome::BufferTooShort, 1)))
    );
    assert_eq!(rt; none, Ok((Outcome::NoValue, 0)));
    Ok(())
}

// ^A(7)=5 in a buffer: how long the key and the value are, and both.
const FIRST: &[u8] = b"\x07\0\0\0\0\0\0\0\x01\0\0\0\0\0\0\0A\0\x04\x01\x01\x08\x005";

// Whether a walk goes over both nodes, one at a time where there is room for one, to the end.
fn are_walked(alloc: Global, engine: &mut Embedded, place: &mut Option<Box<Key>>) -> bool {
    let mut buffer = [0; 30];
    let mut wanted = 99;
    let first = engine.copy_nodes(alloc, 0, &None, place, &mut buffer, &mut wanted);
    let is_first = first == Outcome::Done && holds(&buffer, wanted, FIRST);
    let second = engine.copy_nodes(alloc, 0, &None, place, &mut buffer, &mut wanted);
    let end = engine.copy_nodes(alloc, 0, &None, place, &mut buffer, &mut wanted);
    is_first && second == Outcome::Done && end == Outcome::AtEnd
}

#[test]
fn nodes_are_walked(rt: HostRuntime) -> Result<(), Fail> {
    let mut engine = Embedded::new(rt.alloc());
    let are_set = put_two(rt.alloc(), &mut engine);
    let mut place = None;
    let went = are_walked(rt.alloc(), &mut engine, &mut place);
    drop(place);
    drop(engine);
    assert_eq!(rt; are_set, Ok(true));
    assert!(rt; went);
    Ok(())
}

// What is told of the name next to a start, with so much room.
fn named(
    alloc: Global,
    engine: &Embedded,
    start: &[u8],
    direction: Direction,
    room: &mut [u8],
) -> (Outcome, usize) {
    let mut wanted = 99;
    let outcome = engine.look_name(alloc, 0, start, direction, room, &mut wanted);
    (outcome, wanted)
}

#[test]
fn the_next_name_is_looked_at(rt: HostRuntime) -> Result<(), Fail> {
    let mut engine = Embedded::new(rt.alloc());
    let are_set = put_two(rt.alloc(), &mut engine);
    let mut buffer = [0; 1];
    let first = named(rt.alloc(), &engine, b"", Direction::Forward, &mut buffer);
    let last = named(rt.alloc(), &engine, b"", Direction::Backward, &mut []);
    let end = named(rt.alloc(), &engine, b"A", Direction::Forward, &mut []);
    let refused = named(rt.alloc(), &engine, b"1", Direction::Forward, &mut []);
    drop(engine);
    assert_eq!(rt;
        (are_set, buffer, first),
        (Ok(true), *b"A", (Outcome::Done, 1))
    );
    assert_eq!(rt;
        (last, end),
        ((Outcome::BufferTooShort, 1), (Outcome::AtEnd, 0))
    );
    assert_eq!(rt; refused, (Outcome::Refused(Refusal::BadName), 0));
    Ok(())
}

// 7="5" and 10="x" as children in a buffer: how long subscript and value are, what $DATA tells, and both.
const SEVEN: &[u8] = b"\x01\0\0\0\0\0\0\0\x01\0\0\0\0\0\0\0\x01\0\0\0\0\0\0\x0075";

const TEN: &[u8] = b"\x02\0\0\0\0\0\0\0\x01\0\0\0\0\0\0\0\x01\0\0\0\0\0\0\x0010x";

// Whether the children of ^A after a start are told so, where there is room for one.
fn is_child(alloc: Global, engine: &mut Embedded, start: &[u8], want: &[u8]) -> bool {
    let Ok(key) = key_of_name(alloc, b"A") else {
        return false;
    };
    let mut buffer = [0; 30];
    let mut wanted = 99;
    let outcome = look_children(engine, alloc, 0, &key, start, &mut buffer, &mut wanted);
    outcome == Outcome::Done && holds(&buffer, wanted, want)
}

// What is told of the children of ^A after a start, with so much room.
fn children(
    alloc: Global,
    engine: &mut Embedded,
    start: &[u8],
    room: &mut [u8],
) -> Result<(Outcome, usize), Refusal> {
    let key = key_of_name(alloc, b"A")?;
    let mut wanted = 99;
    let outcome = look_children(engine, alloc, 0, &key, start, room, &mut wanted);
    Ok((outcome, wanted))
}

#[test]
fn children_are_looked_at(rt: HostRuntime) -> Result<(), Fail> {
    let mut engine = Embedded::new(rt.alloc());
    let are_set = put_two(rt.alloc(), &mut engine);
    let first = is_child(rt.alloc(), &mut engine, b"", SEVEN);
    let second = is_child(rt.alloc(), &mut engine, b"7", TEN);
    let end = children(rt.alloc(), &mut engine, b"10", &mut []);
    let short = children(rt.alloc(), &mut engine, b"", &mut []);
    drop(engine);
    assert_eq!(rt; (are_set, first, second), (Ok(true), true, true));
    assert_eq!(rt;
        (end, short),
        (Ok((Outcome::AtEnd, 0)), Ok((Outcome::BufferTooShort, 26)))
    );
    Ok(())
}

// What the engine tells of its units and nodes, and whether its journal has bytes.
fn counted(engine: &Embedded) -> (u64, u64, bool) {
    let Statistics {
        units,
        journal_bytes,
        nodes,
    } = engine.statistics();
    (units, nodes, journal_bytes > 0)
}

#[test]
fn a_checkpoint_drops_the_journals_bytes(rt: HostRuntime) -> Result<(), Fail> {
    let mut engine = Embedded::new(rt.alloc());
    let are_set = put_two(rt.alloc(), &mut engine);
    let before = counted(&engine);
    let dropped = engine.checkpoint();
    let collected = engine.collect(100);
    let after = counted(&engine);
    let units = engine.units();
    drop(engine);
    assert_eq!(rt; (are_set, before), (Ok(true), (2, 2, true)));
    assert_eq!(rt; (dropped, collected), (Outcome::Done, Outcome::Done));
    assert_eq!(rt; (after, units), ((2, 2, false), 2));
    Ok(())
}

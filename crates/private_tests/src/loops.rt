//! Loops over nodes: however many steps they take, what they read is one range.
use crate::keys::{key_of, put};
use collation::{Direction, Text};
use command::{DataCommand, Look};
use key_codec::Place;
use key_map::KeyMap;
use read_ranges::Ranges;
use refusal::Refusal;
use std::alloc::Global;
use std::test::*;

fn put_all(alloc: Global, map: &mut KeyMap<Text>, spelled: &[&[u8]]) -> Result<(), Refusal> {
    for one in spelled {
        put(alloc, map, one, b'x')?;
    }
    Ok(())
}

// Does a command that looks on the map, and notes what it read.
fn is_noted(alloc: Global, map: &KeyMap<Text>, ranges: &mut Ranges, command: &DataCommand) -> bool {
    match command {
        DataCommand::Look(look) => match globals::look(alloc, map, look) {
            Ok(answer) => {
                let is_noted = ranges.note(alloc, command, &answer, false).is_ok();
                drop(answer);
                is_noted
            }
            Err(_) => false,
        },
        _ => false,
    }
}

fn note(
    alloc: Global,
    map: &KeyMap<Text>,
    ranges: &mut Ranges,
    command: DataCommand,
) -> Result<(), Refusal> {
    let is_noted = is_noted(alloc, map, ranges, &command);
    drop(command);
    if is_noted {
        Ok(())
    } else {
        Err(Refusal::OutOfMemory)
    }
}

fn order(
    alloc: Global,
    map: &KeyMap<Text>,
    ranges: &mut Ranges,
    spelled: &[u8],
    is_open: bool,
    direction: Direction,
) -> Result<(), Refusal> {
    let place = Place::new(key_of(alloc, spelled)?, is_open);
    note(
        alloc,
        map,
        ranges,
        DataCommand::Look(Look::Order(place, direction)),
    )
}

fn query(
    alloc: Global,
    map: &KeyMap<Text>,
    ranges: &mut Ranges,
    spelled: &[u8],
) -> Result<(), Refusal> {
    let place = Place::new(key_of(alloc, spelled)?, false);
    note(
        alloc,
        map,
        ranges,
        DataCommand::Look(Look::Query(place, Direction::Forward)),
    )
}

fn get(
    alloc: Global,
    map: &KeyMap<Text>,
    ranges: &mut Ranges,
    spelled: &[u8],
) -> Result<(), Refusal> {
    let key = key_of(alloc, spelled)?;
    note(alloc, map, ranges, DataCommand::Look(Look::Get(key, None)))
}

fn meets(alloc: Global, ranges: &Ranges, spelled: &[u8]) -> Result<bool, Refusal> {
    let key = key_of(alloc, spelled)?;
    Ok(ranges.meets(&key))
}

const NODES: [&[u8]; 7] = [b"A1", b"A12", b"A2", b"A35", b"A4", b"B1", b"C1"];

// Whether so many ranges stand, and of these references the first lie in them and the others don't.
fn has_read(
    alloc: Global,
    ranges: &Ranges,
    count: usize,
    inside: &[&[u8]],
    outside: &[&[u8]],
) -> Result<bool, Refusal> {
    for spelled in inside {
        if !meets(alloc, ranges, spelled)? {
            return Ok(false);
        }
    }
    for spelled in outside {
        if meets(alloc, ranges, spelled)? {
            return Ok(false);
        }
    }
    Ok(ranges.len() == count)
}

// $ORDER forward over ^A, with a $GET of each node and of one of ^B at each step.
fn go_forward(alloc: Global, map: &KeyMap<Text>, ranges: &mut Ranges) -> Result<bool, Refusal> {
    order(alloc, map, ranges, b"A", true, Direction::Forward)?;
    for place in [b"A1", b"A2", b"A3", b"A4"] {
        get(alloc, map, ranges, place)?;
        get(alloc, map, ranges, b"B1")?;
        order(alloc, map, ranges, place, false, Direction::Forward)?;
    }
    has_read(alloc, ranges, 2, &[b"A12", b"A99", b"B1"], &[b"A", b"B11"])
}

fn go_backward(alloc: Global, map: &KeyMap<Text>, ranges: &mut Ranges) -> Result<bool, Refusal> {
    order(alloc, map, ranges, b"A", true, Direction::Backward)?;
    for place in [b"A4", b"A3", b"A2"] {
        order(alloc, map, ranges, place, false, Direction::Backward)?;
    }
    has_read(alloc, ranges, 1, &[b"A1", b"A12", b"A99"], &[b"A", b"B1"])
}

fn go_on(alloc: Global, map: &KeyMap<Text>, ranges: &mut Ranges) -> Result<bool, Refusal> {
    let places: [&[u8]; 4] = [b"A", b"A1", b"A12", b"A2"];
    for place in places {
        query(alloc, map, ranges, place)?;
    }
    has_read(alloc, ranges, 1, &[b"A1", b"A35"], &[b"A", b"A351", b"A4"])
}

fn goes(alloc: Global, map: &mut KeyMap<Text>, ranges: &mut Ranges) -> Result<bool, Refusal> {
    put_all(alloc, map, &NODES)?;
    let forward = go_forward(alloc, map, ranges)?;
    ranges.clear();
    let backward = go_backward(alloc, map, ranges)?;
    ranges.clear();
    let on = go_on(alloc, map, ranges)?;
    Ok(forward && backward && on)
}

fn all_go(alloc: Global) -> bool {
    let mut map = KeyMap::new(alloc);
    let mut ranges = Ranges::new(alloc);
    goes(alloc, &mut map, &mut ranges) == Ok(true)
}

#[test]
fn loops_over_a_level_and_over_nodes_note_one_range(rt: HostRuntime) {
    assert!(rt; all_go(rt.alloc()));
}

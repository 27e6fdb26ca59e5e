//! What is refused for want of memory changes nothing, and is done at the next try. It prints what was compared, and
//! `alike`, or what differs. Its parts, by number:
//!
//! 1. a transaction's commit, beside one that isn't refused (`commit.rt`);
//! 2. two sessions of a shared engine, against what they should come to (`sessions.rt`);
//! 3. the rekey of a store of old keys (`rekeying.rt`);
//! 4. a core that takes such a store over (`adopting.rt`);
//! 5. a thousand units, had back from a journal's bytes, or 60 where this part is run alone (`units.rt`);
//! 6. and further: one list of lines each, on a core beside one that isn't given what was refused (`lists.rt`).
//!
//! Standard input may ask for one part alone, and for allocations that are taken before (`allocations.rt`); so
//! `tests/refused_allocations` has each allocation of each part refused in turn. Where that one isn't reached the
//! program says how many are granted after the part.
#![tactic(auto)]

use allocations::{asked_by, granted, take};
use commit::comparing::Tally;
use refusal::Refusal;
use std::alloc::Global;
use std::io;
use std::io::Read;
use std::sync::Wait;
use turns::Turn;

mod adopting;
mod allocations;
mod commit;
mod lists;
mod rekeying;
mod sessions;
mod turns;
mod units;

// How many units are pushed where all is run, and where they are run alone.
const MANY_UNITS: u64 = 1000;

const FEW_UNITS: u64 = 60;

// What differs in the parts on a core, if anything does.
fn difference_on_cores(
    alloc: Global,
    turn: &mut Turn,
    refused: &mut u64,
) -> Result<Option<&'static str>, Refusal> {
    if turn.is_next() {
        let found = rekeying::difference(alloc, refused)?;
        if found.is_some() {
            return Ok(found);
        }
    }
    if turn.is_next() {
        let found = adopting::difference(alloc, refused)?;
        if found.is_some() {
            return Ok(found);
        }
    }
    if turn.is_next() {
        let count = if turn.is_alone() {
            FEW_UNITS
        } else {
            MANY_UNITS
        };
        let found = units::difference(alloc, count, refused)?;
        if found.is_some() {
            return Ok(found);
        }
    }
    lists::difference(alloc, turn, refused)
}

// What differs in the parts that are asked for, if anything does.
fn difference<R: Wait>(
    rt: &R,
    alloc: Global,
    turn: &mut Turn,
    tally: &mut Tally,
    refused: &mut u64,
) -> Result<Option<&'static str>, Refusal> {
    if turn.is_next() {
        let found = commit::difference(alloc, tally, refused)?;
        if found.is_some() {
            return Ok(found);
        }
    }
    if turn.is_next() {
        let found = sessions::difference(rt, alloc, refused)?;
        if found.is_some() {
            return Ok(found);
        }
    }
    difference_on_cores(alloc, turn, refused)
}

fn print_tally(rt: &impl Print, tally: &Tally) -> io::Result<()> {
    println!(rt;
        "contents compared: {}, their nodes: {}",
        tally.contents, tally.nodes
    )?;
    println!(rt; "newest stamps of keys compared: {}", tally.keys)?;
    println!(rt; "bytes of journals compared: {}", tally.bytes)?;
    println!(rt;
        "replies to a LOCK compared: {}, lock counts: {}",
        tally.locks, tally.counts
    )?;
    println!(rt; "answers compared: {}", tally.answers)
}

// What the parts come to; `left` is how many allocations are granted after them, where one part was asked for.
fn print_outcome(
    rt: &impl Print,
    outcome: Result<Option<&'static str>, Refusal>,
    refused: u64,
    left: Option<u64>,
) -> io::Result<()> {
    match (outcome, left) {
        (Ok(None), None) => println!(rt; "alike, steps refused: {refused}"),
        (Ok(None), Some(left)) => println!(rt; "alike, granted after it: {left}"),
        (Ok(Some(what)), _) => println!(rt; "they differ: {what}"),
        // Memory was refused outside the steps that are tried again.
        (Err(Refusal::OutOfMemory), _) => println!(rt; "nothing to compare"),
        (Err(refusal), _) => println!(rt; "a line is refused: {refusal}"),
    }
}

fn main(rt: HostRuntime) -> io::Result<()> {
    let mut digits = [0; 8];
    rt.reader().read(&mut digits)?;
    let asked = asked_by(&digits);
    take(rt.alloc(), asked.taken)?;
    let mut turn = Turn::new(asked.part);
    let mut tally = Tally::new();
    let mut refused: u64 = 0;
    let outcome = difference(&rt, rt.alloc(), &mut turn, &mut tally, &mut refused);
    let left = if turn.is_alone() {
        granted(rt.alloc())
    } else {
        None
    };
    if turn.is_past() {
        return println!(rt; "no such list");
    }
    print_tally(&rt, &tally)?;
    print_outcome(&rt, outcome, refused, left)
}

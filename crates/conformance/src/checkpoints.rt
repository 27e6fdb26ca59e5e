//! What a checkpoint lets go of, and what it keeps: docs/THEOREMS.md, "Checkpoints".
use crate::answers::{Acts, Row, are_answered, goes};
use collation::Job;
use job_core::{JobCore, Step};
use refusal::Refusal;
use std::alloc::{AllocError, Global};

// How many units the journal still has.
fn units_kept(core: &JobCore) -> Result<u64, AllocError> {
    let mut count: u64 = 0;
    for unit in core.journal().units() {
        drop(unit?);
        count = count.saturating_add(1);
    }
    Ok(count)
}

// Whether the base has this number, and one reference with this value.
fn base_is(core: &JobCore, number: u64, value: &[u8]) -> bool {
    let base = core.base();
    match base.nodes() {
        [(key, text)] => {
            base.number() == number && key.name() == b"A".as_slice() && text.as_slice() == value
        }
        _ => false,
    }
}

// Whether so many units are kept of a journal of this length.
fn keeps(core: &JobCore, kept: u64, length: u64) -> Result<bool, Refusal> {
    Ok(units_kept(core)? == kept && core.journal().len() == length)
}

// Whether a checkpoint stops at this number.
fn stops_at(core: &mut JobCore, number: u64) -> bool {
    core.checkpoint() == Ok(number)
}

// A checkpoint beside the transaction of job 2, which began after the first unit of two.
fn stops_at_the_start(alloc: Global, core: &mut JobCore) -> Result<bool, Refusal> {
    let moved = stops_at(core, 1) && base_is(core, 1, b"1");
    let kept = keeps(core, 1, 2)?;
    let went = are_answered(
        alloc,
        core,
        &[("2 $GET(^A)", "2 1"), ("2 TROLLBACK", "2 ok")],
    )?;
    Ok(moved && kept && went)
}

// Two more after its end; then a unit, which has the next number.
fn goes_on_to_now(alloc: Global, core: &mut JobCore) -> Result<bool, Refusal> {
    let moved = stops_at(core, 2) && base_is(core, 2, b"2");
    let stays = keeps(core, 0, 2)? && stops_at(core, 2);
    let is_set = are_answered(alloc, core, &[("1 SET ^A=3", "1 ok")])?;
    Ok(moved && stays && is_set && keeps(core, 1, 3)?)
}

fn moves_to_the_least_open_start(alloc: Global, core: &mut JobCore) -> Result<bool, Refusal> {
    Ok(stops_at_the_start(alloc, core)? && goes_on_to_now(alloc, core)?)
}

// Whether a checkpoint's base has one empty value, and the tallies of jobs 1 and 2 there.
fn has_tallies(core: &mut JobCore) -> Result<bool, Refusal> {
    if core.checkpoint() != Ok(5) || !base_is(core, 5, b"") {
        return Ok(false);
    }
    let base = core.base();
    Ok(base.tally(Job::new(1)?) == 2 && base.tally(Job::new(2)?) == 1)
}

// Job 2 is blocked by what job 1 had before the checkpoint, and goes on as job 1 gives it back.
fn blocks_until_given_back(alloc: Global, core: &mut JobCore) -> Result<bool, Refusal> {
    let before: &[Row] = &[("2 LOCK +^A", "2 0"), ("1 LOCK -^A(1)", "1 1")];
    let after: &[Row] = &[
        ("2 LOCK +^A", "2 0"),
        ("1 LOCK -^A(1)", "1 1"),
        ("2 LOCK +^A", "2 1"),
    ];
    let first = stops_at(core, 2) && are_answered(alloc, core, before)?;
    let second = stops_at(core, 4) && are_answered(alloc, core, after)?;
    Ok(first && second)
}

fn push_checkpoints(steps: &mut Vec<Step>) -> Result<(), AllocError> {
    steps.push(Step::Checkpoint)?;
    steps.push(Step::Collect(1))?;
    steps.push(Step::Checkpoint)?;
    Ok(())
}

fn checkpoints(alloc: Global) -> Result<Vec<Step>, Refusal> {
    let mut steps = Vec::new(alloc);
    match push_checkpoints(&mut steps) {
        Ok(()) => Ok(steps),
        Err(AllocError) => {
            drop(steps);
            Err(Refusal::OutOfMemory)
        }
    }
}

// How many replies these steps have.
fn replies_of(core: &mut JobCore, steps: Vec<Step>) -> Result<usize, Refusal> {
    let replies = core.run(steps)?;
    Ok(replies.len())
}

// Whether they have none, and the base is moved by them.
fn moves_without_replies(alloc: Global, core: &mut JobCore) -> Result<bool, Refusal> {
    let replies = replies_of(core, checkpoints(alloc)?)?;
    Ok(replies == 0 && base_is(core, 1, b"1"))
}

// What a checkpoint does.
#[derive(Clone, Copy)]
enum Case {
    Start,
    Tallies,
    Locks,
    Among,
}

impl Acts for Case {
    fn act(self, alloc: Global, core: &mut JobCore) -> Result<bool, Refusal> {
        match self {
            Case::Start => moves_to_the_least_open_start(alloc, core),
            Case::Tallies => has_tallies(core),
            Case::Locks => blocks_until_given_back(alloc, core),
            Case::Among => moves_without_replies(alloc, core),
        }
    }
}

// Of a transaction that begins between two SETs.
const BESIDE: [&str; 3] = ["1 SET ^A=1", "2 TSTART", "1 SET ^A=2"];

const TALLIED: [&str; 6] = [
    "1 SET ^A=\"\"",
    "1 TSTART",
    "1 LOCK +^B",
    "1 TROLLBACK",
    "2 $GET(^A)",
    "1 HALT",
];

#[test]
fn a_checkpoint_moves_the_base_to_the_least_open_start(rt: HostRuntime) {
    assert!(rt; goes(rt.alloc(), &BESIDE, Case::Start));
}

#[test]
fn a_base_keeps_empty_values_and_tallies(rt: HostRuntime) {
    assert!(rt; goes(rt.alloc(), &TALLIED, Case::Tallies));
}

#[test]
fn locks_go_on_over_checkpoints(rt: HostRuntime) {
    assert!(rt; goes(rt.alloc(), &["1 LOCK +^A(1)"; 2], Case::Locks));
}

#[test]
fn a_checkpoint_among_steps_has_no_reply(rt: HostRuntime) {
    assert!(rt; goes(rt.alloc(), &["1 SET ^A=1"], Case::Among));
}

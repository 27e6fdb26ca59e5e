//! Turns of the collector that go with a call which writes.
ghost use Rattle.std.specs.Prelude.{◌≡◌};

use crate::holds::{is_told, push_line};
use pin_board::{Blank, SEATS};
use session_acts::{is_replied, opened};
use shared_engine::{BoardName, Hold, Session, Shared, Turn};
use std::alloc::Global;
use std::marker::Brand;
use std::sync::Wait;
use std::test::*;

// The turn that is handed to each call.
const DUE: Turn = Turn::Due(64);

// How often a node is set: more than 1,024 times, with which two nodes' older versions are many.
const OFTEN: usize = 1100;

// The turn that was handed to a hold of this line, once it was told so.
fn turn_with<B: BoardName, R: Wait>(
    rt: &R,
    alloc: Global,
    engine: &Shared<B>,
    session: &mut Session<B>,
    line: &str,
    want: &str,
) -> Option<Turn> {
    let mut turn = DUE;
    let mut hold = Hold::new(alloc);
    hold.begin(alloc, 1).ok()?;
    push_line(alloc, &mut hold, line)?;
    if session.tlevel() != 0 {
        return None;
    }
    engine.hold_lone(rt, session, &mut hold, &mut turn);
    if is_told(hold.served().next(), want) {
        Some(turn)
    } else {
        None
    }
}

// The turn that was handed to a commit of this line's SET.
fn turn_with_commit<B: BoardName, R: Wait>(
    rt: &R,
    alloc: Global,
    engine: &Shared<B>,
    session: &mut Session<B>,
    line: &str,
) -> Option<Turn> {
    let is_set = is_replied(rt, alloc, engine, session, "1 TSTART", "0 level 1\n")
        && is_replied(rt, alloc, engine, session, line, "0 ok\n");
    if !is_set || session.tlevel() != 1 {
        return None;
    }
    let mut turn = DUE;
    engine.tcommit(rt, session, &mut turn).ok()?;
    Some(turn)
}

// Whether a turn was taken which visited two keys, and dropped so many versions.
fn has_dropped(turn: Option<Turn>, dropped: usize) -> bool {
    match turn {
        Some(Turn::Taken(progress)) => progress.visited == 2 && progress.dropped == dropped,
        _ => false,
    }
}

// Whether job 1 sets a node again and again: so often that a turn pays.
fn is_set_often<B: BoardName, R: Wait>(
    rt: &R,
    alloc: Global,
    engine: &Shared<B>,
    session: &mut Session<B>,
) -> bool {
    for _ in 0..OFTEN {
        if !is_replied(rt, alloc, engine, session, "1 SET ^X=2", "0 ok\n") {
            return false;
        }
    }
    true
}

// Whether a turn is left to a later call where little lies there, one behind a commit keeps what an open transaction
// sees, one behind a SET drops it once that is over, and one is left where nothing was written since.
fn are_taken<B: BoardName, R: Wait>(
    rt: &R,
    alloc: Global,
    engine: &Shared<B>,
    mine: &mut Session<B>,
    other: &mut Session<B>,
) -> bool {
    turn_with(rt, alloc, engine, mine, "1 SET ^X=1", "ok") == Some(DUE)
        && is_replied(rt, alloc, engine, other, "2 TSTART", "0 level 1\n")
        && is_set_often(rt, alloc, engine, mine)
        && has_dropped(turn_with_commit(rt, alloc, engine, mine, "1 SET ^Y=1"), 0)
        && is_replied(rt, alloc, engine, other, "2 $GET(^X)", "0 1\n")
        && is_replied(rt, alloc, engine, other, "2 TROLLBACK", "0 ok\n")
        && has_dropped(
            turn_with(rt, alloc, engine, mine, "1 SET ^X=3", "ok"),
            OFTEN + 1,
        )
        && turn_with(rt, alloc, engine, mine, "1 $GET(^X)", "3") == Some(DUE)
}

// The other session, of job 2.
fn are_taken_beside<B: BoardName, R: Wait>(
    rt: &R,
    alloc: Global,
    engine: &Shared<B>,
    mine: &mut Session<B>,
) -> bool {
    match opened(rt, alloc, engine, 2) {
        Some(mut other) => are_taken(rt, alloc, engine, mine, &mut other),
        None => false,
    }
}

// The session that writes, of job 1.
fn are_taken_here<B: BoardName, R: Wait>(rt: &R, alloc: Global, engine: &Shared<B>) -> bool {
    match opened(rt, alloc, engine, 1) {
        Some(mut mine) => are_taken_beside(rt, alloc, engine, &mut mine),
        None => false,
    }
}

fn are_taken_by_two<B: BoardName, R: Wait>(rt: &R, alloc: Global, blank: Blank) -> bool
    requires { (blank.seat.table_id ≡ B.table) × (blank.words.seats ≡ 4096) }
{
    let engine = Shared::<B>::new(alloc, blank);
    are_taken_here(rt, alloc, &engine)
}

#[test]
fn turns_go_with_holds_and_commits(rt: HostRuntime) -> Result<(), Fail> {
    let blank = Blank::new(rt.alloc(), SEATS)?;
    let are_taken = are_taken_by_two::<Brand, _>(&rt, rt.alloc(), blank);
    assert!(rt; are_taken);
    Ok(())
}

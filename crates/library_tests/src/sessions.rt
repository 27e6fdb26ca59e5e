//! Calls of sessions that share a database, here from one thread: docs/LIBRARY.md, "Memory and threads".
use crate::copies::holds;
use crate::keys::{child, deepest};
use collation::Direction;
use command::{Command, Extent};
use embedded::Outcome;
use hub::Busy;
use lock_name::LockCommand;
use refusal::Refusal;
use session_calls::{
    Seat, checkpoint, collect, data, get, halt, hold, increment, kill, lock_again, look, look_data,
    look_order, look_query, merge, next_name, order, query, release, run, run_numbered, set, walk,
};
use std::alloc::Global;
use std::test::*;
use typed_calls::{LockForm, key_of_name, lock_command};

fn is_done(outcome: Result<Outcome, Busy>) -> bool {
    outcome == Ok(Outcome::Done)
}

// A session of job 1 in a database of its own.
fn alone(alloc: Global) -> Option<Seat> {
    let Ok(mut seat) = Seat::new(alloc) else {
        return None;
    };
    match seat.begin(alloc, 1) {
        Ok(Ok(())) => Some(seat),
        _ => None,
    }
}

// A session of another job in the same database.
fn beside(alloc: Global, seat: &Seat, job: u64) -> Option<Seat> {
    let Ok(mut other) = seat.beside() else {
        return None;
    };
    match other.begin(alloc, job) {
        Ok(Ok(())) => Some(other),
        _ => None,
    }
}

// Whether ^A with a subscript is set.
fn put(alloc: Global, seat: &mut Seat, subscript: &[u8], value: &[u8]) -> Result<bool, Refusal> {
    let key = child(alloc, b"A", subscript)?;
    Ok(is_done(set(seat, alloc, &key, value)))
}

// Whether this is read there.
fn reads(alloc: Global, seat: &mut Seat, subscript: &[u8], want: &[u8]) -> Result<bool, Refusal> {
    let key = child(alloc, b"A", subscript)?;
    let mut buffer = [0; 8];
    let mut wanted = 99;
    let outcome = get(seat, &key, &mut buffer, &mut wanted);
    Ok(is_done(outcome) && holds(&buffer, wanted, want))
}

// Whether adding 2 gives 7.
fn adds(alloc: Global, seat: &mut Seat) -> Result<bool, Refusal> {
    let key = child(alloc, b"A", b"7")?;
    let mut sum = [0; 8];
    let mut wanted = 99;
    let outcome = increment(seat, alloc, &key, b"2", &mut sum, &mut wanted);
    Ok(is_done(outcome) && holds(&sum, wanted, b"7"))
}

// Whether ^A(8) is a copy of ^A(7) then, and $DATA and KILL see the one.
fn copied_and_killed(alloc: Global, seat: &mut Seat) -> Result<bool, Refusal> {
    let from = child(alloc, b"A", b"7")?;
    let to = child(alloc, b"A", b"8")?;
    let merged = is_done(merge(seat, &to, &from));
    let mut number = 99;
    let told = is_done(data(seat, &to, &mut number)) && number == 1;
    let killed = is_done(kill(seat, &from, Extent::All));
    Ok(merged && told && killed)
}

fn values(alloc: Global, seat: &mut Seat) -> Result<bool, Refusal> {
    let is_set = put(alloc, seat, b"7", b"5")?;
    let added = adds(alloc, seat)?;
    let went = copied_and_killed(alloc, seat)?;
    let gone = reads(alloc, seat, b"7", b"")?;
    let there = reads(alloc, seat, b"8", b"7")?;
    Ok(is_set && added && went && gone && there)
}

fn values_alone(alloc: Global) -> Option<bool> {
    let mut seat = alone(alloc)?;
    values(alloc, &mut seat).ok()
}

#[test]
fn a_session_sets_adds_copies_and_kills(rt: HostRuntime) -> Result<(), Fail> {
    assert_eq!(rt; values_alone(rt.alloc()), Some(true));
    Ok(())
}

// Whether what comes first below ^A, of names and of nodes is found by commands.
fn found(alloc: Global, seat: &mut Seat) -> Result<bool, Refusal> {
    let mut key = key_of_name(alloc, b"A")?;
    let mut first = [0; 8];
    let mut of_first = 99;
    let forward = Direction::Forward;
    let ordered = is_done(order(seat, alloc, &key, b"", forward, &mut first, &mut of_first));
    let mut name = [0; 8];
    let mut of_name = 99;
    let named = is_done(next_name(seat, alloc, b"", forward, &mut name, &mut of_name));
    let moved = is_done(query(seat, &mut key, false, forward));
    let node = child(alloc, b"A", b"7")?;
    Ok(
        ordered
            && holds(&first, of_first, b"7")
            && named
            && holds(&name, of_name, b"A")
            && moved
            && key == node,
    )
}

// Whether the same, and the node's value and line, is found by looks.
fn looked(alloc: Global, seat: &mut Seat) -> Result<bool, Refusal> {
    let mut key = key_of_name(alloc, b"A")?;
    let mut first = [0; 8];
    let mut of_first = 99;
    let forward = Direction::Forward;
    let ordered = is_done(look_order(
        seat,
        alloc,
        false,
        &key,
        b"",
        forward,
        &mut first,
        &mut of_first,
    ));
    let moved = is_done(look_query(seat, false, &mut key, false, forward));
    let mut number = 99;
    let told = is_done(look_data(seat, false, &key, &mut number)) && number == 1;
    let mut value = [0; 8];
    let mut of_value = 99;
    let seen = is_done(look(seat, false, &key, &mut value, &mut of_value));
    Ok(
        ordered
            && holds(&first, of_first, b"7")
            && moved
            && told
            && seen
            && holds(&value, of_value, b"5"),
    )
}

// Whether a walk of all ends behind one node.
fn walked(alloc: Global, seat: &mut Seat) -> bool {
    let mut place = None;
    let mut nodes = [0; 64];
    let mut wanted = 0;
    let all = is_done(walk(
        seat,
        alloc,
        false,
        &None,
        &mut place,
        &mut nodes,
        &mut wanted,
    )) && wanted > 0;
    let end = walk(
        seat,
        alloc,
        false,
        &None,
        &mut place,
        &mut nodes,
        &mut wanted,
    );
    drop(place);
    all && end == Ok(Outcome::AtEnd) && wanted == 0
}

fn one_node(alloc: Global, seat: &mut Seat) -> Result<bool, Refusal> {
    let is_set = put(alloc, seat, b"7", b"5")?;
    let by_commands = found(alloc, seat)?;
    let by_looks = looked(alloc, seat)?;
    Ok(is_set && by_commands && by_looks && walked(alloc, seat))
}

fn one_node_alone(alloc: Global) -> Option<bool> {
    let mut seat = alone(alloc)?;
    one_node(alloc, &mut seat).ok()
}

#[test]
fn a_session_finds_one_node(rt: HostRuntime) -> Result<(), Fail> {
    assert_eq!(rt; one_node_alone(rt.alloc()), Some(true));
    Ok(())
}

// Whether a key of 31 subscripts stays, which no empty one may follow.
fn stays(alloc: Global, seat: &mut Seat) -> Result<bool, Refusal> {
    let mut key = deepest(alloc)?;
    let refused = Ok(Outcome::Refused(Refusal::TooManySubscripts));
    let asked = query(seat, &mut key, true, Direction::Backward);
    let looked = look_query(seat, false, &mut key, true, Direction::Backward);
    let at_it = query(seat, &mut key, false, Direction::Backward);
    Ok(asked == refused && looked == refused && at_it == Ok(Outcome::AtEnd))
}

fn stays_alone(alloc: Global) -> Option<bool> {
    let mut seat = alone(alloc)?;
    stays(alloc, &mut seat).ok()
}

#[test]
fn no_query_of_a_session_starts_below_31_subscripts(rt: HostRuntime) -> Result<(), Fail> {
    assert_eq!(rt; stays_alone(rt.alloc()), Some(true));
    Ok(())
}

// Whether ^A(7) has no value at the transaction's start, and has one now.
fn moved_on(alloc: Global, seat: &mut Seat) -> Result<bool, Refusal> {
    let key = child(alloc, b"A", b"7")?;
    let mut value = [0; 8];
    let mut wanted = 99;
    let before = look(seat, true, &key, &mut value, &mut wanted) == Ok(Outcome::NoValue);
    let now = is_done(look(seat, false, &key, &mut value, &mut wanted));
    Ok(before && now)
}

// A transaction is overtaken in what it read, begins anew, and is rolled back.
fn overtaken(alloc: Global, seat: &mut Seat, other: &mut Seat) -> Result<bool, Refusal> {
    let mut number = 99;
    let begun = is_done(run_numbered(seat, Command::Start, &mut number)) && number == 1;
    let read = reads(alloc, seat, b"7", b"")?;
    let written = put(alloc, other, b"7", b"1")?;
    let shown = moved_on(alloc, seat)?;
    let mine = put(alloc, seat, b"8", b"2")?;
    let end = run_numbered(seat, Command::Commit, &mut number);
    let anew = end == Ok(Outcome::Restarted) && number == 1;
    let back = is_done(run(seat, Command::Rollback));
    let gone = reads(alloc, seat, b"8", b"")?;
    Ok(begun && read && written && shown && mine && anew && back && gone)
}

fn two_overtake(alloc: Global) -> Option<bool> {
    let mut seat = alone(alloc)?;
    let mut other = beside(alloc, &seat, 2)?;
    overtaken(alloc, &mut seat, &mut other).ok()
}

#[test]
fn a_session_is_overtaken_by_another(rt: HostRuntime) -> Result<(), Fail> {
    assert_eq!(rt; two_overtake(rt.alloc()), Some(true));
    Ok(())
}

// Under a hold of a transaction, while another session is busy: the value is read and looked at, and so is one of another
// session's after the release.
fn held(alloc: Global, seat: &mut Seat, other: &mut Seat) -> Result<[bool; 7], Refusal> {
    let written = put(alloc, other, b"7", b"5")?;
    let begun = is_done(run(seat, Command::Start)) && is_done(hold(seat)) && is_done(hold(seat));
    let read = reads(alloc, seat, b"7", b"5")? && looked(alloc, seat)? && walked(alloc, seat);
    let key = child(alloc, b"A", b"7")?;
    let busy = set(other, alloc, &key, b"2") == Err(Busy);
    let released = release(seat) == Outcome::Done;
    let after = put(alloc, other, b"7", b"2")?;
    let stayed = reads(alloc, seat, b"7", b"5")?;
    Ok([written, begun, read, busy, released, after, stayed])
}

fn two_hold(alloc: Global) -> Option<[bool; 7]> {
    let mut seat = alone(alloc)?;
    let mut other = beside(alloc, &seat, 2)?;
    held(alloc, &mut seat, &mut other).ok()
}

#[test]
fn a_session_holds_for_several_reads(rt: HostRuntime) -> Result<(), Fail> {
    assert_eq!(rt; two_hold(rt.alloc()), Some([true; 7]));
    Ok(())
}

// What a LOCK of ^A(7) tells.
fn had(alloc: Global, seat: &mut Seat) -> Result<u64, Refusal> {
    let key = child(alloc, b"A", b"7")?;
    let command = lock_command(alloc, LockForm::More, &key)?;
    let mut number = 99;
    match run_numbered(seat, command, &mut number) {
        Ok(Outcome::Done) => Ok(number),
        _ => Ok(77),
    }
}

// What it tells when it is tried again.
fn had_again(alloc: Global, seat: &mut Seat) -> Result<u64, Refusal> {
    let key = child(alloc, b"A", b"7")?;
    let Command::Lock(command) = lock_command(alloc, LockForm::More, &key)? else {
        return Ok(66);
    };
    let mut number = 99;
    match lock_again(seat, command, &mut number) {
        Ok(Outcome::Done) => Ok(number),
        _ => Ok(77),
    }
}

// Whether the session ends.
fn ends(seat: &mut Seat) -> bool {
    match halt(seat) {
        Ok(Ok(pass)) => {
            drop(pass);
            true
        }
        _ => false,
    }
}

// A name is had by one, not by the other, and by that one once the first has ended.
fn handed_on(alloc: Global, seat: &mut Seat, other: &mut Seat) -> Result<[u64; 4], Refusal> {
    let first = had(alloc, seat)?;
    let second = had(alloc, other)?;
    let again = had_again(alloc, other)?;
    let at_last = if ends(seat) {
        had_again(alloc, other)?
    } else {
        55
    };
    Ok([first, second, again, at_last])
}

fn two_lock(alloc: Global) -> Option<[u64; 4]> {
    let mut seat = alone(alloc)?;
    let mut other = beside(alloc, &seat, 2)?;
    handed_on(alloc, &mut seat, &mut other).ok()
}

#[test]
fn a_name_is_handed_on_at_a_halt(rt: HostRuntime) -> Result<(), Fail> {
    assert_eq!(rt; two_lock(rt.alloc()), Some([1, 0, 0, 1]));
    Ok(())
}

// What a second session of a job is refused for, and what a seat without one answers.
fn refused(alloc: Global) -> Option<(Result<Result<(), Refusal>, Busy>, Result<Outcome, Busy>)> {
    let seat = alone(alloc)?;
    let Ok(mut other) = seat.beside() else {
        return None;
    };
    let twice = other.begin(alloc, 1);
    let none = run(&mut other, Command::Level);
    Some((twice, none))
}

#[test]
fn a_job_has_one_session(rt: HostRuntime) -> Result<(), Fail> {
    assert_eq!(rt;
        refused(rt.alloc()),
        Some((Ok(Err(Refusal::BadJob)), Ok(Outcome::NoEngine)))
    );
    Ok(())
}

// What upkeep answers behind two SETs.
fn kept_small(alloc: Global) -> Option<bool> {
    let mut seat = alone(alloc)?;
    let first = put(alloc, &mut seat, b"7", b"1").ok()?;
    let second = put(alloc, &mut seat, b"7", b"2").ok()?;
    let dropped = is_done(checkpoint(&mut seat));
    let looked = collect(&mut seat, 10);
    Some(
        first && second && dropped && (looked == Ok(Outcome::Done) || looked == Ok(Outcome::AtEnd)),
    )
}

#[test]
fn a_session_keeps_memory_small(rt: HostRuntime) -> Result<(), Fail> {
    assert_eq!(rt; kept_small(rt.alloc()), Some(true));
    Ok(())
}

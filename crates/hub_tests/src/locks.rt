//! LOCKs of a hub: each try is a call, and who waits waits here.
use crate::tries::{TURNS, is_done, line, number_in, opened};
use command::Command;
use hub::{Hub, HubSession};
use lock_name::LockCommand;
use session_acts::command_of;
use std::alloc::{AllocError, Global};
use std::sync::{Arc, Wait};
use std::test::*;
use std::thread;
use std::thread::Threads;

// How often each thread has the lock.
const ROUNDS: u64 = 50;

// The LOCK of a line.
fn lock_of(alloc: Global, text: &str) -> Option<LockCommand> {
    match command_of(alloc, text)? {
        Command::Lock(command) => Some(command),
        other => {
            drop(other);
            None
        }
    }
}

// The first try: whether it has its names, or none where it is refused.
fn first<R: Wait>(rt: &R, session: &mut HubSession, command: &LockCommand) -> Option<bool> {
    let _ = rt;
    for _ in 0..TURNS {
        if let Ok(done) = session.lock(command) {
            return done.ok();
        }
        thread::yield_now();
    }
    None
}

// One later try. One that is busy is in vain.
fn again(session: &mut HubSession, command: &LockCommand) -> Option<bool> {
    match session.lock_again(command) {
        Ok(done) => done.ok(),
        Err(_) => Some(false),
    }
}

// Later tries, until one has the names.
fn has_at_last<R: Wait>(rt: &R, session: &mut HubSession, command: &LockCommand) -> bool {
    let _ = rt;
    for _ in 0..TURNS {
        match again(session, command) {
            Some(true) => return true,
            Some(false) => thread::yield_now(),
            None => return false,
        }
    }
    false
}

// LOCK: whether it has its names in the end.
fn has_names<R: Wait>(rt: &R, session: &mut HubSession, command: &LockCommand) -> bool {
    match first(rt, session, command) {
        Some(true) => true,
        Some(false) => has_at_last(rt, session, command),
        None => false,
    }
}

// Sets the node to one more.
fn counts<R: Wait>(rt: &R, alloc: Global, session: &mut HubSession) -> Option<bool> {
    let next = number_in(line(rt, alloc, session, "1 $GET(^N)")?).wrapping_add(1);
    let set = format!(in alloc; "1 SET ^N={next}").ok()?;
    Some(is_done(rt, alloc, session, set.as_str()))
}

// Counts so often, each time under the lock: nobody else reads the node or sets it meanwhile.
fn rounds<R: Wait>(
    rt: &R,
    alloc: Global,
    session: &mut HubSession,
    lock: &LockCommand,
    unlock: &LockCommand,
) -> bool {
    for _ in 0..ROUNDS {
        let is_counted = has_names(rt, session, lock) && counts(rt, alloc, session) == Some(true);
        if !is_counted || !has_names(rt, session, unlock) {
            return false;
        }
    }
    true
}

// A job that counts. Whether each call was done.
fn counter<R: Wait>(rt: &R, alloc: Global, hub: &Arc<Hub, Global>, number: u64) -> Option<bool> {
    let lock = lock_of(alloc, "1 LOCK +^N")?;
    let unlock = lock_of(alloc, "1 LOCK -^N")?;
    let mut session = opened(rt, alloc, hub, number)?;
    Some(rounds(rt, alloc, &mut session, &lock, &unlock))
}

// Four threads count. Whether each did.
fn four_count<R: Threads + Wait + Sync>(
    rt: &R,
    alloc: Global,
    hub: &Arc<Hub, Global>,
) -> Option<bool> {
    let made = thread::map_indices(rt, alloc, 4, &|i| counter(rt, alloc, hub, i as u64 + 1)).ok()?;
    let mut all = true;
    for one in made {
        all = one? && all;
    }
    Some(all)
}

// What they have counted together.
fn counted<R: Threads + Wait + Sync>(rt: &R, alloc: Global) -> Option<(bool, u64)> {
    let hub = Hub::new(alloc).ok()?;
    let all = four_count(rt, alloc, &hub)?;
    let mut session = opened(rt, alloc, &hub, 9)?;
    let sum = number_in(line(rt, alloc, &mut session, "1 $GET(^N)")?);
    Some((all, sum))
}

#[test]
fn locks_of_four_threads_meet_and_no_count_is_lost(rt: HostRuntime) -> Result<(), Fail> {
    assert_eq!(rt; counted(&rt, rt.alloc()), Some((true, 200)));
    Ok(())
}

// One has a name that the other wants: the first tries of both, a later one while the name is had, and one once it is
// free.
fn two_want<R: Wait>(
    rt: &R,
    one: &mut HubSession,
    other: &mut HubSession,
    lock: &LockCommand,
    unlock: &LockCommand,
) -> Option<[bool; 4]> {
    let had = first(rt, one, lock)?;
    let wanted = first(rt, other, lock)?;
    let still = again(other, lock)?;
    if !first(rt, one, unlock)? {
        return None;
    }
    Some([had, wanted, still, again(other, lock)?])
}

// The same, and how many receipts each has: a try in vain behind the first gives none.
fn wanted<R: Wait>(rt: &R, alloc: Global) -> Option<([bool; 4], [usize; 2])> {
    let lock = lock_of(alloc, "1 LOCK +^N")?;
    let unlock = lock_of(alloc, "1 LOCK -^N")?;
    let hub = Hub::new(alloc).ok()?;
    let mut one = opened(rt, alloc, &hub, 1)?;
    let mut other = opened(rt, alloc, &hub, 2)?;
    let told = two_want(rt, &mut one, &mut other, &lock, &unlock)?;
    Some((told, [one.numbers().len(), other.numbers().len()]))
}

#[test]
fn a_lock_that_is_blocked_has_its_names_once_they_are_free(rt: HostRuntime) -> Result<(), Fail> {
    let told = wanted(&rt, rt.alloc());
    assert_eq!(rt; told, Some(([true, false, false, true], [2, 2])));
    Ok(())
}

//! Worked turns and passes of the collector.
use crate::contents::{first_at, write};
use collector::{Progress, pass, turn};
use refusal::Refusal;
use std::alloc::Global;
use std::test::*;
use version_store::KeyedStore;

// ^A at 3 absent, 2 "y" and 1 "x".
fn one_gone(alloc: Global, store: &mut KeyedStore) -> Result<bool, Refusal> {
    let first = write(alloc, store, b"A", 1, b"x")?;
    let second = write(alloc, store, b"A", 2, b"y")?;
    let third = write(alloc, store, b"A", 3, b"")?;
    Ok(first && second && third)
}

// ^A at 5 absent and 1 "x", ^B at 4 "z" and 2 "y", ^C at 3 "w".
fn three(alloc: Global, store: &mut KeyedStore) -> Result<bool, Refusal> {
    let first = write(alloc, store, b"A", 1, b"x")?;
    let second = write(alloc, store, b"B", 2, b"y")?;
    let third = write(alloc, store, b"C", 3, b"w")?;
    let fourth = write(alloc, store, b"B", 4, b"z")?;
    let fifth = write(alloc, store, b"A", 5, b"")?;
    Ok(first && second && third && fourth && fifth)
}

fn counts(visited: usize, dropped: usize, removed: usize) -> Progress {
    Progress {
        visited,
        dropped,
        removed,
        left: 0,
    }
}

// The first byte of the marked name.
fn marked(store: &KeyedStore) -> Option<u8> {
    match store.marked() {
        Some(key) => key.name().first().copied(),
        None => None,
    }
}

// Whether a turn takes out a key that is absent at its horizon.
fn is_turned(alloc: Global, store: &mut KeyedStore) -> Result<bool, Refusal> {
    Ok(
        one_gone(alloc, store)?
            && turn(alloc, store, 3, 1)? == counts(1, 3, 1)
            && store.key_after(None).is_none()
            && marked(store) == Some(b'A')
            && first_at(store, 2) == Err(Refusal::Gone)
            && first_at(store, 3) == Ok(None),
    )
}

#[test]
fn a_turn_takes_out_a_key_that_is_absent_at_the_horizon(rt: HostRuntime) -> Result<(), Fail> {
    let mut store = KeyedStore::new(rt.alloc());
    let is_turned = is_turned(rt.alloc(), &mut store);
    drop(store);
    assert_eq!(rt; is_turned, Ok(true));
    Ok(())
}

// Whether a pass takes it out, and the next visits nothing.
fn is_passed(alloc: Global, store: &mut KeyedStore) -> Result<bool, Refusal> {
    Ok(
        one_gone(alloc, store)?
            && pass(alloc, store, 3)? == counts(1, 3, 1)
            && pass(alloc, store, 3)? == counts(0, 0, 0)
            && marked(store) == Some(b'A'),
    )
}

#[test]
fn a_pass_takes_out_a_key_that_is_absent_at_the_horizon(rt: HostRuntime) -> Result<(), Fail> {
    let mut store = KeyedStore::new(rt.alloc());
    let is_passed = is_passed(rt.alloc(), &mut store);
    drop(store);
    assert_eq!(rt; is_passed, Ok(true));
    Ok(())
}

// Two turns of two keys each visit the three keys, and one of them again.
fn do_turns_go_on(alloc: Global, store: &mut KeyedStore) -> Result<bool, Refusal> {
    Ok(
        three(alloc, store)?
            && turn(alloc, store, 4, 2)? == counts(2, 1, 0)
            && marked(store) == Some(b'B')
            && turn(alloc, store, 5, 2)? == counts(2, 2, 1)
            && marked(store) == Some(b'A')
            && first_at(store, 5) == Ok(Some(b'B')),
    )
}

#[test]
fn turns_go_on_behind_the_mark(rt: HostRuntime) -> Result<(), Fail> {
    let mut store = KeyedStore::new(rt.alloc());
    let do_go_on = do_turns_go_on(rt.alloc(), &mut store);
    drop(store);
    assert_eq!(rt; do_go_on, Ok(true));
    Ok(())
}

// Whether a turn and a pass at a horizon after now are refused, and nothing is marked.
fn are_refused(alloc: Global, store: &mut KeyedStore) -> Result<bool, Refusal> {
    Ok(
        three(alloc, store)?
            && turn(alloc, store, 6, 1) == Err(Refusal::Ahead)
            && pass(alloc, store, 6) == Err(Refusal::Ahead)
            && marked(store).is_none(),
    )
}

#[test]
fn a_horizon_after_now_is_refused(rt: HostRuntime) -> Result<(), Fail> {
    let mut store = KeyedStore::new(rt.alloc());
    let are_refused = are_refused(rt.alloc(), &mut store);
    drop(store);
    assert_eq!(rt; are_refused, Ok(true));
    Ok(())
}

//! Worked versions: what each stamp shows, what a snapshot refuses, and what is left once a collector has been.
use collation::{Name, Ref, Subscripts, Text};
use globals::{Cut, OrderedView, Run};
use key_codec::Key;
use refusal::Refusal;
use std::alloc::Global;
use std::test::*;
use version_store::{KeyedStore, Snapshot};

fn reference(alloc: Global, name: &[u8]) -> Result<Ref, Refusal> {
    let name = Name::new(Text::from_slice(alloc, name)?)?;
    Ref::new(name, Subscripts::new(alloc))
}

fn key_of(alloc: Global, name: &[u8]) -> Result<Key, Refusal> {
    let reference = reference(alloc, name)?;
    let made = Key::of(alloc, &reference);
    drop(reference);
    match made {
        Ok(key) => Ok(key),
        Err(_) => Err(Refusal::OutOfMemory),
    }
}

fn change(alloc: Global, name: &[u8], value: &[u8]) -> Result<(Key, Option<Text>), Refusal> {
    let key = key_of(alloc, name)?;
    if value.is_empty() {
        return Ok((key, None));
    }
    match Text::from_slice(alloc, value) {
        Ok(text) => Ok((key, Some(text))),
        Err(_) => {
            drop(key);
            Err(Refusal::OutOfMemory)
        }
    }
}

// Puts the one change into the list, and its key into the store.
fn place(
    alloc: Global,
    store: &mut KeyedStore,
    name: &[u8],
    value: &[u8],
    changes: &mut Vec<(Key, Option<Text>)>,
) -> Result<(), Refusal> {
    changes.push(change(alloc, name, value)?)?;
    store.place_keys(alloc, changes.as_slice())?;
    Ok(())
}

fn write_placed(store: &mut KeyedStore, stamp: u64, changes: Vec<(Key, Option<Text>)>) -> bool {
    let is_ready = match changes.as_slice() {
        [(key, _)] => store.is_placed(key) && store.spare() > 0 && store.now() < stamp,
        _ => false,
    };
    if is_ready {
        store.write_reserved(stamp, changes);
    } else {
        drop(changes);
    }
    is_ready
}

// One change at the stamp; an empty value is an absence.
pub(crate) fn write(
    alloc: Global,
    store: &mut KeyedStore,
    name: &[u8],
    stamp: u64,
    value: &[u8],
) -> Result<bool, Refusal> {
    let mut changes = Vec::new(alloc);
    match place(alloc, store, name, value, &mut changes) {
        Ok(()) => Ok(write_placed(store, stamp, changes)),
        Err(refusal) => {
            drop(changes);
            Err(refusal)
        }
    }
}

// ^A at 4 "x" and 2 absent, and ^B at 3 "y".
fn worked(alloc: Global, store: &mut KeyedStore) -> Result<bool, Refusal> {
    let first = write(alloc, store, b"A", 2, b"")?;
    let second = write(alloc, store, b"B", 3, b"y")?;
    let third = write(alloc, store, b"A", 4, b"x")?;
    Ok(first && second && third)
}

// The name of the first reference that a stamp shows, found forward and then backward; or what is refused there.
pub(crate) fn first_at(store: &KeyedStore, stamp: u64) -> Result<Option<u8>, Refusal> {
    let view = store.view_at(stamp)?;
    match view.next(Cut::Start, None) {
        Some((key, _)) => Ok(last_before(&view, Cut::After(key))),
        None => Ok(None),
    }
}

fn last_before(view: &Snapshot<'_>, cut: Cut<'_>) -> Option<u8> {
    match view.prev(cut, None) {
        Some((key, _)) => key.name().first().copied(),
        None => None,
    }
}

fn newest(store: &KeyedStore, low: &Key, high: &Key) -> Option<u64> {
    store.newest_in(Cut::Before(low), Cut::Past(high))
}

fn are_shown(alloc: Global, store: &mut KeyedStore) -> Result<bool, Refusal> {
    Ok(
        worked(alloc, store)?
            && first_at(store, 2) == Ok(None)
            && first_at(store, 3) == Ok(Some(b'B'))
            && first_at(store, 4) == Ok(Some(b'A'))
            && first_at(store, 5) == Err(Refusal::Ahead),
    )
}

#[test]
fn worked_versions_show_their_contents(rt: HostRuntime) -> Result<(), Fail> {
    let mut store = KeyedStore::new(rt.alloc());
    let are_shown = are_shown(rt.alloc(), &mut store);
    drop(store);
    assert_eq!(rt; are_shown, Ok(true));
    Ok(())
}

fn last_name(run: &Run<'_>) -> Option<u8> {
    match run.last() {
        Some((key, _)) => key.name().first().copied(),
        None => None,
    }
}

// How many nodes a stamp shows, and the name of the last of them.
fn gathered_at(store: &KeyedStore, stamp: u64) -> Result<(usize, Option<u8>), Refusal> {
    let view = store.view_at(stamp)?;
    let run = view.gather(Cut::Start, None, 32);
    Ok((run.len(), last_name(&run)))
}

fn are_gathered(alloc: Global, store: &mut KeyedStore) -> Result<bool, Refusal> {
    Ok(
        worked(alloc, store)?
            && gathered_at(store, 2) == Ok((0, None))
            && gathered_at(store, 3) == Ok((1, Some(b'B')))
            && gathered_at(store, 4) == Ok((2, Some(b'B'))),
    )
}

#[test]
fn snapshots_gather_what_has_a_value(rt: HostRuntime) -> Result<(), Fail> {
    let mut store = KeyedStore::new(rt.alloc());
    let are_gathered = are_gathered(rt.alloc(), &mut store);
    drop(store);
    assert_eq!(rt; are_gathered, Ok(true));
    Ok(())
}

fn newest_of_both(alloc: Global, store: &KeyedStore) -> Result<Option<u64>, Refusal> {
    let low = key_of(alloc, b"A")?;
    let newest = newest_to(alloc, store, &low);
    drop(low);
    newest
}

fn newest_to(alloc: Global, store: &KeyedStore, low: &Key) -> Result<Option<u64>, Refusal> {
    let high = key_of(alloc, b"B")?;
    let newest = newest(store, low, &high);
    drop(high);
    Ok(newest)
}

fn newest_of_worked(alloc: Global, store: &mut KeyedStore) -> Result<Option<u64>, Refusal> {
    worked(alloc, store)?;
    newest_of_both(alloc, store)
}

#[test]
fn newest_in_a_range_counts_its_first_key(rt: HostRuntime) -> Result<(), Fail> {
    let mut store = KeyedStore::new(rt.alloc());
    let newest = newest_of_worked(rt.alloc(), &mut store);
    drop(store);
    assert_eq!(rt; newest, Ok(Some(4)));
    Ok(())
}

// Cuts and drops a key at a horizon: how many versions went, and whether the key did.
fn collect(
    alloc: Global,
    store: &mut KeyedStore,
    name: &[u8],
    horizon: u64,
) -> Result<(usize, bool), Refusal> {
    store.raise_cut(horizon)?;
    let key = key_of(alloc, name)?;
    let counts = collect_key(store, &key, horizon);
    store.mark(key);
    Ok(counts)
}

fn collect_key(store: &mut KeyedStore, key: &Key, horizon: u64) -> (usize, bool) {
    if !store.is_placed(key) || store.cut() < horizon {
        return (0, false);
    }
    let dropped = store.cut_key(key, horizon);
    (dropped, store.drop_key(key))
}

// A key with values at 1 and 2 and an absence at 3.
fn is_gone(alloc: Global, store: &mut KeyedStore) -> Result<bool, Refusal> {
    write(alloc, store, b"A", 1, b"x")?;
    write(alloc, store, b"A", 2, b"y")?;
    write(alloc, store, b"A", 3, b"")?;
    Ok(
        collect(alloc, store, b"A", 3)? == (3, true)
            && store.key_after(None).is_none()
            && store.marked().is_some()
            && first_at(store, 2) == Err(Refusal::Gone)
            && first_at(store, 3) == Ok(None),
    )
}

#[test]
fn key_that_is_absent_at_the_horizon_goes_with_its_versions(rt: HostRuntime) -> Result<(), Fail> {
    let mut store = KeyedStore::new(rt.alloc());
    let is_gone = is_gone(rt.alloc(), &mut store);
    drop(store);
    assert_eq!(rt; is_gone, Ok(true));
    Ok(())
}

// Kills a key with all under it, where the stamp is after now.
fn kill(alloc: Global, store: &mut KeyedStore, name: &[u8], stamp: u64) -> Result<bool, Refusal> {
    let key = key_of(alloc, name)?;
    let is_later = store.now() < stamp;
    if is_later {
        store.kill(stamp, &key);
    }
    drop(key);
    Ok(is_later)
}

fn is_killed(alloc: Global, store: &mut KeyedStore) -> Result<bool, Refusal> {
    Ok(
        worked(alloc, store)?
            && kill(alloc, store, b"A", 5)?
            && store.placed_count() == 1
            && first_at(store, 4) == Err(Refusal::Gone)
            && first_at(store, 5) == Ok(Some(b'B')),
    )
}

#[test]
fn killed_key_goes_with_its_versions_and_no_other(rt: HostRuntime) -> Result<(), Fail> {
    let mut store = KeyedStore::new(rt.alloc());
    let is_killed = is_killed(rt.alloc(), &mut store);
    drop(store);
    assert_eq!(rt; is_killed, Ok(true));
    Ok(())
}

//! What is shown.
use crate::rows::{ROWS, new_key};
use globals::{Cut, OrderedView, walk_from};
use key_codec::Key;
use refusal::Refusal;
use std::alloc::Global;
use version_store::{KeyedStore, Snapshot};

// Whether reference n has a value at a stamp.
fn has_value(n: u64, stamp: u64) -> bool {
    let first = n.saturating_add(1);
    let absent = n.saturating_add(16);
    let again = n.saturating_add(31);
    (first <= stamp && stamp < absent) || (again <= stamp && n % 3 != 0)
}

fn push_key(alloc: Global, keys: &mut Vec<Key>, n: usize) -> Result<(), Refusal> {
    let Some(row) = ROWS.get(n) else {
        return Ok(());
    };
    let key = new_key(alloc, row)?;
    keys.push(key)?;
    Ok(())
}

fn new_keys(alloc: Global) -> Result<Vec<Key>, Refusal> {
    let mut keys = Vec::new(alloc);
    for n in 0..ROWS.len() {
        push_key(alloc, &mut keys, n)?;
    }
    Ok(keys)
}

// Whether those of the references that have a value at the stamp are shown, and no other; how many were shown.
fn shown(view: &Snapshot<'_>, keys: &[Key], stamp: u64) -> (bool, usize) {
    let mut all = true;
    let mut count: usize = 0;
    for (n, key) in keys.iter().enumerate() {
        let is_there = view.get(key).is_some();
        all = all && is_there == has_value(n as u64, stamp);
        if is_there {
            count = count.saturating_add(1);
        }
    }
    (all, count)
}

fn nodes(view: &Snapshot<'_>) -> usize {
    let mut count: usize = 0;
    for _node in walk_from(view, Cut::Start) {
        count = count.saturating_add(1);
    }
    count
}

fn is_content(store: &KeyedStore, keys: &[Key], stamp: u64) -> Result<bool, Refusal> {
    let view = store.view_at(stamp)?;
    let (all, count) = shown(&view, keys, stamp);
    Ok(all && count == nodes(&view))
}

fn are_newest(store: &KeyedStore, keys: &[Key]) -> bool {
    for (n, key) in keys.iter().enumerate() {
        if store.newest_of(key) != Some((n as u64).saturating_add(31)) {
            return false;
        }
    }
    true
}

fn are_contents(store: &KeyedStore, keys: &[Key]) -> Result<bool, Refusal> {
    for stamp in 0..=45_u64 {
        if !is_content(store, keys, stamp)? {
            return Ok(false);
        }
    }
    Ok(true)
}

/// Whether a store has just the versions that `fill` writes: its stamps, the content at each of them, and the newest
/// stamp of each reference.
///
/// Refusals: `OutOfMemory`.
pub fn is_as_written(alloc: Global, store: &KeyedStore) -> Result<bool, Refusal> {
    let keys = new_keys(alloc)?;
    let are_stamps = store.now() == 45 && store.cut() == 0;
    Ok(are_stamps && are_newest(store, &keys) && are_contents(store, &keys)?)
}

/// Whether a view shows just what `fill` writes, as it stands at a stamp.
///
/// Refusals: `OutOfMemory`.
pub fn is_seen_at(alloc: Global, view: &Snapshot<'_>, stamp: u64) -> Result<bool, Refusal> {
    let keys = new_keys(alloc)?;
    let (all, count) = shown(view, &keys, stamp);
    Ok(all && count == nodes(view))
}

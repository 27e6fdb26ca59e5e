//! A store of old keys (`old_stores`) whose chains are put under new ones, at the second try where memory was refused:
//! between them it has old keys still, its stamps and its cells. Then it has to show what was written at each stamp.
use old_stores::{fill, is_as_written};
use refusal::Refusal;
use std::alloc::Global;
use version_store::Store;

// What a store of old keys tells of itself.
fn told(store: &Store) -> (bool, u64, u64, usize) {
    (store.is_short(), store.now(), store.cut(), store.spare())
}

// Rekeys it, at once or at the second try. Whether a refusal left what it tells.
fn is_rekeyed(alloc: Global, store: &mut Store, refused: &mut u64) -> Result<bool, Refusal> {
    let before = told(store);
    if store.rekey(alloc).is_ok() {
        return Ok(true);
    }
    *refused = refused.saturating_add(1);
    let is_same = told(store) == before;
    store.rekey(alloc)?;
    Ok(is_same)
}

fn is_shown(alloc: Global, store: &Store) -> Result<bool, Refusal> {
    match store.keyed() {
        Some(keyed) => is_as_written(alloc, keyed),
        None => Ok(false),
    }
}

fn difference_of(
    alloc: Global,
    store: &mut Store,
    refused: &mut u64,
) -> Result<Option<&'static str>, Refusal> {
    if !fill(alloc, store)? {
        return Ok(Some("what could be written"));
    }
    if !is_rekeyed(alloc, store, refused)? {
        return Ok(Some("what a refused one tells"));
    }
    if !is_shown(alloc, store)? {
        return Ok(Some("what is shown"));
    }
    Ok(None)
}

/// What differs, if anything does.
pub fn difference(alloc: Global, refused: &mut u64) -> Result<Option<&'static str>, Refusal> {
    let mut store = Store::new_short(alloc);
    difference_of(alloc, &mut store, refused)
}

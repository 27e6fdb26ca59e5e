//! A store of old keys (`old_stores`) that a core takes over, at the second try where memory was refused: between them it
//! has its stamps. Then the core has to show what was written last.
use job_core::JobCore;
use old_stores::{fill, is_seen_at};
use refusal::Refusal;
use std::alloc::Global;
use version_store::Store;

fn is_core(alloc: Global, core: &JobCore) -> Result<bool, Refusal> {
    let numbers = (core.journal().len(), core.base().number());
    Ok(numbers == (45, 45) && is_seen_at(alloc, &core.content(), 45)?)
}

// The second try.
fn is_adopted_now(alloc: Global, store: Store) -> Result<bool, Refusal> {
    match JobCore::adopt(alloc, store) {
        Ok(core) => {
            let is_right = is_core(alloc, &core);
            drop(core);
            is_right
        }
        Err(back) => {
            let (store, refusal) = back;
            drop(store);
            Err(refusal)
        }
    }
}

// Whether it is taken over, at once or at the second try, and a refusal left its stamps.
fn is_adopted(alloc: Global, store: Store, refused: &mut u64) -> Result<bool, Refusal> {
    let before = (store.now(), store.cut());
    match JobCore::adopt(alloc, store) {
        Ok(core) => {
            let is_right = is_core(alloc, &core);
            drop(core);
            is_right
        }
        Err(back) => {
            *refused = refused.saturating_add(1);
            let (store, _refusal) = back;
            let is_same = (store.now(), store.cut()) == before;
            Ok(is_adopted_now(alloc, store)? && is_same)
        }
    }
}

/// What differs, if anything does.
pub fn difference(alloc: Global, refused: &mut u64) -> Result<Option<&'static str>, Refusal> {
    let mut store = Store::new_short(alloc);
    let is_filled = fill(alloc, &mut store);
    if is_filled != Ok(true) {
        drop(store);
        is_filled?;
        return Ok(Some("what could be written to be taken over"));
    }
    if is_adopted(alloc, store, refused)? {
        Ok(None)
    } else {
        Ok(Some("what a core took over"))
    }
}

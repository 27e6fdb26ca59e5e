//! A store of old keys, and what is left of it once it is under new ones.
use old_stores::{fill, is_as_written};
use refusal::Refusal;
use std::alloc::Global;
use std::test::*;
use version_store::Store;

fn is_shown(alloc: Global, store: &Store) -> Result<bool, Refusal> {
    match store.keyed() {
        Some(keyed) => is_as_written(alloc, keyed),
        None => Ok(false),
    }
}

// Whether it is filled, and has old keys before the rekey alone; a second one is done too.
fn is_rekeyed(alloc: Global, store: &mut Store) -> Result<bool, Refusal> {
    Ok(
        store.is_short()
            && fill(alloc, store)?
            && store.keyed().is_none()
            && store.rekey(alloc) == Ok(())
            && !store.is_short()
            && store.rekey(alloc) == Ok(())
            && is_shown(alloc, store)?,
    )
}

#[test]
fn versions_are_the_same_under_new_keys(rt: HostRuntime) -> Result<(), Fail> {
    let mut store = Store::new_short(rt.alloc());
    let is_rekeyed = is_rekeyed(rt.alloc(), &mut store);
    drop(store);
    assert_eq!(rt; is_rekeyed, Ok(true));
    Ok(())
}

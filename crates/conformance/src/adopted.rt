//! Stores that a core takes over: docs/FORMATS.md, "Key bytes".
use crate::answers::answers;
use collation::Job;
use job_core::JobCore;
use old_stores::{fill, is_seen_at};
use refusal::Refusal;
use std::alloc::Global;
use version_store::Store;

fn core_of_store(alloc: Global, store: Store) -> Result<JobCore, Refusal> {
    match JobCore::adopt(alloc, store) {
        Ok(core) => Ok(core),
        Err(back) => {
            let (store, refusal) = back;
            drop(store);
            Err(refusal)
        }
    }
}

// The number of the last unit, that of the base, how many references the base has, and the tally of job 1 there.
fn told(core: &JobCore) -> Result<(u64, u64, usize, u64), Refusal> {
    let base = core.base();
    let job = Job::new(1)?;
    Ok((
        core.journal().len(),
        base.number(),
        base.nodes().len(),
        base.tally(job),
    ))
}

// What is told of a store of fifteen references that was taken over, and after one unit more.
fn goes_on(alloc: Global, core: &mut JobCore) -> Result<bool, Refusal> {
    let first = told(core)? == (45, 45, 10, 0);
    let is_seen = is_seen_at(alloc, &core.content(), 45)?;
    let is_read = answers(alloc, core, b"1 $GET(^AB(1))", b"1 \"a\"")?;
    let next = told(core)? == (46, 45, 10, 0);
    Ok(first && is_seen && is_read && next)
}

fn store_of_old_keys(alloc: Global) -> Result<Store, Refusal> {
    let mut store = Store::new_short(alloc);
    match fill(alloc, &mut store) {
        Ok(_) => Ok(store),
        Err(refusal) => {
            drop(store);
            Err(refusal)
        }
    }
}

// What is told of a store without references, and after one unit more.
fn begins(alloc: Global, core: &mut JobCore) -> Result<bool, Refusal> {
    let first = told(core)? == (0, 0, 0, 0);
    let is_set = answers(alloc, core, b"1 SET ^A=1", b"1 ok")?;
    Ok(first && is_set && told(core)? == (1, 0, 0, 0))
}

fn is_begun(alloc: Global, core: JobCore, is_filled: bool) -> bool {
    let mut core = core;
    let went = if is_filled {
        goes_on(alloc, &mut core)
    } else {
        begins(alloc, &mut core)
    };
    drop(core);
    went == Ok(true)
}

// Whether a core goes on from a store that it took over.
fn is_taken_over(alloc: Global, store: Store, is_filled: bool) -> bool {
    match core_of_store(alloc, store) {
        Ok(core) => is_begun(alloc, core, is_filled),
        Err(_) => false,
    }
}

fn is_old_taken_over(alloc: Global) -> bool {
    match store_of_old_keys(alloc) {
        Ok(store) => is_taken_over(alloc, store, true),
        Err(_) => false,
    }
}

// Ten of the fifteen references have a value at the last of 45 stamps.
#[test]
fn a_store_of_old_keys_is_taken_over(rt: HostRuntime) {
    assert!(rt; is_old_taken_over(rt.alloc()));
}

#[test]
fn a_store_without_references_is_taken_over(rt: HostRuntime) {
    assert!(rt; is_taken_over(rt.alloc(), Store::new(rt.alloc()), false));
}

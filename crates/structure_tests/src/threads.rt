//! What may cross to other threads. An `unsafe impl` is only looked at where its bound is asked for, so it is asked for here.
use cell_pool::{Cell, Pool};
use std::test::*;
use version_chain::Chains;

// Asks for the bounds.
fn crosses<T: Send + Sync>(it: &T) {
    let _ = it;
}

// Asks for them at a value that is out.
fn value_crosses(cell: &Cell<u64>) {
    crosses(cell);
}

#[test]
fn pools_values_and_chains_cross_threads(rt: HostRuntime) -> Result<(), Fail> {
    let mut pool = Pool::<u64>::new(rt.alloc());
    crosses(&pool);
    let is_made = pool.reserve(1).is_ok();
    let value = match pool.take(7) {
        Ok(cell) => {
            value_crosses(&cell);
            pool.give(cell)
        }
        Err(_) => 0,
    };
    pool.end();
    let chains = Chains::<u64>::new(rt.alloc());
    crosses(&chains);
    assert!(rt; is_made);
    assert_eq!(rt; value, 7);
    Ok(())
}

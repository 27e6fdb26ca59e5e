//! What no clause says of a pool: that it gives cells where there is memory, and that a value stays in its cell while
//! others come and go.
ghost use Rattle.std.specs.Prelude.{◌≡◌};

use cell_pool::Pool;
use std::test::*;

// Takes so many cells, one inside the other, and gives each back. Whether each had room, and held its value to the end.
fn nest(pool: &mut Pool<u64>, depth: u64) -> bool
    ensures pages { pool.new.pages ≡ pool.old.pages }
    ensures out { pool.new.out ≡ pool.old.out }
{
    if depth == 0 {
        return true;
    }
    match pool.take(depth) {
        Ok(cell) => {
            let are_kept = nest(pool, depth - 1);
            pool.give(cell) == depth && are_kept
        }
        Err(_) => false,
    }
}

#[test]
fn values_stay_while_a_thousand_cells_are_out(rt: HostRuntime) -> Result<(), Fail> {
    let mut pool = Pool::new(rt.alloc());
    let is_made = pool.reserve(1_000).is_ok();
    let are_kept = nest(&mut pool, 1_000) && nest(&mut pool, 1_000);
    let out = pool.out();
    let spare = pool.spare();
    pool.end();
    assert!(rt; is_made);
    assert!(rt; are_kept);
    assert_eq!(rt; out, 0);
    assert_eq!(rt; spare, 1_024);
    Ok(())
}

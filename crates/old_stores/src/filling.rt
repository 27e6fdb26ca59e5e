//! What is written.
use crate::rows::{ROWS, Row, old_key};
use collation::Text;
use key_codec::ShortKey;
use refusal::Refusal;
use std::alloc::Global;
use version_store::Store;

fn changes(
    alloc: Global,
    key: ShortKey,
    has_value: bool,
) -> Result<Vec<(ShortKey, Option<Text>)>, Refusal> {
    let value = if has_value {
        Some(Text::from_slice(alloc, b"a")?)
    } else {
        None
    };
    let mut changes = Vec::new(alloc);
    changes.push((key, value))?;
    Ok(changes)
}

// Whether the one change could be made: its reference is placed, a cell is reserved, and the stamp is after now.
fn write_placed(store: &mut Store, stamp: u64, changes: Vec<(ShortKey, Option<Text>)>) -> bool {
    if !store.is_short() {
        drop(changes);
        return false;
    }
    let is_ready = match changes.as_slice() {
        [(key, _)] => store.is_placed_short(key) && store.spare() > 0 && store.now() < stamp,
        _ => false,
    };
    if is_ready {
        store.write_short(stamp, changes);
    } else {
        drop(changes);
    }
    is_ready
}

// Whether the store has old keys, and so the reference a chain now.
fn place(alloc: Global, store: &mut Store, key: &ShortKey) -> Result<bool, Refusal> {
    if !store.is_short() {
        return Ok(false);
    }
    store.reserve_short(1)?;
    store.place_short(alloc, key)?;
    Ok(true)
}

fn write(
    alloc: Global,
    store: &mut Store,
    row: &Row,
    stamp: u64,
    has_value: bool,
) -> Result<bool, Refusal> {
    let key = old_key(alloc, row)?;
    if !place(alloc, store, &key)? {
        return Ok(false);
    }
    let changes = changes(alloc, key, has_value)?;
    Ok(write_placed(store, stamp, changes))
}

/// Writes all versions to a store of old keys that is empty, at stamps 1 to 45. Whether it is such a store.
///
/// Refusals: `OutOfMemory`.
pub fn fill(alloc: Global, store: &mut Store) -> Result<bool, Refusal> {
    let mut stamp: u64 = 0;
    for round in 0..3_usize {
        for (n, row) in ROWS.iter().enumerate() {
            stamp = stamp.saturating_add(1);
            let has_value = round == 0 || (round == 2 && n % 3 != 0);
            if !write(alloc, store, row, stamp, has_value)? {
                return Ok(false);
            }
        }
    }
    Ok(true)
}

//! Changes of a leaf's row.
ghost use Rattle.std.specs.Prelude.{◌≡◌, ◌+◌, ◌<◌, ◌≤◌, length, vec_capacity, [], Some, None, IfOk, IfErr, OnErr, IsSome, slice_index_or};
ghost use Rattle.std.specs.List.{insert};
ghost use Rattle.std.specs.FinMap.Entries.{find, put};
ghost use Rattle.btree.specs.Order.{Ascends, Each, IsBefore, IsAfter};
ghost use Rattle.btree.specs.Rows.{branch_of, HasRoom, HasBecome};
ghost use Rattle.std.specs.declared.cmp.Ordering.TheVariants.{Equal};

use crate::node::Node;
use crate::row::{insert_reserved, make_room, move_from, replace_value};
use crate::search::{place, place_near};
use crate::separator::copy_of;
use crate::split::{Beside, Inserted};
use std::alloc::{AllocError, AllocFailed, Global};

/// Sets the value of a key that is there, and gives the one before. Where it isn't, the value comes back.
pub fn replace_in_leaf<K: Ord + Drop, V: Drop>(
    entries: &mut Vec<(K, V)>,
    key: &K,
    value: V,
) -> Result<V, V>
    requires sorted { Ascends K.cmp entries.old.items }
    ensures before { IfOk result (λ before. find K.cmp key.now entries.old.items ≡ Some before) }
    ensures put { IfOk result (λ _. entries.new.items ≡ put K.cmp key.now value entries.old.items) }
    ensures length { length entries.new.items ≡ length entries.old.items }
    ensures capacity { vec_capacity entries.new ≡ vec_capacity entries.old }
    ensures handed_back { IfErr result (λ back. back ≡ value) }
    ensures missed { OnErr result (find K.cmp key.now entries.old.items ≡ None) }
    ensures kept { OnErr result (entries.new ≡ entries.old) }
{
    match place(entries, key) {
        Ok(at) => Ok(replace_value(entries, at, value)),
        Err(_) => Err(value),
    }
}

// A copy of the key that stands at the 17th place from the start, counted from 0, once a pair is inserted.
fn middle_key<K: Ord + Clone, V>(
    entries: &[(K, V)],
    at: usize,
    pair: &(K, V),
) -> Result<K, AllocError>
    requires full { length entries.now ≡ 32 }
    requires in_range { at ≤ 32 }
    ensures { IfOk result (λ key. (d : K × V) → K.cmp key (slice_index_or (insert entries.now at pair.now) 17 d).0 ≡ Equal) }
{
    if at < 17 {
        copy_of(&entries[16].0)
    } else if at == 17 {
        copy_of(&pair.0)
    } else {
        copy_of(&entries[17].0)
    }
}

// Puts a pair into a full leaf, whose upper half becomes a leaf of its own.
fn insert_full<K: Ord + Clone, V: Drop>(
    entries: &mut Vec<(K, V)>,
    alloc: Global,
    at: usize,
    pair: (K, V),
) -> Result<Beside<K, V>, AllocFailed<(K, V)>>
    requires full { length entries.old.items ≡ 32 }
    requires in_range { at ≤ 32 }
    requires sorted { Ascends K.cmp (insert entries.old.items at pair) }
    requires room { HasRoom entries.old }
    ensures grown { IfOk result (λ beside. HasBecome K.cmp 16 0 (insert entries.old.items at pair) (branch_of entries.new.items [] []) (Some beside)) }
    ensures room { HasRoom entries.new }
    ensures handed_back { IfErr result (λ refused. refused.value ≡ pair) }
    ensures refused { OnErr result (entries.new ≡ entries.old) }
{
    let Ok(upper) = Vec::with_capacity(alloc, 33) else {
        return Err(AllocFailed { value: pair });
    };
    let Ok(separator) = middle_key(entries, at, &pair) else {
        return Err(AllocFailed { value: pair });
    };
    insert_reserved(entries, at, pair);
    let upper = move_from(entries, 17, upper);
    Ok((separator, Node::leaf(alloc, upper)))
}

// Puts a pair into a leaf, and splits it if it was full. Where there is no memory, nothing changes, and the pair comes back.
fn insert_at<K: Ord + Clone, V: Drop>(
    entries: &mut Vec<(K, V)>,
    alloc: Global,
    at: usize,
    pair: (K, V),
) -> Result<Option<Beside<K, V>>, AllocFailed<(K, V)>>
    requires fits { length entries.old.items ≤ 32 }
    requires in_range { at ≤ length entries.old.items }
    requires sorted { Ascends K.cmp (insert entries.old.items at pair) }
    requires room { HasRoom entries.old }
    ensures grown { IfOk result (λ beside. HasBecome K.cmp (length entries.old.items) 0 (insert entries.old.items at pair) (branch_of entries.new.items [] []) beside) }
    ensures only_full { IfOk result (λ beside. IsSome beside → 32 ≤ length entries.old.items) }
    ensures room { HasRoom entries.new }
    ensures handed_back { IfErr result (λ refused. refused.value ≡ pair) }
    ensures refused { OnErr result (entries.new.items ≡ entries.old.items) }
{
    if entries.len() < 32 {
        let Ok(()) = make_room(entries) else {
            return Err(AllocFailed { value: pair });
        };
        insert_reserved(entries, at, pair);
        return Ok(None);
    }
    let beside = insert_full(entries, alloc, at, pair)?;
    Ok(Some(beside))
}

/// Sets the value of a key in a leaf, near a place. Where there is no memory, nothing changes, and both come back.
pub fn insert_leaf<K: Ord + Clone, V: Drop>(
    entries: &mut Vec<(K, V)>,
    alloc: Global,
    key: K,
    value: V,
    near: usize,
) -> Result<Inserted<K, V>, AllocFailed<(K, V)>>
    requires sorted { Ascends K.cmp entries.old.items }
    requires fits { length entries.old.items ≤ 32 }
    requires room { HasRoom entries.old }
    ensures before { IfOk result (λ r. r.0 ≡ find K.cmp key entries.old.items) }
    ensures grown { IfOk result (λ r. HasBecome K.cmp (length entries.old.items) 0 (put K.cmp key value entries.old.items) (branch_of entries.new.items [] []) r.1) }
    ensures only_full { IfOk result (λ r. IsSome r.1 → 32 ≤ length entries.old.items) }
    ensures fresh { IfOk result (λ r. IsSome r.1 → r.0 ≡ None) }
    ensures room { HasRoom entries.new }
    ensures handed_back { IfErr result (λ refused. refused.value ≡ (key, value)) }
    ensures refused { OnErr result (entries.new.items ≡ entries.old.items) }
{
    match place_near(entries, &key, near) {
        Ok(at) => Ok((Some(replace_value(entries, at, value)), None)),
        Err(at) => {
            let beside = insert_at(entries, alloc, at, (key, value))?;
            Ok((None, beside))
        }
    }
}
